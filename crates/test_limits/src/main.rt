// Prints for each scene of the table on standard input whether it is accepted. Its name is the entry before it.
#![tactic(auto)]

use print::word;
use std::io::Print;

// Room for a name, and for its line.
const NAME: usize = 64;

const LINE: usize = NAME + 64;

// Whether it was written.
fn write_judged(rt: &HostRuntime, name: &[u8], s: &[u8]) -> bool {
    let mut out = [0u8; LINE];
    let j = judge::judge(s);
    let p = word(&mut out, 0, name);
    let q = word(&mut out, p, b": ");
    let end = print_lines::judged(&mut out, q, j);
    rt.stdout().write_all(&out[..end]).is_ok()
}

fn write_scene(rt: &HostRuntime, name: &[u8]) -> bool {
    let mut s = [0u8; 65536];
    let len = test_entries::next(rt, &mut s).unwrap_or(0);
    write_judged(rt, name, &s[..len])
}

// Whether there was one more, and its line was written.
fn write_next(rt: &HostRuntime) -> bool {
    let mut name = [0u8; NAME];
    let Some(len) = test_entries::next(rt, &mut name) else {
        return false;
    };
    write_scene(rt, &name[..len])
}

fn main(rt: HostRuntime) {
    for _ in 0..usize::MAX {
        if !write_next(&rt) {
            return;
        }
    }
}
