// A solid of a scene as an object text, on standard output; or on standard error why the scene is refused.
use cli::{Program, to_error_by};
use print::{newline, word};
use scene::{Refusal, Scene};

fn say_refused(rt: &HostRuntime, s: &[u8], r: Refusal) {
    to_error_by(rt, |out| {
        let p = print_refusals::refused(out, 0, r);
        let q = word(out, p, b"why: ");
        let e = print_why::sentence(s, r, out, q);
        newline(out, e)
    });
}

// The longest text has 48 lines of 22 bytes, 96 of 11, and two short ones.
fn write_text(program: &Program, s: &[u8], k: usize) {
    let mut out = [0u8; 4096];
    let p = off_write::drawing(&mut out, 0, s, k);
    program.answer(&out[0..p]);
}

fn write_read(program: &Program, s: &[u8], k: usize) {
    match judge::judge(s) {
        Ok(()) => write_text(program, s, k),
        Err(r) => say_refused(program.rt, s, r),
    }
}

// Of the scene that word 3 names.
pub fn write_solid(program: &Program, k: usize) {
    // One byte more than the longest scene tells that the input is too long.
    let mut s = [0u8; Scene::LONGEST + 1];
    let r = program.read_at(3, &mut s);
    let n = r.count;
    if r.whole {
        write_read(program, &s[..n], k);
    }
}
