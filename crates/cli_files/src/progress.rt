// How far a walk is, on the terminal, where it takes longer than two seconds: a line that the next one, or any other, is written over.
ghost use Rattle.std.specs.Prelude.{◌≤◌};

use crate::Walk;
use print::{next_number, next_word};
use std::fs::OpenOptions;
use std::io::Write;
use std::time::SystemTime;

// The largest time that is told apart.
const LAST: u64 = 4611686018427387904;

fn seconds(rt: &HostRuntime) -> usize
    ensures { result ≤ 4611686018427387904 }
{
    let Ok(now) = SystemTime::now(rt) else {
        return 0;
    };
    let Ok(since) = now.duration_since(SystemTime::UNIX_EPOCH) else {
        return 0;
    };
    let n = since.as_secs();
    if n > LAST {
        return LAST as usize;
    }
    n as usize
}

// A walk that is shown.
pub fn started(rt: &HostRuntime, w: Walk) -> Walk {
    let mut v = w;
    v.shown = true;
    v.due = seconds(rt) + 2;
    v
}

fn show(w: &mut Walk) {
    // Two numbers of no more than 20 digits, and 11 bytes more.
    let mut out = [0u8; 64];
    let p = print::number(&mut out, 0, w.named);
    let q = rest(&mut out, p, w.all);
    let r = next_word(&mut out, q, b"files");
    let e = print::byte(&mut out, r, b'\r');
    if let Some(terminal) = &mut w.terminal {
        terminal.write_all(&out[0..e]).is_ok();
    }
}

fn rest(out: &mut [u8], at: usize, all: usize) -> usize {
    if all == 0 {
        return at;
    }
    let p = next_word(out, at, b"of");
    next_number(out, p, all)
}

fn opened(rt: &HostRuntime, w: Walk) -> Walk {
    let mut v = w;
    if v.terminal.is_none() {
        v.terminal = OpenOptions::new().append(true).open(rt, "/dev/tty").ok();
        v.shown = v.terminal.is_some();
    }
    v
}

// Where it is time.
pub fn told(rt: &HostRuntime, w: Walk) -> Walk {
    if !w.shown {
        return w;
    }
    let now = seconds(rt);
    if now < w.due {
        return w;
    }
    let mut v = opened(rt, w);
    v.due = now + 1;
    if v.shown {
        show(&mut v);
    }
    v
}

// The line is wiped out, and the terminal closed.
pub fn ended(w: &mut Walk) {
    if let Some(mut terminal) = w.terminal.take() {
        terminal
            .write_all(b"                                                      \r")
            .is_ok();
    }
}
