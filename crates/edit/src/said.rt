// What is said on standard error: a line for the opening and for each operation, and why it is refused.
use crate::steps;
use cli::{Program, to_error, to_error_by};
use print::{newline, word};
use scene::{Numbered, Refusal};
use session::Changed;

// Its usage is told with the word that is wrong.
pub fn program(rt: &HostRuntime) -> Program {
    Program {
        rt,
        name: b"edit",
        help: b"edit [move P X Y Z W | far X Y Z W | reverse F]... [FILE]

Writes the scene in FILE, changed by the operations in their order; - or no FILE is standard input.

    move P X Y Z W    the vertex with point number P to X, Y, Z with weight W; vertices are numbered from 1, A's before B's
    far X Y Z W       the far point
    reverse F         face F, its first and third corners swapped; faces are numbered from 1, A's before B's

Standard error has a line for the opening and one for each operation: `counts PAIRS A B`, the pierced pairs, the vertices of A
enclosed by B and those of B enclosed by A; or `refused N P`, and why. A refused operation changes nothing. Of a refused scene
nothing is written.

-h, --help        this
--version         the version
",
        usage: b"",
    }
}

// The counts after it, or its refusal.
fn answer(rt: &HostRuntime, c: Changed) {
    to_error_by(rt, |out| steps::line_of(out, c));
}

// The refusal of the scene s.
fn why(rt: &HostRuntime, s: &[u8], r: Refusal) {
    to_error_by(rt, |out| {
        let p = word(out, 0, b"why: ");
        let q = print_why::sentence(s, r, out, p);
        newline(out, q)
    });
}

pub fn opening(rt: &HostRuntime, s: &[u8], c: Changed) {
    answer(rt, c);
    let a = c.answer;
    if let Err(r) = a {
        why(rt, s, r);
    }
    if s.len() == 0 {
        to_error(
            rt,
            b"note: a shell empties FILE before `edit ... FILE > FILE` reads it; ",
        );
        to_error(
            rt,
            b"`bodhranhaze -o FILE edit ... FILE` changes a file in place\n",
        );
    }
}

fn rule(rt: &HostRuntime, r: Refusal) {
    to_error_by(rt, |out| print_refusals::line(out, 0, r.number()));
}

pub fn operation(rt: &HostRuntime, c: Changed) {
    answer(rt, c);
    let a = c.answer;
    if let Err(r) = a {
        rule(rt, r);
    }
}

pub fn nothing_written(rt: &HostRuntime) {
    to_error(rt, b"why: no scene is written\n");
}

// Word k is wrong.
pub fn usage(rt: &HostRuntime, k: usize) {
    to_error_by(rt, |out| steps::usage_of(out, k));
}
