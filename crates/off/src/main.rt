// off FIRST SECOND X Y Z W writes the scene of two object files and a far point; off --write K [FILE] writes solid K of a scene as an
// object text. What is refused is told on standard error.
#![tactic(auto)]

use cli::{Program, is_option, is_word, to_error};
use off_items::numbers::{Number, is_whole, signed_number};
use off_solids::points::Point;

mod making;
mod writing;

// The longest word that the system passes on.
const WORD: usize = 131072;

fn program(rt: &HostRuntime) -> Program {
    Program {
        rt,
        name: b"off",
        help: b"off FIRST SECOND X Y Z W
off --write K [FILE]

Writes the scene whose solids A and B are those of FIRST and SECOND, files in the OFF or 4OFF text form, and whose far point is X, Y, Z
with weight W. One of the two files may be -, standard input. With --write, writes solid K of the scene in FILE, 1 for A and 2 for B, as
such a text; - or no FILE is standard input.

What makes no scene is told on standard error: `refused N P`, and why. Nothing is written then.

-h, --help        this
--version         the version
",
        usage: b"off: usage: off FIRST SECOND X Y Z W
off: usage: off --write 1 [FILE], or off --write 2 [FILE]
",
    }
}

// Whether word i is a whole number; and the number that it tells.
fn is_number(rt: &HostRuntime, i: usize) -> bool {
    let mut word = [0u8; WORD];
    let n = cli::word_at(rt, i, &mut word);
    let w = &word[..n];
    is_whole(w, 0, w.len(), true)
}

fn number(rt: &HostRuntime, i: usize) -> Number {
    let mut word = [0u8; WORD];
    let n = cli::word_at(rt, i, &mut word);
    let w = &word[..n];
    signed_number(w, 0, w.len())
}

// The first of the far point's words that is no number.
fn wrong_number(rt: &HostRuntime) -> Option<usize> {
    for i in 3..7 {
        if !is_number(rt, i) {
            return Some(i);
        }
    }
    None
}

fn say_wrong(rt: &HostRuntime, i: usize) {
    let mut word = [0u8; WORD];
    let n = cli::word_at(rt, i, &mut word);
    to_error(rt, b"off: ");
    to_error(rt, &word[..n]);
    to_error(rt, b": this number of the far point is no whole number\n");
}

// The solid whose text is asked for, where the words are right.
fn solid_asked(rt: &HostRuntime) -> Option<usize> {
    if cli::has_word(rt, 4) || is_option(rt, 3) {
        return None;
    }
    if is_word(rt, 2, b"1") {
        return Some(1);
    }
    is_word(rt, 2, b"2").then_some(2)
}

fn has_files(rt: &HostRuntime) -> bool {
    cli::word_count(rt) == 7 && !is_option(rt, 1) && !is_option(rt, 2)
}

fn make(program: &Program) {
    if !has_files(program.rt) {
        to_error(program.rt, program.usage);
        return;
    }
    if let Some(i) = wrong_number(program.rt) {
        say_wrong(program.rt, i);
        return;
    }
    if is_word(program.rt, 1, b"-") && is_word(program.rt, 2, b"-") {
        program.say(b"one of the two files may be standard input, and not both");
        return;
    }
    making::write_files(
        program,
        Point {
            x: number(program.rt, 3),
            y: number(program.rt, 4),
            z: number(program.rt, 5),
            w: number(program.rt, 6),
        },
    );
}

fn main(rt: HostRuntime) {
    let program = program(&rt);
    if program.tells() {
        return;
    }
    if !is_word(&rt, 1, b"--write") {
        make(&program);
        return;
    }
    match solid_asked(&rt) {
        Some(k) => writing::write_solid(&program, k),
        None => to_error(&rt, program.usage),
    }
}
