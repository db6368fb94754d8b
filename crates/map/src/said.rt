// What is said on standard error, and the help.
use crate::line;
use cli::{Program, to_error_by};
use map_image::Fault;
use print::{newline, word};
use scene::{Numbered, Refusal};

pub fn program(rt: &HostRuntime) -> Program {
    Program {
        rt,
        name: b"map",
        help: b"map M11 M12 M13 M14 M21 ... M44 [FILE]

Writes the image of the scene in FILE under a map; - or no FILE is standard input. The sixteen numbers are a table, row by row: each
point's row (x, y, z, weight) is multiplied by it from the right, so x' = x M11 + y M21 + z M31 + weight M41.

Where there is no image, nothing is written: standard error has `refused N P`, the refusal's number and place, and why.

-h, --help        this
--version         the version
",
        usage: b"map: usage: map M11 M12 M13 M14 M21 ... M44 [FILE]\n",
    }
}

// Word i is no number.
pub fn no_map(program: &Program, i: usize) {
    if cli::has_word(program.rt, i) {
        program.refuse_word(b"", i, b" is no number");
    } else {
        program.refuse(b"a map has sixteen numbers");
    }
}

// The refusal of the scene s.
fn scene(rt: &HostRuntime, s: &[u8], r: Refusal) {
    to_error_by(rt, |out| {
        let p = word(out, 0, b"why: ");
        let q = print_why::sentence(s, r, out, p);
        newline(out, q)
    });
}

fn rule(rt: &HostRuntime, before: &[u8], number: usize) {
    to_error_by(rt, |out| {
        let p = word(out, 0, before);
        let q = print_refusals::rule(out, p, number);
        newline(out, q)
    });
}

// Of an accepted scene: 17 and 18 are the map's, and the others the image's.
fn image(rt: &HostRuntime, number: usize) {
    if number < 17 {
        rule(rt, b"why: in the image ", number);
        return;
    }
    rule(rt, b"why: ", number);
}

fn explain(rt: &HostRuntime, s: &[u8], f: Fault) {
    let j = judge::judge(s);
    match j {
        Err(r) => scene(rt, s, r),
        Ok(()) => image(rt, f.number()),
    }
}

pub fn refused(rt: &HostRuntime, s: &[u8], f: Fault) {
    to_error_by(rt, |out| line::refused(f, out));
    explain(rt, s, f);
}
