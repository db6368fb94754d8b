// Prints the class report of the block in a file, or on standard input.
#![tactic(auto)]

use class_print::ROOM;
use class_tally::{Report, Tally};
use cli::Program;

fn program(rt: &HostRuntime) -> Program {
    Program {
        rt,
        name: b"marks",
        help: b"marks [FILE]

Prints the class report of the block in FILE, scenes end to end, no more than 65,536 bytes; - or no FILE is standard input.

    scenes N             how many scenes
    cross N              and how many of each verdict: cross, a-in-b, b-in-a, apart
    refused K N          how many were refused with number K, 1 to 9 and 14
    mean W R D           pierced pairs over accepted scenes: W and R out of D

A scene refused 1, 2 or 3 is the last that is counted. Of a longer block it prints `refused 23 0` alone.

-h, --help        this
--version         the version
",
        usage: b"marks: usage: marks [FILE]\n",
    }
}

fn print(program: &Program, r: Report) {
    let mut out = [0u8; ROOM];
    let p = class_print::sheet(&mut out, 0, r);
    program.answer(&out[0..p]);
}

fn mark_block(program: &Program) {
    // One byte more than the longest block tells that the input is too long.
    let mut block = [0u8; Tally::MOST_BYTES + 1];
    let r = program.read_at(1, &mut block);
    let n = r.count;
    if r.whole {
        print(program, class_tally::report_of(&block[..n]));
    }
}

fn main(rt: HostRuntime) {
    let program = program(&rt);
    if program.tells()
        || program.is_misused(1, b"", b"there is one file, and no word behind it: ")
    {
        return;
    }
    mark_block(&program);
}
