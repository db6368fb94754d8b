// What is said: help, and on standard error what is wrong with the words, with an input or with the number of reports.
use cli::{Program, to_error};

pub fn program(rt: &HostRuntime) -> Program {
    Program {
        rt,
        name: b"merge",
        help: b"merge [--reports N] [FILE...]

Prints the report of all blocks whose class reports stand in the files, each of which has one or several, end to end; - or no FILE is
standard input. With --reports N it prints the report only where the files have exactly N whole reports in all.

A block whose report is `refused 23 0` makes the whole `refused 23 0`. A file that is empty, that ends inside a report or that is no
report is told on standard error, and so is a number of reports that is not N. Nothing is printed then.

-h, --help        this
--version         the version
",
        usage: b"merge: usage: merge [--reports N] [FILE...]\n",
    }
}

pub fn twice(program: &Program, i: usize) {
    program.say_word(b"", i, b": named twice");
}

fn say_number(rt: &HostRuntime, n: usize) {
    // No number has more digits.
    let mut out = [0u8; 20];
    let p = print::number(&mut out, 0, n);
    to_error(rt, &out[..p]);
}

fn wrong(rt: &HostRuntime, name: &[u8], why: &[u8]) {
    to_error(rt, b"merge: ");
    to_error(rt, name);
    to_error(rt, b": ");
    to_error(rt, why);
}

pub fn empty(rt: &HostRuntime, name: &[u8]) {
    wrong(rt, name, b"no class report, it is empty\n");
}

// What is wrong with the input of this name, and at which byte, counted from 1.
pub fn wrong_at(rt: &HostRuntime, name: &[u8], why: &[u8], byte: usize) {
    wrong(rt, name, why);
    to_error(rt, b"; byte ");
    say_number(rt, byte);
    to_error(rt, b" of the text\n");
}

// So many reports were read, and so many are asked for.
pub fn number(rt: &HostRuntime, read: usize, asked: usize) {
    to_error(rt, b"merge: ");
    say_number(rt, read);
    to_error(rt, b" reports, and ");
    say_number(rt, asked);
    to_error(rt, b" are asked for\n");
}
