// Prints the report of all blocks whose class reports stand in the files of the command line, or on standard input. They are read piece by
// piece, so that there may be any number.
#![tactic(auto)]

ghost use Rattle.std.specs.Prelude.{◌≤◌, length};

use class_print::ROOM;
use class_read::Reading;
use class_sum::SumError;
use class_tally::Report;
use cli::{Program, Source};
use cli_words::number_at;
use print::size;
use std::io;

mod said;

// 2^47 pieces are 2^63 bytes, more than a file has: the loop ends.
const MOST_PIECES: usize = 140737488355328;

// Behind --reports stands no number of reports.
#[derive(Clone, Copy)]
struct NoNumber;

// How far a text was read, why it could not be read further, and what is known there.
#[derive(Clone, Copy)]
struct Text {
    error: Option<io::Error>,
    bytes: usize,
    reading: Reading,
}

// How many reports the command line asks for, where it does.
fn reports_asked(rt: &HostRuntime) -> Result<Option<usize>, NoNumber> {
    if !cli::is_word(rt, 1, b"--reports") {
        return Ok(None);
    }
    let Some(n) = number_at(rt, 2) else {
        return Err(NoNumber);
    };
    if n < 0 {
        return Err(NoNumber);
    }
    Ok(Some(size(n)))
}

fn is_name(rt: &HostRuntime, i: usize, name: &[u8], room: &mut [u8]) -> bool {
    let n = cli::word_at(rt, i, room);
    &room[..n] == name
}

// Whether a word from the first file on and before word i is the same.
fn is_named_before(rt: &HostRuntime, first: usize, i: usize) -> bool {
    let mut room = [0u8; 4096];
    let mut name = [0u8; 4096];
    let n = cli::word_at(rt, i, &mut name);
    (first..i).any(|k| is_name(rt, k, &name[..n], &mut room))
}

// Whether the words from the first file on are names; the first that is none is told.
fn are_names(program: &Program, first: usize, count: usize) -> bool {
    for i in first..count {
        if cli::is_option(program.rt, i) {
            program.refuse_word(b"", i, b": an option where a file must stand");
            return false;
        }
        if is_named_before(program.rt, first, i) {
            said::twice(program, i);
            return false;
        }
    }
    true
}

// The name of an input, for people.
fn name_of(rt: &HostRuntime, i: usize, out: &mut [u8]) -> usize
    ensures { result ≤ length out.new }
{
    if cli::is_standard(rt, i) {
        return print::word(out, 0, b"standard input");
    }
    cli::word_at(rt, i, out)
}

// A text, read to its end or as far as it fits.
fn read_text(file: &mut Source, known: Reading) -> Text {
    let mut piece = [0u8; 65536];
    let mut error = None;
    let mut r = known;
    let mut bytes = 0;
    for _ in 0..MOST_PIECES {
        let got = cli::read(file, &mut piece);
        error = got.error;
        let n = got.count;
        let f = class_read::read(&piece[0..n], r);
        r = f.reading;
        bytes += f.end;
        if f.end < piece.len() {
            break;
        }
    }
    Text {
        error,
        bytes,
        reading: r,
    }
}

// Whether a text ends with a whole report, and its sums can be told; what is wrong is said.
fn stands(rt: &HostRuntime, name: &[u8], r: Reading, bytes: usize) -> bool {
    match class_sum::sum_of(r) {
        Ok(_) => true,
        Err(SumError::TooLarge) => {
            said::wrong_at(rt, name, b"a sum reaches 2^64 - 1", bytes);
            false
        }
        Err(SumError::NoReport) => {
            said::wrong_at(rt, name, b"no class report, or only a part of one", bytes);
            false
        }
    }
}

// The same of a text that was read. One that has no byte stands only where no other is asked for.
fn text_stands(program: &Program, name: &[u8], t: Text, may_be_empty: bool) -> bool {
    if let Some(e) = t.error {
        program.fail(name, e);
        return false;
    }
    if t.bytes == 0 && !may_be_empty {
        said::empty(program.rt, name);
        return false;
    }
    let r = t.reading;
    stands(program.rt, name, r, t.bytes)
}

// Reads the input that word i names, from what is known before it; what is known behind it, where it stands.
fn read_input(program: &Program, i: usize, alone: bool, known: Reading) -> Option<Reading> {
    let mut name = [0u8; 4096];
    let n = name_of(program.rt, i, &mut name);
    let mut file = program.open_at(i)?;
    let t = read_text(&mut file, known);
    text_stands(program, &name[0..n], t, alone).then_some(t.reading)
}

// Reads one input after the other, where all stand.
fn read_inputs(program: &Program, first: usize, count: usize) -> Option<Reading>
    requires { first ≤ 3 }
{
    let alone = cli::is_standard(program.rt, first) && count <= first + 1;
    let mut known = read_input(program, first, alone, class_sum::nothing())?;
    for i in first + 1..count {
        known = read_input(program, i, false, known)?;
    }
    Some(known)
}

// Whether as many reports were read as are asked for; other numbers are said.
fn is_asked(rt: &HostRuntime, asked: Option<usize>, read: usize) -> bool {
    if let Some(n) = asked {
        if read != n {
            said::number(rt, read, n);
            return false;
        }
    }
    true
}

fn print(program: &Program, r: Report) {
    let mut out = [0u8; ROOM];
    let p = class_print::sheet(&mut out, 0, r);
    program.answer(&out[0..p]);
}

fn merge_inputs(program: &Program, first: usize, asked: Option<usize>)
    requires { first ≤ 3 }
{
    let count = cli::word_count(program.rt);
    if !are_names(program, first, count) {
        return;
    }
    let Some(r) = read_inputs(program, first, count) else {
        return;
    };
    if !is_asked(program.rt, asked, r.reports) {
        return;
    }
    if let Ok(s) = class_sum::sum_of(r) {
        print(program, s);
    }
}

fn main(rt: HostRuntime) {
    let program = said::program(&rt);
    if program.tells() {
        return;
    }
    match reports_asked(&rt) {
        Ok(None) => merge_inputs(&program, 1, None),
        Ok(asked) => merge_inputs(&program, 3, asked),
        Err(_) => program.refuse(b"--reports: no number stands behind it"),
    }
}
