// map M11 M12 ... M44 [FILE] writes the image of a scene under a map, whose entries are the sixteen words, row by row.
#![tactic(auto)]

use asked::{map_of, row_of};
use cli::Program;
use cli_words::number_at;
use map_image::Map;
use map_image::image::image;
use scene::{Row, Scene};

mod asked;
mod line;
mod said;

// How many words a map has; the file is named behind them.
const ENTRIES: usize = 16;

const FILE: usize = ENTRIES + 1;

fn row_at(rt: &HostRuntime, i: usize, j: usize, k: usize, l: usize) -> Option<Row> {
    row_of(
        number_at(rt, i),
        number_at(rt, j),
        number_at(rt, k),
        number_at(rt, l),
    )
}

fn map_asked(rt: &HostRuntime) -> Option<Map> {
    map_of(
        row_at(rt, 1, 2, 3, 4),
        row_at(rt, 5, 6, 7, 8),
        row_at(rt, 9, 10, 11, 12),
        row_at(rt, 13, 14, 15, 16),
    )
}

// The first of the sixteen words that is no number.
fn wrong_word(rt: &HostRuntime) -> usize {
    (1..ENTRIES)
        .find(|i| number_at(rt, *i).is_none())
        .unwrap_or(ENTRIES)
}

fn write_image(program: &Program, s: &[u8], m: Map, out: &mut [u8]) {
    match image(s, m, out) {
        Err(f) => said::refused(program.rt, s, f),
        Ok(n) => {
            program.answer(&out[0..n]);
        }
    }
}

// Its buffers are not held while words are read.
#[inline(never)]
fn run(program: &Program, m: Map) {
    // One byte more than the longest scene tells that the input is too long.
    let mut s = [0u8; Scene::LONGEST + 1];
    let r = program.read_at(FILE, &mut s);
    let n = r.count;
    if r.whole {
        let mut out = [0u8; Scene::LONGEST];
        write_image(program, &s[..n], m, &mut out);
    }
}

// Behind the map stands a file or nothing.
fn run_on_file(program: &Program, m: Map) {
    let misused = program.is_misused(
        FILE,
        b" behind the map",
        b"nothing may stand behind the file: ",
    );
    if !misused {
        run(program, m);
    }
}

fn main(rt: HostRuntime) {
    let program = said::program(&rt);
    if program.tells() {
        return;
    }
    match map_asked(&rt) {
        Some(m) => run_on_file(&program, m),
        None => said::no_map(&program, wrong_word(&rt)),
    }
}
