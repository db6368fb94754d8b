// Puts random byte strings, and mutations of the scene on standard input, through the judge and every question, all in one process, and
// prints for each question how often it was answered and how often refused with which number.
#![tactic(auto)]

ghost use Rattle.std.specs.Prelude.{◌≤◌, length};

use crate::asked::{ROWS, ask_points, ask_rest};
use crate::chance::next;
use crate::strings::{Bytes, make};
use print::{newline, next_number, word};
use scene::Scene;
use std::io::Print;

mod asked;
mod chance;
mod strings;

const STRINGS: usize = 120000;

// Room for the head and eleven rows, each a name and fifteen numbers.
const TEXT: usize = 4096;

// The first n bytes of s through every question; the next random number.
fn ask_all(s: &[u8], n: usize, x: u64, tally: &mut [u64; ROWS]) -> u64 {
    if n > s.len() {
        return x;
    }
    let y = ask_points(&s[..n], x, tally);
    ask_rest(&s[..n], y, tally)
}

// The same of an array, whose length its type tells.
fn ask_bytes(s: &Bytes, n: usize, x: u64, tally: &mut [u64; ROWS]) -> u64 {
    ask_all(s, n, x, tally)
}

// One string through every question; the next random number.
fn turn(base: &[u8], x: u64, tally: &mut [u64; ROWS]) -> u64 {
    let mut s = [0u8; Scene::LONGEST + 1];
    let made = make(base, x, &mut s);
    ask_bytes(&s, made.len, next(made.seed), tally)
}

fn turns(base: &[u8], tally: &mut [u64; ROWS]) {
    let mut x: u64 = 1;
    for _ in 0..STRINGS {
        x = turn(base, x, tally);
    }
}

// The row of question q: its name, then how often it was answered and refused 1 to 14.
fn row(name: &[u8], q: usize, tally: &[u64; ROWS], out: &mut [u8], at: usize) -> usize
    requires { q ≤ 10 }
    ensures { result ≤ length out.new }
{
    let mut p = word(out, at, name);
    for n in &tally[15 * q..15 * q + 15] {
        p = next_number(out, p, *n as usize);
    }
    newline(out, p)
}

fn head(out: &mut [u8]) -> usize
    ensures { result ≤ length out.new }
{
    let p = word(out, 0, b"strings");
    let q = next_number(out, p, STRINGS);
    word(
        out,
        q,
        b"\nquestion answered 1 2 3 4 5 6 7 8 9 10 11 12 13 14\n",
    )
}

fn points(tally: &[u64; ROWS], out: &mut [u8], at: usize) -> usize
    ensures { result ≤ length out.new }
{
    let a = row(b"judge", 0, tally, out, at);
    let b = row(b"sign", 1, tally, out, a);
    let c = row(b"pierces", 2, tally, out, b);
    let d = row(b"mask", 3, tally, out, c);
    row(b"enclosed", 4, tally, out, d)
}

fn rest(tally: &[u64; ROWS], out: &mut [u8], at: usize) -> usize
    ensures { result ≤ length out.new }
{
    let a = row(b"verdict", 5, tally, out, at);
    let b = row(b"counts", 6, tally, out, a);
    let c = row(b"listing", 7, tally, out, b);
    let d = row(b"part", 8, tally, out, c);
    let e = row(b"record", 9, tally, out, d);
    row(b"shown", 10, tally, out, e)
}

// All in one write, the last thing that the program does.
fn write_table(rt: &HostRuntime, tally: &[u64; ROWS], out: &mut [u8]) {
    let p = head(out);
    let q = points(tally, out, p);
    let end = rest(tally, out, q);
    rt.stdout().write_all(&out[..end]).is_ok();
}

fn main(rt: HostRuntime) {
    let mut s = [0u8; Scene::LONGEST];
    let n = cli::read(&mut rt.stdin(), &mut s).count;
    let mut tally = [0u64; ROWS];
    turns(&s[..n], &mut tally);
    let mut out = [0u8; TEXT];
    write_table(&rt, &tally, &mut out);
}
