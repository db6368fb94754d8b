// ask [--formula] QUESTION [NUMBER...] [FILE] answers one question about a scene.
#![tactic(auto)]

ghost use Rattle.std.specs.Prelude.{◌≤◌, ◌<◌, length};

use crate::words::{Question, asked_at, count_at};
use cli::Program;
use pierce_engine::{Formula, Plain};
use print_answers::lent::{PLACES, TEXT};
use print_answers::{lent, reports};
use scene::Scene;
use survey_sides::Surveyor;

mod said;
mod words;

// The listing into so many lent places.
fn lent_listing<E: Surveyor>(engine: E, s: &[u8], places: usize, out: &mut [u8]) -> usize
    ensures { result ≤ length out.new }
{
    let mut list = [0u16; PLACES];
    let a = lent::lend(engine, s, places, &mut list);
    lent::listed(a, &list, out, 0)
}

// What is answered, but for the rows of a listing.
fn answer<E: Surveyor>(engine: E, q: Question, s: &[u8], out: &mut [u8]) -> usize
    ensures { result ≤ length out.new }
{
    match q {
        Question::Judge => print_answers::judge(s, out, 0),
        Question::Sign(a, b, c, d) => print_answers::sign(s, a, b, c, d, out, 0),
        Question::Pierces(u, v, f) => print_answers::pierces(engine, s, u, v, f, out, 0),
        Question::Mask(u, v, k) => print_answers::mask(engine, s, u, v, k, out, 0),
        Question::Enclosed(i) => print_answers::enclosed(engine, s, i, out, 0),
        Question::Verdict => print_answers::verdict(engine, s, out, 0),
        Question::Record(k) => print_answers::shown(s, k, out, 0),
        Question::Counts => print_answers::count(engine, s, out, 0),
        Question::Listing => print_answers::listing(engine, s, out, 0),
        Question::Lent(n) => lent_listing(engine, s, n, out),
        Question::Why => print_why::why(s, out, 0),
        Question::Clean => print_answers::clean(s, out, 0),
    }
}

// Whether they were written.
fn write_rows<E: Surveyor>(program: &Program, engine: E, s: &[u8]) -> bool {
    let mut list = [0u16; PLACES];
    let mut out = [0u8; TEXT];
    let r = reports::part(engine, s, 0, &mut list, &mut out);
    let end = r.end;
    program.write(&out[..end])
}

// Why there is no other answer. `why` has said it.
fn explain(rt: &HostRuntime, q: Question, s: &[u8], answer: &[u8]) {
    if let Question::Why = q {
        return;
    }
    let j = judge::judge(s);
    match j {
        Err(r) => said::scene(rt, s, r),
        Ok(()) => said::rule(rt, answer),
    }
}

// A write that fails is the last. Its buffers are not held while words are read.
#[inline(never)]
fn write_answer<E: Surveyor>(program: &Program, engine: E, q: Question, s: &[u8]) {
    let mut out = [0u8; TEXT];
    let end = answer(engine, q, s, &mut out);
    if !program.write(&out[..end]) {
        return;
    }
    if let Question::Listing = q {
        if !write_rows(program, engine, s) {
            return;
        }
    }
    if program.finish() {
        explain(program.rt, q, s, &out[..end]);
    }
}

fn reply<E: Surveyor>(program: &Program, engine: E, q: Question, file: usize) {
    // One byte more than the longest scene tells that the input is too long.
    let mut s = [0u8; Scene::LONGEST + 1];
    let r = program.read_at(file, &mut s);
    let n = r.count;
    if r.whole {
        write_answer(program, engine, q, &s[..n]);
    }
}

// The word at `file` names it, where it is the last.
fn reply_of<E: Surveyor>(program: &Program, engine: E, q: Question, file: usize)
    requires { file < 20 }
{
    let misused = program.is_misused(
        file,
        b" behind the question",
        b"nothing may stand behind the file: ",
    );
    if !misused {
        reply(program, engine, q, file);
    }
}

// The name of the question is word i.
fn ask<E: Surveyor>(program: &Program, engine: E, i: usize)
    requires { i < 9 }
{
    match asked_at(program.rt, i) {
        Ok(q) => reply_of(program, engine, q, i + count_at(program.rt, i)),
        Err(e) => said::unasked(program, i, e),
    }
}

fn main(rt: HostRuntime) {
    let program = said::program(&rt);
    if program.tells() {
        return;
    }
    if cli::is_word(&rt, 1, b"--formula") {
        ask(&program, Formula, 2);
    } else {
        ask(&program, Plain, 1);
    }
}
