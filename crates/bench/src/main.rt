// bench FIRST SECOND [one P X Y Z W | two P X Y Z W | lecturer N X Y Z W]... opens a bench from two scenes and makes the moves of the
// command line: each answer is a line, and the next has both groups' counts.
#![tactic(auto)]

ghost use Rattle.std.specs.Prelude.{◌+◌, ◌<◌, ◌≤◌};

use bench_moves::{Answered, Bench, Fault, Group};
use cli::{Program, is_option, is_word};
use cli_words::number_at;
use print_lines::rows::least;
use scene::{Row, Scene};

mod said;
mod whys;

// The first word of the first move, and how many words a move has: whose it is, and five numbers.
const FIRST: usize = 3;

const WORDS: usize = 6;

#[derive(Clone, Copy)]
enum Who {
    Group(Group),
    Lecturer,
}

// Whom word i names.
fn who_at(rt: &HostRuntime, i: usize) -> Option<Who> {
    // A word that is longer than any name is read as none.
    let mut w = [0u8; 8];
    let n = cli::word_at(rt, i, &mut w);
    match &w[..n] {
        b"one" => Some(Who::Group(Group::One)),
        b"two" => Some(Who::Group(Group::Two)),
        b"lecturer" => Some(Who::Lecturer),
        _ => None,
    }
}

fn is_name(rt: &HostRuntime, i: usize) -> bool {
    who_at(rt, i).is_some()
}

fn is_number(rt: &HostRuntime, i: usize) -> bool {
    number_at(rt, i).is_some()
}

// The first word of a move that is wrong or missing.
fn wrong_move(rt: &HostRuntime, count: usize) -> Option<usize>
    requires { 3 ≤ count }
{
    for i in FIRST..count {
        let right = if i % WORDS == FIRST {
            is_name(rt, i)
        } else {
            is_number(rt, i)
        };
        if !right {
            return Some(i);
        }
    }
    if count % WORDS == FIRST {
        None
    } else {
        Some(count)
    }
}

// The first word that is wrong or missing.
fn wrong_word(rt: &HostRuntime, count: usize) -> Option<usize> {
    if is_option(rt, 1) {
        return Some(1);
    }
    if is_option(rt, 2) {
        return Some(2);
    }
    if count < FIRST {
        // Where there is no word at all, none is wrong.
        return if count == 0 { None } else { Some(count) };
    }
    wrong_move(rt, count)
}

fn value_at(rt: &HostRuntime, i: usize) -> i64 {
    number_at(rt, i).unwrap_or(0)
}

// A point's number: nothing has a number below 0, as nothing has 0.
fn point_at(rt: &HostRuntime, i: usize) -> usize {
    let z = value_at(rt, i);
    if z < 0 {
        return 0;
    }
    print::size(z)
}

// The move whose name is word i.
fn moved(rt: &HostRuntime, b: Bench, i: usize) -> Answered
    requires { i + 6 < 8388608 }
{
    let p = point_at(rt, i + 1);
    let v = Row {
        x: value_at(rt, i + 2),
        y: value_at(rt, i + 3),
        z: value_at(rt, i + 4),
        w: value_at(rt, i + 5),
    };
    match who_at(rt, i) {
        Some(Who::Group(g)) => b.group_move(g, p, v),
        _ => b.lecturer_move(p, v),
    }
}

// Whether it was written, as each of the two below.
fn say_answer(program: &Program, a: Result<(), Fault>) -> bool {
    // `refused` and two numbers, each of no more than 20 digits.
    let mut out = [0u8; 50];
    let n = said::answer(&mut out, a);
    program.write(&out[0..n])
}

fn say_counts(program: &Program, b: Bench) -> bool {
    let s = b.session(Group::One);
    let t = b.session(Group::Two);
    let mut out = [0u8; 140];
    let n = said::counts(&mut out, s.counts, t.counts);
    program.write(&out[0..n])
}

fn say(program: &Program, c: Answered) -> bool {
    let a = c.answer;
    let b = c.bench;
    say_answer(program, a) && say_counts(program, b)
}

// Nothing is played behind an answer that could not be written.
fn play(program: &Program, first: Bench, count: usize) -> bool
    requires { count < 4194304 }
{
    let mut b = first;
    for i in (FIRST..count).step_by(WORDS) {
        let c = moved(program.rt, b, i);
        if !say(program, c) {
            return false;
        }
        let a = c.answer;
        whys::moved(program.rt, a);
        b = c.bench;
    }
    true
}

fn say_usage(rt: &HostRuntime, k: usize) {
    cli::to_error_by(rt, |out| said::usage(out, k));
}

// The bench of two scenes, and the moves.
fn use_bench(program: &Program, s: &[u8], t: &[u8], count: usize)
    requires { count < 4194304 }
{
    let c = bench_moves::open(s, t);
    if !say(program, c) {
        return;
    }
    let a = c.answer;
    let b = c.bench;
    whys::opening(program.rt, a, s, t);
    if play(program, b, count) {
        program.finish();
    }
}

fn run(program: &Program, count: usize)
    requires { count < 4194304 }
{
    // One byte more than the longest scene tells that a file is too long.
    let mut s = [0u8; Scene::LONGEST + 1];
    let first = program.read_at(1, &mut s);
    if !first.whole {
        return;
    }
    let mut t = [0u8; Scene::LONGEST + 1];
    let second = program.read_at(2, &mut t);
    if !second.whole {
        return;
    }
    let m = first.count;
    let n = second.count;
    use_bench(program, &s[..m], &t[..n], count);
}

fn main(rt: HostRuntime) {
    let program = whys::program(&rt);
    if program.tells() {
        return;
    }
    // No system passes on so many words.
    let count = least(cli::word_count(&rt), 4194303);
    if let Some(k) = wrong_word(&rt, count) {
        say_usage(&rt, k);
        return;
    }
    if is_word(&rt, 1, b"-") && is_word(&rt, 2, b"-") {
        program.say(b"one of the two scenes may be standard input, and not both");
        return;
    }
    run(&program, count);
}
