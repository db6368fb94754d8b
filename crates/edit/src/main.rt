// edit [move P X Y Z W | far X Y Z W | reverse F]... [FILE] changes a scene by the operations on the command line. What each answers goes
// to standard error, and the scene at the end to standard output.
#![tactic(auto)]

ghost use Rattle.std.specs.Prelude.{◌<◌};

use crate::operations::{Operation, Wrong};
use cli::{Program, is_option};
use cli_words::number_at;
use print_lines::rows::least;
use scene::Scene;
use session::Session;

mod operations;
mod said;
mod steps;

// The operation whose name is word i.
fn operation_at(rt: &HostRuntime, i: usize) -> Result<Operation, Wrong>
    requires { i < 8388608 }
{
    // A word that is longer than any name is read as none.
    let mut w = [0u8; 8];
    let n = cli::word_at(rt, i, &mut w);
    let a = number_at(rt, i + 1);
    let b = number_at(rt, i + 2);
    let c = number_at(rt, i + 3);
    let d = number_at(rt, i + 4);
    let e = number_at(rt, i + 5);
    operations::operation_of(i, &w[..n], a, b, c, d, e)
}

// Word i is no operation, because of the word told: only the last may be a file's name.
fn words_at(rt: &HostRuntime, i: usize, e: Wrong, count: usize) -> Result<usize, Wrong>
    requires { i < count }
{
    if e.word == i && i + 1 == count && !is_option(rt, i) {
        return Ok(i);
    }
    Err(e)
}

// The word behind the operations, which names the file where there is one.
fn words_of(rt: &HostRuntime, count: usize) -> Result<usize, Wrong>
    requires { count < 4194304 }
{
    let mut i = 1;
    // No range: a step is as many words as the operation has.
    while i < count {
        match operation_at(rt, i) {
            Ok(o) => {
                i += operations::words_of(o);
            }
            Err(e) => {
                return words_at(rt, i, e, count);
            }
        }
    }
    Ok(i)
}

// The session after the operations.
fn play(rt: &HostRuntime, first: Session, count: usize) -> Session
    requires { count < 4194304 }
{
    let mut s = first;
    let mut i = 1;
    // No range: a step is as many words as the operation has.
    while i < count {
        let Ok(o) = operation_at(rt, i) else {
            return s;
        };
        let c = steps::step(s, o);
        said::operation(rt, c);
        s = c.session;
        i += operations::words_of(o);
    }
    s
}

fn write_scene(program: &Program, s: Session) {
    let mut out = [0u8; Scene::LONGEST];
    let n = steps::scene_in(s, &mut out);
    if n == 0 {
        said::nothing_written(program.rt);
        return;
    }
    program.answer(&out[0..n]);
}

// What is said on standard error is about the scene: where that cannot be said, the scene is written all the same.
fn change(program: &Program, s: &[u8], count: usize)
    requires { count < 4194304 }
{
    let c = session::open(s);
    said::opening(program.rt, s, c);
    write_scene(program, play(program.rt, c.session, count));
}

fn run(program: &Program, file: usize, count: usize)
    requires { count < 4194304 }
{
    // One byte more than the longest scene tells that the input is too long.
    let mut s = [0u8; Scene::LONGEST + 1];
    let r = program.read_at(file, &mut s);
    let n = r.count;
    if r.whole {
        change(program, &s[..n], count);
    }
}

fn main(rt: HostRuntime) {
    let program = said::program(&rt);
    if program.tells() {
        return;
    }
    // No system passes on so many words.
    let count = least(cli::word_count(&rt), 4194303);
    match words_of(&rt, count) {
        Ok(file) => run(&program, file, count),
        Err(e) => said::usage(&rt, e.word),
    }
}
