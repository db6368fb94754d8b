// Packs scenes that stand in files into blocks, each of whole scenes end to end. A block is written under another name and renamed when
// it is whole, and no file is overwritten. A file that is left out is lost from the class, and said.
#![tactic(auto)]

ghost use Rattle.std.specs.Prelude.{◌≡◌};
ghost use Rattle.judge.specs.Judge.{judged};
ghost use Rattle.pack.specs.Packed.{passes};

use class_tally::Tally;
use class_tally::files::sum;
use cli::Program;
use cli_files::{MOST_FILES, Walk, progress};
use print::{newline, next_number, word};
use scene::{Numbered, Refusal, Scene};
use std::io::ErrorKind;
use std::rt::Env;
use std::{fs, io};

mod blocks;

// How far it is; the block that is filled: its number, and how many bytes and scenes it has; and how many files were left out.
#[derive(Drop)]
struct Packing {
    walk: Walk,
    number: usize,
    at: usize,
    scenes: usize,
    left_out: usize,
    over: bool,
    failed: bool,
}

// The block's line on standard output.
fn tell(program: &Program, p: &Packing) -> bool {
    let mut out = [0u8; 128];
    let a = blocks::put_name(&mut out, 0, p.number);
    let b = next_number(&mut out, a, p.scenes);
    let c = next_number(&mut out, b, p.at);
    let e = newline(&mut out, c);
    program.write(&out[0..e])
}

// The block is written, and the next is empty.
fn written(program: &Program, p: Packing, dir: &[u8], block: &[u8]) -> Packing {
    let mut q = p;
    if q.at == 0 {
        return q;
    }
    if !blocks::write(program, dir, q.number, block) || !tell(program, &q) {
        q.failed = true;
        q.over = true;
        return q;
    }
    q.number = sum(q.number, 1);
    q.at = 0;
    q.scenes = 0;
    q
}

// Whether it can stand in a block: one that is refused with 1, 2 or 3 would end the block's report.
fn passes(j: Result<(), Refusal>) -> bool
    ensures { result ≡ passes j }
{
    match j {
        Ok(()) => true,
        Err(r) => r.number() > 3,
    }
}

fn say_refused(program: &Program, name: &[u8], r: Refusal) {
    let mut out = [0u8; 4160];
    let a = word(&mut out, 0, name);
    let b = word(&mut out, a, b": left out, refused");
    let c = next_number(&mut out, b, r.number());
    let e = next_number(&mut out, c, r.place());
    program.say(&out[0..e]);
}

fn say_judged(program: &Program, name: &[u8], j: Result<(), Refusal>) {
    if let Err(r) = j {
        say_refused(program, name, r);
    }
}

// What can't is said.
fn is_whole(program: &Program, name: &[u8], s: &[u8]) -> bool
    ensures { result ≡ passes (judged s.now) }
{
    let j = judge::judge(s);
    let whole = passes(j);
    if !whole {
        say_judged(program, name, j);
    }
    whole
}

fn has_room(at: usize, n: usize) -> bool {
    if n > Tally::MOST_BYTES {
        return false;
    }
    at <= Tally::MOST_BYTES - n
}

// One scene more, in this block or the next.
fn put(program: &Program, p: Packing, dir: &[u8], s: &[u8], block: &mut [u8]) -> Packing {
    let mut q = p;
    let at = q.at;
    if !has_room(at, s.len()) {
        if at <= block.len() {
            q = written(program, q, dir, &block[0..at]);
        }
        if q.failed {
            return q;
        }
    }
    q.at = word(block, q.at, s);
    q.scenes = sum(q.scenes, 1);
    q
}

fn left_out(p: Packing) -> Packing {
    let mut q = p;
    q.left_out = sum(q.left_out, 1);
    q
}

// A file that was read whole, or not.
fn taken(
    program: &Program,
    p: Packing,
    whole: bool,
    dir: &[u8],
    name: &[u8],
    s: &[u8],
    block: &mut [u8],
) -> Packing {
    if !whole {
        return left_out(p);
    }
    if !is_whole(program, name, s) {
        return left_out(p);
    }
    put(program, p, dir, s, block)
}

// The next file, where there is one.
fn packed(
    program: &Program,
    p: Packing,
    dir: &[u8],
    piece: &mut [u8],
    name: &mut [u8],
    s: &mut [u8],
    block: &mut [u8],
) -> Packing {
    let mut q = p;
    let r = cli_files::step(program, q.walk, piece, name, s);
    q.walk = r.walk;
    let n = r.count;
    let Some(k) = r.name else {
        q.over = true;
        return q;
    };
    taken(program, q, r.whole, dir, &name[..k], &s[..n], block)
}

fn all_packed(
    program: &Program,
    first: Packing,
    dir: &[u8],
    piece: &mut [u8],
    name: &mut [u8],
    s: &mut [u8],
    block: &mut [u8],
) -> Packing {
    let mut p = first;
    for _ in 0..MOST_FILES {
        p = packed(program, p, dir, piece, name, s, block);
        if p.over {
            break;
        }
    }
    p
}

// The last block. What was left out, and that there is more, is said.
fn finish(program: &Program, p: Packing, dir: &[u8], block: &[u8]) {
    let mut q = p;
    progress::ended(&mut q.walk);
    let at = q.at;
    if !q.failed && at <= block.len() {
        q = written(program, q, dir, &block[0..at]);
    }
    if q.left_out > 0 {
        cli_files::say_some(program, q.left_out, q.walk.named, b"files were left out");
    }
    if q.failed || q.walk.failed {
        program.say(b"stopped: not every file is packed");
        return;
    }
    program.finish();
}

fn run(program: &Program, walk: Walk, dir: &[u8]) {
    let mut piece = [0u8; 4096];
    let mut name = [0u8; 4096];
    // One byte more than the longest scene tells that a file is too long.
    let mut s = [0u8; Scene::LONGEST + 1];
    let mut block = [0u8; 65536];
    let first = Packing {
        walk,
        number: 1,
        at: 0,
        scenes: 0,
        left_out: 0,
        over: false,
        failed: false,
    };
    let p = all_packed(
        program, first, dir, &mut piece, &mut name, &mut s, &mut block,
    );
    finish(program, p, dir, &block);
}

fn make_folder(rt: &HostRuntime, name: &[u8]) -> io::Result<()> {
    fs::create_dir(rt, cli::path(name)?)
}

// The folder that word i names, made where it is missing.
fn run_in(program: &Program, walk: Walk, i: usize) {
    let mut dir = [0u8; 4096];
    let Ok(n) = program.rt.arg(i, &mut dir) else {
        program.fail_long(b"the name of the folder");
        return;
    };
    if let Err(e) = make_folder(program.rt, &dir[..n]) {
        if e.kind() != ErrorKind::AlreadyExists {
            program.fail(&dir[..n], e);
            return;
        }
    }
    run(program, walk, &dir[..n]);
}

fn start(program: &Program) {
    let w = cli_files::begin(program, 1);
    if w.failed {
        return;
    }
    let i = cli_files::first_word(program.rt);
    if cli::is_option(program.rt, i) {
        program.refuse(b"the first word is the blocks' folder");
        return;
    }
    run_in(program, w, i);
}

// Its help is what a wrong use is told.
const HELP: &[u8] =
    b"usage: pack [--progress] DIR FILE...\n       pack [--progress] DIR --names LIST\n\
          Puts the scenes end to end into blocks DIR/00001.block and so on, each of whole scenes and at most 65,536 bytes. Prints a\n\
          line a block: name, scenes, bytes. A file that can't be read or is refused with 1, 2 or 3 is left out, and said.\n\
          DIR is made where it is missing; no block is overwritten. LIST has a name a line; - is standard input.\n";

fn main(rt: HostRuntime) {
    let program = Program {
        rt: &rt,
        name: b"pack",
        help: HELP,
        usage: HELP,
    };
    start(&program);
}
