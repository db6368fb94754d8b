// The file of a block: DIR/00001.block and so on. It is made under the same name with `.part` behind it, which no two programs can make
// at once, and renamed when it is whole.
ghost use Rattle.std.specs.Prelude.{◌≤◌, length};

use cli::Program;
use print::{number, word};
use std::fs::{File, OpenOptions};
use std::io::{ErrorKind, Write};
use std::{fs, io};

// No block's name is as long: five digits and more, and `/.block.part`.
const NAME: usize = 40;

fn zeros(out: &mut [u8], at: usize, n: usize) -> usize
    ensures { result ≤ length out.new }
{
    if n < 10 {
        return word(out, at, b"0000");
    }
    if n < 100 {
        return word(out, at, b"000");
    }
    if n < 1000 {
        return word(out, at, b"00");
    }
    if n < 10000 {
        return word(out, at, b"0");
    }
    word(out, at, b"")
}

pub fn put_name(out: &mut [u8], at: usize, n: usize) -> usize
    ensures { result ≤ length out.new }
{
    let p = zeros(out, at, n);
    let q = number(out, p, n);
    word(out, q, b".block")
}

fn put_path(out: &mut [u8], dir: &[u8], n: usize) -> usize
    ensures { result ≤ length out.new }
{
    let p = word(out, 0, dir);
    let q = word(out, p, b"/");
    put_name(out, q, n)
}

// A name that can't be looked up counts as taken.
fn is_taken(rt: &HostRuntime, path: &[u8]) -> bool {
    match cli::open(rt, path) {
        Ok(_) => true,
        Err(e) => e.kind() != ErrorKind::NotFound,
    }
}

fn say_taken(program: &Program, path: &[u8]) {
    let mut out = [0u8; 4160];
    let p = word(&mut out, 0, path);
    let e = word(
        &mut out,
        p,
        b": there is one already; no block is overwritten",
    );
    program.say(&out[0..e]);
}

fn filled(file: File, block: &[u8]) -> io::Result<()> {
    let mut out = file;
    out.write_all(block)?;
    cli::settle(&out)
}

fn is_filled(program: &Program, file: File, part: &[u8], block: &[u8]) -> bool {
    match filled(file, block) {
        Ok(()) => true,
        Err(e) => {
            program.fail(part, e);
            false
        }
    }
}

fn renamed(rt: &HostRuntime, part: &[u8], path: &[u8]) -> io::Result<()> {
    fs::rename(rt, cli::path(part)?, cli::path(path)?)
}

// The part is made, filled and put in place.
fn is_placed(program: &Program, file: File, part: &[u8], path: &[u8], block: &[u8]) -> bool {
    if is_taken(program.rt, path) {
        say_taken(program, path);
        return false;
    }
    if !is_filled(program, file, part, block) {
        return false;
    }
    match renamed(program.rt, part, path) {
        Ok(()) => true,
        Err(e) => {
            program.fail(path, e);
            false
        }
    }
}

fn created(rt: &HostRuntime, part: &[u8]) -> io::Result<File> {
    OpenOptions::new()
        .write(true)
        .create_new(true)
        .open(rt, cli::path(part)?)
}

fn removed(rt: &HostRuntime, part: &[u8]) -> io::Result<()> {
    fs::remove_file(rt, cli::path(part)?)
}

fn made(program: &Program, part: &[u8], path: &[u8], block: &[u8]) -> bool {
    match created(program.rt, part) {
        Err(e) => {
            program.fail(part, e);
            false
        }
        Ok(file) => {
            let placed = is_placed(program, file, part, path, block);
            if !placed {
                removed(program.rt, part).is_ok();
            }
            placed
        }
    }
}

// Whether it stands in its place; what can't be done is said.
pub fn write(program: &Program, dir: &[u8], n: usize, block: &[u8]) -> bool {
    let mut path = [0u8; 4096];
    if dir.len() > 4096 - NAME {
        program.say(b"the folder's name is too long");
        return false;
    }
    let e = put_path(&mut path, dir, n);
    let mut part = [0u8; 4096];
    let p = put_path(&mut part, dir, n);
    let q = word(&mut part, p, b".part");
    made(program, &part[0..q], &path[0..e], block)
}
