// What the programs share: words of the command line, the input that a word names, read whole, and answers that are written whole. What
// can't be done is said on standard error behind the program's name (`Program`).
#![tactic(auto)]

ghost use Rattle.std.specs.Fn.{FnOnceReturnsAtMut};
ghost use Rattle.std.specs.Prelude.{MatchResult, ◌≡◌, ℕ, ◌≤◌, List, length};
ghost use Rattle.cli.specs.Counts.{IsPrefixLen};
ghost use Rattle.cli.specs.Path.{IsPath};

pub use crate::program::Program;
use std::env::FillError;
use std::fs::{File, OpenOptions};
use std::io::{ErrorKind, Print, Read, Write};
use std::rt::{Env, Stdin};
use std::{fs, io, str};

mod program;

// What `--version` tells.
const VERSION: &[u8] = b"bodhranhaze 1.0.0\n";

// No line that is said has more bytes.
const LINE: usize = 512;

// What was read: how many bytes, and whether these are all, or as many as there was room for; else why there are no more.
#[derive(Clone, Copy)]
pub struct Input {
    pub whole: bool,
    pub count: usize,
    pub error: Option<io::Error>,
}

// What is read: standard input, or a file, which is closed where this is dropped.
#[derive(Drop)]
pub enum Source {
    Standard(Stdin),
    Named(File),
}

impl Read for Source {
    fn read(&mut self, buf: &mut [u8]) -> io::Result<usize> {
        match self {
            Source::Standard(input) => input.read(buf),
            Source::Named(file) => file.read(buf),
        }
    }
}

// Word i of the command line, to the front of the buffer; how many bytes it has, or 0 where it is missing or has more than there is room
// for. (Word 0 is the program's own name.)
pub fn word_at(rt: &HostRuntime, i: usize, buf: &mut [u8]) -> usize
    ensures { IsPrefixLen result buf.new }
{
    match rt.arg(i, buf) {
        Ok(n) => n,
        Err(_) => 0,
    }
}

// Whether the command line has a word i.
pub fn has_word(rt: &HostRuntime, i: usize) -> bool {
    let mut word = [0u8; 1];
    match rt.arg(i, &mut word) {
        Ok(_) => true,
        Err(FillError::TooLong) => true,
        Err(FillError::NotPresent) => false,
    }
}

// How many words the command line has, the program's own name among them.
pub fn word_count(rt: &HostRuntime) -> usize {
    for i in 0..usize::MAX {
        if !has_word(rt, i) {
            return i;
        }
    }
    usize::MAX
}

// Whether word i of the command line is this one, of at most 32 bytes.
pub fn is_word(rt: &HostRuntime, i: usize, name: &[u8]) -> bool {
    let mut word = [0u8; 32];
    match rt.arg(i, &mut word) {
        Ok(n) => &word[..n] == name,
        Err(_) => false,
    }
}

// Whether word i begins with a minus sign and is not `-` alone.
pub fn is_option(rt: &HostRuntime, i: usize) -> bool {
    // A word that is longer leaves its first bytes here.
    let mut word = [0u8; 2];
    let n = word_at(rt, i, &mut word);
    if n == 1 {
        return false;
    }
    word[0] == b'-'
}

// A text on standard error, as it is. Where that can't be written there is no one to tell.
pub fn to_error(rt: &HostRuntime, text: &[u8]) {
    rt.stderr().write_all(text).is_ok();
}

// What `put` puts at the front of a buffer, up to the place that it answers, on standard error.
pub fn to_error_by<F: FnOnce(&mut [u8]) -> usize>(rt: &HostRuntime, put: F)
    requires callable { F.IsAlwaysCallable put }
    requires in_room { (old new : List ℕ) (n : ℕ) → FnOnceReturnsAtMut F.FnOnce put old n new → n ≤ length new }
{
    let mut out = [0u8; LINE];
    let n = put(&mut out);
    to_error(rt, &out[..n]);
}

// The words of an error, without the number that stands behind those of the system.
fn say_reason(rt: &HostRuntime, error: io::Error) {
    let mut out = [0u8; 256];
    let mut rest: &mut [u8] = &mut out;
    write!(rest, "{error}").is_ok();
    let left = rest.len();
    let n = 256usize.saturating_sub(left);
    let Ok(text) = str::from_utf8(&out[..n]) else {
        return;
    };
    match text.rsplit_once(" (os error ") {
        Some((words, _)) => to_error(rt, words.as_bytes()),
        None => to_error(rt, text.as_bytes()),
    }
}

// Some systems tell only where a file is closed that it could not be written. std passes nothing on from there, so a file is synced
// before, which tells the same; one that can't be synced tells nothing.
pub fn settle(file: &File) -> io::Result<()> {
    match file.sync_all() {
        Err(e) if matches!(e.kind(), ErrorKind::InvalidInput | ErrorKind::Unsupported) => Ok(()),
        settled => settled,
    }
}

// The file that standard output is, where it is an ordinary one.
fn output_file(rt: &HostRuntime) -> Option<File> {
    let name = "/proc/self/fd/1";
    let about = fs::metadata(rt, name).ok()?;
    if !about.is_file() {
        return None;
    }
    OpenOptions::new().append(true).open(rt, name).ok()
}

// Whether word i names standard input: it is `-`, or there is none.
pub fn is_standard(rt: &HostRuntime, i: usize) -> bool {
    if !has_word(rt, i) {
        return true;
    }
    is_word(rt, i, b"-")
}

// The name of the input that word i names, a part of a line on standard error.
pub fn say_name(rt: &HostRuntime, i: usize) {
    if is_standard(rt, i) {
        to_error(rt, b"standard input");
        return;
    }
    let mut name = [0u8; 4096];
    let n = word_at(rt, i, &mut name);
    to_error(rt, &name[..n]);
}

// A file's name, as std takes it: UTF-8 text without the byte 0, and no other.
pub fn path(name: &[u8]) -> io::Result<&str>
    ensures { MatchResult result (λ text. (text.now ≡ name.now) × IsPath name.now) (λ _. ¬ (IsPath name.now)) }
{
    if name.contains(&0) {
        return Err(io::Error::new(ErrorKind::InvalidInput, "Invalid argument"));
    }
    match str::from_utf8(name) {
        Ok(path) => Ok(path),
        Err(_) => Err(io::Error::new(ErrorKind::InvalidFilename, "the name is not UTF-8")),
    }
}

// Opens a file for reading.
pub fn open(rt: &HostRuntime, name: &[u8]) -> io::Result<File> {
    File::open(rt, path(name)?)
}

// One read to the front of the buffer; no bytes where the input has ended.
fn read_some(file: &mut impl Read, buf: &mut [u8]) -> Input
    ensures { IsPrefixLen result.count buf.new }
{
    match file.read(buf) {
        Ok(count) => Input {
            whole: true,
            count,
            error: None,
        },
        Err(e) => Input {
            whole: false,
            count: 0,
            error: Some(e),
        },
    }
}

// Reads until the buffer is full, the input ends or a read fails.
pub fn read(file: &mut impl Read, buf: &mut [u8]) -> Input
    ensures { IsPrefixLen result.count buf.new }
{
    let mut at = 0;
    let mut whole = true;
    let mut error = None;
    // No range: a step is as long as what one read gave.
    while at < buf.len() {
        let r = read_some(file, &mut buf[at..]);
        whole = r.whole;
        error = r.error;
        let n = r.count;
        if n == 0 {
            break;
        }
        at += n;
    }
    Input {
        whole,
        count: at,
        error,
    }
}
