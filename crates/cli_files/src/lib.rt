// What the programs that take many files share: the files that the words of the command line or the lines of a list name, one after the
// other, each read whole; what can't be read is said.
#![tactic(auto)]

ghost use Rattle.std.specs.Prelude.{◌≤◌, IfSome};
ghost use Rattle.cli.specs.Counts.{IsPrefixLen};

use cli::{Program, Source};
use print::{next_number, next_word, word};
use std::os::fd::{AsRawFd, IntoRawFd};
use std::rt::Env;
use std::{fs, io};

mod list;
pub mod progress;

// Which name is next: words from `at` to `end`, or the lines of a list, where there is one; of it the bytes from `at` to `end` of a lent
// piece are not read yet.
#[derive(Drop)]
pub struct Walk {
    pub list: Option<Source>,
    pub at: usize,
    pub end: usize,
    // How many names there were, and how many there are where that is known, else 0.
    pub named: usize,
    pub all: usize,
    // The names can't be read: that was said, and there is no walk, or no more of it.
    pub failed: bool,
    // Standard input was read as a file, which ends it: it can't be read once more.
    pub input_read: bool,
    // Whether the walk is shown on the terminal, once that is open, and the time when it is next.
    pub shown: bool,
    pub terminal: Option<fs::File>,
    pub due: usize,
}

// The next name, none where there is no more, and its file's bytes: how many stand in the lent buffers, and whether the file was read
// whole.
#[derive(Drop)]
pub struct File {
    pub walk: Walk,
    pub name: Option<usize>,
    pub whole: bool,
    pub count: usize,
}

// More steps than there are files: a loop over them ends.
pub const MOST_FILES: usize = 140737488355328;

// The number of standard error, the last of the standard ones.
const LAST_STANDARD: i32 = 2;

// The system's error about a file that is not open.
const BAD_FILE: i32 = 9;

// Whether a file that is opened has a number of its own. Where a standard one was closed it is open now, and stays so.
fn is_beyond_standard(rt: &HostRuntime) -> bool {
    let Ok(file) = cli::open(rt, b"/dev/null") else {
        return false;
    };
    if file.as_raw_fd() > LAST_STANDARD {
        return true;
    }
    file.into_raw_fd();
    false
}

// From here on no file that is opened takes the number of a standard one.
fn hold_standard(rt: &HostRuntime) {
    if is_beyond_standard(rt) || is_beyond_standard(rt) {
        return;
    }
    is_beyond_standard(rt);
}

// The first word behind `--progress`, where that is the first.
pub fn first_word(rt: &HostRuntime) -> usize
    ensures { result ≤ 2 }
{
    if cli::is_word(rt, 1, b"--progress") {
        2
    } else {
        1
    }
}

fn walk_over(list: Option<Source>, at: usize, end: usize) -> Walk {
    Walk {
        list,
        at,
        end,
        named: 0,
        all: 0,
        failed: false,
        input_read: false,
        shown: false,
        terminal: None,
        due: 0,
    }
}

fn no_walk() -> Walk {
    let mut w = walk_over(None, 0, 0);
    w.failed = true;
    w
}

// A wrong use.
fn refuse(program: &Program, why: &[u8]) -> Walk {
    program.refuse(why);
    no_walk()
}

fn refuse_option(program: &Program, i: usize) -> Walk {
    let mut name = [0u8; 64];
    let n = cli::word_at(program.rt, i, &mut name);
    let mut out = [0u8; 96];
    let p = word(&mut out, 0, b"unknown option");
    let q = next_word(&mut out, p, &name[..n]);
    refuse(program, &out[0..q])
}

// Of the list that word i names, the last.
fn of_list(program: &Program, i: usize) -> Walk {
    if !cli::has_word(program.rt, i) {
        return refuse(program, b"--names wants a list");
    }
    let Some(list) = program.open_at(i) else {
        return no_walk();
    };
    walk_over(Some(list), 0, 0)
}

// Of the files that the words from `first` on name, or `--names` and a list.
fn of_words(program: &Program, first: usize) -> Walk
    requires { first ≤ 3 }
{
    let count = cli::word_count(program.rt);
    if first >= count {
        return refuse(program, b"no file is named");
    }
    if cli::is_word(program.rt, first, b"--names") {
        if first + 2 < count {
            return refuse(program, b"--names takes one list, and no file beside it");
        }
        return of_list(program, first + 1);
    }
    if cli::is_option(program.rt, first) {
        return refuse_option(program, first);
    }
    let mut w = walk_over(None, first, count);
    w.all = count - first;
    w
}

// The walk that the command line asks for, behind so many words of the program's own; none where help was asked for, or the use is wrong.
pub fn begin(program: &Program, own: usize) -> Walk
    requires { own ≤ 1 }
{
    hold_standard(program.rt);
    let first = first_word(program.rt);
    if program.tells_at(first) {
        return no_walk();
    }
    let w = of_words(program, first + own);
    if first == 2 {
        return progress::started(program.rt, w);
    }
    w
}

// One name more than so many.
fn one_more(n: usize) -> usize {
    if n < MOST_FILES { n + 1 } else { n }
}

fn counted(w: Walk) -> Walk {
    let mut v = w;
    v.named = one_more(v.named);
    v
}

// A word that names a file; no name is longer than the buffer.
fn next_named(program: &Program, w: Walk, name: &mut [u8]) -> list::Next
    ensures { IfSome result.name (λ n. IsPrefixLen n name.new) }
{
    let at = w.at;
    if at >= w.end {
        return list::Next {
            walk: w,
            name: None,
        };
    }
    let mut v = counted(w);
    v.at = at + 1;
    let Ok(n) = program.rt.arg(at, name) else {
        program.fail_long(b"the name of a file");
        v.failed = true;
        return list::Next {
            walk: v,
            name: None,
        };
    };
    list::Next {
        walk: v,
        name: Some(n),
    }
}

fn next_name(program: &Program, w: Walk, piece: &mut [u8], name: &mut [u8]) -> list::Next
    ensures { IfSome result.name (λ n. IsPrefixLen n name.new) }
{
    let mut v = w;
    if let Some(list) = v.list.take() {
        return list::next_line(program, v, list, piece, name);
    }
    next_named(program, v, name)
}

// A word may name standard input; a line of a list, which may be standard input itself, names a file.
fn is_input(w: &Walk, name: &[u8]) -> bool {
    if w.list.is_some() {
        return false;
    }
    name == b"-".as_slice()
}

fn open(rt: &HostRuntime, w: &Walk, name: &[u8]) -> io::Result<Source> {
    if !is_input(w, name) {
        return Ok(Source::Named(cli::open(rt, name)?));
    }
    if w.input_read {
        return Err(io::Error::from_raw_os_error(BAD_FILE));
    }
    Ok(Source::Standard(rt.stdin()))
}

// Where that fails it is said, and the input is not whole.
fn read_named(program: &Program, w: &Walk, name: &[u8], buf: &mut [u8]) -> cli::Input
    ensures { IsPrefixLen result.count buf.new }
{
    match open(program.rt, w, name) {
        Err(e) => {
            program.fail(name, e);
            cli::Input {
                whole: false,
                count: 0,
                error: Some(e),
            }
        }
        Ok(source) => {
            let mut file = source;
            let r = cli::read(&mut file, buf);
            if let Some(e) = r.error {
                program.fail(name, e);
            }
            r
        }
    }
}

// The next file, read to the front of the buffer as far as there is room. Its name stands at the front of `name`.
pub fn step(program: &Program, w: Walk, piece: &mut [u8], name: &mut [u8], buf: &mut [u8]) -> File
    ensures prefix_len { IfSome result.name (λ n. IsPrefixLen n name.new) }
    ensures prefix_len_2 { IsPrefixLen result.count buf.new }
{
    let next = next_name(program, w, piece, name);
    let mut v = next.walk;
    let Some(n) = next.name else {
        return File {
            walk: v,
            name: None,
            whole: false,
            count: 0,
        };
    };
    let r = read_named(program, &v, &name[..n], buf);
    let k = r.count;
    if is_input(&v, &name[..n]) {
        v.input_read = true;
    }
    File {
        walk: progress::told(program.rt, v),
        name: Some(n),
        whole: r.whole,
        count: k,
    }
}

// `k of n` and the words, as a line of trouble.
pub fn say_some(program: &Program, k: usize, n: usize, words: &[u8]) {
    let mut out = [0u8; 160];
    let p = print::number(&mut out, 0, k);
    let q = next_word(&mut out, p, b"of");
    let r = next_number(&mut out, q, n);
    let e = next_word(&mut out, r, words);
    program.say(&out[0..e]);
}
