// The names of a list, a line each. A last line without its newline counts; an empty line is refused.
ghost use Rattle.std.specs.Prelude.{IfSome};
ghost use Rattle.cli.specs.Counts.{IsPrefixLen};

use crate::Walk;
use cli::{Program, Source};
use print::{next_number, next_word, word};
use std::io;
use std::io::Read;

// The next name: how many bytes of it stand in the lent buffer; none where there is no more.
#[derive(Drop)]
pub struct Next {
    pub walk: Walk,
    pub name: Option<usize>,
}

// The bytes of a piece of the list that are not read yet, and why there are no more where the list can't be read.
#[derive(Clone, Copy)]
struct Left {
    at: usize,
    end: usize,
    error: Option<io::Error>,
}

// A line of so many bytes, with its newline, or the list has ended behind it.
#[derive(Clone, Copy)]
struct Line {
    left: Left,
    count: usize,
    newline: bool,
}

// The bytes from `at` to `end`.
fn unread(at: usize, end: usize) -> Left {
    Left {
        at,
        end,
        error: None,
    }
}

// The list's next piece; no bytes where the list has ended or can't be read.
fn refill(list: &mut Source, piece: &mut [u8]) -> Left {
    match list.read(piece) {
        Ok(end) => unread(0, end),
        Err(e) => Left {
            at: 0,
            end: 0,
            error: Some(e),
        },
    }
}

// The next byte of the piece, and what is left behind it.
fn taken(left: Left, piece: &[u8]) -> (Left, Option<u8>) {
    let at = left.at;
    if at < left.end {
        if at < piece.len() {
            let mut next = left;
            next.at = at + 1;
            return (next, Some(piece[at]));
        }
    }
    (left, None)
}

fn next_byte(list: &mut Source, left: Left, piece: &mut [u8]) -> (Left, Option<u8>) {
    let (after, byte) = taken(left, piece);
    if byte.is_some() {
        return (after, byte);
    }
    let next = refill(list, piece);
    taken(next, piece)
}

// As much of the line as there is room for.
fn read_line(list: &mut Source, first: Left, piece: &mut [u8], name: &mut [u8]) -> Line
    ensures { IsPrefixLen result.count name.new }
{
    let mut left = first;
    for (count, place) in name.iter_mut().enumerate() {
        let (after, byte) = next_byte(list, left, piece);
        left = after;
        match byte {
            None | Some(b'\n') => {
                return Line {
                    left,
                    count,
                    newline: byte.is_some(),
                };
            }
            Some(b) => *place = b,
        }
    }
    Line {
        left,
        count: name.len(),
        newline: false,
    }
}

// The line behind those that were names.
fn refused(program: &Program, w: Walk, why: &[u8]) -> Walk {
    let mut out = [0u8; 128];
    let p = word(&mut out, 0, b"line");
    let q = next_number(&mut out, p, crate::one_more(w.named));
    let e = next_word(&mut out, q, why);
    program.say(&out[0..e]);
    let mut v = w;
    v.failed = true;
    v
}

// The line was read.
fn line_read(program: &Program, w: Walk, line: Line, full: bool) -> Walk {
    if let Some(e) = line.left.error {
        program.fail(b"the list of names", e);
        return w;
    }
    if full {
        return refused(program, w, b"of the list is longer than a name can be");
    }
    if line.count > 0 {
        return crate::counted(w);
    }
    if line.newline {
        return refused(program, w, b"of the list is empty");
    }
    let mut v = w;
    if v.named == 0 {
        program.say(b"the list names no file");
        v.failed = true;
    }
    v
}

// The walk's next name, of its list, which is not in it.
pub fn next_line(
    program: &Program,
    w: Walk,
    list: Source,
    piece: &mut [u8],
    name: &mut [u8],
) -> Next
    ensures { IfSome result.name (λ n. IsPrefixLen n name.new) }
{
    let mut source = list;
    let line = read_line(&mut source, unread(w.at, w.end), piece, name);
    let left = line.left;
    let n = line.count;
    let mut v = w;
    v.list = Some(source);
    v.at = left.at;
    v.end = left.end;
    v.failed = left.error.is_some();
    let read = line_read(program, v, line, n >= name.len());
    let found = if read.failed || n == 0 { None } else { Some(n) };
    Next {
        walk: read,
        name: found,
    }
}
