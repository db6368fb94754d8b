// Rows of numbers: those of a listing, as many as have room, and the bytes of a record.
ghost use Rattle.std.specs.Prelude.{◌≡◌, ◌-◌, min, leb};
ghost use Rattle.print.specs.Text.{line};
ghost use Rattle.print.specs.Put.{Put};
ghost use Rattle.print_lines.specs.Lines.{record_line, kept_line};
ghost use Rattle.print_lines.specs.Rows.{longest, rows_in, spaced, IsRow, IsRows};

use crate::pair;
use print::{newline, next_number, word};

// Room for any row: three numbers of five digits, two spaces and the newline.
pub const ROW: usize = 18;

// How many rows were put, and the place behind them.
#[derive(Clone, Copy)]
pub struct RowsPut {
    pub count: usize,
    pub end: usize,
}

pub fn least(a: usize, b: usize) -> usize
    ensures { result ≡ min a b }
{
    a.min(b)
}

// How many of n are left behind the first `from`.
pub fn left(n: usize, from: usize) -> usize
    ensures { result ≡ n - from }
{
    n.saturating_sub(from)
}

// Whether a row has room at a place of so many bytes.
fn has_room(bytes: usize, at: usize) -> bool
    ensures { result ≡ leb longest (bytes - at) }
{
    if bytes < at {
        return false;
    }
    bytes - at >= ROW
}

// The first n rows of the list, or all that it has, as far as each has room.
pub fn rows(out: &mut [u8], at: usize, list: &[u16], n: usize) -> RowsPut
    ensures { IsRows (rows_in list.now n) out.old at out.new result }
{
    if out.len() < at {
        return RowsPut {
            count: 0,
            end: out.len(),
        };
    }
    let m = least(n, list.len() / 3);
    let mut p = at;
    for i in 0..m {
        if !has_room(out.len(), p) {
            return RowsPut { count: i, end: p };
        }
        p = row(out, p, list[3 * i], list[3 * i + 1], list[3 * i + 2]);
    }
    RowsPut { count: m, end: p }
}

fn row(out: &mut [u8], at: usize, u: u16, v: u16, f: u16) -> usize
    ensures { IsRow u v f out.old at out.new result }
{
    pair(out, at, u as usize, v as usize, f as usize)
}

fn bytes(out: &mut [u8], at: usize, t: &[u8]) -> usize
    ensures { Put out.old at (spaced t.now) out.new result }
{
    if out.len() < at {
        return out.len();
    }
    let mut p = at;
    for b in t {
        p = next_number(out, p, *b as usize);
    }
    p
}

// A record's bytes.
pub fn record(out: &mut [u8], at: usize, t: &[u8]) -> usize
    ensures { Put out.old at (line (record_line t.now)) out.new result }
{
    let p = word(out, at, b"record");
    let q = bytes(out, p, t);
    newline(out, q)
}

// Whether lent places are as they were.
pub fn kept(out: &mut [u8], at: usize, is_kept: bool) -> usize
    ensures { Put out.old at (line (kept_line is_kept)) out.new result }
{
    if is_kept {
        return word(out, at, b"kept\n");
    }
    word(out, at, b"touched\n")
}
