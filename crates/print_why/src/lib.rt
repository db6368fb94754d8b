// Why a scene is refused, in one sentence of plain words: which vertex, face or other record, at which byte, which value, and the limit or
// rule that it breaks; or that the input is no scene at all.
// It is put into a lent buffer at a place, as far as there is room; the answer is the place behind. No contract says which words are put,
// only where.
#![tactic(auto)]

ghost use Rattle.print_why.specs.Said.{Said};

use print::{newline, word};
use scene::{Numbered, Refusal, offsets};

mod clauses;
mod faces;
mod header;
mod inputs;
mod places;
mod points;
mod records;

// By the refusal; k is its record, or the last, beyond which none is.
fn explain(s: &[u8], r: Refusal, k: usize, out: &mut [u8], at: usize) -> usize
    ensures { Said out.old at out.new result }
{
    match r {
        Refusal::Opening => header::opening(s, out, at),
        Refusal::Counts => header::counts(s, out, at),
        Refusal::Length => header::length(s, out, at),
        Refusal::Mark(_) => header::mark(s, k, out, at),
        Refusal::Coordinate(_) => points::coordinate(s, k, out, at),
        Refusal::Weight(_) => points::weight(s, k, out, at),
        Refusal::Corner(_) => faces::corner(s, k, out, at),
        Refusal::Unused(_) => points::unused(s, k, out, at),
        Refusal::Edge(_) => faces::edge(s, k, out, at),
        _ => points::nowhere(s, k, out, at),
    }
}

// The record where the scene is at fault. (The place of 8 is a point, whose record is the next number.)
fn record_of(s: &[u8], r: Refusal) -> usize {
    let last = offsets::last_record(s);
    let p = r.place();
    if p >= last {
        return last;
    }
    match r {
        Refusal::Unused(_) => p + 1,
        _ => p,
    }
}

// Of a refusal that the judge gave.
pub fn sentence(s: &[u8], r: Refusal, out: &mut [u8], at: usize) -> usize
    ensures { Said out.old at out.new result }
{
    explain(s, r, record_of(s, r), out, at)
}

fn refused(s: &[u8], r: Refusal, out: &mut [u8], at: usize) -> usize
    ensures { Said out.old at out.new result }
{
    let p = sentence(s, r, out, at);
    newline(out, p)
}

// The sentence as a line; `accepted` where there is nothing to say.
pub fn why(s: &[u8], out: &mut [u8], at: usize) -> usize
    ensures { Said out.old at out.new result }
{
    let j = judge::judge(s);
    match j {
        Ok(()) => word(out, at, b"accepted\n"),
        Err(r) => refused(s, r, out, at),
    }
}
