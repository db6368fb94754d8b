// Where a scene is at fault: what the record is, its number, and the byte of the scene. Vertices and faces count from 1 within their solid.
ghost use Rattle.std.specs.Prelude.{◌≤◌};
ghost use Rattle.print_why.specs.Said.{Said};

use crate::clauses::clause;
use print::word;
use scene::{offsets, read};

// Number n of both solids' vertices or faces, of which the first `a` are A's.
fn numbered(what: &[u8], n: usize, a: usize, out: &mut [u8], at: usize) -> usize
    ensures { Said out.old at out.new result }
{
    if n <= a {
        let p = clause(out, at, what, n);
        return word(out, p, b" of A");
    }
    let p = clause(out, at, what, n - a);
    word(out, p, b" of B")
}

// The record behind the far point's.
fn piece(s: &[u8], k: usize, out: &mut [u8], at: usize) -> usize
    requires { 2 ≤ k }
    ensures { Said out.old at out.new result }
{
    let n = offsets::points(s);
    let h = read::counts(s);
    if k <= n {
        return numbered(b"vertex ", k - 1, h.vertices_a, out, at);
    }
    if k < offsets::last_record(s) {
        return numbered(b"face ", k - n, h.faces_a, out, at);
    }
    word(out, at, b"the end mark")
}

fn name(s: &[u8], k: usize, out: &mut [u8], at: usize) -> usize
    ensures { Said out.old at out.new result }
{
    if k == 0 {
        return word(out, at, b"the header");
    }
    if k == 1 {
        return word(out, at, b"the far point");
    }
    piece(s, k, out, at)
}

fn numbers(k: usize, byte: usize, out: &mut [u8], at: usize) -> usize
    ensures { Said out.old at out.new result }
{
    let p = clause(out, at, b" (record ", k);
    let q = clause(out, p, b", byte ", byte);
    word(out, q, b"): ")
}

pub fn place(s: &[u8], k: usize, byte: usize, out: &mut [u8], at: usize) -> usize
    ensures { Said out.old at out.new result }
{
    let p = name(s, k, out, at);
    numbers(k, byte, out, p)
}
