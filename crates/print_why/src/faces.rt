// Refusals 7 and 9, of the face in record k, in words. Its corners are numbered from 1 to 3.
ghost use Rattle.std.specs.Prelude.{◌≤◌};
ghost use Rattle.print_why.specs.Bounds.{OneByte, InFace};
ghost use Rattle.print_why.specs.Said.{Said};

use crate::clauses::{clause, limits};
use crate::places::place;
use crate::records::{solid_in, start};
use print::word;
use scene::edges::is_corner;
use scene::read::byte;
use scene::{is_within, read};

// Corner m is the number at byte b.
fn cornered(s: &[u8], k: usize, b: usize, m: usize, out: &mut [u8], at: usize) -> usize
    ensures { Said out.old at out.new result }
{
    let n = byte(s, b);
    let p = place(s, k, b, out, at);
    let q = clause(out, p, b"corner ", m);
    clause(out, q, b" is ", n)
}

// It is none of the v vertices.
fn beyond(s: &[u8], k: usize, b: usize, m: usize, v: usize, out: &mut [u8], at: usize) -> usize
    ensures { Said out.old at out.new result }
{
    let p = cornered(s, k, b, m, out, at);
    limits(out, p, 1, v)
}

// It is like corner n.
fn equal(s: &[u8], k: usize, b: usize, m: usize, n: usize, out: &mut [u8], at: usize) -> usize
    ensures { Said out.old at out.new result }
{
    let p = cornered(s, k, b, m, out, at);
    let q = clause(out, p, b" like corner ", n);
    word(out, q, b", and the three must differ")
}

// Two of the corners from byte b on are equal.
fn equals(s: &[u8], k: usize, b: usize, out: &mut [u8], at: usize) -> usize
    requires { InFace b }
    ensures { Said out.old at out.new result }
{
    if byte(s, b) == byte(s, b + 1) {
        return equal(s, k, b + 1, 2, 1, out, at);
    }
    if byte(s, b + 1) == byte(s, b + 2) {
        return equal(s, k, b + 2, 3, 2, out, at);
    }
    equal(s, k, b + 2, 3, 1, out, at)
}

pub fn corner(s: &[u8], k: usize, out: &mut [u8], at: usize) -> usize
    ensures { Said out.old at out.new result }
{
    let b = start(s, k) + 2;
    let o = solid_in(s, k);
    if !is_within(1, o.verts, byte(s, b)) {
        return beyond(s, k, b, 1, o.verts, out, at);
    }
    if !is_within(1, o.verts, byte(s, b + 1)) {
        return beyond(s, k, b + 1, 2, o.verts, out, at);
    }
    if !is_within(1, o.verts, byte(s, b + 2)) {
        return beyond(s, k, b + 2, 3, o.verts, out, at);
    }
    equals(s, k, b, out, at)
}

fn is_edge(s: &[u8], f: usize, v: usize, w: usize) -> bool {
    let c = read::corners(s, f);
    if is_corner(c, v) {
        return is_corner(c, w);
    }
    false
}

// How many faces of the solid have both vertices, by their numbers within it.
fn faces_with(s: &[u8], k: usize, v: usize, w: usize) -> usize
    requires { OneByte v × OneByte w }
{
    let o = solid_in(s, k);
    let first = o.face0 + 1;
    let (v, w) = (o.vert0 + v, o.vert0 + w);
    (first..first + o.faces)
        .filter(|f| is_edge(s, *f, v, w))
        .count()
}

// The corner behind corner m.
fn next(m: usize) -> usize
    ensures { result ≤ 3 }
{
    if m < 3 { m + 1 } else { 1 }
}

// Whether the side that starts from corner m is in an odd number of the solid's faces; the corners stand behind byte b.
fn is_odd(s: &[u8], k: usize, b: usize, m: usize) -> bool
    requires { InFace b × (m ≤ 3) }
{
    faces_with(s, k, byte(s, b + m), byte(s, b + next(m))) % 2 == 1
}

// The corner that the first such side starts from.
fn odd_side(s: &[u8], k: usize, b: usize) -> usize
    requires { InFace b }
    ensures { result ≤ 3 }
{
    if is_odd(s, k, b, 1) {
        return 1;
    }
    if is_odd(s, k, b, 2) {
        return 2;
    }
    3
}

// The edge of vertices v and w, the first of which stands at byte b.
fn ends(s: &[u8], k: usize, b: usize, v: usize, w: usize, out: &mut [u8], at: usize) -> usize
    ensures { Said out.old at out.new result }
{
    let p = place(s, k, b, out, at);
    let q = clause(out, p, b"the edge of vertices ", v);
    clause(out, q, b" and ", w)
}

// It is in n faces.
fn odd(
    s: &[u8],
    k: usize,
    b: usize,
    v: usize,
    w: usize,
    n: usize,
    out: &mut [u8],
    at: usize,
) -> usize
    ensures { Said out.old at out.new result }
{
    let p = ends(s, k, b, v, w, out, at);
    let q = clause(out, p, b" is in ", n);
    word(
        out,
        q,
        b" of the solid's faces, and it must be in an even number of them",
    )
}

pub fn edge(s: &[u8], k: usize, out: &mut [u8], at: usize) -> usize
    ensures { Said out.old at out.new result }
{
    let b = start(s, k) + 1;
    let m = odd_side(s, k, b);
    let v = byte(s, b + m);
    let w = byte(s, b + next(m));
    odd(s, k, b + m, v, w, faces_with(s, k, v, w), out, at)
}
