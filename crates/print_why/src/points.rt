// Refusals 5, 6, 8 and 14, of a point in record k, in words.
ghost use Rattle.print_why.specs.Said.{Said};

use crate::clauses::signed_limits;
use crate::places::place;
use crate::records::{row_in, start};
use print::{signed, size, word};
use scene::Scene;

// The number at byte b is z.
fn valued(s: &[u8], k: usize, b: usize, what: &[u8], z: i64, out: &mut [u8], at: usize) -> usize
    ensures { Said out.old at out.new result }
{
    let p = place(s, k, b, out, at);
    let q = word(out, p, what);
    signed(out, q, z)
}

// And its size may be `most`.
fn beyond(
    s: &[u8],
    k: usize,
    b: usize,
    what: &[u8],
    z: i64,
    most: usize,
    out: &mut [u8],
    at: usize,
) -> usize
    ensures { Said out.old at out.new result }
{
    let p = valued(s, k, b, what, z, out, at);
    signed_limits(out, p, most)
}

pub fn coordinate(s: &[u8], k: usize, out: &mut [u8], at: usize) -> usize
    ensures { Said out.old at out.new result }
{
    let r = row_in(s, k);
    let b = start(s, k);
    if size(r.x) > Scene::MOST_COORDINATE {
        return beyond(s, k, b + 2, b"x is ", r.x, Scene::MOST_COORDINATE, out, at);
    }
    if size(r.y) > Scene::MOST_COORDINATE {
        return beyond(s, k, b + 4, b"y is ", r.y, Scene::MOST_COORDINATE, out, at);
    }
    beyond(s, k, b + 6, b"z is ", r.z, Scene::MOST_COORDINATE, out, at)
}

pub fn weight(s: &[u8], k: usize, out: &mut [u8], at: usize) -> usize
    ensures { Said out.old at out.new result }
{
    let b = start(s, k) + 8;
    let r = row_in(s, k);
    let p = beyond(s, k, b, b"the weight is ", r.w, Scene::MOST_WEIGHT, out, at);
    if k < 2 {
        return p;
    }
    word(out, p, b", 0 is not")
}

pub fn nowhere(s: &[u8], k: usize, out: &mut [u8], at: usize) -> usize
    ensures { Said out.old at out.new result }
{
    let b = start(s, k) + 2;
    let p = place(s, k, b, out, at);
    word(
        out,
        p,
        b"x, y, z and the weight are all 0, and one must not be",
    )
}

pub fn unused(s: &[u8], k: usize, out: &mut [u8], at: usize) -> usize
    ensures { Said out.old at out.new result }
{
    let b = start(s, k);
    let p = place(s, k, b, out, at);
    word(
        out,
        p,
        b"it is a corner of no face, and each vertex must be a corner of one",
    )
}
