// Refusals 1 to 4, of the header and of marks, in words.
ghost use Rattle.print_why.specs.Said.{Said};

use crate::clauses::{clause, limits, two_bytes};
use crate::inputs;
use crate::places::place;
use crate::records::start;
use print::word;
use scene::{Scene, is_within, offsets, read};

fn named(name: &[u8], out: &mut [u8], at: usize) -> usize
    ensures { Said out.old at out.new result }
{
    let p = word(out, at, b" (");
    let q = word(out, p, name);
    word(out, q, b")")
}

// The mark that is found, and the one that must be.
fn two_marks(found: usize, mark: usize, out: &mut [u8], at: usize) -> usize
    ensures { Said out.old at out.new result }
{
    let p = two_bytes(out, at, b"the mark is ", found);
    two_bytes(out, p, b", and it must be ", mark)
}

// Record k has another mark than this one.
fn marked(s: &[u8], k: usize, mark: usize, name: &[u8], out: &mut [u8], at: usize) -> usize
    ensures { Said out.old at out.new result }
{
    let b = start(s, k);
    let found = read::two(s, b);
    let p = place(s, k, b, out, at);
    let q = two_marks(found, mark, out, p);
    named(name, out, q)
}

fn short(s: &[u8], out: &mut [u8], at: usize) -> usize
    ensures { Said out.old at out.new result }
{
    let p = place(s, 0, 0, out, at);
    let q = clause(out, p, b"the scene has ", s.len());
    word(out, q, b" bytes, and the header alone takes 6")
}

pub fn opening(s: &[u8], out: &mut [u8], at: usize) -> usize
    ensures { Said out.old at out.new result }
{
    if s.len() == 0 {
        return word(out, at, b"the input is empty");
    }
    if inputs::is_text(s) {
        return inputs::text(s, out, at);
    }
    if s.len() < 6 {
        return short(s, out, at);
    }
    marked(s, 0, Scene::SC, b"SC", out, at)
}

// The count at byte b is n.
fn counted(
    s: &[u8],
    what: &[u8],
    b: usize,
    n: usize,
    low: usize,
    high: usize,
    out: &mut [u8],
    at: usize,
) -> usize
    ensures { Said out.old at out.new result }
{
    let p = place(s, 0, b, out, at);
    let q = clause(out, p, what, n);
    limits(out, q, low, high)
}

fn vertices(s: &[u8], what: &[u8], b: usize, n: usize, out: &mut [u8], at: usize) -> usize
    ensures { Said out.old at out.new result }
{
    counted(
        s,
        what,
        b,
        n,
        Scene::LEAST_VERTICES,
        Scene::MOST_VERTICES,
        out,
        at,
    )
}

fn faces(s: &[u8], what: &[u8], b: usize, n: usize, out: &mut [u8], at: usize) -> usize
    ensures { Said out.old at out.new result }
{
    counted(
        s,
        what,
        b,
        n,
        Scene::LEAST_FACES,
        Scene::MOST_FACES,
        out,
        at,
    )
}

pub fn counts(s: &[u8], out: &mut [u8], at: usize) -> usize
    ensures { Said out.old at out.new result }
{
    let h = read::counts(s);
    if !is_within(Scene::LEAST_VERTICES, Scene::MOST_VERTICES, h.vertices_a) {
        return vertices(
            s,
            b"the number of A's vertices is ",
            2,
            h.vertices_a,
            out,
            at,
        );
    }
    if !is_within(Scene::LEAST_FACES, Scene::MOST_FACES, h.faces_a) {
        return faces(s, b"the number of A's faces is ", 3, h.faces_a, out, at);
    }
    if !is_within(Scene::LEAST_VERTICES, Scene::MOST_VERTICES, h.vertices_b) {
        return vertices(
            s,
            b"the number of B's vertices is ",
            4,
            h.vertices_b,
            out,
            at,
        );
    }
    faces(s, b"the number of B's faces is ", 5, h.faces_b, out, at)
}

// How many bytes there are. (Of a longer input than any scene the rest is not read.)
fn byte_count(n: usize, out: &mut [u8], at: usize) -> usize
    ensures { Said out.old at out.new result }
{
    if n > Scene::LONGEST {
        return clause(
            out,
            at,
            b" bytes, and the scene has more than ",
            Scene::LONGEST,
        );
    }
    clause(out, at, b" bytes, and the scene has ", n)
}

pub fn length(s: &[u8], out: &mut [u8], at: usize) -> usize
    ensures { Said out.old at out.new result }
{
    let n = offsets::length_of(s);
    let p = place(s, 0, 2, out, at);
    let q = clause(out, p, b"the counts ask for ", n);
    byte_count(s.len(), out, q)
}

pub fn mark(s: &[u8], k: usize, out: &mut [u8], at: usize) -> usize
    ensures { Said out.old at out.new result }
{
    if k == 1 {
        return marked(s, k, Scene::FP, b"FP", out, at);
    }
    if k <= offsets::points(s) {
        return marked(s, k, Scene::VX, b"VX", out, at);
    }
    if k < offsets::last_record(s) {
        return marked(s, k, Scene::FC, b"FC", out, at);
    }
    marked(s, k, Scene::EN, b"EN", out, at)
}
