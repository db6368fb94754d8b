// A refusal of the scene's in words: what it is about in the texts, whose vertices and faces count from 0, and the rule.
ghost use Rattle.print.specs.Put.{Put};
ghost use Rattle.off_words.specs.Records.{of_first, of_second, face_in, rest_in, piece_in, place_in, thing_of, rule_of, refusal_of};

use crate::minus;
use off_form::head_of;
use print::{next_number, word};
use scene::{Numbered, Refusal};

fn of_first(out: &mut [u8], at: usize, w: &[u8], n: usize) -> usize
    ensures { Put out.old at (of_first w.now n) out.new result }
{
    let p = word(out, at, w);
    let q = next_number(out, p, n);
    word(out, q, b" (from 0) of the first text")
}

fn of_second(out: &mut [u8], at: usize, w: &[u8], n: usize) -> usize
    ensures { Put out.old at (of_second w.now n) out.new result }
{
    let p = word(out, at, w);
    let q = next_number(out, p, n);
    word(out, q, b" (from 0) of the second text")
}

// Face n of both texts.
fn face(out: &mut [u8], at: usize, a: &[u8], n: usize) -> usize
    ensures { Put out.old at (face_in a.now n) out.new result }
{
    let m = head_of(a).faces;
    if n < m {
        return of_first(out, at, b"face", n);
    }
    of_second(out, at, b"face", n - m)
}

// Record n of the second text's vertices and of the faces.
fn rest(out: &mut [u8], at: usize, a: &[u8], b: &[u8], n: usize) -> usize
    ensures { Put out.old at (rest_in a.now b.now n) out.new result }
{
    let m = head_of(b).vertices;
    if n < m {
        return of_second(out, at, b"vertex", n);
    }
    face(out, at, a, n - m)
}

// Record n of the vertices and of the faces.
fn piece(out: &mut [u8], at: usize, a: &[u8], b: &[u8], n: usize) -> usize
    ensures { Put out.old at (piece_in a.now b.now n) out.new result }
{
    let m = head_of(a).vertices;
    if n < m {
        return of_first(out, at, b"vertex", n);
    }
    rest(out, at, a, b, n - m)
}

// What record k is about.
fn place(out: &mut [u8], at: usize, a: &[u8], b: &[u8], k: usize) -> usize
    ensures { Put out.old at (place_in a.now b.now k) out.new result }
{
    if k == 0 {
        return word(out, at, b"the texts");
    }
    if k == 1 {
        return word(out, at, b"the far point");
    }
    piece(out, at, a, b, k - 2)
}

// What refusal n with the place k is about. (The place of 8 is a point, whose record comes one later.)
fn thing(out: &mut [u8], at: usize, a: &[u8], b: &[u8], n: usize, k: usize) -> usize
    ensures { Put out.old at (thing_of a.now b.now n k) out.new result }
{
    if n == 8 {
        return piece(out, at, a, b, minus(k, 1));
    }
    place(out, at, a, b, k)
}

fn rule(out: &mut [u8], at: usize, n: usize) -> usize
    ensures { Put out.old at (rule_of n) out.new result }
{
    if n == 2 {
        return word(out, at, b": a count outside its limits\n");
    }
    if n == 5 {
        return word(out, at, b": a coordinate outside its limits\n");
    }
    if n == 6 {
        return word(
            out,
            at,
            b": a weight outside its limits, or a vertex of weight 0\n",
        );
    }
    if n == 7 {
        return word(
            out,
            at,
            b": a corner that the text lacks, or two corners equal\n",
        );
    }
    if n == 8 {
        return word(out, at, b": a vertex in no face\n");
    }
    if n == 9 {
        return word(
            out,
            at,
            b": an edge in an odd number of its solid's faces\n",
        );
    }
    if n == 14 {
        return word(out, at, b": four numbers that are all 0\n");
    }
    word(out, at, b": no scene\n")
}

pub fn words(out: &mut [u8], at: usize, a: &[u8], b: &[u8], r: Refusal) -> usize
    ensures { Put out.old at (refusal_of a.now b.now r) out.new result }
{
    let n = r.number();
    let p = thing(out, at, a, b, n, r.place());
    rule(out, p, n)
}
