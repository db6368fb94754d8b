// A refusal's line, and the rule that it says was broken, in words, put into a lent buffer at a place; the answer is the place behind. (Why
// a scene is refused, with the byte at fault, is said by `why`.)
#![tactic(auto)]

ghost use Rattle.print.specs.Put.{Put};
ghost use Rattle.print.specs.Text.{line as Text·line};
ghost use Rattle.print_refusals.specs.Refused.{refused_words};
ghost use Rattle.print_refusals.specs.Rules.{beyond as Rules·beyond, weight_rule, other_rule, question_rule, rule_of, why_of};

use print::{newline, next_number, number, word};
use scene::{Numbered, Scene};

// The refusal's number and its place, as a line.
pub fn refused<F: Numbered + Copy>(out: &mut [u8], at: usize, f: F) -> usize
    ensures { Put out.old at (Text·line (refused_words (F.number f) (F.place f))) out.new result }
{
    let p = word(out, at, b"refused");
    let q = next_number(out, p, f.number());
    let e = next_number(out, q, f.place());
    newline(out, e)
}

// That something is no number of at most this size.
fn beyond(out: &mut [u8], at: usize, w: &[u8], n: usize) -> usize
    ensures { Put out.old at (Rules·beyond w.now n) out.new result }
{
    let p = word(out, at, w);
    let q = word(out, p, b" is outside -");
    let r = number(out, q, n);
    let t = word(out, r, b" to");
    next_number(out, t, n)
}

fn weight(out: &mut [u8], at: usize) -> usize
    ensures { Put out.old at weight_rule out.new result }
{
    let p = beyond(out, at, b"a weight", Scene::MOST_WEIGHT);
    word(out, p, b", or it is 0 and not the far point's")
}

// Of a map, of a bench, and of an empty session.
fn other(out: &mut [u8], at: usize, n: usize) -> usize
    ensures { Put out.old at (other_rule n) out.new result }
{
    if n == 17 {
        return word(out, at, b"an entry of the map is outside -100 to 100");
    }
    if n == 18 {
        return word(out, at, b"the determinant of the map is 0");
    }
    if n == 19 {
        return word(
            out,
            at,
            b"only the lecturer moves the fixture and the far point",
        );
    }
    if n == 22 {
        return word(
            out,
            at,
            b"the two scenes differ in solid B or in the far point",
        );
    }
    word(out, at, b"there is no scene")
}

// Of a question, and of a lent buffer.
fn question(out: &mut [u8], at: usize, n: usize) -> usize
    ensures { Put out.old at (question_rule n) out.new result }
{
    if n == 10 {
        return word(out, at, b"the listing needs more places than are lent");
    }
    if n == 11 {
        return word(
            out,
            at,
            b"the scene has no such point, face, record or solid, or a vertex is asked for and this is the far point",
        );
    }
    if n == 12 {
        return word(
            out,
            at,
            b"points that must differ are the same, or an end of the edge is a corner of the face or a vertex of the solid",
        );
    }
    if n == 13 {
        return word(
            out,
            at,
            b"the scene is longer than the room that is lent for it",
        );
    }
    other(out, at, n)
}

pub fn rule(out: &mut [u8], at: usize, n: usize) -> usize
    ensures { Put out.old at (rule_of n) out.new result }
{
    if n == 5 {
        return beyond(out, at, b"a coordinate", Scene::MOST_COORDINATE);
    }
    if n == 6 {
        return weight(out, at);
    }
    if n == 14 {
        return word(out, at, b"the far point's four numbers are all 0");
    }
    question(out, at, n)
}

// The same as a line.
pub fn line(out: &mut [u8], at: usize, n: usize) -> usize
    ensures { Put out.old at (why_of n) out.new result }
{
    let p = word(out, at, b"why: ");
    let q = rule(out, p, n);
    newline(out, q)
}
