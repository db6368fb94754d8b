// What each question about a scene is answered with, as a line in a lent buffer at a place; the answer is the place behind. Every byte is
// told by the scene and the question.
#![tactic(auto)]

ghost use Rattle.print.specs.Text.{ascii, line};
ghost use Rattle.print.specs.Put.{Put};
ghost use Rattle.judge.specs.Judge.{judged};
ghost use Rattle.record.specs.Shown.{shown, refusal};
ghost use Rattle.pierce_masks.specs.Faces.{value_of};
ghost use Rattle.questions.specs.Answers.{faces_are, sign_of, pierces_of, masked_of, enclosed_of, verdict_of, counted_of};
ghost use Rattle.print_lines.specs.Lines.{judged_line, sign_line, answer_line, found_line, counts_line};
ghost use Rattle.clean.specs.Answers.{clean_of};
ghost use Rattle.print_answers.specs.Said.{words_line, shown_line, listing_line, clean_line};

use kernel::{counts, masks, points, verdict};
use pierce_engine::Engine;
use pierce_masks::Mask;
use print_lines::{refused, rows};
use survey_sides::Surveyor;

mod found;
pub mod lent;
pub mod reports;
mod said;

pub fn judge(s: &[u8], out: &mut [u8], at: usize) -> usize
    ensures { Put out.old at (line (judged_line (judged s.now))) out.new result }
{
    let j = judge::judge(s);
    print_lines::judged(out, at, j)
}

pub fn sign(s: &[u8], a: usize, b: usize, c: usize, d: usize, out: &mut [u8], at: usize) -> usize
    ensures { Put out.old at (line (sign_line (sign_of s.now a b c d))) out.new result }
{
    let x = points::sign(s, a, b, c, d);
    said::sign(out, at, x)
}

pub fn pierces<E: Engine>(
    engine: E,
    s: &[u8],
    u: usize,
    v: usize,
    f: usize,
    out: &mut [u8],
    at: usize,
) -> usize
    ensures { Put out.old at (line (answer_line (ascii "pierces") (pierces_of s.now u v f)))
        out.new result }
{
    let x = points::pierces(engine, s, u, v, f);
    said::pierces(out, at, x)
}

fn faces(m: Mask, ones: usize, out: &mut [u8], at: usize) -> usize
    ensures { Put out.old at (line (words_line (faces_are (value_of m) ones))) out.new result }
{
    said::mask(out, at, Ok((m, ones)))
}

pub fn mask<E: Engine>(
    engine: E,
    s: &[u8],
    u: usize,
    v: usize,
    k: usize,
    out: &mut [u8],
    at: usize,
) -> usize
    ensures { Put out.old at (line (words_line (masked_of s.now u v k))) out.new result }
{
    let x = masks::mask(engine, s, u, v, k);
    match x {
        Err(r) => refused(out, at, r),
        Ok((m, ones)) => faces(m, ones, out, at),
    }
}

pub fn enclosed<E: Engine>(engine: E, s: &[u8], i: usize, out: &mut [u8], at: usize) -> usize
    ensures { Put out.old at (line (answer_line (ascii "enclosed") (enclosed_of s.now i)))
        out.new result }
{
    let x = masks::enclosed(engine, s, i);
    said::enclosed(out, at, x)
}

pub fn verdict<E: Surveyor>(engine: E, s: &[u8], out: &mut [u8], at: usize) -> usize
    ensures { Put out.old at (line (found_line (verdict_of s.now))) out.new result }
{
    let v = verdict::verdict_of(engine, s);
    found::verdict(out, at, v)
}

pub fn count<E: Surveyor>(engine: E, s: &[u8], out: &mut [u8], at: usize) -> usize
    ensures { Put out.old at (line (counts_line (counted_of s.now))) out.new result }
{
    let x = counts::count(engine, s);
    print_lines::counts::counts(out, at, x)
}

// A record's bytes.
pub fn shown(s: &[u8], k: usize, out: &mut [u8], at: usize) -> usize
    ensures { Put out.old at (line (shown_line (refusal s.now k) (shown s.now k)))
        out.new result }
{
    let j = record::record_refusal(s, k);
    match j {
        Err(r) => refused(out, at, r),
        Ok(()) => rows::record(out, at, record::record(s, k)),
    }
}

// How many pairs there are. The listing's rows follow it (`reports::part`).
pub fn listing<E: Surveyor>(engine: E, s: &[u8], out: &mut [u8], at: usize) -> usize
    ensures { Put out.old at (line (listing_line (counted_of s.now))) out.new result }
{
    let x = counts::count(engine, s);
    match x {
        Err(r) => refused(out, at, r),
        Ok(c) => print_lines::pairs(out, at, c.pairs),
    }
}

// Whether no four points lie in one plane.
pub fn clean(s: &[u8], out: &mut [u8], at: usize) -> usize
    ensures { Put out.old at (line (clean_line (clean_of s.now))) out.new result }
{
    let a = clean::clean(s);
    said::clean(out, at, a)
}
