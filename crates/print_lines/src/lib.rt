// The lines that the programs print, each rendered into a lent buffer at a place; the answer is the place behind.
#![tactic(auto)]

ghost use Rattle.print.specs.Text.{line};
ghost use Rattle.print.specs.Put.{Put};
ghost use Rattle.print_lines.specs.Lines.{refused_line, scene_line, inside_line, pairs_line, pair_line, judged_line};

use print::{newline, next_number, number, word};
use questions::Counts;
use scene::{Refusal, Scene};

pub mod counts;
pub mod head;
pub mod rows;
pub mod verdicts;

pub fn refused(out: &mut [u8], at: usize, r: Refusal) -> usize
    ensures { Put out.old at (line (refused_line r)) out.new result }
{
    print_refusals::refused(out, at, r)
}

pub fn header(out: &mut [u8], at: usize, h: Scene) -> usize
    ensures { Put out.old at (line (scene_line h)) out.new result }
{
    let p = word(out, at, b"scene");
    let q = next_number(out, p, h.vertices_a);
    let r = next_number(out, q, h.faces_a);
    let t = next_number(out, r, h.vertices_b);
    let e = next_number(out, t, h.faces_b);
    newline(out, e)
}

pub fn inside(out: &mut [u8], at: usize, c: Counts) -> usize
    ensures { Put out.old at (line (inside_line c)) out.new result }
{
    let p = word(out, at, b"inside");
    let q = next_number(out, p, c.a_in_b);
    let e = next_number(out, q, c.b_in_a);
    newline(out, e)
}

pub fn pairs(out: &mut [u8], at: usize, n: usize) -> usize
    ensures { Put out.old at (line (pairs_line n)) out.new result }
{
    let p = word(out, at, b"pairs");
    let e = next_number(out, p, n);
    newline(out, e)
}

pub fn pair(out: &mut [u8], at: usize, u: usize, v: usize, f: usize) -> usize
    ensures { Put out.old at (line (pair_line u v f)) out.new result }
{
    let p = number(out, at, u);
    let q = next_number(out, p, v);
    let e = next_number(out, q, f);
    newline(out, e)
}

pub fn judged(out: &mut [u8], at: usize, j: Result<(), Refusal>) -> usize
    ensures { Put out.old at (line (judged_line j)) out.new result }
{
    match j {
        Ok(()) => word(out, at, b"accepted\n"),
        Err(r) => refused(out, at, r),
    }
}
