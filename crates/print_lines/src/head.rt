// The head of a report: the four lines above its listing.
ghost use Rattle.print.specs.Text.{text};
ghost use Rattle.print.specs.Put.{Put};
ghost use Rattle.print_lines.specs.Report.{head_lines};

use crate::verdicts::verdict_line;
use crate::{header, inside, pairs};
use questions::{Counts, Verdict};
use scene::{Refusal, Scene};

// The place behind the head, and how many rows follow it.
#[derive(Clone, Copy)]
pub struct Top {
    pub end: usize,
    pub rows: usize,
}

pub fn four_lines(out: &mut [u8], h: Scene, v: Result<Verdict, Refusal>, c: Counts) -> usize
    ensures { Put out.old 0 (text (head_lines h v c)) out.new result }
{
    let p = header(out, 0, h);
    let q = verdict_line(out, p, v);
    let r = inside(out, q, c);
    pairs(out, r, c.pairs)
}
