// The counts, as a line.
ghost use Rattle.print.specs.Text.{line};
ghost use Rattle.print.specs.Put.{Put};
ghost use Rattle.print_lines.specs.Lines.{counts_line};

use crate::refused;
use print::{newline, next_number, word};
use questions::Counts;
use scene::Refusal;

fn counted(out: &mut [u8], at: usize, c: Counts) -> usize
    ensures { Put out.old at (line (counts_line (Ok c))) out.new result }
{
    let p = word(out, at, b"counts");
    let q = next_number(out, p, c.pairs);
    let r = next_number(out, q, c.a_in_b);
    let e = next_number(out, r, c.b_in_a);
    newline(out, e)
}

pub fn counts(out: &mut [u8], at: usize, a: Result<Counts, Refusal>) -> usize
    ensures { Put out.old at (line (counts_line a)) out.new result }
{
    match a {
        Err(r) => refused(out, at, r),
        Ok(c) => counted(out, at, c),
    }
}
