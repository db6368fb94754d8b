// The verdict's word, as a report has it.
ghost use Rattle.print.specs.Text.{line};
ghost use Rattle.print.specs.Put.{Put};
ghost use Rattle.print_lines.specs.Lines.{verdict_line, word_of};

use print::{newline, word};
use questions::Verdict;
use scene::Refusal;

pub fn verdict_word(out: &mut [u8], at: usize, v: Result<Verdict, Refusal>) -> usize
    ensures { Put out.old at (word_of v) out.new result }
{
    match v {
        Err(_) => word(out, at, b"refused"),
        Ok(Verdict::Cross(_, _, _)) => word(out, at, b"cross"),
        Ok(Verdict::AInB(_)) => word(out, at, b"a-in-b"),
        Ok(Verdict::BInA(_)) => word(out, at, b"b-in-a"),
        Ok(Verdict::Apart) => word(out, at, b"apart"),
    }
}

pub fn verdict_line(out: &mut [u8], at: usize, v: Result<Verdict, Refusal>) -> usize
    ensures { Put out.old at (line (verdict_line v)) out.new result }
{
    let p = word(out, at, b"verdict ");
    let q = verdict_word(out, p, v);
    newline(out, q)
}
