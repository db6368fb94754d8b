// The verdict with what was found, as a line.
ghost use Rattle.std.specs.Prelude.{[], ◌∷◌};
ghost use Rattle.print.specs.Text.{decimal, line};
ghost use Rattle.print.specs.Put.{Put};
ghost use Rattle.print_lines.specs.Lines.{found_line};

use print::{newline, next_number, word};
use print_lines::refused;
use questions::Verdict;
use scene::Refusal;

fn cross(out: &mut [u8], at: usize, u: usize, v: usize, f: usize) -> usize
    ensures { Put out.old at (line (found_line (Ok (Verdict.Cross u v f)))) out.new result }
{
    let p = word(out, at, b"verdict cross");
    let q = next_number(out, p, u);
    let r = next_number(out, q, v);
    let e = next_number(out, r, f);
    newline(out, e)
}

fn enclosed(out: &mut [u8], at: usize, w: &[u8], n: usize) -> usize
    ensures { Put out.old at (line (w.now ∷ decimal n ∷ [])) out.new result }
{
    let p = word(out, at, w);
    let e = next_number(out, p, n);
    newline(out, e)
}

// With the first pair or the lowest vertex.
pub fn verdict(out: &mut [u8], at: usize, v: Result<Verdict, Refusal>) -> usize
    ensures { Put out.old at (line (found_line v)) out.new result }
{
    match v {
        Err(r) => refused(out, at, r),
        Ok(Verdict::Cross(a, b, f)) => cross(out, at, a, b, f),
        Ok(Verdict::AInB(i)) => enclosed(out, at, b"verdict a-in-b", i),
        Ok(Verdict::BInA(i)) => enclosed(out, at, b"verdict b-in-a", i),
        Ok(Verdict::Apart) => word(out, at, b"verdict apart\n"),
    }
}
