// The lines that are printed, each rendered into a lent buffer; the answer is the place behind.
ghost use Rattle.std.specs.Prelude.{[], ◌∷◌};
ghost use Rattle.print.specs.Put.{Put};
ghost use Rattle.print.specs.Text.{ascii, line};
ghost use Rattle.bench.specs.Said.{answer_line, counts_line, usage_line};

use bench_moves::Fault;
use print::{newline, next_number, next_word, word};
use print_refusals::refused;
use questions::Counts;

fn done(out: &mut [u8]) -> usize
    ensures { Put out.old 0 (line (ascii "done" ∷ [])) out.new result }
{
    let p = word(out, 0, b"done");
    newline(out, p)
}

pub fn answer(out: &mut [u8], a: Result<(), Fault>) -> usize
    ensures { Put out.old 0 (line (answer_line a)) out.new result }
{
    match a {
        Ok(()) => done(out),
        Err(f) => refused(out, 0, f),
    }
}

pub fn counts(out: &mut [u8], a: Counts, b: Counts) -> usize
    ensures { Put out.old 0 (line (counts_line a b)) out.new result }
{
    let p = word(out, 0, b"counts");
    let q = next_number(out, p, a.pairs);
    let r = next_number(out, q, a.a_in_b);
    let s = next_number(out, r, a.b_in_a);
    let t = next_number(out, s, b.pairs);
    let u = next_number(out, t, b.a_in_b);
    let e = next_number(out, u, b.b_in_a);
    newline(out, e)
}

pub fn usage(out: &mut [u8], k: usize) -> usize
    ensures { Put out.old 0 (line (usage_line k)) out.new result }
{
    let p = word(out, 0, b"bench: word");
    let q = next_number(out, p, k);
    let e = next_word(
        out,
        q,
        b"is wrong or missing; usage: bench FIRST SECOND [one P X Y Z W | two P X Y Z W | lecturer N X Y Z W]...",
    );
    newline(out, e)
}
