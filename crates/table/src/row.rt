// A row of the table, rendered into a lent buffer at a place; the answer is the place behind.
ghost use Rattle.std.specs.Prelude.{◌≡◌, [], ◌∷◌};
ghost use Rattle.print.specs.Put.{Put};
ghost use Rattle.print.specs.Text.{decimal};
ghost use Rattle.print_why.specs.Said.{Said};
ghost use Rattle.table.specs.Row.{shown_byte, shown, numbers, accepted_fields, refused_fields};

use kernel::facts::survey;
use pierce_engine::Plain;
use print::{byte, newline, next_number, number, word};
use print_lines::verdicts::verdict_word;
use questions::Facts;
use scene::{Numbered, Refusal};

// A control byte would end the field or the row.
fn shown_byte(b: u8) -> u8
    ensures { result ≡ shown_byte b }
{
    if b < 32 {
        return b'?';
    }
    if b == 127 {
        return b'?';
    }
    b
}

fn put_name(out: &mut [u8], at: usize, name: &[u8]) -> usize
    ensures { Put out.old at (shown name.now) out.new result }
{
    if out.len() <= at {
        return out.len();
    }
    let mut p = at;
    for b in name {
        p = byte(out, p, shown_byte(*b));
    }
    p
}

fn tab(out: &mut [u8], at: usize) -> usize
    ensures { Put out.old at (9 ∷ []) out.new result }
{
    byte(out, at, b'\t')
}

fn field(out: &mut [u8], at: usize, n: usize) -> usize
    ensures { Put out.old at (9 ∷ decimal n) out.new result }
{
    let p = tab(out, at);
    number(out, p, n)
}

fn put_numbers(out: &mut [u8], at: usize, f: Facts) -> usize
    ensures { Put out.old at (numbers f) out.new result }
{
    let c = f.counts;
    let p = field(out, at, c.a_in_b);
    let q = field(out, p, c.b_in_a);
    field(out, q, c.pairs)
}

fn accepted(out: &mut [u8], at: usize, f: Facts) -> usize
    ensures { Put out.old at (accepted_fields f) out.new result }
{
    let v = f.verdict;
    let a = tab(out, at);
    let b = verdict_word(out, a, Ok(v));
    let c = put_numbers(out, b, f);
    let d = tab(out, c);
    newline(out, d)
}

fn refused(out: &mut [u8], at: usize, r: Refusal) -> usize
    ensures { Put out.old at (refused_fields r) out.new result }
{
    let a = word(out, at, b"\trefused");
    let b = next_number(out, a, r.number());
    let c = next_number(out, b, r.place());
    word(out, c, b"\t\t\t\t")
}

fn explained(out: &mut [u8], at: usize, s: &[u8], r: Refusal) -> usize
    ensures { Said out.old at out.new result }
{
    let p = refused(out, at, r);
    let q = print_why::sentence(s, r, out, p);
    newline(out, q)
}

fn judged(out: &mut [u8], at: usize, s: &[u8]) -> usize
    ensures { Said out.old at out.new result }
{
    let mut none = [0u16; 1];
    let a = survey(Plain, s, &mut none);
    match a {
        Err(r) => explained(out, at, s, r),
        Ok(f) => accepted(out, at, f),
    }
}

pub fn row(out: &mut [u8], name: &[u8], whole: bool, s: &[u8]) -> usize
    ensures { Said out.old 0 out.new result }
{
    let p = put_name(out, 0, name);
    if whole {
        return judged(out, p, s);
    }
    word(out, p, b"\tnot read\t\t\t\tthe file could not be read\n")
}
