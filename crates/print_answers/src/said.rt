// The answer about points, edges and vertices, as a line.
ghost use Rattle.std.specs.Prelude.{cond, [], ◌∷◌};
ghost use Rattle.print.specs.Text.{ascii, line};
ghost use Rattle.print.specs.Put.{Put};
ghost use Rattle.print_lines.specs.Lines.{sign_line, terms_ending, answer_line, mask_line};
ghost use Rattle.print_answers.specs.Said.{clean_line};

use orient::Terms;
use pierce_masks::Mask;
use print::{newline, next_number, next_signed, next_word, word};
use print_lines::refused;
use scene::Refusal;

fn plus_or_minus(out: &mut [u8], at: usize, is_plus: bool) -> usize
    ensures { Put out.old at (32 ∷ cond is_plus (ascii "+") (ascii "-")) out.new result }
{
    if is_plus {
        return next_word(out, at, b"+");
    }
    next_word(out, at, b"-")
}

fn terms(out: &mut [u8], at: usize, t: Terms) -> usize
    ensures { Put out.old at (terms_ending t) out.new result }
{
    let p = next_signed(out, at, t.c0);
    let q = next_signed(out, p, t.c1);
    let r = next_signed(out, q, t.c2);
    let e = next_signed(out, r, t.c3);
    newline(out, e)
}

fn sign_line(out: &mut [u8], at: usize, t: Terms, is_plus: bool) -> usize
    ensures { Put out.old at (line (sign_line (Ok (t, is_plus)))) out.new result }
{
    let p = word(out, at, b"sign");
    let q = plus_or_minus(out, p, is_plus);
    terms(out, q, t)
}

pub fn sign(out: &mut [u8], at: usize, a: Result<(Terms, bool), Refusal>) -> usize
    ensures { Put out.old at (line (sign_line a)) out.new result }
{
    match a {
        Err(r) => refused(out, at, r),
        Ok((t, is_plus)) => sign_line(out, at, t, is_plus),
    }
}

fn said(out: &mut [u8], at: usize, question: &[u8], said: &[u8]) -> usize
    ensures { Put out.old at (line (question.now ∷ said.now ∷ [])) out.new result }
{
    let p = word(out, at, question);
    let q = next_word(out, p, said);
    newline(out, q)
}

fn yes_or_no(out: &mut [u8], at: usize, question: &[u8], a: Result<bool, Refusal>) -> usize
    ensures { Put out.old at (line (answer_line question.now a)) out.new result }
{
    match a {
        Err(r) => refused(out, at, r),
        Ok(true) => said(out, at, question, b"yes"),
        Ok(false) => said(out, at, question, b"no"),
    }
}

pub fn pierces(out: &mut [u8], at: usize, a: Result<bool, Refusal>) -> usize
    ensures { Put out.old at (line (answer_line (ascii "pierces") a)) out.new result }
{
    yes_or_no(out, at, b"pierces", a)
}

pub fn enclosed(out: &mut [u8], at: usize, a: Result<bool, Refusal>) -> usize
    ensures { Put out.old at (line (answer_line (ascii "enclosed") a)) out.new result }
{
    yes_or_no(out, at, b"enclosed", a)
}

fn faces(out: &mut [u8], at: usize, m: Mask, ones: usize) -> usize
    ensures { Put out.old at (line (mask_line (Ok (m, ones)))) out.new result }
{
    let p = word(out, at, b"mask");
    let q = next_number(out, p, m.low as usize);
    let r = next_number(out, q, m.high as usize);
    let e = next_number(out, r, ones);
    newline(out, e)
}

pub fn mask(out: &mut [u8], at: usize, a: Result<(Mask, usize), Refusal>) -> usize
    ensures { Put out.old at (line (mask_line a)) out.new result }
{
    match a {
        Err(r) => refused(out, at, r),
        Ok((m, ones)) => faces(out, at, m, ones),
    }
}

pub fn clean(out: &mut [u8], at: usize, a: Result<bool, Refusal>) -> usize
    ensures { Put out.old at (line (clean_line a)) out.new result }
{
    match a {
        Err(r) => refused(out, at, r),
        Ok(true) => word(out, at, b"clean yes\n"),
        Ok(false) => word(out, at, b"clean no\n"),
    }
}
