// Why two texts make no scene, as two lines: the refusal's number and place, and in words what stands there and which rule it breaks.
#![tactic(auto)]

ghost use Rattle.std.specs.Prelude.{◌≡◌, ◌-◌};
ghost use Rattle.print.specs.Put.{Put};
ghost use Rattle.off_words.specs.Faults.{spotted, fault_at, in_texts, words_of, fault_of};

use crate::spots::spot_of;
use crate::stands::standing;
use off_form::form;
use off_scene::Fault;
use print::{newline, next_number, word};
use print_refusals::refused;

pub mod records;
pub mod shown;
pub mod spots;
pub mod stands;

// The byte at offset k of the text that is named.
fn spotted(out: &mut [u8], at: usize, name: &[u8], text: &[u8], k: usize) -> usize
    ensures { Put out.old at (spotted name.now text.now k) out.new result }
{
    let s = spot_of(text, k);
    let p = word(out, at, name);
    let q = next_number(out, p, s.line);
    let r = word(out, q, b", column");
    next_number(out, r, s.column)
}

pub fn minus(m: usize, n: usize) -> usize
    ensures { result ≡ m - n }
{
    m.saturating_sub(n)
}

// And what stands there.
fn fault_at(out: &mut [u8], at: usize, name: &[u8], text: &[u8], k: usize, sides: bool) -> usize
    ensures { Put out.old at (fault_at name.now text.now k sides) out.new result }
{
    let p = spotted(out, at, name, text, k);
    standing(out, p, text, k, sides)
}

// At offset k of two texts, of which the first is at fault or else the second. (The first's end is where the second starts.)
fn in_texts(out: &mut [u8], at: usize, a: &[u8], b: &[u8], k: usize, sides: bool) -> usize
    ensures { Put out.old at (in_texts a.now b.now k sides) out.new result }
{
    match form(a) {
        Ok(_) => fault_at(out, at, b"second text, line", b, minus(k, a.len()), sides),
        Err(_) => fault_at(out, at, b"first text, line", a, k, sides),
    }
}

fn words(out: &mut [u8], at: usize, a: &[u8], b: &[u8], f: Fault) -> usize
    ensures { Put out.old at (words_of a.now b.now f) out.new result }
{
    match f {
        Fault::Outside(k) => in_texts(out, at, a, b, k, false),
        Fault::Sides(k) => in_texts(out, at, a, b, k, true),
        Fault::OfScene(r) => records::words(out, at, a, b, r),
    }
}

// No more than 195 bytes: 20 for each of three numbers, 27 for an item, and 108 others.
pub fn fault(out: &mut [u8], at: usize, a: &[u8], b: &[u8], f: Fault) -> usize
    ensures { Put out.old at (fault_of a.now b.now f) out.new result }
{
    let p = refused(out, at, f);
    words(out, p, a, b, f)
}
