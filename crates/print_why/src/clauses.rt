// What the sentences have in common, put into a lent buffer at a place; the answer is the place behind.
ghost use Rattle.print_why.specs.Said.{Said};

use print::{number, word};

// Words, and the number behind them.
pub fn clause(out: &mut [u8], at: usize, words: &[u8], n: usize) -> usize
    ensures { Said out.old at out.new result }
{
    let p = word(out, at, words);
    number(out, p, n)
}

pub fn limits(out: &mut [u8], at: usize, low: usize, high: usize) -> usize
    ensures { Said out.old at out.new result }
{
    let p = clause(out, at, b", and ", low);
    let q = clause(out, p, b" to ", high);
    word(out, q, b" are allowed")
}

// Limits of numbers with a sign.
pub fn signed_limits(out: &mut [u8], at: usize, most: usize) -> usize
    ensures { Said out.old at out.new result }
{
    let p = clause(out, at, b", and -", most);
    let q = clause(out, p, b" to ", most);
    word(out, q, b" are allowed")
}

// The two bytes of a mark.
pub fn two_bytes(out: &mut [u8], at: usize, words: &[u8], mark: usize) -> usize
    ensures { Said out.old at out.new result }
{
    let p = clause(out, at, words, mark % 256);
    clause(out, p, b" ", mark / 256)
}
