// The words of a command line, read as signed whole numbers.
#![tactic(auto)]

ghost use Rattle.std.specs.Prelude.{◌≡◌, ◌≤◌};
ghost use Rattle.off_items.specs.Numbers.{made, at_most};
ghost use Rattle.cli_words.specs.Word.{most, number_of};

use off_items::numbers::{is_whole, signed_number};
use std::env::FillError;
use std::rt::Env;

// A number that is larger in size is told as this, which is outside every limit.
const MOST: usize = 1000000000000000000;

#[tactic(auto, using(off_items::specs::Laws::at_most_low, off_items::specs::Laws::at_most_high))]
fn capped(n: usize) -> usize
    ensures { (result ≡ at_most most n) × (result ≤ most) }
{
    n.min(MOST)
}

#[tactic(auto, using(crate::specs::Laws::negated_fits, crate::specs::Laws::below, crate::specs::Laws::above))]
fn signed(minus: bool, n: usize) -> i64
    requires { n ≤ most }
    ensures { result ≡ made minus n }
{
    if minus {
        return -(n as i64);
    }
    n as i64
}

// The number that the bytes write: digits, and a minus sign before them or not.
#[tactic(auto, using(crate::specs::Laws::no_number, crate::specs::Laws::told_number))]
pub fn number(w: &[u8]) -> Option<i64>
    ensures { result ≡ number_of w.now }
{
    if !is_whole(w, 0, w.len(), true) {
        return None;
    }
    let n = signed_number(w, 0, w.len());
    Some(signed(n.minus, capped(n.size)))
}

// A word for which 32 bytes are too few, up to the longest that the system passes on.
fn long_number_at(rt: &HostRuntime, i: usize) -> Option<i64> {
    let mut w = [0u8; 131072];
    let n = rt.arg(i, &mut w).ok()?;
    number(&w[..n])
}

// Word i of the command line, where 0 is the program's own. Few words are long, and clearing room for the longest takes time.
pub fn number_at(rt: &HostRuntime, i: usize) -> Option<i64> {
    let mut w = [0u8; 32];
    match rt.arg(i, &mut w) {
        Ok(n) => number(&w[..n]),
        Err(FillError::TooLong) => long_number_at(rt, i),
        Err(FillError::NotPresent) => None,
    }
}
