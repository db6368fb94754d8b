// Whole numbers of any length. What is above the largest number of 64 bits is told as that, which is outside every limit.
ghost use Rattle.std.specs.Prelude.{◌≡◌, ◌+◌, ◌*◌, ◌-◌, ◌≤◌, ◌<◌, length, true};
ghost use Rattle.std.specs.List.{list_all, fold};
ghost use Rattle.off_items.specs.Numbers.{is_digit, minus_at, body_of, is_whole, size_of, largest, at_most};

use scene::read::byte;

pub const LARGEST: usize = 18446744073709551615;

// Ten times a number below this, and a digit, is below the largest.
const FEW: usize = 1844674407370955136;

pub fn is_digit(c: u8) -> bool
    ensures { result ≡ is_digit c }
{
    if c < b'0' {
        return false;
    }
    c <= b'9'
}

fn digits(text: &[u8]) -> bool
    ensures { result ≡ list_all is_digit text.now }
{
    text.iter().all(|c| is_digit(*c))
}

fn digit(c: u8) -> usize
    ensures { (result ≡ c - 48) × (result < 256) }
{
    usize::from(c.saturating_sub(48))
}

#[tactic(auto, using(crate::specs::Laws::at_most_low, crate::specs::Laws::at_most_high))]
fn behind(n: usize, d: usize) -> usize
    requires { d < 256 }
    ensures { result ≡ at_most largest (10 * n + d) }
{
    if n < FEW {
        return 10 * n + d;
    }
    n.saturating_mul(10).saturating_add(d)
}

fn value(text: &[u8]) -> usize
    ensures { result ≡ fold (λ n c. at_most largest (10 * n + (c - 48))) 0 text.now }
{
    text.iter().fold(0, |n, c| behind(n, digit(*c)))
}

fn minus_at(text: &[u8], i: usize, signed: bool) -> bool
    ensures { result ≡ minus_at signed text.now i }
{
    if !signed {
        return false;
    }
    byte(text, i) == 45
}

// Where the digits of the item that starts at i start.
fn body(text: &[u8], i: usize, signed: bool) -> usize
    requires { i ≤ length text.now }
    ensures { result ≡ body_of signed text.now i }
{
    if minus_at(text, i, signed) {
        return i + 1;
    }
    i
}

// Whether the bytes from i up to e are a whole number, signed or not.
pub fn is_whole(text: &[u8], i: usize, e: usize, signed: bool) -> bool
    requires { (i ≤ e) × (e ≤ length text.now) }
    ensures { result ≡ is_whole signed text.now i e }
{
    let b = body(text, i, signed);
    if b < e {
        return digits(&text[b..e]);
    }
    false
}

// Its size.
pub fn size(text: &[u8], i: usize, e: usize, signed: bool) -> usize
    requires { (i ≤ e) × (e ≤ length text.now) }
    ensures { result ≡ at_most largest (size_of signed text.now i e) }
{
    let b = body(text, i, signed);
    if b < e {
        return value(&text[b..e]);
    }
    0
}

// A whole number below zero or not, by its size.
#[derive(Clone, Copy)]
pub struct Number {
    pub minus: bool,
    pub size: usize,
}

pub fn signed_number(text: &[u8], i: usize, e: usize) -> Number
    requires { (i ≤ e) × (e ≤ length text.now) }
    ensures { (result.minus ≡ minus_at true text.now i) × (result.size ≡ at_most largest (size_of true text.now i e)) }
{
    Number {
        minus: minus_at(text, i, true),
        size: size(text, i, e, true),
    }
}
