// Renderings into a lent buffer. Each writes at a place, as far as there is room, and answers the place behind: so one goes after
// another, and what is written is the texts end to end.
#![tactic(auto)]

ghost use Rattle.std.specs.Prelude.{[], ◌∷◌, ◌≡◌, ◌+◌, ◌≤◌, ◌<◌, min, nat_abs, length, set};
ghost use Rattle.print.specs.Put.{put, Put};
ghost use Rattle.print.specs.Text.{decimal, signed_decimal, digit as Text·digit};

pub fn byte(out: &mut [u8], at: usize, b: u8) -> usize
    ensures { Put out.old at (b ∷ []) out.new result }
{
    if at < out.len() {
        out[at] = b;
        at + 1
    } else {
        out.len()
    }
}

pub fn space(out: &mut [u8], at: usize) -> usize
    ensures { Put out.old at (32 ∷ []) out.new result }
{
    byte(out, at, b' ')
}

pub fn newline(out: &mut [u8], at: usize) -> usize
    ensures { Put out.old at (10 ∷ []) out.new result }
{
    byte(out, at, b'\n')
}

pub fn word(out: &mut [u8], at: usize, w: &[u8]) -> usize
    ensures { Put out.old at w.now out.new result }
{
    if out.len() <= at {
        return out.len();
    }
    let n = w.len().min(out.len() - at);
    out[at..at + n].copy_from_slice(&w[..n]);
    at + n
}

// How many digits n has.
pub fn places(n: usize) -> usize
    ensures { result ≡ length (decimal n) }
{
    let mut k = 1;
    let mut left = n;
    while left >= 10 {
        left /= 10;
        k += 1;
    }
    k
}

fn digit(d: usize) -> u8
    requires { d < 10 }
    ensures { result ≡ Text·digit d }
{
    48 + d as u8
}

// The byte i places behind `at`, where there is one.
fn store(out: &mut [u8], at: usize, i: usize, b: u8)
    ensures { out.new ≡ set out.old (at + i) b }
{
    if at <= out.len() {
        if i < out.len() - at {
            out[at + i] = b;
        }
    }
}

// The k digits of n, from the last to the first.
fn digits(out: &mut [u8], at: usize, n: usize, k: usize)
    requires { k ≡ length (decimal n) }
    ensures { out.new ≡ put out.old at (decimal n) }
{
    let mut rest = n;
    for i in (1..k).rev() {
        store(out, at, i, digit(rest % 10));
        rest /= 10;
    }
    store(out, at, 0, digit(rest));
}

// The place behind a text of k bytes, or the end of the m bytes that there are.
fn after(at: usize, k: usize, m: usize) -> usize
    ensures { result ≡ min (at + k) m }
{
    if at < m {
        if k < m - at {
            return at + k;
        }
    }
    m
}

fn many_digits(out: &mut [u8], at: usize, n: usize) -> usize
    ensures { Put out.old at (decimal n) out.new result }
{
    let k = places(n);
    digits(out, at, n, k);
    after(at, k, out.len())
}

fn two_digits(out: &mut [u8], at: usize, n: usize) -> usize
    requires { (10 ≤ n) × (n < 100) }
    ensures { Put out.old at (decimal n) out.new result }
{
    let p = byte(out, at, digit(n / 10));
    byte(out, p, digit(n % 10))
}

fn three_digits(out: &mut [u8], at: usize, n: usize) -> usize
    requires { (100 ≤ n) × (n < 1000) }
    ensures { Put out.old at (decimal n) out.new result }
{
    let p = two_digits(out, at, n / 10);
    byte(out, p, digit(n % 10))
}

// Short numbers, as a listing's are, need no loop.
pub fn number(out: &mut [u8], at: usize, n: usize) -> usize
    ensures { Put out.old at (decimal n) out.new result }
{
    if n < 10 {
        return byte(out, at, digit(n));
    }
    if n < 100 {
        return two_digits(out, at, n);
    }
    if n < 1000 {
        return three_digits(out, at, n);
    }
    many_digits(out, at, n)
}

// The size of a number.
pub fn size(z: i64) -> usize
    ensures { result ≡ nat_abs z }
{
    z.unsigned_abs() as usize
}

pub fn signed(out: &mut [u8], at: usize, z: i64) -> usize
    ensures { Put out.old at (signed_decimal z) out.new result }
{
    if z < 0 {
        let p = byte(out, at, b'-');
        number(out, p, size(z))
    } else {
        number(out, at, size(z))
    }
}

// The next of a line: a space before it.
pub fn next_word(out: &mut [u8], at: usize, w: &[u8]) -> usize
    ensures { Put out.old at (32 ∷ w.now) out.new result }
{
    let p = space(out, at);
    word(out, p, w)
}

pub fn next_number(out: &mut [u8], at: usize, n: usize) -> usize
    ensures { Put out.old at (32 ∷ decimal n) out.new result }
{
    let p = space(out, at);
    number(out, p, n)
}

pub fn next_signed(out: &mut [u8], at: usize, z: i64) -> usize
    ensures { Put out.old at (32 ∷ signed_decimal z) out.new result }
{
    let p = space(out, at);
    signed(out, p, z)
}
