// The numbers of class reports end to end: a text is read byte by byte by a form, piece by piece, and each number is added to its total.
#![tactic(auto)]

ghost use Rattle.std.specs.Prelude.{◌≡◌, true, cond, ◌-◌};
ghost use Rattle.class_read.specs.Totals.{reports, is_letter, number_of, whole_of, ends, plus};
ghost use Rattle.class_read.specs.Totals.{paired, counted_of, begins, start_of, next_of};
ghost use Rattle.class_read.specs.Totals.{finished, read_of, end_of};

use held::{product, sum};
use off_items::numbers::is_digit;
use places::onward;
use scene::read::byte;

mod held;
mod places;

// What is known between two bytes: the place in the form, its end where a byte did not fit; the number that is being read; the mean's whole
// part; the totals, which are the 15 lines that count scenes, the pierced pairs and the accepted scenes; whether a block was refused; and
// how many whole reports were read.
#[derive(Clone, Copy)]
pub struct Reading {
    pub at: usize,
    pub number: usize,
    pub whole: usize,
    pub totals: [usize; 17],
    // Totals behind a report of a block that is too long are still read: the flag stands beside no value of its own.
    pub longer: bool,
    pub reports: usize,
}

// What is known where the reading of a text ended.
#[derive(Clone, Copy)]
pub struct Fed {
    pub end: usize,
    pub reading: Reading,
}

// Where the line of a refused block begins in the form.
const REFUSED: usize = 194;

fn is_letter(c: usize) -> bool
    ensures { result ≡ is_letter c }
{
    if c < 65 {
        return false;
    }
    c <= 90
}

fn digit(b: u8) -> usize
    ensures { result ≡ b - 48 }
{
    usize::from(b.saturating_sub(48))
}

fn number(n: usize, b: u8) -> usize
    ensures { result ≡ number_of n b }
{
    if is_digit(b) {
        return sum(product(n, 10), digit(b));
    }
    0
}

fn ends(c: usize, b: u8) -> bool
    ensures { result ≡ ends c b }
{
    if is_letter(c) {
        return !is_digit(b);
    }
    false
}

fn whole(c: usize, b: u8, n: usize, w: usize) -> usize
    ensures { result ≡ whole_of c b n w }
{
    if ends(c, b) {
        return if c == 87 { n } else { w };
    }
    w
}

// n more in total k, where there is one.
fn add(totals: &mut [usize], k: usize, n: usize)
    ensures { totals.new ≡ plus totals.old k n }
{
    if k < totals.len() {
        totals[k] = sum(totals[k], n);
    }
}

fn add_pairs(totals: &mut [usize], c: usize, n: usize, w: usize)
    ensures { totals.new ≡ paired totals.old c n w }
{
    if c == 81 {
        add(totals, 15, product(w, n));
    }
}

fn count(totals: &mut [usize], c: usize, b: u8, n: usize, w: usize)
    ensures { totals.new ≡ counted_of totals.old c b n w }
{
    if ends(c, b) {
        add(totals, c - 65, n);
        add_pairs(totals, c, n, w);
    }
}

fn begins(at: usize, b: u8) -> bool
    ensures { result ≡ begins at b }
{
    if at == 0 {
        return b == b'r';
    }
    false
}

fn start(at: usize, b: u8) -> usize
    ensures { result ≡ start_of at b }
{
    if begins(at, b) { REFUSED } else { at }
}

fn longer(known: bool, at: usize, b: u8) -> bool
    ensures { result ≡ cond (begins at b) true known }
{
    if begins(at, b) { true } else { known }
}

// One report more where a byte led to the start of the form.
fn finished(at: usize, n: usize) -> usize
    ensures { result ≡ finished at n }
{
    if at == 0 { sum(n, 1) } else { n }
}

fn next(form: &[u8], r: Reading, b: u8) -> Reading
    ensures { result ≡ next_of form.now r b }
{
    let at = start(r.at, b);
    let c = byte(form, at);
    let n = r.number;
    let w = r.whole;
    let mut totals = r.totals;
    count(&mut totals, c, b, n, w);
    let to = onward(form, at, b);
    Reading {
        at: to,
        number: number(n, b),
        whole: whole(c, b, n, w),
        totals,
        longer: longer(r.longer, r.at, b),
        reports: finished(to, r.reports),
    }
}

fn feed(form: &[u8], text: &[u8], r: Reading) -> Fed
    ensures { result ≡ record {
      end = end_of form.now r text.now;
      reading = read_of form.now r text.now;
    } }
{
    let mut q = r;
    for (i, b) in text.iter().enumerate() {
        if q.at >= form.len() {
            return Fed { end: i, reading: q };
        }
        q = next(form, q, *b);
    }
    Fed {
        end: text.len(),
        reading: q,
    }
}

// Class reports end to end, from what is known before the text on.
pub fn read(text: &[u8], r: Reading) -> Fed
    ensures { result ≡ record { end = end_of reports r text.now; reading = read_of reports r text.now } }
{
    feed(
        b"scenes @A
cross @B
a-in-b @C
b-in-a @D
apart @E
refused 1 @F
refused 2 @G
refused 3 @H
refused 4 @I
refused 5 @J
refused 6 @K
refused 7 @L
refused 8 @M
refused 9 @N
refused 14 @O
mean @W @P @Q
|refused 23 0
|",
        text,
        r,
    )
}
