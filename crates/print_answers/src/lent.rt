// A listing into lent places: they are filled with numbers, and those that it leaves are looked at afterwards.
ghost use Rattle.std.specs.Prelude.{◌≡◌, ◌<◌, ◌-◌, length};
ghost use Rattle.print.specs.Text.{line};
ghost use Rattle.print.specs.Put.{Put};
ghost use Rattle.print_answers.specs.Said.{listed_line};
ghost use Rattle.print_answers.specs.Lent.{pattern, filled, is_touched, are_touched, IsLent, rows_of, lent_text};

use kernel::lists::listing;
use print_lines::rows::{ROW, kept, least, rows};
use print_lines::{pairs, refused};
use questions::MOST_PAIRS;
use scene::Refusal;
use survey_sides::Surveyor;

// Room for the longest listing, and for its rows with the lines beside them.
pub const PLACES: usize = 3 * MOST_PAIRS;

pub const TEXT: usize = ROW * MOST_PAIRS + 4096;

// What stands at place i.
fn pattern(i: usize) -> u16
    ensures { result ≡ pattern i }
{
    (i % 65521) as u16
}

fn fill(l: &mut [u16])
    ensures { l.new ≡ filled (length l.old) }
{
    for (i, x) in l.iter_mut().enumerate() {
        *x = pattern(i);
    }
}

fn is_touched(l: &[u16], i: usize) -> bool
    requires { i < length l.now }
    ensures { result ≡ is_touched l.now i }
{
    l[i] != pattern(i)
}

// Whether any place from one on is not as it was.
fn are_touched(l: &[u16], from: usize) -> bool
    ensures { result ≡ are_touched l.now from }
{
    for i in from..l.len() {
        if is_touched(l, i) {
            return true;
        }
    }
    false
}

// The listing into so many of the lent places, or into all of them, which are filled before.
pub fn lend<E: Surveyor>(
    engine: E,
    s: &[u8],
    places: usize,
    l: &mut [u16],
) -> Result<usize, Refusal>
    ensures { IsLent s.now places l.old l.new result }
{
    fill(l);
    let n = least(places, l.len());
    listing(engine, s, &mut l[..n])
}

fn listed_line(a: Result<usize, Refusal>, out: &mut [u8], at: usize) -> usize
    ensures { Put out.old at (line (listed_line a)) out.new result }
{
    match a {
        Err(r) => refused(out, at, r),
        Ok(n) => pairs(out, at, n),
    }
}

// How many rows there are.
fn rows_of(a: Result<usize, Refusal>) -> usize
    ensures { result ≡ rows_of a }
{
    match a {
        Err(_) => 0,
        Ok(n) => n,
    }
}

// What was answered, with the places.
pub fn listed(a: Result<usize, Refusal>, l: &[u16], out: &mut [u8], at: usize) -> usize
    ensures { Put out.old at (lent_text (length out.old - at) a l.now) out.new result }
{
    let n = rows_of(a);
    let is_touched = are_touched(l, 3 * least(n, l.len() / 3));
    let p = listed_line(a, out, at);
    let r = rows(out, p, l, n);
    kept(out, r.end, !is_touched)
}
