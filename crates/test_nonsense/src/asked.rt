// Every question, and its row of the tally: how often it was answered, and refused with each number.
ghost use Rattle.std.specs.Prelude.{◌≤◌};

use crate::chance::{next, pick};
use kernel::{counts, lists, masks, points, verdict};
use pierce_engine::Plain;
use scene::{Numbered, Refusal};

// Eleven rows of fifteen numbers.
pub const ROWS: usize = 11 * 15;

// Question q was answered (k = 0) or refused k.
fn note(tally: &mut [u64; ROWS], q: usize, k: usize)
    requires { q ≤ 10 }
{
    if k < 15 {
        let i = 15 * q + k;
        tally[i] = std::num::wrapping_add_u64(tally[i], 1);
    }
}

// A question's answer: 0, or the number of its refusal.
fn said<T: Drop>(answer: Result<T, Refusal>) -> usize {
    match answer {
        Ok(_) => 0,
        Err(r) => r.number(),
    }
}

// Into up to 16 lent places.
fn listing(s: &[u8], n: usize) -> usize
    requires { n ≤ 16 }
{
    let mut out = [0u16; 16];
    said(lists::listing(Plain, s, &mut out[..n]))
}

fn part(s: &[u8], from: usize) -> usize {
    let mut out = [0u16; 16];
    said(lists::listing_part(Plain, s, from, &mut out))
}

// The questions with numbers of points and faces, which some scenes lack; the next random number.
pub fn ask_points(s: &[u8], x: u64, tally: &mut [u64; ROWS]) -> u64 {
    let a = next(x);
    let b = next(a);
    let c = next(b);
    let d = next(c);
    let p = pick(a, 12);
    let q = pick(b, 12);
    let r = pick(c, 12);
    note(tally, 0, said(judge::judge(s)));
    note(tally, 1, said(points::sign(s, p, q, r, pick(d, 12))));
    note(tally, 2, said(points::pierces(Plain, s, p, q, r)));
    note(tally, 3, said(masks::mask(Plain, s, p, q, r % 4)));
    note(tally, 4, said(masks::enclosed(Plain, s, p)));
    d
}

// The others; the next random number.
pub fn ask_rest(s: &[u8], x: u64, tally: &mut [u64; ROWS]) -> u64 {
    let a = next(x);
    let b = next(a);
    let c = next(b);
    let k = pick(c, 24);
    note(tally, 5, said(verdict::verdict_of(Plain, s)));
    note(tally, 6, said(counts::count(Plain, s)));
    note(tally, 7, listing(s, pick(a, 16) % 16));
    note(tally, 8, part(s, pick(b, 16)));
    note(tally, 9, said(record::record_refusal(s, k)));
    if record::record(s, k).len() > 0 {
        note(tally, 10, 0);
    }
    next(c)
}
