// The form of an object text: where it is at fault, or that it is not, and its counts.
#![tactic(auto)]

ghost use Rattle.std.specs.Prelude.{◌≡◌, true, false, ◌+◌, ◌*◌, ◌^◌, ◌≤◌, ◌<◌, length, MatchOption};
ghost use Rattle.off_items.specs.Items.{after};
ghost use Rattle.off_items.specs.Numbers.{size_of, largest, at_most};
ghost use Rattle.off_form.specs.Form.{is_off, is_three, is_four, keyword, numbers_of, vertices_of, faces_of};
ghost use Rattle.off_form.specs.Form.{wholes, face_from, faces_from, end_from};
ghost use Rattle.off_form.specs.Form.{faces_then, vertices_then, counts_then, form_of};
ghost use Rattle.off_form.specs.Head.{Headed};

use off_items::numbers::{LARGEST, is_whole, size};
use off_items::{Item, next};
use scene::read::byte;

// Why a text is not of the form: the first byte of the first item outside it, or that is the size of a face and not 3.
#[derive(Clone, Copy, Debug, PartialEq, Eq)]
pub enum Flaw {
    Outside(usize),
    Sides(usize),
}

// What a text's first four items tell: by the keyword how many numbers each vertex has, 3 or 4, and 0 where it is neither OFF nor 4OFF; the
// counts of vertices and of faces; and where the four end. `per` is a number, not a kind: `theorem_off` `Redrawn` multiplies by it.
#[derive(Clone, Copy)]
pub struct Head {
    pub per: usize,
    pub vertices: usize,
    pub faces: usize,
    pub at: usize,
}

// `OFF` at i.
fn is_off(text: &[u8], i: usize) -> bool
    requires { i ≤ length text.now + 1 }
    ensures { result ≡ is_off text.now i }
{
    if byte(text, i) != 79 {
        return false;
    }
    if byte(text, i + 1) != 70 {
        return false;
    }
    byte(text, i + 2) == 70
}

fn is_three(text: &[u8], i: usize, n: usize) -> bool
    requires { i ≤ length text.now }
    ensures { result ≡ is_three text.now i n }
{
    if n != 3 {
        return false;
    }
    is_off(text, i)
}

fn is_four(text: &[u8], i: usize, n: usize) -> bool
    requires { i ≤ length text.now }
    ensures { result ≡ is_four text.now i n }
{
    if n != 4 {
        return false;
    }
    if byte(text, i) != 52 {
        return false;
    }
    is_off(text, i + 1)
}

// How many numbers each vertex has, by the keyword.
fn keyword(text: &[u8], i: usize, n: usize) -> Option<usize>
    requires { i ≤ length text.now }
    ensures { MatchOption result (keyword text.now i n ≡ 0) (λ per. (per ≡ keyword text.now i n) × (3 ≤ per)) }
{
    if is_three(text, i, n) {
        return Some(3);
    }
    if is_four(text, i, n) {
        return Some(4);
    }
    None
}

fn count(text: &[u8], i: Item) -> usize
    requires { (i.start ≤ i.end) × (i.end ≤ length text.now) }
    ensures { result ≡ at_most largest (size_of false text.now i.start i.end) }
{
    size(text, i.start, i.end, false)
}

// Behind the keyword, which says `per`: the three counts are the first items from `at` on.
fn head_from(text: &[u8], at: usize, per: usize) -> Head
    requires { (at ≡ after text.now 1) × (at ≤ length text.now) × (per ≡ numbers_of text.now) }
    ensures { Headed text.now result }
{
    let v = next(text, at);
    let f = next(text, v.end);
    Head {
        per: per,
        vertices: count(text, v),
        faces: count(text, f),
        at: next(text, f.end).end,
    }
}

// The text's first four items.
pub fn head_of(text: &[u8]) -> Head
    ensures { Headed text.now result }
{
    let k = next(text, 0);
    head_from(
        text,
        k.end,
        keyword(text, k.start, k.end - k.start).unwrap_or(0),
    )
}

// n whole numbers from `at` on.
fn wholes(text: &[u8], at: usize, n: usize, signed: bool) -> Result<usize, Flaw>
    requires { at ≤ length text.now }
    ensures { result ≡ wholes signed n text.now at }
{
    let mut k = at;
    for _ in 0..n {
        let w = next(text, k);
        if !is_whole(text, w.start, w.end, signed) {
            return Err(Flaw::Outside(w.start));
        }
        k = w.end;
    }
    Ok(k)
}

fn face(text: &[u8], at: usize) -> Result<usize, Flaw>
    requires { at ≤ length text.now }
    ensures { result ≡ face_from text.now at }
{
    let w = next(text, at);
    if !is_whole(text, w.start, w.end, false) {
        return Err(Flaw::Outside(w.start));
    }
    if size(text, w.start, w.end, false) != 3 {
        return Err(Flaw::Sides(w.start));
    }
    wholes(text, w.end, 3, false)
}

// n faces from `at` on.
fn faces(text: &[u8], at: usize, n: usize) -> Result<usize, Flaw>
    requires { at ≤ length text.now }
    ensures { result ≡ faces_from n text.now at }
{
    let mut k = at;
    for _ in 0..n {
        k = face(text, k)?;
    }
    Ok(k)
}

// v vertices' numbers, three or four each.
fn times(v: usize, per: usize) -> usize
    requires { (v < 2 ^ 62) × (3 ≤ per) × (per ≤ 4) }
    ensures { result ≡ v * per }
{
    if per == 3 {
        return v * 3;
    }
    v * 4
}

// The vertices' numbers. A count that is larger than any text is long tells no more than the largest number does.
fn vertices(text: &[u8], at: usize, h: Head) -> Result<usize, Flaw>
    requires { (at ≤ length text.now) × (3 ≤ h.per) × Headed text.now h }
    ensures { result ≡ wholes true (vertices_of text.now * numbers_of text.now) text.now at }
{
    if h.vertices < 4611686018427387904 {
        return wholes(text, at, times(h.vertices, h.per), true);
    }
    wholes(text, at, LARGEST, true)
}

fn all_faces(text: &[u8], at: usize, h: Head) -> Result<usize, Flaw>
    requires { (at ≤ length text.now) × Headed text.now h }
    ensures { result ≡ faces_from (faces_of text.now) text.now at }
{
    faces(text, at, h.faces)
}

// Nothing from `at` on.
fn end(text: &[u8], at: usize) -> Result<usize, Flaw>
    requires { at ≤ length text.now }
    ensures { result ≡ end_from text.now at }
{
    let i = next(text, at).start;
    if i == text.len() {
        return Ok(at);
    }
    Err(Flaw::Outside(i))
}

fn faces_then(text: &[u8], at: usize, h: Head) -> Result<usize, Flaw>
    requires { (at ≤ length text.now) × Headed text.now h }
    ensures { result ≡ faces_then text.now at }
{
    let e = all_faces(text, at, h)?;
    end(text, e)
}

fn vertices_then(text: &[u8], at: usize, h: Head) -> Result<usize, Flaw>
    requires { (at ≤ length text.now) × (3 ≤ h.per) × Headed text.now h }
    ensures { result ≡ vertices_then text.now at }
{
    let e = vertices(text, at, h)?;
    faces_then(text, e, h)
}

// The three items behind the keyword, which ends at `at`.
fn counts(text: &[u8], at: usize) -> Result<usize, Flaw>
    requires { (at ≡ after text.now 1) × (at ≤ length text.now) }
    ensures { result ≡ wholes false 3 text.now (after text.now 1) }
{
    wholes(text, at, 3, false)
}

fn counts_then(text: &[u8], at: usize, per: usize) -> Result<usize, Flaw>
    requires { (at ≡ after text.now 1) × (at ≤ length text.now) × (per ≡ numbers_of text.now) × (3 ≤ per) }
    ensures { result ≡ counts_then text.now }
{
    let e = counts(text, at)?;
    vertices_then(text, e, head_from(text, at, per))
}

// Where the text is at fault first, or where what it tells ends.
pub fn form(text: &[u8]) -> Result<usize, Flaw>
    ensures { result ≡ form_of text.now }
{
    let k = next(text, 0);
    let Some(per) = keyword(text, k.start, k.end - k.start) else {
        return Err(Flaw::Outside(k.start));
    };
    counts_then(text, k.end, per)
}
