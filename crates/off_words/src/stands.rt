// What stands where a text leaves the form, by the item there, in words.
ghost use Rattle.std.specs.Prelude.{◌≡◌};
ghost use Rattle.print.specs.Put.{Put};
ghost use Rattle.off_words.specs.Stands.{holds, is_marked, stand_of, quoted, corners_of, outside_of, standing};

use crate::shown::shown;
use off_items::next;
use off_items::numbers::is_whole;
use print::word;
use scene::read::byte;

// A byte order mark in front; a tab; a carriage return; a text's first item, and no keyword; a whole number, which the form has no place
// for behind the last face alone; one with a minus sign; or no whole number.
#[derive(Clone, Copy)]
pub enum Stand {
    Mark,
    Tab,
    Return,
    Keyword,
    Behind,
    Minus,
    Other,
}

fn holds(w: &[u8], c: u8) -> bool
    ensures { result ≡ holds c w.now }
{
    w.contains(&c)
}

fn is_marked(w: &[u8]) -> bool
    ensures { result ≡ is_marked w.now }
{
    if byte(w, 0) != 239 {
        return false;
    }
    if byte(w, 1) != 187 {
        return false;
    }
    byte(w, 2) == 191
}

fn stand_of(w: &[u8], first: bool) -> Stand
    ensures { result ≡ stand_of first w.now }
{
    if is_marked(w) {
        return Stand::Mark;
    }
    if holds(w, b'\t') {
        return Stand::Tab;
    }
    if holds(w, b'\r') {
        return Stand::Return;
    }
    if first {
        return Stand::Keyword;
    }
    if is_whole(w, 0, w.len(), false) {
        return Stand::Behind;
    }
    if is_whole(w, 0, w.len(), true) {
        return Stand::Minus;
    }
    Stand::Other
}

fn quoted(out: &mut [u8], at: usize, w: &[u8], rule: &[u8]) -> usize
    ensures { Put out.old at (quoted w.now rule.now) out.new result }
{
    let p = word(out, at, b": \"");
    let q = shown(out, p, w);
    word(out, q, rule)
}

// The size of a face that is not a triangle.
fn corners(out: &mut [u8], at: usize, w: &[u8]) -> usize
    ensures { Put out.old at (corners_of w.now) out.new result }
{
    let p = word(out, at, b": a face with ");
    let q = shown(out, p, w);
    word(
        out,
        q,
        b" corners, and only triangles without colours are taken\n",
    )
}

fn outside(out: &mut [u8], at: usize, w: &[u8], first: bool) -> usize
    ensures { Put out.old at (outside_of first w.now) out.new result }
{
    match stand_of(w, first) {
        Stand::Mark => word(
            out,
            at,
            b": a byte order mark, and none may stand in the text\n",
        ),
        Stand::Tab => word(
            out,
            at,
            b": a tab, and only spaces and newlines may stand between numbers\n",
        ),
        Stand::Return => word(
            out,
            at,
            b": a Windows line end (carriage return), and only spaces and newlines may stand between numbers\n",
        ),
        Stand::Keyword => quoted(out, at, w, b"\" is not OFF or 4OFF\n"),
        Stand::Behind => quoted(
            out,
            at,
            w,
            b"\" stands behind the last face, and nothing may follow that\n",
        ),
        Stand::Minus => quoted(
            out,
            at,
            w,
            b"\" has a minus sign, and only coordinates and weights may have one\n",
        ),
        Stand::Other => quoted(out, at, w, b"\" is not a whole number\n"),
    }
}

// At offset k of a text: the size of a face that is not a triangle, or an item outside the form.
pub fn standing(out: &mut [u8], at: usize, text: &[u8], k: usize, sides: bool) -> usize
    ensures { Put out.old at (standing sides text.now k) out.new result }
{
    if text.len() <= k {
        return word(out, at, b": the text ends here, and more must come\n");
    }
    let i = next(text, k);
    let b = i.start;
    let e = i.end;
    if sides {
        return corners(out, at, &text[b..e]);
    }
    outside(out, at, &text[b..e], next(text, 0).start == k)
}
