// A solid of a scene as an object text, rendered into a lent buffer at a place; the answer is the place behind.
#![tactic(auto)]

ghost use Rattle.std.specs.Prelude.{◌≡◌, true, false, ◌+◌, ◌-◌, ◌<◌};
ghost use Rattle.laws.specs.Lists.{run};
ghost use Rattle.print.specs.Put.{Put};
ghost use Rattle.print.specs.Text.{line};
ghost use Rattle.scene.specs.Tables.{tables_of, row};
ghost use Rattle.off_write.specs.Drawing.{is_one, weighted, keyword_line, counts_line, row_words, face_words};
ghost use Rattle.off_write.specs.Drawing.{lowered, rows_in, faces_in, drawn_of};

use print::{newline, next_number, next_signed, number, signed, word};
use scene::read::{corners, row, solid};
use scene::{Face, Row};

// Whether the weight is 1.
fn is_one(r: Row) -> bool
    ensures { result ≡ is_one r.w }
{
    if r.w < 1 {
        return false;
    }
    if r.w > 1 {
        return false;
    }
    true
}

// Whether one of the n points from `first` on has another weight than 1.
fn is_weighted(s: &[u8], first: usize, n: usize) -> bool
    requires { (first < 1024) × (n < 1024) }
    ensures { result ≡ weighted (run (row (tables_of s.now)) first n) }
{
    for i in 0..n {
        if !is_one(row(s, first + i)) {
            return true;
        }
    }
    false
}

fn keyword(out: &mut [u8], at: usize, four: bool) -> usize
    ensures { Put out.old at (keyword_line four) out.new result }
{
    if four {
        return word(out, at, b"4OFF\n");
    }
    word(out, at, b"OFF\n")
}

// The counts; the edges, which nobody counts, are 0.
fn counts(out: &mut [u8], at: usize, vertices: usize, faces: usize) -> usize
    ensures { Put out.old at (counts_line vertices faces) out.new result }
{
    let p = number(out, at, vertices);
    let q = next_number(out, p, faces);
    word(out, q, b" 0\n")
}

fn three(out: &mut [u8], at: usize, r: Row) -> usize
    ensures { Put out.old at (line (row_words false r)) out.new result }
{
    let p = signed(out, at, r.x);
    let q = next_signed(out, p, r.y);
    let e = next_signed(out, q, r.z);
    newline(out, e)
}

fn four(out: &mut [u8], at: usize, r: Row) -> usize
    ensures { Put out.old at (line (row_words true r)) out.new result }
{
    let p = signed(out, at, r.x);
    let q = next_signed(out, p, r.y);
    let t = next_signed(out, q, r.z);
    let e = next_signed(out, t, r.w);
    newline(out, e)
}

fn vertex(out: &mut [u8], at: usize, r: Row, is_four: bool) -> usize
    ensures { Put out.old at (line (row_words is_four r)) out.new result }
{
    if is_four {
        return four(out, at, r);
    }
    three(out, at, r)
}

// The n points from `first` on, a line each.
fn vertices(out: &mut [u8], at: usize, s: &[u8], first: usize, n: usize, is_four: bool) -> usize
    requires { (first < 1024) × (n < 1024) }
    ensures { Put out.old at (rows_in s.now first n is_four) out.new result }
{
    if out.len() < at {
        return out.len();
    }
    let mut p = at;
    for i in 0..n {
        p = vertex(out, p, row(s, first + i), is_four);
    }
    p
}

// A corner as a text counts it, from 0, where the solid's vertices come behind `low` points.
fn from_zero(corner: usize, low: usize) -> usize
    ensures { result ≡ corner - low - 1 }
{
    corner.saturating_sub(low).saturating_sub(1)
}

fn triangle(out: &mut [u8], at: usize, f: Face, low: usize) -> usize
    ensures { Put out.old at (line (face_words (lowered low f))) out.new result }
{
    let p = word(out, at, b"3");
    let q = next_number(out, p, from_zero(f.p, low));
    let r = next_number(out, q, from_zero(f.q, low));
    let e = next_number(out, r, from_zero(f.r, low));
    newline(out, e)
}

// The n faces from `first` on, a line each.
fn faces(out: &mut [u8], at: usize, s: &[u8], first: usize, n: usize, low: usize) -> usize
    requires { (first < 1024) × (n < 1024) }
    ensures { Put out.old at (faces_in s.now first n low) out.new result }
{
    if out.len() < at {
        return out.len();
    }
    let mut p = at;
    for i in 0..n {
        p = triangle(out, p, corners(s, first + i), low);
    }
    p
}

// Solid k, 1 for A and else B: OFF, or 4OFF where a weight is not 1.
pub fn drawing(out: &mut [u8], at: usize, s: &[u8], k: usize) -> usize
    ensures { Put out.old at (drawn_of s.now k) out.new result }
{
    let o = solid(s, k);
    let is_four = is_weighted(s, o.vert0 + 1, o.verts);
    let p = keyword(out, at, is_four);
    let q = counts(out, p, o.verts, o.faces);
    let r = vertices(out, q, s, o.vert0 + 1, o.verts, is_four);
    faces(out, r, s, o.face0 + 1, o.faces, o.vert0)
}
