// What a text tells of a vertex and of a face.
ghost use Rattle.std.specs.Prelude.{◌≡◌, ◌≤◌, ◌<◌, length};
ghost use Rattle.off_items.specs.Items.{end_of};
ghost use Rattle.off_items.specs.Numbers.{at_most};
ghost use Rattle.off_solids.specs.Solid.{past, told_of, point_of, weight_from, row_from, corner_from, corners_from};
ghost use Rattle.off_solids.specs.Fitted.{nearest, fitted_row, fitted_face};

use off_items::next;
use off_items::numbers::{Number, signed_number, size};
use scene::Face;

// A point's four numbers, the weight last.
#[derive(Clone, Copy)]
pub struct Point {
    pub x: Number,
    pub y: Number,
    pub z: Number,
    pub w: Number,
}

// Where the first item from `at` on ends.
pub fn pass(text: &[u8], at: usize) -> usize
    requires { at ≤ length text.now }
    ensures { (result ≡ end_of text.now at) × (result ≤ length text.now) }
{
    next(text, at).end
}

// Where the first k items from `at` on end.
pub fn past(text: &[u8], at: usize, k: usize) -> usize
    requires { at ≤ length text.now }
    ensures { (result ≡ past text.now at k) × (result ≤ length text.now) }
{
    let mut e = at;
    for _ in 0..k {
        e = pass(text, e);
    }
    e
}

// A number that is too large for its field is told by its size, so that it fits the field as the number itself does.
fn weight_at(text: &[u8], at: usize, per: usize) -> Number
    requires { at ≤ length text.now }
    ensures { nearest 127 (told_of result) ≡ nearest 127 (weight_from per text.now at) }
{
    if per == 4 {
        let w = next(text, at);
        return signed_number(text, w.start, w.end);
    }
    Number {
        minus: false,
        size: 1,
    }
}

// The vertex whose `per` numbers are the first from `at` on.
pub fn vertex_at(text: &[u8], at: usize, per: usize) -> Point
    requires { at ≤ length text.now }
    ensures { fitted_row (point_of result) ≡ fitted_row (row_from per text.now at) }
{
    let x = next(text, at);
    let y = next(text, x.end);
    let z = next(text, y.end);
    Point {
        x: signed_number(text, x.start, x.end),
        y: signed_number(text, y.start, y.end),
        z: signed_number(text, z.start, z.end),
        w: weight_at(text, z.end, per),
    }
}

fn corner_at(text: &[u8], at: usize) -> usize
    requires { at ≤ length text.now }
    ensures { (result ≡ at_most 255 (corner_from text.now at)) × (result < 256) }
{
    let i = next(text, at);
    let n = size(text, i.start, i.end, false);
    if n < 255 { n + 1 } else { 255 }
}

// The face whose size is the first item from `at` on.
pub fn face_at(text: &[u8], at: usize) -> Face
    requires { at ≤ length text.now }
    ensures { (result ≡ fitted_face (corners_from text.now at)) × (result.p < 256) × (result.q < 256) × (result.r < 256) }
{
    let p = pass(text, at);
    let q = pass(text, p);
    let r = pass(text, q);
    Face {
        p: corner_at(text, p),
        q: corner_at(text, q),
        r: corner_at(text, r),
    }
}
