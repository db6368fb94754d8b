// The sign of four points: the four terms of the determinant of their shifted rows, and the sign of the first that is not zero.
#![tactic(auto)]

ghost use Rattle.std.specs.Prelude.{◌≡◌, true, false, cond, ◌≤◌, pos};
ghost use Rattle.scene.specs.Limits.{limits, most_points};
ghost use Rattle.scene.specs.Arrays.{row_in, AllWithin};
ghost use Rattle.orient.specs.Terms.{factor, c0, c1, c2, c3, terms_of, terms_at, is_plus, tied, point_at, c0_at, positive_at};
ghost use Rattle.orient.specs.Slide.{Tells};
ghost use Rattle.orient.specs.Weighted.{SignDefined};
ghost use Rattle.orient.specs.Columns.{row_of, part_of};
ghost use Rattle.orient.specs.Shifts.{shift_at};
ghost use Rattle.orient.specs.Sizes.{Within, AreWithin, NumbersWithin};

use crate::minors::{det, sum, times};
use scene::{Row, Rows};

pub mod minors;
mod ones;
mod slide;

// The four terms.
#[derive(Clone, Copy)]
pub struct Terms {
    pub c0: i64,
    pub c1: i64,
    pub c2: i64,
    pub c3: i64,
}

// A point: its row with its number.
#[derive(Clone, Copy)]
struct Point {
    x: i64,
    y: i64,
    z: i64,
    w: i64,
    n: i64,
}

// Whether the sign of points a, b, c, d, in this order, is plus.
pub fn positive_at(rows: &Rows, a: usize, b: usize, c: usize, d: usize) -> bool
    requires sizes { NumbersWithin limits (row_in rows.now) a b c d }
    requires points { SignDefined (row_in rows.now) a b c d }
    ensures { result ≡ positive_at (row_in rows.now) a b c d }
{
    let t0 = term0(
        point_at(rows, a),
        point_at(rows, b),
        point_at(rows, c),
        point_at(rows, d),
    );
    sign_by(rows, t0, a, b, c, d)
}

// The same where c0 is known to be t0. Nothing of the shift is computed where that is not zero.
pub fn sign_by(rows: &Rows, t0: i64, a: usize, b: usize, c: usize, d: usize) -> bool
    requires sizes { NumbersWithin limits (row_in rows.now) a b c d }
    requires points { SignDefined (row_in rows.now) a b c d }
    requires first { t0 ≡ c0_at (row_in rows.now) a b c d }
    ensures { result ≡ positive_at (row_in rows.now) a b c d }
{
    if t0 != 0 {
        return 0 < t0;
    }
    tied_at(rows, a, b, c, d)
}

// The same where c0 is known to be zero.
pub fn tied_at(rows: &Rows, a: usize, b: usize, c: usize, d: usize) -> bool
    requires sizes { NumbersWithin limits (row_in rows.now) a b c d }
    requires points { SignDefined (row_in rows.now) a b c d }
    requires tied { c0_at (row_in rows.now) a b c d ≡ pos 0 }
    ensures { result ≡ positive_at (row_in rows.now) a b c d }
{
    tie(
        point_at(rows, a),
        point_at(rows, b),
        point_at(rows, c),
        point_at(rows, d),
    )
}

// Their four terms.
pub fn terms_at(rows: &Rows, a: usize, b: usize, c: usize, d: usize) -> Terms
    requires { NumbersWithin limits (row_in rows.now) a b c d }
    ensures { result ≡ terms_at (row_in rows.now) a b c d }
{
    terms_of(
        point_at(rows, a),
        point_at(rows, b),
        point_at(rows, c),
        point_at(rows, d),
    )
}

// The shift of point i, a direction.
pub fn shift_at(rows: &Rows, i: usize) -> Row
    requires { AllWithin limits (row_in rows.now) × (i ≤ most_points limits) }
    ensures { result ≡ shift_at (row_in rows.now) i }
{
    let s = shifted(point_at(rows, i), true, true, true);
    Row {
        x: s.x,
        y: s.y,
        z: s.z,
        w: 0,
    }
}

// Point i: its row in the array, with its number.
fn point_at(rows: &Rows, i: usize) -> Point
    requires { i ≤ most_points limits }
    ensures { result ≡ point_at (row_in rows.now) i }
{
    let at = 4 * i;
    Point {
        x: rows[at] as i64,
        y: rows[at + 1] as i64,
        z: rows[at + 2] as i64,
        w: rows[at + 3] as i64,
        n: i as i64,
    }
}

fn terms_of(a: Point, b: Point, c: Point, d: Point) -> Terms
    requires { AreWithin limits a b c d }
    ensures { result ≡ terms_of a b c d }
{
    Terms {
        c0: term0(a, b, c, d),
        c1: term1(a, b, c, d),
        c2: term2(a, b, c, d),
        c3: term3(a, b, c, d),
    }
}

// The sign where c0 is zero: the first of c1, c2 and c3 that is not zero says it.
fn tie(a: Point, b: Point, c: Point, d: Point) -> bool
    requires { AreWithin limits a b c d × Tells a b c d }
    ensures { result ≡ is_plus (tied a b c d) }
{
    let t1 = term1(a, b, c, d);
    if t1 != 0 {
        return 0 < t1;
    }
    let t2 = term2(a, b, c, d);
    if t2 != 0 {
        return 0 < t2;
    }
    slide::last_positive(a, b, c, d)
}

// c0, of the rows as they are.
fn term0(a: Point, b: Point, c: Point, d: Point) -> i64
    requires { AreWithin limits a b c d }
    ensures { result ≡ c0 a b c d }
{
    det(row(a), row(b), row(c), row(d))
}

// c1: the shift stands for one coordinate, each in turn. Points of weight 1, nearly all, have a shorter way.
fn term1(a: Point, b: Point, c: Point, d: Point) -> i64
    requires { AreWithin limits a b c d }
    ensures { result ≡ c1 a b c d }
{
    if ones::are_ones(a, b, c, d) {
        return ones::term1(a, b, c, d);
    }
    sum(
        part(a, b, c, d, true, false, false),
        part(a, b, c, d, false, true, false),
        part(a, b, c, d, false, false, true),
    )
}

// c2: it stands for two.
fn term2(a: Point, b: Point, c: Point, d: Point) -> i64
    requires { AreWithin limits a b c d }
    ensures { result ≡ c2 a b c d }
{
    if ones::are_ones(a, b, c, d) {
        return ones::term2(a, b, c, d);
    }
    sum(
        part(a, b, c, d, true, true, false),
        part(a, b, c, d, true, false, true),
        part(a, b, c, d, false, true, true),
    )
}

// c3: it stands for all three.
fn term3(a: Point, b: Point, c: Point, d: Point) -> i64
    requires { AreWithin limits a b c d }
    ensures { result ≡ c3 a b c d }
{
    part(a, b, c, d, true, true, true)
}

// The determinant with the shifts in place of the coordinates that are marked.
fn part(a: Point, b: Point, c: Point, d: Point, sx: bool, sy: bool, sz: bool) -> i64
    requires { AreWithin limits a b c d }
    ensures { result ≡ part_of a b c d sx sy sz }
{
    det(
        shifted(a, sx, sy, sz),
        shifted(b, sx, sy, sz),
        shifted(c, sx, sy, sz),
        shifted(d, sx, sy, sz),
    )
}

// The one factor of the shift: the weight, or 1 where that is 0.
fn factor(w: i64) -> i64
    ensures { result ≡ factor w }
{
    if w == 0 { 1 } else { w }
}

// The row of a point.
fn row(p: Point) -> Row
    ensures { result ≡ row_of p false false false }
{
    Row {
        x: p.x,
        y: p.y,
        z: p.z,
        w: p.w,
    }
}

// The same, with the shift in place of the coordinates that are marked.
fn shifted(p: Point, sx: bool, sy: bool, sz: bool) -> Row
    requires { Within limits p }
    ensures { result ≡ row_of p sx sy sz }
{
    let s = times(factor(p.w), p.n);
    let t = times(s, p.n);
    let u = times(t, p.n);
    Row {
        x: pick(sx, s, p.x),
        y: pick(sy, t, p.y),
        z: pick(sz, u, p.z),
        w: p.w,
    }
}

fn pick(marked: bool, a: i64, b: i64) -> i64
    ensures { result ≡ cond marked a b }
{
    if marked { a } else { b }
}
