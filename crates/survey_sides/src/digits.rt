// What the planes alone tell of a point: on which sides of a solid's faces it lies, and in which planes.
ghost use Rattle.std.specs.Prelude.{◌≡◌, ◌+◌, ◌*◌, ◌≤◌};
ghost use Rattle.scene.specs.Limits.{limits, most_points};
ghost use Rattle.scene.specs.Arrays.{row_in, face_in, AllWithin, FacesWithin};
ghost use Rattle.survey_sides.specs.Sides.{plane_in, Ready, ReadyAll};
ghost use Rattle.survey_sides.specs.Ties.{negated_at, AreDigits, AreDigitsOf, has_ties, above_of};

use crate::planes::{Planes, dot, plane_at};
use crate::point_masks::bit;
use pierce_masks::{Mask, WORD};
use scene::decode::row_in;
use scene::{Corners, Row, Rows};

// Of so few faces that a word holds them: those that a point lies above, and those in whose planes it lies.
#[derive(Clone, Copy)]
pub struct Digits {
    pub above: u64,
    pub tied: u64,
}

// Of a solid's faces. The two words of a mask do not stand side by side here: a processor waits where both are read at once that were just
// written one by one.
#[derive(Clone, Copy)]
pub struct PointDigits {
    pub low: Digits,
    pub high: Digits,
}

pub fn has_ties(m: PointDigits) -> bool
    ensures { result ≡ has_ties m }
{
    let l = m.low;
    let h = m.high;
    (l.tied != 0) | (h.tied != 0)
}

pub fn above_of(m: PointDigits) -> Mask
    ensures { result ≡ above_of m }
{
    let l = m.low;
    let h = m.high;
    Mask {
        low: l.above,
        high: h.above,
    }
}

// Of the faces numbered from first + 1 on, by their planes.
pub fn digits_of_point(
    rows: &Rows,
    corners: &Corners,
    planes: &Planes,
    first: usize,
    count: usize,
    t: usize,
) -> PointDigits
    requires rows { AllWithin limits (row_in rows.now) × FacesWithin limits (face_in corners.now) × (t ≤ most_points limits) }
    requires faces { (first + count ≤ 2 * limits.most_faces) × (count ≤ limits.most_faces) }
    requires ready { ReadyAll (row_in rows.now) (face_in corners.now) (plane_in planes.now first) t first count }
    ensures { AreDigitsOf (row_in rows.now) (face_in corners.now) first count t result }
{
    if count <= WORD {
        return PointDigits {
            low: digits_of_word(rows, corners, planes, first, first, count, t),
            high: Digits { above: 0, tied: 0 },
        };
    }
    PointDigits {
        low: digits_of_word(rows, corners, planes, first, first, WORD, t),
        high: digits_of_word(rows, corners, planes, first, first + WORD, count - WORD, t),
    }
}

// Of so few that a word holds them, by the planes of the faces from base + 1 on. Nearly every point has weight 1: handed on as a number
// that the compiler knows, it spares each face a product.
fn digits_of_word(
    rows: &Rows,
    corners: &Corners,
    planes: &Planes,
    base: usize,
    first: usize,
    count: usize,
    t: usize,
) -> Digits
    requires rows { AllWithin limits (row_in rows.now) × FacesWithin limits (face_in corners.now) × (t ≤ most_points limits) }
    requires faces { (first + count ≤ 2 * limits.most_faces) × (count ≤ 64) × (base ≤ first)
        × (first + count ≤ base + limits.most_faces) }
    requires ready { ReadyAll (row_in rows.now) (face_in corners.now) (plane_in planes.now base) t first count }
    ensures { AreDigits (row_in rows.now) (face_in corners.now) first count t result }
{
    let r = row_in(rows, t);
    if r.w == 1 {
        let unit = Row {
            x: r.x,
            y: r.y,
            z: r.z,
            w: 1,
        };
        return digits_at(rows, corners, planes, base, first, count, t, unit);
    }
    digits_at(rows, corners, planes, base, first, count, t, r)
}

// By the row of point t, from the last face to the first: each puts its digits under those of the faces behind it.
fn digits_at(
    rows: &Rows,
    corners: &Corners,
    planes: &Planes,
    base: usize,
    first: usize,
    count: usize,
    t: usize,
    r: Row,
) -> Digits
    requires rows { AllWithin limits (row_in rows.now) × FacesWithin limits (face_in corners.now) }
    requires point { (t ≤ most_points limits) × (r ≡ row_in rows.now t) }
    requires faces { (first + count ≤ 2 * limits.most_faces) × (count ≤ 64) × (base ≤ first)
        × (first + count ≤ base + limits.most_faces) }
    requires ready { ReadyAll (row_in rows.now) (face_in corners.now) (plane_in planes.now base) t first count }
    ensures { AreDigits (row_in rows.now) (face_in corners.now) first count t result }
{
    let mut above: u64 = 0;
    let mut tied: u64 = 0;
    for k in (0..count).rev() {
        let d = side(rows, corners, planes, base, first + 1 + k, t, r);
        above = above << 1 | bit(d < 0);
        tied = tied << 1 | bit(d == 0);
    }
    Digits { above, tied }
}

// The plane of face k, turned, at point t, whose row is r: below zero where the point lies above the face, zero where it lies in its plane.
fn side(
    rows: &Rows,
    corners: &Corners,
    planes: &Planes,
    base: usize,
    k: usize,
    t: usize,
    r: Row,
) -> i64
    requires rows { AllWithin limits (row_in rows.now) × FacesWithin limits (face_in corners.now) }
    requires numbers { (base ≤ k) × (k ≤ base + limits.most_faces) × (t ≤ most_points limits) × (r ≡ row_in rows.now t) }
    requires ready { Ready (row_in rows.now) (face_in corners.now) (plane_in planes.now base) t k }
    ensures { result ≡ negated_at (row_in rows.now) t (face_in corners.now k) }
{
    dot(plane_at(planes, k - base), r)
}
