// The sides on which one point lies: what the planes tell, and the ties settled by the shift.
ghost use Rattle.std.specs.Prelude.{◌≡◌, ◌+◌, ◌*◌, ◌≤◌};
ghost use Rattle.scene.specs.Limits.{limits, most_points};
ghost use Rattle.scene.specs.Arrays.{row_in, face_in, AllWithin, FacesWithin};
ghost use Rattle.orient.specs.Shifts.{shift_at};
ghost use Rattle.survey_sides.specs.Sides.{above, sides_of, plane_in, Ready, ReadyAll};
ghost use Rattle.survey_sides.specs.PlaneAt.{InPlane};
ghost use Rattle.survey_sides.specs.Candidates.{AtEach};
ghost use Rattle.survey_sides.specs.Slopes.{Sloped};
ghost use Rattle.survey_sides.specs.Ties.{AreDigitsOf, Tied, settled_of};

use crate::digits::{PointDigits, above_of, digits_of_point, has_ties};
use crate::planes::Planes;
use crate::point_masks::bit;
use crate::slopes::{Slopes, c1_at};
use orient::{shift_at, tied_at};
use pierce_masks::{Mask, WORD};
use scene::decode::{face_in, row_in};
use scene::{Corners, Row, Rows};

// Of the `count` faces of a solid, numbered from first + 1 on, those that point t lies above.
pub fn sides(
    rows: &Rows,
    corners: &Corners,
    planes: &Planes,
    first: usize,
    count: usize,
    t: usize,
    slopes: &mut Slopes,
) -> Mask
    requires rows { AllWithin limits (row_in rows.now) × FacesWithin limits (face_in corners.now) × (t ≤ most_points limits) }
    requires faces { (first + count ≤ 2 * limits.most_faces) × (count ≤ limits.most_faces) }
    requires ready { ReadyAll (row_in rows.now) (face_in corners.now) (plane_in planes.now first) t first count }
    requires sloped { Sloped (row_in rows.now) (face_in corners.now) slopes.old }
    ensures { (result ≡ sides_of (row_in rows.now) (face_in corners.now) first count t)
        × Sloped (row_in rows.now) (face_in corners.now) slopes.new }
{
    let m = digits_of_point(rows, corners, planes, first, count, t);
    if has_ties(m) {
        return settled(rows, corners, planes, first, count, t, m, slopes);
    }
    above_of(m)
}

// What the planes tell of point t, and the ties settled.
fn settled(
    rows: &Rows,
    corners: &Corners,
    planes: &Planes,
    first: usize,
    count: usize,
    t: usize,
    m: PointDigits,
    slopes: &mut Slopes,
) -> Mask
    requires rows { AllWithin limits (row_in rows.now) × FacesWithin limits (face_in corners.now) × (t ≤ most_points limits) }
    requires faces { (first + count ≤ 2 * limits.most_faces) × (count ≤ limits.most_faces)
        × ReadyAll (row_in rows.now) (face_in corners.now) (plane_in planes.now first) t first count }
    requires told { AreDigitsOf (row_in rows.now) (face_in corners.now) first count t m }
    requires sloped { Sloped (row_in rows.now) (face_in corners.now) slopes.old }
    ensures { (result ≡ sides_of (row_in rows.now) (face_in corners.now) first count t)
        × Sloped (row_in rows.now) (face_in corners.now) slopes.new }
{
    let l = m.low;
    let h = m.high;
    let r = row_in(rows, t);
    let s = shift_at(rows, t);
    let near = ties(rows, corners, planes, first, first, t, r, s, l.tied, slopes);
    let next = ties(
        rows,
        corners,
        planes,
        first,
        first + WORD,
        t,
        r,
        s,
        h.tied,
        slopes,
    );
    Mask {
        low: l.above + near,
        high: h.above + next,
    }
}

// Of the faces from first + 1 on in whose planes point t lies, one word, those that it lies above by the shift; r is its row, s its shift.
// The planes are those of the faces from base + 1 on.
fn ties(
    rows: &Rows,
    corners: &Corners,
    planes: &Planes,
    base: usize,
    first: usize,
    t: usize,
    r: Row,
    s: Row,
    tied: u64,
    slopes: &mut Slopes,
) -> u64
    requires rows { AllWithin limits (row_in rows.now) × FacesWithin limits (face_in corners.now)
        × (first ≤ 2 * limits.most_faces + 64) × (base ≤ first) }
    requires point { (t ≤ most_points limits) × (r ≡ row_in rows.now t) × (s ≡ shift_at (row_in rows.now) t) }
    requires tied { AtEach (Tied (row_in rows.now) (face_in corners.now) (plane_in planes.now base) base first t) tied }
    requires sloped { Sloped (row_in rows.now) (face_in corners.now) slopes.old }
    ensures { (result ≡ settled_of (row_in rows.now) (face_in corners.now) first t tied)
        × Sloped (row_in rows.now) (face_in corners.now) slopes.new }
{
    let mut left = tied;
    let mut word: u64 = 0;
    while left != 0 {
        let k = u64::trailing_zeros(left) as usize;
        word = word
            + (bit(tie_above(rows, corners, planes, base, first + 1 + k, t, r, s, slopes)) << k);
        left = left & (left - 1);
    }
    word
}

// Point t, which lies in the plane of face k, lies above the face by the shift.
fn tie_above(
    rows: &Rows,
    corners: &Corners,
    planes: &Planes,
    base: usize,
    k: usize,
    t: usize,
    r: Row,
    s: Row,
    slopes: &mut Slopes,
) -> bool
    requires rows { AllWithin limits (row_in rows.now) × FacesWithin limits (face_in corners.now) × (k ≤ 2 * limits.most_faces)
        × (base ≤ k) × (k ≤ base + limits.most_faces) }
    requires point { (t ≤ most_points limits) × (r ≡ row_in rows.now t) × (s ≡ shift_at (row_in rows.now) t) }
    requires ready { Ready (row_in rows.now) (face_in corners.now) (plane_in planes.now base) t k }
    requires within { InPlane (row_in rows.now) (face_in corners.now k) t }
    requires sloped { Sloped (row_in rows.now) (face_in corners.now) slopes.old }
    ensures { (result ≡ above (row_in rows.now) t (face_in corners.now k))
        × Sloped (row_in rows.now) (face_in corners.now) slopes.new }
{
    let d = c1_at(rows, corners, planes, base, k, t, r, s, slopes);
    if d != 0 {
        return d < 0;
    }
    let f = face_in(corners, k);
    tied_at(rows, f.p, f.q, f.r, t)
}
