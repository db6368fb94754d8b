// The mask of an edge against a solid's faces, from the sides on which its ends lie: those are worked out once a scene, and only a face
// whose plane parts the ends is asked about.
#![tactic(auto)]

ghost use Rattle.std.specs.Prelude.{◌≡◌, true, ◌+◌, ◌*◌, ◌≤◌};
ghost use Rattle.scene.specs.Limits.{limits, most_points};
ghost use Rattle.scene.specs.Arrays.{row_in, face_in, AllWithin, FaceWithin, FacesWithin};
ghost use Rattle.orient.specs.Weighted.{Weighted};
ghost use Rattle.pierce.specs.Beside.{Beside, BesideAll};
ghost use Rattle.laws.specs.Bools.{◌⊕◌};
ghost use Rattle.pierce.specs.Formula.{pierced};
ghost use Rattle.pierce_masks.specs.Faces.{value_of};
ghost use Rattle.pierce.specs.Against.{mask_against};
ghost use Rattle.orient.specs.Minors.{join_of};
ghost use Rattle.survey_sides.specs.Sides.{above, sides_of};
ghost use Rattle.survey_sides.specs.Tables.{mask_in};
ghost use Rattle.survey_sides.specs.Crossing.{crossed_of, Candidates};

use crate::point_masks::{PointMasks, bit, mask_at};
use orient::minors::{Line, join};
use pierce_engine::{Engine, Formula, Plain};
use pierce_masks::{Mask, WORD};
use scene::decode::{face_in, row_in};
use scene::{Corners, Face, Rows};

mod crossing;
mod digits;
pub mod planes;
pub mod point_masks;
pub mod slopes;
pub mod ties;
mod units;

// An engine as a survey asks it, where the sides of the ends and the line of the edge are known. No contract below depends on which.
pub trait Surveyor: Engine {
    // The edge from u to v, which lie on two sides of the face's plane and on the line l, pierces the face, in a scene of n points.
    fn crosses(self, rows: &Rows, n: usize, u: usize, v: usize, l: Line, f: Face) -> bool
        requires points { AllWithin limits (row_in rows.now) × (6 ≤ n) × (n ≤ most_points limits)
            × (u ≤ most_points limits) × (v ≤ most_points limits) × FaceWithin limits f }
        requires edge { Weighted n (row_in rows.now) × Beside n u v f × (l ≡ join_of (row_in rows.now u) (row_in rows.now v)) }
        requires ends { above (row_in rows.now) u f ⊕ above (row_in rows.now) v f ≡ true }
        ensures { result ≡ pierced n (row_in rows.now) u v f };
}

impl Surveyor for Formula {
    fn crosses(self, rows: &Rows, n: usize, u: usize, v: usize, _l: Line, f: Face) -> bool {
        self.pierces(rows, n, u, v, f)
    }
}

// The three signs that are still open.
impl Surveyor for Plain {
    fn crosses(self, rows: &Rows, _n: usize, u: usize, v: usize, l: Line, f: Face) -> bool {
        crossing::crosses(rows, l, u, v, f)
    }
}

// The mask of u, v against the `count` faces of a solid, numbered from first + 1 on, in a scene of n points, where the table of words holds
// the sides of u and v.
pub fn mask<E: Surveyor>(
    engine: E,
    rows: &Rows,
    corners: &Corners,
    words: &PointMasks,
    n: usize,
    u: usize,
    v: usize,
    first: usize,
    count: usize,
) -> Mask
    requires rows { AllWithin limits (row_in rows.now) × FacesWithin limits (face_in corners.now) }
    requires points { (6 ≤ n) × (n ≤ most_points limits) × (u ≤ most_points limits) × (v ≤ most_points limits) }
    requires faces { (first + count ≤ 2 * limits.most_faces) × (count ≤ limits.most_faces) }
    requires edge { Weighted n (row_in rows.now) × BesideAll n u v (face_in corners.now) first count }
    requires sides { (mask_in words.now u ≡ sides_of (row_in rows.now) (face_in corners.now) first count u)
        × (mask_in words.now v ≡ sides_of (row_in rows.now) (face_in corners.now) first count v) }
    ensures { value_of result ≡ mask_against n (row_in rows.now) (face_in corners.now) u v first count }
{
    mask_from_sides(
        engine,
        rows,
        corners,
        n,
        u,
        v,
        first,
        count,
        mask_at(words, u),
        mask_at(words, v),
    )
}

// The same by the sides of u and v themselves.
pub fn mask_from_sides<E: Surveyor>(
    engine: E,
    rows: &Rows,
    corners: &Corners,
    n: usize,
    u: usize,
    v: usize,
    first: usize,
    count: usize,
    a: Mask,
    b: Mask,
) -> Mask
    requires rows { AllWithin limits (row_in rows.now) × FacesWithin limits (face_in corners.now) }
    requires points { (6 ≤ n) × (n ≤ most_points limits) × (u ≤ most_points limits) × (v ≤ most_points limits) }
    requires faces { (first + count ≤ 2 * limits.most_faces) × (count ≤ limits.most_faces) }
    requires edge { Weighted n (row_in rows.now) × BesideAll n u v (face_in corners.now) first count }
    requires sides { (a ≡ sides_of (row_in rows.now) (face_in corners.now) first count u)
        × (b ≡ sides_of (row_in rows.now) (face_in corners.now) first count v) }
    ensures { value_of result ≡ mask_against n (row_in rows.now) (face_in corners.now) u v first count }
{
    let l = join(row_in(rows, u), row_in(rows, v));
    let low = crossed(engine, rows, corners, n, u, v, l, first, a.low ^ b.low);
    let high = crossed(
        engine,
        rows,
        corners,
        n,
        u,
        v,
        l,
        first + WORD,
        a.high ^ b.high,
    );
    Mask {
        low: low,
        high: high,
    }
}

// Of the candidates, one word of the faces from first + 1 on, those that the edge crosses.
pub fn crossed<E: Surveyor>(
    engine: E,
    rows: &Rows,
    corners: &Corners,
    n: usize,
    u: usize,
    v: usize,
    l: Line,
    first: usize,
    candidates: u64,
) -> u64
    requires rows { AllWithin limits (row_in rows.now) × FacesWithin limits (face_in corners.now) }
    requires points { (6 ≤ n) × (n ≤ most_points limits) × (u ≤ most_points limits) × (v ≤ most_points limits)
        × (first ≤ 2 * limits.most_faces + 64) }
    requires edge { Weighted n (row_in rows.now) × (l ≡ join_of (row_in rows.now u) (row_in rows.now v)) }
    requires faces { Candidates n (row_in rows.now) (face_in corners.now) u v first candidates }
    ensures { result ≡ crossed_of n (row_in rows.now) (face_in corners.now) u v first candidates }
{
    let mut left = candidates;
    let mut word: u64 = 0;
    while left != 0 {
        let k = u64::trailing_zeros(left) as usize;
        let f = face_in(corners, first + 1 + k);
        word = word + (bit(engine.crosses(rows, n, u, v, l, f)) << k);
        left = left & (left - 1);
    }
    word
}
