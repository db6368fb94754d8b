// The mask of an edge by fewer questions still: a face whose corners lie on one side of a face at the edge is not pierced, and is not asked
// about.
#![tactic(auto)]

ghost use Rattle.std.specs.Prelude.{◌≡◌, ◌+◌, ◌*◌, ◌≤◌};
ghost use Rattle.scene.specs.Limits.{limits, most_points};
ghost use Rattle.scene.specs.Arrays.{row_in, face_in, AllWithin, FacesWithin};
ghost use Rattle.orient.specs.Weighted.{Weighted};
ghost use Rattle.pierce.specs.Beside.{BesideAll};
ghost use Rattle.pierce_masks.specs.Faces.{value_of};
ghost use Rattle.pierce.specs.Against.{mask_against};
ghost use Rattle.survey_sides.specs.Candidates.{AtEach};
ghost use Rattle.survey_sides.specs.Tables.{mask_in};
ghost use Rattle.survey_narrow.specs.Cover.{covers, both_of};
ghost use Rattle.survey_narrow.specs.Narrow.{Numbered, narrowed_of, EndsTold, Around, AllParted};

use crate::separating_faces::{SeparatingFaces, separating_at};
use orient::minors::join;
use pierce_masks::{Mask, WORD};
use scene::decode::row_in;
use scene::{Corners, Rows};
use survey_sides::point_masks::{PointMasks, bit, mask_at};
use survey_sides::{Surveyor, crossed};

pub mod faces_at_point;
pub mod separating_faces;
pub mod setup;

// The mask of u, v against the `count` faces of a solid, numbered from first + 1 on, in a scene of n points: as `survey_sides::mask`, with
// the table of the faces at each point and that of the faces that part each face. Where a face at the edge parts none, nothing is asked.
pub fn mask<E: Surveyor>(
    engine: E,
    rows: &Rows,
    corners: &Corners,
    words: &PointMasks,
    own: &PointMasks,
    separating: &SeparatingFaces,
    n: usize,
    u: usize,
    v: usize,
    first: usize,
    count: usize,
) -> Mask
    requires rows { AllWithin limits (row_in rows.now) × FacesWithin limits (face_in corners.now) }
    requires points { (6 ≤ n) × (n ≤ most_points limits) × (u ≤ most_points limits) × (v ≤ most_points limits)
        × (first + count ≤ 2 * limits.most_faces) × (count ≤ limits.most_faces) }
    requires edge { Weighted n (row_in rows.now) × BesideAll n u v (face_in corners.now) first count }
    requires sides { EndsTold (row_in rows.now) (face_in corners.now) (mask_in words.now) u v first count }
    requires around { Around n (row_in rows.now) (face_in corners.now) (mask_in own.now) (mask_in separating.now) u v first count }
    ensures { value_of result ≡ mask_against n (row_in rows.now) (face_in corners.now) u v first count }
{
    let at = both(mask_at(own, u), mask_at(own, v));
    if !has_all(separating_at(separating, 0), at) {
        return Mask { low: 0, high: 0 };
    }
    mask_separated(
        engine, rows, corners, words, separating, n, u, v, at, first, count,
    )
}

// Where all of `at` part each face that is pierced.
fn mask_separated<E: Surveyor>(
    engine: E,
    rows: &Rows,
    corners: &Corners,
    words: &PointMasks,
    separating: &SeparatingFaces,
    n: usize,
    u: usize,
    v: usize,
    at: Mask,
    first: usize,
    count: usize,
) -> Mask
    requires rows { AllWithin limits (row_in rows.now) × FacesWithin limits (face_in corners.now) }
    requires points { (6 ≤ n) × (n ≤ most_points limits) × (u ≤ most_points limits) × (v ≤ most_points limits)
        × (first + count ≤ 2 * limits.most_faces) × (count ≤ limits.most_faces) }
    requires edge { Weighted n (row_in rows.now) × BesideAll n u v (face_in corners.now) first count }
    requires sides { EndsTold (row_in rows.now) (face_in corners.now) (mask_in words.now) u v first count }
    requires parted { AllParted n (row_in rows.now) (face_in corners.now) (mask_in separating.now) at u v first count }
    ensures { value_of result ≡ mask_against n (row_in rows.now) (face_in corners.now) u v first count }
{
    let a = mask_at(words, u);
    let b = mask_at(words, v);
    let near = narrowed(separating, 0, at, a.low ^ b.low);
    let next = narrowed(separating, WORD, at, a.high ^ b.high);
    let l = join(row_in(rows, u), row_in(rows, v));
    let low = crossed(engine, rows, corners, n, u, v, l, first, near);
    let high = crossed(engine, rows, corners, n, u, v, l, first + WORD, next);
    Mask {
        low: low,
        high: high,
    }
}

// Of the candidates, one word of the solid's faces behind its first `from`, those whose corners each of the faces `at` parts.
fn narrowed(separating: &SeparatingFaces, from: usize, at: Mask, candidates: u64) -> u64
    requires faces { AtEach (Numbered from) candidates × (from ≤ 64) }
    ensures { result ≡ narrowed_of (mask_in separating.now) from at candidates }
{
    let mut left = candidates;
    let mut word: u64 = 0;
    while left != 0 {
        let k = u64::trailing_zeros(left) as usize;
        word = word + (bit(has_all(separating_at(separating, from + 1 + k), at)) << k);
        left = left & (left - 1);
    }
    word
}

// Every face of `at` is one of c.
fn has_all(c: Mask, at: Mask) -> bool
    ensures { result ≡ covers c at }
{
    ((c.low & at.low) == at.low) & ((c.high & at.high) == at.high)
}

// The faces of both.
fn both(a: Mask, b: Mask) -> Mask
    ensures { result ≡ both_of a b }
{
    Mask {
        low: a.low & b.low,
        high: a.high & b.high,
    }
}
