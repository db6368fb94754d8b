// The two engines of piercing, which answer alike, and the mask of an edge against a solid's faces by either.
#![tactic(auto)]

ghost use Rattle.std.specs.Prelude.{◌≡◌, ◌+◌, ◌*◌, ◌≤◌};
ghost use Rattle.laws.specs.Mask.{digit};
ghost use Rattle.scene.specs.Limits.{limits, most_points};
ghost use Rattle.scene.specs.Arrays.{row_in, face_in, AllWithin, FaceWithin, FacesWithin};
ghost use Rattle.orient.specs.Weighted.{Weighted};
ghost use Rattle.pierce.specs.Formula.{pierced};
ghost use Rattle.pierce.specs.Beside.{Beside, BesideAll};
ghost use Rattle.pierce_masks.specs.Faces.{value_of};
ghost use Rattle.pierce.specs.Against.{mask_against};

use pierce_masks::{Mask, WORD};
use scene::decode::face_in;
use scene::{Corners, Face, Rows};

// A way to tell whether an edge pierces a face. No contract below depends on which.
pub trait Engine: Copy {
    // The edge from u to v pierces the face, in a scene of n points.
    fn pierces(self, rows: &Rows, n: usize, u: usize, v: usize, f: Face) -> bool
        requires points { AllWithin limits (row_in rows.now) × (6 ≤ n) × (n ≤ most_points limits)
            × (u ≤ most_points limits) × (v ≤ most_points limits) × FaceWithin limits f }
        requires edge { Weighted n (row_in rows.now) × Beside n u v f }
        ensures { result ≡ pierced n (row_in rows.now) u v f };
}

// By formula (13) with the lowest helper.
#[derive(Clone, Copy)]
pub struct Formula;

// By five signs.
#[derive(Clone, Copy)]
pub struct Plain;

impl Engine for Formula {
    fn pierces(self, rows: &Rows, n: usize, u: usize, v: usize, f: Face) -> bool {
        pierce::pierces(rows, n, u, v, f)
    }
}

impl Engine for Plain {
    fn pierces(self, rows: &Rows, n: usize, u: usize, v: usize, f: Face) -> bool {
        pierce_plain::pierces(rows, n, u, v, f)
    }
}

// The mask of u, v against the `count` faces of a solid, numbered from first + 1 on, in a scene of n points.
pub fn mask<E: Engine>(
    engine: E,
    rows: &Rows,
    corners: &Corners,
    n: usize,
    u: usize,
    v: usize,
    first: usize,
    count: usize,
) -> Mask
    requires rows { AllWithin limits (row_in rows.now) × FacesWithin limits (face_in corners.now) }
    requires points { (6 ≤ n) × (n ≤ most_points limits) × (u ≤ most_points limits) × (v ≤ most_points limits) }
    requires faces { (first + count ≤ 2 * limits.most_faces) × (count ≤ limits.most_faces) }
    requires edge { Weighted n (row_in rows.now) × BesideAll n u v (face_in corners.now) first count }
    ensures { value_of result ≡ mask_against n (row_in rows.now) (face_in corners.now) u v first count }
{
    if count <= WORD {
        let low = word(engine, rows, corners, n, u, v, first, count);
        return Mask { low: low, high: 0 };
    }
    let low = word(engine, rows, corners, n, u, v, first, WORD);
    let high = word(engine, rows, corners, n, u, v, first + WORD, count - WORD);
    Mask {
        low: low,
        high: high,
    }
}

// The same for so few faces that one word holds it.
fn word<E: Engine>(
    engine: E,
    rows: &Rows,
    corners: &Corners,
    n: usize,
    u: usize,
    v: usize,
    first: usize,
    count: usize,
) -> u64
    requires rows { AllWithin limits (row_in rows.now) × FacesWithin limits (face_in corners.now) }
    requires points { (6 ≤ n) × (n ≤ most_points limits) × (u ≤ most_points limits) × (v ≤ most_points limits) }
    requires faces { (first + count ≤ 2 * limits.most_faces) × (count ≤ 64) }
    requires edge { Weighted n (row_in rows.now) × BesideAll n u v (face_in corners.now) first count }
    ensures { result ≡ mask_against n (row_in rows.now) (face_in corners.now) u v first count }
{
    let mut word: u64 = 0;
    for k in 0..count {
        let f = face_in(corners, first + 1 + k);
        word = word | bit(engine.pierces(rows, n, u, v, f)) << k;
    }
    word
}

// The digit of a test.
fn bit(c: bool) -> u64
    ensures { result ≡ digit c }
{
    u64::from(c)
}
