// The sides of a solid's faces on which points lie: two words a point, made once a scene.
ghost use Rattle.std.specs.Prelude.{◌≡◌, ℕ, ◌+◌, ◌*◌, ◌≤◌, ◌<◌};
ghost use Rattle.laws.specs.Mask.{digit};
ghost use Rattle.scene.specs.Limits.{limits, most_points};
ghost use Rattle.scene.specs.Arrays.{row_in, face_in, AllWithin, FacesWithin};
ghost use Rattle.survey_sides.specs.Sides.{sides_of, plane_in, ReadyAll};
ghost use Rattle.survey_sides.specs.Slopes.{Sloped};
ghost use Rattle.survey_sides.specs.Tables.{mask_in, word_set, masks_from, words_for, ReadyFor};

use crate::digits::{above_of, digits_of_point, has_ties};
use crate::planes::Planes;
use crate::slopes::Slopes;
use crate::ties::sides;
use pierce_masks::Mask;
use scene::{Corners, Rows, Scene, Solid};

// Two words a point, at its number.
pub type PointMasks = [u64; 2 * (Scene::MOST_POINTS + 1)];

// The sides of the other solid's faces on which each vertex of a solid lies.
pub fn fill(rows: &Rows, corners: &Corners, planes: &Planes, k: Solid, words: &mut PointMasks)
    requires rows { AllWithin limits (row_in rows.now) × FacesWithin limits (face_in corners.now) }
    requires solid { (k.vert0 + k.verts ≤ most_points limits) × (k.other0 + k.others ≤ 2 * limits.most_faces)
        × (k.others ≤ limits.most_faces) }
    requires ready { ReadyFor (row_in rows.now) (face_in corners.now) (plane_in planes.now k.other0) k }
    ensures { words.new ≡ words_for (row_in rows.now) (face_in corners.now) k words.old }
{
    let n = fill_clear(rows, corners, planes, k, words);
    fill_tied(
        rows,
        corners,
        planes,
        k.vert0 + n,
        k.verts - n,
        k.other0,
        k.others,
        words,
    );
}

// Of the vertices up to the first that lies in the plane of a face; how many those are.
fn fill_clear(
    rows: &Rows,
    corners: &Corners,
    planes: &Planes,
    k: Solid,
    words: &mut PointMasks,
) -> usize
    requires rows { AllWithin limits (row_in rows.now) × FacesWithin limits (face_in corners.now) }
    requires solid { (k.vert0 + k.verts ≤ most_points limits) × (k.other0 + k.others ≤ 2 * limits.most_faces)
        × (k.others ≤ limits.most_faces) }
    requires ready { ReadyFor (row_in rows.now) (face_in corners.now) (plane_in planes.now k.other0) k }
    ensures { (result ≤ k.verts) × (words.new
        ≡ masks_from (sides_of (row_in rows.now) (face_in corners.now) k.other0 k.others) k.vert0 result
        words.old) }
{
    let low = k.vert0;
    let verts = k.verts;
    let other = k.other0;
    let others = k.others;
    for i in 0..verts {
        let t = low + 1 + i;
        let m = digits_of_point(rows, corners, planes, other, others, t);
        if has_ties(m) {
            return i;
        }
        put(words, t, above_of(m));
    }
    verts
}

// Of the n points above low, where ties are likely.
fn fill_tied(
    rows: &Rows,
    corners: &Corners,
    planes: &Planes,
    low: usize,
    n: usize,
    first: usize,
    count: usize,
    words: &mut PointMasks,
)
    requires rows { AllWithin limits (row_in rows.now) × FacesWithin limits (face_in corners.now) }
    requires solid { (low + n ≤ most_points limits) × (first + count ≤ 2 * limits.most_faces) × (count ≤ limits.most_faces) }
    requires ready { (i : ℕ) → i < n →
        ReadyAll (row_in rows.now) (face_in corners.now) (plane_in planes.now first) (low + 1 + i) first count }
    ensures { words.new
        ≡ masks_from (sides_of (row_in rows.now) (face_in corners.now) first count) low n words.old }
{
    if n == 0 {
        return;
    }
    let mut slopes: Slopes = [0; 4 * (2 * Scene::MOST_FACES + 1)];
    fill_points(
        rows,
        corners,
        planes,
        low,
        n,
        first,
        count,
        words,
        &mut slopes,
    );
}

// Of the n points above low, with a lent table of slopes: a face's is made once.
pub fn fill_points(
    rows: &Rows,
    corners: &Corners,
    planes: &Planes,
    low: usize,
    n: usize,
    first: usize,
    count: usize,
    words: &mut PointMasks,
    slopes: &mut Slopes,
)
    requires rows { AllWithin limits (row_in rows.now) × FacesWithin limits (face_in corners.now) }
    requires solid { (low + n ≤ most_points limits) × (first + count ≤ 2 * limits.most_faces) × (count ≤ limits.most_faces) }
    requires ready { (i : ℕ) → i < n →
        ReadyAll (row_in rows.now) (face_in corners.now) (plane_in planes.now first) (low + 1 + i) first count }
    requires sloped { Sloped (row_in rows.now) (face_in corners.now) slopes.old }
    ensures words { words.new
        ≡ masks_from (sides_of (row_in rows.now) (face_in corners.now) first count) low n words.old }
    ensures sloped { Sloped (row_in rows.now) (face_in corners.now) slopes.new }
{
    for i in 0..n {
        let t = low + 1 + i;
        put(
            words,
            t,
            sides(rows, corners, planes, first, count, t, slopes),
        );
    }
}

fn put(words: &mut PointMasks, t: usize, m: Mask)
    requires { t ≤ most_points limits }
    ensures { words.new ≡ word_set words.old t m }
{
    let i = 2 * t;
    let low = m.low;
    let high = m.high;
    words[i] = low;
    words[i + 1] = high;
}

// The words of point t.
pub fn mask_at(words: &PointMasks, t: usize) -> Mask
    requires { t ≤ most_points limits }
    ensures { result ≡ mask_in words.now t }
{
    let i = 2 * t;
    Mask {
        low: words[i],
        high: words[i + 1],
    }
}

// The digit of a test.
pub fn bit(c: bool) -> u64
    ensures { result ≡ digit c }
{
    u64::from(c)
}
