// The faces of its solid that each point is a corner of, two words a point.
ghost use Rattle.std.specs.Prelude.{◌≡◌, ◌+◌, ◌*◌, ◌≤◌, ◌<◌};
ghost use Rattle.scene.specs.Limits.{limits, most_points};
ghost use Rattle.scene.specs.Arrays.{face_in, FaceWithin, FacesWithin};
ghost use Rattle.survey_narrow.specs.Marks.{marked, face_marked, faces_marked, own_marked};

use pierce_masks::WORD;
use scene::decode::face_in;
use scene::{Corners, Face};
use survey_sides::point_masks::PointMasks;

// For the `count` faces of a solid, numbered from first + 1 on.
pub fn fill(corners: &Corners, first: usize, count: usize, own: &mut PointMasks)
    requires corners { FacesWithin limits (face_in corners.now) }
    requires faces { (first + count ≤ 2 * limits.most_faces) × (count ≤ limits.most_faces) }
    ensures { own.new ≡ own_marked (face_in corners.now) first count own.old }
{
    if count <= WORD {
        mark_faces(corners, first, count, 0, own);
        return;
    }
    mark_faces(corners, first, WORD, 0, own);
    mark_faces(corners, first + WORD, count - WORD, 1, own);
}

// In one of the two words.
fn mark_faces(corners: &Corners, first: usize, count: usize, at: usize, own: &mut PointMasks)
    requires corners { FacesWithin limits (face_in corners.now) }
    requires faces { (first + count ≤ 2 * limits.most_faces) × (count ≤ 64) × (at ≤ 1) }
    ensures { own.new ≡ faces_marked (face_in corners.now) first at count own.old }
{
    for i in 0..count {
        mark_face(face_in(corners, first + 1 + i), at, i, own);
    }
}

fn mark_face(f: Face, at: usize, i: usize, own: &mut PointMasks)
    requires { FaceWithin limits f × (at ≤ 1) × (i < 64) }
    ensures { own.new ≡ face_marked at i f own.old }
{
    mark(f.p, at, i, own);
    mark(f.q, at, i, own);
    mark(f.r, at, i, own);
}

fn mark(c: usize, at: usize, i: usize, own: &mut PointMasks)
    requires { (c ≤ most_points limits) × (at ≤ 1) × (i < 64) }
    ensures { own.new ≡ marked at i c own.old }
{
    let k = 2 * c + at;
    let w = own[k];
    own[k] = w | 1 << i;
}
