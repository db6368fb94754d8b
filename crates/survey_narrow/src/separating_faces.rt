// For each face of a solid the faces of the other whose planes part its corners, two words a face; at 0, where no face is, their union.
ghost use Rattle.std.specs.Prelude.{◌≡◌, ◌+◌, ◌*◌, ◌≤◌};
ghost use Rattle.scene.specs.Limits.{limits};
ghost use Rattle.scene.specs.Arrays.{face_in, FaceWithin, FacesWithin};
ghost use Rattle.survey_sides.specs.Tables.{mask_in, word_set};
ghost use Rattle.survey_narrow.specs.Cover.{cut_in};
ghost use Rattle.survey_narrow.specs.Union.{either_of, cuts_from};

use pierce_masks::Mask;
use scene::decode::face_in;
use scene::{Corners, Face, Scene};
use survey_sides::point_masks::{PointMasks, mask_at};

// Two words a face, at its number within its solid.
pub type SeparatingFaces = [u64; 2 * (Scene::MOST_FACES + 1)];

// Those of the `count` faces of a solid, numbered from first + 1 on, by the words of their corners.
pub fn fill(
    corners: &Corners,
    words: &PointMasks,
    first: usize,
    count: usize,
    separating: &mut SeparatingFaces,
)
    requires corners { FacesWithin limits (face_in corners.now) }
    requires faces { (first + count ≤ 2 * limits.most_faces) × (count ≤ limits.most_faces) }
    ensures { separating.new
        ≡ cuts_from (λ j. cut_in words.now (face_in corners.now (first + j))) count separating.old }
{
    let mut any = Mask { low: 0, high: 0 };
    for i in 0..count {
        let j = 1 + i;
        let c = separating_of(words, face_in(corners, first + j));
        put(separating, j, c);
        any = either(any, c);
    }
    put(separating, 0, any);
}

// Those of one face.
fn separating_of(words: &PointMasks, f: Face) -> Mask
    requires { FaceWithin limits f }
    ensures { result ≡ cut_in words.now f }
{
    let p = mask_at(words, f.p);
    let q = mask_at(words, f.q);
    let r = mask_at(words, f.r);
    Mask {
        low: p.low ^ q.low | q.low ^ r.low,
        high: p.high ^ q.high | q.high ^ r.high,
    }
}

// The faces of one or the other.
fn either(a: Mask, b: Mask) -> Mask
    ensures { result ≡ either_of a b }
{
    Mask {
        low: a.low | b.low,
        high: a.high | b.high,
    }
}

fn put(separating: &mut SeparatingFaces, j: usize, m: Mask)
    requires { j ≤ limits.most_faces }
    ensures { separating.new ≡ word_set separating.old j m }
{
    let i = 2 * j;
    let low = m.low;
    let high = m.high;
    separating[i] = low;
    separating[i + 1] = high;
}

// Those of the solid's face j, of a table that was filled.
pub fn separating_at(separating: &SeparatingFaces, j: usize) -> Mask
    requires { j ≤ limits.most_faces }
    ensures { result ≡ mask_in separating.now j }
{
    let i = 2 * j;
    Mask {
        low: separating[i],
        high: separating[i + 1],
    }
}
