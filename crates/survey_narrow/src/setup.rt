// What the masks of a solid's edges are read off: the sides of the other solid's faces on which its vertices and the far point lie, and
// what narrows the questions.
ghost use Rattle.survey_sides.specs.Lent.{SidesFilled};
ghost use Rattle.survey_sides.specs.Slopes.{Sloped};
ghost use Rattle.questions.specs.Hits.{view_in};
ghost use Rattle.survey_enclosed.specs.Ready.{Ready};
ghost use Rattle.survey_narrow.specs.Sides.{far_of, plane_room, Made};
ghost use Rattle.survey_narrow.specs.Narrowing.{mirrors, own_filled, separating_filled};
ghost use Rattle.std.specs.Prelude.{◌≡◌, ◌+◌, ◌*◌, ◌≤◌, length};
ghost use Rattle.scene.specs.Limits.{limits, most_points};
ghost use Rattle.scene.specs.Arrays.{row_in, face_in, AllWithin, FacesWithin};

use crate::separating_faces::SeparatingFaces;
use scene::{Corners, Rows, Solid};
use survey_sides::planes::Planes;
use survey_sides::point_masks::{PointMasks, fill_points};
use survey_sides::slopes::Slopes;

// The far point as a solid of one vertex.
fn far(n: usize, k: Solid) -> Solid
    requires { 1 ≤ n }
    ensures { result ≡ far_of n k }
{
    Solid {
        vert0: n - 1,
        verts: 1,
        face0: k.face0,
        faces: k.faces,
        other0: k.other0,
        others: k.others,
    }
}

// The planes of the faces that the solid has opposite.
pub fn make_planes(rows: &Rows, corners: &Corners, k: Solid, planes: &mut Planes)
    requires rows { AllWithin limits (row_in rows.now) × FacesWithin limits (face_in corners.now) }
    requires faces { (k.other0 + k.others ≤ 2 * limits.most_faces) × (k.others ≤ limits.most_faces) }
    requires room { length planes.old ≡ plane_room }
    ensures { Made (row_in rows.now) (face_in corners.now) k planes.new }
{
    survey_sides::planes::fill(rows, corners, k.other0, k.others, planes);
}

// By the planes of the other solid's faces.
pub fn fill_sides(
    rows: &Rows,
    corners: &Corners,
    planes: &Planes,
    n: usize,
    k: Solid,
    words: &mut PointMasks,
)
    requires solid { Ready (view_in n rows.now corners.now) k × (length words.old ≡ 2 * (most_points limits + 1)) }
    requires made { Made (row_in rows.now) (face_in corners.now) k planes.now }
    ensures { SidesFilled (view_in n rows.now corners.now) k words.new }
{
    survey_sides::point_masks::fill(rows, corners, planes, far(n, k), words);
    survey_sides::point_masks::fill(rows, corners, planes, k, words);
}

// The same, with a lent table of slopes: those that the first look made are not made again.
pub fn fill_sides_lent(
    rows: &Rows,
    corners: &Corners,
    planes: &Planes,
    n: usize,
    k: Solid,
    words: &mut PointMasks,
    slopes: &mut Slopes,
)
    requires solid { Ready (view_in n rows.now corners.now) k × (length words.old ≡ 2 * (most_points limits + 1)) }
    requires made { Made (row_in rows.now) (face_in corners.now) k planes.now }
    requires sloped { Sloped (row_in rows.now) (face_in corners.now) slopes.old }
    ensures told { SidesFilled (view_in n rows.now corners.now) k words.new }
    ensures sloped { Sloped (row_in rows.now) (face_in corners.now) slopes.new }
{
    let first = k.other0;
    let count = k.others;
    fill_points(rows, corners, planes, n - 1, 1, first, count, words, slopes);
    fill_points(
        rows, corners, planes, k.vert0, k.verts, first, count, words, slopes,
    );
}

// Each of the two has the other's faces opposite.
fn mirrors(k: Solid, o: Solid) -> bool
    ensures { result ≡ mirrors k o }
{
    (o.other0 == k.face0)
        & ((o.others == k.faces) & ((o.face0 == k.other0) & (o.faces == k.others)))
}

// What narrows the questions about the solid k beside the other one, o, whose words are `others`; told where each has the other's faces
// opposite.
pub fn fill_narrowing(
    corners: &Corners,
    k: Solid,
    o: Solid,
    others: &PointMasks,
    own: &mut PointMasks,
    separating: &mut SeparatingFaces,
)
    requires corners { FacesWithin limits (face_in corners.now) }
    requires faces { (k.face0 + k.faces ≤ 2 * limits.most_faces) × (k.faces ≤ limits.most_faces)
        × (k.other0 + k.others ≤ 2 * limits.most_faces) × (k.others ≤ limits.most_faces) }
    ensures own_after { own.new ≡ own_filled (face_in corners.now) k o own.old }
    ensures separating_after { separating.new
        ≡ separating_filled (face_in corners.now) k o others.now separating.old }
{
    if mirrors(k, o) {
        crate::faces_at_point::fill(corners, k.face0, k.faces, own);
        crate::separating_faces::fill(corners, others, k.other0, k.others, separating);
    }
}
