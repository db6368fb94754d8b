// A first look: a few edges of a solid, asked before the sides of its vertices are told into a table. Where solids cross, one of them often
// pierces.
ghost use Rattle.std.specs.Prelude.{◌≡◌, ◌+◌, ◌<◌};
ghost use Rattle.questions.specs.First.{first_of};
ghost use Rattle.questions.specs.Hits.{view_in, solid_hits, Sound};
ghost use Rattle.scene.specs.Arrays.{row_in, face_in};
ghost use Rattle.scene.specs.Faces.{Vertex};
ghost use Rattle.survey_first.specs.First.{hits_of};
ghost use Rattle.survey_first.specs.FirstLook.{FirstIfFound};
ghost use Rattle.survey_sides.specs.Sides.{sides_of};
ghost use Rattle.survey_sides.specs.Slopes.{Sloped};
ghost use Rattle.survey_edges.specs.Edges.{AreLinks, Higher, entry, vertex_edges};
ghost use Rattle.survey_edges.specs.Table.{entry_hits};
ghost use Rattle.survey_narrow.specs.Sides.{Made};

use pierce_masks::Mask;
use questions::Pair;
use scene::{Corners, Rows, Solid};
use survey_edges::first::first_of_mask;
use survey_edges::links::VertexSets;
use survey_sides::planes::Planes;
use survey_sides::slopes::Slopes;
use survey_sides::ties::sides;
use survey_sides::{Surveyor, mask_from_sides};

// How many edges are looked at: they are asked in vain where solids are apart or nested.
const LOOKED: usize = 6;

// The first pair of the edge u, v, by the sides m of u; those of v are told on the spot.
fn first_look_at<E: Surveyor>(
    engine: E,
    rows: &Rows,
    corners: &Corners,
    n: usize,
    k: Solid,
    planes: &Planes,
    u: usize,
    m: Mask,
    v: usize,
    slopes: &mut Slopes,
) -> Option<Pair>
    requires solid { Sound (view_in n rows.now corners.now) k × Made (row_in rows.now) (face_in corners.now) k planes.now }
    requires edge { Vertex k.vert0 (k.vert0 + k.verts) u × Vertex k.vert0 (k.vert0 + k.verts) v × (u < v) }
    requires sides { (m ≡ sides_of (row_in rows.now) (face_in corners.now) k.other0 k.others u)
        × Sloped (row_in rows.now) (face_in corners.now) slopes.old }
    ensures { (result ≡ first_of (entry_hits k.other0 (entry (view_in n rows.now corners.now) k u v)))
        × Sloped (row_in rows.now) (face_in corners.now) slopes.new }
{
    let w = sides(rows, corners, planes, k.other0, k.others, v, slopes);
    let x = mask_from_sides(engine, rows, corners, n, u, v, k.other0, k.others, m, w);
    first_of_mask(u, v, x, k.other0)
}

// Of the edges from u to its lowest higher neighbours.
fn first_look_from<E: Surveyor>(
    engine: E,
    rows: &Rows,
    corners: &Corners,
    n: usize,
    k: Solid,
    planes: &Planes,
    u: usize,
    m: Mask,
    higher: u64,
    slopes: &mut Slopes,
) -> Option<Pair>
    requires solid { Sound (view_in n rows.now corners.now) k × Made (row_in rows.now) (face_in corners.now) k planes.now }
    requires vertex { Vertex k.vert0 (k.vert0 + k.verts) u × Higher (view_in n rows.now corners.now) k u higher }
    requires sides { (m ≡ sides_of (row_in rows.now) (face_in corners.now) k.other0 k.others u)
        × Sloped (row_in rows.now) (face_in corners.now) slopes.old }
    ensures { FirstIfFound (hits_of (view_in n rows.now corners.now) k
        (vertex_edges (view_in n rows.now corners.now) k u)) result
        × Sloped (row_in rows.now) (face_in corners.now) slopes.new }
{
    let mut left = higher;
    for _ in 0..LOOKED {
        if left == 0 {
            return None;
        }
        let v = u + 1 + u64::trailing_zeros(left) as usize;
        let found = first_look_at(engine, rows, corners, n, k, planes, u, m, v, slopes);
        if let Some((a, b, f)) = found {
            return Some((a, b, f));
        }
        left = left & (left - 1);
    }
    None
}

// Of the edges from the solid's first vertex. A pair that is found is the first of all; nothing found says nothing.
pub fn first_look<E: Surveyor>(
    engine: E,
    rows: &Rows,
    corners: &Corners,
    n: usize,
    k: Solid,
    planes: &Planes,
    links: &VertexSets,
    slopes: &mut Slopes,
) -> Option<Pair>
    requires solid { Sound (view_in n rows.now corners.now) k × Made (row_in rows.now) (face_in corners.now) k planes.now }
    requires links { AreLinks (view_in n rows.now corners.now) k links.now }
    requires sloped { Sloped (row_in rows.now) (face_in corners.now) slopes.old }
    ensures { FirstIfFound (solid_hits (view_in n rows.now corners.now) k) result
        × Sloped (row_in rows.now) (face_in corners.now) slopes.new }
{
    if k.verts == 0 {
        return None;
    }
    let u = k.vert0 + 1;
    let m = sides(rows, corners, planes, k.other0, k.others, u, slopes);
    let higher = links[u] >> 1;
    first_look_from(engine, rows, corners, n, k, planes, u, m, higher, slopes)
}
