// The first pierced pair of a solid's edges, asked one after another: nothing behind it is asked.
ghost use Rattle.std.specs.Prelude.{◌≡◌, ◌+◌, ◌<◌};
ghost use Rattle.survey_edges.specs.Edges.{AreLinks, Higher, entry, vertex_edges};
ghost use Rattle.survey_sides.specs.Lent.{SidesFilled};
ghost use Rattle.survey_narrow.specs.Lent.{Separated};
ghost use Rattle.questions.specs.First.{first_of};
ghost use Rattle.questions.specs.Hits.{view_in, solid_hits, Sound};
ghost use Rattle.scene.specs.Faces.{Vertex};
ghost use Rattle.survey_edges.specs.Table.{entry_hits, each};

use questions::Pair;
use scene::{Corners, Rows, Solid};
use survey_edges::first::first_of_mask;
use survey_edges::links::VertexSets;
use survey_masks::edge_mask;
use survey_narrow::separating_faces::SeparatingFaces;
use survey_sides::Surveyor;

// Of the edge u, v.
fn first_of_edge<E: Surveyor>(
    engine: E,
    rows: &Rows,
    corners: &Corners,
    n: usize,
    k: Solid,
    words: &survey_sides::point_masks::PointMasks,
    own: &survey_sides::point_masks::PointMasks,
    separating: &SeparatingFaces,
    u: usize,
    v: usize,
) -> Option<Pair>
    requires solid { Sound (view_in n rows.now corners.now) k }
    requires edge { Vertex k.vert0 (k.vert0 + k.verts) u × Vertex k.vert0 (k.vert0 + k.verts) v × (u < v) }
    requires sides { SidesFilled (view_in n rows.now corners.now) k words.now
        × Separated (view_in n rows.now corners.now) k own.now separating.now }
    ensures { result ≡ first_of (entry_hits k.other0 (entry (view_in n rows.now corners.now) k u v)) }
{
    let m = edge_mask(engine, rows, corners, n, k, words, own, separating, u, v);
    first_of_mask(u, v, m, k.other0)
}

// Of the edges from u to its higher neighbours.
fn first_of_vertex<E: Surveyor>(
    engine: E,
    rows: &Rows,
    corners: &Corners,
    n: usize,
    k: Solid,
    words: &survey_sides::point_masks::PointMasks,
    own: &survey_sides::point_masks::PointMasks,
    separating: &SeparatingFaces,
    u: usize,
    higher: u64,
) -> Option<Pair>
    requires solid { Sound (view_in n rows.now corners.now) k × Vertex k.vert0 (k.vert0 + k.verts) u
        × Higher (view_in n rows.now corners.now) k u higher }
    requires sides { SidesFilled (view_in n rows.now corners.now) k words.now
        × Separated (view_in n rows.now corners.now) k own.now separating.now }
    ensures { result ≡ first_of (each (entry_hits k.other0) (vertex_edges (view_in n rows.now corners.now) k u)) }
{
    let mut left = higher;
    while left != 0 {
        let v = u + 1 + u64::trailing_zeros(left) as usize;
        let found = first_of_edge(engine, rows, corners, n, k, words, own, separating, u, v);
        if let Some((a, b, f)) = found {
            return Some((a, b, f));
        }
        left = left & (left - 1);
    }
    None
}

// Of all edges of the solid.
pub fn first_of<E: Surveyor>(
    engine: E,
    rows: &Rows,
    corners: &Corners,
    n: usize,
    k: Solid,
    links: &VertexSets,
    words: &survey_sides::point_masks::PointMasks,
    own: &survey_sides::point_masks::PointMasks,
    separating: &SeparatingFaces,
) -> Option<Pair>
    requires solid { Sound (view_in n rows.now corners.now) k × AreLinks (view_in n rows.now corners.now) k links.now }
    requires sides { SidesFilled (view_in n rows.now corners.now) k words.now
        × Separated (view_in n rows.now corners.now) k own.now separating.now }
    ensures { result ≡ first_of (solid_hits (view_in n rows.now corners.now) k) }
{
    let low = k.vert0;
    let verts = k.verts;
    for i in 0..verts {
        let u = low + 1 + i;
        let higher = links[u] >> (i + 1);
        let found = first_of_vertex(
            engine, rows, corners, n, k, words, own, separating, u, higher,
        );
        if let Some((a, b, f)) = found {
            return Some((a, b, f));
        }
    }
    None
}
