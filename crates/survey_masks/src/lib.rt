// The edges of a solid in the order of the listing, each with its mask against the other solid, worked out once into a lent table.
#![tactic(auto)]

ghost use Rattle.std.specs.Prelude.{◌≡◌, ◌+◌, ◌*◌, ◌<◌, ◌≤◌, length};
ghost use Rattle.pierce_masks.specs.Faces.{value_of};
ghost use Rattle.scene.specs.Faces.{Vertex};
ghost use Rattle.questions.specs.Hits.{view_in, Sound, edge_mask};
ghost use Rattle.survey_edges.specs.Table.{most_edges};
ghost use Rattle.survey_edges.specs.Edges.{vertex_edges, solid_edges, Within, AreLinks, Filled};
ghost use Rattle.survey_sides.specs.Lent.{SidesFilled};
ghost use Rattle.survey_narrow.specs.Lent.{Separated};
ghost use Rattle.survey_masks.specs.Store.{pair_set};

use pierce_masks::Mask;
use scene::{Corners, Rows, Solid};
use survey_edges::links::VertexSets;
use survey_edges::{Ends, Masks};
use survey_narrow::mask;
use survey_narrow::separating_faces::SeparatingFaces;
use survey_sides::Surveyor;

// The mask of the edge u, v of the solid against the other one, in a scene of n points.
pub fn edge_mask<E: Surveyor>(
    engine: E,
    rows: &Rows,
    corners: &Corners,
    n: usize,
    k: Solid,
    words: &survey_sides::point_masks::PointMasks,
    own: &survey_sides::point_masks::PointMasks,
    separating: &SeparatingFaces,
    u: usize,
    v: usize,
) -> Mask
    requires solid { Sound (view_in n rows.now corners.now) k × Vertex k.vert0 (k.vert0 + k.verts) u
        × Vertex k.vert0 (k.vert0 + k.verts) v × (u < v) }
    requires sides { SidesFilled (view_in n rows.now corners.now) k words.now
        × Separated (view_in n rows.now corners.now) k own.now separating.now }
    ensures { value_of result ≡ edge_mask (view_in n rows.now corners.now) k u v }
{
    mask(
        engine, rows, corners, words, own, separating, n, u, v, k.other0, k.others,
    )
}

fn narrow(x: usize) -> u16
    requires { x < 65536 }
    ensures { result ≡ x }
{
    x as u16
}

// Edge j of the table. The second word is read last: a processor waits where both are read at once that were just written one by one.
fn put_edge(ends: &mut Ends, masks: &mut Masks, j: usize, u: u16, v: u16, m: Mask)
    requires { j < most_edges }
    ensures ends_after { ends.new ≡ pair_set ends.old j u v }
    ensures masks_after { masks.new ≡ pair_set masks.old j m.low m.high }
{
    let at = 2 * j;
    let low = m.low;
    masks[at] = low;
    ends[at] = u;
    ends[at + 1] = v;
    let high = m.high;
    masks[at + 1] = high;
}

// The edges from the solid's i-th vertex, from 0, to its higher neighbours, behind the first `at` of the table; how many there are then.
fn fill_vertex<E: Surveyor>(
    engine: E,
    rows: &Rows,
    corners: &Corners,
    n: usize,
    k: Solid,
    links: &VertexSets,
    words: &survey_sides::point_masks::PointMasks,
    own: &survey_sides::point_masks::PointMasks,
    separating: &SeparatingFaces,
    i: usize,
    at: usize,
    ends: &mut Ends,
    masks: &mut Masks,
) -> usize
    requires solid { Sound (view_in n rows.now corners.now) k × AreLinks (view_in n rows.now corners.now) k links.now
        × (i < k.verts) }
    requires room { (length ends.old ≡ 2 * most_edges) × (length masks.old ≡ 2 * most_edges)
        × (at + length (vertex_edges (view_in n rows.now corners.now) k (k.vert0 + 1 + i)) ≤ most_edges) }
    requires sides { SidesFilled (view_in n rows.now corners.now) k words.now
        × Separated (view_in n rows.now corners.now) k own.now separating.now }
    ensures { Filled (vertex_edges (view_in n rows.now corners.now) k (k.vert0 + 1 + i)) at
        ends.old masks.old ends.new masks.new result }
{
    let u = k.vert0 + 1 + i;
    let mut left = links[u] >> (i + 1);
    let mut c = at;
    while left != 0 {
        let v = u + 1 + u64::trailing_zeros(left) as usize;
        let m = edge_mask(engine, rows, corners, n, k, words, own, separating, u, v);
        put_edge(ends, masks, c, narrow(u), narrow(v), m);
        c += 1;
        left = left & (left - 1);
    }
    c
}

// The edges of the solid; how many there are.
pub fn fill_solid<E: Surveyor>(
    engine: E,
    rows: &Rows,
    corners: &Corners,
    n: usize,
    k: Solid,
    links: &VertexSets,
    words: &survey_sides::point_masks::PointMasks,
    own: &survey_sides::point_masks::PointMasks,
    separating: &SeparatingFaces,
    ends: &mut Ends,
    masks: &mut Masks,
) -> usize
    requires solid { Within (view_in n rows.now corners.now) k × AreLinks (view_in n rows.now corners.now) k links.now }
    requires room { (length ends.old ≡ 2 * most_edges) × (length masks.old ≡ 2 * most_edges) }
    requires sides { SidesFilled (view_in n rows.now corners.now) k words.now
        × Separated (view_in n rows.now corners.now) k own.now separating.now }
    ensures { Filled (solid_edges (view_in n rows.now corners.now) k) 0
        ends.old masks.old ends.new masks.new result }
{
    let mut c: usize = 0;
    for i in 0..k.verts {
        c = fill_vertex(
            engine, rows, corners, n, k, links, words, own, separating, i, c, ends, masks,
        );
    }
    c
}
