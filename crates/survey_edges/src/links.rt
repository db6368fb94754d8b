// A word for each point: the neighbours of each vertex of a solid, filled in one pass over its faces.
ghost use Rattle.std.specs.Prelude.{◌≡◌, ◌+◌, ◌-◌, ◌*◌, ◌^◌, ◌≤◌, ◌<◌, length};
ghost use Rattle.scene.specs.Limits.{limits, most_points};
ghost use Rattle.scene.specs.Faces.{FaceOf};
ghost use Rattle.scene.specs.Arrays.{face_in, FaceWithin};
ghost use Rattle.scene.specs.Edges.{width, Corners};
ghost use Rattle.survey_edges.specs.Links.{words, ored, Cleared, LinksFace, Linked};

use scene::decode::face_in;
use scene::{Corners, Face, Scene, Solid};

// The word of point i stands at i.
pub const WORDS: usize = Scene::MOST_POINTS + 1;

pub type VertexSets = [u64; WORDS];

// The bit of point i, of the points above low.
pub fn bit(low: usize, i: usize) -> u64
    requires { (low < i) × (i ≤ low + width) }
    ensures { result ≡ 2 ^ (i - (low + 1)) }
{
    1 << (i - (low + 1))
}

// The bits of t join the word of u.
pub fn join(links: &mut VertexSets, u: usize, t: u64)
    requires { u < words }
    ensures { links.new ≡ ored links.old u t }
{
    links[u] = links[u] | t;
}

// The words of the n points above low are emptied.
pub fn clear(links: &mut VertexSets, low: usize, n: usize)
    requires { (length links.old ≡ words) × (low + n < words) }
    ensures { Cleared low n links.old links.new }
{
    for i in 0..n {
        links[low + 1 + i] = 0;
    }
}

// Each corner of the face has the three as neighbours.
fn link_face(links: &mut VertexSets, f: Face, low: usize)
    requires { (length links.old ≡ words) × FaceOf low (low + width) f × FaceWithin limits f }
    ensures { LinksFace low f links.old links.new }
{
    let p = f.p;
    let q = f.q;
    let r = f.r;
    let t = bit(low, p) | bit(low, q) | bit(low, r);
    join(links, p, t);
    join(links, q, t);
    join(links, r, t);
}

// The neighbours of each vertex of the solid; the words of other points stay.
pub fn fill_links(corners: &Corners, k: Solid, links: &mut VertexSets)
    requires solid { Corners (face_in corners.now) k × (k.face0 + k.faces ≤ 2 * limits.most_faces) }
    requires room { (length links.old ≡ words) × (k.verts ≤ limits.most_vertices) × (k.vert0 + k.verts ≤ most_points limits) }
    ensures { Linked (face_in corners.now) k links.old links.new }
{
    let low = k.vert0;
    let verts = k.verts;
    let first = k.face0;
    let e = first + 1 + k.faces;
    clear(links, low, verts);
    for f in first + 1..e {
        link_face(links, face_in(corners, f), low);
    }
}
