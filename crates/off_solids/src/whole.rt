// The records of a text's vertices and faces, and the whole scene.
ghost use Rattle.std.specs.Prelude.{◌≡◌, ◌+◌, ◌*◌, ◌≤◌, ◌<◌, length, take};
ghost use Rattle.scene.specs.Limits.{limits, longest};
ghost use Rattle.off_form.specs.Form.{vertices_of, faces_of};
ghost use Rattle.off_solids.specs.Fitted.{scene_of};
ghost use Rattle.off_solids.specs.Grown.{Grown};
ghost use Rattle.off_solids.specs.Bytes.{Small, row_bytes, faces_bytes, head_bytes, points_bytes, all_faces};

use crate::points::{Point, face_at, past, vertex_at};
use crate::write::{put, put_face, put_point, put_two};
use off_form::Head;
use scene::Scene;

fn put_rows(out: &mut [u8], k: usize, text: &[u8], h: Head)
    requires { Small text.now h × (k + 9 * h.vertices ≤ length out.old) }
    ensures { Grown k (row_bytes text.now (vertices_of text.now)) out.old out.new }
{
    let n = h.vertices;
    let per = h.per;
    let mut at = h.at;
    for i in 0..n {
        put_point(out, k + 9 * i, Scene::VX, vertex_at(text, at, per));
        at = past(text, at, per);
    }
}

fn put_faces(out: &mut [u8], k: usize, text: &[u8], h: Head)
    requires { Small text.now h × (k + 5 * h.faces ≤ length out.old) }
    ensures { Grown k (faces_bytes text.now (faces_of text.now)) out.old out.new }
{
    let n = h.faces;
    let mut at = past(text, h.at, h.vertices * h.per);
    for i in 0..n {
        put_face(out, k + 5 * i, face_at(text, at));
        at = past(text, at, 4);
    }
}

// The counts of both.
fn put_header(out: &mut [u8], h: Head, g: Head)
    requires { (6 ≤ length out.old) × (h.vertices < 256) × (h.faces < 256) × (g.vertices < 256) × (g.faces < 256) }
    ensures { Grown 0 (head_bytes h.vertices h.faces g.vertices g.faces) out.old out.new }
{
    put_two(out, 0, Scene::SC);
    put(out, 2, h.vertices);
    put(out, 3, h.faces);
    put(out, 4, g.vertices);
    put(out, 5, g.faces);
}

// The header, the far point, and the vertices of both.
fn put_points(out: &mut [u8], a: &[u8], h: Head, b: &[u8], g: Head, far: Point)
    requires { Small a.now h × Small b.now g × (longest limits ≤ length out.old) }
    ensures { Grown 0 (points_bytes a.now b.now far) out.old out.new }
{
    let k = 15 + 9 * h.vertices;
    put_header(out, h, g);
    put_point(out, 6, Scene::FP, far);
    put_rows(out, 15, a, h);
    put_rows(out, k, b, g);
}

// The faces of both, and the end.
fn put_all_faces(out: &mut [u8], k: usize, a: &[u8], h: Head, b: &[u8], g: Head)
    requires { Small a.now h × Small b.now g × (k + 5 * h.faces + 5 * g.faces + 2 ≤ length out.old) }
    ensures { Grown k (all_faces a.now b.now) out.old out.new }
{
    let m = k + 5 * h.faces;
    let e = m + 5 * g.faces;
    put_faces(out, k, a, h);
    put_faces(out, m, b, g);
    put_two(out, e, Scene::EN);
}

// The scene of two texts within the limits of counts, each with its head, and the scene's length.
pub fn put_scene(out: &mut [u8], a: &[u8], h: Head, b: &[u8], g: Head, far: Point) -> usize
    requires { Small a.now h × Small b.now g × (longest limits ≤ length out.old) }
    ensures { (result ≡ length (scene_of a.now b.now far))
        × (take result out.new ≡ scene_of a.now b.now far) × (result ≤ longest limits) }
{
    let k = 15 + 9 * h.vertices + 9 * g.vertices;
    let e = k + 5 * h.faces + 5 * g.faces + 2;
    put_points(out, a, h, b, g, far);
    put_all_faces(out, k, a, h, b, g);
    e
}
