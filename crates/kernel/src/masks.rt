// Questions about a solid: the faces that an edge pierces, and whether a vertex is enclosed.
ghost use Rattle.std.specs.Prelude.{◌≡◌, Ok};
ghost use Rattle.scene.specs.View.{view_of};
ghost use Rattle.pierce_masks.specs.Faces.{value_of};
ghost use Rattle.judge.specs.Judge.{judged};
ghost use Rattle.questions.specs.Answers.{is_vertex_of, edge_and_solid, ends_off_solid, mask_fault, mask_in, said_mask, masked_of, enclosed_fault};
ghost use Rattle.questions.specs.Answers.{other_solid, enclosed_of};
ghost use Rattle.questions.specs.Asked.{Outside};

use crate::points::is_point;
use pierce_engine::Engine;
use pierce_masks::Mask;
use scene::offsets::{points, vertices};
use scene::read::{counts, solid};
use scene::{Corners, Refusal, Rows, Scene, decode, is_within};

// Point i is a vertex of solid k, 1 for A and 2 for B.
fn is_vertex_of(s: &[u8], k: usize, i: usize) -> bool
    ensures { result ≡ is_vertex_of (view_of s.now) k i }
{
    let o = solid(s, k);
    is_within(o.vert0 + 1, o.vert0 + o.verts, i)
}

fn has_edge_and_solid(s: &[u8], u: usize, v: usize, k: usize) -> bool
    ensures { result ≡ edge_and_solid (view_of s.now) u v k }
{
    if !is_point(s, u) {
        return false;
    }
    if !is_point(s, v) {
        return false;
    }
    is_within(1, 2, k)
}

fn are_outside(s: &[u8], u: usize, v: usize, k: usize) -> bool
    ensures { result ≡ ends_off_solid (view_of s.now) u v k }
{
    if u == v {
        return false;
    }
    if is_vertex_of(s, k, u) {
        return false;
    }
    !is_vertex_of(s, k, v)
}

fn mask_fault(s: &[u8], u: usize, v: usize, k: usize) -> Result<(), Refusal>
    ensures { result ≡ mask_fault (view_of s.now) u v k }
{
    if !has_edge_and_solid(s, u, v, k) {
        return Err(Refusal::NoSuchNumber);
    }
    if !are_outside(s, u, v, k) {
        return Err(Refusal::NotDistinct);
    }
    Ok(())
}

// The mask of u, v against the solid k of an accepted scene.
fn mask_of<E: Engine>(engine: E, s: &[u8], u: usize, v: usize, k: usize) -> Mask
    requires { (judged s.now ≡ Ok tt) × Outside (view_of s.now) u v k }
    ensures { value_of result ≡ mask_in (view_of s.now) u v k }
{
    let mut rows: Rows = [0; Scene::ROWS];
    let mut corners: Corners = [0; Scene::CORNERS];
    decode::rows(s, &mut rows);
    decode::faces(s, &mut corners);
    let o = solid(s, k);
    pierce_engine::mask(engine, &rows, &corners, points(s), u, v, o.face0, o.faces)
}

// The mask of u, v against solid k, with the number of its ones.
pub fn mask<E: Engine>(
    engine: E,
    s: &[u8],
    u: usize,
    v: usize,
    k: usize,
) -> Result<(Mask, usize), Refusal>
    ensures { said_mask result ≡ masked_of s.now u v k }
{
    judge::judge(s)?;
    mask_fault(s, u, v, k)?;
    let m = mask_of(engine, s, u, v, k);
    Ok((m, pierce_masks::ones(m)))
}

fn enclosed_fault(s: &[u8], i: usize) -> Result<(), Refusal>
    ensures { result ≡ enclosed_fault (view_of s.now) i }
{
    if !is_within(1, vertices(s), i) {
        return Err(Refusal::NoSuchNumber);
    }
    Ok(())
}

// The solid that may enclose vertex i.
fn other_solid(s: &[u8], i: usize) -> usize
    ensures { result ≡ other_solid (view_of s.now) i }
{
    let c = counts(s);
    if i <= c.vertices_a {
        return 2;
    }
    1
}

// Whether the vertex with point number i is enclosed by the other solid.
pub fn enclosed<E: Engine>(engine: E, s: &[u8], i: usize) -> Result<bool, Refusal>
    ensures { result ≡ enclosed_of s.now i }
{
    judge::judge(s)?;
    enclosed_fault(s, i)?;
    Ok(pierce_masks::is_odd(mask_of(engine, s, i, points(s), other_solid(s, i))))
}
