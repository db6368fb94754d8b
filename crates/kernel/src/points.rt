// Questions about points: the sign of four, and whether the edge of two pierces a face.
ghost use Rattle.std.specs.Prelude.{◌≡◌};
ghost use Rattle.scene.specs.View.{view_of};
ghost use Rattle.questions.specs.Answers.{is_point, are_points, differ, sign_fault, sign_of, ends_off_face, edge_and_face, pierces_fault, pierces_of};

use orient::Terms;
use pierce_engine::Engine;
use scene::offsets::points;
use scene::read::corners;
use scene::{Face, Refusal, Rows, Scene, decode, is_within, offsets};

// i is the number of a point of the scene, the far point too.
pub fn is_point(s: &[u8], i: usize) -> bool
    ensures { result ≡ is_point (view_of s.now) i }
{
    is_within(1, points(s), i)
}

fn are_points(s: &[u8], a: usize, b: usize, c: usize, d: usize) -> bool
    ensures { result ≡ are_points (view_of s.now) a b c d }
{
    if !is_point(s, a) {
        return false;
    }
    if !is_point(s, b) {
        return false;
    }
    if !is_point(s, c) {
        return false;
    }
    is_point(s, d)
}

fn differ(a: usize, b: usize, c: usize, d: usize) -> bool
    ensures { result ≡ differ a b c d }
{
    if a == b {
        return false;
    }
    if a == c {
        return false;
    }
    if a == d {
        return false;
    }
    if b == c {
        return false;
    }
    if b == d {
        return false;
    }
    c != d
}

fn sign_fault(s: &[u8], a: usize, b: usize, c: usize, d: usize) -> Result<(), Refusal>
    ensures { result ≡ sign_fault (view_of s.now) a b c d }
{
    if !are_points(s, a, b, c, d) {
        return Err(Refusal::NoSuchNumber);
    }
    if !differ(a, b, c, d) {
        return Err(Refusal::NotDistinct);
    }
    Ok(())
}

// The sign of points a, b, c and d, in the order asked.
pub fn sign(s: &[u8], a: usize, b: usize, c: usize, d: usize) -> Result<(Terms, bool), Refusal>
    ensures { result ≡ sign_of s.now a b c d }
{
    judge::judge(s)?;
    sign_fault(s, a, b, c, d)?;
    let mut rows: Rows = [0; Scene::ROWS];
    decode::rows(s, &mut rows);
    let terms = orient::terms_at(&rows, a, b, c, d);
    Ok((terms, orient::positive_at(&rows, a, b, c, d)))
}

// No end of the edge is a corner of the face, and the ends differ.
fn is_clear(u: usize, v: usize, f: Face) -> bool
    ensures { result ≡ ends_off_face u v f }
{
    if u == v {
        return false;
    }
    if scene::edges::is_corner(f, u) {
        return false;
    }
    !scene::edges::is_corner(f, v)
}

fn is_clear_of(s: &[u8], u: usize, v: usize, f: usize) -> bool
    ensures { result ≡ ends_off_face u v ((view_of s.now).face f) }
{
    is_clear(u, v, corners(s, f))
}

fn has_edge_and_face(s: &[u8], u: usize, v: usize, f: usize) -> bool
    ensures { result ≡ edge_and_face (view_of s.now) u v f }
{
    if !is_point(s, u) {
        return false;
    }
    if !is_point(s, v) {
        return false;
    }
    is_within(1, offsets::faces(s), f)
}

fn pierces_fault(s: &[u8], u: usize, v: usize, f: usize) -> Result<(), Refusal>
    ensures { result ≡ pierces_fault (view_of s.now) u v f }
{
    if !has_edge_and_face(s, u, v, f) {
        return Err(Refusal::NoSuchNumber);
    }
    if !is_clear_of(s, u, v, f) {
        return Err(Refusal::NotDistinct);
    }
    Ok(())
}

// Whether the edge from u to v pierces face f.
pub fn pierces<E: Engine>(
    engine: E,
    s: &[u8],
    u: usize,
    v: usize,
    f: usize,
) -> Result<bool, Refusal>
    ensures { result ≡ pierces_of s.now u v f }
{
    judge::judge(s)?;
    pierces_fault(s, u, v, f)?;
    let mut rows: Rows = [0; Scene::ROWS];
    decode::rows(s, &mut rows);
    Ok(engine.pierces(&rows, points(s), u, v, corners(s, f)))
}
