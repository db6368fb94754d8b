// The vertices of a solid that the other one encloses, along its edges: one mask toward the far point for each part, and the rest by the
// oddness of the edges' masks.
#![tactic(auto)]

ghost use Rattle.std.specs.Prelude.{◌≡◌, ◌+◌, ◌-◌, ◌^◌, ◌<◌};
ghost use Rattle.laws.specs.Mask.{test_bit};
ghost use Rattle.scene.specs.Faces.{Vertex};
ghost use Rattle.survey_edges.specs.Links.{words};
ghost use Rattle.questions.specs.Hits.{view_in, Sound, enclosed_vertex};
ghost use Rattle.survey_edges.specs.Edges.{AreLinks};
ghost use Rattle.survey_sides.specs.Lent.{SidesFilled};
ghost use Rattle.survey_enclosed.specs.Ready.{Ready};
ghost use Rattle.survey_enclosed.specs.Odds.{AreOdds};
ghost use Rattle.survey_enclosed.specs.Walk.{inside_word, Reached, Started, passed, flipped, step_of};

use pierce_masks::is_odd;
use scene::{Corners, Rows, Solid};
use survey_edges::links::VertexSets;
use survey_sides::{Surveyor, mask};

pub mod odds;

// What is enclosed of what is known so far, what is known, and what is not yet passed: words of the solid's vertices.
#[derive(Clone, Copy)]
pub struct Spread {
    pub inside: u64,
    pub known: u64,
    pub left: u64,
}

fn bit(i: usize) -> u64
    requires { i < 64 }
    ensures { result ≡ 2 ^ i }
{
    1 << i
}

fn has(w: u64, i: usize) -> bool
    requires { i < 64 }
    ensures { result ≡ test_bit w i }
{
    (w >> i) % 2 == 1
}

// By its mask toward the far point.
fn is_enclosed<E: Surveyor>(
    engine: E,
    rows: &Rows,
    corners: &Corners,
    n: usize,
    k: Solid,
    words: &survey_sides::point_masks::PointMasks,
    u: usize,
) -> bool
    requires solid { Sound (view_in n rows.now corners.now) k × Vertex k.vert0 (k.vert0 + k.verts) u }
    requires sides { SidesFilled (view_in n rows.now corners.now) k words.now }
    ensures { result ≡ enclosed_vertex (view_in n rows.now corners.now) k u }
{
    is_odd(mask(engine, rows, corners, words, n, u, n, k.other0, k.others))
}

// Where no vertex that is known is left, the lowest that is left is asked of the far point.
fn start<E: Surveyor>(
    engine: E,
    rows: &Rows,
    corners: &Corners,
    n: usize,
    k: Solid,
    words: &survey_sides::point_masks::PointMasks,
    t: Spread,
) -> Spread
    requires solid { Ready (view_in n rows.now corners.now) k × Reached (view_in n rows.now corners.now) k t × (0 < t.left) }
    requires sides { SidesFilled (view_in n rows.now corners.now) k words.now }
    ensures { Started (view_in n rows.now corners.now) k t result }
{
    let inside = t.inside;
    let known = t.known;
    let left = t.left;
    if known & left != 0 {
        return t;
    }
    let i = u64::trailing_zeros(left) as usize;
    let b = bit(i);
    if is_enclosed(engine, rows, corners, n, k, words, k.vert0 + 1 + i) {
        return Spread {
            inside: inside | b,
            known: known | b,
            left: left,
        };
    }
    Spread {
        inside: inside,
        known: known | b,
        left: left,
    }
}

// Of the fresh neighbours those that are enclosed: the odd ones, or the others where the vertex is enclosed itself.
fn flipped(fresh: u64, odd: u64, enclosed: bool) -> u64
    ensures { result ≡ flipped fresh odd enclosed }
{
    if enclosed {
        return fresh ^ odd;
    }
    odd
}

// A vertex that is known and left makes its neighbours known, and is passed.
fn step(links: &VertexSets, odds: &VertexSets, low: usize, t: Spread) -> Spread
    requires { (passed t < 64) × (low + 1 + passed t < words) }
    ensures { result ≡ step_of links.now odds.now low t }
{
    let inside = t.inside;
    let known = t.known;
    let left = t.left;
    let i = u64::trailing_zeros(known & left) as usize;
    let u = low + 1 + i;
    let fresh = (links[u] | known) ^ known;
    let over = flipped(fresh, fresh & odds[u], has(inside, i));
    Spread {
        inside: inside | over,
        known: known | fresh,
        left: left ^ bit(i),
    }
}

// The word of the enclosed vertices.
pub fn enclosed_word<E: Surveyor>(
    engine: E,
    rows: &Rows,
    corners: &Corners,
    n: usize,
    k: Solid,
    links: &VertexSets,
    odds: &VertexSets,
    words: &survey_sides::point_masks::PointMasks,
) -> u64
    requires solid { Ready (view_in n rows.now corners.now) k × AreLinks (view_in n rows.now corners.now) k links.now
        × AreOdds (view_in n rows.now corners.now) k odds.now }
    requires sides { SidesFilled (view_in n rows.now corners.now) k words.now }
    ensures { result ≡ inside_word (view_in n rows.now corners.now) k }
{
    let low = k.vert0;
    let mut t = Spread {
        inside: 0,
        known: 0,
        left: bit(k.verts) - 1,
    };
    while t.left != 0 {
        t = step(
            links,
            odds,
            low,
            start(engine, rows, corners, n, k, words, t),
        );
    }
    t.inside
}
