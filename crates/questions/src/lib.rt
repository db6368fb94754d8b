// What may be asked of a scene: what the answers are made of here, each question as a definition on a view in `specs/Answers`.
#![tactic(auto)]

use scene::Scene;

// A pierced pair: an edge, lower point first, and a face.
pub type Pair = (usize, usize, usize);

// What is said of a whole scene, with the first pair, or the lowest vertex that is enclosed.
#[derive(Clone, Copy)]
pub enum Verdict {
    Cross(usize, usize, usize),
    AInB(usize),
    BInA(usize),
    Apart,
}

#[derive(Clone, Copy)]
pub struct Counts {
    pub pairs: usize,
    pub a_in_b: usize,
    pub b_in_a: usize,
}

// Room for the longest listing: a face's plane parts two sides of a triangle at most, and each edge is in two faces or more, so that no
// more than as many edges as the solid has faces pierce a face of the other.
pub const MOST_PAIRS: usize = 2 * Scene::MOST_FACES * Scene::MOST_FACES;

// Bit j of a word is set exactly when the other solid encloses the solid's vertex j + 1.
#[derive(Clone, Copy)]
pub struct Facts {
    pub verdict: Verdict,
    pub counts: Counts,
    pub a_inside: u64,
    pub b_inside: u64,
}
