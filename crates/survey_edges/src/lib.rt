// A table of a solid's edges with the mask of each, and what is read off it.
#![tactic(auto)]

ghost use Rattle.std.specs.Prelude.{◌≡◌, List, ℕ, ◌+◌, ◌*◌, ◌^◌, ◌≤◌, ◌<◌, length};
ghost use Rattle.pierce_masks.specs.Faces.{width, value_of};
ghost use Rattle.survey_edges.specs.Table.{most_edges, mask_in, table_hits};

use pierce_masks::Mask;
use scene::Scene;

pub mod first;
pub mod links;
pub mod pairs;

// The edges of a solid that a table has room for: a face has three, and each lies in two faces at least.
pub const MOST_EDGES: usize = 3 * Scene::MOST_FACES / 2;

pub const ENDS: usize = 2 * MOST_EDGES;

// The ends of edge j stand at 2j and 2j + 1, lower point first, and so do the two words of its mask.
pub type Ends = [u16; ENDS];

pub type Masks = [u64; ENDS];

fn of_words(low: u64, high: u64) -> Mask
    ensures value { value_of result ≡ low + 2 ^ 64 * high }
    ensures small { value_of result < 2 ^ width }
{
    Mask {
        low: low,
        high: high,
    }
}

pub fn mask_at(masks: &Masks, j: usize) -> Mask
    requires { j < most_edges }
    ensures value { value_of result ≡ mask_in masks.now j }
    ensures small { value_of result < 2 ^ width }
{
    let at = 2 * j;
    of_words(masks[at], masks[at + 1])
}

// How many pairs the first n edges have, whatever their ends: the ones of their masks.
pub fn count(masks: &Masks, n: usize) -> usize
    requires { n ≤ most_edges }
    ensures { (first : ℕ) (ends : List ℕ) → result ≡ length (table_hits first ends masks.now n) }
{
    let mut c: usize = 0;
    for j in 0..n {
        c += pierce_masks::ones(mask_at(masks, j));
    }
    c
}
