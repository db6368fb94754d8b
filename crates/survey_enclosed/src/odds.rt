// A word for each vertex of a solid: the neighbours to which an edge of an odd mask leads.
ghost use Rattle.std.specs.Prelude.{◌≡◌, ℕ, ◌+◌, ◌≤◌, ◌<◌, length};
ghost use Rattle.survey_edges.specs.Links.{words};
ghost use Rattle.survey_edges.specs.Table.{most_edges, entry_in, entries_in};
ghost use Rattle.survey_enclosed.specs.Odds.{EndsIn, MarksEntry, Marked};

use pierce_masks::is_odd;
use survey_edges::links::{VertexSets, bit, clear, join};
use survey_edges::{Ends, Masks, mask_at};

// The ends of edge j, where its mask is odd, are marked in each other's words.
fn mark_entry(ends: &Ends, masks: &Masks, j: usize, low: usize, verts: usize, odds: &mut VertexSets)
    requires { (j < most_edges) × (verts ≤ 64) × (low + verts < words) × (length odds.old ≡ words) × EndsIn low verts
        (entry_in ends.now masks.now j) }
    ensures { MarksEntry low verts (entry_in ends.now masks.now j) odds.old odds.new }
{
    if !is_odd(mask_at(masks, j)) {
        return;
    }
    let at = 2 * j;
    let u = usize::from(ends[at]);
    let v = usize::from(ends[at + 1]);
    join(odds, u, bit(low, v));
    join(odds, v, bit(low, u));
}

// The words of the vertices above low by the first n edges of the table.
pub fn fill_odds(
    ends: &Ends,
    masks: &Masks,
    n: usize,
    low: usize,
    verts: usize,
    odds: &mut VertexSets,
)
    requires room { (n ≤ most_edges) × (verts ≤ 64) × (low + verts < words) × (length odds.old ≡ words) }
    requires ends { (j : ℕ) → j < n → EndsIn low verts (entry_in ends.now masks.now j) }
    ensures { Marked low verts (entries_in ends.now masks.now n) odds.new }
{
    clear(odds, low, verts);
    for j in 0..n {
        mark_entry(ends, masks, j, low, verts, odds);
    }
}
