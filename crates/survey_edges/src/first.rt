// The first pair of a table.
ghost use Rattle.std.specs.Prelude.{◌≡◌, ◌*◌, ◌≤◌, ◌<◌};
ghost use Rattle.questions.specs.First.{first_of};
ghost use Rattle.scene.specs.Limits.{limits};
ghost use Rattle.survey_edges.specs.Table.{most_edges, entry_in, entry_of, entry_hits, table_hits};

use crate::{Ends, Masks, mask_at};
use pierce_masks::{Mask, first_face, has_face};
use questions::Pair;

// Of the edge u, v and the faces of its mask, numbered from first + 1 on.
pub fn first_of_mask(u: usize, v: usize, m: Mask, first: usize) -> Option<Pair>
    requires { first ≤ 2 * limits.most_faces }
    ensures { result ≡ first_of (entry_hits first (entry_of u v m)) }
{
    if !has_face(m) {
        return None;
    }
    Some((u, v, first + 1 + first_face(m)))
}

// Of edge j.
fn find_entry(ends: &Ends, masks: &Masks, j: usize, first: usize) -> Option<Pair>
    requires { (j < most_edges) × (first ≤ 2 * limits.most_faces) }
    ensures { result ≡ first_of (entry_hits first (entry_in ends.now masks.now j)) }
{
    let at = 2 * j;
    let u = usize::from(ends[at]);
    let v = usize::from(ends[at + 1]);
    first_of_mask(u, v, mask_at(masks, j), first)
}

// Of the first n edges.
pub fn find(ends: &Ends, masks: &Masks, n: usize, first: usize) -> Option<Pair>
    requires { (n ≤ most_edges) × (first ≤ 2 * limits.most_faces) }
    ensures { result ≡ first_of (table_hits first ends.now masks.now n) }
{
    for j in 0..n {
        if let Some((u, v, f)) = find_entry(ends, masks, j, first) {
            return Some((u, v, f));
        }
    }
    None
}
