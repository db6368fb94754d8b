// The pairs of a table into a lent list of numbers, three for each, by the set bits of the masks.
ghost use Rattle.std.specs.Prelude.{◌≡◌, ◌+◌, ◌*◌, ◌≤◌, ◌<◌};
ghost use Rattle.questions.specs.WritePairs.{WritesPairs, stepped, mask_hits, most};
ghost use Rattle.pierce_masks.specs.Faces.{width};
ghost use Rattle.scene.specs.Limits.{limits};
ghost use Rattle.survey_edges.specs.Table.{most_edges, entry_in, entry_hits, table_hits};

use crate::{Ends, Masks, mask_at};
use pierce_masks::WORD;

fn narrow(x: usize) -> u16
    requires { x < 65536 }
    ensures { result ≡ x }
{
    x as u16
}

// The pair that is number seen, at its place behind the one numbered from, where there is room.
fn put(out: &mut [u16], from: usize, seen: usize, u: u16, v: u16, f: u16)
    requires { seen < most }
    ensures { out.new ≡ stepped out.old from seen (record { low = u; high = v; face = f }) }
{
    if from <= seen {
        let at = 3 * (seen - from);
        if at + 3 <= out.len() {
            out[at] = u;
            out[at + 1] = v;
            out[at + 2] = f;
        }
    }
}

// The edge u, v with the faces of one word, the first of them numbered first + 1.
fn write_pairs_of_word(
    w: u64,
    u: u16,
    v: u16,
    first: usize,
    from: usize,
    seen: usize,
    out: &mut [u16],
) -> usize
    requires { (first + 64 < 65536) × (seen + 64 < most) }
    ensures { WritesPairs (mask_hits w u v first 64) from seen out.old out.new result }
{
    let mut left = w;
    let mut n = seen;
    while left != 0 {
        let t = u64::trailing_zeros(left) as usize;
        put(out, from, n, u, v, narrow(first + 1 + t));
        n += 1;
        left = left & (left - 1);
    }
    n
}

// Edge j with the faces of its mask.
fn write_pairs_of_entry(
    ends: &Ends,
    masks: &Masks,
    j: usize,
    first: usize,
    from: usize,
    seen: usize,
    out: &mut [u16],
) -> usize
    requires { (j < most_edges) × (first ≤ 2 * limits.most_faces) × (seen + width < most) }
    ensures { WritesPairs (entry_hits first (entry_in ends.now masks.now j)) from seen out.old
        out.new result }
{
    let m = mask_at(masks, j);
    let at = 2 * j;
    let u = ends[at];
    let v = ends[at + 1];
    let c = write_pairs_of_word(m.low, u, v, first, from, seen, out);
    write_pairs_of_word(m.high, u, v, first + WORD, from, c, out)
}

// The first n edges.
pub fn write_pairs(
    ends: &Ends,
    masks: &Masks,
    n: usize,
    first: usize,
    from: usize,
    seen: usize,
    out: &mut [u16],
) -> usize
    requires { (n ≤ most_edges) × (first ≤ 2 * limits.most_faces) × (seen + most_edges * width < most) }
    ensures { WritesPairs (table_hits first ends.now masks.now n) from seen out.old
        out.new result }
{
    let mut c = seen;
    for j in 0..n {
        c = write_pairs_of_entry(ends, masks, j, first, from, c, out);
    }
    c
}
