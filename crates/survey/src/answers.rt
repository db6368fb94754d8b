// What is read off a survey: how many pairs, the first, the listing from a pair on, and of each solid the enclosed vertices.
ghost use Rattle.std.specs.Prelude.{◌≡◌, List, ℕ, ◌+◌, ◌*◌, ◌≤◌, length};
ghost use Rattle.std.specs.Int.Count.{ones};
ghost use Rattle.scene.specs.Limits.{limits};
ghost use Rattle.questions.specs.First.{first_of};
ghost use Rattle.questions.specs.WritePairs.{WritesPairs};
ghost use Rattle.survey.specs.Survey.{Fits, pairs_of};
ghost use Rattle.survey.specs.Inside.{lowest_of_word};

use crate::Survey;
use questions::Pair;
use survey_edges::first::find;
use survey_edges::pairs::write_pairs;
use survey_edges::{Ends, Masks, count};

// How many pairs, whatever the ends and the numbers of the faces.
pub fn count_pairs(t: Survey, amasks: &Masks, bmasks: &Masks) -> usize
    requires { Fits t }
    ensures { (a b : ℕ) (ends-a ends-b : List ℕ) → result ≡ length (pairs_of t a b ends-a amasks.now ends-b bmasks.now) }
{
    let x = count(amasks, t.a.edges);
    let y = count(bmasks, t.b.edges);
    x + y
}

// The first pair: A's edges have the faces behind the one numbered a, B's those behind b.
pub fn first_pair(
    t: Survey,
    a: usize,
    b: usize,
    aends: &Ends,
    amasks: &Masks,
    bends: &Ends,
    bmasks: &Masks,
) -> Option<Pair>
    requires { Fits t × (a ≤ 2 * limits.most_faces) × (b ≤ 2 * limits.most_faces) }
    ensures { result ≡ first_of (pairs_of t a b aends.now amasks.now bends.now bmasks.now) }
{
    if let Some((u, v, f)) = find(aends, amasks, t.a.edges, a) {
        return Some((u, v, f));
    }
    find(bends, bmasks, t.b.edges, b)
}

// The pairs from the one numbered `from` on, as far as there is room; how many there are in all.
pub fn write_all_pairs(
    t: Survey,
    a: usize,
    b: usize,
    aends: &Ends,
    amasks: &Masks,
    bends: &Ends,
    bmasks: &Masks,
    from: usize,
    out: &mut [u16],
) -> usize
    requires { Fits t × (a ≤ 2 * limits.most_faces) × (b ≤ 2 * limits.most_faces) }
    ensures { WritesPairs (pairs_of t a b aends.now amasks.now bends.now
        bmasks.now) from 0
        out.old out.new result }
{
    let c = write_pairs(aends, amasks, t.a.edges, a, from, 0, out);
    write_pairs(bends, bmasks, t.b.edges, b, from, c, out)
}

// How many vertices of the word are enclosed.
pub fn count_inside(inside: u64) -> usize
    ensures { result ≡ ones inside }
{
    u64::count_ones(inside) as usize
}

// The lowest of them, of the `verts` points above low; the number behind the last where there is none.
pub fn lowest_inside(inside: u64, low: usize, verts: usize) -> usize
    requires { low + verts ≤ 65535 }
    ensures { result ≡ lowest_of_word inside low verts }
{
    if inside == 0 {
        return low + 1 + verts;
    }
    low + 1 + u64::trailing_zeros(inside) as usize
}
