// Piercing by formula (13).
#![tactic(auto)]

ghost use Rattle.std.specs.Prelude.{◌≡◌, ◌≤◌};
ghost use Rattle.scene.specs.Limits.{limits, most_points};
ghost use Rattle.scene.specs.Arrays.{row_in, AllWithin, FaceWithin};
ghost use Rattle.orient.specs.Terms.{positive_at};
ghost use Rattle.orient.specs.Weighted.{Weighted, SignDefined};
ghost use Rattle.pierce.specs.Formula.{can_help, helper, counts, sides_count, pierced};
ghost use Rattle.pierce.specs.Beside.{Beside, Helped};

use scene::{Face, Rows};

// The edge from u to v pierces the face, in a scene of n points.
pub fn pierces(rows: &Rows, n: usize, u: usize, v: usize, f: Face) -> bool
    requires points { AllWithin limits (row_in rows.now) × (6 ≤ n) × (n ≤ most_points limits) × (u ≤ most_points limits)
        × (v ≤ most_points limits)
        × FaceWithin limits f }
    requires edge { Weighted n (row_in rows.now) × Beside n u v f }
    ensures { result ≡ pierced n (row_in rows.now) u v f }
{
    let p = f.p;
    let q = f.q;
    let r = f.r;
    let a = orient::positive_at(rows, p, q, r, u);
    if a == orient::positive_at(rows, p, q, r, v) {
        return false;
    }
    sides(rows, u, v, helper(n, u, v, f), f)
}

// An odd number of the face's three sides count.
fn sides(rows: &Rows, u: usize, v: usize, h: usize, f: Face) -> bool
    requires points { AllWithin limits (row_in rows.now) × (u ≤ most_points limits) × (v ≤ most_points limits) × (h ≤ most_points limits)
        × FaceWithin limits f }
    requires edge { Helped (row_in rows.now) u v h f }
    ensures { result ≡ sides_count (positive_at (row_in rows.now)) u v h f.p f.q f.r }
{
    let p = f.p;
    let q = f.q;
    let r = f.r;
    let hp = orient::positive_at(rows, u, v, h, p);
    let hq = orient::positive_at(rows, u, v, h, q);
    let hr = orient::positive_at(rows, u, v, h, r);
    let pq = side(rows, u, v, p, q, hp, hq);
    let qr = side(rows, u, v, q, r, hq, hr);
    let rp = side(rows, u, v, r, p, hr, hp);
    (pq != qr) != rp
}

// The side from s to t counts, by H(s) and H(t).
fn side(rows: &Rows, u: usize, v: usize, s: usize, t: usize, hs: bool, ht: bool) -> bool
    requires sizes { AllWithin limits (row_in rows.now) × (u ≤ most_points limits) × (v ≤ most_points limits) × (s ≤ most_points limits)
        × (t ≤ most_points limits) }
    requires points { SignDefined (row_in rows.now) u v s t }
    ensures { result ≡ counts hs ht (positive_at (row_in rows.now) u v s t) }
{
    if hs == ht {
        return false;
    }
    hs != orient::positive_at(rows, u, v, s, t)
}

// The lowest-numbered point that is none of u, v and the face's corners.
fn helper(n: usize, u: usize, v: usize, f: Face) -> usize
    requires { n ≤ most_points limits }
    ensures { result ≡ helper n u v f }
{
    for h in 1..n + 1 {
        if can_help(u, v, f, h) {
            return h;
        }
    }
    n + 1
}

// i is none of u, v and the face's corners.
fn can_help(u: usize, v: usize, f: Face, i: usize) -> bool
    ensures { result ≡ can_help u v f i }
{
    (i != u) & (i != v) & (i != f.p) & (i != f.q) & (i != f.r)
}
