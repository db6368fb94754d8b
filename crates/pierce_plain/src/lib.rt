// Piercing by five signs, as the tutorial notes have it: no helper is needed.
#![tactic(auto)]

ghost use Rattle.std.specs.Prelude.{◌≡◌, ◌≤◌};
ghost use Rattle.scene.specs.Limits.{limits, most_points};
ghost use Rattle.scene.specs.Arrays.{row_in, AllWithin, FaceWithin};
ghost use Rattle.orient.specs.Weighted.{Weighted};
ghost use Rattle.pierce.specs.Beside.{Beside};
ghost use Rattle.pierce_plain.specs.Five.{five_signs};

use orient::positive_at;
use scene::{Face, Rows};

// The edge from u to v pierces the face, in a scene of n points: the ends lie on different sides of the face's plane, and the edge's signs
// against the three sides, taken round the face, are all alike. No sign is asked for that cannot change the answer.
pub fn pierces(rows: &Rows, n: usize, u: usize, v: usize, f: Face) -> bool
    requires points { AllWithin limits (row_in rows.now) × (u ≤ most_points limits) × (v ≤ most_points limits) × FaceWithin limits f }
    requires edge { Weighted n (row_in rows.now) × Beside n u v f }
    ensures { result ≡ five_signs (row_in rows.now) u v f }
{
    let p = f.p;
    let q = f.q;
    let r = f.r;
    let u_above = positive_at(rows, p, q, r, u);
    let v_above = positive_at(rows, p, q, r, v);
    if u_above == v_above {
        return false;
    }
    let pq = positive_at(rows, u, v, p, q);
    let qr = positive_at(rows, u, v, q, r);
    if pq != qr {
        return false;
    }
    let rp = positive_at(rows, u, v, r, p);
    qr == rp
}
