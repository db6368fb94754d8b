// An edge and one face whose plane parts its ends: whether the edge passes the face's three sides on one hand.
ghost use Rattle.std.specs.Prelude.{◌≡◌, ◌≤◌};
ghost use Rattle.scene.specs.Limits.{limits, most_points};
ghost use Rattle.scene.specs.Arrays.{row_in, AllWithin, FaceWithin};
ghost use Rattle.orient.specs.Terms.{positive_at};
ghost use Rattle.orient.specs.Minors.{join_of};
ghost use Rattle.survey_sides.specs.Crossing.{crosses, Faced};

use crate::planes::{dot, span};
use orient::minors::Line;
use orient::sign_by;
use scene::decode::row_in;
use scene::{Face, Rows};

// By c0 of the edge's line, made once an edge, and two corners at a time; where one is zero, by the shift.
pub fn crosses(rows: &Rows, l: Line, u: usize, v: usize, f: Face) -> bool
    requires points { AllWithin limits (row_in rows.now) × (u ≤ most_points limits) × (v ≤ most_points limits) × FaceWithin limits f }
    requires edge { (l ≡ join_of (row_in rows.now u) (row_in rows.now v)) × Faced (row_in rows.now) u v f }
    ensures { result ≡ crosses (positive_at (row_in rows.now)) u v f }
{
    let p = row_in(rows, f.p);
    let q = row_in(rows, f.q);
    let r = row_in(rows, f.r);
    let at_q = span(l, q);
    let qp = sign_by(rows, dot(at_q, p), u, v, f.q, f.p);
    let qr = sign_by(rows, dot(at_q, r), u, v, f.q, f.r);
    if qp == qr {
        return false;
    }
    let pr = sign_by(rows, dot(span(l, p), r), u, v, f.p, f.r);
    qr != pr
}
