// The records of a scene whose counts are within their limits, by their numbers. Every answer is total: a record that the scene lacks is
// taken as some other.
ghost use Rattle.std.specs.Prelude.{◌<◌};
ghost use Rattle.print_why.specs.Bounds.{OneByte, records_end};

use scene::{Row, Solid, offsets, read};

// The first byte of record k.
pub fn start(s: &[u8], k: usize) -> usize
    ensures { result < records_end }
{
    let n = offsets::points(s);
    if k == 0 {
        return 0;
    }
    if k <= n {
        return offsets::point_start(k - 1);
    }
    if k > offsets::last_record(s) {
        return 0;
    }
    offsets::face_start(s, k - n - 1)
}

// The point in record k: the far point, whose number is the last, is in record 1.
pub fn point_in(s: &[u8], k: usize) -> usize {
    if k < 2 { offsets::points(s) } else { k - 1 }
}

pub fn row_in(s: &[u8], k: usize) -> Row {
    read::row(s, point_in(s, k))
}

// The solid whose face is in record k.
pub fn solid_in(s: &[u8], k: usize) -> Solid
    ensures { OneByte result.vert0 × OneByte result.verts × OneByte result.face0 × OneByte result.faces }
{
    if k <= offsets::points(s) + read::counts(s).faces_a {
        return read::solid(s, 1);
    }
    read::solid(s, 2)
}
