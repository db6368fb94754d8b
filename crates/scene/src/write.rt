// Numbers and records of a scene, written into lent bytes. What stands elsewhere stays.
ghost use Rattle.std.specs.Prelude.{◌≡◌, ◌++◌, ◌+◌, ◌<◌, ◌≤◌, nat_abs, length, drop};
ghost use Rattle.scene.specs.Records.{point_start};
ghost use Rattle.scene.specs.Write.{unsigned, RowFits, FaceFits, HeaderFits, two_put, row_put, corners_put, header_put};

use crate::{Face, Row, Scene};

// Two bytes, low byte first: a coordinate, or a mark.
pub fn put_two(out: &mut [u8], at: usize, n: usize)
    requires { (n < 65536) × (at + 2 ≤ length out.old) }
    ensures { out.new ≡ two_put out.old at n }
{
    out[at] = (n % 256) as u8;
    out[at + 1] = (n / 256) as u8;
}

// The number that stands for v, where the negative numbers stand from half on.
fn unsigned(half: usize, v: i64) -> usize
    requires { (nat_abs v < half) × (half ≤ 32768) }
    ensures { (result ≡ unsigned half v) × (result < half + half) }
{
    if v < 0 {
        half + half - 1 - ((-1 - v) as usize)
    } else {
        v as usize
    }
}

// The row behind the mark of the file's point j: 0 is the far point, then come the vertices.
pub fn put_row(out: &mut [u8], j: usize, p: Row)
    requires { RowFits p × (point_start j + 9 ≤ length out.old) }
    ensures { out.new ≡ row_put out.old j p }
{
    let at = 6 + j * 9;
    put_two(out, at + 2, unsigned(32768, p.x));
    put_two(out, at + 4, unsigned(32768, p.y));
    put_two(out, at + 6, unsigned(32768, p.z));
    out[at + 8] = unsigned(128, p.w) as u8;
}

// The corners behind the mark of the face whose record starts at `at`.
pub fn put_corners(out: &mut [u8], at: usize, f: Face)
    requires { FaceFits f × (at + 5 ≤ length out.old) }
    ensures { out.new ≡ corners_put out.old at f }
{
    out[at + 2] = f.p as u8;
    out[at + 3] = f.q as u8;
    out[at + 4] = f.r as u8;
}

// The header: its mark and its counts.
pub fn put_header(out: &mut [u8], c: Scene)
    requires { HeaderFits c × (6 ≤ length out.old) }
    ensures { out.new ≡ header_put out.old c }
{
    put_two(out, 0, Scene::SC);
    out[2] = c.vertices_a as u8;
    out[3] = c.faces_a as u8;
    out[4] = c.vertices_b as u8;
    out[5] = c.faces_b as u8;
}

// out with all of `from` at its front.
pub fn copy(from: &[u8], out: &mut [u8])
    requires { length from.now ≤ length out.old }
    ensures { out.new ≡ from.now ++ drop (length from.now) out.old }
{
    out[..from.len()].copy_from_slice(from);
}
