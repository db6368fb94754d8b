// Whether two scenes share their fixture: solid B and the far point, record by record.
ghost use Rattle.std.specs.Prelude.{◌≡◌, ◌+◌, ◌<◌};
ghost use Rattle.bench_moves.specs.Bench.{differ_at, same_bytes, same_counts, same_vertices, same_faces, is_shared};

use scene::offsets;
use scene::read::byte;

// Byte k of s behind i is not that of t behind j.
fn differ_at(s: &[u8], i: usize, t: &[u8], j: usize, k: usize) -> bool
    requires { (i + k < 65536) × (j + k < 65536) }
    ensures { result ≡ differ_at s.now i t.now j k }
{
    byte(s, i + k) != byte(t, j + k)
}

// The n bytes of s from i on are those of t from j on.
fn same_bytes(s: &[u8], i: usize, t: &[u8], j: usize, n: usize) -> bool
    requires { (i + n < 65536) × (j + n < 65536) }
    ensures { result ≡ same_bytes s.now i t.now j n }
{
    !(0..n).any(|k| differ_at(s, i, t, j, k))
}

fn same_counts(s: &[u8], t: &[u8]) -> bool
    ensures { result ≡ same_counts s.now t.now }
{
    if byte(s, 4) != byte(t, 4) {
        return false;
    }
    byte(s, 5) == byte(t, 5)
}

fn same_vertices(s: &[u8], t: &[u8]) -> bool
    ensures { result ≡ same_vertices s.now t.now }
{
    let i = offsets::point_start(byte(s, 2) + 1);
    let j = offsets::point_start(byte(t, 2) + 1);
    same_bytes(s, i, t, j, byte(s, 4) * 9)
}

fn same_faces(s: &[u8], t: &[u8]) -> bool
    ensures { result ≡ same_faces s.now t.now }
{
    let i = offsets::face_start(s, byte(s, 3));
    let j = offsets::face_start(t, byte(t, 3));
    same_bytes(s, i, t, j, byte(s, 5) * 5)
}

pub fn is_shared(s: &[u8], t: &[u8]) -> bool
    ensures { result ≡ is_shared s.now t.now }
{
    if !same_counts(s, t) {
        return false;
    }
    // The far point's record.
    if !same_bytes(s, 6, t, 6, 9) {
        return false;
    }
    if !same_vertices(s, t) {
        return false;
    }
    same_faces(s, t)
}
