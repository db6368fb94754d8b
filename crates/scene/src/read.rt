// What stands in the bytes of a scene. Every read is total: past the end there are zeros.
ghost use Rattle.std.specs.Prelude.{◌≡◌, ◌+◌, ◌<◌};
ghost use Rattle.scene.specs.Bytes.{byte_at, two_at, signed, coordinate_at, weight_at};
ghost use Rattle.scene.specs.Records.{counts_of};
ghost use Rattle.scene.specs.Tables.{tables_of, row, face, row_at, face_at};
ghost use Rattle.scene.specs.View.{view_of, solid};

use crate::offsets::{face_start, point_start, vertices};
use crate::{Face, Row, Scene, Solid};

// The byte at i, or 0 past the end.
pub fn byte(s: &[u8], i: usize) -> usize
    ensures { (result ≡ byte_at s.now i) × (result < 256) }
{
    if i < s.len() { s[i] as usize } else { 0 }
}

// Two bytes, low byte first.
pub fn two(s: &[u8], i: usize) -> usize
    ensures { (result ≡ two_at s.now i) × (result < 65536) }
{
    if i < s.len() {
        byte(s, i) + byte(s, i + 1) * 256
    } else {
        0
    }
}

// n as a signed number: half and above stand for the negative numbers.
fn signed(half: usize, n: usize) -> i64
    requires { (n < half + half) × (half < 65536) }
    ensures { result ≡ signed half n }
{
    if n < half {
        n as i64
    } else {
        -((half + half - n) as i64)
    }
}

fn coordinate(s: &[u8], i: usize) -> i64
    ensures { result ≡ coordinate_at s.now i }
{
    signed(32768, two(s, i))
}

fn weight(s: &[u8], i: usize) -> i64
    ensures { result ≡ weight_at s.now i }
{
    signed(128, byte(s, i))
}

// The header's counts, whatever the bytes.
pub fn counts(s: &[u8]) -> Scene
    ensures is { result ≡ counts_of s.now }
    ensures small { (result.vertices_a < 256) × (result.faces_a < 256) × (result.vertices_b < 256) × (result.faces_b < 256) }
{
    Scene {
        vertices_a: byte(s, 2),
        faces_a: byte(s, 3),
        vertices_b: byte(s, 4),
        faces_b: byte(s, 5),
    }
}

// Solid k, 1 for A and else B.
pub fn solid(s: &[u8], k: usize) -> Solid
    ensures is { result ≡ solid (view_of s.now) k }
    ensures small { (result.vert0 < 256) × (result.verts < 256) × (result.face0 < 256) × (result.faces < 256) }
{
    let c = counts(s);
    if k == 1 {
        return Solid {
            vert0: 0,
            verts: c.vertices_a,
            face0: 0,
            faces: c.faces_a,
            other0: c.faces_a,
            others: c.faces_b,
        };
    }
    Solid {
        vert0: c.vertices_a,
        verts: c.vertices_b,
        face0: c.faces_a,
        faces: c.faces_b,
        other0: 0,
        others: c.faces_a,
    }
}

// The row of the file's point j: 0 is the far point, then come the vertices.
pub fn row_at(s: &[u8], j: usize) -> Row
    requires { j < 1024 }
    ensures { result ≡ row_at s.now j }
{
    let at = point_start(j);
    Row {
        x: coordinate(s, at + 2),
        y: coordinate(s, at + 4),
        z: coordinate(s, at + 6),
        w: weight(s, at + 8),
    }
}

// The row of point i by the scene's numbers; of a number that the scene lacks, four zeros.
pub fn row(s: &[u8], i: usize) -> Row
    ensures { result ≡ row (tables_of s.now) i }
{
    let n = vertices(s);
    if i == n + 1 {
        return row_at(s, 0);
    }
    if i > n {
        return Row {
            x: 0,
            y: 0,
            z: 0,
            w: 0,
        };
    }
    if i == 0 {
        return Row {
            x: 0,
            y: 0,
            z: 0,
            w: 0,
        };
    }
    row_at(s, i)
}

// The corners of the file's face i, from 0, as they stand in the file.
pub fn face_at(s: &[u8], i: usize) -> Face
    requires { i < 1024 }
    ensures { (result ≡ face_at s.now i) × (result.p < 256) × (result.q < 256) × (result.r < 256) }
{
    let at = face_start(s, i);
    Face {
        p: byte(s, at + 2),
        q: byte(s, at + 3),
        r: byte(s, at + 4),
    }
}

// The corners of face k by the scene's numbers, B's raised by A's vertex count; of a number that the scene lacks, three zeros.
pub fn corners(s: &[u8], k: usize) -> Face
    ensures { result ≡ face (tables_of s.now) k }
{
    let a = byte(s, 3);
    if k == 0 {
        return Face { p: 0, q: 0, r: 0 };
    }
    if k > a + byte(s, 5) {
        return Face { p: 0, q: 0, r: 0 };
    }
    let f = face_at(s, k - 1);
    if k <= a {
        return f;
    }
    let m = byte(s, 2);
    Face {
        p: m + f.p,
        q: m + f.q,
        r: m + f.r,
    }
}
