// Where the records of a scene stand, by its header's counts.
ghost use Rattle.std.specs.Prelude.{◌≡◌, ◌<◌};
ghost use Rattle.scene.specs.View.{view_of, points};
ghost use Rattle.scene.specs.Records.{verts, faces, face_record, last_record, length_of, point_start, face_start};

use crate::read::byte;

// How many vertices both solids have; how many points there are, the far point too; how many faces.
pub fn vertices(s: &[u8]) -> usize
    ensures { (result ≡ verts s.now) × (result < 511) }
{
    byte(s, 2) + byte(s, 4)
}

pub fn points(s: &[u8]) -> usize
    ensures { (result ≡ points (view_of s.now)) × (result < 512) }
{
    vertices(s) + 1
}

pub fn faces(s: &[u8]) -> usize
    ensures { (result ≡ faces s.now) × (result < 511) }
{
    byte(s, 3) + byte(s, 5)
}

// The number of the last record, EN.
pub fn last_record(s: &[u8]) -> usize
    ensures { (result ≡ last_record s.now) × (result < 1024) }
{
    2 + vertices(s) + faces(s)
}

// The record of the file's face i, from 0.
pub fn face_record(s: &[u8], i: usize) -> usize
    requires { i < 1024 }
    ensures { result ≡ face_record s.now i }
{
    2 + vertices(s) + i
}

// The length that the counts give.
pub fn length_of(s: &[u8]) -> usize
    ensures { (result ≡ length_of s.now) × (result < 8192) }
{
    17 + vertices(s) * 9 + faces(s) * 5
}

// The first byte of the file's point j: 0 is the far point, then come the vertices.
pub fn point_start(j: usize) -> usize
    requires { j < 1024 }
    ensures { result ≡ point_start j }
{
    6 + j * 9
}

// The first byte of the file's face i, from 0; of EN, where i is the number of faces.
pub fn face_start(s: &[u8], i: usize) -> usize
    requires { i < 1024 }
    ensures { (result ≡ face_start s.now i) × (result < 16384) }
{
    15 + vertices(s) * 9 + i * 5
}
