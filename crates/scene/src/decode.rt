// A scene decoded once: its rows and its corners in arrays, at the scene's own numbers.
ghost use Rattle.std.specs.Prelude.{◌≡◌, ◌+◌, ◌*◌, ◌≤◌};
ghost use Rattle.scene.specs.Limits.{limits, most_points};
ghost use Rattle.scene.specs.Records.{verts, faces};
ghost use Rattle.scene.specs.Tables.{tables_of, row, face};
ghost use Rattle.scene.specs.Arrays.{row_in, face_in, no_rows, no_corners, RowWithin, AllWithin, FaceWithin, FacesWithin};
ghost use Rattle.scene.specs.Decode.{row_set, face_set};

use crate::read::{corners, row};
use crate::{Corners, Face, Row, Rows, offsets};

fn put_row(a: &mut Rows, i: usize, p: Row)
    requires { (i ≤ most_points limits) × RowWithin limits p }
    ensures { a.new ≡ row_set a.old i p }
{
    let k = 4 * i;
    let x = p.x as i16;
    let y = p.y as i16;
    let z = p.z as i16;
    let w = p.w as i16;
    a[k] = x;
    a[k + 1] = y;
    a[k + 2] = z;
    a[k + 3] = w;
}

// The rows of a scene with no more points than there may be and numbers within the limits, into an array of zeros.
pub fn rows(s: &[u8], a: &mut Rows)
    requires points { verts s.now + 1 ≤ most_points limits }
    requires within { AllWithin limits (row (tables_of s.now)) }
    requires empty { a.old ≡ no_rows }
    ensures { row_in a.new ≡ row (tables_of s.now) }
{
    let n = offsets::vertices(s) + 2;
    for i in 0..n {
        put_row(a, i, row(s, i));
    }
}

fn put_face(a: &mut Corners, k: usize, f: Face)
    requires { (k ≤ 2 * limits.most_faces) × FaceWithin limits f }
    ensures { a.new ≡ face_set a.old k f }
{
    let i = 3 * k;
    let p = f.p as u8;
    let q = f.q as u8;
    let r = f.r as u8;
    a[i] = p;
    a[i + 1] = q;
    a[i + 2] = r;
}

// The corners of a scene with no more faces than there may be and corners within the limits, into an array of zeros.
pub fn faces(s: &[u8], a: &mut Corners)
    requires faces { faces s.now ≤ 2 * limits.most_faces }
    requires within { FacesWithin limits (face (tables_of s.now)) }
    requires empty { a.old ≡ no_corners }
    ensures { face_in a.new ≡ face (tables_of s.now) }
{
    let n = offsets::faces(s) + 1;
    for k in 0..n {
        put_face(a, k, corners(s, k));
    }
}

// The row of point i, of rows that were decoded.
pub fn row_in(rows: &Rows, i: usize) -> Row
    requires { i ≤ most_points limits }
    ensures { result ≡ row_in rows.now i }
{
    let at = 4 * i;
    Row {
        x: rows[at] as i64,
        y: rows[at + 1] as i64,
        z: rows[at + 2] as i64,
        w: rows[at + 3] as i64,
    }
}

// The face numbered k, of corners that were decoded.
pub fn face_in(corners: &Corners, k: usize) -> Face
    requires { k ≤ 2 * limits.most_faces }
    ensures { result ≡ face_in corners.now k }
{
    // As a slice, whose elements are known to be bytes.
    let all: &[u8] = corners;
    let at = 3 * k;
    Face {
        p: all[at] as usize,
        q: all[at + 1] as usize,
        r: all[at + 2] as usize,
    }
}
