// Refusals 4 to 7 and 14, record by record in file order.
ghost use Rattle.std.specs.Prelude.{◌≡◌, ◌+◌, ◌<◌, ◌≤◌, eqb};
ghost use Rattle.scene.specs.Limits.{limits};
ghost use Rattle.scene.specs.Bytes.{two_at};
ghost use Rattle.scene.specs.Records.{face_start, end_start, last_record, markfc, marken};
ghost use Rattle.scene.specs.Tables.{corner_at};
ghost use Rattle.judge.specs.Judge.{verts_at, are_corners, corners_ok, face_fault, end_fault, record_fault, records_fault};

use crate::points::point_fault;
use scene::offsets::{face_record, face_start, last_record};
use scene::read::{byte, two};
use scene::{Refusal, Scene, is_within, offsets};

// Corner m, from 0, of the file's face i, from 0; and the vertex count of its solid.
pub fn corner(s: &[u8], i: usize, m: usize) -> usize
    requires { (i < 1024) × (m < 3) }
    ensures { (result ≡ corner_at s.now i m) × (result < 256) }
{
    byte(s, face_start(s, i) + 2 + m)
}

fn verts_at(s: &[u8], i: usize) -> usize
    ensures { result ≡ verts_at s.now i }
{
    if i < byte(s, 3) {
        byte(s, 2)
    } else {
        byte(s, 4)
    }
}

fn face_marked(s: &[u8], i: usize) -> bool
    requires { i < 1024 }
    ensures { result ≡ eqb (two_at s.now (face_start s.now i)) markfc }
{
    two(s, face_start(s, i)) == Scene::FC
}

// The corners p, q and r are of a solid with v vertices, and differ.
fn are_corners(v: usize, p: usize, q: usize, r: usize) -> bool
    ensures { result ≡ are_corners v p q r }
{
    if !is_within(1, v, p) {
        return false;
    }
    if !is_within(1, v, q) {
        return false;
    }
    if !is_within(1, v, r) {
        return false;
    }
    if p == q {
        return false;
    }
    if q == r {
        return false;
    }
    r != p
}

fn corners_ok(s: &[u8], i: usize) -> bool
    requires { i < 1024 }
    ensures { result ≡ corners_ok s.now i }
{
    are_corners(
        verts_at(s, i),
        corner(s, i, 0),
        corner(s, i, 1),
        corner(s, i, 2),
    )
}

// Refusals 4 and 7 of the file's face i.
fn face_fault(s: &[u8], i: usize) -> Result<(), Refusal>
    requires { i < 1024 }
    ensures { result ≡ face_fault s.now i }
{
    if !face_marked(s, i) {
        return Err(Refusal::Mark(face_record(s, i)));
    }
    if !corners_ok(s, i) {
        return Err(Refusal::Corner(face_record(s, i)));
    }
    Ok(())
}

fn end_marked(s: &[u8]) -> bool
    ensures { result ≡ eqb (two_at s.now (end_start s.now)) marken }
{
    two(s, face_start(s, offsets::faces(s))) == Scene::EN
}

// Refusal 4 of the last record.
fn end_fault(s: &[u8]) -> Result<(), Refusal>
    ensures { result ≡ end_fault s.now }
{
    if !end_marked(s) {
        return Err(Refusal::Mark(last_record(s)));
    }
    Ok(())
}

// Refusals 4 to 7 and 14 of record k, from 1 to the last.
fn record_fault(s: &[u8], k: usize) -> Result<(), Refusal>
    requires { (1 ≤ k) × (k ≤ last_record s.now) }
    ensures { result ≡ record_fault limits s.now k }
{
    let v = 2 + offsets::vertices(s);
    if k < v {
        return point_fault(s, k - 1);
    }
    if k < last_record(s) {
        return face_fault(s, k - v);
    }
    end_fault(s)
}

pub fn records_fault(s: &[u8]) -> Result<(), Refusal>
    ensures { result ≡ records_fault limits s.now }
{
    let e = last_record(s) + 1;
    for k in 1..e {
        record_fault(s, k)?;
    }
    Ok(())
}
