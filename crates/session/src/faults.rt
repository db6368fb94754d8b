// Why a scene that is held is not to be changed. Only the record concerned is judged, since the others stood.
ghost use Rattle.std.specs.Prelude.{◌≡◌, ◌<◌, leb, eqb};
ghost use Rattle.session.specs.Session.{sizes_of, is_whole, is_nowhere, row_fault, vertex_fault, far_fault, turn_fault};

use scene::{Refusal, Row, Scene, is_within, offsets};

// The sizes of a row's four numbers.
#[derive(Clone, Copy)]
pub struct Sizes {
    pub x: usize,
    pub y: usize,
    pub z: usize,
    pub w: usize,
}

fn sizes_of(v: Row) -> Sizes
    ensures { result ≡ sizes_of v }
{
    Sizes {
        x: v.x.unsigned_abs() as usize,
        y: v.y.unsigned_abs() as usize,
        z: v.z.unsigned_abs() as usize,
        w: v.w.unsigned_abs() as usize,
    }
}

pub fn at_most(n: usize, most: usize) -> bool
    ensures { result ≡ leb n most }
{
    n <= most
}

// Refusals 5 and 6 of point p.
fn row_fault(least: usize, p: usize, m: Sizes) -> Result<(), Refusal>
    ensures { result ≡ row_fault least p m }
{
    if !at_most(m.x, Scene::MOST_COORDINATE) {
        return Err(Refusal::Coordinate(p));
    }
    if !at_most(m.y, Scene::MOST_COORDINATE) {
        return Err(Refusal::Coordinate(p));
    }
    if !at_most(m.z, Scene::MOST_COORDINATE) {
        return Err(Refusal::Coordinate(p));
    }
    if !is_within(least, Scene::MOST_WEIGHT, m.w) {
        return Err(Refusal::Weight(p));
    }
    Ok(())
}

fn is_zero(n: usize) -> bool
    ensures { result ≡ eqb n 0 }
{
    n == 0
}

// The four numbers are all 0.
fn is_nowhere(m: Sizes) -> bool
    ensures { result ≡ is_nowhere m }
{
    if !is_zero(m.x) {
        return false;
    }
    if !is_zero(m.y) {
        return false;
    }
    if !is_zero(m.z) {
        return false;
    }
    is_zero(m.w)
}

// As long as its counts say, as an accepted scene is and no bytes are not.
pub fn is_whole(s: &[u8]) -> bool
    ensures { result ≡ is_whole s.now }
{
    s.len() == offsets::length_of(s)
}

pub fn vertex_fault(s: &[u8], p: usize, v: Row) -> Result<(), Refusal>
    ensures { result ≡ vertex_fault s.now p v }
{
    if !is_whole(s) {
        return Err(Refusal::Opening);
    }
    if !is_within(1, offsets::vertices(s), p) {
        return Err(Refusal::NoSuchNumber);
    }
    row_fault(1, p, sizes_of(v))
}

pub fn far_fault(s: &[u8], v: Row) -> Result<(), Refusal>
    ensures { result ≡ far_fault s.now v }
{
    if !is_whole(s) {
        return Err(Refusal::Opening);
    }
    let p = offsets::vertices(s) + 1;
    let m = sizes_of(v);
    row_fault(0, p, m)?;
    if is_nowhere(m) {
        return Err(Refusal::FarAllZero(p));
    }
    Ok(())
}

pub fn turn_fault(s: &[u8], f: usize) -> Result<(), Refusal>
    ensures { result ≡ turn_fault s.now f }
{
    if !is_whole(s) {
        return Err(Refusal::Opening);
    }
    if !is_within(1, offsets::faces(s), f) {
        return Err(Refusal::NoSuchNumber);
    }
    Ok(())
}
