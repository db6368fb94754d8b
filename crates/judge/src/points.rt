// Refusals 4, 5, 6 and 14 of a point's record.
ghost use Rattle.std.specs.Prelude.{◌≡◌, ◌+◌, ◌<◌, nat_abs, eqb};
ghost use Rattle.scene.specs.Limits.{limits, least_weight};
ghost use Rattle.scene.specs.Bytes.{two_at, coordinate_at, weight_at, signed};
ghost use Rattle.scene.specs.Records.{point_start};
ghost use Rattle.judge.specs.Judge.{coordinate_ok, weight_ok, nowhere, somewhere_ok, point_mark, point_fault};

use scene::read::{byte, two};
use scene::{Refusal, Scene, is_within};

// The size of n as a signed number.
fn size(half: usize, n: usize) -> usize
    requires { (n < half + half) × (half < 65536) }
    ensures { result ≡ nat_abs (signed half n) }
{
    if n < half { n } else { half + half - n }
}

fn coordinate_ok(s: &[u8], i: usize) -> bool
    ensures { result ≡ coordinate_ok limits s.now i }
{
    size(32768, two(s, i)) <= Scene::MOST_COORDINATE
}

// The far point, and no other, may have weight 0.
fn least_weight(j: usize) -> usize
    ensures { result ≡ least_weight j }
{
    if j == 0 { 0 } else { 1 }
}

fn weight_ok(s: &[u8], j: usize) -> bool
    requires { j < 1024 }
    ensures { result ≡ weight_ok limits s.now j }
{
    is_within(
        least_weight(j),
        Scene::MOST_WEIGHT,
        size(128, byte(s, 6 + j * 9 + 8)),
    )
}

fn coordinate_zero(s: &[u8], i: usize) -> bool
    ensures { result ≡ eqb (nat_abs (coordinate_at s.now i)) 0 }
{
    size(32768, two(s, i)) == 0
}

fn weight_zero(s: &[u8], i: usize) -> bool
    ensures { result ≡ eqb (nat_abs (weight_at s.now i)) 0 }
{
    size(128, byte(s, i)) == 0
}

// The far point's four numbers are all 0.
fn is_nowhere(s: &[u8]) -> bool
    ensures { result ≡ nowhere s.now }
{
    if !coordinate_zero(s, 8) {
        return false;
    }
    if !coordinate_zero(s, 10) {
        return false;
    }
    if !coordinate_zero(s, 12) {
        return false;
    }
    weight_zero(s, 14)
}

fn somewhere_ok(s: &[u8], j: usize) -> bool
    ensures { result ≡ somewhere_ok s.now j }
{
    if j == 0 {
        return !is_nowhere(s);
    }
    true
}

fn point_marked(s: &[u8], j: usize) -> bool
    requires { j < 1024 }
    ensures { result ≡ eqb (two_at s.now (point_start j)) (point_mark j) }
{
    if j == 0 {
        return two(s, 6) == Scene::FP;
    }
    two(s, 6 + j * 9) == Scene::VX
}

// Refusals 4, 5, 6 and 14 of the file's point j: 0 is the far point, then come the vertices.
pub fn point_fault(s: &[u8], j: usize) -> Result<(), Refusal>
    requires { j < 1024 }
    ensures { result ≡ point_fault limits s.now j }
{
    let at = 6 + j * 9;
    if !point_marked(s, j) {
        return Err(Refusal::Mark(j + 1));
    }
    if !coordinate_ok(s, at + 2) {
        return Err(Refusal::Coordinate(j + 1));
    }
    if !coordinate_ok(s, at + 4) {
        return Err(Refusal::Coordinate(j + 1));
    }
    if !coordinate_ok(s, at + 6) {
        return Err(Refusal::Coordinate(j + 1));
    }
    if !weight_ok(s, j) {
        return Err(Refusal::Weight(j + 1));
    }
    if !somewhere_ok(s, j) {
        return Err(Refusal::FarAllZero(j + 1));
    }
    Ok(())
}
