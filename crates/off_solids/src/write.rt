// The bytes of a scene, one after another.
ghost use Rattle.std.specs.Prelude.{◌≡◌, [], ◌∷◌, ◌+◌, ◌-◌, ◌≤◌, ◌<◌, length};
ghost use Rattle.off_items.specs.Numbers.{made, at_most};
ghost use Rattle.rules.specs.Write.{point_bytes, face_bytes};
ghost use Rattle.scene.specs.Write.{two, unsigned};
ghost use Rattle.off_solids.specs.Solid.{told_of, point_of};
ghost use Rattle.off_solids.specs.Fitted.{nearest, fitted_row};
ghost use Rattle.off_solids.specs.Grown.{Grown};

use crate::points::Point;
use off_items::numbers::Number;
use scene::{Face, Scene};

// n, or `most` where n is above it.
#[tactic(auto, using(off_items::specs::Laws::at_most_low, off_items::specs::Laws::at_most_high))]
fn at_most(most: usize, n: usize) -> usize
    ensures { result ≡ at_most most n }
{
    n.min(most)
}

// The number that stands for one of size m, below zero or not, where half and above stand for those below.
fn unsigned(half: usize, minus: bool, m: usize) -> usize
    requires { (m < half) × (half ≤ 32768) }
    ensures { (result ≡ unsigned half (made minus m)) × (result < half + half) }
{
    if m == 0 {
        return m;
    }
    if minus {
        return half + half - m;
    }
    m
}

// The field of a number: where it does not fit, of the nearest that does.
fn field(half: usize, n: Number) -> usize
    requires { (1 ≤ half) × (half ≤ 32768) }
    ensures { (result ≡ unsigned half (nearest (half - 1) (told_of n))) × (result < half + half) }
{
    unsigned(half, n.minus, at_most(half - 1, n.size))
}

pub fn put(out: &mut [u8], k: usize, v: usize)
    requires { (k < length out.old) × (v < 256) }
    ensures { Grown k (v ∷ []) out.old out.new }
{
    out[k] = v as u8;
}

pub fn put_two(out: &mut [u8], k: usize, n: usize)
    requires { (k + 1 < length out.old) × (n < 65536) }
    ensures { Grown k (two n) out.old out.new }
{
    put(out, k, n % 256);
    put(out, k + 1, n / 256);
}

// A point's record.
pub fn put_point(out: &mut [u8], k: usize, mark: usize, p: Point)
    requires { (k + 8 < length out.old) × (mark < 65536) }
    ensures { Grown k (point_bytes mark (fitted_row (point_of p))) out.old out.new }
{
    put_two(out, k, mark);
    put_two(out, k + 2, field(32768, p.x));
    put_two(out, k + 4, field(32768, p.y));
    put_two(out, k + 6, field(32768, p.z));
    put(out, k + 8, field(128, p.w));
}

// A face's record.
pub fn put_face(out: &mut [u8], k: usize, f: Face)
    requires { (k + 4 < length out.old) × (f.p < 256) × (f.q < 256) × (f.r < 256) }
    ensures { Grown k (face_bytes f) out.old out.new }
{
    put_two(out, k, Scene::FC);
    put(out, k + 2, f.p);
    put(out, k + 3, f.q);
    put(out, k + 4, f.r);
}
