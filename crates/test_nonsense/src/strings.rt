// The byte strings: random ones, and mutations of a scene.
ghost use Rattle.std.specs.Prelude.{◌≤◌};

use crate::chance::{byte_of, next, pick};
use scene::Scene;

// A string's length, and the next random number.
#[derive(Clone, Copy)]
pub struct Made {
    pub len: usize,
    pub seed: u64,
}

pub type Bytes = [u8; Scene::LONGEST + 1];

fn put(s: &mut Bytes, i: usize, b: u8) {
    if i < Scene::LONGEST + 1 {
        s[i] = b;
    }
}

// Random bytes.
fn fill(s: &mut Bytes, n: usize, x: u64) -> u64 {
    let mut y = x;
    for b in s.iter_mut().take(n) {
        y = next(y);
        *b = byte_of(y);
    }
    y
}

// The first n bytes of the scene, or all of it.
fn copy(base: &[u8], n: usize, s: &mut Bytes) {
    let k = n.min(base.len()).min(Scene::LONGEST + 1);
    s[..k].copy_from_slice(&base[..k]);
}

// One of the first n bytes becomes another: one more, or any.
fn change(s: &mut Bytes, n: usize, x: u64) -> u64 {
    let y = next(x);
    let z = next(y);
    let i = pick(y, n as u64);
    if i < Scene::LONGEST + 1 {
        if pick(z, 2) == 0 {
            s[i] = std::num::wrapping_add_u8(s[i], 1);
        } else {
            s[i] = byte_of(z);
        }
    }
    z
}

fn changes(s: &mut Bytes, n: usize, times: usize, x: u64) -> u64 {
    let mut y = x;
    for _ in 0..times {
        y = change(s, n, y);
    }
    y
}

// Where one of the last eight faces begins, in a scene of n bytes.
fn face_start(n: usize, x: u64) -> usize
    ensures { result ≤ 65536 }
{
    if n < 64 {
        return 0;
    }
    if n > Scene::LONGEST {
        return 0;
    }
    n - 7 - 5 * ((x / 65536 % 8) as usize)
}

fn copy_one(s: &mut Bytes, from: usize, to: usize) {
    if from < Scene::LONGEST + 1 {
        let b = s[from];
        put(s, to, b);
    }
}

// One of the last faces becomes as another.
fn double(s: &mut Bytes, n: usize, x: u64) -> u64 {
    let y = next(x);
    let z = next(y);
    let from = face_start(n, y);
    let to = face_start(n, z);
    for i in 0..5 {
        copy_one(s, from + i, to + i);
    }
    z
}

fn doubles(s: &mut Bytes, n: usize, times: usize, x: u64) -> u64 {
    let mut y = x;
    for _ in 0..times {
        y = double(s, n, y);
    }
    y
}

// Random bytes: as they are; opening as a scene; with the scene's header; and behind all of the scene, cut anywhere.
fn make_random(base: &[u8], kind: usize, x: u64, s: &mut Bytes) -> Made {
    let y = fill(s, 160, x);
    if kind == 1 {
        copy(base, 2, s);
    }
    if kind == 2 {
        copy(base, 6, s);
    }
    if kind == 3 {
        copy(base, base.len(), s);
    }
    Made {
        len: pick(y, 160),
        seed: y,
    }
}

// The printed scene's far point becomes a direction, or four zeros.
fn aim(s: &mut Bytes, x: u64) {
    put(s, 14, 0);
    if pick(x, 2) == 0 {
        put(s, 8, 0);
        put(s, 10, 0);
        put(s, 12, 0);
    }
}

// One of these; or the scene with another far point, with up to three bytes changed, or with up to seven faces doubled.
pub fn make(base: &[u8], x: u64, s: &mut Bytes) -> Made {
    let kind = pick(x, 16);
    if kind < 4 {
        return make_random(base, kind, next(x), s);
    }
    copy(base, base.len(), s);
    let n = base.len();
    if kind == 4 {
        aim(s, next(x));
    }
    if kind < 8 {
        Made {
            len: n,
            seed: changes(s, n, kind - 4, next(x)),
        }
    } else {
        Made {
            len: n,
            seed: doubles(s, n, kind - 8, next(x)),
        }
    }
}
