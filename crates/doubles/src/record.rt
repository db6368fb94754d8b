// The record of a vertex, for a scene: nine bytes.
ghost use Rattle.std.specs.Prelude.{◌≡◌, ◌+◌, ◌/◌, ◌%◌, ◌<◌, ◌≤◌, ◌++◌, length, drop, unsigned_abs};
ghost use Rattle.scene.specs.Limits.{limits};
ghost use Rattle.scene.specs.Arrays.{RowWithin};
ghost use Rattle.doubles.specs.Record.{unsigned, vertex_bytes, IsRecord};

use crate::{Fault, Vertex, take};
use scene::{Refusal, Row, Scene};

// Writes the record of a vertex that is taken, where there is room for it.
pub fn record_of(v: Vertex, out: &mut [u8]) -> Result<(), Fault>
    ensures { IsRecord v out.old out.new result }
{
    let r = take(v)?;
    if out.len() < 9 {
        return Err(Fault::from(Refusal::BufferTooShort(9)));
    }
    put(r, out);
    Ok(())
}

fn put(r: Row, out: &mut [u8])
    requires { (9 ≤ length out.old) × RowWithin limits r }
    ensures { out.new ≡ vertex_bytes r ++ drop 9 out.old }
{
    let x = unsigned(r.x, 32768);
    let y = unsigned(r.y, 32768);
    let z = unsigned(r.z, 32768);
    let w = unsigned(r.w, 128);
    out[0] = low(Scene::VX);
    out[1] = high(Scene::VX);
    out[2] = low(x);
    out[3] = high(x);
    out[4] = low(y);
    out[5] = high(y);
    out[6] = low(z);
    out[7] = high(z);
    out[8] = low(w);
}

// The number that stands for z in a signed field: the negative numbers from half on.
fn unsigned(z: i64, half: usize) -> usize
    requires { (unsigned_abs z < half) × (half ≤ 32768) }
    ensures { (result ≡ unsigned half z) × (result < half + half) }
{
    if z < 0 {
        half + half - ((-z) as usize)
    } else {
        z as usize
    }
}

fn low(n: usize) -> u8
    ensures { result ≡ n % 256 }
{
    (n % 256) as u8
}

fn high(n: usize) -> u8
    requires { n < 65536 }
    ensures { result ≡ n / 256 }
{
    (n / 256) as u8
}
