// The image of a scene, written into a lent buffer; a refusal writes nothing.
ghost use Rattle.std.specs.Prelude.{◌≡◌, ◌+◌, ◌≤◌, ◌++◌, length, drop, Ok};
ghost use Rattle.laws.specs.Filled.{filled};
ghost use Rattle.scene.specs.Records.{verts};
ghost use Rattle.scene.specs.Write.{row_put};
ghost use Rattle.map_image.specs.Image.{image_row, point_fault, rows_fault, image_fault, image_bytes, IsImage};
ghost use Rattle.map_image.specs.Ready.{Mappable};

use crate::rows::{columns, entries_ok, is_singular, row_fault, times_columns};
use crate::{Fault, Map};
use scene::offsets::vertices;
use scene::read::row_at;
use scene::write::{copy, put_row};
use scene::{Refusal, Row};

// The scene s mapped by m, and how many bytes it has: everything is checked first, then written.
pub fn image(s: &[u8], m: Map, out: &mut [u8]) -> Result<usize, Fault>
    ensures { IsImage s.now m out.old out.new result }
{
    image_fault(s, m, out.len())?;
    fill(s, m, out);
    Ok(s.len())
}

// The refusals in their order.
fn image_fault(s: &[u8], m: Map, room: usize) -> Result<(), Fault>
    ensures { result ≡ image_fault s.now m room }
{
    judge::judge(s)?;
    if !entries_ok(m) {
        return Err(Fault::Entry);
    }
    if is_singular(m) {
        return Err(Fault::Singular);
    }
    rows_fault(s, m)?;
    if room < s.len() {
        return Err(Fault::Scene(Refusal::BufferTooShort(s.len())));
    }
    Ok(())
}

// Refusals 5 and 6 of the image, record by record.
fn rows_fault(s: &[u8], m: Map) -> Result<(), Refusal>
    requires { Mappable s.now m }
    ensures { result ≡ rows_fault m s.now }
{
    let e = vertices(s) + 1;
    for j in 0..e {
        point_fault(s, m, j)?;
    }
    Ok(())
}

fn point_fault(s: &[u8], m: Map, j: usize) -> Result<(), Refusal>
    requires { Mappable s.now m × (j ≤ verts s.now) }
    ensures { result ≡ point_fault m s.now j }
{
    row_fault(j, image_row(s, m, j))
}

// The image of the file's point j.
fn image_row(s: &[u8], m: Map, j: usize) -> Row
    requires { Mappable s.now m × (j ≤ verts s.now) }
    ensures { result ≡ image_row m s.now j }
{
    times_columns(columns(m), row_at(s, j))
}

// The scene's bytes at the front of out, with each point's numbers replaced.
fn fill(s: &[u8], m: Map, out: &mut [u8])
    requires { Mappable s.now m × (rows_fault m s.now ≡ Ok tt) × (length s.now ≤ length out.old) }
    ensures { out.new ≡ image_bytes m s.now ++ drop (length s.now) out.old }
{
    copy(s, out);
    put_rows(s, m, out);
}

fn put_rows(s: &[u8], m: Map, out: &mut [u8])
    requires { Mappable s.now m × (rows_fault m s.now ≡ Ok tt) × (length s.now ≤ length out.old) }
    ensures { out.new ≡ filled row_put (image_row m s.now) (verts s.now + 1) out.old }
{
    let e = vertices(s) + 1;
    for j in 0..e {
        put_row(out, j, image_row(s, m, j));
    }
}
