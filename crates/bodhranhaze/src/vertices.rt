// A vertex kept as four doubles, for C: taken as a record of a scene, or refused.
ghost use Rattle.std.specs.Prelude.{◌≡◌};
ghost use Rattle.doubles.specs.Taken.{taken_of};
ghost use Rattle.bodhranhaze.specs.Vertices.{vertex, taken_place, IsTake};

use crate::{number_of, place_of};
use doubles::Vertex;

// Writes the nine bytes of the vertex's record and answers 0; or the refusal's number, and nothing is written.
pub fn bodhranhaze_take(x: f64, y: f64, z: f64, w: f64, out: &mut [u8]) -> usize
    ensures { IsTake (vertex x y z w) out.old out.new result }
{
    number_of(doubles::record::record_of(Vertex { x, y, z, w }, out))
}

// The place of the vertex's own refusal, 1 to 4; 0 where it is taken.
pub fn bodhranhaze_take_place(x: f64, y: f64, z: f64, w: f64) -> usize
    ensures { result ≡ taken_place (taken_of (vertex x y z w)) }
{
    place_of(doubles::take(Vertex { x, y, z, w }))
}
