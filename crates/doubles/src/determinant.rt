// c0 of four vertices, worked out in doubles.
ghost use Rattle.std.specs.Prelude.{◌≡◌};
ghost use Rattle.doubles.specs.Determinant.{IsC0, minors_of};

use crate::Vertex;

// By the minors of the first two rows and of the last two.
fn by_minors(a: Vertex, b: Vertex, c: Vertex, d: Vertex) -> f64
    ensures { result ≡ minors_of a b c d }
{
    (a.x * b.y - a.y * b.x) * (c.z * d.w - c.w * d.z)
        - (a.x * b.z - a.z * b.x) * (c.y * d.w - c.w * d.y)
        + (a.x * b.w - a.w * b.x) * (c.y * d.z - c.z * d.y)
        + (a.y * b.z - a.z * b.y) * (c.x * d.w - c.w * d.x)
        - (a.y * b.w - a.w * b.y) * (c.x * d.z - c.z * d.x)
        + (a.z * b.w - a.w * b.z) * (c.x * d.y - c.y * d.x)
}

// The determinant c0 of four points of a scene: every product and sum on the way is a whole number below 2^53. Zero is added last, so that
// a zero is never minus zero.
pub fn c0(a: Vertex, b: Vertex, c: Vertex, d: Vertex) -> f64
    ensures { IsC0 a b c d result }
{
    by_minors(a, b, c, d) + 0.0
}
