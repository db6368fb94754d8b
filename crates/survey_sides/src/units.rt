// Planes of three rows of weight 1, as nearly all points have: seen from the last of them they are made of fewer products.
ghost use Rattle.std.specs.Prelude.{◌≡◌};
ghost use Rattle.scene.specs.Limits.{limits};
ghost use Rattle.scene.specs.Arrays.{RowWithin};
ghost use Rattle.orient.specs.Formed.{most_formed, TripleProductWithin};
ghost use Rattle.orient.specs.Ones.{is_one};
ghost use Rattle.survey_sides.specs.Planes.{plane_of};
ghost use Rattle.survey_sides.specs.Units.{are_units, Units, plane_from_directions};

use orient::minors::{minor, row_minus, triple_product};
use scene::Row;

// Whether all three have weight 1.
pub fn are_units(a: Row, b: Row, c: Row) -> bool
    ensures { result ≡ are_units a b c }
{
    is_unit(a) & is_unit(b) & is_unit(c)
}

fn is_unit(r: Row) -> bool
    ensures { result ≡ is_one r.w }
{
    r.w == 1
}

// Their plane.
pub fn plane(a: Row, b: Row, c: Row) -> Row
    requires { RowWithin limits a × RowWithin limits b × RowWithin limits c × Units a b c }
    ensures { result ≡ plane_of a b c }
{
    plane_from_directions(row_minus(a, c), row_minus(b, c), c)
}

// The plane of a row of weight 1 and two directions.
pub fn plane_from_directions(u: Row, v: Row, c: Row) -> Row
    requires { TripleProductWithin most_formed c u v }
    ensures { result ≡ plane_from_directions u v c }
{
    Row {
        x: minor(u.y, u.z, v.y, v.z),
        y: minor(u.x, u.z, v.x, v.z),
        z: minor(u.x, u.y, v.x, v.y),
        w: triple_product(c, u, v),
    }
}
