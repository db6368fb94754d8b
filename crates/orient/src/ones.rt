// The terms of four points of weight 1. Seen from the last of them the determinant is one of three rows without weights, of fewer products.
ghost use Rattle.std.specs.Prelude.{◌≡◌};
ghost use Rattle.scene.specs.Limits.{limits};
ghost use Rattle.orient.specs.Terms.{c1, c2};
ghost use Rattle.orient.specs.Sizes.{Within, AreWithin};
ghost use Rattle.orient.specs.Ones.{is_one, are_ones, Ones, direction_of, directions_part};

use crate::minors::{row_minus, sum, triple_product};
use crate::{Point, shifted};
use scene::Row;

// Whether all four have weight 1.
pub fn are_ones(a: Point, b: Point, c: Point, d: Point) -> bool
    ensures { result ≡ are_ones a b c d }
{
    is_one(a) & is_one(b) & is_one(c) & is_one(d)
}

fn is_one(p: Point) -> bool
    ensures { result ≡ is_one p.w }
{
    p.w == 1
}

// c1: the shift stands for one of the three, each in turn.
pub fn term1(a: Point, b: Point, c: Point, d: Point) -> i64
    requires { AreWithin limits a b c d × Ones a b c d }
    ensures { result ≡ c1 a b c d }
{
    sum(
        part(a, b, c, d, true, false, false),
        part(a, b, c, d, false, true, false),
        part(a, b, c, d, false, false, true),
    )
}

// c2: it stands for two.
pub fn term2(a: Point, b: Point, c: Point, d: Point) -> i64
    requires { AreWithin limits a b c d × Ones a b c d }
    ensures { result ≡ c2 a b c d }
{
    sum(
        part(a, b, c, d, true, true, false),
        part(a, b, c, d, true, false, true),
        part(a, b, c, d, false, true, true),
    )
}

// The determinant of the three as seen from d, with the shifts in place of those that are marked.
fn part(a: Point, b: Point, c: Point, d: Point, sa: bool, sb: bool, sc: bool) -> i64
    requires { AreWithin limits a b c d }
    ensures { result ≡ directions_part a b c d sa sb sc }
{
    triple_product(
        direction(a, d, sa),
        direction(b, d, sb),
        direction(c, d, sc),
    )
}

// From d to p, a direction; where it is marked, from shift to shift.
fn direction(p: Point, d: Point, s: bool) -> Row
    requires { Within limits p × Within limits d }
    ensures { result ≡ direction_of p d s }
{
    row_minus(shifted(p, s, s, s), shifted(d, s, s, s))
}
