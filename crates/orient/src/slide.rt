// The last term on one slide, as it is taught: two counts and one parity.
ghost use Rattle.std.specs.Prelude.{◌≡◌, ◌≤◌};
ghost use Rattle.orient.specs.Slide.{swapped, out_of_order, negative, negative_weights, last_positive};

use crate::Point;

// c3 is positive where the pairs out of order and the negative weights are odd in number.
pub fn last_positive(a: Point, b: Point, c: Point, d: Point) -> bool
    ensures { result ≡ last_positive a b c d }
{
    (out_of_order(a, b, c, d) + negative_weights(a, b, c, d)) % 2 == 1
}

// Of the six pairs of numbers, in the order asked.
fn out_of_order(a: Point, b: Point, c: Point, d: Point) -> usize
    ensures { (result ≡ out_of_order a b c d) × (result ≤ 6) }
{
    swapped(a, b) + swapped(a, c) + swapped(a, d) + swapped(b, c) + swapped(b, d) + swapped(c, d)
}

fn negative_weights(a: Point, b: Point, c: Point, d: Point) -> usize
    ensures { (result ≡ negative_weights a b c d) × (result ≤ 4) }
{
    negative(a) + negative(b) + negative(c) + negative(d)
}

// 1 where the earlier point has the greater number.
fn swapped(p: Point, q: Point) -> usize
    ensures { (result ≡ swapped p q) × (result ≤ 1) }
{
    usize::from(q.n < p.n)
}

// 1 where the weight is negative; 0 is not.
fn negative(p: Point) -> usize
    ensures { (result ≡ negative p) × (result ≤ 1) }
{
    usize::from(p.w < 0)
}
