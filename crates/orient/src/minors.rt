// Determinants from 2×2 minors, and the products and sums that they are made of: no number that is formed is larger than `most_formed`.
ghost use Rattle.std.specs.Prelude.{◌≡◌, ◌≤◌, ◌+ℤ◌, ◌*ℤ◌};
ghost use Rattle.orient.specs.Determinant.{det4};
ghost use Rattle.orient.specs.Minors.{minor_of, alternating_of, triple_product, row_minus, join_of, det_of_lines};
ghost use Rattle.orient.specs.Formed.{most_formed, times_size, sum_size, minor_size, alternating_size, det_of_lines_size};
ghost use Rattle.orient.specs.Formed.{JoinWithin, DetWithin, TripleProductWithin, RowMinusWithin};

use scene::Row;

// The six 2×2 minors of two rows.
#[derive(Clone, Copy)]
pub struct Line {
    pub xy: i64,
    pub xz: i64,
    pub xw: i64,
    pub yz: i64,
    pub yw: i64,
    pub zw: i64,
}

// The determinant of four rows, from the minors of the first two and of the last two.
pub fn det(a: Row, b: Row, c: Row, d: Row) -> i64
    requires { DetWithin most_formed a b c d }
    ensures { result ≡ det4 a b c d }
{
    det_of_lines(join(a, b), join(c, d))
}

pub fn join(a: Row, b: Row) -> Line
    requires { JoinWithin most_formed a b }
    ensures { result ≡ join_of a b }
{
    let ax = a.x;
    let ay = a.y;
    let az = a.z;
    let aw = a.w;
    let bx = b.x;
    let by = b.y;
    let bz = b.z;
    let bw = b.w;
    Line {
        xy: minor(ax, ay, bx, by),
        xz: minor(ax, az, bx, bz),
        xw: minor(ax, aw, bx, bw),
        yz: minor(ay, az, by, bz),
        yw: minor(ay, aw, by, bw),
        zw: minor(az, aw, bz, bw),
    }
}

fn det_of_lines(l: Line, m: Line) -> i64
    requires { det_of_lines_size l m ≤ most_formed }
    ensures { result ≡ det_of_lines l m }
{
    alternating(l.xy, m.zw, l.xz, m.yw, l.xw, m.yz)
        + alternating(l.yz, m.xw, l.yw, m.xz, l.zw, m.xy)
}

// The determinant of three rows, their weights left out.
pub fn triple_product(p: Row, q: Row, r: Row) -> i64
    requires { TripleProductWithin most_formed p q r }
    ensures { result ≡ triple_product p q r }
{
    let x = minor(q.y, q.z, r.y, r.z);
    let y = minor(q.x, q.z, r.x, r.z);
    let z = minor(q.x, q.y, r.x, r.y);
    alternating(p.x, x, p.y, y, p.z, z)
}

// One minor.
pub fn minor(a: i64, b: i64, c: i64, d: i64) -> i64
    requires { minor_size a b c d ≤ most_formed }
    ensures { result ≡ minor_of a b c d }
{
    a * d - b * c
}

// Three products, the middle one with a minus.
pub fn alternating(a: i64, b: i64, c: i64, d: i64, e: i64, f: i64) -> i64
    requires { alternating_size a b c d e f ≤ most_formed }
    ensures { result ≡ alternating_of a b c d e f }
{
    a * b - c * d + e * f
}

// The row a seen from b, a direction: its weight is 0.
pub fn row_minus(a: Row, b: Row) -> Row
    requires { RowMinusWithin most_formed a b }
    ensures { result ≡ row_minus a b }
{
    Row {
        x: a.x - b.x,
        y: a.y - b.y,
        z: a.z - b.z,
        w: 0,
    }
}

// Two numbers multiplied.
pub fn times(a: i64, b: i64) -> i64
    requires { times_size a b ≤ most_formed }
    ensures { result ≡ a *ℤ b }
{
    a * b
}

// Three numbers added.
pub fn sum(a: i64, b: i64, c: i64) -> i64
    requires { sum_size a b c ≤ most_formed }
    ensures { result ≡ a +ℤ b +ℤ c }
{
    a + b + c
}
