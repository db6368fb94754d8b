// Planes through three points, and the determinants that they give: whole numbers of 64 bits throughout.
ghost use Rattle.std.specs.Prelude.{◌≡◌, ◌*◌};
ghost use Rattle.clean.specs.Planes.{but_x, but_y, but_z, but_w, volume_of, plane_of, dot_of};
ghost use Rattle.clean.specs.Sizes.{most_entry, most_coefficient, RowSmall, ThreeSmall};

use scene::Row;

// Three entries of a row.
#[derive(Clone, Copy)]
struct Three {
    x: i64,
    y: i64,
    z: i64,
}

// The plane through three rows: plane · t is the determinant of the three and t.
pub fn plane(a: Row, b: Row, c: Row) -> Row
    requires { RowSmall most_entry a × RowSmall most_entry b × RowSmall most_entry c }
    ensures { result ≡ plane_of a b c }
{
    Row {
        x: volume(but_x(a), but_x(b), but_x(c)),
        y: volume(but_y(a), but_y(b), but_y(c)),
        z: volume(but_z(a), but_z(b), but_z(c)),
        w: volume(but_w(a), but_w(b), but_w(c)),
    }
}

pub fn dot(p: Row, t: Row) -> i64
    requires { RowSmall most_coefficient p × RowSmall most_entry t }
    ensures { result ≡ dot_of p t }
{
    let px = p.x;
    let py = p.y;
    let pz = p.z;
    let pw = p.w;
    let tx = t.x;
    let ty = t.y;
    let tz = t.z;
    let tw = t.w;
    px * tx + py * ty + pz * tz + pw * tw
}

// The entries but one, in the order that gives the coefficient of that one its sign.
fn but_x(r: Row) -> Three
    requires { RowSmall most_entry r }
    ensures { (result ≡ but_x r) × ThreeSmall result }
{
    Three {
        x: r.z,
        y: r.y,
        z: r.w,
    }
}

fn but_y(r: Row) -> Three
    requires { RowSmall most_entry r }
    ensures { (result ≡ but_y r) × ThreeSmall result }
{
    Three {
        x: r.x,
        y: r.z,
        z: r.w,
    }
}

fn but_z(r: Row) -> Three
    requires { RowSmall most_entry r }
    ensures { (result ≡ but_z r) × ThreeSmall result }
{
    Three {
        x: r.y,
        y: r.x,
        z: r.w,
    }
}

fn but_w(r: Row) -> Three
    requires { RowSmall most_entry r }
    ensures { (result ≡ but_w r) × ThreeSmall result }
{
    Three {
        x: r.x,
        y: r.y,
        z: r.z,
    }
}

// The determinant of three triples.
fn volume(a: Three, b: Three, c: Three) -> i64
    requires { ThreeSmall a × ThreeSmall b × ThreeSmall c }
    ensures { result ≡ volume_of a b c }
{
    let ax = a.x;
    let ay = a.y;
    let az = a.z;
    let bx = b.x;
    let by = b.y;
    let bz = b.z;
    let cx = c.x;
    let cy = c.y;
    let cz = c.z;
    ax * (by * cz - bz * cy) - ay * (bx * cz - bz * cx) + az * (bx * cy - by * cx)
}
