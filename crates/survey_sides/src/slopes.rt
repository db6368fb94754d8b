// The slopes of a scene's faces: a face's slope, made when a tie first asks for it, gives c1 of the face's corners and a point.
ghost use Rattle.std.specs.Prelude.{◌≡◌, ◌+◌, ◌*◌, ◌≤◌, ◌+ℤ◌};
ghost use Rattle.scene.specs.Limits.{limits, most_points};
ghost use Rattle.scene.specs.Arrays.{row_in, face_in, AllWithin, FaceWithin, FacesWithin};
ghost use Rattle.scene.specs.Decode.{row_set};
ghost use Rattle.orient.specs.Formed.{most_formed};
ghost use Rattle.orient.specs.Shifts.{shift_at};
ghost use Rattle.orient.specs.Terms.{c1_at};
ghost use Rattle.survey_sides.specs.Planes.{plane_for};
ghost use Rattle.survey_sides.specs.Sides.{plane_in};
ghost use Rattle.survey_sides.specs.Slopes.{sum_of, slope_for, is_zero, is_blank, Sloped};
ghost use Rattle.survey_sides.specs.Units.{Units};
ghost use Rattle.survey_sides.specs.SlopeSizes.{SumWithin, plus_size};

use crate::planes::{Planes, dot, plane_at, through};
use crate::units::{are_units, plane_from_directions};
use orient::minors::{row_minus, sum, triple_product};
use orient::shift_at;
use scene::decode::{face_in, row_in};
use scene::{Corners, Face, Row, Rows, Scene};

// A slope for each face of a scene, at its number; zeros where it is not made.
pub type Slopes = [i64; 4 * (2 * Scene::MOST_FACES + 1)];

// c1 of the corners of face k, turned as its plane is, and point t, whose row is r and whose shift is s. The planes are those of the faces
// from base + 1 on.
pub fn c1_at(
    rows: &Rows,
    corners: &Corners,
    planes: &Planes,
    base: usize,
    k: usize,
    t: usize,
    r: Row,
    s: Row,
    slopes: &mut Slopes,
) -> i64
    requires rows { AllWithin limits (row_in rows.now) × FacesWithin limits (face_in corners.now) × (k ≤ 2 * limits.most_faces)
        × (base ≤ k) × (k ≤ base + limits.most_faces) }
    requires point { (t ≤ most_points limits) × (r ≡ row_in rows.now t) × (s ≡ shift_at (row_in rows.now) t) }
    requires ready { plane_in planes.now base k ≡ plane_for (row_in rows.now) (face_in corners.now k) }
    requires sloped { Sloped (row_in rows.now) (face_in corners.now) slopes.old }
    ensures tilt { result ≡ c1_at (row_in rows.now) (face_in corners.now k).q
        (face_in corners.now k).p (face_in corners.now k).r t }
    ensures sloped { Sloped (row_in rows.now) (face_in corners.now) slopes.new }
{
    let a = dot(slope_at(rows, corners, k, slopes), r);
    let b = dot(plane_at(planes, k - base), s);
    plus(a, b)
}

// The slope of face k, made and stored where the table has none.
fn slope_at(rows: &Rows, corners: &Corners, k: usize, slopes: &mut Slopes) -> Row
    requires rows { AllWithin limits (row_in rows.now) × FacesWithin limits (face_in corners.now) × (k ≤ 2 * limits.most_faces) }
    requires sloped { Sloped (row_in rows.now) (face_in corners.now) slopes.old }
    ensures slope { result ≡ slope_for (row_in rows.now) (face_in corners.now k) }
    ensures sloped { Sloped (row_in rows.now) (face_in corners.now) slopes.new }
{
    let s = stored_slope(slopes, k);
    if is_blank(s) {
        let made = slope(rows, face_in(corners, k));
        put(slopes, k, made);
        return made;
    }
    s
}

// What the table has of face k.
fn stored_slope(slopes: &Slopes, k: usize) -> Row
    requires { k ≤ 2 * limits.most_faces }
    ensures { result ≡ row_in slopes.now k }
{
    let i = 4 * k;
    Row {
        x: slopes[i],
        y: slopes[i + 1],
        z: slopes[i + 2],
        w: slopes[i + 3],
    }
}

fn put(slopes: &mut Slopes, k: usize, s: Row)
    requires { k ≤ 2 * limits.most_faces }
    ensures { slopes.new ≡ row_set slopes.old k s }
{
    let i = 4 * k;
    let x = s.x;
    let y = s.y;
    let z = s.z;
    let w = s.w;
    slopes[i] = x;
    slopes[i + 1] = y;
    slopes[i + 2] = z;
    slopes[i + 3] = w;
}

// The slope of one face, turned as its plane is: the shift stands for one corner, each in turn.
fn slope(rows: &Rows, f: Face) -> Row
    requires { AllWithin limits (row_in rows.now) × FaceWithin limits f }
    ensures { result ≡ slope_for (row_in rows.now) f }
{
    let p = row_in(rows, f.p);
    let q = row_in(rows, f.q);
    let r = row_in(rows, f.r);
    if are_units(q, p, r) {
        return slope_from_directions(rows, f);
    }
    added(
        through(shift_at(rows, f.q), p, r),
        through(q, shift_at(rows, f.p), r),
        through(q, p, shift_at(rows, f.r)),
    )
}

// The same of corners of weight 1, by directions.
fn slope_from_directions(rows: &Rows, f: Face) -> Row
    requires { AllWithin limits (row_in rows.now) × FaceWithin limits f
        × Units (row_in rows.now f.q) (row_in rows.now f.p) (row_in rows.now f.r) }
    ensures { result ≡ slope_for (row_in rows.now) f }
{
    let r = row_in(rows, f.r);
    let o = shift_at(rows, f.r);
    let u = row_minus(row_in(rows, f.q), r);
    let v = row_minus(row_in(rows, f.p), r);
    added(
        plane_from_directions(row_minus(shift_at(rows, f.q), o), v, r),
        plane_from_directions(u, row_minus(shift_at(rows, f.p), o), r),
        Row {
            x: 0,
            y: 0,
            z: 0,
            w: triple_product(o, u, v),
        },
    )
}

fn added(a: Row, b: Row, c: Row) -> Row
    requires { SumWithin most_formed a b c }
    ensures { result ≡ sum_of a b c }
{
    Row {
        x: sum(a.x, b.x, c.x),
        y: sum(a.y, b.y, c.y),
        z: sum(a.z, b.z, c.z),
        w: sum(a.w, b.w, c.w),
    }
}

fn is_blank(r: Row) -> bool
    ensures { result ≡ is_blank r }
{
    is_zero(r.x) & is_zero(r.y) & is_zero(r.z) & is_zero(r.w)
}

fn is_zero(n: i64) -> bool
    ensures { result ≡ is_zero n }
{
    n == 0
}

// Two numbers added.
fn plus(a: i64, b: i64) -> i64
    requires { plus_size a b ≤ most_formed }
    ensures { result ≡ a +ℤ b }
{
    a + b
}
