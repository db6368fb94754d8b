// The planes of a solid's faces: each face's four minors, made once, give the determinant of its corners and a point by four products.
ghost use Rattle.std.specs.Prelude.{◌≡◌, ◌+◌, ◌*◌, ◌≤◌};
ghost use Rattle.scene.specs.Limits.{limits};
ghost use Rattle.scene.specs.Arrays.{row_in, face_in, AllWithin, FaceWithin, FacesWithin};
ghost use Rattle.scene.specs.Decode.{row_set};
ghost use Rattle.orient.specs.Formed.{most_formed};
ghost use Rattle.survey_sides.specs.Planes.{span_of, dot_of, plane_of, plane_for};
ghost use Rattle.survey_sides.specs.Sizes.{SpanWithin, PlaneWithin, dot_size};
ghost use Rattle.survey_sides.specs.Tables.{planes_from};

use crate::units;
use crate::units::are_units;
use orient::minors::{Line, alternating, join, minor};
use scene::decode::{face_in, row_in};
use scene::{Corners, Face, Row, Rows, Scene};

// A plane for each face of one solid, at its number within the solid.
pub type Planes = [i64; 4 * (Scene::MOST_FACES + 1)];

// The planes of the `count` faces of a solid, numbered from first + 1 on.
pub fn fill(rows: &Rows, corners: &Corners, first: usize, count: usize, planes: &mut Planes)
    requires rows { AllWithin limits (row_in rows.now) × FacesWithin limits (face_in corners.now) }
    requires faces { (first + count ≤ 2 * limits.most_faces) × (count ≤ limits.most_faces) }
    ensures { planes.new
        ≡ planes_from (row_in rows.now) (face_in corners.now) first count planes.old }
{
    for i in 0..count {
        put(planes, 1 + i, plane(rows, face_in(corners, first + 1 + i)));
    }
}

// The plane of one face, turned: below zero at a point above it, so that a sign bit is its digit.
fn plane(rows: &Rows, f: Face) -> Row
    requires { AllWithin limits (row_in rows.now) × FaceWithin limits f }
    ensures { result ≡ plane_for (row_in rows.now) f }
{
    let p = row_in(rows, f.p);
    let q = row_in(rows, f.q);
    let r = row_in(rows, f.r);
    if are_units(q, p, r) {
        return units::plane(q, p, r);
    }
    through(q, p, r)
}

// The plane of three rows.
pub fn through(a: Row, b: Row, c: Row) -> Row
    requires { PlaneWithin most_formed a b c }
    ensures { result ≡ plane_of a b c }
{
    span(join(a, b), c)
}

fn put(planes: &mut Planes, j: usize, p: Row)
    requires { j ≤ limits.most_faces }
    ensures { planes.new ≡ row_set planes.old j p }
{
    let i = 4 * j;
    let x = p.x;
    let y = p.y;
    let z = p.z;
    let w = p.w;
    planes[i] = x;
    planes[i + 1] = y;
    planes[i + 2] = z;
    planes[i + 3] = w;
}

// The plane of the solid's face j, of planes that were filled.
pub fn plane_at(planes: &Planes, j: usize) -> Row
    requires { j ≤ limits.most_faces }
    ensures { result ≡ row_in planes.now j }
{
    let i = 4 * j;
    Row {
        x: planes[i],
        y: planes[i + 1],
        z: planes[i + 2],
        w: planes[i + 3],
    }
}

// The four minors of a line and a row.
pub fn span(l: Line, r: Row) -> Row
    requires { SpanWithin most_formed l r }
    ensures { result ≡ span_of l r }
{
    let rx = r.x;
    let ry = r.y;
    let rz = r.z;
    let rw = r.w;
    let xy = l.xy;
    let xz = l.xz;
    let xw = l.xw;
    let yz = l.yz;
    let yw = l.yw;
    let zw = l.zw;
    Row {
        x: alternating(yz, rw, yw, rz, zw, ry),
        y: alternating(xz, rw, xw, rz, zw, rx),
        z: alternating(xy, rw, xw, ry, yw, rx),
        w: alternating(xy, rz, xz, ry, yz, rx),
    }
}

// A plane at a row: the determinant of the plane's three rows and this one.
pub fn dot(p: Row, t: Row) -> i64
    requires { dot_size p t ≤ most_formed }
    ensures { result ≡ dot_of p t }
{
    minor(p.w, p.z, t.z, t.w) + minor(p.y, p.x, t.x, t.y)
}
