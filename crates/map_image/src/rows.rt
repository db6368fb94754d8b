// Rows times the table, and the tests of their sizes.
ghost use Rattle.std.specs.Prelude.{◌≡◌, ◌≤◌, nat_abs};
ghost use Rattle.scene.specs.Limits.{limits, most_points, least_weight};
ghost use Rattle.clean.specs.Clean.{is_zero};
ghost use Rattle.clean.specs.Sizes.{most_entry, RowSmall};
ghost use Rattle.map_image.specs.Mapped.{determinant_of};
ghost use Rattle.map_image.specs.Image.{row_upto, entries_ok, coordinates_ok, weight_ok, row_fault};
ghost use Rattle.map_image.specs.Columns.{column_x, column_y, column_z, column_w, columns_of, times_columns, MapSmall};

use crate::Map;
use clean::planes::{dot, plane};
use scene::{Refusal, Row, Scene, is_within};

// The x of four rows, their y, their z, their w.
fn column_x(a: Row, b: Row, c: Row, d: Row) -> Row
    ensures { result ≡ column_x a b c d }
{
    Row {
        x: a.x,
        y: b.x,
        z: c.x,
        w: d.x,
    }
}

fn column_y(a: Row, b: Row, c: Row, d: Row) -> Row
    ensures { result ≡ column_y a b c d }
{
    Row {
        x: a.y,
        y: b.y,
        z: c.y,
        w: d.y,
    }
}

fn column_z(a: Row, b: Row, c: Row, d: Row) -> Row
    ensures { result ≡ column_z a b c d }
{
    Row {
        x: a.z,
        y: b.z,
        z: c.z,
        w: d.z,
    }
}

fn column_w(a: Row, b: Row, c: Row, d: Row) -> Row
    ensures { result ≡ column_w a b c d }
{
    Row {
        x: a.w,
        y: b.w,
        z: c.w,
        w: d.w,
    }
}

// The columns of the table, as rows.
pub fn columns(m: Map) -> Map
    ensures { result ≡ columns_of m }
{
    let x = m.x;
    let y = m.y;
    let z = m.z;
    let w = m.w;
    Map {
        x: column_x(x, y, z, w),
        y: column_y(x, y, z, w),
        z: column_z(x, y, z, w),
        w: column_w(x, y, z, w),
    }
}

// A row times the table, of which t has the columns.
pub fn times_columns(t: Map, r: Row) -> Row
    requires { MapSmall t × RowSmall most_entry r }
    ensures { result ≡ times_columns t r }
{
    let x = t.x;
    let y = t.y;
    let z = t.z;
    let w = t.w;
    Row {
        x: dot(r, x),
        y: dot(r, y),
        z: dot(r, z),
        w: dot(r, w),
    }
}

// Whether the determinant of the table is zero.
pub fn is_singular(m: Map) -> bool
    requires { MapSmall m }
    ensures { result ≡ is_zero (determinant_of m) }
{
    let x = m.x;
    let y = m.y;
    let z = m.z;
    let w = m.w;
    dot(plane(x, y, z), w) == 0
}

// The size of a whole number, the least too.
fn size(v: i64) -> usize
    ensures { result ≡ nat_abs v }
{
    v.unsigned_abs() as usize
}

fn row_upto(most: usize, r: Row) -> bool
    ensures { result ≡ row_upto most r }
{
    if size(r.x) > most {
        return false;
    }
    if size(r.y) > most {
        return false;
    }
    if size(r.z) > most {
        return false;
    }
    size(r.w) <= most
}

pub fn entries_ok(m: Map) -> bool
    ensures { result ≡ entries_ok m }
{
    let x = m.x;
    let y = m.y;
    let z = m.z;
    let w = m.w;
    if !row_upto(Map::MOST_ENTRY, x) {
        return false;
    }
    if !row_upto(Map::MOST_ENTRY, y) {
        return false;
    }
    if !row_upto(Map::MOST_ENTRY, z) {
        return false;
    }
    row_upto(Map::MOST_ENTRY, w)
}

fn coordinates_ok(r: Row) -> bool
    ensures { result ≡ coordinates_ok r }
{
    if size(r.x) > Scene::MOST_COORDINATE {
        return false;
    }
    if size(r.y) > Scene::MOST_COORDINATE {
        return false;
    }
    size(r.z) <= Scene::MOST_COORDINATE
}

// The far point, and no other, may have weight 0.
fn least_weight(j: usize) -> usize
    ensures { result ≡ least_weight j }
{
    if j == 0 { 0 } else { 1 }
}

fn weight_ok(j: usize, r: Row) -> bool
    ensures { result ≡ weight_ok j r }
{
    is_within(least_weight(j), Scene::MOST_WEIGHT, size(r.w))
}

// Refusals 5 and 6 of the image of the file's point j, before anything is narrowed.
pub fn row_fault(j: usize, r: Row) -> Result<(), Refusal>
    requires { j ≤ most_points limits }
    ensures { result ≡ row_fault j r }
{
    if !coordinates_ok(r) {
        return Err(Refusal::Coordinate(j + 1));
    }
    if !weight_ok(j, r) {
        return Err(Refusal::Weight(j + 1));
    }
    Ok(())
}
