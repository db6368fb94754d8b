// Whether a scene is clean: no four different points of it lie in one plane.
#![tactic(auto)]

ghost use Rattle.std.specs.Prelude.{◌≡◌, ◌+◌, ◌≤◌, Ok};
ghost use Rattle.laws.specs.Range.{any_of};
ghost use Rattle.scene.specs.Limits.{limits, most_points};
ghost use Rattle.scene.specs.Records.{verts};
ghost use Rattle.scene.specs.Tables.{tables_of, row};
ghost use Rattle.scene.specs.Arrays.{row_in, AllWithin};
ghost use Rattle.judge.specs.Judge.{judged};
ghost use Rattle.clean.specs.Clean.{in_plane, flat_with1, flat_with2, flat_with3, has_flat};
ghost use Rattle.clean.specs.Sizes.{most_coefficient, RowSmall};
ghost use Rattle.clean.specs.Answers.{clean_of};

pub mod planes;

use crate::planes::{dot, plane};
use scene::decode::row_in;
use scene::{Refusal, Row, Rows, Scene, decode, offsets};

pub fn clean(s: &[u8]) -> Result<bool, Refusal>
    ensures { result ≡ clean_of s.now }
{
    judge::judge(s)?;
    Ok(!flat_scene(s))
}

// Of an accepted scene.
fn flat_scene(s: &[u8]) -> bool
    requires { judged s.now ≡ Ok tt }
    ensures { result ≡ has_flat (verts s.now + 1) (row (tables_of s.now)) }
{
    let mut rows: Rows = [0; Scene::ROWS];
    decode::rows(s, &mut rows);
    has_flat(&rows, offsets::vertices(s) + 1)
}

// Four points, each above the one before it: the lowest, the next, the one after that, and the last.
fn has_flat(rows: &Rows, n: usize) -> bool
    requires { AllWithin limits (row_in rows.now) × (n ≤ most_points limits) }
    ensures { result ≡ has_flat n (row_in rows.now) }
{
    (1..n + 1).any(|a| flat_with1(rows, n, a))
}

fn flat_with1(rows: &Rows, n: usize, a: usize) -> bool
    requires { AllWithin limits (row_in rows.now) × (n ≤ most_points limits) × (a ≤ n) }
    ensures { result ≡ flat_with1 n (row_in rows.now) a }
{
    (a + 1..n + 1).any(|b| flat_with2(rows, n, a, b))
}

fn flat_with2(rows: &Rows, n: usize, a: usize, b: usize) -> bool
    requires { AllWithin limits (row_in rows.now) × (n ≤ most_points limits) × (a ≤ n) × (b ≤ n) }
    ensures { result ≡ flat_with2 n (row_in rows.now) a b }
{
    (b + 1..n + 1).any(|c| flat_with3(rows, n, a, b, c))
}

// The plane of three points is formed once.
fn flat_with3(rows: &Rows, n: usize, a: usize, b: usize, c: usize) -> bool
    requires { AllWithin limits (row_in rows.now) × (n ≤ most_points limits) × (a ≤ n) × (b ≤ n) × (c ≤ n) }
    ensures { result ≡ flat_with3 n (row_in rows.now) a b c }
{
    let p = plane(row_in(rows, a), row_in(rows, b), row_in(rows, c));
    meets(rows, p, c + 1, n + 1)
}

// Some point from number `from` on, below number e, lies in the plane.
fn meets(rows: &Rows, p: Row, from: usize, e: usize) -> bool
    requires { AllWithin limits (row_in rows.now) × RowSmall most_coefficient p × (e ≤ most_points limits + 1) }
    ensures { result ≡ any_of (in_plane (row_in rows.now) p) from e }
{
    (from..e).any(|d| in_plane(rows, p, d))
}

fn in_plane(rows: &Rows, p: Row, d: usize) -> bool
    requires { AllWithin limits (row_in rows.now) × RowSmall most_coefficient p × (d ≤ most_points limits) }
    ensures { result ≡ in_plane (row_in rows.now) p d }
{
    dot(p, row_in(rows, d)) == 0
}
