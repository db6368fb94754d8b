// Prints the report of each scene on standard input and, where it is accepted, the answers to ten questions about it: by the plain engine,
// and again by the formula.
#![tactic(auto)]

ghost use Rattle.std.specs.Prelude.{◌≤◌, length};

use pierce_engine::{Engine, Formula, Plain};
use print_answers::lent::{PLACES, TEXT};
use print_answers::{lent, reports};
use scene::{offsets, read};
use std::io::Print;
use survey_sides::Surveyor;

// The remainder of n by m; 0 where m is 0, as no count of an accepted scene is.
fn rest(n: usize, m: usize) -> usize
    ensures { result ≤ m }
{
    if m == 0 { 0 } else { n % m }
}

// The signs, to the scene with number n.
fn signs(s: &[u8], n: usize, out: &mut [u8], at: usize) -> usize
    ensures { result ≤ length out.new }
{
    let points = offsets::points(s);
    let k = rest(n, points);
    let c = 1 + rest(3 * k + 1, points);
    let d = 1 + rest(5 * k + 2, points);
    let p = print_answers::sign(s, 1, 2, 3, 4, out, at);
    print_answers::sign(s, 1 + k, 1 + rest(n / 2, points), c, d, out, p)
}

fn edges<E: Engine>(engine: E, s: &[u8], n: usize, out: &mut [u8], at: usize) -> usize
    ensures { result ≤ length out.new }
{
    let points = offsets::points(s);
    let h = read::counts(s);
    let u = 1 + rest(n, h.vertices_a);
    let f = 1 + h.faces_a + rest(n, h.faces_b);
    let g = 1 + rest(n, offsets::faces(s) + 1);
    let p = print_answers::pierces(engine, s, u, points, f, out, at);
    print_answers::pierces(
        engine,
        s,
        1 + rest(n, points),
        1 + rest(n / 2, points),
        g,
        out,
        p,
    )
}

fn masks<E: Engine>(engine: E, s: &[u8], n: usize, out: &mut [u8], at: usize) -> usize
    ensures { result ≤ length out.new }
{
    let points = offsets::points(s);
    let h = read::counts(s);
    let u = h.vertices_a + 1 + rest(n, h.vertices_b);
    let p = print_answers::mask(engine, s, u, points, 1, out, at);
    print_answers::mask(engine, s, 1 + rest(n, points), points, 1 + n % 3, out, p)
}

fn others<E: Surveyor>(engine: E, s: &[u8], n: usize, out: &mut [u8], at: usize) -> usize
    ensures { result ≤ length out.new }
{
    let i = 1 + rest(n, offsets::points(s) + 1);
    let k = rest(n, offsets::last_record(s) + 2);
    let p = print_answers::enclosed(engine, s, i, out, at);
    let q = print_answers::verdict(engine, s, out, p);
    print_answers::shown(s, k, out, q)
}

// All but the last, the listing into up to 99 lent places. Whether it was written, as each of those below.
fn write_answers<E: Surveyor>(
    rt: &HostRuntime,
    engine: E,
    s: &[u8],
    n: usize,
    out: &mut [u8],
) -> bool {
    let p = signs(s, n, out, 0);
    let q = edges(engine, s, n, out, p);
    let r = masks(engine, s, n, out, q);
    let end = others(engine, s, n, out, r);
    rt.stdout().write_all(&out[..end]).is_ok()
}

fn write_lent<E: Surveyor>(
    rt: &HostRuntime,
    engine: E,
    s: &[u8],
    n: usize,
    list: &mut [u16],
    out: &mut [u8],
) -> bool {
    let a = lent::lend(engine, s, n % 100, list);
    let end = lent::listed(a, list, out, 0);
    rt.stdout().write_all(&out[..end]).is_ok()
}

fn write_report<E: Surveyor>(
    rt: &HostRuntime,
    engine: E,
    s: &[u8],
    list: &mut [u16],
    out: &mut [u8],
) -> bool {
    let top = reports::head(engine, s, out);
    let end = top.end;
    if !rt.stdout().write_all(&out[..end]).is_ok() {
        return false;
    }
    let r = reports::part(engine, s, 0, list, out);
    let all = r.end;
    rt.stdout().write_all(&out[..all]).is_ok()
}

fn write_scene<E: Surveyor>(rt: &HostRuntime, engine: E, s: &[u8], n: usize) -> bool {
    let mut list = [0u16; PLACES];
    let mut out = [0u8; TEXT];
    if !write_report(rt, engine, s, &mut list, &mut out) {
        return false;
    }
    if judge::judge(s).is_err() {
        return true;
    }
    write_answers(rt, engine, s, n, &mut out) && write_lent(rt, engine, s, n, &mut list, &mut out)
}

// Whether there was one more, and its answers were written.
fn write_next(rt: &HostRuntime, n: usize) -> bool {
    let mut s = [0u8; 65536];
    let Some(len) = test_entries::next(rt, &mut s) else {
        return false;
    };
    write_scene(rt, Plain, &s[..len], n) && write_scene(rt, Formula, &s[..len], n)
}

fn main(rt: HostRuntime) {
    for n in 0..usize::MAX {
        if !write_next(&rt, n) {
            return;
        }
    }
}
