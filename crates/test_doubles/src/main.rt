// Takes the vertices on standard input, four to an entry, and prints each as it is taken or refused; of four that are taken also c0 in
// doubles, by its bits. An entry is sixteen doubles of eight bytes, low byte first.
#![tactic(auto)]

ghost use Rattle.std.specs.Prelude.{◌<◌, ◌≤◌, length};

use doubles::determinant::c0;
use doubles::{Vertex, take};
use print::{newline, next_signed, word};
use print_refusals::refused;
use scene::Row;
use scene::read::two;
use std::io::{Print, Write};

const ENTRY: usize = 128;

// Room for four lines of a word and four numbers.
const TEXT: usize = 512;

// The double of these bits. A NaN's bits can't be made a double, so each is the NaN of 0 / 0.
fn double(n: u64) -> f64 {
    if n % 9223372036854775808 <= 9218868437227405312 {
        return f64::from_bits(n);
    }
    0.0 / 0.0
}

fn double_at(s: &[u8], i: usize) -> f64
    requires { i < 4096 }
{
    let low = two(s, i) + 65536 * two(s, i + 2);
    let high = two(s, i + 4) + 65536 * two(s, i + 6);
    double((low + 4294967296 * high) as u64)
}

fn vertex_at(s: &[u8], i: usize) -> Vertex
    requires { i < 2048 }
{
    Vertex {
        x: double_at(s, i),
        y: double_at(s, i + 8),
        z: double_at(s, i + 16),
        w: double_at(s, i + 24),
    }
}

fn taken(r: Row, out: &mut [u8], at: usize) -> usize
    ensures { result ≤ length out.new }
{
    let a = word(out, at, b"taken");
    let b = next_signed(out, a, r.x);
    let c = next_signed(out, b, r.y);
    let d = next_signed(out, c, r.z);
    let e = next_signed(out, d, r.w);
    newline(out, e)
}

fn vertex(v: Vertex, out: &mut [u8], at: usize) -> usize
    ensures { result ≤ length out.new }
{
    match take(v) {
        Ok(r) => taken(r, out, at),
        Err(f) => refused(out, at, f),
    }
}

fn bits_line(bits: u64, out: &mut [u8]) -> usize
    ensures { result ≤ length out.new }
{
    let mut digits = [0u8; 16];
    let mut rest: &mut [u8] = &mut digits;
    write!(rest, "{bits:016x}").is_ok();
    let p = word(out, 0, b"c0 ");
    let q = word(out, p, &digits);
    newline(out, q)
}

// Whether it was written, as each of the two below.
fn write_c0(rt: &HostRuntime, t: f64, out: &mut [u8]) -> bool {
    if t == t {
        let end = bits_line(f64::to_bits(t), out);
        return rt.stdout().write_all(&out[..end]).is_ok();
    }
    true
}

fn write_vertices(
    rt: &HostRuntime,
    a: Vertex,
    b: Vertex,
    c: Vertex,
    d: Vertex,
    out: &mut [u8],
) -> bool {
    let p = vertex(a, out, 0);
    let q = vertex(b, out, p);
    let r = vertex(c, out, q);
    let end = vertex(d, out, r);
    rt.stdout().write_all(&out[..end]).is_ok()
}

fn write_entry(rt: &HostRuntime, s: &[u8]) -> bool {
    let a = vertex_at(s, 0);
    let b = vertex_at(s, 32);
    let c = vertex_at(s, 64);
    let d = vertex_at(s, 96);
    let mut out = [0u8; TEXT];
    if !write_vertices(rt, a, b, c, d, &mut out) {
        return false;
    }
    if take(a).is_ok() && take(b).is_ok() && take(c).is_ok() && take(d).is_ok() {
        return write_c0(rt, c0(a, b, c, d), &mut out);
    }
    true
}

fn main(rt: HostRuntime) {
    for _ in 0..usize::MAX {
        let mut s = [0u8; ENTRY];
        if cli::read(&mut rt.stdin(), &mut s).count < ENTRY {
            return;
        }
        if !write_entry(&rt, &s) {
            return;
        }
    }
}
