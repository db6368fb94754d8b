// Refusal 8, a vertex in no face, and refusal 9, an edge that lies in an odd number of its solid's faces.
ghost use Rattle.std.specs.Prelude.{◌≡◌, true, ◌+◌, ◌<◌, ◌≤◌, Ok};
ghost use Rattle.scene.specs.Records.{faces_in_a, faces_in_b, verts, verts_a, verts_b, faces};
ghost use Rattle.scene.specs.Tables.{corner_at};
ghost use Rattle.judge.specs.Judge.{and_then, is_used, unused_fault, unuseds_fault, closed_at, edge_fault, edges_fault};
ghost use Rattle.judge.specs.Words.{places, CornersIn, FacesIn, AreWords, used_word, SideBy, SidesBy};

use crate::records::corner;
use crate::words::{PLACES, Words, are_alone, in_even, in_used, words_of};
use scene::offsets::face_record;
use scene::read::byte;
use scene::{Refusal, offsets};

// By ua and ub, the words of the vertices that A's faces and B's use.
fn is_used(s: &[u8], ua: u64, ub: u64, p: usize) -> bool
    requires words { (ua ≡ used_word s.now 0 (faces_in_a s.now)) × (ub ≡ used_word s.now (faces_in_a s.now) (faces_in_b s.now)) }
    requires point { (p ≤ verts s.now) × (verts_a s.now < places) × (verts_b s.now < places) }
    ensures { result ≡ is_used s.now p }
{
    let v = byte(s, 2);
    if p <= v {
        return in_used(ua, p);
    }
    in_used(ub, p - v)
}

fn unused_fault(s: &[u8], ua: u64, ub: u64, p: usize) -> Result<(), Refusal>
    requires words { (ua ≡ used_word s.now 0 (faces_in_a s.now)) × (ub ≡ used_word s.now (faces_in_a s.now) (faces_in_b s.now)) }
    requires point { (p ≤ verts s.now) × (verts_a s.now < places) × (verts_b s.now < places) }
    ensures { result ≡ unused_fault s.now p }
{
    if !is_used(s, ua, ub, p) {
        return Err(Refusal::Unused(p));
    }
    Ok(())
}

fn unuseds_fault(s: &[u8], ua: u64, ub: u64) -> Result<(), Refusal>
    requires words { (ua ≡ used_word s.now 0 (faces_in_a s.now)) × (ub ≡ used_word s.now (faces_in_a s.now) (faces_in_b s.now)) }
    requires vertices { (verts_a s.now < places) × (verts_b s.now < places) }
    ensures { result ≡ unuseds_fault s.now }
{
    let n = offsets::vertices(s);
    for p in 1..n + 1 {
        unused_fault(s, ua, ub, p)?;
    }
    Ok(())
}

// The side from corner m to corner n of the file's face i lies in an even number of the faces whose words these are.
fn side_ok(s: &[u8], words: &Words, i: usize, m: usize, n: usize) -> bool
    requires { (i < 1024) × (m < 3) × (n < 3) × (corner_at s.now i m < places) × (corner_at s.now i n < places) }
    ensures { SideBy s.now words.now (corner_at s.now i m) (corner_at s.now i n) result }
{
    in_even(words, corner(s, i, m), corner(s, i, n))
}

fn sides_ok(s: &[u8], words: &Words, i: usize) -> bool
    requires { (i < 1024) × CornersIn s.now i }
    ensures { SidesBy s.now words.now i result }
{
    if !side_ok(s, words, i, 0, 1) {
        return false;
    }
    if !side_ok(s, words, i, 1, 2) {
        return false;
    }
    side_ok(s, words, i, 2, 0)
}

// By wa and wb, the words of A's faces and of B's.
fn is_closed_at(s: &[u8], wa: &Words, wb: &Words, i: usize) -> bool
    requires face { (i < 1024) × CornersIn s.now i }
    requires words { AreWords s.now 0 (faces_in_a s.now) wa.now × AreWords s.now (faces_in_a s.now) (faces_in_b s.now) wb.now }
    ensures { result ≡ closed_at s.now i }
{
    if i < byte(s, 3) {
        return sides_ok(s, wa, i);
    }
    sides_ok(s, wb, i)
}

fn edge_fault(s: &[u8], wa: &Words, wb: &Words, i: usize) -> Result<(), Refusal>
    requires face { (i < 1024) × CornersIn s.now i }
    requires words { AreWords s.now 0 (faces_in_a s.now) wa.now × AreWords s.now (faces_in_a s.now) (faces_in_b s.now) wb.now }
    ensures { result ≡ edge_fault s.now i }
{
    if !is_closed_at(s, wa, wb, i) {
        return Err(Refusal::Edge(face_record(s, i)));
    }
    Ok(())
}

// The words alone tell that no edge lies in an odd number of faces.
fn none_odd(s: &[u8], wa: &Words, wb: &Words) -> bool
    requires faces { FacesIn s.now × (verts_a s.now < places) × (verts_b s.now < places) }
    requires words { AreWords s.now 0 (faces_in_a s.now) wa.now × AreWords s.now (faces_in_a s.now) (faces_in_b s.now) wb.now }
    ensures { result ≡ true → edges_fault s.now ≡ Ok tt }
{
    if !are_alone(wa, byte(s, 2)) {
        return false;
    }
    are_alone(wb, byte(s, 4))
}

// An odd edge is looked for face by face only where there is one.
fn edges_fault(s: &[u8], wa: &Words, wb: &Words) -> Result<(), Refusal>
    requires faces { FacesIn s.now × (verts_a s.now < places) × (verts_b s.now < places) }
    requires words { AreWords s.now 0 (faces_in_a s.now) wa.now × AreWords s.now (faces_in_a s.now) (faces_in_b s.now) wb.now }
    ensures { result ≡ edges_fault s.now }
{
    if none_odd(s, wa, wb) {
        return Ok(());
    }
    let n = offsets::faces(s);
    for i in 0..n {
        edge_fault(s, wa, wb, i)?;
    }
    Ok(())
}

// Of a file whose records passed.
pub fn solids_fault(s: &[u8]) -> Result<(), Refusal>
    requires { FacesIn s.now × (verts_a s.now < places) × (verts_b s.now < places) }
    ensures { result ≡ and_then (unuseds_fault s.now) (edges_fault s.now) }
{
    let a = byte(s, 3);
    let b = byte(s, 5);
    let mut wa: Words = [0; PLACES];
    let ua = words_of(s, 0, a, &mut wa);
    let mut wb: Words = [0; PLACES];
    let ub = words_of(s, a, b, &mut wb);
    unuseds_fault(s, ua, ub)?;
    edges_fault(s, &wa, &wb)
}
