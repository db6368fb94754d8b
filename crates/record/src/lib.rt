// Any one record of an accepted scene: the caller's own bytes from its mark to its last byte.
#![tactic(auto)]

ghost use Rattle.std.specs.Prelude.{◌≡◌, ◌+◌, ◌≤◌, length};
ghost use Rattle.scene.specs.Records.{length_of, last_record};
ghost use Rattle.record.specs.Shown.{part, part_at, shown, refusal};

use scene::{Refusal, offsets};

// None (accepted), the scene's own refusal, or 11 for a record that the scene lacks.
pub fn record_refusal(s: &[u8], k: usize) -> Result<(), Refusal>
    ensures { result ≡ refusal s.now k }
{
    judge::judge(s)?;
    if k > offsets::last_record(s) {
        return Err(Refusal::NoSuchNumber);
    }
    Ok(())
}

// The n bytes from a on.
fn part(s: &[u8], a: usize, n: usize) -> &[u8]
    requires { a + n ≤ length s.now }
    ensures { result.now ≡ part s.now a n }
{
    &s[a..a + n]
}

// Record k, from 0 (SC) to the last (EN), of a scene whose length is right.
fn record_at(s: &[u8], k: usize) -> &[u8]
    requires { (length s.now ≡ length_of s.now) × (k ≤ last_record s.now) }
    ensures { result.now ≡ part_at s.now k }
{
    let v = 2 + offsets::vertices(s);
    let n = offsets::faces(s);
    if k == 0 {
        return part(s, 0, 6);
    }
    if k < v {
        return part(s, 6 + (k - 1) * 9, 9);
    }
    if k < v + n {
        return part(s, offsets::face_start(s, k - v), 5);
    }
    part(s, offsets::face_start(s, n), 2)
}

// Record k, or no bytes where it is refused.
pub fn record(s: &[u8], k: usize) -> &[u8]
    ensures { result.now ≡ shown s.now k }
{
    if let Err(_) = record_refusal(s, k) {
        return &s[0..0];
    }
    record_at(s, k)
}
