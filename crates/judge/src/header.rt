// Refusals 1, 2 and 3: the opening, the counts, the length.
ghost use Rattle.std.specs.Prelude.{◌≡◌, length, eqb};
ghost use Rattle.scene.specs.Limits.{limits, within};
ghost use Rattle.scene.specs.Bytes.{byte_at};
ghost use Rattle.scene.specs.Records.{length_of};
ghost use Rattle.judge.specs.Judge.{opens, counts_ok, header_fault};

use scene::offsets::length_of;
use scene::read::{byte, two};
use scene::{Refusal, Scene, is_within};

fn opens(s: &[u8]) -> bool
    ensures { result ≡ opens s.now }
{
    if s.len() < 6 {
        return false;
    }
    two(s, 0) == Scene::SC
}

// The count at byte i.
fn vertices_ok(s: &[u8], i: usize) -> bool
    ensures { result ≡ within limits.least_vertices limits.most_vertices (byte_at s.now i) }
{
    is_within(Scene::LEAST_VERTICES, Scene::MOST_VERTICES, byte(s, i))
}

fn faces_ok(s: &[u8], i: usize) -> bool
    ensures { result ≡ within limits.least_faces limits.most_faces (byte_at s.now i) }
{
    is_within(Scene::LEAST_FACES, Scene::MOST_FACES, byte(s, i))
}

fn counts_ok(s: &[u8]) -> bool
    ensures { result ≡ counts_ok limits s.now }
{
    if !vertices_ok(s, 2) {
        return false;
    }
    if !faces_ok(s, 3) {
        return false;
    }
    if !vertices_ok(s, 4) {
        return false;
    }
    faces_ok(s, 5)
}

fn length_ok(s: &[u8]) -> bool
    ensures { result ≡ eqb (length s.now) (length_of s.now) }
{
    s.len() == length_of(s)
}

pub fn header_fault(s: &[u8]) -> Result<(), Refusal>
    ensures { result ≡ header_fault limits s.now }
{
    if !opens(s) {
        return Err(Refusal::Opening);
    }
    if !counts_ok(s) {
        return Err(Refusal::Counts);
    }
    if !length_ok(s) {
        return Err(Refusal::Length);
    }
    Ok(())
}
