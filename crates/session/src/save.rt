// A session's scene, written into a lent buffer.
ghost use Rattle.std.specs.Prelude.{◌≡◌};
ghost use Rattle.session.specs.Session.{scene};
ghost use Rattle.session.specs.Saved.{save_fault, IsSaved};

use crate::{Session, faults, size};
use scene::Refusal;
use scene::write::copy;

// Refusal 1 of the empty session, then 13.
fn save_fault(s: &[u8], room: usize) -> Result<(), Refusal>
    ensures { result ≡ save_fault s.now room }
{
    if !faults::is_whole(s) {
        return Err(Refusal::Opening);
    }
    if !faults::at_most(s.len(), room) {
        return Err(Refusal::BufferTooShort(s.len()));
    }
    Ok(())
}

// The scene's bytes into out, whose places behind them keep their contents; under a refusal all places do.
pub fn save(s: Session, out: &mut [u8]) -> Result<(), Refusal>
    ensures { IsSaved (scene s) out.old out.new result }
{
    let n = size(s);
    let b = s.bytes;
    let j = save_fault(&b[..n], out.len());
    match j {
        Err(r) => Err(r),
        Ok(()) => {
            copy(&b[..n], out);
            Ok(())
        }
    }
}
