// The changes of a session, made to the bytes of a scene in place.
ghost use Rattle.std.specs.Prelude.{◌≡◌, ◌-◌};
ghost use Rattle.scene.specs.Write.{row_put};
ghost use Rattle.session.specs.Session.{reversed_in};
ghost use Rattle.session.specs.Place.{move_fault, move_far_fault, reverse_fault, IsChanged};

use crate::{faults, reversed_face};
use scene::{Refusal, Row, offsets, write};

fn move_fault(s: &[u8], p: usize, v: Row) -> Result<(), Refusal>
    ensures { result ≡ move_fault s.now p v }
{
    judge::judge(s)?;
    faults::vertex_fault(s, p, v)
}

fn move_far_fault(s: &[u8], v: Row) -> Result<(), Refusal>
    ensures { result ≡ move_far_fault s.now v }
{
    judge::judge(s)?;
    faults::far_fault(s, v)
}

fn reverse_fault(s: &[u8], f: usize) -> Result<(), Refusal>
    ensures { result ≡ reverse_fault s.now f }
{
    judge::judge(s)?;
    faults::turn_fault(s, f)
}

pub fn move_vertex(s: &mut [u8], p: usize, v: Row) -> Result<(), Refusal>
    ensures { IsChanged (move_fault s.old p v) s.old (row_put s.old p v) s.new result }
{
    move_fault(s, p, v)?;
    write::put_row(s, p, v);
    Ok(())
}

pub fn move_far(s: &mut [u8], v: Row) -> Result<(), Refusal>
    ensures { IsChanged (move_far_fault s.old v) s.old (row_put s.old 0 v) s.new result }
{
    move_far_fault(s, v)?;
    write::put_row(s, 0, v);
    Ok(())
}

pub fn reverse(s: &mut [u8], f: usize) -> Result<(), Refusal>
    ensures { IsChanged (reverse_fault s.old f) s.old (reversed_in s.old s.old (f - 1))
        s.new result }
{
    reverse_fault(s, f)?;
    let at = offsets::face_start(s, f - 1);
    let t = reversed_face(s, f - 1);
    write::put_corners(s, at, t);
    Ok(())
}
