// Changes to a scene in place, for C: 0 where the scene was changed; else the number of a refusal, the scene's own first, and no byte is
// changed.
ghost use Rattle.std.specs.Prelude.{◌-◌};
ghost use Rattle.scene.specs.Write.{row_put};
ghost use Rattle.session.specs.Session.{reversed_in};
ghost use Rattle.session.specs.Place.{move_fault, move_far_fault, reverse_fault};
ghost use Rattle.bodhranhaze.specs.Moves.{row_of, IsAnswered};

use crate::number_of;
use scene::Row;
use session::place;

// A vertex, by its point number.
pub fn bodhranhaze_move(s: &mut [u8], p: usize, x: i64, y: i64, z: i64, w: i64) -> usize
    ensures { IsAnswered (move_fault s.old p (row_of x y z w)) s.old (row_put s.old p (row_of x y z w))
        s.new result }
{
    let v = Row {
        x: x,
        y: y,
        z: z,
        w: w,
    };
    let j = place::move_vertex(s, p, v);
    number_of(j)
}

// The far point.
pub fn bodhranhaze_move_far(s: &mut [u8], x: i64, y: i64, z: i64, w: i64) -> usize
    ensures { IsAnswered (move_far_fault s.old (row_of x y z w)) s.old (row_put s.old 0 (row_of x y z w))
        s.new result }
{
    let v = Row {
        x: x,
        y: y,
        z: z,
        w: w,
    };
    let j = place::move_far(s, v);
    number_of(j)
}

// A face, its first and third corners swapped.
pub fn bodhranhaze_reverse(s: &mut [u8], f: usize) -> usize
    ensures { IsAnswered (reverse_fault s.old f) s.old (reversed_in s.old s.old (f - 1))
        s.new result }
{
    let j = place::reverse(s, f);
    number_of(j)
}
