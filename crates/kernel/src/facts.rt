// Everything that is asked of a whole scene in one answer, for which it is judged, decoded and surveyed once: the verdict, the counts, the
// words of the enclosed vertices, and the listing into a lent list where that has room.
ghost use Rattle.std.specs.Prelude.{◌≡◌, Ok};
ghost use Rattle.judge.specs.Judge.{judged};
ghost use Rattle.scene.specs.View.{view_of};
ghost use Rattle.survey_scene.specs.Facts.{IsSurvey, Gathered};

use questions::{Counts, Facts};
use scene::Refusal;
use survey::answers::count_inside;
use survey_edges::{ENDS, Ends, Masks};
use survey_scene::{survey_of, verdict_read, write_read};
use survey_sides::Surveyor;

// Of an accepted scene.
fn gather<E: Surveyor>(engine: E, s: &[u8], out: &mut [u16]) -> Facts
    requires { judged s.now ≡ Ok tt }
    ensures { Gathered (view_of s.now) out.old out.new result }
{
    let mut aends: Ends = [0; ENDS];
    let mut amasks: Masks = [0; ENDS];
    let mut bends: Ends = [0; ENDS];
    let mut bmasks: Masks = [0; ENDS];
    let t = survey_of(engine, s, &mut aends, &mut amasks, &mut bends, &mut bmasks);
    let n = write_read(t, s, &aends, &amasks, &bends, &bmasks, 0, true, out);
    let v = verdict_read(t, s, &aends, &amasks, &bends, &bmasks);
    Facts {
        verdict: v,
        counts: Counts {
            pairs: n,
            a_in_b: count_inside(t.a.inside),
            b_in_a: count_inside(t.b.inside),
        },
        a_inside: t.a.inside,
        b_inside: t.b.inside,
    }
}

// A list that has not three places for each pair keeps its contents; the facts then say how many pairs there are.
pub fn survey<E: Surveyor>(engine: E, s: &[u8], out: &mut [u16]) -> Result<Facts, Refusal>
    ensures { IsSurvey s.now out.old out.new result }
{
    judge::judge(s)?;
    Ok(gather(engine, s, out))
}
