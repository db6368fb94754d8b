// How many pairs are pierced, and how many vertices are enclosed.
ghost use Rattle.std.specs.Prelude.{◌≡◌, Ok};
ghost use Rattle.scene.specs.View.{view_of};
ghost use Rattle.judge.specs.Judge.{judged};
ghost use Rattle.questions.specs.Answers.{counts_in, counted_of};

use questions::Counts;
use scene::Refusal;
use survey::answers::{count_inside, count_pairs};
use survey_edges::{ENDS, Ends, Masks};
use survey_scene::survey_of;
use survey_sides::Surveyor;

// Of an accepted scene.
fn counts_of<E: Surveyor>(engine: E, s: &[u8]) -> Counts
    requires { judged s.now ≡ Ok tt }
    ensures { result ≡ counts_in (view_of s.now) }
{
    let mut aends: Ends = [0; ENDS];
    let mut amasks: Masks = [0; ENDS];
    let mut bends: Ends = [0; ENDS];
    let mut bmasks: Masks = [0; ENDS];
    let t = survey_of(engine, s, &mut aends, &mut amasks, &mut bends, &mut bmasks);
    Counts {
        pairs: count_pairs(t, &amasks, &bmasks),
        a_in_b: count_inside(t.a.inside),
        b_in_a: count_inside(t.b.inside),
    }
}

pub fn count<E: Surveyor>(engine: E, s: &[u8]) -> Result<Counts, Refusal>
    ensures { result ≡ counted_of s.now }
{
    judge::judge(s)?;
    Ok(counts_of(engine, s))
}
