// How many vertices of one solid the other encloses.
ghost use Rattle.std.specs.Prelude.{◌≡◌, Ok};
ghost use Rattle.scene.specs.View.{view_of};
ghost use Rattle.judge.specs.Judge.{judged};
ghost use Rattle.questions.specs.Answers.{inside_fault, inside_in, inside_of};

use scene::offsets::points;
use scene::read::solid;
use scene::{Corners, Refusal, Rows, Scene, decode, is_within};
use survey::answers::count_inside;
use survey::survey_solid;
use survey_edges::{ENDS, Ends, Masks};
use survey_sides::Surveyor;

fn inside_fault(k: usize) -> Result<(), Refusal>
    ensures { result ≡ inside_fault k }
{
    if !is_within(1, 2, k) {
        return Err(Refusal::NoSuchNumber);
    }
    Ok(())
}

// Of an accepted scene.
fn inside_of<E: Surveyor>(engine: E, s: &[u8], k: usize) -> usize
    requires { judged s.now ≡ Ok tt }
    ensures { result ≡ inside_in (view_of s.now) k }
{
    let mut rows: Rows = [0; Scene::ROWS];
    let mut corners: Corners = [0; Scene::CORNERS];
    decode::rows(s, &mut rows);
    decode::faces(s, &mut corners);
    let n = points(s);
    let o = solid(s, k);
    let mut ends: Ends = [0; ENDS];
    let mut masks: Masks = [0; ENDS];
    let t = survey_solid(engine, &rows, &corners, n, o, &mut ends, &mut masks);
    count_inside(t.inside)
}

// Of solid k, 1 for A and 2 for B.
pub fn inside<E: Surveyor>(engine: E, s: &[u8], k: usize) -> Result<usize, Refusal>
    ensures { result ≡ inside_of s.now k }
{
    judge::judge(s)?;
    inside_fault(k)?;
    Ok(inside_of(engine, s, k))
}
