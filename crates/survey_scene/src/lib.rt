// An accepted scene is decoded and surveyed once; the verdict, the counts and the listing are read off its tables.
#![tactic(auto)]

ghost use Rattle.std.specs.Prelude.{◌≡◌, Ok};
ghost use Rattle.judge.specs.Judge.{judged};
ghost use Rattle.scene.specs.View.{view_of};
ghost use Rattle.survey.specs.Survey.{Sized};
ghost use Rattle.questions.specs.Answers.{verdict_in, listing_in};
ghost use Rattle.questions.specs.Listings.{lacks_room, PouredIf};
ghost use Rattle.survey_scene.specs.Surveys.{SurveyIs, FirstOrEnclosedIs, EnoughForVerdict};

use questions::{Pair, Verdict};
use scene::offsets::points;
use scene::read::solid;
use scene::{Corners, Rows, Scene, decode};
use survey::answers::{count_pairs, first_pair, lowest_inside, write_all_pairs};
use survey::{Survey, survey_scene};
use survey_edges::{Ends, Masks};
use survey_first::{FirstOrEnclosed, find_first};
use survey_sides::Surveyor;

// The survey of an accepted scene, each solid's edges into its own table.
pub fn survey_of<E: Surveyor>(
    engine: E,
    s: &[u8],
    aends: &mut Ends,
    amasks: &mut Masks,
    bends: &mut Ends,
    bmasks: &mut Masks,
) -> Survey
    requires s_value { judged s.now ≡ Ok tt }
    requires sized { Sized aends.old amasks.old × Sized bends.old bmasks.old }
    ensures { SurveyIs (view_of s.now) aends.new amasks.new bends.new
        bmasks.new result }
{
    let mut rows: Rows = [0; Scene::ROWS];
    let mut corners: Corners = [0; Scene::CORNERS];
    decode::rows(s, &mut rows);
    decode::faces(s, &mut corners);
    let n = points(s);
    let a = solid(s, 1);
    let b = solid(s, 2);
    survey_scene(
        engine, &rows, &corners, n, a, b, aends, amasks, bends, bmasks,
    )
}

// What a verdict asks of it: nothing is asked behind the first pair.
pub fn first_or_enclosed<E: Surveyor>(engine: E, s: &[u8]) -> FirstOrEnclosed
    requires { judged s.now ≡ Ok tt }
    ensures { FirstOrEnclosedIs (view_of s.now) result }
{
    let mut rows: Rows = [0; Scene::ROWS];
    let mut corners: Corners = [0; Scene::CORNERS];
    decode::rows(s, &mut rows);
    decode::faces(s, &mut corners);
    let n = points(s);
    let a = solid(s, 1);
    let b = solid(s, 2);
    find_first(engine, &rows, &corners, n, a, b)
}

// By the first pair, and where there is none by the words of enclosed vertices.
pub fn verdict_by(s: &[u8], t: FirstOrEnclosed) -> Verdict
    requires s_value { judged s.now ≡ Ok tt }
    requires enough_for_verdict { EnoughForVerdict (view_of s.now) t }
    ensures { result ≡ verdict_in (view_of s.now) }
{
    let x = t.first;
    if let Some((u, v, f)) = x {
        return Verdict::Cross(u, v, f);
    }
    let a = solid(s, 1);
    let b = solid(s, 2);
    let p = lowest_inside(t.a, a.vert0, a.verts);
    if p <= a.verts {
        return Verdict::AInB(p);
    }
    let q = lowest_inside(t.b, b.vert0, b.verts);
    if q <= b.vert0 + b.verts {
        return Verdict::BInA(q);
    }
    Verdict::Apart
}

// The same, off the tables.
pub fn verdict_read(
    t: Survey,
    s: &[u8],
    aends: &Ends,
    amasks: &Masks,
    bends: &Ends,
    bmasks: &Masks,
) -> Verdict
    requires s_value { judged s.now ≡ Ok tt }
    requires survey_is { SurveyIs (view_of s.now) aends.now amasks.now bends.now bmasks.now t }
    ensures { result ≡ verdict_in (view_of s.now) }
{
    let a = solid(s, 1);
    let b = solid(s, 2);
    let x = first_pair(t, a.other0, b.other0, aends, amasks, bends, bmasks);
    verdict_by(
        s,
        FirstOrEnclosed {
            first: x,
            a: t.a.inside,
            b: t.b.inside,
        },
    )
}

// All of n pairs are asked for, and there are not three places for each.
fn lacks_room(all: bool, n: usize, places: usize) -> bool
    ensures { result ≡ lacks_room all n places }
{
    if all {
        return n > places / 3;
    }
    false
}

// The pairs from the one numbered `from` on, as far as there is room, and how many there are in all. Where all of them are asked for, and
// there is no room for all, none is written: they are counted before any is.
pub fn write_read(
    t: Survey,
    s: &[u8],
    aends: &Ends,
    amasks: &Masks,
    bends: &Ends,
    bmasks: &Masks,
    from: usize,
    all: bool,
    out: &mut [u16],
) -> usize
    requires s_value { judged s.now ≡ Ok tt }
    requires survey_is { SurveyIs (view_of s.now) aends.now amasks.now bends.now bmasks.now t }
    ensures { PouredIf (listing_in (view_of s.now)) from all out.old out.new result }
{
    let c = count_pairs(t, amasks, bmasks);
    if lacks_room(all, c, out.len()) {
        return c;
    }
    let a = solid(s, 1);
    let b = solid(s, 2);
    write_all_pairs(
        t, a.other0, b.other0, aends, amasks, bends, bmasks, from, out,
    )
}
