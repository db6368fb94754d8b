// The report of an accepted scene, read off its survey: so one survey serves the head and every part of the listing.
#![tactic(auto)]

ghost use Rattle.std.specs.Prelude.{◌≡◌, ◌/◌, length, Ok};
ghost use Rattle.scene.specs.View.{view_of};
ghost use Rattle.judge.specs.Judge.{judged};
ghost use Rattle.survey_scene.specs.Surveys.{SurveyIs};
ghost use Rattle.print_lines.specs.Rows.{IsRows};
ghost use Rattle.print_lines.specs.Report.{part_rows, IsLent, IsHead};

use print_lines::head::{Top, four_lines};
use print_lines::rows;
use print_lines::rows::{RowsPut, left};
use questions::Counts;
use scene::read;
use survey::Survey;
use survey::answers::{count_inside, count_pairs};
use survey_edges::{Ends, Masks};
use survey_scene::{verdict_read, write_read};

// All but the listing.
pub fn head_read(
    t: Survey,
    s: &[u8],
    aends: &Ends,
    amasks: &Masks,
    bends: &Ends,
    bmasks: &Masks,
    out: &mut [u8],
) -> Top
    requires s_value { judged s.now ≡ Ok tt }
    requires survey_is { SurveyIs (view_of s.now) aends.now amasks.now bends.now bmasks.now t }
    ensures { IsHead s.now out.old out.new result }
{
    let h = read::counts(s);
    let v = verdict_read(t, s, aends, amasks, bends, bmasks);
    let c = Counts {
        pairs: count_pairs(t, amasks, bmasks),
        a_in_b: count_inside(t.a.inside),
        b_in_a: count_inside(t.b.inside),
    };
    Top {
        end: four_lines(out, h, Ok(v), c),
        rows: c.pairs,
    }
}

// The rows of the listing from the one numbered `from` on, as many as the lent list and the buffer have room for.
pub fn part_read(
    t: Survey,
    s: &[u8],
    aends: &Ends,
    amasks: &Masks,
    bends: &Ends,
    bmasks: &Masks,
    from: usize,
    list: &mut [u16],
    out: &mut [u8],
) -> RowsPut
    requires s_value { judged s.now ≡ Ok tt }
    requires survey_is { SurveyIs (view_of s.now) aends.now amasks.now bends.now bmasks.now t }
    ensures rows { IsRows (part_rows s.now from (length list.old / 3)) out.old 0 out.new result }
    ensures lent { IsLent s.now from list.old list.new }
{
    let n = write_read(t, s, aends, amasks, bends, bmasks, from, false, list);
    rows::rows(out, 0, list, left(n, from))
}
