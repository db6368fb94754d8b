// The report of a scene: its head, and then the listing, part by part, each by its own question.
ghost use Rattle.std.specs.Prelude.{◌≡◌, ◌/◌, length, Ok};
ghost use Rattle.judge.specs.Judge.{judged};
ghost use Rattle.print_lines.specs.Rows.{IsRows};
ghost use Rattle.print_lines.specs.Report.{part_rows, IsLent, IsHead};

use kernel::lists;
use print_lines::head::Top;
use print_lines::rows::{RowsPut, left};
use print_lines::{refused, rows};
use print_report::head_read;
use survey_edges::{ENDS, Ends, Masks};
use survey_scene::survey_of;
use survey_sides::Surveyor;

// Of an accepted scene.
fn survey_head<E: Surveyor>(engine: E, s: &[u8], out: &mut [u8]) -> Top
    requires { judged s.now ≡ Ok tt }
    ensures { IsHead s.now out.old out.new result }
{
    let mut aends: Ends = [0; ENDS];
    let mut amasks: Masks = [0; ENDS];
    let mut bends: Ends = [0; ENDS];
    let mut bmasks: Masks = [0; ENDS];
    let t = survey_of(engine, s, &mut aends, &mut amasks, &mut bends, &mut bmasks);
    head_read(t, s, &aends, &amasks, &bends, &bmasks, out)
}

// All but the listing.
pub fn head<E: Surveyor>(engine: E, s: &[u8], out: &mut [u8]) -> Top
    ensures { IsHead s.now out.old out.new result }
{
    if let Err(r) = judge::judge(s) {
        return Top {
            end: refused(out, 0, r),
            rows: 0,
        };
    }
    survey_head(engine, s, out)
}

// The rows of the listing from the one numbered `from` on, as many as the lent list and the buffer have room for.
pub fn part<E: Surveyor>(
    engine: E,
    s: &[u8],
    from: usize,
    list: &mut [u16],
    out: &mut [u8],
) -> RowsPut
    ensures rows { IsRows (part_rows s.now from (length list.old / 3)) out.old 0 out.new result }
    ensures lent { IsLent s.now from list.old list.new }
{
    let answer = lists::listing_part(engine, s, from, list);
    match answer {
        Err(_) => rows::rows(out, 0, list, 0),
        Ok(n) => rows::rows(out, 0, list, left(n, from)),
    }
}
