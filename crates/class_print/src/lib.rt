// The class report as text, rendered into a lent buffer at a place; the answer is the place behind.
#![tactic(auto)]

ghost use Rattle.std.specs.Prelude.{◌≡◌, [], ◌∷◌};
ghost use Rattle.print.specs.Put.{Put};
ghost use Rattle.print.specs.Text.{decimal, line};
ghost use Rattle.class_print.specs.Fits.{room};
ghost use Rattle.class_print.specs.Sheet.{verdicts, refused_low, refused_high, mean_line, tallied, sheet_of};

use class_tally::{Mean, Report, Tally};
use print::{newline, next_number, word};
use print_refusals::refused;

// Room for the longest report.
pub const ROOM: usize = 1136;

// The room of the definitions is that of the code: changing either alone is refused.
pub fn room_agrees()
    ensures { ROOM ≡ room }
{}

// A line's words, and its number.
fn counted(out: &mut [u8], at: usize, w: &[u8], n: usize) -> usize
    ensures { Put out.old at (line (w.now ∷ decimal n ∷ [])) out.new result }
{
    let p = word(out, at, w);
    let e = next_number(out, p, n);
    newline(out, e)
}

fn verdicts(out: &mut [u8], at: usize, t: Tally) -> usize
    ensures { Put out.old at (verdicts t) out.new result }
{
    let a = counted(out, at, b"scenes", t.scenes);
    let b = counted(out, a, b"cross", t.cross);
    let c = counted(out, b, b"a-in-b", t.a_in_b);
    let d = counted(out, c, b"b-in-a", t.b_in_a);
    counted(out, d, b"apart", t.apart)
}

fn refused_low(out: &mut [u8], at: usize, t: Tally) -> usize
    ensures { Put out.old at (refused_low t) out.new result }
{
    let a = counted(out, at, b"refused 1", t.refused_1);
    let b = counted(out, a, b"refused 2", t.refused_2);
    let c = counted(out, b, b"refused 3", t.refused_3);
    let d = counted(out, c, b"refused 4", t.refused_4);
    counted(out, d, b"refused 5", t.refused_5)
}

fn refused_high(out: &mut [u8], at: usize, t: Tally) -> usize
    ensures { Put out.old at (refused_high t) out.new result }
{
    let a = counted(out, at, b"refused 6", t.refused_6);
    let b = counted(out, a, b"refused 7", t.refused_7);
    let c = counted(out, b, b"refused 8", t.refused_8);
    let d = counted(out, c, b"refused 9", t.refused_9);
    counted(out, d, b"refused 14", t.refused_14)
}

fn mean_line(out: &mut [u8], at: usize, m: Mean) -> usize
    ensures { Put out.old at (mean_line m) out.new result }
{
    let a = word(out, at, b"mean");
    let b = next_number(out, a, m.whole);
    let c = next_number(out, b, m.remainder);
    let d = next_number(out, c, m.divisor);
    newline(out, d)
}

// A tally's lines.
pub fn tallied(out: &mut [u8], at: usize, t: Tally) -> usize
    ensures { Put out.old at (tallied t) out.new result }
{
    let m = class_tally::mean_of(t);
    let a = verdicts(out, at, t);
    let b = refused_low(out, a, t);
    let c = refused_high(out, b, t);
    mean_line(out, c, m)
}

// The whole report.
pub fn sheet(out: &mut [u8], at: usize, r: Report) -> usize
    ensures { Put out.old at (sheet_of r) out.new result }
{
    match r {
        Ok(t) => tallied(out, at, t),
        Err(e) => refused(out, at, e),
    }
}
