// The report of all blocks whose reports were read.
#![tactic(auto)]

ghost use Rattle.std.specs.Prelude.{◌≡◌, leb};
ghost use Rattle.std.specs.List.{list_any};
ghost use Rattle.class_sum.specs.Merged.{nothing, tally_in, sum_of};

use class_read::Reading;
use class_tally::{BlockError, Report, Tally};
use off_items::numbers::LARGEST;

// A text may end inside a report or not be reports, and a sum may reach the largest number of 64 bits.
#[derive(Clone, Copy, Debug, PartialEq, Eq)]
pub enum SumError {
    TooLarge,
    NoReport,
}

// Before any text.
pub fn nothing() -> Reading
    ensures { result ≡ nothing }
{
    let totals = [0; 17];
    Reading {
        at: 0,
        number: 0,
        whole: 0,
        totals,
        longer: false,
        reports: 0,
    }
}

fn tally_in(totals: &[usize; 17]) -> Tally
    ensures { result ≡ tally_in totals.now }
{
    Tally {
        scenes: totals[0],
        cross: totals[1],
        a_in_b: totals[2],
        b_in_a: totals[3],
        apart: totals[4],
        refused_1: totals[5],
        refused_2: totals[6],
        refused_3: totals[7],
        refused_4: totals[8],
        refused_5: totals[9],
        refused_6: totals[10],
        refused_7: totals[11],
        refused_8: totals[12],
        refused_9: totals[13],
        refused_14: totals[14],
        accepted: totals[16],
        pairs: totals[15],
    }
}

fn reaches(totals: &[usize]) -> bool
    ensures { result ≡ list_any (λ n. leb LARGEST n) totals.now }
{
    totals.iter().any(|n| *n >= LARGEST)
}

pub fn sum_of(r: Reading) -> Result<Report, SumError>
    ensures { result ≡ sum_of r }
{
    if r.at != 0 {
        return Err(SumError::NoReport);
    }
    if r.longer {
        return Ok(Err(BlockError::Longer));
    }
    let totals = r.totals;
    if reaches(&totals) {
        return Err(SumError::TooLarge);
    }
    Ok(Ok(tally_in(&totals)))
}
