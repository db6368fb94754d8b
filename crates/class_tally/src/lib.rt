// Marking a whole class: the scenes of a block, end to end, and the report that tallies them.
#![tactic(auto)]

ghost use Rattle.std.specs.Prelude.{◌≡◌};
ghost use Rattle.class_tally.specs.Tally.{report_of, block_number, block_place, number_in, place_in, mean_of};

use scene::Numbered;

pub mod files;
mod marks;

// How many scenes count in each line of the report, how many were accepted, and the pierced pairs of these.
#[derive(Clone, Copy, Debug, PartialEq, Eq)]
pub struct Tally {
    pub scenes: usize,
    pub cross: usize,
    pub a_in_b: usize,
    pub b_in_a: usize,
    pub apart: usize,
    pub refused_1: usize,
    pub refused_2: usize,
    pub refused_3: usize,
    pub refused_4: usize,
    pub refused_5: usize,
    pub refused_6: usize,
    pub refused_7: usize,
    pub refused_8: usize,
    pub refused_9: usize,
    pub refused_14: usize,
    pub accepted: usize,
    pub pairs: usize,
}

impl Tally {
    // The longest block.
    pub const MOST_BYTES: usize = 65536;

    // The lines of a report that count scenes.
    pub const LINES: usize = 15;
}

// One scene: the line of the report that it counts in, an index (`Refusals` says which), and its pierced pairs.
#[derive(Clone, Copy, Debug, PartialEq, Eq)]
pub struct Mark {
    pub line: usize,
    pub pairs: usize,
}

// The mean of pierced pairs over accepted scenes.
#[derive(Clone, Copy, Debug, PartialEq, Eq)]
pub struct Mean {
    pub whole: usize,
    pub remainder: usize,
    pub divisor: usize,
}

// Why a block has no tally: it is longer than it may be, and refused with 23.
#[derive(Clone, Copy, Debug, PartialEq, Eq)]
pub enum BlockError {
    Longer,
}

impl Numbered for BlockError {
    ghost number = { block_number };

    ghost place = { block_place };

    fn number(self) -> usize {
        match self {
            BlockError::Longer => 23,
        }
    }

    fn place(self) -> usize {
        match self {
            BlockError::Longer => 0,
        }
    }
}

// What a block's scenes amount to.
pub type Report = Result<Tally, BlockError>;

pub fn report_of(block: &[u8]) -> Report
    ensures { result ≡ report_of block.now }
{
    if block.len() > Tally::MOST_BYTES {
        return Err(BlockError::Longer);
    }
    Ok(marks::tally(block))
}

// The number of the report's refusal, 0 where there is none, and its place.
pub fn number(r: Report) -> usize
    ensures { result ≡ number_in r }
{
    match r {
        Ok(_) => 0,
        Err(e) => e.number(),
    }
}

pub fn place(r: Report) -> usize
    ensures { result ≡ place_in r }
{
    match r {
        Ok(_) => 0,
        Err(e) => e.place(),
    }
}

// Three zeros where no scene was accepted, as the line is printed; so `Merging` says the divisor of every tally.
pub fn mean_of(t: Tally) -> Mean
    ensures { result ≡ mean_of t }
{
    let n = t.accepted;
    let p = t.pairs;
    if n == 0 {
        return Mean {
            whole: 0,
            remainder: 0,
            divisor: 0,
        };
    }
    Mean {
        whole: p / n,
        remainder: p % n,
        divisor: n,
    }
}
