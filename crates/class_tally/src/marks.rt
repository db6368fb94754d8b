// The tally of a block: each scene is asked once, and counted in its line.
ghost use Rattle.std.specs.Prelude.{◌≡◌, ◌≤◌, length, get_or};
ghost use Rattle.class_block.specs.Block.{most_bytes};
ghost use Rattle.class_tally.specs.Sums.{accepted_in};
ghost use Rattle.class_tally.specs.Tally.{refused_line, line_of, mark_of, made_by, marks_of, tally_of};
ghost use Rattle.class_tally.specs.Counting.{Counting, up, mark_by};

use crate::files::sum;
use crate::{Mark, Tally};
use class_block::read_scene;
use kernel::facts::survey;
use pierce_engine::Plain;
use questions::{Facts, Verdict};
use scene::Numbered;

pub type Lines = [usize; Tally::LINES];

fn refused_line(n: usize) -> usize
    ensures { result ≡ refused_line n }
{
    if n <= 9 { n + 4 } else { 14 }
}

fn line_of(v: Verdict) -> usize
    ensures { result ≡ line_of (Ok v) }
{
    match v {
        Verdict::Cross(_, _, _) => 1,
        Verdict::AInB(_) => 2,
        Verdict::BInA(_) => 3,
        Verdict::Apart => 4,
    }
}

// An accepted scene.
fn mark_by(f: Facts) -> Mark
    ensures { result ≡ mark_by f }
{
    let v = f.verdict;
    let c = f.counts;
    Mark {
        line: line_of(v),
        pairs: c.pairs,
    }
}

// One scene. Its pairs are counted and not listed.
pub fn mark_of(s: &[u8]) -> Mark
    ensures { result ≡ mark_of s.now }
{
    let mut none = [0u16; 1];
    let a = survey(Plain, s, &mut none);
    match a {
        Err(r) => Mark {
            line: refused_line(r.number()),
            pairs: 0,
        },
        Ok(f) => mark_by(f),
    }
}

// One scene more: in the first line, and in its own.
fn count_in(lines: &mut Lines, k: usize)
    requires { Counting lines.old k }
    ensures { lines.new ≡ up (up lines.old 0) k }
{
    lines[0] += 1;
    lines[k] += 1;
}

// The scenes of the four verdicts.
fn accepted(lines: &Lines) -> usize
    ensures { result ≡ accepted_in lines.now }
{
    let a = sum(lines[1], lines[2]);
    let b = sum(a, lines[3]);
    sum(b, lines[4])
}

pub fn tally_of(lines: &Lines, pairs: usize) -> Tally
    ensures { result ≡ made_by (λ k. get_or lines.now k 0) (accepted_in lines.now) pairs }
{
    Tally {
        scenes: lines[0],
        cross: lines[1],
        a_in_b: lines[2],
        b_in_a: lines[3],
        apart: lines[4],
        refused_1: lines[5],
        refused_2: lines[6],
        refused_3: lines[7],
        refused_4: lines[8],
        refused_5: lines[9],
        refused_6: lines[10],
        refused_7: lines[11],
        refused_8: lines[12],
        refused_9: lines[13],
        refused_14: lines[14],
        accepted: accepted(lines),
        pairs,
    }
}

pub fn tally(block: &[u8]) -> Tally
    requires { length block.now ≤ most_bytes }
    ensures { result ≡ tally_of (marks_of block.now) }
{
    let mut lines: Lines = [0; Tally::LINES];
    let mut pairs = 0;
    let mut at = 0;
    // No range: a step is as long as the scene there.
    while at < block.len() {
        let s = read_scene(block, at);
        let m = mark_of(s);
        count_in(&mut lines, m.line);
        pairs += m.pairs;
        at += s.len();
    }
    tally_of(&lines, pairs)
}
