// The tally over scenes that stand in files of their own: each is judged whole and counted, and there may be any number. Sums stop at the
// largest number of 64 bits, which no class reaches, so that a step asks nothing of what was counted before.
ghost use Rattle.std.specs.Prelude.{◌≡◌, ◌<◌};
ghost use Rattle.class_tally.specs.Counting.{lines as Counting·lines, told};
ghost use Rattle.class_tally.specs.Sums.{sum_of, raised};
ghost use Rattle.class_tally.specs.Files.{none, with_scene};

use crate::marks::{Lines, mark_of};
use crate::{Tally, marks};

// The lines of the report so far, and the pierced pairs of the accepted scenes.
#[derive(Clone, Copy, Debug, PartialEq, Eq)]
pub struct Files {
    pub lines: Lines,
    pub pairs: usize,
}

pub fn sum(x: usize, y: usize) -> usize
    ensures { result ≡ sum_of x y }
{
    x.saturating_add(y)
}

fn raise(lines: &mut Lines, k: usize)
    requires { k < Counting·lines }
    ensures { lines.new ≡ raised lines.old k }
{
    let n = lines[k];
    lines[k] = sum(n, 1);
}

// Before any scene.
pub fn none() -> Files
    ensures { result ≡ none }
{
    let lines = [0; Tally::LINES];
    Files { lines, pairs: 0 }
}

// One scene more, whatever its bytes are.
pub fn with_scene(f: Files, s: &[u8]) -> Files
    ensures { result ≡ with_scene f s.now }
{
    let m = mark_of(s);
    let k = m.line;
    let mut lines = f.lines;
    raise(&mut lines, 0);
    raise(&mut lines, k);
    Files {
        lines,
        pairs: sum(f.pairs, m.pairs),
    }
}

// What the scenes amount to.
pub fn tally(f: Files) -> Tally
    ensures { result ≡ told f.lines f.pairs }
{
    let lines = f.lines;
    marks::tally_of(&lines, f.pairs)
}
