// A session's steps: an operation done, the line that is said of it, and the scene at the end.
ghost use Rattle.std.specs.Prelude.{◌≡◌, ◌≤◌, length, take};
ghost use Rattle.print.specs.Put.{Put};
ghost use Rattle.print.specs.Text.{line};
ghost use Rattle.print_lines.specs.Lines.{counts_line};
ghost use Rattle.session.specs.Session.{scene};
ghost use Rattle.edit.specs.Steps.{step_of, told_of, usage_line, scene_within};

use crate::operations::Operation;
use print::{newline, next_number, next_word, word};
use questions::Counts;
use scene::{Numbered, Refusal};
use session::save::save;
use session::{Changed, Session};

pub fn step(s: Session, o: Operation) -> Changed
    ensures { result ≡ step_of s o }
{
    match o {
        Operation::Move(p, v) => s.move_vertex(p, v),
        Operation::Far(v) => s.move_far(v),
        Operation::Reverse(f) => s.reverse(f),
    }
}

#[tactic(auto, using(crate::specs::Laws::told_counts, crate::specs::Laws::told_refused))]
fn told(c: Changed) -> Result<Counts, Refusal>
    ensures { result ≡ told_of c }
{
    let a = c.answer;
    let s = c.session;
    a?;
    Ok(s.counts)
}

// Into out; the answer is the place behind.
pub fn line_of(out: &mut [u8], c: Changed) -> usize
    ensures { Put out.old 0 (line (counts_line (told_of c))) out.new result }
{
    print_lines::counts::counts(out, 0, told(c))
}

// The session's scene to the front of out; the answer is its length, 0 for the empty session.
#[tactic(auto, using(crate::specs::Written::scene_none, crate::specs::Written::scene_short, crate::specs::Written::scene_fits, crate::specs::Written::scene_front))]
pub fn scene_in(s: Session, out: &mut [u8]) -> usize
    ensures { (result ≤ length out.old) × (take result out.new ≡ scene_within (length out.old) (scene s)) }
{
    let saved = save(s, out);
    if let Err(_) = saved {
        return 0;
    }
    // Saving into no places tells how many there should be.
    let mut none = [0u8; 1];
    let needed = save(s, &mut none[..0]);
    match needed {
        Ok(()) => 0,
        Err(r) => r.place(),
    }
}

// Which word is wrong, into out; the answer is the place behind.
pub fn usage_of(out: &mut [u8], k: usize) -> usize
    ensures { Put out.old 0 (line (usage_line k)) out.new result }
{
    let p = word(out, 0, b"edit: word");
    let q = next_number(out, p, k);
    let e = next_word(
        out,
        q,
        b"is wrong or missing; usage: edit [move P X Y Z W | far X Y Z W | reverse F]... [FILE]",
    );
    newline(out, e)
}
