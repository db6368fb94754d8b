// An input that is no scene at all but a text, and what makes a scene of it.
ghost use Rattle.print_why.specs.Said.{Said};

use print::word;
use scene::{Scene, read};

// So many of the first bytes are looked at.
const LOOKED: usize = 32;

// No control byte but tab, newline and carriage return. (A byte order mark and letters beyond ASCII are above them.)
fn is_of_text(c: u8) -> bool {
    matches!(c, b'\t' | b'\n' | b'\r') || c >= 32
}

fn is_plain(s: &[u8]) -> bool {
    s.iter().take(LOOKED).all(|c| is_of_text(*c))
}

// Not even the mark of a scene comes first.
pub fn is_text(s: &[u8]) -> bool {
    if read::two(s, 0) == Scene::SC {
        return false;
    }
    is_plain(s)
}

// A keyword as OFF, 4OFF or COFF, perhaps behind a comment.
fn is_off(s: &[u8]) -> bool {
    s.windows(3).take(LOOKED).any(|w| w == b"OFF".as_slice())
}

pub fn text(s: &[u8], out: &mut [u8], at: usize) -> usize
    ensures { Said out.old at out.new result }
{
    if is_off(s) {
        return word(
            out,
            at,
            b"this looks like an OFF text, not a scene: off FIRST SECOND X Y Z W makes a scene of two of them",
        );
    }
    word(
        out,
        at,
        b"this looks like a text, not a scene: python3 make.py scene FILE makes a scene of it",
    )
}
