// An item of a text, as it is shown: its first bytes, with a question mark for each that a terminal may not print.
ghost use Rattle.std.specs.Prelude.{◌≡◌, map};
ghost use Rattle.print.specs.Put.{Put};
ghost use Rattle.off_words.specs.Shown.{shown_byte, shown};

use print::{byte, word};

fn shown_byte(c: u8) -> u8
    ensures { result ≡ shown_byte c }
{
    if c < b'!' {
        return b'?';
    }
    if c < 127 {
        return c;
    }
    b'?'
}

fn bytes(out: &mut [u8], at: usize, w: &[u8]) -> usize
    ensures { Put out.old at (map shown_byte w.now) out.new result }
{
    if out.len() <= at {
        return out.len();
    }
    let mut p = at;
    for c in w {
        p = byte(out, p, shown_byte(*c));
    }
    p
}

// No more than 24 bytes of it, and three dots for the others.
pub fn shown(out: &mut [u8], at: usize, w: &[u8]) -> usize
    ensures { Put out.old at (shown w.now) out.new result }
{
    if w.len() <= 24 {
        return bytes(out, at, w);
    }
    let p = bytes(out, at, &w[..24]);
    word(out, p, b"...")
}
