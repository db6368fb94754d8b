// Where a byte leads in a form: to its end, where it does not fit.
ghost use Rattle.std.specs.Prelude.{◌≡◌, ◌<◌, length};
ghost use Rattle.class_read.specs.Totals.{turned, met_at, first_at, more_at, onward};

use crate::is_letter;
use off_items::numbers::is_digit;
use scene::read::byte;

// From a report's end to the start of the next.
fn turn(form: &[u8], p: usize) -> usize
    ensures { result ≡ turned form.now p }
{
    if byte(form, p) == 124 { 0 } else { p }
}

// A byte that stands as it is.
fn met(form: &[u8], at: usize, b: u8) -> usize
    ensures { result ≡ met_at form.now at b }
{
    if at < form.len() {
        if form[at] == b {
            return turn(form, at + 1);
        }
    }
    form.len()
}

fn first(form: &[u8], at: usize, b: u8) -> usize
    requires { at < length form.now }
    ensures { result ≡ first_at form.now at b }
{
    if is_digit(b) { at + 1 } else { form.len() }
}

fn more(form: &[u8], at: usize, b: u8) -> usize
    requires { at < length form.now }
    ensures { result ≡ more_at form.now at b }
{
    if is_digit(b) {
        at
    } else {
        met(form, at + 1, b)
    }
}

pub fn onward(form: &[u8], at: usize, b: u8) -> usize
    ensures { result ≡ onward form.now at b }
{
    if at >= form.len() {
        return form.len();
    }
    let c = byte(form, at);
    if c == 64 {
        return first(form, at, b);
    }
    if is_letter(c) {
        return more(form, at, b);
    }
    met(form, at, b)
}
