// The items of a text, and the whole numbers that they tell.
#![tactic(auto)]

ghost use Rattle.std.specs.Prelude.{◌≡◌, ◌≤◌, eqb, length};
ghost use Rattle.std.specs.List.{position};
ghost use Rattle.off_items.specs.Items.{separates, start_of, word_end, end_of};
ghost use Rattle.off_items.specs.Lines.{line_end};

pub mod numbers;

#[derive(Clone, Copy)]
pub struct Item {
    pub start: usize,
    pub end: usize,
}

fn separates(c: u8) -> bool
    ensures { result ≡ separates c }
{
    if c == b' ' {
        return true;
    }
    if c == b'\n' {
        return true;
    }
    c == b'#'
}

fn first_newline(text: &[u8]) -> Option<usize>
    ensures { result ≡ position (λ c. eqb c 10) text.now }
{
    text.iter().position(|c| *c == b'\n')
}

// Where the line that byte i is on ends: at its newline, or at the text's end.
fn line_end(text: &[u8], i: usize) -> usize
    requires { i ≤ length text.now }
    ensures { (result ≡ line_end text.now i) × (i ≤ result) × (result ≤ length text.now) }
{
    match first_newline(&text[i..]) {
        Some(k) => i + k,
        None => text.len(),
    }
}

// Where the first item from `at` on starts: at the text's end where there is none. A comment is passed at once, by its line's end.
fn start(text: &[u8], at: usize) -> usize
    requires { at ≤ length text.now }
    ensures { (result ≡ start_of text.now at) × (at ≤ result) × (result ≤ length text.now) }
{
    let mut i = at;
    while i < text.len() {
        let c = text[i];
        if !separates(c) {
            return i;
        }
        if c == b'#' {
            i = line_end(text, i + 1);
        } else {
            i += 1;
        }
    }
    i
}

fn first_separator(text: &[u8]) -> Option<usize>
    ensures { result ≡ position separates text.now }
{
    text.iter().position(|c| separates(*c))
}

// Where the item that starts at `start` ends.
fn end(text: &[u8], start: usize) -> usize
    requires { start ≤ length text.now }
    ensures { (result ≡ word_end text.now start) × (start ≤ result) × (result ≤ length text.now) }
{
    match first_separator(&text[start..]) {
        Some(k) => start + k,
        None => text.len(),
    }
}

// The first item from `at` on, empty and at the text's end where there is none.
pub fn next(text: &[u8], at: usize) -> Item
    requires { at ≤ length text.now }
    ensures { (result.start ≡ start_of text.now at) × (result.end ≡ end_of text.now at)
        × (at ≤ result.start) × (result.start ≤ result.end) × (result.end ≤ length text.now) }
{
    let i = start(text, at);
    Item {
        start: i,
        end: end(text, i),
    }
}
