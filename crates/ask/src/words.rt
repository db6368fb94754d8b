// The question on the command line: its name, its numbers, and behind them the file.
ghost use Rattle.std.specs.Prelude.{◌<◌};

use cli::word_at;
use std::rt::Env;

#[derive(Clone, Copy)]
pub enum Question {
    Judge,
    Sign(usize, usize, usize, usize),
    Pierces(usize, usize, usize),
    Mask(usize, usize, usize),
    Enclosed(usize),
    Verdict,
    Record(usize),
    Counts,
    Listing,
    Lent(usize),
    Why,
    Clean,
}

// Why nothing is asked: the name is no question's, or this word is no number, or there is none.
#[derive(Clone, Copy)]
pub enum Unasked {
    Unknown,
    NoNumber(usize),
}

// The longest word that the system passes on.
const WORD: usize = 131072;

// n with a digit d behind it. What comes near the largest number counts as the largest: no scene has so many of anything.
fn with_digit(n: usize, d: usize) -> usize
    requires { d < 10 }
{
    if n < usize::MAX / 10 {
        n * 10 + d
    } else {
        usize::MAX
    }
}

// The whole number that a word of digits writes.
pub fn number_in(word: &[u8]) -> Option<usize> {
    if word.len() == 0 {
        return None;
    }
    let mut n: usize = 0;
    for b in word {
        if *b < b'0' || *b > b'9' {
            return None;
        }
        n = with_digit(n, (*b - b'0') as usize);
    }
    Some(n)
}

fn number_at(rt: &HostRuntime, i: usize) -> Option<usize> {
    let mut word = [0u8; WORD];
    let n = rt.arg(i, &mut word).ok()?;
    number_in(&word[..n])
}

// The number that the question asks for.
fn asked_number(rt: &HostRuntime, i: usize) -> Result<usize, Unasked> {
    number_at(rt, i).ok_or(Unasked::NoNumber(i))
}

fn without_number(word: &[u8]) -> Result<Question, Unasked> {
    match word {
        b"judge" => Ok(Question::Judge),
        b"verdict" => Ok(Question::Verdict),
        b"counts" => Ok(Question::Counts),
        b"listing" => Ok(Question::Listing),
        b"why" => Ok(Question::Why),
        b"clean" => Ok(Question::Clean),
        _ => Err(Unasked::Unknown),
    }
}

// The number is word i.
fn with_one(rt: &HostRuntime, word: &[u8], i: usize) -> Result<Question, Unasked> {
    let n = asked_number(rt, i)?;
    match word {
        b"enclosed" => Ok(Question::Enclosed(n)),
        b"record" => Ok(Question::Record(n)),
        _ => Ok(Question::Lent(n)),
    }
}

// The numbers are word i and those behind it.
fn with_three(rt: &HostRuntime, word: &[u8], i: usize) -> Result<Question, Unasked>
    requires { i < 10 }
{
    let u = asked_number(rt, i)?;
    let v = asked_number(rt, i + 1)?;
    let k = asked_number(rt, i + 2)?;
    match word {
        b"mask" => Ok(Question::Mask(u, v, k)),
        _ => Ok(Question::Pierces(u, v, k)),
    }
}

fn with_four(rt: &HostRuntime, i: usize) -> Result<Question, Unasked>
    requires { i < 10 }
{
    let a = asked_number(rt, i)?;
    let b = asked_number(rt, i + 1)?;
    let c = asked_number(rt, i + 2)?;
    let d = asked_number(rt, i + 3)?;
    Ok(Question::Sign(a, b, c, d))
}

// How many numbers a question has. That of `listing` may be left out: a word behind it that is no number is the file.
fn numbers(rt: &HostRuntime, word: &[u8], i: usize) -> usize
    ensures { result < 5 }
{
    match word {
        b"enclosed" | b"record" => 1,
        b"pierces" | b"mask" => 3,
        b"sign" => 4,
        b"listing" if number_at(rt, i).is_some() => 1,
        _ => 0,
    }
}

// How many words the question whose name is word i has, with its name.
pub fn count_at(rt: &HostRuntime, i: usize) -> usize
    requires { i < 9 }
    ensures { result < 6 }
{
    // A word that is longer than any name is read as none.
    let mut word = [0u8; 16];
    let n = word_at(rt, i, &mut word);
    numbers(rt, &word[..n], i + 1) + 1
}

// The question whose name is word i.
pub fn asked_at(rt: &HostRuntime, i: usize) -> Result<Question, Unasked>
    requires { i < 9 }
{
    let mut word = [0u8; 16];
    let n = word_at(rt, i, &mut word);
    let count = count_at(rt, i);
    match count {
        1 => without_number(&word[..n]),
        2 => with_one(rt, &word[..n], i + 1),
        4 => with_three(rt, &word[..n], i + 1),
        _ => with_four(rt, i + 1),
    }
}
