// The fit light: the colour of a scene's verdict, and sixteen lent bytes in which the colours are counted.
#![tactic(auto)]

ghost use Rattle.std.specs.Prelude.{◌≡◌, ◌+◌, ◌<◌, ◌≤◌, length};
ghost use Rattle.questions.specs.Answers.{verdict_of};
ghost use Rattle.light.specs.Light.{light_number, colour_of, word, put, total, is_full, more, IsLight};

use pierce_engine::Plain;
use questions::Verdict;

// The counts hold this many answers.
pub const MOST: u64 = 1000000;

#[derive(Clone, Copy, Debug, PartialEq, Eq)]
pub enum Light {
    Green,
    Amber,
    Red,
    Dark,
}

// The one refusal of the light's own: the counts are not sixteen bytes, or are full.
#[derive(Clone, Copy, Debug, PartialEq, Eq)]
pub enum LightError {
    Uncounted,
}

pub fn number(l: Result<Light, LightError>) -> usize
    ensures { result ≡ light_number l }
{
    match l {
        Ok(Light::Green) => 0,
        Ok(Light::Amber) => 1,
        Ok(Light::Red) => 2,
        Ok(Light::Dark) => 3,
        Err(LightError::Uncounted) => 16,
    }
}

// Shows the light, and counts its colour.
pub fn light_of(s: &[u8], counts: &mut [u8]) -> Result<Light, LightError>
    ensures { IsLight s.now counts.old counts.new result }
{
    if is_full(counts) {
        return Err(LightError::Uncounted);
    }
    let l = colour(s);
    count_one(counts, number(Ok(l)));
    Ok(l)
}

// The colour of the verdict.
fn colour(s: &[u8]) -> Light
    ensures { result ≡ colour_of (verdict_of s.now) }
{
    let v = kernel::verdict::verdict_of(Plain, s);
    match v {
        Ok(Verdict::Cross(_, _, _)) => Light::Red,
        Ok(Verdict::AInB(_)) => Light::Amber,
        Ok(Verdict::BInA(_)) => Light::Amber,
        Ok(Verdict::Apart) => Light::Green,
        Err(_) => Light::Dark,
    }
}

// Whether the counts are not sixteen bytes, or already add up to the most.
fn is_full(counts: &[u8]) -> bool
    ensures { result ≡ is_full counts.now }
{
    if counts.len() != 16 {
        return true;
    }
    MOST <= sum(counts)
}

// The sum of the four counts; each has 32 bits, so that it needs more.
fn sum(counts: &[u8]) -> u64
    requires { length counts.now ≡ 16 }
    ensures { result ≡ total counts.now }
{
    read_word(counts, 0) + read_word(counts, 4) + read_word(counts, 8) + read_word(counts, 12)
}

// Adds one to the count of colour k.
fn count_one(counts: &mut [u8], k: usize)
    requires { (length counts.old ≡ 16) × (k < 4) }
    ensures { counts.new ≡ more counts.old k }
{
    let n = read_word(counts, 4 * k);
    write_word(counts, 4 * k, n + 1);
}

// The four bytes at i, low byte first.
fn read_word(b: &[u8], i: usize) -> u64
    requires { i + 4 ≤ length b.now }
    ensures { (result ≡ word b.now i) × (result < 4294967296) }
{
    u64::from(u32::from_le_bytes([b[i], b[i + 1], b[i + 2], b[i + 3]]))
}

fn write_word(b: &mut [u8], i: usize, n: u64)
    requires { i + 4 ≤ length b.old }
    ensures { b.new ≡ put b.old i n }
{
    let w = n.to_le_bytes();
    b[i] = w[0];
    b[i + 1] = w[1];
    b[i + 2] = w[2];
    b[i + 3] = w[3];
}
