// Everything that is asked of a whole scene, for C, in one call: the scene is judged, decoded and surveyed once.
ghost use Rattle.std.specs.Prelude.{◌≡◌, ◌≤◌, length};
ghost use Rattle.bodhranhaze.specs.Facts.{room_for, known, nothing_known, told, FactsPut, IsFacts};

use crate::{number_of, place_of, verdict_number};
use kernel::facts::survey;
use pierce_engine::Plain;
use questions::{Counts, Facts};
use scene::Refusal;

// What is told behind a refusal's number and place: the verdict's number, the three counts, the two words.
#[derive(Clone, Copy)]
struct Told {
    verdict: usize,
    counts: Counts,
    a_inside: u64,
    b_inside: u64,
}

// Of an accepted scene.
fn known(f: Facts) -> Told
    ensures { result ≡ known f }
{
    Told {
        verdict: verdict_number(Ok(f.verdict)),
        counts: f.counts,
        a_inside: f.a_inside,
        b_inside: f.b_inside,
    }
}

// Of a refused one.
fn nothing_known(r: Refusal) -> Told
    ensures { result ≡ nothing_known r }
{
    Told {
        verdict: verdict_number(Err(r)),
        counts: Counts {
            pairs: 0,
            a_in_b: 0,
            b_in_a: 0,
        },
        a_inside: 0,
        b_inside: 0,
    }
}

// The eight numbers in front.
fn tell(facts: &mut [u64], number: usize, place: usize, t: Told)
    requires { 8 ≤ length facts.old }
    ensures { facts.new ≡ told number place t facts.old }
{
    let c = t.counts;
    facts[0] = number as u64;
    facts[1] = place as u64;
    facts[2] = t.verdict as u64;
    facts[3] = c.pairs as u64;
    facts[4] = c.a_in_b as u64;
    facts[5] = c.b_in_a as u64;
    facts[6] = t.a_inside;
    facts[7] = t.b_inside;
}

// What is told, and the refusal's number, 0 where there is none.
fn say(facts: &mut [u64], j: Result<(), Refusal>, t: Told) -> usize
    requires { 8 ≤ length facts.old }
    ensures { FactsPut j t facts.old facts.new result }
{
    let n = number_of(j);
    tell(facts, n, place_of(j), t);
    n
}

// 10 with the count where a list of so many places has no room for n pairs.
fn room_for(n: usize, places: usize) -> Result<(), Refusal>
    ensures { result ≡ room_for n places }
{
    if n > places / 3 {
        return Err(Refusal::ListTooShort(n));
    }
    Ok(())
}

// The number of the refusal: 13 before all others where there are not eight places for facts; the scene's own; or 10, with all facts told,
// where the list has no room. What has no room keeps its contents.
pub fn bodhranhaze_survey(s: &[u8], list: &mut [u16], facts: &mut [u64]) -> usize
    ensures { IsFacts s.now list.old list.new facts.old facts.new result }
{
    if facts.len() < 8 {
        return 13;
    }
    match survey(Plain, s, list) {
        Err(r) => say(facts, Err(r), nothing_known(r)),
        Ok(f) => say(facts, room_for(f.counts.pairs, list.len()), known(f)),
    }
}
