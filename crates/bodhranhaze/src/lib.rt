// The questions to a scene as C asks them, of the plain engine: numbers for the answers, and 0 where a refused scene has none.
// `bodhranhaze_c` exports them; include/bodhranhaze.h declares them and says what the caller must keep.
#![tactic(auto)]

ghost use Rattle.std.specs.Prelude.{◌≡◌};
ghost use Rattle.judge.specs.Judge.{judged};
ghost use Rattle.questions.specs.Answers.{verdict_number, verdict_of};
ghost use Rattle.bodhranhaze.specs.Calls.{of_refusal, refusal_number, refusal_place, pairs_of, inside_of, IsListing};

use pierce_engine::Plain;
use questions::Verdict;
use scene::{Numbered, Refusal};

pub mod colours;
pub mod facts;
pub mod moves;
pub mod refusals;
pub mod vertices;

// The number of a refusal, 0 where there is none.
fn number_of<T: Copy, F: Numbered + Copy>(r: Result<T, F>) -> usize
    ensures { result ≡ of_refusal F.number r }
{
    match r {
        Ok(_) => 0,
        Err(f) => f.number(),
    }
}

// Its place.
fn place_of<T: Copy, F: Numbered + Copy>(r: Result<T, F>) -> usize
    ensures { result ≡ of_refusal F.place r }
{
    match r {
        Ok(_) => 0,
        Err(f) => f.place(),
    }
}

fn verdict_number(v: Result<Verdict, Refusal>) -> usize
    ensures { result ≡ verdict_number v }
{
    match v {
        Ok(Verdict::Cross(_, _, _)) => 0,
        Ok(Verdict::AInB(_)) => 1,
        Ok(Verdict::BInA(_)) => 2,
        Ok(Verdict::Apart) => 3,
        Err(_) => 4,
    }
}

// The number of the scene's refusal, 0 for an accepted scene.
pub fn bodhranhaze_refusal(s: &[u8]) -> usize
    ensures { result ≡ refusal_number (judged s.now) }
{
    number_of(judge::judge(s))
}

// Its place, 0 for an accepted scene.
pub fn bodhranhaze_place(s: &[u8]) -> usize
    ensures { result ≡ refusal_place (judged s.now) }
{
    place_of(judge::judge(s))
}

// 0 cross, 1 a-in-b, 2 b-in-a, 3 apart, 4 refused.
pub fn bodhranhaze_verdict(s: &[u8]) -> usize
    ensures { result ≡ verdict_number (verdict_of s.now) }
{
    verdict_number(kernel::verdict::verdict_of(Plain, s))
}

// How many pierced pairs there are.
pub fn bodhranhaze_pairs(s: &[u8]) -> usize
    ensures { result ≡ pairs_of s.now }
{
    let mut none = [0u16; 1];
    let l = kernel::lists::listing_part(Plain, s, 0, &mut none);
    match l {
        Ok(n) => n,
        Err(_) => 0,
    }
}

// How many vertices of the solid, 1 for A and 2 for B, the other one encloses.
pub fn bodhranhaze_inside(s: &[u8], solid: usize) -> usize
    ensures { result ≡ inside_of s.now solid }
{
    let e = kernel::inside::inside(Plain, s, solid);
    match e {
        Ok(n) => n,
        Err(_) => 0,
    }
}

// The pairs, where the list has room for all; how many there are in any case.
pub fn bodhranhaze_listing(s: &[u8], list: &mut [u16]) -> usize
    ensures { IsListing s.now list.old list.new result }
{
    if let Ok(n) = kernel::lists::listing(Plain, s, list) {
        return n;
    }
    bodhranhaze_pairs(s)
}
