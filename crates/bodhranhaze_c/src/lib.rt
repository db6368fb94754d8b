// The calls of include/bodhranhaze.h: each is the function of the library `bodhranhaze` that has its name, and says the same.
// The header says what the caller must keep.
#![tactic(auto)]

ghost use Rattle.std.specs.Prelude.{◌≡◌, ◌-◌};
ghost use Rattle.scene.specs.Write.{row_put};
ghost use Rattle.judge.specs.Judge.{judged};
ghost use Rattle.questions.specs.Answers.{verdict_number, verdict_of};
ghost use Rattle.session.specs.Session.{reversed_in};
ghost use Rattle.session.specs.Place.{move_fault, move_far_fault, reverse_fault};
ghost use Rattle.doubles.specs.Taken.{taken_of};
ghost use Rattle.bodhranhaze.specs.Calls.{refusal_number, refusal_place, pairs_of, inside_of, IsListing};
ghost use Rattle.bodhranhaze.specs.Refusals.{inside_refusal, listing_refusal};
ghost use Rattle.bodhranhaze.specs.Facts.{IsFacts};
ghost use Rattle.bodhranhaze.specs.Moves.{row_of, IsAnswered};
ghost use Rattle.bodhranhaze.specs.Vertices.{vertex, taken_place, IsTake};
ghost use Rattle.bodhranhaze.specs.Colours.{IsShown};

// The number of the scene's refusal, 0 for an accepted scene.
#[unsafe(no_mangle)]
pub extern "C" fn bodhranhaze_refusal(s: &[u8]) -> usize
    ensures { result ≡ refusal_number (judged s.now) }
{
    bodhranhaze::bodhranhaze_refusal(s)
}

// Its place, 0 for an accepted scene.
#[unsafe(no_mangle)]
pub extern "C" fn bodhranhaze_place(s: &[u8]) -> usize
    ensures { result ≡ refusal_place (judged s.now) }
{
    bodhranhaze::bodhranhaze_place(s)
}

// 0 cross, 1 a-in-b, 2 b-in-a, 3 apart, 4 refused.
#[unsafe(no_mangle)]
pub extern "C" fn bodhranhaze_verdict(s: &[u8]) -> usize
    ensures { result ≡ verdict_number (verdict_of s.now) }
{
    bodhranhaze::bodhranhaze_verdict(s)
}

// How many pierced pairs there are.
#[unsafe(no_mangle)]
pub extern "C" fn bodhranhaze_pairs(s: &[u8]) -> usize
    ensures { result ≡ pairs_of s.now }
{
    bodhranhaze::bodhranhaze_pairs(s)
}

// How many vertices of the solid, 1 for A and 2 for B, the other one encloses.
#[unsafe(no_mangle)]
pub extern "C" fn bodhranhaze_inside(s: &[u8], solid: usize) -> usize
    ensures { result ≡ inside_of s.now solid }
{
    bodhranhaze::bodhranhaze_inside(s, solid)
}

// The pairs, where the list has room for all; how many there are in any case.
#[unsafe(no_mangle)]
pub extern "C" fn bodhranhaze_listing(s: &[u8], list: &mut [u16]) -> usize
    ensures { IsListing s.now list.old list.new result }
{
    bodhranhaze::bodhranhaze_listing(s, list)
}

// Why `bodhranhaze_inside` says 0: the scene's own refusal, or 11 for a solid that is neither 1 nor 2.
#[unsafe(no_mangle)]
pub extern "C" fn bodhranhaze_inside_refusal(s: &[u8], solid: usize) -> usize
    ensures { result ≡ inside_refusal s.now solid }
{
    bodhranhaze::refusals::bodhranhaze_inside_refusal(s, solid)
}

// The scene's own refusal, or 10 where a list of so many places has no room for the listing.
#[unsafe(no_mangle)]
pub extern "C" fn bodhranhaze_listing_refusal(s: &[u8], places: usize) -> usize
    ensures { result ≡ listing_refusal s.now places }
{
    bodhranhaze::refusals::bodhranhaze_listing_refusal(s, places)
}

// Everything that is asked of a whole scene, in one call; the number of the refusal.
#[unsafe(no_mangle)]
pub extern "C" fn bodhranhaze_survey(s: &[u8], list: &mut [u16], facts: &mut [u64]) -> usize
    ensures { IsFacts s.now list.old list.new facts.old facts.new result }
{
    bodhranhaze::facts::bodhranhaze_survey(s, list, facts)
}

// A vertex, by its point number.
#[unsafe(no_mangle)]
pub extern "C" fn bodhranhaze_move(s: &mut [u8], p: usize, x: i64, y: i64, z: i64, w: i64) -> usize
    ensures { IsAnswered (move_fault s.old p (row_of x y z w)) s.old (row_put s.old p (row_of x y z w))
        s.new result }
{
    bodhranhaze::moves::bodhranhaze_move(s, p, x, y, z, w)
}

// The far point.
#[unsafe(no_mangle)]
pub extern "C" fn bodhranhaze_move_far(s: &mut [u8], x: i64, y: i64, z: i64, w: i64) -> usize
    ensures { IsAnswered (move_far_fault s.old (row_of x y z w)) s.old (row_put s.old 0 (row_of x y z w))
        s.new result }
{
    bodhranhaze::moves::bodhranhaze_move_far(s, x, y, z, w)
}

// A face, its first and third corners swapped.
#[unsafe(no_mangle)]
pub extern "C" fn bodhranhaze_reverse(s: &mut [u8], f: usize) -> usize
    ensures { IsAnswered (reverse_fault s.old f) s.old (reversed_in s.old s.old (f - 1))
        s.new result }
{
    bodhranhaze::moves::bodhranhaze_reverse(s, f)
}

// Writes the nine bytes of the vertex's record and answers 0; or the refusal's number, and nothing is written.
#[unsafe(no_mangle)]
pub extern "C" fn bodhranhaze_take(x: f64, y: f64, z: f64, w: f64, out: &mut [u8]) -> usize
    ensures { IsTake (vertex x y z w) out.old out.new result }
{
    bodhranhaze::vertices::bodhranhaze_take(x, y, z, w, out)
}

// The place of the vertex's own refusal, 1 to 4; 0 where it is taken.
#[unsafe(no_mangle)]
pub extern "C" fn bodhranhaze_take_place(x: f64, y: f64, z: f64, w: f64) -> usize
    ensures { result ≡ taken_place (taken_of (vertex x y z w)) }
{
    bodhranhaze::vertices::bodhranhaze_take_place(x, y, z, w)
}

// Shows the light of a scene, and counts its colour in the sixteen lent bytes.
#[unsafe(no_mangle)]
pub extern "C" fn bodhranhaze_light(s: &[u8], counts: &mut [u8]) -> usize
    ensures { IsShown s.now counts.old counts.new result }
{
    bodhranhaze::colours::bodhranhaze_light(s, counts)
}
