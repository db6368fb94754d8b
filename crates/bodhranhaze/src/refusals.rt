// Why the questions beside the verdict are refused, for C: a number, or 0 where there is an answer. The calls that count say nothing of it.
ghost use Rattle.std.specs.Prelude.{◌≡◌};
ghost use Rattle.bodhranhaze.specs.Refusals.{inside_refusal, listing_refusal};

use crate::number_of;
use pierce_engine::Plain;
use scene::Numbered;

// The scene's own refusal, or 11 for a solid that is neither 1 nor 2.
pub fn bodhranhaze_inside_refusal(s: &[u8], solid: usize) -> usize
    ensures { result ≡ inside_refusal s.now solid }
{
    number_of(kernel::inside::inside(Plain, s, solid))
}

// The scene's own refusal, or 10 where a list of so many places has no room for the listing.
pub fn bodhranhaze_listing_refusal(s: &[u8], places: usize) -> usize
    ensures { result ≡ listing_refusal s.now places }
{
    if let Err(r) = judge::judge(s) {
        return r.number();
    }
    if crate::bodhranhaze_pairs(s) > places / 3 {
        return 10;
    }
    0
}
