// The listing: every pierced pair once, into a lent list of numbers, three for each.
ghost use Rattle.std.specs.Prelude.{◌≡◌, Ok};
ghost use Rattle.judge.specs.Judge.{judged};
ghost use Rattle.scene.specs.View.{view_of};
ghost use Rattle.questions.specs.Answers.{listing_in, IsListed, IsPart};
ghost use Rattle.questions.specs.Listings.{PouredIf};

use scene::Refusal;
use survey_edges::{ENDS, Ends, Masks};
use survey_scene::{survey_of, write_read};
use survey_sides::Surveyor;

// Of an accepted scene.
fn write_pairs<E: Surveyor>(engine: E, s: &[u8], from: usize, all: bool, out: &mut [u16]) -> usize
    requires { judged s.now ≡ Ok tt }
    ensures { PouredIf (listing_in (view_of s.now)) from all out.old out.new result }
{
    let mut aends: Ends = [0; ENDS];
    let mut amasks: Masks = [0; ENDS];
    let mut bends: Ends = [0; ENDS];
    let mut bmasks: Masks = [0; ENDS];
    let t = survey_of(engine, s, &mut aends, &mut amasks, &mut bends, &mut bmasks);
    write_read(t, s, &aends, &amasks, &bends, &bmasks, from, all, out)
}

// The whole listing, or refusal 10 with the count.
pub fn listing<E: Surveyor>(engine: E, s: &[u8], out: &mut [u16]) -> Result<usize, Refusal>
    ensures { IsListed s.now out.old out.new result }
{
    judge::judge(s)?;
    let n = write_pairs(engine, s, 0, true, out);
    if n > out.len() / 3 {
        return Err(Refusal::ListTooShort(n));
    }
    Ok(n)
}

// The part of the listing from the pair numbered `from` on (from 0) for which the lent list has room; the answer counts the whole. A
// program prints a listing longer than its buffer part by part.
pub fn listing_part<E: Surveyor>(
    engine: E,
    s: &[u8],
    from: usize,
    out: &mut [u16],
) -> Result<usize, Refusal>
    ensures { IsPart s.now from out.old out.new result }
{
    judge::judge(s)?;
    Ok(write_pairs(engine, s, from, false, out))
}
