// The judge of a scene's bytes: accepted, or the first refusal in the order of checking.
#![tactic(auto)]

ghost use Rattle.std.specs.Prelude.{◌≡◌};
ghost use Rattle.judge.specs.Judge.{judged};

use scene::Refusal;

mod closed;
mod header;
mod points;
mod records;
mod words;

// Refusals 1, 2, 3; then 4 to 7 and 14 record by record; then 8; then 9.
pub fn judge(s: &[u8]) -> Result<(), Refusal>
    ensures { result ≡ judged s.now }
{
    header::header_fault(s)?;
    records::records_fault(s)?;
    closed::solids_fault(s)
}
