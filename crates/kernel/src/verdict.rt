// The verdict: the first pierced pair; else the lowest vertex of A enclosed by B; else the lowest of B enclosed by A; else apart.
ghost use Rattle.std.specs.Prelude.{◌≡◌};
ghost use Rattle.questions.specs.Answers.{verdict_of};

use questions::Verdict;
use scene::Refusal;
use survey_scene::{first_or_enclosed, verdict_by};
use survey_sides::Surveyor;

pub fn verdict_of<E: Surveyor>(engine: E, s: &[u8]) -> Result<Verdict, Refusal>
    ensures { result ≡ verdict_of s.now }
{
    judge::judge(s)?;
    Ok(verdict_by(s, first_or_enclosed(engine, s)))
}
