// The fit light, for C: a colour's number, or 16.
ghost use Rattle.bodhranhaze.specs.Colours.{IsShown};

// Shows the light of a scene, and counts its colour in the sixteen lent bytes.
pub fn bodhranhaze_light(s: &[u8], counts: &mut [u8]) -> usize
    ensures { IsShown s.now counts.old counts.new result }
{
    light::number(light::light_of(s, counts))
}
