// Two object texts and a far point made into a scene in a lent buffer.
#![tactic(auto)]

ghost use Rattle.std.specs.Prelude.{◌≡◌, length};
ghost use Rattle.off_solids.specs.Fitted.{scene_of};
ghost use Rattle.off_scene.specs.Made.{number_of, place_of, fault_in, placed, judged_of, counted_of, second_of, made_of, Makes};
ghost use Rattle.off_scene.specs.Counts.{head_fits};
ghost use Rattle.off_scene.specs.declared.Fault.TheVariants.{OfScene};

use off_form::{Flaw, Head, form, head_of};
use off_solids::points::Point;
use off_solids::whole::put_scene;
use scene::write::copy;
use scene::{Numbered, Refusal, Scene, is_within};

// Why there is no scene: an item outside the form, a face that is not a triangle, each with its offset; or a refusal of the scene's.
#[derive(Clone, Copy)]
pub enum Fault {
    Outside(usize),
    Sides(usize),
    OfScene(Refusal),
}

impl From<Flaw> for Fault {
    ghost from_gives = { λ f r. r ≡ fault_in 0 f };

    fn from(f: Flaw) -> Fault {
        match f {
            Flaw::Outside(p) => Fault::Outside(p),
            Flaw::Sides(p) => Fault::Sides(p),
        }
    }
}

impl From<Refusal> for Fault {
    ghost from_gives = { λ r f. f ≡ OfScene r };

    fn from(r: Refusal) -> Fault {
        Fault::OfScene(r)
    }
}

impl Numbered for Fault {
    ghost number = { number_of };

    ghost place = { place_of };

    fn number(self) -> usize {
        match self {
            Fault::Outside(_) => 20,
            Fault::Sides(_) => 21,
            Fault::OfScene(r) => r.number(),
        }
    }

    fn place(self) -> usize {
        match self {
            Fault::Outside(p) => p,
            Fault::Sides(p) => p,
            Fault::OfScene(r) => r.place(),
        }
    }
}

// The counts are within the limits.
fn counts_fit(h: Head) -> bool
    ensures { result ≡ head_fits h }
{
    if !is_within(Scene::LEAST_VERTICES, Scene::MOST_VERTICES, h.vertices) {
        return false;
    }
    is_within(Scene::LEAST_FACES, Scene::MOST_FACES, h.faces)
}

// The scene s in the lent buffer, where there is room.
fn placed(s: &[u8], out: &mut [u8]) -> Result<usize, Fault>
    ensures { Makes (placed s.now (length out.old)) s.now out.old out.new result }
{
    let n = s.len();
    if out.len() < n {
        return Err(Fault::OfScene(Refusal::BufferTooShort(n)));
    }
    copy(s, out);
    Ok(n)
}

fn judged(s: &[u8], out: &mut [u8]) -> Result<usize, Fault>
    ensures { Makes (judged_of s.now (length out.old)) s.now out.old
        out.new result }
{
    judge::judge(s)?;
    placed(s, out)
}

// Two texts of the form. The scene is made in bytes of its own, so that a refusal leaves the lent ones as they are.
fn counted(a: &[u8], b: &[u8], far: Point, out: &mut [u8]) -> Result<usize, Fault>
    ensures { Makes (counted_of a.now b.now far (length out.old))
        (scene_of a.now b.now far) out.old out.new result }
{
    let h = head_of(a);
    let g = head_of(b);
    if !counts_fit(h) {
        return Err(Fault::OfScene(Refusal::Counts));
    }
    if !counts_fit(g) {
        return Err(Fault::OfScene(Refusal::Counts));
    }
    let mut own = [0u8; Scene::LONGEST];
    let n = put_scene(&mut own, a, h, b, g, far);
    judged(&own[..n], out)
}

fn second(a: &[u8], b: &[u8], far: Point, out: &mut [u8]) -> Result<usize, Fault>
    ensures { Makes (second_of a.now b.now far (length out.old))
        (scene_of a.now b.now far) out.old out.new result }
{
    match form(b) {
        Ok(_) => counted(a, b, far, out),
        Err(Flaw::Outside(p)) => Err(Fault::Outside(a.len() + p)),
        Err(Flaw::Sides(p)) => Err(Fault::Sides(a.len() + p)),
    }
}

// The scene of two texts and a far point, at the front of the lent buffer, and its length; or the first refusal, which leaves the buffer as
// it is.
pub fn scene_of(a: &[u8], b: &[u8], far: Point, out: &mut [u8]) -> Result<usize, Fault>
    ensures { Makes (made_of a.now b.now far (length out.old))
        (scene_of a.now b.now far) out.old out.new result }
{
    form(a)?;
    second(a, b, far, out)
}
