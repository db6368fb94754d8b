// A bench: two groups at one fixture. Each group has its scene, whose solid B and far point are shared; each operation hands the bench
// back.
#![tactic(auto)]

ghost use Rattle.std.specs.Prelude.{◌≡◌};
ghost use Rattle.session.specs.Session.{empty};
ghost use Rattle.bench_moves.specs.Bench.{fault_number, fault_place, session_of, with_session, open_fault};
ghost use Rattle.bench_moves.specs.Bench.{opened_of, group_moved_of, lecturer_moved_of};
ghost use Rattle.bench_moves.specs.declared.Fault.TheVariants.{Scene};

use scene::{Numbered, Refusal, Row};
use session::Session;

mod fixture;
mod moves;

// The two groups' sessions; both are empty where the bench is.
#[derive(Clone, Copy)]
pub struct Bench {
    one: Session,
    two: Session,
}

#[derive(Clone, Copy)]
pub enum Group {
    One,
    Two,
}

// Why an operation is refused: a refusal of a scene, 19 for a point that is not the group's own, 22 for scenes that share no fixture.
#[derive(Clone, Copy)]
pub enum Fault {
    Scene(Refusal),
    Shared(usize),
    Differing,
}

impl From<Refusal> for Fault {
    ghost from_gives = { λ r f. f ≡ Scene r };

    fn from(r: Refusal) -> Fault {
        Fault::Scene(r)
    }
}

// An operation's answer, and the bench after it.
#[derive(Clone, Copy)]
pub struct Answered {
    pub answer: Result<(), Fault>,
    pub bench: Bench,
}

impl Numbered for Fault {
    ghost number = { fault_number };

    ghost place = { fault_place };

    fn number(self) -> usize {
        match self {
            Fault::Scene(r) => r.number(),
            Fault::Shared(_) => 19,
            Fault::Differing => 22,
        }
    }

    fn place(self) -> usize {
        match self {
            Fault::Scene(r) => r.place(),
            Fault::Shared(p) => p,
            Fault::Differing => 0,
        }
    }
}

// The first scene's own refusal, then the second's, then 22.
fn open_fault(s: &[u8], t: &[u8]) -> Result<(), Fault>
    ensures { result ≡ open_fault s.now t.now }
{
    judge::judge(s)?;
    judge::judge(t)?;
    if !fixture::is_shared(s, t) {
        return Err(Fault::Differing);
    }
    Ok(())
}

// No bytes are no scene.
fn nothing() -> Session
    ensures { result ≡ empty }
{
    let b = [0u8; 1];
    let c = session::open(&b[..0]);
    c.session
}

pub fn open(s: &[u8], t: &[u8]) -> Answered
    ensures { result ≡ opened_of s.now t.now }
{
    if let Err(f) = open_fault(s, t) {
        return Answered {
            answer: Err(f),
            bench: Bench {
                one: nothing(),
                two: nothing(),
            },
        };
    }
    let a = session::open(s);
    let b = session::open(t);
    let one = a.session;
    let two = b.session;
    Answered {
        answer: Ok(()),
        bench: Bench { one: one, two: two },
    }
}

impl Bench {
    // A group's session: its scene to be saved or asked, and its counts.
    pub fn session(self, g: Group) -> Session
        ensures { result ≡ session_of self g }
    {
        match g {
            Group::One => self.one,
            Group::Two => self.two,
        }
    }

    fn with(self, g: Group, s: Session) -> Bench
        ensures { result ≡ with_session self g s }
    {
        let one = self.one;
        let two = self.two;
        match g {
            Group::One => Bench { one: s, two: two },
            Group::Two => Bench { one: one, two: s },
        }
    }

    // A vertex of the group's own solid, by its point number, to v.
    pub fn group_move(self, g: Group, p: usize, v: Row) -> Answered
        ensures { result ≡ group_moved_of self g p v }
    {
        let m = moves::own_move(self.session(g), p, v);
        let answer = m.answer;
        let s = m.session;
        Answered {
            answer: answer,
            bench: self.with(g, s),
        }
    }

    // Fixture vertex n, or behind those the far point, to v, in both scenes.
    pub fn lecturer_move(self, n: usize, v: Row) -> Answered
        ensures { result ≡ lecturer_moved_of self n v }
    {
        let a = moves::fixture_move(self.session(Group::One), n, v);
        let b = moves::fixture_move(self.session(Group::Two), n, v);
        let one = a.session;
        let two = b.session;
        let j = a.answer;
        match j {
            Err(r) => Answered {
                answer: Err(Fault::Scene(r)),
                bench: self,
            },
            Ok(()) => Answered {
                answer: Ok(()),
                bench: Bench { one: one, two: two },
            },
        }
    }
}
