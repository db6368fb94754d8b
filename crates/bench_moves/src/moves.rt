// The moves in one scene: a group's of its own solid, and the lecturer's of the fixture.
ghost use Rattle.std.specs.Prelude.{◌≡◌};
ghost use Rattle.session.specs.Session.{scene};
ghost use Rattle.bench_moves.specs.Bench.{solids_of, own_fault, said, own_moved_of, number_fault, scene_moved};
ghost use Rattle.bench_moves.specs.Bench.{placed, placed_in, fixture_moved_of};

use crate::Fault;
use scene::{Refusal, Row, Scene, is_within};
use session::save::save;
use session::{Changed, Session};

// The vertices of a scene's two solids.
#[derive(Clone, Copy, Debug, PartialEq, Eq)]
pub struct Solids {
    pub own: u8,
    pub fixture: u8,
}

// A group's answer, and its session after it.
#[derive(Clone, Copy)]
pub struct Moved {
    pub answer: Result<(), Fault>,
    pub session: Session,
}

// None where a session holds no scene.
fn solids_of(s: Session) -> Option<Solids>
    ensures { result ≡ solids_of (scene s) }
{
    let mut b = [0u8; Scene::LONGEST];
    let j = save(s, &mut b);
    match j {
        Err(_) => None,
        Ok(()) => Some(Solids {
            own: b[2],
            fixture: b[4],
        }),
    }
}

// Refusals 1, 11 and 19 of a group's move.
fn own_fault(k: Option<Solids>, p: usize) -> Result<(), Fault>
    ensures { result ≡ own_fault k p }
{
    let Some(k) = k else {
        return Err(Fault::Scene(Refusal::Opening));
    };
    let own = usize::from(k.own);
    if !is_within(1, own + usize::from(k.fixture) + 1, p) {
        return Err(Fault::Scene(Refusal::NoSuchNumber));
    }
    if !is_within(1, own, p) {
        return Err(Fault::Shared(p));
    }
    Ok(())
}

fn said(j: Result<(), Refusal>) -> Result<(), Fault>
    ensures { result ≡ said j }
{
    Ok(j?)
}

// A vertex of the scene's own solid, by its point number, to v.
pub fn own_move(s: Session, p: usize, v: Row) -> Moved
    ensures { result ≡ own_moved_of s p v }
{
    if let Err(f) = own_fault(solids_of(s), p) {
        return Moved {
            answer: Err(f),
            session: s,
        };
    }
    let c = s.move_vertex(p, v);
    let j = c.answer;
    let t = c.session;
    Moved {
        answer: said(j),
        session: t,
    }
}

// Refusals 1 and 11 of the lecturer's move; else the solids that the number is one of.
fn number_fault(k: Option<Solids>, n: usize) -> Result<Solids, Refusal>
    ensures { result ≡ number_fault k n }
{
    let Some(k) = k else {
        return Err(Refusal::Opening);
    };
    if !is_within(1, usize::from(k.fixture) + 1, n) {
        return Err(Refusal::NoSuchNumber);
    }
    Ok(k)
}

// The scene's own move of the lecturer's point n.
fn scene_move(s: Session, k: Solids, n: usize, v: Row) -> Changed
    ensures { result ≡ scene_moved s k n v }
{
    let own = usize::from(k.own);
    if n <= usize::from(k.fixture) {
        return s.move_vertex(own + n, v);
    }
    s.move_far(v)
}

// A refusal of a row, with n for its place.
fn placed(n: usize, r: Refusal) -> Refusal
    ensures { result ≡ placed n r }
{
    match r {
        Refusal::Coordinate(_) => Refusal::Coordinate(n),
        Refusal::Weight(_) => Refusal::Weight(n),
        Refusal::FarAllZero(_) => Refusal::FarAllZero(n),
        _ => r,
    }
}

fn placed_in(n: usize, j: Result<(), Refusal>) -> Result<(), Refusal>
    ensures { result ≡ placed_in n j }
{
    match j {
        Ok(()) => Ok(()),
        Err(r) => Err(placed(n, r)),
    }
}

// Fixture vertex n, or behind those the far point, to v, in one scene.
pub fn fixture_move(s: Session, n: usize, v: Row) -> Changed
    ensures { result ≡ fixture_moved_of s n v }
{
    match number_fault(solids_of(s), n) {
        Err(r) => Changed {
            answer: Err(r),
            session: s,
        },
        Ok(k) => {
            let c = scene_move(s, k, n, v);
            let j = c.answer;
            let t = c.session;
            Changed {
                answer: placed_in(n, j),
                session: t,
            }
        }
    }
}
