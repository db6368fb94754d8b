// A session: an accepted scene and its counts, held and changed by value. Each operation hands the session back.
#![tactic(auto)]

ghost use Rattle.std.specs.Prelude.{◌≡◌, ◌+◌, ◌≤◌, ◌<◌, take};
ghost use Rattle.scene.specs.Limits.{limits, longest};
ghost use Rattle.scene.specs.Records.{point_start, face_start};
ghost use Rattle.scene.specs.Tables.{face_at};
ghost use Rattle.scene.specs.Write.{RowFits, FaceFits, row_put};
ghost use Rattle.questions.specs.Answers.{counted_of};
ghost use Rattle.session.specs.Session.{counts_by, empty, fresh, reversed_face, reversed_in, opened, moved_of, far_moved_of, reversed_of};
ghost use Rattle.session.specs.Laws.{Whole};

use kernel::counts::count;
use pierce_engine::Plain;
use questions::Counts;
use scene::read::face_at;
use scene::write::copy;
use scene::{Face, Refusal, Row, Scene, offsets, write};

pub mod faults;
pub mod place;
pub mod save;

// The scene's bytes with zeros behind them, how many they are, and what a fresh count of them gives; no bytes and zero counts where it is
// empty.
#[derive(Clone, Copy)]
pub struct Session {
    bytes: [u8; Scene::LONGEST],
    len: usize,
    pub counts: Counts,
}

// An operation's answer, and the session after it.
#[derive(Clone, Copy)]
pub struct Changed {
    pub answer: Result<(), Refusal>,
    pub session: Session,
}

// How many bytes a session's scene has.
fn size(s: Session) -> usize
    ensures { Whole s result }
{
    if s.len < Scene::LONGEST {
        s.len
    } else {
        Scene::LONGEST
    }
}

fn counts_of(s: &[u8]) -> Counts
    ensures { result ≡ counts_by (counted_of s.now) }
{
    let c = count(Plain, s);
    match c {
        Ok(n) => n,
        Err(_) => Counts {
            pairs: 0,
            a_in_b: 0,
            b_in_a: 0,
        },
    }
}

// The session of the scene that the first n of b are.
fn fresh(b: [u8; Scene::LONGEST], n: usize) -> Session
    requires { n ≤ longest limits }
    ensures { result ≡ fresh b n }
{
    let c = counts_of(&b[..n]);
    Session {
        bytes: b,
        len: n,
        counts: c,
    }
}

fn empty() -> Session
    ensures { result ≡ empty }
{
    Session {
        bytes: [0; Scene::LONGEST],
        len: 0,
        counts: Counts {
            pairs: 0,
            a_in_b: 0,
            b_in_a: 0,
        },
    }
}

pub fn open(s: &[u8]) -> Changed
    ensures { result ≡ opened s.now }
{
    if let Err(r) = judge::judge(s) {
        return Changed {
            answer: Err(r),
            session: empty(),
        };
    }
    let mut b = [0u8; Scene::LONGEST];
    copy(s, &mut b);
    Changed {
        answer: Ok(()),
        session: fresh(b, s.len()),
    }
}

// The session with the row of the file's point j changed: 0 is the far point, then come the vertices.
fn with_row(b: [u8; Scene::LONGEST], n: usize, j: usize, v: Row) -> Session
    requires { RowFits v × (point_start j + 9 ≤ longest limits) × (n ≤ longest limits) }
    ensures { result ≡ fresh (row_put b j v) n }
{
    let mut a = b;
    write::put_row(&mut a, j, v);
    fresh(a, n)
}

// The corners of the file's face i, the first and the third swapped.
fn reversed_face(s: &[u8], i: usize) -> Face
    requires { i < 1024 }
    ensures { (result ≡ reversed_face (face_at s.now i)) × FaceFits result }
{
    let f = face_at(s, i);
    Face {
        p: f.r,
        q: f.q,
        r: f.p,
    }
}

// The session with the file's face i reversed.
fn with_face(b: [u8; Scene::LONGEST], n: usize, i: usize) -> Session
    requires { (i < 1024) × (n ≤ longest limits) × (face_start (take n b) i + 5 ≤ longest limits) }
    ensures { result ≡ fresh (reversed_in b (take n b) i) n }
{
    let at = offsets::face_start(&b[..n], i);
    let f = reversed_face(&b[..n], i);
    let mut a = b;
    write::put_corners(&mut a, at, f);
    fresh(a, n)
}

impl Session {
    // A vertex, by its point number, to v.
    pub fn move_vertex(self, p: usize, v: Row) -> Changed
        ensures { result ≡ moved_of self p v }
    {
        let n = size(self);
        let b = self.bytes;
        let j = faults::vertex_fault(&b[..n], p, v);
        match j {
            Err(r) => Changed {
                answer: Err(r),
                session: self,
            },
            Ok(()) => Changed {
                answer: Ok(()),
                session: with_row(b, n, p, v),
            },
        }
    }

    // The far point to v.
    pub fn move_far(self, v: Row) -> Changed
        ensures { result ≡ far_moved_of self v }
    {
        let n = size(self);
        let b = self.bytes;
        let j = faults::far_fault(&b[..n], v);
        match j {
            Err(r) => Changed {
                answer: Err(r),
                session: self,
            },
            Ok(()) => Changed {
                answer: Ok(()),
                session: with_row(b, n, 0, v),
            },
        }
    }

    // The face numbered f, its first and third corners swapped.
    pub fn reverse(self, f: usize) -> Changed
        ensures { result ≡ reversed_of self f }
    {
        let n = size(self);
        let b = self.bytes;
        let j = faults::turn_fault(&b[..n], f);
        match j {
            Err(r) => Changed {
                answer: Err(r),
                session: self,
            },
            Ok(()) => Changed {
                answer: Ok(()),
                session: with_face(b, n, f - 1),
            },
        }
    }
}
