// What is said on standard error: the help, and why the bench or a move is refused.
use bench_moves::Fault;
use cli::{Program, to_error, to_error_by};
use print::{newline, word};
use scene::{Numbered, Refusal};

// Its usage is told with the word that is wrong.
pub fn program(rt: &HostRuntime) -> Program {
    Program {
        rt,
        name: b"bench",
        help: b"bench FIRST SECOND [one P X Y Z W | two P X Y Z W | lecturer N X Y Z W]...

Two groups at one fixture. FIRST and SECOND are the scenes of group one and of group two, which agree in solid B, the fixture, and in
the far point; solid A is the group's own. One of the two may be -, standard input.

    one P X Y Z W         group one moves vertex P of its own solid, numbered from 1, to X, Y, Z with weight W
    two P X Y Z W         the same of group two
    lecturer N X Y Z W    the lecturer moves vertex N of the fixture, numbered from 1, or the far point, which has the next number

The opening and each move print `done` or `refused N P`, and behind it `counts` and six numbers: of group one and then of group two the
pierced pairs, the vertices of the group's solid enclosed by the fixture, and those of the fixture enclosed by the solid. Why something
is refused is said on standard error. A refused move changes nothing.

-h, --help            this
--version             the version
",
        usage: b"",
    }
}

// The rule that was broken.
fn rule(rt: &HostRuntime, number: usize) {
    to_error_by(rt, |out| print_refusals::line(out, 0, number));
}

pub fn moved(rt: &HostRuntime, a: Result<(), Fault>) {
    if let Err(f) = a {
        rule(rt, f.number());
    }
}

// The scene s, of word i, is refused.
fn scene_refused(rt: &HostRuntime, i: usize, s: &[u8], r: Refusal) {
    to_error(rt, b"why: ");
    cli::say_name(rt, i);
    to_error_by(rt, |out| {
        let p = word(out, 0, b": ");
        let q = print_why::sentence(s, r, out, p);
        newline(out, q)
    });
}

// The first scene's own refusal, then the second's, then that they differ.
fn refused(rt: &HostRuntime, s: &[u8], t: &[u8]) {
    if let Err(r) = judge::judge(s) {
        scene_refused(rt, 1, s, r);
        return;
    }
    if let Err(r) = judge::judge(t) {
        scene_refused(rt, 2, t, r);
        return;
    }
    rule(rt, 22);
}

pub fn opening(rt: &HostRuntime, a: Result<(), Fault>, s: &[u8], t: &[u8]) {
    if let Err(_) = a {
        refused(rt, s, t);
    }
}
