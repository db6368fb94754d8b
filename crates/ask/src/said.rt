// What is said on standard error, and the help.
use crate::words::{Unasked, number_in};
use cli::{Program, has_word, to_error_by};
use print::{newline, word};
use scene::Refusal;

pub fn program(rt: &HostRuntime) -> Program {
    Program {
        rt,
        name: b"ask",
        help: b"ask [--formula] QUESTION [NUMBER...] [FILE]

Answers one question about the scene in FILE; - or no FILE is standard input.

    judge              whether the scene is accepted
    why                why it is refused, in words
    verdict            crossing, enclosed or apart, with the first pierced pair or the lowest enclosed vertex
    counts             pierced pairs, vertices of A enclosed by B, vertices of B enclosed by A
    listing [PLACES]   every pierced pair, or into a list of so many places (a file whose name is a number is given as ./NAME)
    enclosed V         whether vertex V is enclosed by the other solid
    pierces U V F      whether the edge of points U and V pierces face F
    mask U V S         the faces of solid S (1 or 2) that the edge of points U and V pierces, as two words of bits, and how many
    sign A B C D       the sign of four points, and its four terms
    record K           the bytes of record K, from 0
    clean              whether no four points lie in one plane

Points are numbered from 1: A's vertices, B's, the far point. Faces are numbered from 1: A's, then B's. A question that is refused
is answered `refused N P`; standard error then says why.

--formula         the engine of the formula in place of the plain one; the answers are the same
-h, --help        this
--version         the version
",
        usage: b"ask: usage: ask [--formula] QUESTION [NUMBER...] [FILE]
ask: questions: judge, why, verdict, counts, listing [PLACES], enclosed V, pierces U V F, mask U V S, sign A B C D, record K, clean
",
    }
}

// Nothing is asked by the words from word i on.
pub fn unasked(program: &Program, i: usize, e: Unasked) {
    match e {
        Unasked::Unknown => no_question(program, i),
        Unasked::NoNumber(k) => no_number(program, i, k),
    }
}

// Word i is no question.
fn no_question(program: &Program, i: usize) {
    if has_word(program.rt, i) {
        program.refuse_word(b"there is no question ", i, b"");
    } else {
        cli::to_error(program.rt, program.usage);
    }
}

// Word k is no number of the question that word i names.
fn no_number(program: &Program, i: usize, k: usize) {
    if has_word(program.rt, k) {
        program.refuse_word(b"", k, b" is no number");
    } else {
        program.refuse_word(b"", i, b" asks for more numbers");
    }
}

// The refusal of a scene.
pub fn scene(rt: &HostRuntime, s: &[u8], r: Refusal) {
    to_error_by(rt, |out| {
        let p = word(out, 0, b"why: ");
        let q = print_why::sentence(s, r, out, p);
        newline(out, q)
    });
}

// The number of the refusal that is answered of an accepted scene: 10, 11 or 12.
fn refusal_in(answer: &[u8]) -> Option<usize> {
    if answer.len() < 10 {
        return None;
    }
    match &answer[..8] {
        b"refused " => number_in(&answer[8..10]),
        _ => None,
    }
}

// The refusal, if it is one.
pub fn rule(rt: &HostRuntime, answer: &[u8]) {
    if let Some(n) = refusal_in(answer) {
        to_error_by(rt, |out| print_refusals::line(out, 0, n));
    }
}
