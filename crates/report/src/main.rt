// report [FILE] prints the report of a scene: it is read, judged and surveyed once, rendered part by part, and written.
#![tactic(auto)]

ghost use Rattle.std.specs.Prelude.{◌≡◌, Ok};
ghost use Rattle.scene.specs.View.{view_of};
ghost use Rattle.judge.specs.Judge.{judged};
ghost use Rattle.survey_scene.specs.Surveys.{SurveyIs};

use cli::Program;
use pierce_engine::Plain;
use print_lines::refused;
use print_lines::rows::least;
use print_report::{head_read, part_read};
use questions::MOST_PAIRS;
use scene::{Refusal, Scene};
use survey::Survey;
use survey_edges::{ENDS, Ends, Masks};
use survey_scene::survey_of;

// What is held at once, 64 KiB: 4,096 bytes to spare; the scene, where one byte more than the longest tells that the input is too long; the
// survey's tables, two bytes for an end and eight for a word, of both solids; a sixth of the longest listing, two bytes for each number;
// and the text. (A file's name, of 4,096 bytes, is held a few times while the scene is read; of the rest only the scene is held then.)
const HELD: usize = 65536;

const SPARE: usize = 4096;

const SCENE: usize = Scene::LONGEST + 1;

const TABLES: usize = 2 * (2 + 8) * ENDS;

const NUMBERS: usize = 3 * (MOST_PAIRS / 6 + 1);

const TEXT: usize = HELD - SPARE - SCENE - TABLES - 2 * NUMBERS;

fn program(rt: &HostRuntime) -> Program {
    Program {
        rt,
        name: b"report",
        help: b"report [FILE]

Prints the report of the scene in FILE; - or no FILE is standard input.

    scene A1 A2 B1 B2    vertices and faces of A, vertices and faces of B
    verdict V            cross, a-in-b, b-in-a or apart
    inside A B           how many vertices of A are enclosed by B, and of B by A
    pairs N              how often an edge of one solid pierces a face of the other; then a line for each:
    U V F                the edge's two points, the lower first, and the face

Of a refused scene it prints `refused N P`, the refusal's number and place; `ask why` says more.

-h, --help        this
--version         the version
",
        usage: b"report: usage: report [FILE]\n",
    }
}

// The n rows of the listing. A write that fails is the last.
fn write_rows(
    program: &Program,
    t: Survey,
    s: &[u8],
    aends: &Ends,
    amasks: &Masks,
    bends: &Ends,
    bmasks: &Masks,
    n: usize,
    out: &mut [u8],
)
    requires s_value { judged s.now ≡ Ok tt }
    requires survey_is { SurveyIs (view_of s.now) aends.now amasks.now bends.now bmasks.now t }
{
    let mut list = [0u16; NUMBERS];
    let mut from = 0;
    // No range: a step is as many rows as had room.
    while from < n {
        let r = part_read(t, s, aends, amasks, bends, bmasks, from, &mut list, out);
        let end = r.end;
        if r.count == 0 {
            return;
        }
        if !program.write(&out[..end]) {
            return;
        }
        from += least(n - from, r.count);
    }
    program.finish();
}

// The head, and then the rows.
fn write_read(
    program: &Program,
    t: Survey,
    s: &[u8],
    aends: &Ends,
    amasks: &Masks,
    bends: &Ends,
    bmasks: &Masks,
    out: &mut [u8],
)
    requires s_value { judged s.now ≡ Ok tt }
    requires survey_is { SurveyIs (view_of s.now) aends.now amasks.now bends.now bmasks.now t }
{
    let top = head_read(t, s, aends, amasks, bends, bmasks, out);
    let end = top.end;
    if program.write(&out[..end]) {
        write_rows(program, t, s, aends, amasks, bends, bmasks, top.rows, out);
    }
}

fn write_accepted(program: &Program, s: &[u8], out: &mut [u8])
    requires { judged s.now ≡ Ok tt }
{
    let mut aends: Ends = [0; ENDS];
    let mut amasks: Masks = [0; ENDS];
    let mut bends: Ends = [0; ENDS];
    let mut bmasks: Masks = [0; ENDS];
    let t = survey_of(Plain, s, &mut aends, &mut amasks, &mut bends, &mut bmasks);
    write_read(program, t, s, &aends, &amasks, &bends, &bmasks, out);
}

fn write_refused(program: &Program, r: Refusal, out: &mut [u8]) {
    let end = refused(out, 0, r);
    if program.write(&out[..end]) {
        program.finish();
    }
}

fn write_report(program: &Program, s: &[u8]) {
    let mut out = [0u8; TEXT];
    let j = judge::judge(s);
    match j {
        Err(r) => write_refused(program, r, &mut out),
        Ok(()) => write_accepted(program, s, &mut out),
    }
}

fn main(rt: HostRuntime) {
    let program = program(&rt);
    if program.tells() || program.is_misused(1, b"", b"nothing may stand behind the file: ") {
        return;
    }
    let mut s = [0u8; SCENE];
    let r = program.read_at(1, &mut s);
    let n = r.count;
    if r.whole {
        write_report(&program, &s[..n]);
    }
}
