// Prints the class report of files: each is one scene, judged whole, so that `scenes` is the number of files. Where a file can't be read
// there is no report: an answer that misses files must not look like one.
#![tactic(auto)]

use class_print::ROOM;
use class_tally::files;
use class_tally::files::Files;
use cli::Program;
use cli_files::{MOST_FILES, Walk, progress};
use scene::Scene;

// How far it is, what was counted, and how many files could not be read.
#[derive(Drop)]
struct Marking {
    walk: Walk,
    files: Files,
    unread: usize,
    over: bool,
}

// The next file, where there is one.
fn marked(
    program: &Program,
    m: Marking,
    piece: &mut [u8],
    name: &mut [u8],
    s: &mut [u8],
) -> Marking {
    let w = m.walk;
    let f = m.files;
    let unread = m.unread;
    let r = cli_files::step(program, w, piece, name, s);
    let v = r.walk;
    let n = r.count;
    if r.whole {
        let g = files::with_scene(f, &s[..n]);
        return Marking {
            walk: v,
            files: g,
            unread,
            over: false,
        };
    }
    let over = r.name.is_none();
    Marking {
        walk: v,
        files: f,
        unread: if over { unread } else { files::sum(unread, 1) },
        over,
    }
}

fn all_marked(
    program: &Program,
    first: Marking,
    piece: &mut [u8],
    name: &mut [u8],
    s: &mut [u8],
) -> Marking {
    let mut m = first;
    for _ in 0..MOST_FILES {
        m = marked(program, m, piece, name, s);
        if m.over {
            break;
        }
    }
    m
}

fn report(program: &Program, f: Files) {
    let mut out = [0u8; ROOM];
    let p = class_print::sheet(&mut out, 0, Ok(files::tally(f)));
    program.answer(&out[0..p]);
}

fn finish(program: &Program, m: Marking) {
    let mut w = m.walk;
    let f = m.files;
    progress::ended(&mut w);
    if m.unread > 0 {
        cli_files::say_some(
            program,
            m.unread,
            w.named,
            b"files could not be read; no report is printed",
        );
        return;
    }
    if !w.failed {
        report(program, f);
    }
}

fn run(program: &Program, walk: Walk) {
    let mut piece = [0u8; 4096];
    let mut name = [0u8; 4096];
    // One byte more than the longest scene tells that a file is too long.
    let mut s = [0u8; Scene::LONGEST + 1];
    let none = files::none();
    let first = Marking {
        walk,
        files: none,
        unread: 0,
        over: false,
    };
    let m = all_marked(program, first, &mut piece, &mut name, &mut s);
    finish(program, m);
}

// Its help is what a wrong use is told.
const HELP: &[u8] = b"usage: class [--progress] FILE...\n       class [--progress] --names LIST\n\
          Each file is one scene. Prints how many there are of each verdict and refusal, and the mean of pierced pairs.\n\
          LIST has a name a line; - is standard input. Where a file can't be read no report is printed.\n";

fn main(rt: HostRuntime) {
    let program = Program {
        rt: &rt,
        name: b"class",
        help: HELP,
        usage: HELP,
    };
    let w = cli_files::begin(&program, 0);
    if !w.failed {
        run(&program, w);
    }
}
