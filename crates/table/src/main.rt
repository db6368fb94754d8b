// Prints a table of files, a row each with tabs between its fields: what an office opens in a spreadsheet.
#![tactic(auto)]

use cli::Program;
use cli_files::{MOST_FILES, Walk, progress};
use scene::Scene;

mod row;

// A name of 4,096 bytes, and a sentence.
const TEXT: usize = 8192;

// How far it is, and whether there is no more to do.
#[derive(Drop)]
struct Turn {
    walk: Walk,
    over: bool,
}

// The next file's row, where there is one. Behind a row that can't be written there is none.
fn next_row(
    program: &Program,
    w: Walk,
    piece: &mut [u8],
    name: &mut [u8],
    s: &mut [u8],
    out: &mut [u8],
) -> Turn {
    let r = cli_files::step(program, w, piece, name, s);
    let v = r.walk;
    let n = r.count;
    let Some(k) = r.name else {
        return Turn {
            walk: v,
            over: true,
        };
    };
    let e = row::row(out, &name[..k], r.whole, &s[..n]);
    Turn {
        walk: v,
        over: !program.write(&out[0..e]),
    }
}

fn all_told(
    program: &Program,
    first: Walk,
    piece: &mut [u8],
    name: &mut [u8],
    s: &mut [u8],
    out: &mut [u8],
) -> Walk {
    let mut w = first;
    for _ in 0..MOST_FILES {
        let t = next_row(program, w, piece, name, s, out);
        let v = t.walk;
        w = v;
        if t.over {
            break;
        }
    }
    w
}

fn run(program: &Program, first: Walk) {
    let mut piece = [0u8; 4096];
    let mut name = [0u8; 4096];
    // One byte more than the longest scene tells that a file is too long.
    let mut s = [0u8; Scene::LONGEST + 1];
    let mut out = [0u8; TEXT];
    let mut w = all_told(program, first, &mut piece, &mut name, &mut s, &mut out);
    progress::ended(&mut w);
    program.finish();
}

// Its help is what a wrong use is told.
const HELP: &[u8] = b"usage: table [--progress] FILE...\n       table [--progress] --names LIST\n\
          Each file is one scene. Prints a heading, and a line a file with tabs between: name, verdict (or refused and its number and\n\
          place, or not read), vertices of A inside B, of B inside A, pierced pairs, and why a scene is refused. The three numbers\n\
          are empty where there is no verdict; a control byte in a name is shown as ?.\n\
          LIST has a name a line; - is standard input.\n";

fn main(rt: HostRuntime) {
    let program = Program {
        rt: &rt,
        name: b"table",
        help: HELP,
        usage: HELP,
    };
    let w = cli_files::begin(&program, 0);
    if w.failed {
        return;
    }
    if program.write(b"name\tverdict\tA in B\tB in A\tpairs\twhy\n") {
        run(&program, w);
    }
}
