// The scene of two files and a far point, on standard output; or on standard error why there is none.
use cli::{Program, to_error, to_error_by};
use off_scene::Fault;
use off_solids::points::Point;
use scene::Scene;

const ROOM: usize = 262144;

// The longest text that is read: one byte less than there is room for, which tells that a file is longer.
const MOST: usize = ROOM - 1;

// The refusal and its words, of which a word of the text may be a part.
fn say_fault(rt: &HostRuntime, a: &[u8], b: &[u8], f: Fault) {
    to_error_by(rt, |out| off_words::fault(out, 0, a, b, f));
}

fn write_scene(program: &Program, a: &[u8], b: &[u8], far: Point) {
    let mut out = [0u8; Scene::LONGEST];
    match off_scene::scene_of(a, b, far, &mut out) {
        Ok(n) => {
            program.answer(&out[..n]);
        }
        Err(f) => say_fault(program.rt, a, b, f),
    }
}

// The file that word i names is longer than any that is read.
fn say_long(rt: &HostRuntime, i: usize) {
    to_error(rt, b"off: ");
    cli::say_name(rt, i);
    to_error(rt, b": longer than 262143 bytes\n");
}

fn write_fitting(program: &Program, a: &[u8], b: &[u8], far: Point) {
    if a.len() > MOST {
        say_long(program.rt, 1);
        return;
    }
    if b.len() > MOST {
        say_long(program.rt, 2);
        return;
    }
    write_scene(program, a, b, far);
}

// The files that words 1 and 2 name.
pub fn write_files(program: &Program, far: Point) {
    let mut a = [0u8; ROOM];
    let first = program.read_at(1, &mut a);
    if !first.whole {
        return;
    }
    let mut b = [0u8; ROOM];
    let second = program.read_at(2, &mut b);
    if !second.whole {
        return;
    }
    let m = first.count;
    let n = second.count;
    write_fitting(program, &a[..m], &b[..n], far);
}
