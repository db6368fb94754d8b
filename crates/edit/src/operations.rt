// What the words of an operation denote: its name, which is word i, and the words behind it. No system passes on so many words that
// i were not below the bounds asked for here.
ghost use Rattle.std.specs.Prelude.{◌≡◌, ◌<◌, ◌≤◌};
ghost use Rattle.edit.specs.Operations.{same, named, row_of, move_of, far_of, reverse_of, operation_of, words_of};

use scene::Row;

#[derive(Clone, Copy)]
pub enum Operation {
    Move(usize, Row),
    Far(Row),
    Reverse(usize),
}

// The first of an operation's words that is wrong.
#[derive(Clone, Copy)]
pub struct Wrong {
    pub word: usize,
}

#[tactic(auto, unfolding(crate::specs::Operations::same))]
fn is_same(w: &[u8], name: &[u8]) -> bool
    ensures { result ≡ same w.now name.now }
{
    w == name
}

// A point's or a face's number: nothing has a number below 0, as nothing has 0.
#[tactic(auto, using(print::specs::Size::casts, crate::specs::Laws::named_below, crate::specs::Laws::named_above))]
fn named(n: i64) -> usize
    ensures { result ≡ named n }
{
    if n < 0 { 0 } else { n as usize }
}

// The row of four words, of which x is word i.
#[tactic(auto, unfolding(crate::specs::Operations::row_of))]
fn row_of(
    i: usize,
    x: Option<i64>,
    y: Option<i64>,
    z: Option<i64>,
    w: Option<i64>,
) -> Result<Row, Wrong>
    requires { i < 16777216 }
    ensures { result ≡ row_of i x y z w }
{
    let x = x.ok_or(Wrong { word: i })?;
    let y = y.ok_or(Wrong { word: i + 1 })?;
    let z = z.ok_or(Wrong { word: i + 2 })?;
    let w = w.ok_or(Wrong { word: i + 3 })?;
    Ok(Row { x, y, z, w })
}

#[tactic(auto, unfolding(crate::specs::Operations::move_by))]
fn move_of(
    i: usize,
    a: Option<i64>,
    b: Option<i64>,
    c: Option<i64>,
    d: Option<i64>,
    e: Option<i64>,
) -> Result<Operation, Wrong>
    requires { i < 8388608 }
    ensures { result ≡ move_of i a b c d e }
{
    let p = a.ok_or(Wrong { word: i + 1 })?;
    let v = row_of(i + 2, b, c, d, e)?;
    Ok(Operation::Move(named(p), v))
}

#[tactic(auto, unfolding(crate::specs::Operations::far_by))]
fn far_of(
    i: usize,
    a: Option<i64>,
    b: Option<i64>,
    c: Option<i64>,
    d: Option<i64>,
) -> Result<Operation, Wrong>
    requires { i < 8388608 }
    ensures { result ≡ far_of i a b c d }
{
    let v = row_of(i + 1, a, b, c, d)?;
    Ok(Operation::Far(v))
}

#[tactic(auto, unfolding(crate::specs::Operations::reverse_of))]
fn reverse_of(i: usize, a: Option<i64>) -> Result<Operation, Wrong>
    requires { i < 8388608 }
    ensures { result ≡ reverse_of i a }
{
    let f = a.ok_or(Wrong { word: i + 1 })?;
    Ok(Operation::Reverse(named(f)))
}

#[tactic(auto, unfolding(crate::specs::Operations::operation_of))]
pub fn operation_of(
    i: usize,
    name: &[u8],
    a: Option<i64>,
    b: Option<i64>,
    c: Option<i64>,
    d: Option<i64>,
    e: Option<i64>,
) -> Result<Operation, Wrong>
    requires { i < 8388608 }
    ensures { result ≡ operation_of i name.now a b c d e }
{
    if is_same(name, b"move") {
        return move_of(i, a, b, c, d, e);
    }
    if is_same(name, b"far") {
        return far_of(i, a, b, c, d);
    }
    if is_same(name, b"reverse") {
        return reverse_of(i, a);
    }
    Err(Wrong { word: i })
}

// How many words it takes, its name among them.
pub fn words_of(o: Operation) -> usize
    ensures { (result ≡ words_of o) × (0 < result) × (result ≤ 6) }
{
    match o {
        Operation::Move(_, _) => 6,
        Operation::Far(_) => 5,
        Operation::Reverse(_) => 2,
    }
}
