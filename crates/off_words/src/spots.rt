// The line and the column of a byte of a text, both from 1.
ghost use Rattle.std.specs.Prelude.{◌≡◌, ◌+◌, ◌≤◌, ◌^◌, ◌<◌, min};
ghost use Rattle.off_words.specs.Spots.{line_behind, column_behind, line_after, column_after, line_of, column_of};

#[derive(Clone, Copy)]
pub struct Spot {
    pub line: usize,
    pub column: usize,
}

fn line_behind(n: usize, c: u8) -> usize
    requires { n + 1 < 2 ^ 64 }
    ensures { (result ≡ line_behind n c) × (result ≤ n + 1) }
{
    if c == b'\n' {
        return n + 1;
    }
    n
}

fn column_behind(n: usize, c: u8) -> usize
    requires { n + 1 < 2 ^ 64 }
    ensures { (result ≡ column_behind n c) × (result ≤ n + 1) }
{
    if c == b'\n' {
        return 1;
    }
    n + 1
}

// The end of a text.
fn last(text: &[u8]) -> Spot
    ensures { (result.line ≡ line_after 1 text.now) × (result.column ≡ column_after 1 text.now) }
{
    let mut line = 1;
    let mut column = 1;
    for c in text {
        line = line_behind(line, *c);
        column = column_behind(column, *c);
    }
    Spot { line, column }
}

fn least(m: usize, n: usize) -> usize
    ensures { (result ≡ min m n) × (result ≤ n) }
{
    m.min(n)
}

// The byte at offset k, or the text's end where it has none.
pub fn spot_of(text: &[u8], k: usize) -> Spot
    ensures { (result.line ≡ line_of text.now k) × (result.column ≡ column_of text.now k) }
{
    let e = least(k, text.len());
    last(&text[..e])
}
