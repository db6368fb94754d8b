// Which vertices of a solid are together in an odd number of its faces, as a word for each vertex, and which are used: one pass over the
// faces.
ghost use Rattle.std.specs.Prelude.{◌≡◌, ℕ, ◌+◌, ◌/◌, ◌%◌, ◌^◌, ◌<◌, true, eqb, length, get_or};
ghost use Rattle.laws.specs.Mask.{test_bit};
ghost use Rattle.judge.specs.Alone.{is_alone, Alone};
ghost use Rattle.judge.specs.Words.{places, CornersIn, AreWords, used_word, corners_word, xored_at, TurnsFace};

use crate::records::corner;

// The bits of a word. The word of the vertex v stands at v.
pub const PLACES: usize = 64;

pub type Words = [u64; PLACES];

fn bit(p: usize) -> u64
    requires { p < places }
    ensures { result ≡ 2 ^ p }
{
    1 << p
}

// The bits of t turn in the word of p.
fn turn(words: &mut Words, p: usize, t: u64)
    requires { (length words.old ≡ places) × (p < places) }
    ensures { words.new ≡ xored_at words.old p t }
{
    words[p] = words[p] ^ t;
}

// Each two corners of the file's face i are together in one face more; the answer is the word of its corners.
fn turn_face(words: &mut Words, s: &[u8], i: usize) -> u64
    requires { (length words.old ≡ places) × (i < 1024) × CornersIn s.now i }
    ensures { TurnsFace s.now i words.old words.new × (result ≡ corners_word s.now i) }
{
    let p = corner(s, i, 0);
    let q = corner(s, i, 1);
    let r = corner(s, i, 2);
    let t = bit(p) | bit(q) | bit(r);
    turn(words, p, t);
    turn(words, q, t);
    turn(words, r, t);
    t
}

// The words of the file's n faces from a on are put in the place of zeros; the answer is the word of the vertices that are used.
pub fn words_of(s: &[u8], a: usize, n: usize, words: &mut Words) -> u64
    requires words { AreWords s.now a 0 words.old }
    requires faces { (a + n < 1024) × ((i : ℕ) → i < a + n → CornersIn s.now i) }
    ensures { AreWords s.now a n words.new × (result ≡ used_word s.now a n) }
{
    let mut used: u64 = 0;
    for k in 0..n {
        used = used | turn_face(words, s, a + k);
    }
    used
}

// No bit of the word of v is set but that of v.
fn is_alone(words: &Words, v: usize) -> bool
    requires { v < places }
    ensures { result ≡ is_alone (get_or words.now v 0) v }
{
    (words[v] | bit(v)) == bit(v)
}

// So it is of each vertex up to n: no two different ones are together in an odd number of faces.
pub fn are_alone(words: &Words, n: usize) -> bool
    requires { n < places }
    ensures { result ≡ true → Alone words.now n }
{
    (0..n + 1).all(|v| is_alone(words, v))
}

// v and w are together in an even number of faces.
pub fn in_even(words: &Words, v: usize, w: usize) -> bool
    requires { (v < places) × (w < places) }
    ensures { result ≡ eqb (get_or words.now v 0 / 2 ^ w % 2) 0 }
{
    (words[v] >> w) % 2 == 0
}

// v is used.
pub fn in_used(used: u64, v: usize) -> bool
    requires { v < places }
    ensures { result ≡ test_bit used v }
{
    (used >> v) % 2 == 1
}
