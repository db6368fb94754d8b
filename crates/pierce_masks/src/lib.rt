// A mask: a set of faces of one solid, as those that an edge pierces, in two words.
#![tactic(auto)]

ghost use Rattle.std.specs.Prelude.{◌≡◌};
ghost use Rattle.std.specs.Int.Count.{ones};
ghost use Rattle.pierce_masks.specs.Faces.{is_odd, value_of, has_face, first_face};

// Bit k - 1 of the first word stands for the solid's k-th face, up to the 64th; the second word goes on from there.
#[derive(Clone, Copy)]
pub struct Mask {
    pub low: u64,
    pub high: u64,
}

// The faces of a word.
pub const WORD: usize = 64;

// How many faces.
pub fn ones(m: Mask) -> usize
    ensures { result ≡ ones (value_of m) }
{
    let low = u64::count_ones(m.low) as usize;
    let high = u64::count_ones(m.high) as usize;
    low + high
}

// An odd number of faces.
pub fn is_odd(m: Mask) -> bool
    ensures { result ≡ is_odd (value_of m) }
{
    ones(m) % 2 == 1
}

// Some face.
pub fn has_face(m: Mask) -> bool
    ensures { result ≡ has_face (value_of m) }
{
    (m.low != 0) | (m.high != 0)
}

// k - 1 for the first face k.
pub fn first_face(m: Mask) -> usize
    ensures { result ≡ first_face (value_of m) }
{
    if m.low != 0 {
        return u64::trailing_zeros(m.low) as usize;
    }
    WORD + u64::trailing_zeros(m.high) as usize
}
