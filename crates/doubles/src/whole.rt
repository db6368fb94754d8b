// One double read as a whole number within a limit.
ghost use Rattle.std.specs.Prelude.{◌≡◌, ◌^◌, ◌<◌};
ghost use Rattle.doubles.specs.Whole.{is_whole};
ghost use Rattle.doubles.specs.Fraction.{is_finite};
ghost use Rattle.doubles.specs.Taken.{reading_of, weight_of};

use scene::Scene;

// Why a double is no number of a vertex: it is not whole, or outside the limits.
#[derive(Clone, Copy)]
pub enum Unfit {
    NotWhole,
    Outside,
}

// A whole number from -most to most. With zero added, minus zero is zero.
pub fn read(x: f64, most: usize) -> Result<i64, Unfit>
    requires { most < 2 ^ 53 }
    ensures { result ≡ reading_of x most }
{
    if !is_whole(x) {
        return Err(Unfit::NotWhole);
    }
    let m = most as f64;
    if m < x || x < -m {
        return Err(Unfit::Outside);
    }
    Ok((x + 0.0) as i64)
}

// Whether x is a whole number. Below 2^53 in size the number that it is cut to must be the same; from there on every finite double is
// whole.
fn is_whole(x: f64) -> bool
    ensures { result ≡ is_whole x }
{
    if x < 9007199254740992.0 {
        if -9007199254740992.0 < x {
            return std::num::nearest_i64_to_f64(std::num::truncating_f64_to_i64(x)) == x;
        }
        return is_finite(x);
    }
    is_finite(x)
}

// The difference is a NaN at an infinity and at a NaN.
fn is_finite(x: f64) -> bool
    ensures { result ≡ is_finite x }
{
    x - x == 0.0
}

// A vertex's weight is not 0.
pub fn weight(x: f64) -> Result<i64, Unfit>
    ensures { result ≡ weight_of x }
{
    let w = read(x, Scene::MOST_WEIGHT)?;
    if w == 0 {
        return Err(Unfit::Outside);
    }
    Ok(w)
}
