// Sums and products that are held to the largest number of 64 bits.
ghost use Rattle.std.specs.Prelude.{◌≡◌, ◌+◌, ◌*◌};
ghost use Rattle.class_read.specs.Totals.{held};

#[tactic(auto, using(off_items::specs::Laws::at_most_low, off_items::specs::Laws::at_most_high))]
pub fn sum(a: usize, b: usize) -> usize
    ensures { result ≡ held (a + b) }
{
    a.saturating_add(b)
}

#[tactic(auto, using(off_items::specs::Laws::at_most_low, off_items::specs::Laws::at_most_high))]
pub fn product(a: usize, b: usize) -> usize
    ensures { result ≡ held (a * b) }
{
    a.saturating_mul(b)
}
