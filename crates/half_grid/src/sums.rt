//! Sums, differences and halves of coordinates.
ghost use Rattle.std.specs.Prelude.{◌≡◌, ◌+ℤ◌, ◌-ℤ◌};
ghost use Rattle.half_grid.specs.Halves.{half, is_even};

// The sum, which may be wider than the two.
pub(crate) fn sum(a: i64, b: i64) -> i128
    ensures { result ≡ a +ℤ b }
{
    a as i128 + b as i128
}

// The difference, which may be wider than the two.
pub(crate) fn difference(a: i64, b: i64) -> i128
    ensures { result ≡ a -ℤ b }
{
    a as i128 - b as i128
}

// Half the sum, rounded down.
pub(crate) fn half_sum(a: i64, b: i64) -> i64
    ensures { result ≡ half (a +ℤ b) }
{
    (sum(a, b) >> 1) as i64
}

// Half the difference, rounded down.
pub(crate) fn half_difference(a: i64, b: i64) -> i64
    ensures { result ≡ half (a -ℤ b) }
{
    (difference(a, b) >> 1) as i64
}

// Half of a number, rounded down.
pub(crate) fn half_of(number: i64) -> i64
    ensures { result ≡ half number }
{
    number >> 1
}

pub(crate) fn is_even_number(number: i128) -> bool
    ensures { result ≡ is_even number }
{
    number % 2 == 0
}
