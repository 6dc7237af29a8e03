//! Multiples of coordinates, and their sums, without overflow.
ghost use Rattle.std.specs.Prelude.{◌≡◌, ◌^◌, ◌<◌, pos, ◌+ℤ◌, ◌*ℤ◌};
ghost use Rattle.half_grid.specs.Reach.{IsWithinReach};
ghost use Rattle.layout_model.specs.Products.{IsProduct};

// The product, wide enough for all small factors.
pub(crate) fn times(factor: u64, value: i64) -> i128
    requires { factor < 2 ^ 32 }
    ensures value { result ≡ pos factor *ℤ value }
    ensures small { IsProduct result }
{
    factor as i128 * value as i128
}

// The coordinate `a*u + b*v`.
pub(crate) fn combine(a: u64, u: i64, b: u64, v: i64) -> i64
    requires a { a < 2 ^ 32 }
    requires b { b < 2 ^ 32 }
    requires reach { IsWithinReach ((pos a *ℤ u) +ℤ (pos b *ℤ v)) }
    ensures { result ≡ (pos a *ℤ u) +ℤ (pos b *ℤ v) }
{
    sum(times(a, u), times(b, v))
}

// The sum of two products, which is within reach.
pub(crate) fn sum(first: i128, second: i128) -> i64
    requires first { IsProduct first }
    requires second { IsProduct second }
    requires reach { IsWithinReach (first +ℤ second) }
    ensures { result ≡ first +ℤ second }
{
    (first + second) as i64
}
