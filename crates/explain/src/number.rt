//! Numbers as they are shown: in groups of three digits, and as decimal numbers.
ghost use Rattle.std.specs.Prelude.{◌≡◌, ◌<◌, ◌≤◌, ◌*◌, ◌/◌, ◌%◌, ◌^◌};

/// How many decimals a number has at least.
const FEWEST: usize = 3;

/// How many decimals a number has at most where so many are exact.
const MOST: usize = 7;

/// How many decimals a number has that is never exact.
const CUT: usize = 6;

// Ten to this power.
fn power_of_ten(places: usize) -> u64
    requires { places ≤ 7 }
    ensures { result ≡ 10 ^ places }
{
    match places {
        0 => 1,
        1 => 10,
        2 => 100,
        3 => 1_000,
        4 => 10_000,
        5 => 100_000,
        6 => 1_000_000,
        7 => 10_000_000,
        _ => unreachable!(),
    }
}

/// How many decimals a ratio with this bottom is shown with: three to seven where so many are exact, and else six.
pub(crate) fn decimals_of(bottom: u64) -> usize
    requires { 0 < bottom }
    ensures some { 3 ≤ result }
    ensures few { result ≤ 7 }
{
    for places in FEWEST..=MOST {
        if power_of_ten(places) % bottom == 0 {
            return places;
        }
    }
    CUT
}

/// The decimals of `top / bottom`, as a whole number of so many digits: the rest is cut.
pub(crate) fn scaled(top: u64, bottom: u64, places: usize) -> u64
    requires below { top < bottom }
    requires few { places ≤ 7 }
    ensures { result ≡ (top * 10 ^ places) / bottom }
{
    let all = u128::from(top) * u128::from(power_of_ten(places));
    (all / u128::from(bottom)) as u64
}
