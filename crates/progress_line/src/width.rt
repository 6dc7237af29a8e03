//! How many columns a terminal has.
ghost use Rattle.std.specs.Prelude.{◌<◌, IfSome};

use std::env::Env;

/// How many columns a terminal is taken to have where it isn't known.
const USUAL: usize = 80;

/// How many digits of a number are looked at.
const DIGITS: usize = 4;

// The number that these digits are. None where one isn't a digit, or it is 0.
fn number(digits: &[u8]) -> Option<usize>
    ensures { IfSome result (λ n. 0 < n) }
{
    let mut number: usize = 0;
    for digit in digits {
        if !digit.is_ascii_digit() {
            return None;
        }
        number = number
            .saturating_mul(10)
            .saturating_add(usize::from(*digit - b'0'));
    }
    if number == 0 { None } else { Some(number) }
}

/// How many columns a line may have: one less than the variable COLUMNS says, where it is a number of up to four digits, else
/// 79. A line that fills a row may go on in the next one.
pub fn columns(rt: &impl Env) -> usize {
    let mut digits = [0u8; DIGITS];
    let told = match rt.var("COLUMNS", &mut digits) {
        Ok(len) => number(&digits[..len]),
        Err(_) => None,
    };
    told.unwrap_or(USUAL).saturating_sub(1)
}
