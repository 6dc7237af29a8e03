//! Numbers in decimal.
ghost use Rattle.std.specs.Prelude.{◌≡◌, ◌<◌, ◌^◌, ◌≤ℤ◌, true, pos, option_map, IfSome};
ghost use Rattle.std.specs.List.{list_all};
ghost use Rattle.std.specs.Char.{is_ascii_digit};
ghost use Rattle.deck_text.specs.Kinds.{are_digits, decimal_value, digits_value, number_value};

/// Whether each byte is a digit. That of no bytes is so.
pub fn all_digits(bytes: &[u8]) -> bool
    ensures { result ≡ list_all is_ascii_digit bytes.now }
{
    for byte in bytes {
        if !byte.is_ascii_digit() {
            return false;
        }
    }
    true
}

// Whether these are 1 to 18 digits.
#[tactic(auto, unfolding(crate::specs::Kinds::are_digits))]
fn are_digits(digits: &[u8]) -> bool
    ensures { result ≡ are_digits digits.now }
{
    if digits.is_empty() {
        return false;
    }
    if 18 < digits.len() {
        return false;
    }
    all_digits(digits)
}

// What 1 to 18 digits say.
fn decimal_value(digits: &[u8]) -> u64
    requires { are_digits digits.now ≡ true }
    ensures value { result ≡ decimal_value digits.now }
    ensures small { result < 10 ^ 18 }
{
    let mut value = 0;
    for digit in digits {
        value = 10 * value + u64::from(*digit - b'0');
    }
    value
}

/// What 1 to 18 digits say in decimal, and nothing of other bytes.
#[tactic(auto, unfolding(crate::specs::Kinds::digits_value))]
pub fn digits_value(digits: &[u8]) -> Option<i64>
    ensures value { result ≡ option_map (λ n. pos n) (digits_value digits.now) }
    ensures positive { IfSome result (λ z. pos 0 ≤ℤ z) }
{
    if !are_digits(digits) {
        return None;
    }
    Some(decimal_value(digits) as i64)
}

/// The value of a number: an optional `-` and 1 to 18 digits.
#[tactic(auto, unfolding(crate::specs::Kinds::number_value))]
pub(crate) fn number_value(token: &[u8]) -> Option<i64>
    ensures { result ≡ number_value token.now }
{
    match token {
        [] => None,
        [b'-', digits @ ..] => {
            let value = digits_value(digits)?;
            Some(-value)
        }
        [_, ..] => digits_value(token),
    }
}
