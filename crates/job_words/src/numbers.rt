//! Numbers in words.

ghost use Rattle.std.specs.Prelude.{◌≡◌, ℕ, IfSome, IfNone};
ghost use Rattle.job_words.specs.Words.{IsNumberWithin, are_some_digits, is_whole_number, is_stripe_ending};

use deck_text::{all_digits, digits_value};

/// The number that 1 to 18 digits say, where it is in this range.
pub(crate) fn number_within(digits: &[u8], least: u32, most: u32) -> Option<u32>
    ensures some { IfSome result (λ n. IsNumberWithin least most digits.now n) }
    ensures none { IfNone result ((n : ℕ) → IsNumberWithin least most digits.now n → ⊥) }
{
    let Some(value) = digits_value(digits) else {
        return None;
    };
    if value < i64::from(least) {
        return None;
    }
    if i64::from(most) < value {
        return None;
    }
    Some(value as u32)
}

// Whether these are one digit or more.
fn are_some_digits(digits: &[u8]) -> bool
    ensures { result ≡ are_some_digits digits.now }
{
    match digits {
        [] => false,
        [_, ..] => all_digits(digits),
    }
}

// Whether this is an optional `-` and then one digit or more.
#[tactic(auto, unfolding(crate::specs::Words::is_whole_number))]
fn is_whole_number(text: &[u8]) -> bool
    ensures { result ≡ is_whole_number text.now }
{
    match text {
        [] => false,
        [b'-', digits @ ..] => are_some_digits(digits),
        [_, ..] => are_some_digits(text),
    }
}

/// Whether this is a point and then a whole number, as the names of stripes' files end.
#[tactic(auto, unfolding(crate::specs::Words::is_stripe_ending))]
pub(crate) fn is_stripe_ending(ending: &[u8]) -> bool
    ensures { result ≡ is_stripe_ending ending.now }
{
    match ending {
        [] => false,
        [b'.', number @ ..] => is_whole_number(number),
        [_, ..] => false,
    }
}
