//! Why bytes are no shot file.
ghost use Rattle.std.specs.Prelude.{◌≡◌, ◌⊎◌, ◌≤◌, ℕ, length, drop, nat_lt, count_by, IsTrue, IfSome};
ghost use Rattle.shot_reader.specs.Refusals.{HasNumberCount, IsWholeShotRecord};

use oas_lex::{INFO, RECTANGLE, TRAPEZOID, TRAPEZOID_A, TRAPEZOID_B};

/// The first fault of bytes that are no shot file, by the offset of the record that has it.
#[derive(Clone, Copy, Debug, PartialEq, Eq)]
pub enum ShotBad {
    /// No head begins the bytes. The longest prefix that begins some head has this length.
    Head(usize),
    /// An id or an info byte isn't one of a shot's record, or the bytes end before it or inside it.
    Record(usize),
    /// A number isn't in its shortest form or is too wide, the kind isn't the one for the deltas, or the layer and
    /// the datatype aren't those of the first record.
    Spelling(usize),
    /// The fields are those of no shot.
    Illegal(usize),
    /// The END record isn't that of a shot file, or isn't the file's end.
    End(usize),
}

// How many numbers the record of this id has.
fn numbers_of(id: u8) -> Option<usize>
    ensures some { IfSome result (λ count. HasNumberCount id count) }
    ensures all { (count : ℕ) → HasNumberCount id count → result ≡ Some count }
{
    match id {
        RECTANGLE => Some(6),
        TRAPEZOID => Some(8),
        TRAPEZOID_A | TRAPEZOID_B => Some(7),
        _ => None,
    }
}

// How many numbers end among the bytes.
fn ends_in(bytes: &[u8]) -> usize
    ensures { result ≡ count_by (λ b. nat_lt b 128) bytes.now }
{
    bytes.iter().filter(|byte| **byte < 128).count()
}

// Whether the bytes begin with an id of a shot's record, its info byte and all its numbers.
fn is_whole(rest: &[u8]) -> bool
    ensures yes { IsTrue result → IsWholeShotRecord rest.now }
    ensures all { IsWholeShotRecord rest.now → IsTrue result }
{
    if rest.len() < 2 {
        return false;
    }
    if rest[1] != INFO {
        return false;
    }
    match numbers_of(rest[0]) {
        Some(count) => count <= ends_in(&rest[2..]),
        None => false,
    }
}

/// The refusal of a record that isn't spelled as a shot is: Record where its id or its info byte is another or the
/// bytes end inside it, and else Spelling.
pub(crate) fn record_refusal(bytes: &[u8], at: usize) -> ShotBad
    requires { at ≤ length bytes.now }
    ensures { ((result ≡ ShotBad.Spelling at) × IsWholeShotRecord (drop at bytes.now)) ⊎ ((result ≡ ShotBad.Record at) × (IsWholeShotRecord (drop at bytes.now) → ⊥)) }
{
    if is_whole(&bytes[at..]) {
        ShotBad::Spelling(at)
    } else {
        ShotBad::Record(at)
    }
}
