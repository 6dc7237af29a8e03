//! The deltas of OASIS: 2-deltas, 3-deltas and g-deltas.
ghost use Rattle.std.specs.Prelude.{◌≡◌, ◌<◌, ◌≤◌, ◌^◌, ◌↔◌, ℕ, ℤ, length};
ghost use Rattle.half_grid.specs.declared.plane.Point.{Point as APoint};
ghost use Rattle.oas_lex.specs.Deltas.{towards, sideways, HasDelta2, HasDelta3, HasDeltaG, DeltaGFails};
ghost use Rattle.oas_lex.specs.Strings.{NumberFails};

use crate::LexBad;
use crate::numbers::{signed, unsigned};
use half_grid::Point;

// The move in direction 0 to 7: E, N, W, S, NE, NW, SW, SE.
fn towards(direction: u64, magnitude: u64) -> Point
    requires direction { direction < 8 }
    requires magnitude { magnitude < 2 ^ 63 }
    ensures { result ≡ towards direction magnitude }
{
    let far = magnitude as i64;
    match direction {
        0 => Point { x: far, y: 0 },
        1 => Point { x: 0, y: far },
        2 => Point { x: -far, y: 0 },
        3 => Point { x: 0, y: -far },
        4 => Point { x: far, y: far },
        5 => Point { x: -far, y: far },
        6 => Point { x: -far, y: -far },
        _ => Point { x: far, y: -far },
    }
}

// The move to the east, or to the west where the bit is set.
fn sideways(west: u64, magnitude: u64) -> i64
    requires { magnitude < 2 ^ 63 }
    ensures { result ≡ sideways west magnitude }
{
    let far = magnitude as i64;
    if west == 0 { far } else { -far }
}

/// The 2-delta at `at`, in grid steps, and the offset after it. It is refused where its number is.
pub fn delta2(bytes: &[u8], at: usize) -> Result<(Point, usize), LexBad>
    requires { at ≤ length bytes.now }
    ensures found { (p : APoint) (next : ℕ) → (result ≡ Ok (p, next)) ↔ HasDelta2 bytes.now at p next }
    ensures fault { (bad : LexBad) → (result ≡ Err bad) ↔ NumberFails bytes.now at bad }
{
    let (code, next) = unsigned(bytes, at)?;
    Ok((towards(code % 4, code / 4), next))
}

/// The 3-delta at `at`, in grid steps, and the offset after it. It is refused where its number is.
pub fn delta3(bytes: &[u8], at: usize) -> Result<(Point, usize), LexBad>
    requires { at ≤ length bytes.now }
    ensures found { (p : APoint) (next : ℕ) → (result ≡ Ok (p, next)) ↔ HasDelta3 bytes.now at p next }
    ensures fault { (bad : LexBad) → (result ≡ Err bad) ↔ NumberFails bytes.now at bad }
{
    let (code, next) = unsigned(bytes, at)?;
    Ok((towards(code % 8, code / 8), next))
}

/// The g-delta at `at`, in grid steps, and the offset after it. It is refused where its first number is, or
/// its second where it has one.
pub fn delta_g(bytes: &[u8], at: usize) -> Result<(Point, usize), LexBad>
    requires { at ≤ length bytes.now }
    ensures found { (p : APoint) (next : ℕ) → (result ≡ Ok (p, next)) ↔ HasDeltaG bytes.now at p next }
    ensures fault { (bad : LexBad) → (result ≡ Err bad) ↔ DeltaGFails bytes.now at bad }
{
    let (code, next) = unsigned(bytes, at)?;
    if code % 2 == 0 {
        return Ok((towards(code / 2 % 8, code / 16), next));
    }
    let (y, end) = signed(bytes, next)?;
    let x = sideways(code / 2 % 2, code / 4);
    Ok((Point { x, y }, end))
}
