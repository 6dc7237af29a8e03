//! The factor and the quarter turns of a placement, by whole numbers.
ghost use Rattle.std.specs.Prelude.{◌≡◌, ◌≤◌, ℕ, pos, IfSome, IfNone};
ghost use Rattle.layout_model.specs.Turns.{IsTurn};

/// The number as a factor: 1 to 16.
pub fn factor_in(n: i64) -> Option<u8>
    ensures some { IfSome result (λ factor. (n ≡ pos factor) × (1 ≤ factor) × (factor ≤ 16)) }
    ensures none { IfNone result ((factor : ℕ) → n ≡ pos factor → 1 ≤ factor → factor ≤ 16 → ⊥) }
{
    if n < 1 {
        return None;
    }
    if n > 16 {
        return None;
    }
    Some(n as u8)
}

/// The quarter turns counterclockwise, 0 to 3, of a multiple of 90 degrees from -360 to 360.
pub fn turns_in(degrees: i64) -> Option<u8>
    ensures some { IfSome result (λ turns. IsTurn degrees turns) }
    ensures none { IfNone result ((turns : ℕ) → ¬ IsTurn degrees turns) }
{
    if degrees == 0 || degrees == 360 || degrees == -360 {
        return Some(0);
    }
    if degrees == 90 || degrees == -270 {
        return Some(1);
    }
    if degrees == 180 || degrees == -180 {
        return Some(2);
    }
    if degrees == 270 || degrees == -90 {
        return Some(3);
    }
    None
}
