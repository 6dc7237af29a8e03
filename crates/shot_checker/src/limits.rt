//! The limits of a shot's height and width.
ghost use Rattle.std.specs.Prelude.{IfSome, IfNone, All};
ghost use Rattle.shot_checker.specs.Verdicts.{Fits, IsFirstTooLarge};

use half_grid::{Limits, Trap, fits};

/// The number of the first shot, counted from 0, whose height or box width is beyond the limits. None exactly where
/// each shot fits.
pub fn too_large(shots: &[Trap], limits: &Limits) -> Option<usize>
    ensures some { IfSome result (IsFirstTooLarge shots.now limits.now) }
    ensures none { IfNone result (All (Fits limits.now) shots.now) }
{
    for (k, shot) in shots.iter().enumerate() {
        if !fits(shot, limits) {
            return Some(k);
        }
    }
    None
}
