//! What a list of shots shows before it is split.
ghost use Rattle.std.specs.Prelude.{◌≡◌, ◌↔◌, [], All, IsTrue, IfSome, IfNone};
ghost use Rattle.half_grid.specs.Trapezoids.{IsShot};
ghost use Rattle.field_split.specs.Looks.{IsWithinFieldReach, IsFieldShot, IsFirstTooWide, AreStripesOf};

use crate::fields::Fields;
use half_grid::{Limits, Trap, fits};

/// The reach of a field: a shot that is higher, or whose box is wider, isn't split.
pub const FIELD_REACH: Limits = Limits {
    height: 16_777_216,
    width: 33_554_432,
};

// Whether the shot is within the reach of a field.
fn can_be_split(shot: &Trap) -> bool
    ensures reach { IsTrue result ↔ IsWithinFieldReach shot.now }
    ensures shot { IsShot shot.now }
{
    let _row = shot.y0();
    fits(shot, &FIELD_REACH)
}

/// The number of the first shot, counted from 0, that is past the reach of a field. None exactly where each shot is
/// within it.
pub fn too_wide(shots: &[Trap]) -> Option<usize>
    ensures some { IfSome result (IsFirstTooWide shots.now) }
    ensures none { IfNone result (All IsFieldShot shots.now) }
{
    for (k, shot) in shots.iter().enumerate() {
        if !can_be_split(shot) {
            return Some(k);
        }
    }
    None
}

/// The least and the greatest stripe that a shot meets. None exactly where there are no shots.
pub fn stripes(shots: &[Trap], fields: &Fields) -> Option<(i64, i64)>
    ensures some { IfSome result (λ both. AreStripesOf fields.now shots.now both.0 both.1) }
    ensures none { IfNone result (shots.now ≡ []) }
{
    let first = shots.first()?;
    let (mut low, mut high) = (first.y0(), first.y1());
    for shot in shots {
        low = low.min(shot.y0());
        high = high.max(shot.y1());
    }
    Some((fields.stripe_of(low), fields.stripe_of(high - 1)))
}
