//! Positions.
ghost use Rattle.std.specs.Prelude.{◌≡◌, ◌^◌};
ghost use Rattle.oas_fields.specs.Steps.{IsNearCoordinate, coordinate_moved, place_moved};
ghost use Rattle.oas_fields.specs.Values.{IsPlaceWithin};

/// A position, in grid steps.
#[derive(Clone, Copy, Debug, PartialEq, Eq)]
pub struct Place {
    /// To the right.
    pub x: i128,
    /// Up.
    pub y: i128,
}

/// What a record writes of a position.
#[derive(Clone, Copy, Debug, PartialEq, Eq)]
pub(crate) struct Step {
    /// To the right.
    pub(crate) x: Option<i64>,
    /// Up.
    pub(crate) y: Option<i64>,
}

// A coordinate with what is written of it.
#[inline(always)]
fn coordinate(is_relative: bool, written: Option<i64>, before: i128) -> i128
    requires { IsNearCoordinate before }
    ensures { result ≡ coordinate_moved is_relative written before }
{
    match written {
        Some(step) => {
            if is_relative {
                return before + i128::from(step);
            }
            i128::from(step)
        }
        None => before,
    }
}

/// The position after a record that writes this of it.
#[inline(always)]
pub(crate) fn moved(is_relative: bool, written: Step, before: Place) -> Place
    requires { IsPlaceWithin (2 ^ 100) before }
    ensures { result ≡ place_moved is_relative written before }
{
    Place {
        x: coordinate(is_relative, written.x, before.x),
        y: coordinate(is_relative, written.y, before.y),
    }
}
