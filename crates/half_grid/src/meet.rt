//! Where two lines meet.
ghost use Rattle.std.specs.Prelude.{IfSome, IfNone};
ghost use Rattle.half_grid.specs.Lines.{first_strip};
ghost use Rattle.half_grid.specs.Meetings.{MeetOnlyAt, AreParallel};
ghost use Rattle.half_grid.specs.Reach.{IsWithinReach};

use crate::plane::Line;

/// The one Y at which two lines meet. None where they are parallel, also where they are one line.
#[inline]
pub fn meeting_y(l: Line, m: Line) -> Option<i64>
    requires first { IsWithinReach (first_strip l) }
    requires second { IsWithinReach (first_strip m) }
    ensures meets { IfSome result (MeetOnlyAt l m) }
    ensures parallel { IfNone result (AreParallel l m) }
{
    match (l, m) {
        (Line::Upright(c), Line::Rising(d)) => Some(c - 2 * d),
        (Line::Upright(c), Line::Falling(d)) => Some(2 * d - c),
        (Line::Rising(c), Line::Upright(d)) => Some(d - 2 * c),
        (Line::Rising(c), Line::Falling(d)) => Some(d - c),
        (Line::Falling(c), Line::Upright(d)) => Some(2 * c - d),
        (Line::Falling(c), Line::Rising(d)) => Some(c - d),
        (Line::Upright(_), Line::Upright(_)) => None,
        (Line::Rising(_), Line::Rising(_)) => None,
        (Line::Falling(_), Line::Falling(_)) => None,
    }
}
