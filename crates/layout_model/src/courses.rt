//! The course of a path: what of it can't be drawn.
ghost use Rattle.std.specs.Prelude.{◌≡◌, ◌↔◌, IsTrue, IfSome, IfNone};
ghost use Rattle.layout_model.specs.Paths.{same_point, is_diagonal, HasNoLength, IsFirstDiagonal, HasNoDiagonal, IsFirstTurnBack, HasNoTurnBack};

use crate::directions::{Direction, are_opposite, direction_to, later};
use half_grid::Point;

fn is_same(a: Point, b: Point) -> bool
    ensures { result ≡ same_point a b }
{
    a.x == b.x && a.y == b.y
}

fn is_diagonal(a: Point, b: Point) -> bool
    ensures { result ≡ is_diagonal (a, b) }
{
    a.x != b.x && a.y != b.y
}

// Whether all points are equal.
pub(crate) fn has_no_length(points: &[Point]) -> bool
    ensures { IsTrue result ↔ HasNoLength points.now }
{
    let Some((first, rest)) = points.split_first() else {
        return true;
    };
    for point in rest {
        if !is_same(*point, *first) {
            return false;
        }
    }
    true
}

// The number of the first point from which the next differs in both coordinates.
pub(crate) fn first_diagonal(points: &[Point]) -> Option<usize>
    ensures some { IfSome result (IsFirstDiagonal points.now) }
    ensures none { IfNone result (HasNoDiagonal points.now) }
{
    let Some((first, rest)) = points.split_first() else {
        return None;
    };
    let mut previous = *first;
    for (k, point) in rest.iter().enumerate() {
        if is_diagonal(previous, *point) {
            return Some(k);
        }
        previous = *point;
    }
    None
}

// The number of the first point from which the path goes back.
pub(crate) fn first_turn_back(points: &[Point]) -> Option<usize>
    ensures some { IfSome result (IsFirstTurnBack points.now) }
    ensures none { IfNone result (HasNoTurnBack points.now) }
{
    let Some((first, rest)) = points.split_first() else {
        return None;
    };
    let mut previous = *first;
    let mut heading = Direction::Still;
    for (k, point) in rest.iter().enumerate() {
        let onward = direction_to(previous, *point);
        if are_opposite(heading, onward) {
            return Some(k);
        }
        heading = later(heading, onward);
        previous = *point;
    }
    None
}
