//! The directions of the edges of paths.
ghost use Rattle.std.specs.Prelude.{◌≡◌};
ghost use Rattle.layout_model.specs.Paths.{direction_of, are_opposite, are_one, later};
ghost use Rattle.layout_model.specs.Walks.{is_direction, is_turn};

use half_grid::Point;

/// Where one goes from a point to another that differs from it in at most one coordinate.
#[derive(Clone, Copy, Debug, PartialEq, Eq)]
pub(crate) enum Direction {
    /// The two points are one.
    Still,
    /// To greater X.
    East,
    /// To lesser X.
    West,
    /// To greater Y.
    North,
    /// To lesser Y.
    South,
}

// Where one goes from a to b.
pub(crate) fn direction_to(a: Point, b: Point) -> Direction
    ensures { result ≡ direction_of a b }
{
    if a.x < b.x {
        return Direction::East;
    }
    if b.x < a.x {
        return Direction::West;
    }
    if a.y < b.y {
        return Direction::North;
    }
    if b.y < a.y {
        return Direction::South;
    }
    Direction::Still
}

pub(crate) fn are_opposite(first: Direction, second: Direction) -> bool
    ensures { result ≡ are_opposite first second }
{
    match first {
        Direction::Still => false,
        Direction::East => matches!(second, Direction::West),
        Direction::West => matches!(second, Direction::East),
        Direction::North => matches!(second, Direction::South),
        Direction::South => matches!(second, Direction::North),
    }
}

// The second direction, or the first where the second is none.
pub(crate) fn later(first: Direction, second: Direction) -> Direction
    ensures { result ≡ later first second }
{
    match second {
        Direction::Still => first,
        other => other,
    }
}

fn are_one(first: Direction, second: Direction) -> bool
    ensures { result ≡ are_one first second }
{
    match first {
        Direction::Still => matches!(second, Direction::Still),
        Direction::East => matches!(second, Direction::East),
        Direction::West => matches!(second, Direction::West),
        Direction::North => matches!(second, Direction::North),
        Direction::South => matches!(second, Direction::South),
    }
}

fn is_direction(direction: Direction) -> bool
    ensures { result ≡ is_direction direction }
{
    !matches!(direction, Direction::Still)
}

// Whether both are directions, and they differ.
pub(crate) fn is_turn(first: Direction, second: Direction) -> bool
    ensures { result ≡ is_turn first second }
{
    is_direction(first) && is_direction(second) && !are_one(first, second)
}
