//! Closed point lists: the line of an edge, and the winding at a tile.
ghost use Rattle.std.specs.Prelude.{◌≡◌, ◌≢◌, pos, ◌≤ℤ◌, ◌<ℤ◌, ◌⊎◌, IfSome, IfNone};
ghost use Rattle.half_grid.specs.declared.plane.Line.{Line};
ghost use Rattle.half_grid.specs.Lines.{Passes, line_of, share_rising, share_falling};
ghost use Rattle.half_grid.specs.Reach.{IsTileWithinReach};
ghost use Rattle.half_grid.specs.Winding.{winding, crossing_of, is_right_of, rises_past, count_one};

use crate::plane::{Line, Point, Tile};
use crate::rows::is_right_of;
use crate::sums::{half_difference, half_sum, is_even_number};

fn share_rising(a: Point, b: Point) -> bool
    ensures { result ≡ share_rising a b }
{
    let along = a.difference();
    is_even_number(along) && along == b.difference()
}

fn share_falling(a: Point, b: Point) -> bool
    ensures { result ≡ share_falling a b }
{
    let along = a.sum();
    is_even_number(along) && along == b.sum()
}

#[tactic(auto, unfolding(crate::specs::Lines::line_of))]
fn find_line(a: Point, b: Point) -> Option<Line>
    ensures { result ≡ line_of a b }
{
    if a.y == b.y {
        return None;
    }
    if a.x == b.x {
        return Some(Line::Upright(a.x));
    }
    if share_rising(a, b) {
        return Some(Line::Rising(half_difference(a.x, a.y)));
    }
    if share_falling(a, b) {
        return Some(Line::Falling(half_sum(a.x, a.y)));
    }
    None
}

/// The line through two points, which has one of the three kinds. None where the two have the same Y or no such
/// line passes through both.
pub fn line_through(a: Point, b: Point) -> Option<Line>
    ensures exact { result ≡ line_of a b }
    ensures through { IfSome result (λ line. Passes line a × Passes line b × (a.y ≢ b.y)) }
    ensures none { IfNone result ((line : Line) → Passes line a → Passes line b → a.y ≡ b.y) }
{
    find_line(a, b)
}

// Whether the tile's row lies between the Y of the first point and that of the second, which is higher.
fn rises_past(tile: Tile, a: Point, b: Point) -> bool
    ensures { result ≡ rises_past tile a b }
{
    a.y <= tile.j && tile.j < b.y
}

fn one_if(test: bool) -> i128
    ensures { result ≡ pos (count_one test) }
{
    if test { 1 } else { 0 }
}

// What the edge from a to b adds to the winding: 1 where it goes up through the tile's row and has the tile on its
// right, -1 where it goes down so, and else 0.
fn crossing(tile: Tile, a: Point, b: Point) -> i128
    requires { IsTileWithinReach tile }
    ensures { result ≡ crossing_of tile a b }
{
    if rises_past(tile, a, b) {
        return one_if(is_right_of_any(tile, find_line(a, b)));
    }
    if rises_past(tile, b, a) {
        return -one_if(is_right_of_any(tile, find_line(a, b)));
    }
    0
}

// Whether the tile is right of the line, where there is one.
fn is_right_of_any(tile: Tile, line: Option<Line>) -> bool
    requires { IsTileWithinReach tile }
    ensures { result ≡ is_right_of tile line }
{
    match line {
        None => false,
        Some(line) => is_right_of(tile, line),
    }
}

/// The winding of a closed point list at a tile: the edges that go up through its row with the tile on their right,
/// less those that go down so. It asks every edge, so its cost is the length of the list.
pub fn winding_at(points: &[Point], tile: Tile) -> i128
    requires { IsTileWithinReach tile }
    ensures { result ≡ winding points.now tile }
{
    let Some((first, rest)) = points.split_first() else {
        return 0;
    };
    let mut previous = *first;
    let mut winding = 0;
    for point in rest {
        winding += crossing(tile, previous, *point);
        previous = *point;
    }
    winding
}
