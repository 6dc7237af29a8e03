//! Where tiles and lines lie, row by row.
ghost use Rattle.std.specs.Prelude.{◌≡◌, int_le, pos, ◌-ℤ◌, ◌+ℤ◌, ◌≤ℤ◌, ◌<ℤ◌};
ghost use Rattle.half_grid.specs.Halves.{half, twice};
ghost use Rattle.half_grid.specs.Tiles.{strips_of, sum_strip, difference_strip};
ghost use Rattle.half_grid.specs.Lines.{x_on, first_strip, strip_along};
ghost use Rattle.half_grid.specs.Rows.{number_in_row, place};
ghost use Rattle.half_grid.specs.Reach.{IsWithinReach, IsTileWithinReach};

use crate::plane::{Line, Side, Strips, Tile};
use crate::sums::{half_of, is_even_number};

/// The four strips of a tile: its column, its row, and the strips along the two diagonals.
pub fn strips(tile: Tile) -> Strips
    requires { IsTileWithinReach tile }
    ensures { result ≡ strips_of tile }
{
    Strips {
        i: tile.i,
        j: tile.j,
        p: sum_strip(tile),
        q: difference_strip(tile),
    }
}

// The strip of `X + Y`. Rounding down does what the table does by parity.
fn sum_strip(tile: Tile) -> i64
    requires { IsTileWithinReach tile }
    ensures { result ≡ sum_strip tile.i tile.j tile.side }
{
    let sum = tile.i + tile.j;
    match tile.side {
        Side::Left => sum >> 1,
        Side::Right => (sum + 1) >> 1,
    }
}

// The strip of `X - Y`.
fn difference_strip(tile: Tile) -> i64
    requires { IsTileWithinReach tile }
    ensures { result ≡ difference_strip tile.i tile.j tile.side }
{
    let difference = tile.i - tile.j;
    match tile.side {
        Side::Left => (difference - 1) >> 1,
        Side::Right => difference >> 1,
    }
}

/// The X of the line at `y`.
#[inline]
pub fn x_at(line: Line, y: i64) -> i64
    requires x { IsWithinReach (x_on line y) }
    requires y { IsWithinReach y }
    ensures { result ≡ x_on line y }
{
    x_near(line, y)
}

// The X of a line whose own number is within reach.
#[inline]
pub(crate) fn x_near(line: Line, y: i64) -> i64
    requires line { IsWithinReach (first_strip line) }
    requires y { IsWithinReach y }
    ensures { result ≡ x_on line y }
{
    match line {
        Line::Upright(c) => c,
        Line::Rising(c) => 2 * c + y,
        Line::Falling(c) => 2 * c - y,
    }
}

// The number of the first strip right of the line.
#[inline]
pub(crate) fn first_strip(line: Line) -> i64
    ensures { result ≡ first_strip line }
{
    match line {
        Line::Upright(c) | Line::Rising(c) | Line::Falling(c) => c,
    }
}

/// The number of a tile in its row: `2i` for the left tile of the column `i`, `2i + 1` for the right one.
#[inline]
pub fn number_of(tile: Tile) -> i64
    requires { IsTileWithinReach tile }
    ensures { result ≡ number_in_row tile }
{
    match tile.side {
        Side::Left => 2 * tile.i,
        Side::Right => 2 * tile.i + 1,
    }
}

/// The place of a line in the row `row`: a tile of the row is right of the line exactly where the place is at
/// most the tile's number.
#[inline]
pub fn place_of(line: Line, row: i64) -> i64
    requires bottom { IsWithinReach (x_on line row) }
    requires top { IsWithinReach (x_on line (row +ℤ pos 1)) }
    requires row { IsWithinReach row }
    requires next_row { IsWithinReach (row +ℤ pos 1) }
    ensures { result ≡ place line row }
{
    x_at(line, row) + x_at(line, row + 1)
}

/// The tile of the row with this number.
pub fn tile_at(row: i64, number: i64) -> Tile
    ensures row { result.j ≡ row }
    ensures number { number_in_row result ≡ number }
{
    let column = half_of(number);
    if is_even_number(number as i128) {
        return Tile {
            i: column,
            j: row,
            side: Side::Left,
        };
    }
    Tile {
        i: column,
        j: row,
        side: Side::Right,
    }
}

/// The line along the diagonal of the cell in this column and row.
pub fn diagonal_of(column: i64, row: i64) -> Line
    requires column { IsWithinReach column }
    requires row { IsWithinReach row }
    ensures place { place result row ≡ twice column +ℤ pos 1 }
{
    let difference = column - row;
    if is_even_number(difference as i128) {
        return Line::Rising(half_of(difference));
    }
    Line::Falling(half_of(column + row + 1))
}

/// The one line that has the place `number` in the row.
pub fn line_at(row: i64, number: i64) -> Line
    requires row { IsWithinReach row }
    requires number { IsWithinReach (half number) }
    ensures place { place result row ≡ number }
{
    let column = half_of(number);
    if is_even_number(number as i128) {
        return Line::Upright(column);
    }
    diagonal_of(column, row)
}

// Whether the tile is right of the line.
pub(crate) fn is_right_of(tile: Tile, line: Line) -> bool
    requires { IsTileWithinReach tile }
    ensures { result ≡ int_le (first_strip line) (strip_along line tile) }
{
    match line {
        Line::Upright(c) => c <= tile.i,
        Line::Rising(c) => c <= strips(tile).q,
        Line::Falling(c) => c <= strips(tile).p,
    }
}
