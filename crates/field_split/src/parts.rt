//! The pieces of a trapezoid between two upright lines.
ghost use Rattle.std.specs.Prelude.{◌≡◌, ◌≤ℤ◌, ◌<ℤ◌, None, Some};
ghost use Rattle.std.specs.Prelude.{int_lt};
ghost use Rattle.half_grid.specs.Halves.{twice};
ghost use Rattle.half_grid.specs.Lines.{first_strip, x_on};
ghost use Rattle.half_grid.specs.Reach.{IsWithinReach};
ghost use Rattle.half_grid.specs.Rows.{place};
ghost use Rattle.half_grid.specs.Trapezoids.{IsShot};
ghost use Rattle.field_split.specs.Cutting.{IsNearFieldLine, AreColumns, piece_shape, meeting, turn, rows_left_of, rows_right_of, rows_in, left_in, right_in, piece, lower_piece, middle_piece, upper_piece};
ghost use Rattle.field_split.specs.Pieces.{shape_of, shape_of_some};

use crate::part::Part;
use half_grid::Line;

/// The rows from `y0` up to below `y1`.
#[derive(Clone, Copy)]
pub(crate) struct Rows {
    pub(crate) y0: i64,
    pub(crate) y1: i64,
}

/// The columns from `x0` up to below `x1`.
#[derive(Clone, Copy)]
pub(crate) struct Columns {
    pub(crate) x0: i64,
    pub(crate) x1: i64,
}

// An upright line, by its X.
#[derive(Clone, Copy)]
struct Wall {
    x: i64,
}

/// The pieces of a trapezoid in some columns, from below.
#[derive(Clone, Copy, Debug)]
pub(crate) struct PartsIn {
    pub(crate) lower: Option<Part>,
    pub(crate) middle: Option<Part>,
    pub(crate) upper: Option<Part>,
}

// Where the line meets the wall; the first Y of the rows for an upright line.
fn meeting(line: Line, wall: Wall, rows: Rows) -> i64
    requires line { IsWithinReach (first_strip line) }
    requires wall { IsNearFieldLine wall.x }
    ensures { result ≡ meeting line wall.x rows }
{
    match line {
        Line::Upright(_) => rows.y0,
        Line::Rising(c) => wall.x - 2 * c,
        Line::Falling(c) => 2 * c - wall.x,
    }
}

// The Y of the rows that is next to where the line meets the wall.
#[tactic(auto, unfolding(crate::specs::Cutting::turn))]
fn turn(line: Line, wall: Wall, rows: Rows) -> i64
    requires line { IsWithinReach (first_strip line) }
    requires wall { IsNearFieldLine wall.x }
    requires rows { rows.y0 ≤ℤ rows.y1 }
    ensures value { result ≡ turn line wall.x rows }
    ensures low { rows.y0 ≤ℤ result }
    ensures high { result ≤ℤ rows.y1 }
{
    rows.y0.max(rows.y1.min(meeting(line, wall, rows)))
}

// The rows in which the line lies left of the wall.
#[tactic(auto, unfolding(crate::specs::Cutting::rows_left_of, crate::specs::Cutting::turn))]
fn rows_left_of(line: Line, wall: Wall, rows: Rows) -> Rows
    requires line { IsWithinReach (first_strip line) }
    requires wall { IsNearFieldLine wall.x }
    requires rows { rows.y0 ≤ℤ rows.y1 }
    ensures value { result ≡ rows_left_of line wall.x rows }
    ensures order { result.y0 ≤ℤ result.y1 }
    ensures low { rows.y0 ≤ℤ result.y0 }
    ensures high { result.y1 ≤ℤ rows.y1 }
{
    let y = turn(line, wall, rows);
    match line {
        Line::Upright(c) => {
            if c < wall.x {
                return rows;
            }
            Rows {
                y0: rows.y0,
                y1: rows.y0,
            }
        }
        Line::Rising(_) => Rows { y0: rows.y0, y1: y },
        Line::Falling(_) => Rows { y0: y, y1: rows.y1 },
    }
}

// The rows in which the line lies right of the wall.
#[tactic(auto, unfolding(crate::specs::Cutting::rows_right_of, crate::specs::Cutting::turn))]
fn rows_right_of(line: Line, wall: Wall, rows: Rows) -> Rows
    requires line { IsWithinReach (first_strip line) }
    requires wall { IsNearFieldLine wall.x }
    requires rows { rows.y0 ≤ℤ rows.y1 }
    ensures value { result ≡ rows_right_of line wall.x rows }
    ensures order { result.y0 ≤ℤ result.y1 }
    ensures low { rows.y0 ≤ℤ result.y0 }
    ensures high { result.y1 ≤ℤ rows.y1 }
{
    let y = turn(line, wall, rows);
    match line {
        Line::Upright(c) => {
            if wall.x < c {
                return rows;
            }
            Rows {
                y0: rows.y0,
                y1: rows.y0,
            }
        }
        Line::Rising(_) => Rows { y0: y, y1: rows.y1 },
        Line::Falling(_) => Rows { y0: rows.y0, y1: y },
    }
}

// The X of the line at the foot of the rows.
fn x_at_foot(line: Line, rows: Rows) -> i64
    requires line { IsWithinReach (first_strip line) }
    requires row { IsWithinReach rows.y0 }
    ensures { result ≡ x_on line rows.y0 }
{
    match line {
        Line::Upright(c) => c,
        Line::Rising(c) => 2 * c + rows.y0,
        Line::Falling(c) => 2 * c - rows.y0,
    }
}

// Whether the line lies left of the wall in the first of the rows.
fn lies_left(line: Line, wall: Wall, rows: Rows) -> bool
    requires line { IsWithinReach (first_strip line) }
    requires row { IsWithinReach rows.y0 }
    ensures { result ≡ int_lt (place line rows.y0) (twice wall.x) }
{
    let x = x_at_foot(line, rows);
    match line {
        Line::Upright(_) | Line::Rising(_) => x < wall.x,
        Line::Falling(_) => x <= wall.x,
    }
}

// Whether it lies right of the wall there.
fn lies_right(line: Line, wall: Wall, rows: Rows) -> bool
    requires line { IsWithinReach (first_strip line) }
    requires row { IsWithinReach rows.y0 }
    ensures { result ≡ int_lt (twice wall.x) (place line rows.y0) }
{
    let x = x_at_foot(line, rows);
    match line {
        Line::Upright(_) | Line::Falling(_) => wall.x < x,
        Line::Rising(_) => wall.x <= x,
    }
}

// The line at the left of the part's tiles in the columns, in the first of the rows.
fn left_in(part: &Part, columns: Columns, rows: Rows) -> Line
    requires row { IsWithinReach rows.y0 }
    ensures { result ≡ left_in (shape_of part.now) columns rows.y0 }
{
    if lies_left(part.left, Wall { x: columns.x0 }, rows) {
        return Line::Upright(columns.x0);
    }
    part.left
}

// The line at their right.
fn right_in(part: &Part, columns: Columns, rows: Rows) -> Line
    requires row { IsWithinReach rows.y0 }
    ensures { result ≡ right_in (shape_of part.now) columns rows.y0 }
{
    if lies_right(part.right, Wall { x: columns.x1 }, rows) {
        return Line::Upright(columns.x1);
    }
    part.right
}

// The piece of these rows, where there are any.
#[tactic(auto, unfolding(crate::specs::Cutting::piece))]
fn piece(part: &Part, columns: Columns, rows: Rows) -> Option<Part>
    requires columns { AreColumns columns }
    requires low { part.now.y0 ≤ℤ rows.y0 }
    requires high { rows.y1 ≤ℤ part.now.y1 }
    requires shot { rows.y0 <ℤ rows.y1 → IsShot (piece_shape (shape_of part.now) columns rows) }
    ensures { shape_of_some result ≡ piece (shape_of part.now) columns rows }
{
    if rows.y1 <= rows.y0 {
        return None;
    }
    Some(Part {
        y0: rows.y0,
        y1: rows.y1,
        left: left_in(part, columns, rows),
        right: right_in(part, columns, rows),
    })
}

// The rows in which the part has tiles in the columns.
fn rows_in(part: &Part, columns: Columns) -> Rows
    requires { AreColumns columns }
    ensures value { result ≡ rows_in (shape_of part.now) columns }
    ensures order { result.y0 ≤ℤ result.y1 }
    ensures low { part.now.y0 ≤ℤ result.y0 }
    ensures high { result.y1 ≤ℤ part.now.y1 }
{
    let rows = Rows {
        y0: part.y0,
        y1: part.y1,
    };
    let below = rows_left_of(part.left, Wall { x: columns.x1 }, rows);
    rows_right_of(part.right, Wall { x: columns.x0 }, below)
}

/// The pieces of the part in the columns.
pub(crate) fn parts_in(part: &Part, columns: Columns) -> PartsIn
    requires { AreColumns columns }
    ensures lower { shape_of_some result.lower ≡ lower_piece (shape_of part.now) columns (rows_in (shape_of part.now) columns) }
    ensures middle { shape_of_some result.middle ≡ middle_piece (shape_of part.now) columns (rows_in (shape_of part.now) columns) }
    ensures upper { shape_of_some result.upper ≡ upper_piece (shape_of part.now) columns (rows_in (shape_of part.now) columns) }
{
    let rows = rows_in(part, columns);
    let first = turn(part.left, Wall { x: columns.x0 }, rows);
    let second = turn(part.right, Wall { x: columns.x1 }, rows);
    let (y0, y1) = (first.min(second), first.max(second));
    PartsIn {
        lower: piece(
            part,
            columns,
            Rows {
                y0: rows.y0,
                y1: y0,
            },
        ),
        middle: piece(part, columns, Rows { y0, y1 }),
        upper: piece(
            part,
            columns,
            Rows {
                y0: y1,
                y1: rows.y1,
            },
        ),
    }
}
