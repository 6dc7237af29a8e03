//! The pieces of a shape's outline, by a sweep.
ghost use Rattle.std.specs.Prelude.{IfOk, ◌≡◌, ◌≢◌, [], ◌∷◌, All};
ghost use Rattle.std.specs.Int.{int_min, int_max};
ghost use Rattle.half_grid.specs.Outlines.{IsClosed, HasGridEdges};
ghost use Rattle.half_grid.specs.Reach.{IsPointWithinReach};
ghost use Rattle.half_grid.specs.Windows.{row_range};
ghost use Rattle.layout_model.specs.ShapeLists.{shape_in};
ghost use Rattle.bool_ops.specs.Operations.{AreRowsOf, ArePieces};

use crate::unions::unite;
use geo_stream::{NoMemory, gather};
use half_grid::{Operand, Point, Trap, Window};
use layout_model::ShapeRef;
use scan_line::EdgesOf;
use std::alloc::Global;

// The rows from the least to the greatest Y so far.
#[derive(Clone, Copy)]
struct Rows {
    least: i64,
    greatest: i64,
}

fn rows_of_point(p: &Point) -> Rows
    ensures least { result.least ≡ p.now.y }
    ensures greatest { result.greatest ≡ p.now.y }
{
    Rows {
        least: p.y,
        greatest: p.y,
    }
}

fn rows_with(rows: &Rows, p: &Point) -> Rows
    ensures least { result.least ≡ int_min rows.now.least p.now.y }
    ensures greatest { result.greatest ≡ int_max rows.now.greatest p.now.y }
{
    Rows {
        least: rows.least.min(p.y),
        greatest: rows.greatest.max(p.y),
    }
}

fn rows_from(first: Point, rest: &[Point]) -> Rows
    ensures { AreRowsOf (first ∷ rest.now) (row_range result.least result.greatest) }
{
    let mut rows = rows_of_point(&first);
    for p in rest {
        rows = rows_with(&rows, p);
    }
    rows
}

// All rows of a list of points that isn't empty.
fn window_of(points: &[Point]) -> Window
    requires { points.now ≢ [] }
    ensures { AreRowsOf points.now result }
{
    let rows = match points.split_first() {
        Some((first, rest)) => rows_from(*first, rest),
        None => unreachable!(),
    };
    match Window::new(rows.least, rows.greatest) {
        Some(window) => window,
        None => unreachable!(),
    }
}

// The joined list of the tiles in an outline, over all its rows, by the nonzero rule.
fn pieces_in(alloc: Global, points: &[Point]) -> Result<Vec<Trap>, NoMemory>
    requires closed { IsClosed points.now }
    requires grid { HasGridEdges points.now }
    requires reach { All IsPointWithinReach points.now }
    ensures { IfOk result (λ traps. ArePieces points.now traps.items) }
{
    let edges = gather(alloc, EdgesOf::new(points, Operand::A))?;
    unite(alloc, edges, window_of(points))
}

/// The joined list of the tiles in a shape's outline as it is drawn, moved by none of its offsets, over all its rows, by
/// the nonzero rule. The outline is closed, on the half grid and within reach. Only memory that runs out refuses it.
pub fn pieces(alloc: Global, shape: ShapeRef<'_>) -> Result<Vec<Trap>, NoMemory>
    requires closed { IsClosed (shape_in shape).points }
    requires grid { HasGridEdges (shape_in shape).points }
    requires reach { All IsPointWithinReach (shape_in shape).points }
    ensures { IfOk result (λ traps. ArePieces (shape_in shape.entry).points traps.items) }
{
    let outline = shape.outline();
    if let Some(points) = outline.as_slice() {
        return pieces_in(alloc, points);
    }
    let points = outline.to_vec(alloc)?;
    pieces_in(alloc, points.as_slice())
}
