//! The pieces of a layout's shapes.
ghost use Rattle.std.specs.Prelude.{◌≡◌, ◌<◌, ◌≤◌, ◌+◌, ◌*◌, ◌^◌, [], ◌∷◌, length, slice_get, Some, All, IsTrue, IfOk, IfSome, OnOk};
ghost use Rattle.layout_model.specs.Layouts.{IsCellOnGrid, IsShapeOnGrid};
ghost use Rattle.layout_model.specs.declared.shapes.Shape.{Shape as AShape};
ghost use Rattle.layout_model.specs.ShapeLists.{shape_in};
ghost use Rattle.layout_model.specs.Repeats.{AreCopies};
ghost use Rattle.bool_ops.specs.Operations.{ArePieces};
ghost use Rattle.cell_tree.specs.Cells.{shapes_at};
ghost use Rattle.cell_tree.specs.Chains.{IsReachable};
ghost use Rattle.half_grid.specs.Trapezoids.{CoversExactly};
ghost use Rattle.half_grid.specs.Winding.{IsInPolygon};
ghost use Rattle.deck_plan.specs.Plans.{AreAllCut, AreCutUpTo, IsGivenAgain, IsPushedAmong, IsPushedFor};

use bool_ops::{lone_piece, monotone_pieces, pieces};
use cell_tree::Tree;
use flat_walk::Parts;
use geo_stream::NoMemory;
use half_grid::Trap;
use layout_model::{Copies, ShapeRef, Shapes};
use std::alloc::Global;

// The pieces of one shape.
fn pieces_of(alloc: Global, shape: ShapeRef<'_>) -> Result<Vec<Trap>, NoMemory>
    requires { IsShapeOnGrid (shape_in shape) }
    ensures { IfOk result (λ traps. CoversExactly traps.items (IsInPolygon (shape_in shape.entry).points)) }
{
    pieces(alloc, shape)
}

// The shapes of a cell.
fn shapes_of(tree: &Tree, cell: usize) -> &Shapes
    requires { cell < length tree.now.layout.cells }
    ensures { result.now ≡ shapes_at tree.now.layout.cells cell }
{
    &tree.cells()[cell].shapes
}

// The one piece of a shape that is a rectangle or a trapezoid and has its points in place.
#[inline]
fn lone_piece_of(shape: ShapeRef<'_>) -> Option<Trap>
    requires { IsShapeOnGrid (shape_in shape) }
    ensures { IfSome result (λ trap. CoversExactly (trap ∷ []) (IsInPolygon (shape_in shape.entry).points)) }
{
    match shape.outline().as_slice() {
        Some(points) => lone_piece(points),
        None => None,
    }
}

// The pieces of a shape that has its points in place and goes up once and down once, in place of what the list held. False
// where they aren't known.
fn known_pieces(shape: ShapeRef<'_>, traps: &mut Vec<Trap>) -> Result<bool, NoMemory>
    requires { IsShapeOnGrid (shape_in shape) }
    ensures { IfOk result (λ known. IsTrue known → CoversExactly traps.new.items (IsInPolygon (shape_in shape.entry).points)) }
{
    match shape.outline().as_slice() {
        Some(points) => monotone_pieces(points, traps),
        None => Ok(false),
    }
}

// Pushes the pieces of one shape, and uses the list `traps` on the way, which may hold anything. A rectangle needs neither a
// sweep nor a list, and most other outlines no sweep.
fn cut_shape(
    alloc: Global,
    parts: &mut Parts<'_>,
    traps: &mut Vec<Trap>,
    cell: usize,
    shape: ShapeRef<'_>,
) -> Result<(), NoMemory>
    requires grid { IsShapeOnGrid (shape_in shape) }
    requires cell { cell < length parts.old }
    ensures { OnOk result (IsPushedFor (shape_in shape.entry) parts.old cell parts.new) }
{
    if let Some(trap) = lone_piece_of(shape) {
        return parts.push(cell, &[trap]);
    }
    if known_pieces(shape, traps)? {
        return parts.push(cell, traps.as_slice());
    }
    let swept = pieces_of(alloc, shape)?;
    parts.push(cell, swept.as_slice())
}

// Whether one of the shapes is the one before it, given again.
fn is_given_again(shapes: &Shapes, number: usize) -> bool
    requires { number < length shapes.now }
    ensures { IsTrue result → (shape : AShape) → slice_get shapes.now number ≡ Some shape → IsGivenAgain shapes.now number shape }
{
    if number == 0 {
        return false;
    }
    shapes.get(number - 1).is_again(shapes.get(number))
}

// Pushes the pieces of one of the shapes of a cell, by its number, as `cut_shape` does. A shape that is given again has none:
// it shows what it showed the first time.
fn push_shape(
    alloc: Global,
    parts: &mut Parts<'_>,
    traps: &mut Vec<Trap>,
    cell: usize,
    shapes: &Shapes,
    number: usize,
) -> Result<(), NoMemory>
    requires inside { number < length shapes.now }
    requires grid { All IsShapeOnGrid shapes.now }
    requires cell { cell < length parts.old }
    ensures { OnOk result (IsPushedAmong shapes.now parts.old cell number parts.new) }
{
    let shape = shapes.get(number);
    if is_given_again(shapes, number) {
        parts.push(cell, &[])?;
        return Ok(());
    }
    cut_shape(alloc, parts, traps, cell, shape)?;
    Ok(())
}

// Pushes the pieces of the shapes of a cell from one number on and below another.
fn cut_some(
    alloc: Global,
    parts: &mut Parts<'_>,
    traps: &mut Vec<Trap>,
    tree: &Tree,
    cell: usize,
    first: usize,
    end: usize,
) -> Result<(), NoMemory>
    requires grid { All IsCellOnGrid tree.now.layout.cells }
    requires cell { cell < length tree.now.layout.cells }
    requires reached { IsReachable tree.now.layout.cells tree.now.top cell }
    requires some { first ≤ end }
    requires inside { end ≤ length (shapes_at tree.now.layout.cells cell) }
    requires before { AreCutUpTo tree.now.layout.cells tree.now.top parts.old cell first }
    ensures { OnOk result (AreCutUpTo tree.now.layout.cells tree.now.top parts.new cell end) }
{
    let shapes = shapes_of(tree, cell);
    let mut number = first;
    while number < end {
        push_shape(alloc, parts, traps, cell, shapes, number)?;
        number += 1;
    }
    Ok(())
}

// The pieces of shapes of a cell, from one number on, of which the first ones are given so many times, one after another. They
// are cut once, and the others have no pieces.
fn cut_copies(
    alloc: Global,
    parts: &mut Parts<'_>,
    traps: &mut Vec<Trap>,
    tree: &Tree,
    cell: usize,
    number: usize,
    copies: Copies,
) -> Result<(), NoMemory>
    requires grid { All IsCellOnGrid tree.now.layout.cells }
    requires cell { cell < length tree.now.layout.cells }
    requires reached { IsReachable tree.now.layout.cells tree.now.top cell }
    requires copies { AreCopies (shapes_at tree.now.layout.cells cell) number copies.period copies.times }
    requires few { number + copies.times * copies.period < 2 ^ 64 }
    requires before { AreCutUpTo tree.now.layout.cells tree.now.top parts.old cell number }
    ensures { OnOk result (AreCutUpTo tree.now.layout.cells tree.now.top parts.new cell (number + copies.times * copies.period)) }
{
    parts.reserve(cell, copies.period)?;
    cut_some(
        alloc,
        parts,
        traps,
        tree,
        cell,
        number,
        number + copies.period,
    )?;
    parts.push_none(cell, (copies.times - 1) * copies.period)
}

// The pieces of the shapes of a cell, or none where it has nothing to show.
fn cut_cell(
    alloc: Global,
    parts: &mut Parts<'_>,
    traps: &mut Vec<Trap>,
    tree: &Tree,
    cell: usize,
) -> Result<(), NoMemory>
    requires grid { All IsCellOnGrid tree.now.layout.cells }
    requires cell { cell < length tree.now.layout.cells }
    requires before { AreCutUpTo tree.now.layout.cells tree.now.top parts.old cell 0 }
    ensures { OnOk result (AreCutUpTo tree.now.layout.cells tree.now.top parts.new (cell + 1) 0) }
{
    if tree.is_bare(cell) {
        return Ok(());
    }
    let shapes = shapes_of(tree, cell);
    let mut number = 0;
    while number < shapes.len() {
        let copies = shapes.copies_at(number);
        cut_copies(alloc, parts, traps, tree, cell, number, copies)?;
        number += copies.times * copies.period;
    }
    Ok(())
}

/// The pieces of each shape of the cells that are reached from the top cell, but none of a shape that is the one before it in
/// its cell, given again: a long outline that a modal variable gives a thousand times is cut once. Of a path that is given
/// again and again only the first one's shapes are cut, and the others aren't looked at. Of the other cells nothing is cut.
/// Want of memory is the only refusal.
pub fn cut_parts<'t>(alloc: Global, tree: &'t Tree) -> Result<Parts<'t>, NoMemory>
    ensures { IfOk result (λ parts. AreAllCut tree.now.layout.cells tree.now.top parts) }
{
    let cells = tree.cells();
    let mut parts = Parts::new(alloc, tree)?;
    let mut traps = Vec::new(alloc);
    let mut cell = 0;
    while cell < cells.len() {
        cut_cell(alloc, &mut parts, &mut traps, tree, cell)?;
        cell += 1;
    }
    Ok(parts)
}
