//! Edges that share rows on one line, one up and the other down, as sides of shapes that meet do.
ghost use Rattle.std.specs.Prelude.{◌≡◌, ◌∷◌, ◌++◌, ◌-◌, [], Some, length, slice_get, true, OnOk};
ghost use Rattle.half_grid.specs.Edges.{EdgeParts};
ghost use Rattle.column_sweep.specs.Parts.{rests};
ghost use Rattle.column_sweep.specs.RowSums.{AddUpAlike};

use crate::parting::{part_above, part_below};
use crate::sums::{bottom_of, is_of, put, top_of};
use geo_stream::NoMemory;
use half_grid::Edge;

// Whether the edges share a row of one line, for one operand, and go opposite ways.
fn do_meet(e: &Edge, f: &Edge) -> bool
    ensures { result ≡ true → AddUpAlike (rests e.now f.now) (e.now ∷ f.now ∷ []) }
{
    if e.line() != f.line() {
        return false;
    }
    if e.is_up() == f.is_up() {
        return false;
    }
    if e.y1() <= f.y0() {
        return false;
    }
    if f.y1() <= e.y0() {
        return false;
    }
    is_of(e.operand(), f.operand())
}

// Whether there is a last edge, and it meets the other.
fn meets_last(edges: &[Edge], edge: &Edge) -> bool
    ensures { (last : EdgeParts) → slice_get edges.now (length edges.now - 1) ≡ Some last → result ≡ true
        → AddUpAlike (rests last edge.now) (last ∷ edge.now ∷ []) }
{
    match edges.last() {
        Some(last) => do_meet(last, edge),
        None => false,
    }
}

// Puts what each of the edges has besides the rows of the other at the end.
fn put_rests(edges: &mut Vec<Edge>, e: &Edge, f: &Edge) -> Result<(), NoMemory>
    ensures { OnOk result (edges.new.items ≡ edges.old.items ++ rests e.now f.now) }
{
    put(edges, part_below(e, bottom_of(f)))?;
    put(edges, part_below(f, bottom_of(e)))?;
    put(edges, part_above(e, top_of(f)))?;
    put(edges, part_above(f, top_of(e)))
}

/// Puts the edge at the end. Where it shares rows of one line with the last one, and goes the other way, as the side of a
/// shape that meets the one before does, what both have besides these rows is put in the place of both: in the common rows
/// they add up to nothing.
pub fn put_edge(edges: &mut Vec<Edge>, edge: Edge) -> Result<(), NoMemory>
    ensures { OnOk result (AddUpAlike edges.new.items (edges.old.items ++ edge ∷ [])) }
{
    if meets_last(edges.as_slice(), &edge) {
        if let Some(last) = edges.pop() {
            return put_rests(edges, &last, &edge);
        }
    }
    edges.push(edge)?;
    Ok(())
}
