//! The area of many quadrilaterals that lie one over another.
ghost use Rattle.std.specs.Prelude.{◌≡◌, ◌≤◌, ◌++◌, List, IfOk, OnOk};
ghost use Rattle.std.specs.List.{flat_map};
ghost use Rattle.half_grid.specs.Quads.{Corners};
ghost use Rattle.half_grid.specs.declared.border.Operand.TheVariants.{A};
ghost use Rattle.column_sweep.specs.RowSums.{AddUpAlike};
ghost use Rattle.deck_plan.specs.Lists.{HasArea};
ghost use Rattle.deck_plan.specs.Rings.{edges_of_quad, AreQuads, IsInSomeQuad};

use crate::layers::put_ring;
use bool_ops::{Op, combine, unite};
use geo_stream::{NoMemory, Stream};
use half_grid::{Edge, Operand, Quad, Trap, Window};
use std::alloc::Global;

// How many quadrilaterals are united at once. Where they lie one over another, that takes the square of it.
const BATCH: usize = 2048;

/// How many edges a sweep of so many may go over before these are taken for a pile: one over another, each at the ends of
/// all others.
pub(crate) fn most_of_sweep(count: usize) -> u64 {
    (count as u64)
        .saturating_mul(2048)
        .saturating_add(1_048_576)
}

// Puts the edges of the next so many quadrilaterals at the end, or of all that are left.
fn put_some<S: Stream<Item = Quad>>(
    edges: &mut Vec<Edge>,
    quads: &mut S,
    count: usize,
) -> Result<(), NoMemory>
    requires { (list : List Corners) × S.stands_for quads.old list }
    ensures put { (list : List Corners) → S.stands_for quads.old list → OnOk result ((batch rest : List Corners) × (list ≡ batch ++ rest) × S.stands_for quads.new rest × AddUpAlike edges.new.items (edges.old.items ++ flat_map (edges_of_quad A) batch)) }
    ensures size { OnOk result (S.size quads.new ≤ S.size quads.old) }
{
    for _n in 0..count {
        match quads.next() {
            Some(quad) => put_ring(edges, &quad, Operand::A)?,
            None => return Ok(()),
        }
    }
    Ok(())
}

/// The joined list of the window's tiles that some quadrilateral of the stream has. They are united some thousands at a time,
/// and each area so made with those before: so it takes no time that grows with the square of how many lie one over another.
pub(crate) fn piled_area<S: Stream<Item = Quad>>(
    alloc: Global,
    quads: &mut S,
    window: Window,
) -> Result<Vec<Trap>, NoMemory>
    requires { (list : List Corners) × S.stands_for quads.old list × AreQuads list }
    ensures { (list : List Corners) → S.stands_for quads.old list → AreQuads list → IfOk result (λ traps. HasArea window (IsInSomeQuad list) traps.items) }
{
    let mut area = unite(alloc, Vec::new(alloc), window)?;
    while let Some(quad) = quads.next() {
        let mut edges = Vec::new(alloc);
        put_ring(&mut edges, &quad, Operand::A)?;
        put_some(&mut edges, quads, BATCH - 1)?;
        let more = unite(alloc, edges, window)?;
        area = combine(alloc, Op::Or, area.as_slice(), more.as_slice(), window)?;
    }
    Ok(area)
}
