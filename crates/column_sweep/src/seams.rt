//! Seams between columns, swept again.
ghost use Rattle.std.specs.Prelude.{◌≡◌, ◌∷◌, [], ◌-ℤ◌, pos, not, IsPermutation, IfOk, OnOk, IfErr, ◌<◌, ◌-◌, ◌^◌};
ghost use Rattle.std.specs.List.{flat_map};
ghost use Rattle.std.specs.Ordering.{int_eq};
ghost use Rattle.half_grid.specs.Edges.{edges_of_trapezoid};
ghost use Rattle.half_grid.specs.JoinedLists.{IsJoined};
ghost use Rattle.half_grid.specs.Trapezoids.{IsShot};
ghost use Rattle.half_grid.specs.declared.border.Operand.TheVariants.{A};
ghost use Rattle.column_sweep.specs.declared.halting.Halt.TheVariants.{Long};
ghost use Rattle.column_sweep.specs.Sewing.{AreSewn, HaveSameTiles, StandSorted};
ghost use Rattle.column_sweep.specs.Standings.{standing_of};

use crate::columns::{Sewn, swept_columns};
use crate::counted::Swept;
use crate::cuts::{Cut, fewer};
use crate::halting::Halt;
use crate::sums::Level;
use crate::sweep::plain_counted;
use geo_stream::NoMemory;
use half_grid::{Edge, Operand, Trap, Window, place_of};
use scan_line::Rule;
use std::alloc::Global;

// The two edges of each trapezoid.
fn edges_of(alloc: Global, traps: &[Trap]) -> Result<Vec<Edge>, NoMemory>
    ensures { IfOk result (λ edges. edges.items ≡ flat_map (edges_of_trapezoid A) traps.now) }
{
    let mut edges = Vec::new(alloc);
    for trap in traps {
        edges.push(Edge::left_of(trap, Operand::A))?;
        edges.push(Edge::right_of(trap, Operand::A))?;
    }
    Ok(edges)
}

// The seams swept again, in the columns between these cuts.
fn resewn(alloc: Global, sewn: Sewn, window: Window, cuts: &[Cut], most: u64) -> Result<Sewn, Halt>
    requires { AreSewn window sewn.finals.items sewn.seams.items }
    ensures sewn { IfOk result (λ next. AreSewn window next.finals.items next.seams.items) }
    ensures same { IfOk result (λ next. HaveSameTiles next.finals.items next.seams.items sewn.finals.items sewn.seams.items) }
    ensures long { IfErr result (λ halt. halt ≡ Long → most < 2 ^ 64 - 1) }
{
    let edges = edges_of(alloc, sewn.seams.as_slice())?;
    let inside = Rule::new(
        |winding: i128, _other: i128| -> bool
            ensures { result ≡ not (int_eq winding (pos 0)) }
        { winding != 0 },
    );
    let next = swept_columns(alloc, edges, window, &inside, cuts, most)?;
    let mut finals = sewn.finals;
    finals.extend_from_slice(next.finals.as_slice())?;
    Ok(Sewn {
        finals,
        seams: next.seams,
        walked: sewn.walked.saturating_add(next.walked),
    })
}

// The seams swept at once. Each trapezoid is final then.
fn closed(alloc: Global, sewn: Sewn, window: Window) -> Result<Swept, NoMemory>
    requires { AreSewn window sewn.finals.items sewn.seams.items }
    ensures sewn { IfOk result (λ swept. AreSewn window swept.traps.items []) }
    ensures same { IfOk result (λ swept. HaveSameTiles swept.traps.items [] sewn.finals.items sewn.seams.items) }
{
    let edges = edges_of(alloc, sewn.seams.as_slice())?;
    let inside = Rule::new(
        |a: i128, _b: i128| -> bool
            ensures { result ≡ not (int_eq a (pos 0)) }
        { a != 0 },
    );
    let last = plain_counted(alloc, edges, window, &inside)?;
    let mut finals = sewn.finals;
    finals.extend_from_slice(last.traps.as_slice())?;
    Ok(Swept {
        traps: finals,
        walked: sewn.walked.saturating_add(last.walked),
    })
}

/// The place of a trapezoid in a joined list: its top, and then its left line's place in the row below it.
#[derive(Clone, Copy, PartialEq, Eq, PartialOrd, Ord)]
struct Standing {
    top: i64,
    place: i64,
}

// The row below the top.
fn top_row(trap: &Trap) -> Level
    ensures row { result.y ≡ trap.now.y1 -ℤ pos 1 }
    ensures shot { IsShot trap.now }
{
    Level { y: trap.y1() - 1 }
}

fn standing_of(trap: &Trap) -> Standing
    ensures { result ≡ standing_of trap.now }
{
    let row = top_row(trap);
    Standing {
        top: trap.y1(),
        place: place_of(trap.left(), row.y),
    }
}

// Puts the trapezoids in the order of joined lists. They are a few dozen lists in that order, which this merges.
fn put_in_order(traps: &mut Vec<Trap>) -> Result<(), NoMemory>
    ensures permutation { IsPermutation traps.old.items traps.new.items }
    ensures sorted { OnOk result (StandSorted traps.new.items) }
{
    traps.sort_by_key(|trap| standing_of(trap))?;
    Ok(())
}

/// All maximal trapezoids, from the final ones and the seams. It is given up where a sweep of seams goes over more edges
/// than this.
pub(crate) fn joined_seams(
    alloc: Global,
    sewn: Sewn,
    window: Window,
    cuts: &[Cut],
    most: u64,
) -> Result<Swept, Halt>
    requires { AreSewn window sewn.finals.items sewn.seams.items }
    ensures joined { IfOk result (λ swept. IsJoined window swept.traps.items) }
    ensures same { IfOk result (λ swept. HaveSameTiles swept.traps.items [] sewn.finals.items sewn.seams.items) }
    ensures long { IfErr result (λ halt. halt ≡ Long → most < 2 ^ 64 - 1) }
{
    let mut sewn = sewn;
    let mut cuts = fewer(alloc, cuts)?;
    while !cuts.is_empty() {
        sewn = resewn(alloc, sewn, window, cuts.as_slice(), most)?;
        cuts = fewer(alloc, cuts.as_slice())?;
    }
    let mut swept = closed(alloc, sewn, window)?;
    put_in_order(&mut swept.traps)?;
    Ok(swept)
}
