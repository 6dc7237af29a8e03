//! Areas that grow and shrink.
ghost use Rattle.std.specs.Prelude.{◌≡◌, ◌≢◌, ◌^◌, ℤ, pos, ◌+ℤ◌, ◌-ℤ◌, ◌≤ℤ◌, ◌++◌, All, [], ◌∷◌, IfOk, IfSome, OnOk, MatchOption, Contains};
ghost use Rattle.std.specs.List.{flat_map};
ghost use Rattle.half_grid.specs.Nearness.{IsGrown, IsShrunk};
ghost use Rattle.half_grid.specs.Trapezoids.{IsLegal, IsShot};
ghost use Rattle.half_grid.specs.Lines.{x_on};
ghost use Rattle.std.specs.Int.{int_min, int_max};
ghost use Rattle.square_size.specs.EdgeLaws.{IsInSome};
ghost use Rattle.square_size.specs.Edges.{edges_of_grown};
ghost use Rattle.square_size.specs.Rings.{IsSizing};
ghost use Rattle.cell_tree.specs.Boxes.{IsUpTo};
ghost use Rattle.deck_plan.specs.Lists.{HasArea, IsJoinedSomewhere};
ghost use Rattle.deck_plan.specs.Needs.{widened};
ghost use Rattle.deck_plan.specs.Bounds.{HasCornersUpTo, IsAround, IsFullBox, wider};

use crate::piles::most_of_sweep;
use crate::windows::widened;
use bool_ops::{Op, combine, left_over_within, unite, unite_within};
use column_sweep::operand_edges;
use geo_stream::NoMemory;
use half_grid::{Edge, Frame, Trap, Window};
use square_size::{put_grown, shrink_lone};
use std::alloc::Global;
use tone_mirror::frame_trap;

// Puts the edges of the rings of the grown trapezoids at the end.
fn put_rings(edges: &mut Vec<Edge>, traps: &[Trap], dx: i64, dy: i64) -> Result<(), NoMemory>
    requires sizing { IsSizing dx dy }
    requires near { All (HasCornersUpTo (2 ^ 43)) traps.now }
    ensures { OnOk result (edges.new.items ≡ edges.old.items ++ flat_map (edges_of_grown dx dy) traps.now) }
{
    // A side that isn't upright has two edges.
    edges.reserve(traps.len().saturating_mul(4))?;
    for trap in traps {
        put_grown(edges, trap, dx, dy)?;
    }
    Ok(())
}

// The edges of the rings of the grown trapezoids.
fn rings(alloc: Global, traps: &[Trap], dx: i64, dy: i64) -> Result<Vec<Edge>, NoMemory>
    requires sizing { IsSizing dx dy }
    requires near { All (HasCornersUpTo (2 ^ 43)) traps.now }
    ensures { IfOk result (λ edges. edges.items ≡ flat_map (edges_of_grown dx dy) traps.now) }
{
    let mut edges = Vec::new(alloc);
    put_rings(&mut edges, traps, dx, dy)?;
    Ok(edges)
}

// The joined list, in the window, of the tiles near to some tile of the trapezoids, by one sweep.
fn grown_at_once(
    alloc: Global,
    traps: &[Trap],
    dx: i64,
    dy: i64,
    window: Window,
) -> Result<Vec<Trap>, NoMemory>
    requires sizing { IsSizing dx dy }
    requires legal { All IsLegal traps.now }
    requires near { All (HasCornersUpTo (2 ^ 43)) traps.now }
    ensures { IfOk result (λ grown. HasArea window (IsGrown dx dy (IsInSome traps.now)) grown.items) }
{
    let edges = rings(alloc, traps, dx, dy)?;
    unite(alloc, edges, window)
}

// How many trapezoids of a pile are grown and united at once. Where they lie one over another then, that takes the square of it.
const HANDFUL: usize = 1024;

// The same list for trapezoids that lie one over another once they have grown: both halves are grown, each by itself, and what
// they have is united.
fn piled_growth(
    alloc: Global,
    traps: &[Trap],
    dx: i64,
    dy: i64,
    window: Window,
) -> Result<Vec<Trap>, NoMemory>
    requires sizing { IsSizing dx dy }
    requires legal { All IsLegal traps.now }
    requires near { All (HasCornersUpTo (2 ^ 43)) traps.now }
    ensures { IfOk result (λ grown. HasArea window (IsGrown dx dy (IsInSome traps.now)) grown.items) }
{
    if traps.len() <= HANDFUL {
        return grown_at_once(alloc, traps, dx, dy, window);
    }
    let (first, last) = traps.split_at(traps.len() / 2);
    let low = piled_growth(alloc, first, dx, dy, window)?;
    let high = piled_growth(alloc, last, dx, dy, window)?;
    combine(alloc, Op::Or, low.as_slice(), high.as_slice(), window)
}

/// The joined list, in the window, of the tiles near to some tile of the trapezoids, by a rectangle of half sides `dx`
/// and `dy`.
pub(crate) fn grown_area(
    alloc: Global,
    traps: &[Trap],
    dx: i64,
    dy: i64,
    window: Window,
) -> Result<Vec<Trap>, NoMemory>
    requires sizing { IsSizing dx dy }
    requires legal { All IsLegal traps.now }
    requires near { All (HasCornersUpTo (2 ^ 43)) traps.now }
    ensures { IfOk result (λ grown. HasArea window (IsGrown dx dy (IsInSome traps.now)) grown.items) }
{
    let edges = rings(alloc, traps, dx, dy)?;
    let most = most_of_sweep(edges.len());
    match unite_within(alloc, edges, window, most)? {
        Some(area) => Ok(area),
        None => piled_growth(alloc, traps, dx, dy, window),
    }
}

// The box of one trapezoid.
fn box_of(trap: &Trap) -> Frame
    ensures left { result.x0 ≡ int_min (x_on trap.now.left trap.now.y0) (x_on trap.now.left trap.now.y1) }
    ensures bottom { result.y0 ≡ trap.now.y0 }
    ensures right { result.x1 ≡ int_max (x_on trap.now.right trap.now.y0) (x_on trap.now.right trap.now.y1) }
    ensures top { result.y1 ≡ trap.now.y1 }
    ensures shot { IsShot trap.now }
{
    Frame {
        x0: trap.least_x(),
        y0: trap.y0(),
        x1: trap.greatest_x(),
        y1: trap.y1(),
    }
}

// The box of a box and a trapezoid.
fn box_with(hull: &Frame, trap: &Trap) -> Frame
    ensures left { result.x0 ≡ int_min hull.now.x0 (int_min (x_on trap.now.left trap.now.y0) (x_on trap.now.left trap.now.y1)) }
    ensures bottom { result.y0 ≡ int_min hull.now.y0 trap.now.y0 }
    ensures right { result.x1 ≡ int_max hull.now.x1 (int_max (x_on trap.now.right trap.now.y0) (x_on trap.now.right trap.now.y1)) }
    ensures top { result.y1 ≡ int_max hull.now.y1 trap.now.y1 }
{
    Frame {
        x0: hull.x0.min(trap.least_x()),
        y0: hull.y0.min(trap.y0()),
        x1: hull.x1.max(trap.greatest_x()),
        y1: hull.y1.max(trap.y1()),
    }
}

fn hull_from(first: &Trap, rest: &[Trap]) -> Frame
    requires first { HasCornersUpTo (2 ^ 42) first.now }
    requires rest { All (HasCornersUpTo (2 ^ 42)) rest.now }
    ensures around { All (IsAround result) (first.now ∷ rest.now) }
    ensures full { IsFullBox (2 ^ 42) result }
{
    let mut hull = box_of(first);
    for trap in rest {
        hull = box_with(&hull, trap);
    }
    hull
}

// The hull, wider by `dx` and `dy` on each side.
fn wider(hull: &Frame, dx: i64, dy: i64) -> Frame
    requires full { IsFullBox (2 ^ 42) hull.now }
    requires sizing { IsSizing dx dy }
    ensures { result ≡ wider dx dy hull.now }
{
    Frame {
        x0: hull.x0 - dx,
        y0: hull.y0 - dy,
        x1: hull.x1 + dx,
        y1: hull.y1 + dy,
    }
}

// The joined list, in the window, of the tiles all of whose near ones are in the trapezoids, by two sweeps.
//
// Their hull, widened by the half sides, has all tiles that are near to one of theirs. What isn't in them of that grows, and
// its edges are swept with those of the widened hull: what is left are the tiles of the latter that nothing of it winds
// round, and all of these are theirs.
fn shrunk_by_sweeps(
    alloc: Global,
    traps: &[Trap],
    dx: i64,
    dy: i64,
    window: Window,
) -> Result<Vec<Trap>, NoMemory>
    requires sizing { IsSizing dx dy }
    requires legal { All IsLegal traps.now }
    requires near { All (HasCornersUpTo (2 ^ 42)) traps.now }
    requires low { IsUpTo (2 ^ 50) window.y0 }
    requires high { IsUpTo (2 ^ 50) window.y1 }
    ensures { IfOk result (λ shrunk. HasArea window (IsShrunk dx dy (IsInSome traps.now)) shrunk.items) }
{
    let Some((first, rest)) = traps.split_first() else {
        return Ok(Vec::new(alloc));
    };
    let around = [frame_trap(&wider(&hull_from(first, rest), dx, dy))];
    let outside = combine(alloc, Op::Sub, &around, traps, widened(window, dy))?;
    let mut edges = operand_edges(alloc, &[], &around, window)?;
    put_rings(&mut edges, outside.as_slice(), dx, dy)?;
    let most = most_of_sweep(edges.len());
    match left_over_within(alloc, edges, window, most)? {
        Some(area) => Ok(area),
        None => {
            let grown = piled_growth(alloc, outside.as_slice(), dx, dy, window)?;
            combine(alloc, Op::Sub, &around, grown.as_slice(), window)
        }
    }
}

// The same list where the half sides are one amount and most of the trapezoids touch no other one: these shrink by themselves,
// the rest by sweeps, and what is left of both is united. None where that isn't so.
fn shrunk_apart(
    alloc: Global,
    traps: &[Trap],
    dx: i64,
    dy: i64,
    window: Window,
) -> Result<Option<Vec<Trap>>, NoMemory>
    requires sizing { IsSizing dx dy }
    requires legal { All IsLegal traps.now }
    requires joined { IsJoinedSomewhere traps.now }
    requires near { All (HasCornersUpTo (2 ^ 42)) traps.now }
    requires low { IsUpTo (2 ^ 50) window.y0 }
    requires high { IsUpTo (2 ^ 50) window.y1 }
    ensures { IfOk result (λ answer. IfSome answer (λ shrunk. HasArea window (IsShrunk dx dy (IsInSome traps.now)) shrunk.items)) }
{
    if dx != dy || dx < 1 {
        return Ok(None);
    }
    let Some(parted) = shrink_lone(alloc, traps, dx)? else {
        return Ok(None);
    };
    if traps.len() / 2 < parted.rest.len() {
        return Ok(None);
    }
    let rest = shrunk_by_sweeps(alloc, parted.rest.as_slice(), dx, dy, window)?;
    let area = combine(
        alloc,
        Op::Or,
        parted.shrunk.as_slice(),
        rest.as_slice(),
        window,
    )?;
    Ok(Some(area))
}

/// The joined list, in the window, of the tiles all of whose near ones are in the trapezoids, by a rectangle of half
/// sides `dx` and `dy`.
pub(crate) fn shrunk_area(
    alloc: Global,
    traps: &[Trap],
    dx: i64,
    dy: i64,
    window: Window,
) -> Result<Vec<Trap>, NoMemory>
    requires sizing { IsSizing dx dy }
    requires legal { All IsLegal traps.now }
    requires joined { IsJoinedSomewhere traps.now }
    requires near { All (HasCornersUpTo (2 ^ 42)) traps.now }
    requires low { IsUpTo (2 ^ 50) window.y0 }
    requires high { IsUpTo (2 ^ 50) window.y1 }
    ensures { IfOk result (λ shrunk. HasArea window (IsShrunk dx dy (IsInSome traps.now)) shrunk.items) }
{
    match shrunk_apart(alloc, traps, dx, dy, window)? {
        Some(area) => Ok(area),
        None => shrunk_by_sweeps(alloc, traps, dx, dy, window),
    }
}
