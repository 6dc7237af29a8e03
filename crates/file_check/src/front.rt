//! Shots on their way through windows, from below.
ghost use Rattle.std.specs.Prelude.{◌≡◌, ◌≤ℤ◌, ◌++◌, List, [], OnOk, IfOk, IfSome, IfNone};
ghost use Rattle.std.specs.List.{filter};
ghost use Rattle.half_grid.specs.Trapezoids.{Trapezoid, count_in};
ghost use Rattle.half_grid.specs.declared.plane.Tile.{Tile};
ghost use Rattle.shot_checker.specs.Verdicts.{IsInRows, IsFirstWrongTileInRows, CoversAlike};
ghost use Rattle.file_check.specs.Fronts.{BottomsAscend, ends_above, IsFrontAt, IsTaken};

use geo_stream::NoMemory;
use half_grid::{Trap, Window};
use shot_checker::{Fault, first_fault};
use std::alloc::Global;
use std::mem;

// The trapezoids, in a list of their own.
fn copied(alloc: Global, traps: &[Trap]) -> Result<Vec<Trap>, NoMemory>
    ensures { IfOk result (λ list. list.items ≡ traps.now) }
{
    let mut list = Vec::new(alloc);
    list.extend_from_slice(traps)?;
    Ok(list)
}

// Sorts trapezoids by their lower ends. It takes no memory.
fn sort_by_bottom(traps: &mut Vec<Trap>)
    ensures counts { (t : Tile) → count_in traps.new.items t ≡ count_in traps.old.items t }
    ensures ascend { BottomsAscend traps.new.items }
{
    traps.sort_unstable_by_key(|trap| trap.y0());
}

/// The trapezoids by ascending lower end.
pub(crate) fn ascending(alloc: Global, traps: &[Trap]) -> Result<Vec<Trap>, NoMemory>
    ensures counts { IfOk result (λ sorted. (t : Tile) → count_in sorted.items t ≡ count_in traps.now t) }
    ensures ascend { IfOk result (λ sorted. BottomsAscend sorted.items) }
{
    let mut sorted = copied(alloc, traps)?;
    sort_by_bottom(&mut sorted);
    Ok(sorted)
}

// Puts those of the trapezoids that end above the window's bottom at the end.
fn put_open(into: &mut Vec<Trap>, from: &[Trap], window: Window) -> Result<(), NoMemory>
    ensures { OnOk result (into.new.items ≡ into.old.items ++ filter (ends_above window) from.now) }
{
    for trap in from {
        if window.y0() < trap.y1() {
            into.push(*trap)?;
        }
    }
    Ok(())
}

// Puts those of the trapezoids that begin below the window's top at the end, and gives the others.
fn take_begun<'a>(
    into: &mut Vec<Trap>,
    later: &'a [Trap],
    window: Window,
) -> Result<&'a [Trap], NoMemory>
    requires { BottomsAscend later.now }
    ensures { IfOk result (λ rest. (front : List Trapezoid) × (into.new.items ≡ into.old.items ++ front) × IsTaken window later.now front rest.now) }
{
    let mut left = later;
    while let Some((trap, rest)) = left.split_first() {
        if window.y1() <= trap.y0() {
            return Ok(left);
        }
        into.push(*trap)?;
        left = rest;
    }
    Ok(left)
}

/// Shots of which some meet a window, and the others begin above it.
#[derive(Drop)]
pub(crate) struct Front<'a> {
    pub(crate) meeting: Vec<Trap>,
    pub(crate) spare: Vec<Trap>,
    pub(crate) later: &'a [Trap],
}

/// Goes on to the window, which begins where the last one ended.
fn go_on(front: &mut Front, window: Window) -> Result<(), NoMemory>
    requires { BottomsAscend front.old.later.now }
    ensures front { (shots : List Trapezoid) → IsFrontAt shots window.y0 front.old.meeting.items front.old.later.now → OnOk result (IsFrontAt shots window.y1 front.new.meeting.items front.new.later.now) }
    ensures counts { (shots : List Trapezoid) → IsFrontAt shots window.y0 front.old.meeting.items front.old.later.now → OnOk result ((t : Tile) → IsInRows window t → count_in front.new.meeting.items t ≡ count_in shots t) }
{
    let _rows = window.y0();
    front.spare.clear();
    put_open(&mut front.spare, front.meeting.as_slice(), window)?;
    mem::swap(&mut front.meeting, &mut front.spare);
    front.later = take_begun(&mut front.meeting, front.later, window)?;
    Ok(())
}

/// The first fault of what the shots cover in the window, which begins where the last one ended.
pub(crate) fn fault_in(
    alloc: Global,
    front: &mut Front,
    area: &[Trap],
    window: Window,
) -> Result<Option<Fault>, NoMemory>
    requires { BottomsAscend front.old.later.now }
    ensures front { (shots : List Trapezoid) → IsFrontAt shots window.y0 front.old.meeting.items front.old.later.now → OnOk result (IsFrontAt shots window.y1 front.new.meeting.items front.new.later.now) }
    ensures fault { (shots : List Trapezoid) → IsFrontAt shots window.y0 front.old.meeting.items front.old.later.now → IfOk result (λ answer. IfSome answer (λ fault. IsFirstWrongTileInRows shots area.now window fault.tile fault.count fault.wanted)) }
    ensures none { (shots : List Trapezoid) → IsFrontAt shots window.y0 front.old.meeting.items front.old.later.now → IfOk result (λ answer. IfNone answer (CoversAlike shots area.now window)) }
{
    go_on(front, window)?;
    first_fault(alloc, front.meeting.as_slice(), area, window)
}
