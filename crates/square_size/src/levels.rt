//! Tops and bottoms of trapezoids, in order, so that those that touch are found by a search.
ghost use Rattle.std.specs.Prelude.{◌≡◌, ◌↔◌, ◌<◌, ◌+◌, ℕ, Some, IsTrue, true, false, IfOk, IfSome, map, length, get_or, slice_get};
ghost use Rattle.square_size.specs.Levels.{bottom_level, top_level, IsNoLater, AreInOrder, IsBefore, EndsBefore, IsRank};
ghost use Rattle.square_size.specs.Levels.{AreOverlapping, AreMarkedTo, AreMarksOf};
ghost use Rattle.square_size.specs.declared.levels.Level.{Level};

use geo_stream::NoMemory;
use half_grid::Trap;
use std::alloc::Global;

// A horizontal side of a trapezoid: from x0 to x1 at y, in half units.
#[derive(Clone, Copy)]
struct Level {
    y: i64,
    x0: i64,
    x1: i64,
}

// The bottom side of a trapezoid.
fn bottom_level(trap: &Trap) -> Level
    ensures { result ≡ bottom_level trap.now }
{
    Level {
        y: trap.y0(),
        x0: trap.bottom_left(),
        x1: trap.bottom_right(),
    }
}

// The top side of a trapezoid.
fn top_level(trap: &Trap) -> Level
    ensures { result ≡ top_level trap.now }
{
    Level {
        y: trap.y1(),
        x0: trap.top_left(),
        x1: trap.top_right(),
    }
}

// The top sides of all.
fn top_levels(alloc: Global, traps: &[Trap]) -> Result<Vec<Level>, NoMemory>
    ensures { IfOk result (λ levels. levels.items ≡ map top_level traps.now) }
{
    let mut levels = Vec::with_capacity(alloc, traps.len())?;
    for trap in traps {
        levels.push(top_level(trap))?;
    }
    Ok(levels)
}

// Whether a side may stand somewhere before another.
fn is_no_later(level: &Level, other: &Level) -> bool
    ensures { IsTrue result → IsNoLater level.now other.now }
{
    if level.y != other.y {
        return level.y < other.y;
    }
    if other.x0 < level.x0 {
        return false;
    }
    level.x1 <= other.x1
}

// Whether the sides are in order.
fn are_in_order(levels: &[Level]) -> bool
    ensures { IsTrue result → AreInOrder levels.now }
{
    for k in 1..levels.len() {
        if !is_no_later(&levels[k - 1], &levels[k]) {
            return false;
        }
    }
    true
}

// Whether a side lies lower than another, or at its Y and begins left of its right end.
fn is_before(level: &Level, side: &Level) -> bool
    ensures { IsTrue result ↔ IsBefore level.now side.now }
{
    if level.y < side.y {
        return true;
    }
    if side.y < level.y {
        return false;
    }
    level.x0 < side.x1
}

// How many of the sides, which are in order, are before this one.
fn rank(levels: &[Level], side: &Level) -> usize
    ensures { IsRank levels.now side.now result }
{
    let mut low = 0;
    let mut high = levels.len();
    while low < high {
        let middle = low + (high - low) / 2;
        if is_before(&levels[middle], side) {
            low = middle + 1;
        } else {
            high = middle;
        }
    }
    low
}

// Whether a side lies lower than another, or ends left of its left end.
fn ends_before(level: &Level, side: &Level) -> bool
    ensures { IsTrue result → EndsBefore level.now side.now }
{
    if level.y < side.y {
        return true;
    }
    level.x1 <= side.x0
}

// Marks all of the sides, which are in order, that overlap this one, and says whether there are any. Those are the last ones
// before its right end.
fn mark_met(levels: &[Level], side: &Level, marks: &mut [bool]) -> bool
    requires { length marks.old ≡ length levels.now }
    ensures many { length marks.new ≡ length marks.old }
    ensures kept { (j : ℕ) → get_or marks.old j false ≡ true → get_or marks.new j false ≡ true }
    ensures met { AreInOrder levels.now → (j : ℕ) (a : Level) → slice_get levels.now j ≡ Some a → AreOverlapping a side.now
        → (get_or marks.new j false ≡ true) × IsTrue result }
{
    let rank = rank(levels, side);
    let mut low = rank;
    while low > 0 {
        if ends_before(&levels[low - 1], side) {
            break;
        }
        low -= 1;
        marks[low] = true;
    }
    low < rank
}

// Marks a trapezoid of the list and all whose top sides overlap its bottom side, where there are any.
fn mark_under(traps: &[Trap], tops: &[Level], k: usize, marks: &mut [bool])
    requires inside { k < length traps.now }
    requires tops { tops.now ≡ map top_level traps.now }
    requires order { AreInOrder tops.now }
    requires marks { length marks.old ≡ length traps.now }
    ensures many { length marks.new ≡ length marks.old }
    ensures more { AreMarkedTo traps.now marks.old k → AreMarkedTo traps.now marks.new (k + 1) }
{
    if mark_met(tops, &bottom_level(&traps[k]), marks) {
        marks[k] = true;
    }
}

// Marks each two trapezoids of the list of which one's top side overlaps the other one's bottom side.
fn mark_all(traps: &[Trap], tops: &[Level], marks: &mut [bool])
    requires tops { tops.now ≡ map top_level traps.now }
    requires order { AreInOrder tops.now }
    requires marks { length marks.old ≡ length traps.now }
    ensures { AreMarksOf traps.now marks.new }
{
    for k in 0..traps.len() {
        mark_under(traps, tops, k, marks);
    }
}

/// For each trapezoid of a joined list whether it touches another one, or isn't known not to. None where that can't be told.
/// It takes a bisection a trapezoid, and time for each pair that touches.
pub(crate) fn touching(alloc: Global, traps: &[Trap]) -> Result<Option<Vec<bool>>, NoMemory>
    ensures { IfOk result (λ answer. IfSome answer (λ marks. AreMarksOf traps.now marks.items)) }
{
    let tops = top_levels(alloc, traps)?;
    if !are_in_order(&tops) {
        return Ok(None);
    }
    let mut marks = vec![in alloc; false; traps.len()]?;
    mark_all(traps, &tops, marks.as_mut_slice());
    Ok(Some(marks))
}
