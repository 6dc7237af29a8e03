//! The lines through one point, by their weights.
ghost use Rattle.std.specs.Prelude.{◌≡◌, ◌++◌, Some, IfOk, OnOk, List};
ghost use Rattle.half_grid.specs.Reach.{IsPointWithinReach};
ghost use Rattle.plane_sweep.specs.Bundles.{added, less, with_weight, right_of, change_of, HasChangesOf, IsEmptyBundle, IsFallingAt, IsRisingAt, IsPut, AreLinesOf};

use active_lines::{ActiveLine, Windings};
use geo_stream::NoMemory;
use half_grid::{Line, Operand, Point};
use row_lists::Event;

/// The weights of the three lines through a point.
#[derive(Clone, Copy)]
pub(crate) struct Bundle {
    pub(crate) falling: Windings,
    pub(crate) upright: Windings,
    pub(crate) rising: Windings,
}

/// The sum of both. One that didn't fit would be of more edges than there is memory for.
pub(crate) fn sum(v: Windings, w: Windings) -> Result<Windings, NoMemory>
    ensures { IfOk result (λ s. s ≡ added v w) }
{
    match (v.a.checked_add(w.a), v.b.checked_add(w.b)) {
        (Some(a), Some(b)) => Ok(Windings { a, b }),
        (_, _) => Err(NoMemory),
    }
}

/// The first less the second. One that didn't fit would be of more edges than there is memory for.
pub(crate) fn difference(v: Windings, w: Windings) -> Result<Windings, NoMemory>
    ensures { IfOk result (λ s. s ≡ less v w) }
{
    match (v.a.checked_sub(w.a), v.b.checked_sub(w.b)) {
        (Some(a), Some(b)) => Ok(Windings { a, b }),
        (_, _) => Err(NoMemory),
    }
}

impl Bundle {
    /// No line has a weight.
    pub(crate) fn empty() -> Bundle
        ensures { IsEmptyBundle result }
    {
        let none = Windings { a: 0, b: 0 };
        Bundle {
            falling: none,
            upright: none,
            rising: none,
        }
    }

    /// With this weight more on a line through the point.
    pub(crate) fn with(self, line: Line, weight: Windings) -> Result<Bundle, NoMemory>
        ensures { IfOk result (λ b. b ≡ with_weight self line weight) }
    {
        let mut bundle = self;
        match line {
            Line::Falling(_) => bundle.falling = sum(self.falling, weight)?,
            Line::Upright(_) => bundle.upright = sum(self.upright, weight)?,
            Line::Rising(_) => bundle.rising = sum(self.rising, weight)?,
        }
        Ok(bundle)
    }
}

/// The bundle of the lines through a point in the row below it. The windings left of them are these.
pub(crate) fn bundle_of(lines: &[ActiveLine], below: Windings) -> Result<Bundle, NoMemory>
    ensures { IfOk result (HasChangesOf below lines.now) }
{
    let mut bundle = Bundle::empty();
    let mut windings = below;
    let mut left = lines;
    while let Some((line, rest)) = left.split_first() {
        bundle = bundle.with(line.line, difference(line.windings, windings)?)?;
        windings = line.windings;
        left = rest;
    }
    Ok(bundle)
}

/// What the event adds to the weight of its line.
pub(crate) fn change_of(event: &Event) -> Windings
    ensures { result ≡ change_of event.now }
{
    let change = if event.up { 1 } else { -1 };
    match event.operand {
        Operand::A => Windings { a: change, b: 0 },
        Operand::B => Windings { a: 0, b: change },
    }
}

// The falling line through the point, where there is one.
fn falling_at(point: Point) -> Option<Line>
    requires { IsPointWithinReach point }
    ensures { IsFallingAt point.y point.x result }
{
    let twice = point.x + point.y;
    if twice % 2 != 0 {
        return None;
    }
    Some(Line::Falling(twice / 2))
}

// The rising line through the point, where there is one.
fn rising_at(point: Point) -> Option<Line>
    requires { IsPointWithinReach point }
    ensures { IsRisingAt point.y point.x result }
{
    let twice = point.x - point.y;
    if twice % 2 != 0 {
        return None;
    }
    Some(Line::Rising(twice / 2))
}

/// The line with the windings right of it, and no open trapezoid.
pub(crate) fn shut(line: Line, windings: Windings) -> ActiveLine
    ensures { result ≡ record { line = line; windings = windings; opened = None } }
{
    ActiveLine {
        line,
        windings,
        opened: None,
    }
}

// Puts the line with this weight after the others, where there is one and it changes the windings. The answer is the
// windings right of it.
fn push_line(
    lines: &mut Vec<ActiveLine>,
    line: Option<Line>,
    weight: Windings,
    left: Windings,
) -> Result<Windings, NoMemory>
    ensures lines { OnOk result (IsPut line weight left lines.old.items lines.new.items) }
    ensures right { IfOk result (λ right. right ≡ right_of line weight left) }
{
    let Some(line) = line else {
        return Ok(left);
    };
    let right = sum(left, weight)?;
    if right != left {
        lines.push(shut(line, right))?;
    }
    Ok(right)
}

/// The lines of the bundle that have a weight, in the order of the row above the point, right of windings in that row. The
/// answer is the windings right of them.
pub(crate) fn fill(
    lines: &mut Vec<ActiveLine>,
    point: Point,
    bundle: Bundle,
    left: Windings,
) -> Result<Windings, NoMemory>
    requires { IsPointWithinReach point }
    ensures { IfOk result (AreLinesOf point.y point.x bundle left lines.new.items) }
{
    lines.clear();
    let falling = push_line(lines, falling_at(point), bundle.falling, left)?;
    let upright = push_line(lines, Some(Line::Upright(point.x)), bundle.upright, falling)?;
    let rising = push_line(lines, rising_at(point), bundle.rising, upright)?;
    Ok(rising)
}
