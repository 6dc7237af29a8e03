//! Lines put, found, taken and passed, with values by hand.
ghost use Rattle.std.specs.Prelude.{ℤ, pos, ◌≡◌, IfOk};
ghost use Rattle.half_grid.specs.declared.plane.Line.TheVariants.{Upright};
ghost use Rattle.active_lines.specs.ActiveLists.{items};
ghost use Rattle.active_lines.specs.Points.{AscendAt};

use active_lines::{ActiveLine, ActiveLines, Opened, Windings};
use geo_stream::NoMemory;
use half_grid::{Line, Point};
use std::alloc::Global;
use std::mem::size_of;
use std::test::Fail;

fn plain(line: Line) -> ActiveLine
    ensures { result.line ≡ line }
{
    ActiveLine {
        line,
        windings: Windings { a: 1, b: 0 },
        opened: None,
    }
}

// One line, told apart by its windings.
fn numbered(number: i64) -> ActiveLine
    ensures { result.line ≡ Upright (pos 0) }
{
    ActiveLine {
        line: Line::Upright(0),
        windings: Windings { a: number, b: 0 },
        opened: None,
    }
}

fn line_of(found: Option<ActiveLine>) -> Option<Line> {
    found.map(|line| line.line)
}

// The lines X = 0 and X = 10, with the place after both.
fn two_uprights(alloc: Global) -> Result<ActiveLines, NoMemory>
    ensures { IfOk result (λ lines. (y : ℤ) → AscendAt y (items lines)) }
{
    let mut lines = ActiveLines::new(alloc);
    lines.put(alloc, plain(Line::Upright(0)))?;
    lines.put(alloc, plain(Line::Upright(10)))?;
    Ok(lines)
}

#[test]
fn many_lines_keep_their_order(rt: HostRuntime) -> Result<(), Fail> {
    let mut lines = ActiveLines::new(rt.alloc());
    for i in 0..100 {
        lines.put(rt.alloc(), numbered(i))?;
    }
    lines.rewind();
    for i in 100..200 {
        lines.put(rt.alloc(), numbered(i))?;
    }
    assert_eq!(rt; lines.last(), Some(numbered(199)));
    assert_eq!(rt; lines.first(), Some(numbered(0)));
    lines.rewind();
    for i in 100..200 {
        assert_eq!(rt; lines.take(), Some(numbered(i)));
    }
    for i in 0..100 {
        assert_eq!(rt; lines.take(), Some(numbered(i)));
    }
    assert_eq!(rt; lines.take(), None);
    Ok(())
}

#[test]
fn neighbours_meet_above(rt: HostRuntime) -> Result<(), Fail> {
    let mut lines = ActiveLines::new(rt.alloc());
    lines.put(rt.alloc(), plain(Line::Rising(0)))?;
    lines.put(rt.alloc(), plain(Line::Upright(10)))?;
    lines.put(rt.alloc(), plain(Line::Falling(9)))?;
    assert_eq!(rt; lines.least_meeting(), Some(8));
    assert_eq!(rt; lines.first_meeting(8), None);
    lines.rewind();
    assert_eq!(rt; line_of(lines.first_meeting(8)), Some(Line::Upright(10)));
    assert_eq!(rt; line_of(lines.first_meeting(10)), Some(Line::Rising(0)));
    assert_eq!(rt; line_of(lines.first_meeting(9)), None);
    Ok(())
}

#[test]
fn a_trapezoid_is_opened_anew(rt: HostRuntime) -> Result<(), Fail> {
    let mut lines = ActiveLines::new(rt.alloc());
    let mut left = plain(Line::Upright(0));
    left.opened = Some(Opened {
        right: Line::Upright(20),
        since: 3,
    });
    lines.put(rt.alloc(), left)?;
    lines.put(rt.alloc(), plain(Line::Upright(10)))?;
    let again = Opened {
        right: Line::Upright(10),
        since: 4,
    };
    assert_eq!(rt; lines.reopen(again), Some(left));
    lines.rewind();
    assert_eq!(rt; lines.reopen(again), None);
    left.opened = Some(again);
    assert_eq!(rt; lines.first(), Some(left));
    Ok(())
}

#[test]
fn a_point_is_found_and_passed(rt: HostRuntime) -> Result<(), Fail> {
    let mut lines = two_uprights(rt.alloc())?;
    lines.seek(Point { x: 10, y: 7 });
    assert_eq!(rt; line_of(lines.last()), Some(Line::Upright(0)));
    if let Some(mut line) = lines.first() {
        line.windings.b = 5;
        lines.pass(line);
        assert_eq!(rt; lines.last(), Some(line));
    }
    assert_eq!(rt; line_of(lines.first()), None);
    Ok(())
}

#[test]
fn a_line_takes_64_bytes(rt: HostRuntime) {
    assert_eq!(rt; size_of::<ActiveLine>(), 64);
}
