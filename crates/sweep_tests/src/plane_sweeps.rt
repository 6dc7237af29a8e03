//! Small figures, with events, lines and trapezoids by hand, and the laws, called.

ghost use Rattle.std.specs.Prelude.{◌≡◌, ◌&&◌, pos, not};
ghost use Rattle.std.specs.Ordering.{int_eq};

use crate::scans::{Part, edges_of};
use geo_stream::NoMemory;
use half_grid::{Edge, Line, Operand, Side, Tile, Trap, Window};
use plane_sweep::{
    EventSource, LowestTile, RowSweep, SortedEvents, Sweep, lowest, settle_laws, swept,
};
use scan_line::Rule;
use std::alloc::Global;
use std::process::Abort;
use std::test::Fail;

fn part_of(rt: &impl Abort, y0: i64, y1: i64, left: Line, right: Line, operand: Operand) -> Part {
    Part {
        trap: Trap::new(y0, y1, left, right).expect(rt, "a legal trapezoid"),
        operand,
        up: true,
    }
}

// The bar number k of those that are two wide and two apart, from X = 0 on.
fn bar(rt: &impl Abort, y0: i64, y1: i64, k: i64, operand: Operand) -> Part {
    let x = k.saturating_mul(4);
    let right = Line::Upright(x.saturating_add(2));
    part_of(rt, y0, y1, Line::Upright(x), right, operand)
}

// Puts the bars of these numbers, all over the same rows.
fn put_bars(
    rt: &impl Abort,
    parts: &mut Vec<Part>,
    from: i64,
    to: i64,
    y0: i64,
    y1: i64,
    operand: Operand,
) -> Result<(), NoMemory> {
    for k in from..to {
        parts.push(bar(rt, y0, y1, k, operand))?;
    }
    Ok(())
}

// What the parts of A have and those of B don't.
fn first_alone(rt: &impl Abort, alloc: Global, parts: &[Part]) -> Result<Vec<Trap>, NoMemory> {
    let rows = Window::new(-40, 40).expect(rt, "a window");
    let edges = edges_of(rt, alloc, parts)?;
    let rule = Rule::new(
        |a: i128, b: i128| -> bool
            ensures { result ≡ not (int_eq a (pos 0)) && int_eq b (pos 0) }
        { a != 0 && b == 0 },
    );
    swept(alloc, edges, rows, rule)
}

fn compare_with(rt: &impl Abort, traps: &[Trap], parts: &[Part]) {
    assert_eq!(rt; traps.len(), parts.len());
    for (trap, part) in traps.iter().zip(parts.iter()) {
        assert_eq!(rt; *trap, part.trap);
    }
}

#[test]
fn events_one_by_one(rt: HostRuntime) -> Result<(), Fail> {
    settle_laws();
    let bar = Trap::new(2, 6, Line::Upright(0), Line::Upright(4)).ok_or("no bar")?;
    let edges = [
        Edge::right_of(&bar, Operand::B),
        Edge::left_of(&bar, Operand::B),
    ];
    let mut events = SortedEvents::of_edges(rt.alloc(), &edges)?;
    for due in [
        (2i64, 0i64, true),
        (2, 4, false),
        (6, 0, false),
        (6, 4, true),
    ] {
        let event = events.first().ok_or("no event")?;
        assert_eq!(rt; (event.y, event.x, event.up), due);
        events.step()?;
    }
    assert!(rt; events.first().is_none());
    Ok(())
}

#[test]
fn rows_of_two_bars(rt: HostRuntime) -> Result<(), Fail> {
    // the right line of one is the left one of the other
    let low = Trap::new(0, 8, Line::Falling(4), Line::Upright(8)).ok_or("no bar")?;
    let high = Trap::new(0, 8, Line::Upright(8), Line::Rising(6)).ok_or("no bar")?;
    let edges = [
        Edge::left_of(&high, Operand::A),
        Edge::right_of(&high, Operand::A),
        Edge::left_of(&low, Operand::A),
        Edge::right_of(&low, Operand::A),
    ];
    let rule = Rule::new(
        |a: i128, _b: i128| -> bool
            ensures { result ≡ not (int_eq a (pos 0)) }
        { a != 0 },
    );
    let mut sweep = RowSweep::begin(rt.alloc(), &edges)?;
    assert_eq!(rt; sweep.next(&rule)?, Some(0));
    let mut lines = sweep.into_lines();
    lines.rewind();
    for due in [(Line::Falling(4), 1i64), (Line::Rising(6), 0)] {
        let line = lines.take().ok_or("no line")?;
        assert_eq!(rt; (line.line, line.windings.a), due);
    }
    assert!(rt; lines.take().is_none());
    Ok(())
}

#[test]
fn one_bar(rt: HostRuntime) -> Result<(), Fail> {
    // the window has a part of the bar's rows, and none of those of the other one
    let bar = Trap::new(0, 30, Line::Upright(0), Line::Upright(10)).ok_or("no bar")?;
    let low = Trap::new(0, 8, Line::Upright(20), Line::Upright(30)).ok_or("no bar")?;
    let edges = vec![in rt.alloc();
        Edge::left_of(&bar, Operand::A),
        Edge::right_of(&bar, Operand::A),
        Edge::left_of(&low, Operand::A),
        Edge::right_of(&low, Operand::A),
    ]?;
    let rule = Rule::new(
        |a: i128, _b: i128| -> bool
            ensures { result ≡ not (int_eq a (pos 0)) }
        { a != 0 },
    );
    let rows = Window::new(10, 40).ok_or("no window")?;
    let mut sweep = Sweep::begin(rt.alloc(), edges, rows, rule)?;
    let part = Trap::new(10, 30, Line::Upright(0), Line::Upright(10)).ok_or("no part")?;
    assert_eq!(rt; sweep.next()?, Some(part));
    Ok(())
}

#[test]
fn one_wedge(rt: HostRuntime) -> Result<(), Fail> {
    // what is in the bar and not in the wedge: a triangle at its left, and one at its right
    let bar = Trap::new(0, 8, Line::Upright(0), Line::Upright(20)).ok_or("no bar")?;
    let wedge = Trap::new(0, 8, Line::Falling(4), Line::Rising(6)).ok_or("no wedge")?;
    let edges = vec![in rt.alloc();
        Edge::left_of(&bar, Operand::A),
        Edge::right_of(&bar, Operand::A),
        Edge::left_of(&wedge, Operand::B),
        Edge::right_of(&wedge, Operand::B),
    ]?;
    let rule = Rule::new(
        |a: i128, b: i128| -> bool
            ensures { result ≡ not (int_eq a (pos 0)) && int_eq b (pos 0) }
        { a != 0 && b == 0 },
    );
    let rows = Window::new(0, 8).ok_or("no window")?;
    let traps = swept(rt.alloc(), edges, rows, rule)?;
    let left = Trap::new(0, 8, Line::Upright(0), Line::Falling(4)).ok_or("no piece")?;
    let right = Trap::new(0, 8, Line::Rising(6), Line::Upright(20)).ok_or("no piece")?;
    assert_eq!(rt; traps.as_slice(), [left, right].as_slice());
    Ok(())
}

#[test]
fn through_one_point(rt: HostRuntime) -> Result<(), Fail> {
    // two wedges have their tips at (20, 20), and a bar has its left side there
    let (rising, falling) = (Line::Rising(0), Line::Falling(20));
    let (left, right) = (Line::Upright(20), Line::Upright(24));
    let under = Trap::new(10, 20, rising, falling).ok_or("no wedge")?;
    let over = Trap::new(20, 30, falling, rising).ok_or("no wedge")?;
    let bar = Trap::new(14, 26, left, right).ok_or("no bar")?;
    let edges = vec![in rt.alloc();
        Edge::left_of(&over, Operand::A),
        Edge::right_of(&over, Operand::A),
        Edge::left_of(&under, Operand::A),
        Edge::right_of(&under, Operand::A),
        Edge::left_of(&bar, Operand::B),
        Edge::right_of(&bar, Operand::B),
    ]?;
    let rule = Rule::new(
        |a: i128, b: i128| -> bool
            ensures { result ≡ not (int_eq a b) }
        { a != b },
    );
    let rows = Window::new(0, 40).ok_or("no window")?;
    let traps = swept(rt.alloc(), edges, rows, rule)?;
    let wanted = [
        Trap::new(10, 14, rising, falling),
        Trap::new(14, 16, right, falling),
        Trap::new(14, 20, rising, left),
        Trap::new(16, 20, falling, right),
        Trap::new(20, 24, rising, right),
        Trap::new(20, 26, falling, left),
        Trap::new(24, 26, right, rising),
        Trap::new(26, 30, falling, rising),
    ];
    assert_eq!(rt; traps.len(), wanted.len());
    for (trap, due) in traps.iter().zip(wanted.iter()) {
        assert_eq!(rt; Some(*trap), *due);
    }
    Ok(())
}

#[test]
fn one_run_over_a_thousand_chunks(rt: HostRuntime) -> Result<(), Fail> {
    // 64,200 sides of bars in an area that becomes wider at Y 4, where the trapezoid that was open left of them all ends; a
    // chunk has 64 lines at most
    let alloc = rt.alloc();
    let (left, right, further) = (
        Line::Upright(-2),
        Line::Upright(200_000),
        Line::Upright(200_002),
    );
    let mut parts = Vec::new(alloc);
    parts.push(part_of(&rt, 0, 4, left, right, Operand::A))?;
    parts.push(part_of(&rt, 4, 8, left, further, Operand::A))?;
    let mut wanted = Vec::new(alloc);
    wanted.push(part_of(&rt, 0, 4, left, right, Operand::A))?;
    wanted.push(part_of(&rt, 4, 8, left, further, Operand::A))?;
    put_bars(&rt, &mut parts, 0, 32_100, 0, 8, Operand::A)?;
    let traps = first_alone(&rt, alloc, parts.as_slice())?;
    compare_with(&rt, traps.as_slice(), wanted.as_slice());
    Ok(())
}

#[test]
fn chunks_that_empty_again(rt: HostRuntime) -> Result<(), Fail> {
    // all lines of some chunks in the middle end at Y 4, others come there at Y 6, and all end at last
    let alloc = rt.alloc();
    let mut parts = Vec::new(alloc);
    put_bars(&rt, &mut parts, 50, 150, 0, 4, Operand::A)?;
    put_bars(&rt, &mut parts, 50, 150, 6, 10, Operand::A)?;
    put_bars(&rt, &mut parts, 0, 50, 0, 12, Operand::A)?;
    put_bars(&rt, &mut parts, 150, 200, 0, 12, Operand::A)?;
    let traps = first_alone(&rt, alloc, parts.as_slice())?;
    compare_with(&rt, traps.as_slice(), parts.as_slice());
    Ok(())
}

#[test]
fn many_lines_end_and_begin_at_a_point(rt: HostRuntime) -> Result<(), Fail> {
    // at (0, 0) end four sides and begin six; one of A and one of B pass
    let alloc = rt.alloc();
    let (upright, rising, falling) = (Line::Upright(0), Line::Rising(0), Line::Falling(0));
    let (far, wide) = (Line::Rising(10), Line::Upright(-30));
    let mut parts = Vec::new(alloc);
    parts.push(part_of(&rt, -8, 0, rising, upright, Operand::A))?;
    parts.push(part_of(&rt, -8, 0, upright, falling, Operand::A))?;
    parts.push(part_of(&rt, 0, 8, falling, upright, Operand::A))?;
    parts.push(part_of(&rt, 0, 8, upright, rising, Operand::A))?;
    parts.push(part_of(&rt, -8, 8, rising, far, Operand::A))?;
    parts.push(part_of(&rt, -8, 8, wide, upright, Operand::B))?;
    parts.push(part_of(&rt, 0, 8, upright, rising, Operand::B))?;
    // below Y 0 B has all left of X = 0, and above it all left of the rising line
    let mut wanted = Vec::new(alloc);
    wanted.push(part_of(&rt, -8, 0, upright, far, Operand::A))?;
    wanted.push(part_of(&rt, 0, 8, rising, far, Operand::A))?;
    let traps = first_alone(&rt, alloc, parts.as_slice())?;
    compare_with(&rt, traps.as_slice(), wanted.as_slice());
    Ok(())
}

#[test]
fn one_ends_and_another_begins_on_its_lines(rt: HostRuntime) -> Result<(), Fail> {
    // sides end and begin on the same lines at Y 4, where one trapezoid goes on; from Y 6 to 9 B is there too
    let alloc = rt.alloc();
    let mut parts = Vec::new(alloc);
    put_bars(&rt, &mut parts, 0, 2, 0, 4, Operand::A)?;
    put_bars(&rt, &mut parts, 0, 2, 4, 12, Operand::A)?;
    put_bars(&rt, &mut parts, 0, 2, 6, 9, Operand::B)?;
    let mut wanted = Vec::new(alloc);
    put_bars(&rt, &mut wanted, 0, 2, 0, 6, Operand::A)?;
    put_bars(&rt, &mut wanted, 0, 2, 9, 12, Operand::A)?;
    let traps = first_alone(&rt, alloc, parts.as_slice())?;
    compare_with(&rt, traps.as_slice(), wanted.as_slice());
    Ok(())
}

#[test]
fn lowest_of_two_bars(rt: HostRuntime) -> Result<(), Fail> {
    // the lower bar is open when the sweep ends, and the other one ended before
    let high = Trap::new(4, 8, Line::Upright(0), Line::Upright(10)).ok_or("no bar")?;
    let low = Trap::new(2, 12, Line::Falling(12), Line::Upright(30)).ok_or("no bar")?;
    let edges = vec![in rt.alloc();
        Edge::left_of(&high, Operand::A),
        Edge::right_of(&high, Operand::A),
        Edge::left_of(&low, Operand::B),
        Edge::right_of(&low, Operand::B),
    ]?;
    let rule = Rule::new(
        |a: i128, b: i128| -> bool
            ensures { result ≡ not (int_eq a b) }
        { a != b },
    );
    let rows = Window::new(0, 40).ok_or("no window")?;
    let tile = Tile {
        i: 21,
        j: 2,
        side: Side::Right,
    };
    assert_eq!(rt;
        lowest(rt.alloc(), edges, rows, rule)?,
        Some(LowestTile { tile, a: 0, b: 1 })
    );
    Ok(())
}
