//! A bar, swept by the nonzero rule; a bar without a slanted one, and a bar without a wedge that leans both ways, swept in
//! columns between cuts through every kind of corner and side; a bar with many lines between its sides; the edges of two
//! lists, and of sides that meet; and the lowest tile in which they differ, looked for in the same columns; and the laws,
//! called once.
ghost use Rattle.std.specs.Prelude.{◌≡◌, ◌&&◌, ℤ, pos, not, IfOk};
ghost use Rattle.std.specs.Ordering.{int_eq};
ghost use Rattle.half_grid.specs.declared.border.Operand.{Operand};
ghost use Rattle.scan_line.specs.Runs.{IsBalanced, IsBalancedAt};

use crate::cuts::Cut;
use crate::looking::lowest_at;
use crate::sweep::swept_at;
use crate::{LowestTile, column_laws, lowest, operand_edges, swept};
use geo_stream::NoMemory;
use half_grid::{Edge, Line, Operand, Side, Tile, Trap, Window};
use scan_line::Rule;
use std::alloc::Global;
use std::test::Fail;

#[test]
fn one_bar(rt: HostRuntime) -> Result<(), Fail> {
    column_laws();
    let bar = Trap::new(0, 30, Line::Upright(0), Line::Upright(10)).ok_or("no bar")?;
    let edges = vec![in rt.alloc();
        Edge::left_of(&bar, Operand::A),
        Edge::right_of(&bar, Operand::A),
    ]?;
    let rule = Rule::new(
        |a: i128, _b: i128| -> bool
            ensures { result ≡ not (int_eq a (pos 0)) }
        { a != 0 },
    );
    let rows = Window::new(10, 40).ok_or("no window")?;
    let traps = swept(rt.alloc(), edges, rows, rule)?;
    assert_eq!(rt; traps.len(), 1);
    let first = traps.first().ok_or("no trapezoid")?;
    assert_eq!(rt; (first.y0(), first.y1()), (10, 30));
    assert_eq!(rt; (first.bottom_left(), first.bottom_right()), (0, 10));
    Ok(())
}

// Between the sides of one bar stand those of 40,000 others, for which the rule doesn't ask.
#[test]
fn a_run_over_many_lines(rt: HostRuntime) -> Result<(), Fail> {
    let bar = Trap::new(0, 8, Line::Upright(-2), Line::Upright(160_000)).ok_or("no bar")?;
    let mut others = Vec::new(rt.alloc());
    for n in 0..40_000i64 {
        let left = n.saturating_mul(4);
        let right = left.saturating_add(2);
        others.push(Trap::new(2, 6, Line::Upright(left), Line::Upright(right)).ok_or("no bar")?)?;
    }
    let rows = Window::new(0, 8).ok_or("no window")?;
    let edges = edges_in(rt.alloc(), &[bar], others.as_slice(), rows)?;
    let rule = Rule::new(
        |a: i128, _b: i128| -> bool
            ensures { result ≡ not (int_eq a (pos 0)) }
        { a != 0 },
    );
    let traps = plane_sweep::swept(rt.alloc(), edges, rows, rule)?;
    assert_eq!(rt; traps.as_slice(), [bar].as_slice());
    Ok(())
}

// The bar from 0 to 20 as A, and a slanted one across it as B, which leans to the right.
fn two_bars(alloc: Global) -> Result<Vec<Edge>, Fail>
    ensures { IfOk result (λ edges. (o : Operand) (j : ℤ) → IsBalancedAt edges.items o j) }
{
    let bar = Trap::new(0, 4, Line::Upright(0), Line::Upright(20)).ok_or("no bar")?;
    let slanted = Trap::new(0, 4, Line::Rising(2), Line::Rising(6)).ok_or("no bar")?;
    let edges = vec![in alloc;
        Edge::left_of(&bar, Operand::A),
        Edge::right_of(&bar, Operand::A),
        Edge::left_of(&slanted, Operand::B),
        Edge::right_of(&slanted, Operand::B),
    ]?;
    Ok(edges)
}

// What is in the bar and not in the slanted one: a piece at its left, and one at its right.
fn check_cuts(rt: &HostRuntime, cuts: &[Cut]) -> Result<(), Fail> {
    let rule = Rule::new(
        |a: i128, b: i128| -> bool
            ensures { result ≡ not (int_eq a (pos 0)) && int_eq b (pos 0) }
        { a != 0 && b == 0 },
    );
    let rows = Window::new(0, 4).ok_or("no window")?;
    let traps = swept_at(
        rt.alloc(),
        two_bars(rt.alloc())?,
        rows,
        &rule,
        cuts,
        u64::MAX,
    )
    .ok()
    .ok_or("no list")?
    .traps;
    let left = Trap::new(0, 4, Line::Upright(0), Line::Rising(2)).ok_or("no piece")?;
    let right = Trap::new(0, 4, Line::Rising(6), Line::Upright(20)).ok_or("no piece")?;
    if traps.as_slice() != [left, right].as_slice() {
        return Err(Fail::from("other pieces"));
    }
    Ok(())
}

#[test]
fn cuts_change_nothing(rt: HostRuntime) -> Result<(), Fail> {
    // none; outside; along the upright sides
    check_cuts(&rt, &[])?;
    check_cuts(&rt, &[Cut { x: -50 }, Cut { x: 50 }])?;
    check_cuts(&rt, &[Cut { x: 0 }, Cut { x: 20 }])?;
    // through corners of the slanted bar, and through its sides
    check_cuts(&rt, &[Cut { x: 4 }, Cut { x: 8 }, Cut { x: 16 }])?;
    check_cuts(&rt, &[Cut { x: 6 }, Cut { x: 13 }])?;
    // out of order, twice, and beyond reach
    check_cuts(
        &rt,
        &[
            Cut { x: 10 },
            Cut { x: 10 },
            Cut { x: 3 },
            Cut { x: i64::MAX },
        ],
    )
}

#[test]
fn many_cuts(rt: HostRuntime) -> Result<(), Fail> {
    let mut cuts = Vec::new(rt.alloc());
    for x in 0..20i64 {
        cuts.push(Cut { x })?;
    }
    check_cuts(&rt, cuts.as_slice())
}

// The edges of two lists, for a sweep of these rows.
fn edges_in(alloc: Global, a: &[Trap], b: &[Trap], rows: Window) -> Result<Vec<Edge>, NoMemory>
    ensures { IfOk result (λ edges. IsBalanced edges.items rows) }
{
    operand_edges(alloc, a, b, rows)
}

// The bar from 0 to 20 as A, and as B a wedge that has its top and a part of its bottom. What is in the bar alone is a
// triangle at its left and one at its right.
fn check_wedge(rt: &HostRuntime, cuts: &[Cut]) -> Result<(), Fail> {
    let bar = Trap::new(0, 8, Line::Upright(0), Line::Upright(20)).ok_or("no bar")?;
    let wedge = Trap::new(0, 8, Line::Falling(4), Line::Rising(6)).ok_or("no wedge")?;
    let rule = Rule::new(
        |a: i128, b: i128| -> bool
            ensures { result ≡ not (int_eq a (pos 0)) && int_eq b (pos 0) }
        { a != 0 && b == 0 },
    );
    let rows = Window::new(0, 8).ok_or("no window")?;
    let edges = edges_in(rt.alloc(), &[bar], &[wedge], rows)?;
    let traps = swept_at(rt.alloc(), edges, rows, &rule, cuts, u64::MAX)
        .ok()
        .ok_or("no list")?
        .traps;
    let left = Trap::new(0, 8, Line::Upright(0), Line::Falling(4)).ok_or("no piece")?;
    let right = Trap::new(0, 8, Line::Rising(6), Line::Upright(20)).ok_or("no piece")?;
    if traps.as_slice() != [left, right].as_slice() {
        return Err(Fail::from("other pieces"));
    }
    Ok(())
}

#[test]
fn cuts_through_triangles(rt: HostRuntime) -> Result<(), Fail> {
    check_wedge(&rt, &[])?;
    // through corners, of which two are tips; through sides; outside
    check_wedge(
        &rt,
        &[Cut { x: 0 }, Cut { x: 8 }, Cut { x: 12 }, Cut { x: 20 }],
    )?;
    check_wedge(
        &rt,
        &[Cut { x: 3 }, Cut { x: 10 }, Cut { x: 17 }, Cut { x: 30 }],
    )
}

#[test]
fn edges_of_two_lists(rt: HostRuntime) -> Result<(), Fail> {
    let bar = Trap::new(0, 4, Line::Upright(0), Line::Upright(20)).ok_or("no bar")?;
    let slanted = Trap::new(2, 6, Line::Rising(2), Line::Rising(6)).ok_or("no bar")?;
    let above = Trap::new(4, 8, Line::Upright(0), Line::Upright(20)).ok_or("no bar")?;
    let rows = Window::new(0, 4).ok_or("no window")?;
    let edges = operand_edges(rt.alloc(), &[above, bar], &[slanted], rows)?;
    let wanted = [
        Edge::left_of(&bar, Operand::A),
        Edge::right_of(&bar, Operand::A),
        Edge::left_of(&slanted, Operand::B),
        Edge::right_of(&slanted, Operand::B),
    ];
    assert_eq!(rt; edges.as_slice(), wanted.as_slice());
    Ok(())
}

#[test]
fn sides_that_meet(rt: HostRuntime) -> Result<(), Fail> {
    // the second stands a row higher than the first, and the third beside all of the second
    let first = Trap::new(0, 4, Line::Upright(0), Line::Upright(10)).ok_or("no bar")?;
    let second = Trap::new(1, 5, Line::Upright(10), Line::Rising(10)).ok_or("no bar")?;
    let third = Trap::new(1, 5, Line::Rising(10), Line::Upright(40)).ok_or("no bar")?;
    let rows = Window::new(0, 8).ok_or("no window")?;
    let edges = operand_edges(rt.alloc(), &[first, second, third], &[], rows)?;
    let below = Edge::new(0, 1, Line::Upright(10), false, Operand::A).ok_or("no rest")?;
    let above = Edge::new(4, 5, Line::Upright(10), true, Operand::A).ok_or("no rest")?;
    let wanted = [
        Edge::left_of(&first, Operand::A),
        below,
        above,
        Edge::right_of(&third, Operand::A),
    ];
    assert_eq!(rt; edges.as_slice(), wanted.as_slice());
    Ok(())
}

// The edges of a bar as A, and of most of it as B: what is right of 12 lacks from row 4 on, and what is left of 3 from
// row 8 on.
fn most_of_a_bar(alloc: Global, rows: Window) -> Result<Vec<Edge>, Fail>
    ensures { IfOk result (λ edges. IsBalanced edges.items rows) }
{
    let bar = Trap::new(0, 10, Line::Upright(0), Line::Upright(20)).ok_or("no bar")?;
    let low = Trap::new(0, 4, Line::Upright(0), Line::Upright(20)).ok_or("no bar")?;
    let middle = Trap::new(4, 8, Line::Upright(0), Line::Upright(12)).ok_or("no bar")?;
    let high = Trap::new(8, 10, Line::Upright(3), Line::Upright(12)).ok_or("no bar")?;
    let edges = edges_in(alloc, &[bar], &[high, low, middle], rows)?;
    Ok(edges)
}

// The lowest tile in which both differ, looked for between these cuts.
fn check_lowest(rt: &HostRuntime, cuts: &[Cut]) -> Result<(), Fail> {
    let rule = Rule::new(
        |a: i128, b: i128| -> bool
            ensures { result ≡ not (int_eq a b) }
        { a != b },
    );
    let rows = Window::new(0, 10).ok_or("no window")?;
    let edges = most_of_a_bar(rt.alloc(), rows)?;
    let tile = Tile {
        i: 12,
        j: 4,
        side: Side::Left,
    };
    if lowest_at(rt.alloc(), edges, rows, &rule, cuts)? != Some(LowestTile { tile, a: 1, b: 0 }) {
        return Err(Fail::from("another tile"));
    }
    Ok(())
}

#[test]
fn lowest_between_cuts(rt: HostRuntime) -> Result<(), Fail> {
    check_lowest(&rt, &[])?;
    // a column with a higher tile comes first; cuts at the tile, and beside it
    check_lowest(&rt, &[Cut { x: 5 }])?;
    check_lowest(
        &rt,
        &[Cut { x: 3 }, Cut { x: 12 }, Cut { x: 13 }, Cut { x: 40 }],
    )
}

#[test]
fn lowest_of_all(rt: HostRuntime) -> Result<(), Fail> {
    let rows = Window::new(8, 10).ok_or("no window")?;
    let differ = Rule::new(
        |a: i128, b: i128| -> bool
            ensures { result ≡ not (int_eq a b) }
        { a != b },
    );
    let found = lowest(rt.alloc(), most_of_a_bar(rt.alloc(), rows)?, rows, differ)?;
    let tile = Tile {
        i: 0,
        j: 8,
        side: Side::Left,
    };
    assert_eq!(rt; found, Some(LowestTile { tile, a: 1, b: 0 }));
    let twice = Rule::new(
        |a: i128, _b: i128| -> bool
            ensures { result ≡ int_eq a (pos 2) }
        { a == 2 },
    );
    assert_eq!(rt;
        lowest(rt.alloc(), most_of_a_bar(rt.alloc(), rows)?, rows, twice)?,
        None
    );
    Ok(())
}
