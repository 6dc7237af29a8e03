//! Small figures, compared tile by tile with the trapezoids that they are made of.
ghost use Rattle.std.specs.Prelude.{◌≡◌, OnOk, IfOk, not, ◌&&◌, ◌||◌, pos, All};
ghost use Rattle.std.specs.Ordering.{int_eq};
ghost use Rattle.half_grid.specs.Reach.{IsPointWithinReach};
ghost use Rattle.half_grid.specs.Windows.{RowRange};
ghost use Rattle.scan_line.specs.Rules.{IsRule};
ghost use Rattle.scan_line.specs.Runs.{IsBalanced};

use geo_stream::{NoMemory, gather};
use half_grid::{Edge, Line, Operand, Point, Tile, Trap, Window, covers, tile_at};
use scan_line::{Clipped, EdgesOf, Rule, Run, Scan, Slab, clipped_laws, outline_laws};
use std::alloc::Global;
use std::process::Abort;
use std::test::Fail;

#[derive(Drop)]
pub(crate) struct Part {
    pub(crate) trap: Trap,
    pub(crate) operand: Operand,
    pub(crate) up: bool,
}

// Adds two edges over the same rows, of which one goes up and one down.
fn add_pair(edges: &mut Vec<Edge>, first: Edge, second: Edge) -> Result<(), NoMemory>
    requires bottom { first.y0 ≡ second.y0 }
    requires top { first.y1 ≡ second.y1 }
    requires operand { first.operand ≡ second.operand }
    requires turned { second.up ≡ not first.up }
    requires balanced { (window : RowRange) → IsBalanced edges.old.items window }
    ensures { OnOk result ((window : RowRange) → IsBalanced edges.new.items window) }
{
    edges.push(first)?;
    edges.push(second)?;
    Ok(())
}

// Adds both edges of a trapezoid: the left one goes up or down, and the right one the other way.
fn add_edges(rt: &impl Abort, edges: &mut Vec<Edge>, part: &Part) -> Result<(), NoMemory>
    requires { (window : RowRange) → IsBalanced edges.old.items window }
    ensures { OnOk result ((window : RowRange) → IsBalanced edges.new.items window) }
{
    let y0 = part.trap.y0();
    let y1 = part.trap.y1();
    let left = Edge::new(y0, y1, part.trap.left(), part.up, part.operand).expect(rt, "an edge");
    let right = Edge::new(y0, y1, part.trap.right(), !part.up, part.operand).expect(rt, "an edge");
    add_pair(edges, left, right)
}

pub(crate) fn edges_of(
    rt: &impl Abort,
    alloc: Global,
    parts: &[Part],
) -> Result<Vec<Edge>, NoMemory>
    ensures { IfOk result (λ edges. (window : RowRange) → IsBalanced edges.items window) }
{
    let mut edges = Vec::new(alloc);
    for part in parts {
        add_edges(rt, &mut edges, part)?;
    }
    Ok(edges)
}

// How many parts of the operand that go this way have the tile.
fn count(parts: &[Part], operand: Operand, up: bool, tile: Tile) -> usize {
    parts
        .iter()
        .filter(|part| part.operand == operand && part.up == up && covers(&part.trap, tile))
        .count()
}

fn winding(parts: &[Part], operand: Operand, tile: Tile) -> i128 {
    count(parts, operand, true, tile) as i128 - count(parts, operand, false, tile) as i128
}

fn has(rt: &impl Abort, slab: Slab, run: &Run, tile: Tile) -> bool {
    let trap = Trap::new(slab.y0, slab.y1, run.left, run.right).expect(rt, "a trapezoid");
    covers(&trap, tile)
}

// At the first tile of a run in the row are the windings that it holds.
fn compare_run(rt: &impl Abort, run: &Run, slab: Slab, j: i64, parts: &[Part]) {
    let mut inside = false;
    for n in -80..80 {
        let tile = tile_at(j, n);
        let now = has(rt, slab, run, tile);
        if now && !inside {
            assert_eq!(rt; run.a, winding(parts, Operand::A, tile));
            assert_eq!(rt; run.b, winding(parts, Operand::B, tile));
        }
        inside = now;
    }
}

// A tile of the row is in some run just where one winding is 0 and the other isn't.
fn compare_tile(rt: &impl Abort, runs: &[Run], slab: Slab, tile: Tile, parts: &[Part]) {
    let mut found = false;
    for run in runs {
        found = found || has(rt, slab, run, tile);
    }
    let a = winding(parts, Operand::A, tile) != 0;
    let b = winding(parts, Operand::B, tile) != 0;
    assert_eq!(rt; found, a != b);
}

fn compare_slab(rt: &impl Abort, runs: &[Run], slab: Slab, parts: &[Part]) {
    for j in slab.y0..slab.y1 {
        for run in runs {
            compare_run(rt, run, slab, j, parts);
        }
        for n in -80..80 {
            compare_tile(rt, runs, slab, tile_at(j, n), parts);
        }
    }
}

// Each slab begins where the one before ended.
fn compare<F: Fn(i128, i128) -> bool + Drop>(
    rt: &impl Abort,
    scan: Scan<F>,
    parts: &[Part],
    bottom: i64,
    top: i64,
)
    requires { IsRule (F.pre scan.rule) (F.post scan.rule) }
{
    let mut sweep = scan;
    let mut y = bottom;
    'slabs: for _ in 0..100 {
        let Some(slab) = sweep.next() else {
            break;
        };
        assert_eq!(rt; slab.y0, y);
        y = slab.y1;
        compare_slab(rt, sweep.runs(), slab, parts);
    }
    assert_eq!(rt; y, top);
    assert!(rt; sweep.runs().is_empty());
}

// The tiles with a winding of just one operand.
fn compare_either(rt: &impl Abort, alloc: Global, parts: &[Part]) -> Result<(), NoMemory> {
    let window = Window::new(-9, 17).expect(rt, "a window");
    let edges = edges_of(rt, alloc, parts)?;
    let rule = Rule::new(
        |a: i128, b: i128| -> bool
            ensures { result ≡ ((not (int_eq a (pos 0)) && int_eq b (pos 0)) || (int_eq a (pos 0) && not (int_eq b (pos 0)))) }
        { (a != 0 && b == 0) || (a == 0 && b != 0) },
    );
    compare(rt, Scan::begin(alloc, edges, window, rule)?, parts, -9, 17);
    Ok(())
}

fn make_part(
    rt: &impl Abort,
    y0: i64,
    y1: i64,
    left: Line,
    right: Line,
    operand: Operand,
    up: bool,
) -> Part {
    let trap = Trap::new(y0, y1, left, right).expect(rt, "a legal trapezoid");
    Part { trap, operand, up }
}

// A step of a linear congruential generator.
fn step(seed: &mut u64) -> u64 {
    *seed = seed
        .wrapping_mul(6364136223846793005)
        .wrapping_add(1442695040888963407);
    *seed >> 33
}

// A small number, from -8 on.
fn small(seed: &mut u64) -> i64 {
    (step(seed) % 17) as i64 - 8
}

fn line(seed: &mut u64) -> Line {
    let c = small(seed);
    match step(seed) % 3 {
        0 => Line::Upright(c),
        1 => Line::Rising(c),
        _ => Line::Falling(c),
    }
}

fn random_part(seed: &mut u64) -> Option<Part> {
    let y0 = small(seed);
    let y1 = small(seed);
    let left = line(seed);
    let right = line(seed);
    let operand = if step(seed) % 2 == 0 {
        Operand::A
    } else {
        Operand::B
    };
    let up = step(seed) % 3 != 0;
    match Trap::new(y0, y1, left, right) {
        Some(trap) => Some(Part { trap, operand, up }),
        None => None,
    }
}

#[test]
fn random_figures(rt: HostRuntime) -> Result<(), Fail> {
    let alloc = rt.alloc();
    let mut seed = 7;
    for _ in 0..200 {
        let mut parts = Vec::new(alloc);
        for _ in 0..24 {
            if let Some(part) = random_part(&mut seed) {
                parts.push(part)?;
            }
        }
        compare_either(&rt, alloc, parts.as_slice())?;
    }
    Ok(())
}

fn low(rt: &impl Abort) -> Part {
    make_part(
        rt,
        0,
        8,
        Line::Rising(0),
        Line::Falling(8),
        Operand::A,
        true,
    )
}

fn across(rt: &impl Abort) -> Part {
    make_part(
        rt,
        4,
        12,
        Line::Upright(8),
        Line::Upright(12),
        Operand::B,
        true,
    )
}

#[test]
fn special_figures(rt: HostRuntime) -> Result<(), Fail> {
    let alloc = rt.alloc();
    let high = make_part(
        &rt,
        8,
        16,
        Line::Falling(8),
        Line::Rising(0),
        Operand::A,
        false,
    );
    let beside = make_part(
        &rt,
        0,
        8,
        Line::Falling(8),
        Line::Upright(16),
        Operand::A,
        true,
    );
    // a figure eight, whose halves touch in the point (8, 8), where edges of all three kinds meet
    let eight = [low(&rt), high, across(&rt)];
    compare_either(&rt, alloc, &eight)?;
    // two edges of one line, the one up and the other down
    let neighbours = [low(&rt), beside, across(&rt)];
    compare_either(&rt, alloc, &neighbours)?;
    compare_either(&rt, alloc, &[])?;
    Ok(())
}

#[test]
fn two_triangles(rt: HostRuntime) -> Result<(), Fail> {
    let alloc = rt.alloc();
    let falling = Line::Falling(11);
    let a = make_part(&rt, 0, 22, Line::Upright(0), falling, Operand::A, false);
    let b = make_part(
        &rt,
        0,
        22,
        Line::Rising(0),
        Line::Upright(22),
        Operand::B,
        false,
    );
    let parts = [a, b];
    let edges = edges_of(&rt, alloc, &parts)?;
    let window = Window::new(0, 22).expect(&rt, "a window");
    let rule = Rule::new(
        |a: i128, b: i128| -> bool
            ensures { result ≡ (not (int_eq a (pos 0)) && not (int_eq b (pos 0))) }
        { a != 0 && b != 0 },
    );
    let mut scan = Scan::begin(alloc, edges, window, rule)?;
    let both = Run {
        left: Line::Rising(0),
        right: falling,
        a: -1,
        b: -1,
    };
    assert_eq!(rt; scan.next(), Some(Slab { y0: 0, y1: 11 }));
    assert_eq!(rt; scan.runs(), [both].as_slice());
    assert_eq!(rt; scan.next(), Some(Slab { y0: 11, y1: 22 }));
    assert!(rt; scan.runs().is_empty());
    assert_eq!(rt; scan.next(), None);
    assert_eq!(rt; scan.walked(), 8);
    Ok(())
}

#[test]
fn thousands_of_windings(rt: HostRuntime) -> Result<(), Fail> {
    let alloc = rt.alloc();
    let falling = Line::Falling(8);
    let mut many = Vec::new(alloc);
    for _ in 0..3000 {
        many.push(low(&rt))?;
    }
    let edges = edges_of(&rt, alloc, many.as_slice())?;
    let window = Window::new(0, 8).expect(&rt, "a window");
    let rule = Rule::new(
        |a: i128, b: i128| -> bool
            ensures { result ≡ (not (int_eq a (pos 0)) && int_eq b (pos 0)) }
        { a != 0 && b == 0 },
    );
    let mut scan = Scan::begin(alloc, edges, window, rule)?;
    let all = Run {
        left: Line::Rising(0),
        right: falling,
        a: 3000,
        b: 0,
    };
    assert_eq!(rt; scan.next(), Some(Slab { y0: 0, y1: 8 }));
    assert_eq!(rt; scan.runs(), [all].as_slice());
    Ok(())
}

fn near_point(x: i64, y: i64) -> Point
    ensures { IsPointWithinReach result }
{
    Point {
        x: x.clamp(-1000, 1000),
        y: y.clamp(-1000, 1000),
    }
}

// Points, none of which is far from the origin.
fn points_of(alloc: Global, pairs: &[(i64, i64)]) -> Result<Vec<Point>, NoMemory>
    ensures { IfOk result (λ points. All IsPointWithinReach points.items) }
{
    let mut points = Vec::new(alloc);
    for (x, y) in pairs {
        points.push(near_point(*x, *y))?;
    }
    Ok(points)
}

fn outline_edges(alloc: Global, points: &[Point]) -> Result<Vec<Edge>, NoMemory>
    requires { All IsPointWithinReach points.now }
{
    gather(alloc, EdgesOf::new(points, Operand::B))
}

fn outline_parts(alloc: Global, points: &[Point], rows: Window) -> Result<Vec<Edge>, NoMemory>
    requires { All IsPointWithinReach points.now }
{
    gather(alloc, Clipped::new(EdgesOf::new(points, Operand::B), rows))
}

#[test]
fn edges_of_a_list(rt: HostRuntime) -> Result<(), Fail> {
    outline_laws();
    clipped_laws();
    let alloc = rt.alloc();
    let points = points_of(alloc, &[(0, 0), (22, 0), (22, 0), (0, 22), (0, 0)])?;
    let falling = Edge::new(0, 22, Line::Falling(11), true, Operand::B).ok_or("an edge")?;
    let upright = Edge::new(0, 22, Line::Upright(0), false, Operand::B).ok_or("an edge")?;
    let edges = outline_edges(alloc, points.as_slice())?;
    assert_eq!(rt; edges.as_slice(), [falling, upright].as_slice());
    // the rows from 5 up to below 30, and rows that no edge spans
    let rows = Window::new(5, 30).ok_or("a window")?;
    let falling = Edge::new(5, 22, Line::Falling(11), true, Operand::B).ok_or("an edge")?;
    let upright = Edge::new(5, 22, Line::Upright(0), false, Operand::B).ok_or("an edge")?;
    let parts = outline_parts(alloc, points.as_slice(), rows)?;
    assert_eq!(rt; parts.as_slice(), [falling, upright].as_slice());
    let above = Window::new(22, 30).ok_or("a window")?;
    let none = outline_parts(alloc, points.as_slice(), above)?;
    assert!(rt; none.is_empty());
    Ok(())
}
