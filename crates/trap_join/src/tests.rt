//! Small figures, with trapezoids by hand.
ghost use Rattle.std.specs.Prelude.{◌≡◌, IfOk, OnOk, not, ◌&&◌, ◌||◌, pos};
ghost use Rattle.std.specs.Ordering.{int_eq};
ghost use Rattle.half_grid.specs.JoinedLists.{IsJoined};
ghost use Rattle.half_grid.specs.Trapezoids.{CoversExactly};
ghost use Rattle.half_grid.specs.Windows.{RowRange};
ghost use Rattle.scan_line.specs.Rules.{IsRule};
ghost use Rattle.scan_line.specs.Runs.{IsBalanced};
ghost use Rattle.trap_join.specs.Joins.{IsTakenIn};

use crate::{Join, maximal_law};
use geo_stream::NoMemory;
use half_grid::{Edge, Line, Operand, Trap, Window};
use scan_line::{Rule, Scan};
use std::alloc::Global;
use std::process::Abort;
use std::test::Fail;

fn upright(x: i64) -> Line {
    Line::Upright(x)
}

fn rising(c: i64) -> Line {
    Line::Rising(c)
}

fn falling(c: i64) -> Line {
    Line::Falling(c)
}

fn trap(rt: &impl Abort, y0: i64, y1: i64, left: Line, right: Line) -> Trap {
    Trap::new(y0, y1, left, right).expect(rt, "a legal trapezoid")
}

// Adds both edges of a trapezoid.
fn add_edges(edges: &mut Vec<Edge>, trap: &Trap, operand: Operand) -> Result<(), NoMemory>
    requires { (window : RowRange) → IsBalanced edges.old.items window }
    ensures { OnOk result ((window : RowRange) → IsBalanced edges.new.items window) }
{
    edges.push(Edge::left_of(trap, operand))?;
    edges.push(Edge::right_of(trap, operand))?;
    Ok(())
}

fn edges_of(alloc: Global, traps: &[(Trap, Operand)]) -> Result<Vec<Edge>, NoMemory>
    ensures { IfOk result (λ edges. (window : RowRange) → IsBalanced edges.items window) }
{
    let mut edges = Vec::new(alloc);
    for (trap, operand) in traps {
        add_edges(&mut edges, trap, *operand)?;
    }
    Ok(edges)
}

// All trapezoids of a scan.
fn all_of<F: Fn(i128, i128) -> bool + Drop>(
    alloc: Global,
    scan: Scan<F>,
) -> Result<Vec<Trap>, NoMemory>
    requires rule { IsRule (F.pre scan.rule) (F.post scan.rule) }
    requires fresh { scan.y ≡ scan.window.y0 }
    ensures joined { IfOk result (λ traps. IsJoined scan.window traps.items) }
    ensures covers { IfOk result (λ traps. CoversExactly traps.items (IsTakenIn (F.post scan.rule) scan.edges scan.window)) }
{
    let mut join = Join::begin(alloc, scan)?;
    let mut traps = Vec::new(alloc);
    while let Some(trap) = join.next()? {
        traps.push(trap)?;
    }
    Ok(traps)
}

// The trapezoids of the tiles that the rule takes in the rows from y0 up to below y1.
fn joined<F: Fn(i128, i128) -> bool + Drop>(
    rt: &impl Abort,
    alloc: Global,
    traps: &[(Trap, Operand)],
    y0: i64,
    y1: i64,
    asked: F,
) -> Result<Vec<Trap>, NoMemory>
    requires { IsRule (F.pre asked) (F.post asked) }
{
    let window = Window::new(y0, y1).expect(rt, "a window");
    let edges = edges_of(alloc, traps)?;
    all_of(alloc, Scan::begin(alloc, edges, window, Rule::new(asked))?)
}

// The trapezoids of the tiles of a nonzero winding.
fn united(
    rt: &impl Abort,
    alloc: Global,
    traps: &[(Trap, Operand)],
    y0: i64,
    y1: i64,
) -> Result<Vec<Trap>, NoMemory> {
    joined(
        rt,
        alloc,
        traps,
        y0,
        y1,
        |a: i128, b: i128| -> bool
            ensures { result ≡ (not (int_eq a (pos 0)) || not (int_eq b (pos 0))) }
        { a != 0 || b != 0 },
    )
}

#[test]
fn law() {
    maximal_law();
}

#[test]
fn tips_cut_nothing(rt: HostRuntime) -> Result<(), Fail> {
    let alloc = rt.alloc();
    // the tip (8, 16) of a triangle on the lower left side of a diamond
    let triangle = trap(&rt, 14, 16, rising(-4), upright(8));
    let below = trap(&rt, 12, 18, falling(12), rising(0));
    let above = trap(&rt, 18, 24, rising(-6), falling(18));
    let figure = [
        (above, Operand::A),
        (triangle, Operand::B),
        (below, Operand::A),
    ];
    assert_eq!(rt;
        united(&rt, alloc, &figure, 0, 30)?.as_slice(),
        [triangle, below, above].as_slice()
    );
    // upside down: the tip (8, 16) begins the triangle
    let triangle = trap(&rt, 16, 18, falling(12), upright(8));
    let below = trap(&rt, 8, 14, falling(10), rising(2));
    let above = trap(&rt, 14, 20, rising(-4), falling(16));
    let figure = [
        (above, Operand::A),
        (triangle, Operand::B),
        (below, Operand::A),
    ];
    assert_eq!(rt;
        united(&rt, alloc, &figure, 0, 30)?.as_slice(),
        [below, triangle, above].as_slice()
    );
    Ok(())
}

#[test]
fn two_operands(rt: HostRuntime) -> Result<(), Fail> {
    let alloc = rt.alloc();
    let rightward = trap(&rt, 0, 22, upright(0), falling(11));
    let leftward = trap(&rt, 0, 22, rising(0), upright(22));
    let figure = [(rightward, Operand::A), (leftward, Operand::B)];
    // in both
    let both = joined(
        &rt,
        alloc,
        &figure,
        0,
        22,
        |a: i128, b: i128| -> bool
            ensures { result ≡ (not (int_eq a (pos 0)) && not (int_eq b (pos 0))) }
        { a != 0 && b != 0 },
    )?;
    assert_eq!(rt;
        both.as_slice(),
        [trap(&rt, 0, 11, rising(0), falling(11))].as_slice()
    );
    // in one of them, which is a figure eight
    let one = joined(
        &rt,
        alloc,
        &figure,
        0,
        22,
        |a: i128, b: i128| -> bool
            ensures { result ≡ not (int_eq a b) }
        { a != b },
    )?;
    let wanted = [
        trap(&rt, 0, 11, upright(0), rising(0)),
        trap(&rt, 0, 11, falling(11), upright(22)),
        trap(&rt, 11, 22, upright(0), falling(11)),
        trap(&rt, 11, 22, rising(0), upright(22)),
    ];
    assert_eq!(rt; one.as_slice(), wanted.as_slice());
    Ok(())
}

#[test]
fn rectangles(rt: HostRuntime) -> Result<(), Fail> {
    let alloc = rt.alloc();
    // two squares that overlap
    let low = trap(&rt, 0, 20, upright(0), upright(20));
    let high = trap(&rt, 10, 30, upright(10), upright(30));
    let wanted = [
        trap(&rt, 0, 10, upright(0), upright(20)),
        trap(&rt, 10, 20, upright(0), upright(30)),
        trap(&rt, 20, 30, upright(10), upright(30)),
    ];
    assert_eq!(rt;
        united(&rt, alloc, &[(low, Operand::A), (high, Operand::B)], -5, 50)?.as_slice(),
        wanted.as_slice()
    );
    // a tall bar beside two short ones, in a part of its rows and in none
    let tall = trap(&rt, 0, 30, upright(0), upright(10));
    let short = trap(&rt, 10, 20, upright(20), upright(30));
    let narrow = trap(&rt, 20, 22, upright(20), upright(25));
    let figure = [
        (short, Operand::A),
        (tall, Operand::A),
        (narrow, Operand::A),
    ];
    let wanted = [short, narrow, trap(&rt, 5, 25, upright(0), upright(10))];
    assert_eq!(rt;
        united(&rt, alloc, &figure, 5, 25)?.as_slice(),
        wanted.as_slice()
    );
    assert_eq!(rt; united(&rt, alloc, &figure, 7, 7)?.len(), 0);
    Ok(())
}

#[test]
fn a_join_begins_idle(rt: HostRuntime) -> Result<(), Fail> {
    let alloc = rt.alloc();
    let bar = trap(&rt, 0, 30, upright(0), upright(10));
    let rule = Rule::new(
        |a: i128, b: i128| -> bool
            ensures { result ≡ not (int_eq a (pos 0)) }
        { a != 0 },
    );
    let window = Window::new(0, 30).expect(&rt, "a window");
    let edges = edges_of(alloc, &[(bar, Operand::A)])?;
    let join = Join::begin(alloc, Scan::begin(alloc, edges, window, rule)?)?;
    assert_eq!(rt; join.walked(), 0);
    Ok(())
}
