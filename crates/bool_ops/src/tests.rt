//! Two triangles that cross under each operation, two squares, what is left of lists without others, and a figure eight, by
//! their trapezoids; and outlines whose pieces are known by one look, against a sweep.
ghost use Rattle.std.specs.Prelude.{All};
ghost use Rattle.half_grid.specs.Outlines.{IsClosed};
ghost use Rattle.half_grid.specs.Reach.{IsPointWithinReach};

use crate::{
    Op, combine, combine_edges_within, left_over_within, lone_piece, monotone_pieces, pieces,
    unite_within,
};
use column_sweep::operand_edges;
use geo_stream::NoMemory;
use half_grid::{Line, Point, Trap, Window, size_of};
use layout_model::{KeptShape, Offsets, Pair};
use std::alloc::Global;
use std::process::Abort;
use std::test::Fail;

// Its rows, and its lower and upper corners, in half units.
fn numbers(trap: &Trap) -> [i64; 6] {
    [
        trap.y0(),
        trap.y1(),
        trap.bottom_left(),
        trap.bottom_right(),
        trap.top_left(),
        trap.top_right(),
    ]
}

fn trap(rt: &impl Abort, y0: i64, y1: i64, left: Line, right: Line) -> Trap {
    Trap::new(y0, y1, left, right).expect(rt, "a trapezoid")
}

fn triangles(traps: &[Trap]) -> u128 {
    let mut sum = 0u128;
    for trap in traps {
        sum = sum.saturating_add(size_of(trap));
    }
    sum
}

#[test]
fn two_triangles(rt: HostRuntime) -> Result<(), Fail> {
    let rising = [trap(&rt, 0, 22, Line::Rising(0), Line::Upright(22))];
    let falling = [trap(&rt, 0, 22, Line::Upright(0), Line::Falling(11))];
    let rows = Window::new(-5, 40).ok_or("no window")?;
    let table = [
        (Op::Or, 726u128),
        (Op::And, 242),
        (Op::Sub, 242),
        (Op::Xor, 484),
    ];
    for (op, wanted) in table {
        let traps = combine(rt.alloc(), op, &rising, &falling, rows)?;
        assert_eq!(rt; triangles(traps.as_slice()), wanted);
    }
    let both = combine(rt.alloc(), Op::And, &rising, &falling, rows)?;
    assert_eq!(rt; both.len(), 1);
    let first = both.first().ok_or("no trapezoid")?;
    assert_eq!(rt; numbers(first), [0, 11, 0, 22, 11, 11]);
    Ok(())
}

#[test]
fn two_squares(rt: HostRuntime) -> Result<(), Fail> {
    let low = [trap(&rt, 0, 20, Line::Upright(0), Line::Upright(20))];
    let high = [trap(&rt, 10, 30, Line::Upright(10), Line::Upright(30))];
    let rows = Window::new(0, 30).ok_or("no window")?;
    let traps = combine(rt.alloc(), Op::Or, &low, &high, rows)?;
    let wanted = [
        [0, 10, 0, 20, 0, 20],
        [10, 20, 0, 30, 0, 30],
        [20, 30, 10, 30, 10, 30],
    ];
    assert_eq!(rt; traps.len(), wanted.len());
    for (trap, numbers_of) in traps.iter().zip(wanted.iter()) {
        assert_eq!(rt; numbers(trap), *numbers_of);
    }
    Ok(())
}

// Whether these are the trapezoids.
fn are(traps: &[Trap], wanted: &[[i64; 6]]) -> bool {
    traps.len() == wanted.len()
        && traps
            .iter()
            .zip(wanted)
            .all(|(trap, numbers_of)| numbers(trap) == *numbers_of)
}

// What is left of the second list without the first.
fn rest(
    alloc: Global,
    a: &[Trap],
    b: &[Trap],
    window: Window,
) -> Result<Option<Vec<Trap>>, NoMemory> {
    let edges = operand_edges(alloc, a, b, window)?;
    left_over_within(alloc, edges, window, u64::MAX)
}

#[test]
fn what_is_left(rt: HostRuntime) -> Result<(), Fail> {
    let low = trap(&rt, 0, 20, Line::Upright(0), Line::Upright(20));
    let high = trap(&rt, 10, 30, Line::Upright(10), Line::Upright(30));
    let half = trap(&rt, 0, 20, Line::Rising(0), Line::Upright(20));
    let rows = Window::new(0, 30).ok_or("no window")?;
    let table: [(&[Trap], &[Trap], &[[i64; 6]]); 6] = [
        (
            &[high],
            &[low],
            &[[0, 10, 0, 20, 0, 20], [10, 20, 0, 10, 0, 10]],
        ),
        (&[], &[low], &[[0, 20, 0, 20, 0, 20]]),
        (&[low], &[low], &[]),
        (&[low], &[], &[]),
        // a tile that two trapezoids have counts once
        (&[half], &[low, low], &[[0, 20, 0, 0, 0, 20]]),
        (
            &[high, high],
            &[low, high],
            &[[0, 10, 0, 20, 0, 20], [10, 20, 0, 10, 0, 10]],
        ),
    ];
    for (a, b, wanted) in table {
        let left = rest(rt.alloc(), a, b, rows)?.ok_or("given up")?;
        assert!(rt; are(left.as_slice(), wanted));
    }
    Ok(())
}

// The first list united, and both, by sweeps that may go over as many edges as they like.
fn all_of(
    alloc: Global,
    a: &[Trap],
    b: &[Trap],
    window: Window,
) -> Result<[Option<Vec<Trap>>; 2], NoMemory> {
    let one = operand_edges(alloc, a, &[], window)?;
    let both = operand_edges(alloc, a, b, window)?;
    Ok([
        unite_within(alloc, one, window, u64::MAX)?,
        combine_edges_within(alloc, Op::Or, both, window, u64::MAX)?,
    ])
}

#[test]
fn without_a_limit(rt: HostRuntime) -> Result<(), Fail> {
    let low = trap(&rt, 0, 20, Line::Upright(0), Line::Upright(20));
    let next = trap(&rt, 0, 20, Line::Upright(10), Line::Upright(30));
    let last = trap(&rt, 0, 20, Line::Upright(30), Line::Upright(40));
    let rows = Window::new(0, 30).ok_or("no window")?;
    let [one, both] = all_of(rt.alloc(), &[low, next], &[last], rows)?;
    assert!(rt; are(one.ok_or("given up")?.as_slice(), &[[0, 20, 0, 30, 0, 30]]));
    assert!(rt; are(both.ok_or("given up")?.as_slice(), &[[0, 20, 0, 40, 0, 40]]));
    Ok(())
}

const EIGHT: [Point; 5] = [
    Point { x: 0, y: 0 },
    Point { x: 20, y: 20 },
    Point { x: 20, y: 0 },
    Point { x: 0, y: 20 },
    Point { x: 0, y: 0 },
];

#[test]
fn a_figure_eight(rt: HostRuntime) -> Result<(), Fail> {
    let pair = Pair {
        layer: 1,
        datatype: 0,
    };
    let place = Offsets::list(rt.alloc(), &[Point { x: 0, y: 0 }])?;
    let Ok(shape) = KeptShape::new(rt.alloc(), pair, &EIGHT, place) else {
        return Err("no shape".into());
    };
    let traps = pieces(rt.alloc(), shape.by_ref())?;
    let wanted = [
        [0, 10, 0, 0, 0, 10],
        [0, 10, 20, 20, 10, 20],
        [10, 20, 0, 10, 0, 0],
        [10, 20, 10, 20, 20, 20],
    ];
    assert_eq!(rt; traps.len(), wanted.len());
    for (trap, numbers_of) in traps.iter().zip(wanted.iter()) {
        assert_eq!(rt; numbers(trap), *numbers_of);
    }
    Ok(())
}

const RECTANGLE: [Point; 5] = [
    Point { x: 0, y: 0 },
    Point { x: 0, y: 20 },
    Point { x: 30, y: 20 },
    Point { x: 30, y: 0 },
    Point { x: 0, y: 0 },
];

const COUNTERCLOCKWISE: [Point; 5] = [
    Point { x: 0, y: 0 },
    Point { x: 30, y: 0 },
    Point { x: 20, y: 10 },
    Point { x: 10, y: 10 },
    Point { x: 0, y: 0 },
];

#[test]
fn one_trapezoid(rt: HostRuntime) -> Result<(), Fail> {
    let rectangle = lone_piece(&RECTANGLE).ok_or("no rectangle")?;
    assert_eq!(rt; numbers(&rectangle), [0, 20, 0, 30, 0, 30]);
    let narrowing = lone_piece(&COUNTERCLOCKWISE).ok_or("no trapezoid")?;
    assert_eq!(rt; numbers(&narrowing), [0, 10, 0, 30, 10, 20]);
    assert!(rt; lone_piece(&EIGHT).is_none());
    Ok(())
}

// Counterclockwise.
const OCTAGON: [Point; 9] = [
    Point { x: 12, y: 16 },
    Point { x: 4, y: 16 },
    Point { x: 0, y: 12 },
    Point { x: 0, y: 4 },
    Point { x: 4, y: 0 },
    Point { x: 12, y: 0 },
    Point { x: 16, y: 4 },
    Point { x: 16, y: 12 },
    Point { x: 12, y: 16 },
];

// A T, clockwise, with a point twice, one in the middle of a side, and a run that turns back at the lowest Y.
const STEPPED: [Point; 12] = [
    Point { x: 6, y: 4 },
    Point { x: 6, y: 4 },
    Point { x: 6, y: 8 },
    Point { x: 0, y: 8 },
    Point { x: 0, y: 12 },
    Point { x: 14, y: 12 },
    Point { x: 14, y: 8 },
    Point { x: 10, y: 8 },
    Point { x: 10, y: 0 },
    Point { x: 2, y: 0 },
    Point { x: 6, y: 0 },
    Point { x: 6, y: 4 },
];

// Both ways meet at a corner, and go on in the other order.
const CROSSED: [Point; 7] = [
    Point { x: 0, y: 0 },
    Point { x: 8, y: 8 },
    Point { x: 8, y: 16 },
    Point { x: 0, y: 16 },
    Point { x: 8, y: 8 },
    Point { x: 16, y: 0 },
    Point { x: 0, y: 0 },
];

// It goes up and back along a line at its top.
const SPIKED: [Point; 8] = [
    Point { x: 0, y: 0 },
    Point { x: 0, y: 8 },
    Point { x: 4, y: 8 },
    Point { x: 4, y: 12 },
    Point { x: 4, y: 8 },
    Point { x: 8, y: 8 },
    Point { x: 8, y: 0 },
    Point { x: 0, y: 0 },
];

// It goes up twice.
const CUP: [Point; 9] = [
    Point { x: 0, y: 0 },
    Point { x: 0, y: 12 },
    Point { x: 4, y: 12 },
    Point { x: 4, y: 4 },
    Point { x: 8, y: 4 },
    Point { x: 8, y: 12 },
    Point { x: 12, y: 12 },
    Point { x: 12, y: 0 },
    Point { x: 0, y: 0 },
];

// How many pieces a look at the points gives, where it knows them: none elsewhere. They have the tiles of those that a sweep
// gives.
fn known(rt: &impl Abort, alloc: Global, points: &[Point]) -> Result<usize, Fail>
    requires closed { IsClosed points.now }
    requires reach { All IsPointWithinReach points.now }
{
    let pair = Pair {
        layer: 1,
        datatype: 0,
    };
    let place = Offsets::list(alloc, &[Point { x: 0, y: 0 }])?;
    let Ok(shape) = KeptShape::new(alloc, pair, points, place) else {
        return Err("no shape".into());
    };
    let swept = pieces(alloc, shape.by_ref())?;
    let mut traps = Vec::new(alloc);
    if !monotone_pieces(points, &mut traps)? {
        assert!(rt; traps.is_empty());
        return Ok(0);
    }
    let rows = Window::new(0, 20).ok_or("no window")?;
    let other = combine(alloc, Op::Xor, traps.as_slice(), swept.as_slice(), rows)?;
    assert!(rt; other.is_empty());
    assert_eq!(rt; triangles(traps.as_slice()), triangles(swept.as_slice()));
    Ok(traps.len())
}

#[test]
fn up_once_and_down_once(rt: HostRuntime) -> Result<(), Fail> {
    assert_eq!(rt; known(&rt, rt.alloc(), &OCTAGON)?, 3);
    assert_eq!(rt; known(&rt, rt.alloc(), &STEPPED)?, 2);
    assert_eq!(rt; known(&rt, rt.alloc(), &CROSSED)?, 2);
    assert_eq!(rt; known(&rt, rt.alloc(), &SPIKED)?, 0);
    assert_eq!(rt; known(&rt, rt.alloc(), &CUP)?, 0);
    assert_eq!(rt; known(&rt, rt.alloc(), &EIGHT)?, 0);
    Ok(())
}
