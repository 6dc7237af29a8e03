//! Rings by hand, and rings against nearness by its definition, tile by tile; what shrinking leaves, by hand.
ghost use Rattle.std.specs.Prelude.{◌≡◌, true};
ghost use Rattle.half_grid.specs.Reach.{IsTileWithinReach};
ghost use Rattle.half_grid.specs.Trapezoids.{trapezoid};
ghost use Rattle.square_size.specs.Rings.{HasRingWithinReach, IsSizing};

use crate::levels::touching;
use crate::shrinking::shrunk;
use crate::{Grown, grown, near_law, put_grown, ring_laws};
use geo_stream::{FromSlice, NoMemory, gather};
use half_grid::{Edge, Line, Operand, Point, REACH, Side, Tile, Trap, covers, near, winding_at};
use std::alloc::Global;
use std::process::Abort;

fn trap(rt: &impl Abort, y0: i64, y1: i64, left: Line, right: Line) -> Trap
    ensures { result ≡ trapezoid y0 y1 left right }
{
    Trap::new(y0, y1, left, right).expect(rt, "a legal trapezoid")
}

fn is_sizing(dx: i64, dy: i64) -> bool
    ensures { result ≡ true → IsSizing dx dy }
{
    if dx < 0 || 65536 < dx || dy < 0 || 65536 < dy {
        return false;
    }
    (dx + dy) % 2 == 0
}

fn has_ring_within_reach(trap: &Trap, dx: i64, dy: i64) -> bool
    requires { IsSizing dx dy }
    ensures { result ≡ true → HasRingWithinReach dx dy trap.now }
{
    if trap.y0() - dy < -REACH || REACH < trap.y1() + dy {
        return false;
    }
    if trap.least_x() - dx < -REACH {
        return false;
    }
    trap.greatest_x() + dx <= REACH
}

// Whether some tile of the trapezoid is near to the tile.
fn is_near_some(trap: &Trap, tile: Tile, dx: i64, dy: i64) -> bool
    requires { IsTileWithinReach tile }
{
    for j in trap.y0()..trap.y1() {
        for i in trap.least_x()..trap.greatest_x() {
            for side in [Side::Left, Side::Right] {
                let other = Tile { i, j, side };
                if covers(trap, other) && near(tile, other, dx, dy) {
                    return true;
                }
            }
        }
    }
    false
}

// Whether the ring winds once round the tile if it is near to some tile of the trapezoid, and not if it isn't.
fn agrees(trap: &Trap, ring: &[Point], tile: Tile, dx: i64, dy: i64) -> bool
    requires { IsTileWithinReach tile }
{
    winding_at(ring, tile)
        == if is_near_some(trap, tile, dx, dy) {
            1
        } else {
            0
        }
}

// Whether the ring agrees at each tile of a window that reaches past it on all sides.
fn agrees_around(trap: &Trap, ring: &[Point], dx: i64, dy: i64) -> bool {
    for row in 0u8..19 {
        for column in 0u8..30 {
            for side in [Side::Left, Side::Right] {
                let (i, j) = (i64::from(column) - 10, i64::from(row) - 7);
                if !agrees(trap, ring, Tile { i, j, side }, dx, dy) {
                    return false;
                }
            }
        }
    }
    true
}

// Whether the trapezoid's rings agree for all half sides up to 5.
fn rings_agree(alloc: Global, trap: &Trap) -> bool {
    for dx in 0..6 {
        for dy in 0..6 {
            if is_sizing(dx, dy) && has_ring_within_reach(trap, dx, dy) {
                let ring = grown(alloc, trap, dx, dy);
                if !agrees_around(trap, ring.as_slice(), dx, dy) {
                    return false;
                }
            }
        }
    }
    true
}

// Every pair of kinds of sides; some come to a point at the top or at the bottom, some have one row.
#[test]
fn rings_wind_round_near_tiles(rt: HostRuntime) {
    for (y0, y1, left, right) in [
        (0, 3, Line::Upright(1), Line::Upright(4)),
        (0, 1, Line::Upright(1), Line::Rising(1)),
        (1, 4, Line::Upright(1), Line::Falling(3)),
        (0, 3, Line::Rising(0), Line::Upright(3)),
        (1, 4, Line::Rising(0), Line::Rising(1)),
        (0, 5, Line::Rising(0), Line::Falling(5)),
        (0, 1, Line::Falling(1), Line::Upright(2)),
        (0, 4, Line::Falling(2), Line::Rising(2)),
        (1, 2, Line::Falling(2), Line::Falling(3)),
        (0, 1, Line::Upright(1), Line::Falling(1)),
    ] {
        assert!(rt; rings_agree(rt.alloc(), &trap(&rt, y0, y1, left, right)));
    }
}

#[test]
fn laws() {
    near_law();
    ring_laws();
}

fn points(list: [(i64, i64); 7]) -> [Point; 7] {
    list.map(|(x, y)| Point { x, y })
}

// The ring round a box: its upper corners stand twice.
fn box_ring(x0: i64, y0: i64, x1: i64, y1: i64) -> [Point; 7] {
    points([
        (x0, y0),
        (x0, y1),
        (x0, y1),
        (x1, y1),
        (x1, y1),
        (x1, y0),
        (x0, y0),
    ])
}

// Whether this is the trapezoid's ring.
fn has_ring(alloc: Global, trap: &Trap, dx: i64, dy: i64, ring: [Point; 7]) -> bool {
    is_sizing(dx, dy)
        && has_ring_within_reach(trap, dx, dy)
        && grown(alloc, trap, dx, dy).as_slice() == ring.as_slice()
}

// By hand, each from its rows and its two sides: a square; a box that ends at the greatest coordinates; then what lies
// left and right of a bar of 20 by 200, below and above it, once for each amount of shrinking. What those rings leave of
// the bar is nothing for 10, the columns 9 and 10 of the rows 9 to 190 for 9, and of the rows 3 to 196 for 9 and 3.
#[test]
fn rings_of_boxes(rt: HostRuntime) {
    let far = REACH - 65536;
    for (y0, y1, x0, x1, dx, dy, ring) in [
        (0, 20, 0, 20, 3, 1, box_ring(-3, -1, 23, 21)),
        (
            far - 2,
            far,
            far - 4,
            far,
            65536,
            65536,
            box_ring(far - 65540, far - 65538, REACH, REACH),
        ),
        (-10, 210, -10, 0, 10, 10, box_ring(-20, -20, 10, 220)),
        (-10, 210, 20, 30, 10, 10, box_ring(10, -20, 40, 220)),
        (-9, 209, -9, 0, 9, 9, box_ring(-18, -18, 9, 218)),
        (-9, 209, 20, 29, 9, 9, box_ring(11, -18, 38, 218)),
        (-9, 0, 0, 20, 9, 9, box_ring(-9, -18, 29, 9)),
        (200, 209, 0, 20, 9, 9, box_ring(-9, 191, 29, 218)),
        (-3, 203, -9, 0, 9, 3, box_ring(-18, -6, 9, 206)),
        (-3, 203, 20, 29, 9, 3, box_ring(11, -6, 38, 206)),
        (-3, 0, 0, 20, 9, 3, box_ring(-9, -6, 29, 3)),
        (200, 203, 0, 20, 9, 3, box_ring(-9, 197, 29, 206)),
    ] {
        let trap = trap(&rt, y0, y1, Line::Upright(x0), Line::Upright(x1));
        assert!(rt; has_ring(rt.alloc(), &trap, dx, dy, ring));
    }
}

// By hand: a triangle, a tip, and a trapezoid that widens upward.
#[test]
fn rings_of_slants(rt: HostRuntime) {
    let (zero, two) = (Line::Rising(0), Line::Rising(2));
    let right = trap(&rt, 0, 20, zero, Line::Upright(20));
    let corners = [
        (-3, -1),
        (-3, 1),
        (17, 21),
        (23, 21),
        (23, 21),
        (23, -1),
        (-3, -1),
    ];
    assert!(rt; has_ring(rt.alloc(), &right, 3, 1, points(corners)));
    let tip = trap(&rt, 0, 11, zero, Line::Falling(11));
    let corners = [
        (-1, -1),
        (-1, 1),
        (10, 12),
        (12, 12),
        (23, 1),
        (23, -1),
        (-1, -1),
    ];
    assert!(rt; has_ring(rt.alloc(), &tip, 1, 1, points(corners)));
    let wide = trap(&rt, 0, 4, Line::Falling(2), two);
    let corners = [(3, -1), (-1, 3), (-1, 5), (9, 5), (9, 3), (5, -1), (3, -1)];
    assert!(rt; has_ring(rt.alloc(), &wide, 1, 1, points(corners)));
}

fn edge(rt: &impl Abort, y0: i64, y1: i64, line: Line, up: bool) -> Edge {
    Edge::new(y0, y1, line, up, Operand::A).expect(rt, "an edge")
}

#[test]
fn edges_come_ring_by_ring(rt: HostRuntime) -> Result<(), NoMemory> {
    let (zero, twenty) = (Line::Upright(0), Line::Upright(20));
    let traps = [
        trap(&rt, 0, 20, zero, twenty),
        trap(&rt, 0, 20, Line::Rising(0), twenty),
    ];
    let wanted = [
        edge(&rt, -1, 21, Line::Upright(-3), true),
        edge(&rt, -1, 21, Line::Upright(23), false),
        edge(&rt, -1, 1, Line::Upright(-3), true),
        edge(&rt, 1, 21, Line::Rising(-2), true),
        edge(&rt, -1, 21, Line::Upright(23), false),
    ];
    let edges = gather(
        rt.alloc(),
        Grown::new(rt.alloc(), FromSlice::new(&traps), 3, 1),
    )?;
    assert_eq!(rt; edges.as_slice(), wanted.as_slice());
    let mut put = Vec::new(rt.alloc());
    for trap in &traps {
        put_grown(&mut put, trap, 3, 1)?;
    }
    assert_eq!(rt; put.as_slice(), wanted.as_slice());
    Ok(())
}

// The rectangle from (x0, y0) to (x1, y1).
fn rectangle(rt: &impl Abort, x0: i64, y0: i64, x1: i64, y1: i64) -> Trap {
    trap(rt, y0, y1, Line::Upright(x0), Line::Upright(x1))
}

// Two that touch in part of a side, one that touches none, and one at a corner of it.
#[test]
fn lone_ones(rt: HostRuntime) {
    let low = rectangle(&rt, 0, 0, 10, 4);
    let high = rectangle(&rt, 6, 4, 16, 8);
    let lone = rectangle(&rt, 20, 0, 30, 10);
    let corner = rectangle(&rt, 30, 10, 40, 12);
    let traps = [low, high, lone, corner];
    let marks = touching(rt.alloc(), &traps)
        .expect(&rt, "memory")
        .expect(&rt, "an order");
    assert_eq!(rt; marks.as_slice(), [true, true, false, false].as_slice());
}

// By a square of half side 2.
#[test]
fn single_trapezoids_shrink(rt: HostRuntime) {
    for (whole, left) in [
        // a rectangle
        (
            trap(&rt, 0, 10, Line::Upright(0), Line::Upright(20)),
            Trap::new(2, 8, Line::Upright(2), Line::Upright(18)),
        ),
        // the triangle (0, 0), (20, 0), (20, 20): the lines X = Y + 4 and X = 18 meet at Y = 14
        (
            trap(&rt, 0, 20, Line::Rising(0), Line::Upright(20)),
            Trap::new(2, 14, Line::Rising(2), Line::Upright(18)),
        ),
        // the triangle (20, 0), (30, 10), (10, 10): the lines X = 24 - Y and X = 16 + Y meet at Y = 4
        (
            trap(&rt, 0, 10, Line::Falling(10), Line::Rising(10)),
            Trap::new(4, 8, Line::Falling(12), Line::Rising(8)),
        ),
        // a band along a diagonal, of whose lines both become X = Y + 4
        (trap(&rt, 0, 20, Line::Rising(0), Line::Rising(4)), None),
        // too narrow, and too low
        (trap(&rt, 0, 20, Line::Upright(0), Line::Upright(3)), None),
        (trap(&rt, 0, 4, Line::Upright(0), Line::Upright(20)), None),
    ] {
        assert_eq!(rt; shrunk(&whole, 2), left);
    }
}
