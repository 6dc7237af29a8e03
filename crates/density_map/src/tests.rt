//! Counts by the definition, tile by tile, and rows of windows by hand.
ghost use Rattle.std.specs.Prelude.{◌≡◌, true};
ghost use Rattle.half_grid.specs.Trapezoids.{trapezoid};
ghost use Rattle.density_map.specs.Frames.{IsNearSide, IsNearFrame};
ghost use Rattle.density_map.specs.Rows.{IsApartFrom, IsAdded};

use crate::{Counted, MapRow, count_laws, tiles_in};
use half_grid::{Frame, Line, Side, Tile, Trap, covers};
use std::process::Abort;

fn trap(rt: &impl Abort, y0: i64, y1: i64, left: Line, right: Line) -> Trap
    ensures { result ≡ trapezoid y0 y1 left right }
{
    Trap::new(y0, y1, left, right).expect(rt, "a legal trapezoid")
}

fn is_near(z: i64) -> bool
    ensures { result ≡ true → IsNearSide z }
{
    -1000 <= z && z <= 1000
}

fn is_near_frame(frame: &Frame) -> bool
    ensures { result ≡ true → IsNearFrame frame.now }
{
    if !is_near(frame.x0) || !is_near(frame.y0) {
        return false;
    }
    if !is_near(frame.x1) {
        return false;
    }
    is_near(frame.y1)
}

// The trapezoid's tiles in the frame, one by one.
fn tiles_one_by_one(trap: &Trap, frame: &Frame) -> u128 {
    let mut sum: u128 = 0;
    for j in frame.y0..frame.y1 {
        for i in frame.x0..frame.x1 {
            for side in [Side::Left, Side::Right] {
                if covers(trap, Tile { i, j, side }) {
                    sum = sum.wrapping_add(1);
                }
            }
        }
    }
    sum
}

// Whether the count is that of the tiles one by one, in frames that end before, in and after the trapezoid.
fn agrees(trap: &Trap) -> bool {
    for (x0, x1) in [(-9, -2), (-1, 1), (0, 7), (3, 3), (4, 2)] {
        for (y0, y1) in [(-2, 3), (0, 1), (-5, 9), (2, 2)] {
            let frame = Frame { x0, y0, x1, y1 };
            if !is_near_frame(&frame) || tiles_in(trap, &frame) != tiles_one_by_one(trap, &frame) {
                return false;
            }
        }
    }
    true
}

#[test]
fn a_frame_has_the_tiles_that_it_has_one_by_one(rt: HostRuntime) {
    let lines = [
        Line::Upright(-3),
        Line::Upright(2),
        Line::Rising(-4),
        Line::Rising(0),
        Line::Falling(1),
        Line::Falling(5),
    ];
    for left in lines {
        for right in lines {
            for (y0, y1) in [(-3, 4), (0, 1), (1, 6)] {
                if let Some(trap) = Trap::new(y0, y1, left, right) {
                    assert!(rt; agrees(&trap));
                }
            }
        }
    }
}

fn add(rt: &impl Abort, map: &mut MapRow, trap: &Trap)
    requires { IsApartFrom map.old trap.now }
    ensures { IsAdded map.old trap.now map.new }
{
    map.add(trap).expect(rt, "memory");
}

#[test]
fn windows_left_and_right_of_zero(rt: HostRuntime) {
    count_laws();
    let mut map = MapRow::new(rt.alloc(), 64, 0);
    add(
        &rt,
        &mut map,
        &trap(&rt, 0, 10, Line::Falling(5), Line::Upright(10)),
    );
    add(
        &rt,
        &mut map,
        &trap(&rt, 20, 30, Line::Upright(-70), Line::Upright(-5)),
    );
    let wanted = [
        Counted {
            column: -2,
            tiles: 120,
        },
        Counted {
            column: -1,
            tiles: 1180,
        },
        Counted {
            column: 0,
            tiles: 100,
        },
    ];
    assert!(rt; map.counts() == wanted.as_slice());
}

#[test]
fn a_window_between_two_others_has_none(rt: HostRuntime) {
    let mut map = MapRow::new(rt.alloc(), 64, -1);
    add(
        &rt,
        &mut map,
        &trap(&rt, -64, -32, Line::Upright(128), Line::Upright(200)),
    );
    add(
        &rt,
        &mut map,
        &trap(&rt, -32, 0, Line::Upright(0), Line::Upright(64)),
    );
    let wanted = [
        Counted {
            column: 0,
            tiles: 4096,
        },
        Counted {
            column: 2,
            tiles: 4096,
        },
        Counted {
            column: 3,
            tiles: 512,
        },
    ];
    assert!(rt; map.counts() == wanted.as_slice());
}
