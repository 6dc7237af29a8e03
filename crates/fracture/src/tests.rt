//! The shots of trapezoids, worked out by hand, and their tiles.
ghost use Rattle.fracture.specs.Limits.{AreLimits};

use crate::{Cuts, cut_laws};
use geo_stream::{FromSlice, Stream, gather};
use half_grid::{Limits, Line, REACH, Side, Tile, Trap, covers, fits};
use std::alloc::Global;
use std::process::Abort;

fn trap(rt: &impl Abort, y0: i64, y1: i64, left: Line, right: Line) -> Trap {
    Trap::new(y0, y1, left, right).expect(rt, "a legal trapezoid")
}

fn shots(rt: &impl Abort, alloc: Global, traps: &[Trap], limits: Limits) -> Vec<Trap>
    requires { AreLimits limits.height limits.width }
{
    gather(alloc, Cuts::new(FromSlice::new(traps), limits)).expect(rt, "memory")
}

// A shot by its rows and corners: y0, y1, bottom left, bottom right, top left, top right.
type Corners = (i64, i64, i64, i64, i64, i64);

fn corners(shot: &Trap) -> Corners {
    (
        shot.y0(),
        shot.y1(),
        shot.bottom_left(),
        shot.bottom_right(),
        shot.top_left(),
        shot.top_right(),
    )
}

fn are(shots: &[Trap], wanted: &[Corners]) -> bool {
    if shots.len() != wanted.len() {
        return false;
    }
    for (shot, corners_wanted) in shots.iter().zip(wanted) {
        if corners(shot) != *corners_wanted {
            return false;
        }
    }
    true
}

// Whether each tile of the trapezoid's box is in as many of the shots as of the trapezoid.
fn have_its_tiles(shots: &[Trap], trap: &Trap) -> bool {
    for j in trap.y0()..trap.y1() {
        for i in trap.least_x()..trap.greatest_x() {
            for side in [Side::Left, Side::Right] {
                let tile = Tile { i, j, side };
                let count = shots.iter().filter(|shot| covers(shot, tile)).count();
                if count != usize::from(covers(trap, tile)) {
                    return false;
                }
            }
        }
    }
    true
}

#[test]
fn laws() {
    cut_laws();
}

#[test]
fn a_bar_is_cut_by_width(rt: HostRuntime) {
    let bar = trap(&rt, 0, 20, Line::Upright(0), Line::Upright(1000));
    let (height, width) = (200, 400);
    let cut = shots(&rt, rt.alloc(), &[bar], Limits { height, width });
    assert!(rt;
        are(
            cut.as_slice(),
            &[
                (0, 20, 0, 400, 0, 400),
                (0, 20, 400, 800, 400, 800),
                (0, 20, 800, 1000, 800, 1000),
            ]
        )
    );
}

#[test]
fn a_slanted_right_side_is_cut_off(rt: HostRuntime) {
    let slanted = trap(&rt, 0, 4, Line::Rising(0), Line::Rising(3));
    let (height, width) = (4, 8);
    let cut = shots(&rt, rt.alloc(), &[slanted], Limits { height, width });
    assert!(rt; are(cut.as_slice(), &[(0, 4, 0, 6, 4, 6), (0, 4, 6, 6, 6, 10)]));
}

#[test]
fn both_ways(rt: HostRuntime) {
    let opening = trap(&rt, 0, 6, Line::Falling(3), Line::Rising(6));
    let closing = trap(&rt, 0, 6, Line::Rising(0), Line::Falling(10));
    let (height, width) = (4, 8);
    let cut = shots(
        &rt,
        rt.alloc(),
        &[opening, closing],
        Limits { height, width },
    );
    assert!(rt;
        are(
            cut.as_slice(),
            &[
                (0, 4, 6, 10, 2, 10),
                (0, 4, 10, 12, 10, 16),
                (4, 6, 2, 8, 0, 8),
                (4, 6, 8, 16, 8, 16),
                (4, 6, 16, 16, 16, 18),
                (0, 4, 0, 8, 4, 8),
                (0, 4, 8, 16, 8, 16),
                (0, 4, 16, 20, 16, 16),
                (4, 6, 4, 12, 6, 12),
                (4, 6, 12, 16, 12, 14),
            ]
        )
    );
}

#[test]
fn sides_of_every_kind(rt: HostRuntime) {
    let (height, width) = (3, 6);
    let limits = Limits { height, width };
    for left in [Line::Upright(0), Line::Rising(0), Line::Falling(3)] {
        for right in [Line::Upright(20), Line::Rising(9), Line::Falling(13)] {
            let whole = trap(&rt, -1, 7, left, right);
            let cut = shots(&rt, rt.alloc(), &[whole], limits);
            for shot in cut.as_slice() {
                assert!(rt; fits(shot, &limits));
            }
            assert!(rt; have_its_tiles(cut.as_slice(), &whole));
        }
    }
}

#[test]
fn the_least_limits(rt: HostRuntime) {
    let slanted = trap(&rt, 0, 2, Line::Rising(0), Line::Rising(1));
    let (height, width) = (1, 2);
    let cut = shots(&rt, rt.alloc(), &[slanted], Limits { height, width });
    assert!(rt;
        are(
            cut.as_slice(),
            &[
                (0, 1, 0, 2, 1, 2),
                (0, 1, 2, 2, 2, 3),
                (1, 2, 1, 3, 2, 3),
                (1, 2, 3, 3, 3, 4),
            ]
        )
    );
}

#[test]
fn what_fits_stays_whole(rt: HostRuntime) {
    let tip = trap(&rt, 0, 11, Line::Rising(0), Line::Falling(11));
    let (height, width) = (11, 22);
    let cut = shots(&rt, rt.alloc(), &[tip], Limits { height, width });
    assert_eq!(rt; cut.as_slice(), [tip].as_slice());
    let none = shots(&rt, rt.alloc(), &[], Limits { height, width });
    assert!(rt; none.is_empty());
}

#[test]
fn the_greatest_coordinates(rt: HostRuntime) {
    let corner = trap(
        &rt,
        REACH - 1,
        REACH,
        Line::Upright(REACH - 10),
        Line::Upright(REACH),
    );
    let (height, width) = (1, 4);
    let cut = shots(&rt, rt.alloc(), &[corner], Limits { height, width });
    let (x, y) = (REACH - 10, REACH - 1);
    assert!(rt;
        are(
            cut.as_slice(),
            &[
                (y, REACH, x, x + 4, x, x + 4),
                (y, REACH, x + 4, x + 8, x + 4, x + 8),
                (y, REACH, x + 8, REACH, x + 8, REACH),
            ]
        )
    );
    let all = trap(
        &rt,
        -REACH,
        REACH,
        Line::Upright(-REACH),
        Line::Upright(REACH),
    );
    let (height, width) = (REACH, i64::MAX);
    let cut = shots(&rt, rt.alloc(), &[all], Limits { height, width });
    assert!(rt;
        are(
            cut.as_slice(),
            &[
                (-REACH, 0, -REACH, REACH, -REACH, REACH),
                (0, REACH, -REACH, REACH, -REACH, REACH),
            ]
        )
    );
}
