//! A square of 20 by 20 half units, two triangles and nothing as areas, against shots that cover them and shots that don't.

use crate::{Verdict, check, too_large};
use half_grid::{Limits, Line, Side, Tile, Trap, Window};
use std::alloc::Global;
use std::process::Abort;
use std::test::Fail;

const WIDE: Limits = Limits {
    height: 1_048_576,
    width: 2_097_152,
};

fn trap(rt: &impl Abort, y0: i64, y1: i64, left: Line, right: Line) -> Trap {
    Trap::new(y0, y1, left, right).expect(rt, "a trapezoid")
}

// The rows from y0 up to below y1, the columns from x0 up to below x1.
fn bar(rt: &impl Abort, y0: i64, y1: i64, x0: i64, x1: i64) -> Trap {
    trap(rt, y0, y1, Line::Upright(x0), Line::Upright(x1))
}

// In the rows from -50 up to below 50.
fn verdict_on(rt: &impl Abort, alloc: Global, shots: &[Trap], area: &[Trap]) -> Verdict {
    let window = Window::new(-50, 50).expect(rt, "a window");
    check(alloc, shots, area, window, &WIDE).expect(rt, "memory")
}

fn at(i: i64, j: i64, side: Side, count: u64, wanted: u64) -> Verdict {
    Verdict::Miscovered(Tile { i, j, side }, count, wanted)
}

#[test]
fn a_square(rt: HostRuntime) -> Result<(), Fail> {
    let square = bar(&rt, 0, 20, 0, 20);
    let lower = bar(&rt, 0, 10, 0, 20);
    let upper = bar(&rt, 10, 20, 0, 20);
    let left = Side::Left;
    let table: [(&[Trap], Verdict); 8] = [
        (&[upper, lower], Verdict::Exact),
        (&[square, bar(&rt, 50, 60, 0, 20)], Verdict::Exact),
        (&[], at(0, 0, left, 0, 1)),
        (&[square, square], at(0, 0, left, 2, 1)),
        (&[lower, lower], at(0, 0, left, 2, 1)),
        (&[bar(&rt, 0, 20, 1, 21)], at(0, 0, left, 0, 1)),
        (&[bar(&rt, 1, 21, 0, 20)], at(0, 0, left, 0, 1)),
        (&[square, bar(&rt, -60, -40, 7, 9)], at(7, -50, left, 1, 0)),
    ];
    for (shots, wanted) in table {
        assert_eq!(rt; verdict_on(&rt, rt.alloc(), shots, &[square]), wanted);
    }
    assert_eq!(rt; verdict_on(&rt, rt.alloc(), &[], &[]), Verdict::Exact);
    assert_eq!(rt;
        verdict_on(&rt, rt.alloc(), &[upper], &[]),
        at(0, 10, left, 1, 0)
    );
    Ok(())
}

// One tile too many at a side that goes up to the right, and at one that goes up to the left.
#[test]
fn slanted_sides(rt: HostRuntime) -> Result<(), Fail> {
    let rising = [trap(&rt, 0, 20, Line::Rising(0), Line::Upright(20))];
    let shots = [
        trap(&rt, 0, 19, Line::Rising(0), Line::Upright(20)),
        bar(&rt, 19, 20, 19, 20),
    ];
    assert_eq!(rt;
        verdict_on(&rt, rt.alloc(), &shots, &rising),
        at(19, 19, Side::Left, 1, 0)
    );
    let falling = [trap(&rt, 0, 20, Line::Upright(0), Line::Falling(10))];
    let shots = [
        trap(&rt, 0, 19, Line::Upright(0), Line::Falling(10)),
        bar(&rt, 19, 20, 0, 1),
    ];
    assert_eq!(rt;
        verdict_on(&rt, rt.alloc(), &shots, &falling),
        at(0, 19, Side::Right, 1, 0)
    );
    Ok(())
}

// Limits come before the cover, and the first shot that doesn't fit before the others.
#[test]
fn limits_first(rt: HostRuntime) -> Result<(), Fail> {
    let limits = Limits {
        height: 10,
        width: 20,
    };
    let shots = [
        bar(&rt, 0, 10, 0, 20),
        bar(&rt, 10, 20, 0, 21),
        bar(&rt, 0, 11, 0, 20),
    ];
    let window = Window::new(0, 20).expect(&rt, "a window");
    assert_eq!(rt; too_large(&shots, &limits), Some(1));
    assert_eq!(rt; too_large(&shots[..1], &limits), None);
    let verdict = check(rt.alloc(), &shots, &[], window, &limits)?;
    assert_eq!(rt; verdict, Verdict::TooLarge(1));
    Ok(())
}
