//! Each call at shapes by hand.
ghost use Rattle.std.specs.Prelude.{◌≡◌, pos};
ghost use Rattle.half_grid.specs.Trapezoids.{trapezoid};
ghost use Rattle.half_grid.specs.declared.plane.Line.TheVariants.{Rising, Upright};

use crate::{Mirrored, frame_trap, mirror_laws, mirrored};
use geo_stream::{FromSlice, NoMemory, gather};
use half_grid::{Frame, Line, Trap};
use std::process::Abort;

fn trap(rt: &impl Abort, y0: i64, y1: i64, left: Line, right: Line) -> Trap
    ensures { result ≡ trapezoid y0 y1 left right }
{
    Trap::new(y0, y1, left, right).expect(rt, "a legal trapezoid")
}

// The triangle (0, 0), (20, 0), (20, 20).
fn triangle(rt: &impl Abort) -> Trap
    ensures { result ≡ trapezoid (pos 0) (pos 20) (Rising (pos 0)) (Upright (pos 20)) }
{
    trap(rt, 0, 20, Line::Rising(0), Line::Upright(20))
}

#[test]
fn laws() {
    mirror_laws();
}

#[test]
fn a_rising_side_becomes_a_falling_one(rt: HostRuntime) {
    let image = mirrored(&triangle(&rt), 5);
    assert_eq!(rt; (image.y0(), image.y1()), (0, 20));
    assert_eq!(rt;
        (image.left(), image.right()),
        (Line::Upright(-10), Line::Falling(5))
    );
    assert_eq!(rt; mirrored(&image, 5), triangle(&rt));
}

#[test]
fn a_frame_is_a_rectangle(rt: HostRuntime) {
    let (x0, y0, x1, y1) = (-3, 0, 20, 21);
    let whole = frame_trap(&Frame { x0, y0, x1, y1 });
    assert_eq!(rt;
        whole,
        trap(&rt, 0, 21, Line::Upright(-3), Line::Upright(20))
    );
}

#[test]
fn images_come_in_order(rt: HostRuntime) -> Result<(), NoMemory> {
    let traps = [
        triangle(&rt),
        trap(&rt, 0, 3, Line::Falling(4), Line::Rising(4)),
    ];
    let images = gather(rt.alloc(), Mirrored::new(FromSlice::new(&traps), 5))?;
    let wanted = [
        trap(&rt, 0, 20, Line::Upright(-10), Line::Falling(5)),
        trap(&rt, 0, 3, Line::Falling(1), Line::Rising(1)),
    ];
    assert_eq!(rt; images.as_slice(), wanted.as_slice());
    Ok(())
}
