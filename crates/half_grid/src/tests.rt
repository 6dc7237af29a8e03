//! Each call at tiles, lines and trapezoids.
ghost use Rattle.std.specs.Prelude.{◌≡◌};

use crate::{
    Edge, Frame, Limits, Line, Operand, Point, Quad, REACH, Side, Strips, Tile, Trap, Window,
    covers, diagonal_of, edge_laws, fits, joined_law, line_at, line_laws, line_through, meeting_y,
    near, number_of, place_of, row_laws, size_of, strips, winding_at, x_at,
};
use std::process::Abort;

fn point(x: i64, y: i64) -> Point {
    Point { x, y }
}

// The left tile of a cell.
fn left(i: i64, j: i64) -> Tile
    ensures column { result.i ≡ i }
    ensures row { result.j ≡ j }
{
    let side = Side::Left;
    Tile { i, j, side }
}

// The right tile of a cell.
fn right(i: i64, j: i64) -> Tile
    ensures column { result.i ≡ i }
    ensures row { result.j ≡ j }
{
    let side = Side::Right;
    Tile { i, j, side }
}

fn numbers(strips: Strips) -> (i64, i64, i64, i64) {
    (strips.i, strips.j, strips.p, strips.q)
}

fn trap(rt: &impl Abort, y0: i64, y1: i64, left: Line, right: Line) -> Trap {
    Trap::new(y0, y1, left, right).expect(rt, "a legal trapezoid")
}

// The triangle with the tip (11, 11) over the side from (0, 0) to (22, 0).
fn tip(rt: &impl Abort) -> Trap {
    trap(rt, 0, 11, Line::Rising(0), Line::Falling(11))
}

#[test]
fn laws() {
    row_laws();
    line_laws();
    edge_laws();
    joined_law();
}

// By hand, from a drawing of the half grid.
#[test]
fn strips_of_tiles(rt: HostRuntime) {
    assert_eq!(rt; numbers(strips(left(0, 0))), (0, 0, 0, -1));
    assert_eq!(rt; numbers(strips(right(-3, 5))), (-3, 5, 1, -4));
    assert_eq!(rt; numbers(strips(left(1, 0))), (1, 0, 0, 0));
    assert_eq!(rt; numbers(strips(right(-1, 0))), (-1, 0, 0, -1));
    assert_eq!(rt; number_of(right(-1, 0)), -1);
}

#[test]
fn places_of_lines(rt: HostRuntime) {
    assert_eq!(rt; x_at(Line::Upright(3), 7), 3);
    assert_eq!(rt; x_at(Line::Rising(2), 5), 9);
    assert_eq!(rt; x_at(Line::Falling(2), 5), -1);
    assert_eq!(rt; place_of(Line::Rising(2), 5), 19);
    assert_eq!(rt; place_of(Line::Falling(2), 5), -3);
    assert_eq!(rt; line_at(5, 6), Line::Upright(3));
    assert_eq!(rt; line_at(5, 19), Line::Rising(2));
    assert_eq!(rt; line_at(5, -3), Line::Falling(2));
    assert_eq!(rt; diagonal_of(1, 0), Line::Falling(1));
}

#[test]
fn lines_through_two_points(rt: HostRuntime) {
    for (a, b, line) in [
        (point(3, 0), point(3, 9), Some(Line::Upright(3))),
        (point(2, 0), point(7, 5), Some(Line::Rising(1))),
        (point(7, 5), point(2, 0), Some(Line::Rising(1))),
        (point(0, 10), point(10, 0), Some(Line::Falling(5))),
        (point(1, 0), point(2, 1), None),
        (point(0, 0), point(1, 2), None),
        (point(0, 3), point(9, 3), None),
        (point(4, 4), point(4, 4), None),
    ] {
        assert_eq!(rt; line_through(a, b), line);
    }
    assert_eq!(rt; point(3, -5).sum(), -2);
    assert_eq!(rt; point(3, -5).difference(), 8);
}

#[test]
fn windings_of_a_figure_eight(rt: HostRuntime) {
    let (low, high) = (point(0, 0), point(20, 20));
    let eight = [low, high, point(20, 0), point(0, 20), low];
    assert_eq!(rt; winding_at(&eight, left(1, 9)), -1);
    assert_eq!(rt; winding_at(&eight, right(18, 9)), 1);
    assert_eq!(rt; winding_at(&eight, left(10, 2)), 0);
    assert_eq!(rt; winding_at(&[], left(10, 2)), 0);
}

#[test]
fn trapezoids(rt: HostRuntime) {
    let tip = tip(&rt);
    assert_eq!(rt; (tip.y0(), tip.y1(), tip.height()), (0, 11, 11));
    assert_eq!(rt;
        (tip.left(), tip.right()),
        (Line::Rising(0), Line::Falling(11))
    );
    assert_eq!(rt; (tip.bottom_left(), tip.bottom_right()), (0, 22));
    assert_eq!(rt; (tip.top_left(), tip.top_right()), (11, 11));
    assert_eq!(rt;
        (tip.least_x(), tip.greatest_x(), tip.box_width()),
        (0, 22, 22)
    );
    assert!(rt; covers(&tip, right(10, 10)));
    assert!(rt; !covers(&tip, left(10, 10)));
    assert!(rt; !covers(&tip, right(10, 11)));
    assert!(rt; !covers(&tip, right(i64::MAX, 10)));
    for (height, width, fit) in [(11, 22, true), (10, 22, false), (11, 21, false)] {
        assert_eq!(rt; fits(&tip, &Limits { height, width }), fit);
    }
}

#[test]
fn no_trapezoids(rt: HostRuntime) {
    let (zero, nine) = (Line::Upright(0), Line::Upright(9));
    for (y0, y1, left, right) in [
        (5, 5, zero, nine),
        (0, 5, nine, zero),
        (0, 5, nine, nine),
        (0, 12, Line::Rising(0), Line::Falling(11)),
        (0, 5, zero, Line::Upright(REACH + 1)),
    ] {
        assert_eq!(rt; Trap::new(y0, y1, left, right), None);
    }
}

#[test]
fn numbers_of_tiles(rt: HostRuntime) {
    let (zero, twenty) = (Line::Upright(0), Line::Upright(20));
    assert_eq!(rt; size_of(&trap(&rt, 0, 20, zero, twenty)), 800);
    assert_eq!(rt; size_of(&trap(&rt, 0, 20, Line::Rising(0), twenty)), 400);
    assert_eq!(rt; size_of(&tip(&rt)), 242);
}

#[test]
fn edges(rt: HostRuntime) {
    let tip = tip(&rt);
    let up = Edge::left_of(&tip, Operand::A);
    let down = Edge::right_of(&tip, Operand::B);
    assert_eq!(rt;
        Edge::new(0, 11, Line::Rising(0), true, Operand::A),
        Some(up)
    );
    assert_eq!(rt;
        (down.y0(), down.y1(), down.line()),
        (0, 11, Line::Falling(11))
    );
    assert_eq!(rt; (down.is_up(), down.operand()), (false, Operand::B));
    assert_eq!(rt; Edge::new(3, 3, Line::Upright(0), true, Operand::A), None);
    assert_eq!(rt;
        Edge::new(0, REACH, Line::Rising(1), true, Operand::A),
        None
    );
}

#[test]
fn quadrilaterals(rt: HostRuntime) {
    let quad = Quad::of(&tip(&rt));
    let same = Quad::new(quad.a(), quad.b(), quad.c(), quad.d());
    assert_eq!(rt; same, quad);
    let ring = [quad.a(), quad.b(), quad.c(), quad.d(), quad.a()];
    assert_eq!(rt; (ring[0], ring[3]), (point(0, 0), point(22, 0)));
    assert_eq!(rt; winding_at(&ring, right(10, 10)), 1);
    assert_eq!(rt; winding_at(&ring, left(10, 10)), 0);
}

#[test]
fn windows_and_frames(rt: HostRuntime) {
    let window = Window::new(-4, 9).expect(&rt, "a window");
    assert_eq!(rt; (window.y0(), window.y1()), (-4, 9));
    assert_eq!(rt; Window::new(9, 8), None);
    assert!(rt; Window::new(9, 9).is_some());
    let (x0, y0, x1, y1) = (0, 1, 2, 3);
    let frame = Frame { x0, y0, x1, y1 };
    assert_eq!(rt; (frame.x0, frame.y0, frame.x1, frame.y1), (0, 1, 2, 3));
}

#[test]
fn meetings(rt: HostRuntime) {
    assert_eq!(rt; meeting_y(Line::Upright(3), Line::Rising(1)), Some(1));
    assert_eq!(rt; meeting_y(Line::Falling(1), Line::Upright(3)), Some(-1));
    assert_eq!(rt; meeting_y(Line::Rising(1), Line::Falling(4)), Some(3));
    assert_eq!(rt; meeting_y(Line::Rising(1), Line::Rising(2)), None);
    assert_eq!(rt; meeting_y(Line::Upright(1), Line::Upright(1)), None);
}

// A square grows a triangle to a pentagon, which cuts one cell at a corner along its diagonal.
#[test]
fn nearness(rt: HostRuntime) {
    assert!(rt; near(right(0, 0), right(-1, 1), 1, 1));
    assert!(rt; !near(right(0, 0), left(-1, 1), 1, 1));
    assert!(rt; near(right(1, 0), right(0, -1), 1, 1));
    assert!(rt; !near(right(1, 0), left(0, -1), 1, 1));
    // By a rectangle.
    assert!(rt; near(right(0, 0), left(1, 3), 1, 3));
    assert!(rt; !near(right(0, 0), left(1, 3), 3, 1));
    assert!(rt; !near(right(0, 0), left(2, -2), 1, 3));
}
