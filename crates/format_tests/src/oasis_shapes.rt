//! Outlines, places and offsets by hand, and the rules.
use geo_stream::NoMemory;
use half_grid::Point;
use layout_model::{Offsets, Pair, ShapeRef, Shapes};
use oas_record::{Deltas, Rep, record_at};
use oas_shapes::{
    Brush, Figure, PathList, PointList, Repetition, Undrawn, dimensions_are_allowed, draw_figure,
    draw_path, draw_polygon, offsets_of,
};
use std::alloc::Global;
use std::test::Fail;

const PAIR: Pair = Pair {
    layer: 1,
    datatype: 0,
};

const ORIGIN: Point = Point { x: 0, y: 0 };

// The outlines of all types of CTRAPEZOID, 10 by 3, in half units.
const FLAT: [(u64, &[(i64, i64)]); 26] = [
    (0, &[(0, 0), (0, 6), (14, 6), (20, 0), (0, 0)]),
    (1, &[(0, 0), (0, 6), (20, 6), (14, 0), (0, 0)]),
    (2, &[(0, 0), (6, 6), (20, 6), (20, 0), (0, 0)]),
    (3, &[(6, 0), (0, 6), (20, 6), (20, 0), (6, 0)]),
    (4, &[(0, 0), (6, 6), (14, 6), (20, 0), (0, 0)]),
    (5, &[(6, 0), (0, 6), (20, 6), (14, 0), (6, 0)]),
    (6, &[(0, 0), (6, 6), (20, 6), (14, 0), (0, 0)]),
    (7, &[(6, 0), (0, 6), (14, 6), (20, 0), (6, 0)]),
    (8, &[(0, 0), (0, 6), (20, -14), (20, 0), (0, 0)]),
    (9, &[(0, 0), (0, -14), (20, 6), (20, 0), (0, 0)]),
    (10, &[(0, 0), (0, 6), (20, 6), (20, 20), (0, 0)]),
    (11, &[(0, 20), (0, 6), (20, 6), (20, 0), (0, 20)]),
    (12, &[(0, 0), (0, 6), (20, -14), (20, 20), (0, 0)]),
    (13, &[(0, 20), (0, -14), (20, 6), (20, 0), (0, 20)]),
    (14, &[(0, 0), (0, -14), (20, 6), (20, 20), (0, 0)]),
    (15, &[(0, 20), (0, 6), (20, -14), (20, 0), (0, 20)]),
    (16, &[(0, 0), (0, 20), (20, 0), (0, 0)]),
    (17, &[(0, 0), (0, 20), (20, 20), (0, 0)]),
    (18, &[(0, 0), (20, 20), (20, 0), (0, 0)]),
    (19, &[(0, 20), (20, 20), (20, 0), (0, 20)]),
    (20, &[(0, 0), (6, 6), (12, 0), (0, 0)]),
    (21, &[(0, 6), (12, 6), (6, 0), (0, 6)]),
    (22, &[(0, 0), (0, 40), (20, 20), (0, 0)]),
    (23, &[(0, 20), (20, 40), (20, 0), (0, 20)]),
    (24, &[(0, 0), (0, 6), (20, 6), (20, 0), (0, 0)]),
    (25, &[(0, 0), (0, 20), (20, 20), (20, 0), (0, 0)]),
];

// The same, 4 by 9.
const TALL: [(u64, &[(i64, i64)]); 26] = [
    (0, &[(0, 0), (0, 18), (-10, 18), (8, 0), (0, 0)]),
    (1, &[(0, 0), (0, 18), (8, 18), (-10, 0), (0, 0)]),
    (2, &[(0, 0), (18, 18), (8, 18), (8, 0), (0, 0)]),
    (3, &[(18, 0), (0, 18), (8, 18), (8, 0), (18, 0)]),
    (4, &[(0, 0), (18, 18), (-10, 18), (8, 0), (0, 0)]),
    (5, &[(18, 0), (0, 18), (8, 18), (-10, 0), (18, 0)]),
    (6, &[(0, 0), (18, 18), (8, 18), (-10, 0), (0, 0)]),
    (7, &[(18, 0), (0, 18), (-10, 18), (8, 0), (18, 0)]),
    (8, &[(0, 0), (0, 18), (8, 10), (8, 0), (0, 0)]),
    (9, &[(0, 0), (0, 10), (8, 18), (8, 0), (0, 0)]),
    (10, &[(0, 0), (0, 18), (8, 18), (8, 8), (0, 0)]),
    (11, &[(0, 8), (0, 18), (8, 18), (8, 0), (0, 8)]),
    (12, &[(0, 0), (0, 18), (8, 10), (8, 8), (0, 0)]),
    (13, &[(0, 8), (0, 10), (8, 18), (8, 0), (0, 8)]),
    (14, &[(0, 0), (0, 10), (8, 18), (8, 8), (0, 0)]),
    (15, &[(0, 8), (0, 18), (8, 10), (8, 0), (0, 8)]),
    (16, &[(0, 0), (0, 8), (8, 0), (0, 0)]),
    (17, &[(0, 0), (0, 8), (8, 8), (0, 0)]),
    (18, &[(0, 0), (8, 8), (8, 0), (0, 0)]),
    (19, &[(0, 8), (8, 8), (8, 0), (0, 8)]),
    (20, &[(0, 0), (18, 18), (36, 0), (0, 0)]),
    (21, &[(0, 18), (36, 18), (18, 0), (0, 18)]),
    (22, &[(0, 0), (0, 16), (8, 8), (0, 0)]),
    (23, &[(0, 8), (8, 16), (8, 0), (0, 8)]),
    (24, &[(0, 0), (0, 18), (8, 18), (8, 0), (0, 0)]),
    (25, &[(0, 0), (0, 8), (8, 8), (8, 0), (0, 0)]),
];

fn are_same(points: &[Point], wanted: &[(i64, i64)]) -> bool {
    if points.len() != wanted.len() {
        return false;
    }
    for (point, (x, y)) in points.iter().zip(wanted) {
        if point.x != *x || point.y != *y {
            return false;
        }
    }
    true
}

// Whether the shapes are one with this outline.
fn is_one(shapes: &Shapes, outline: &[(i64, i64)]) -> bool {
    if shapes.len() != 1 {
        return false;
    }
    let drawn = shapes.get(0).outline();
    match drawn.as_slice() {
        Some(points) => are_same(points, outline),
        None => false,
    }
}

// Whether shape `k` has this outline.
fn is_at(shapes: &Shapes, k: usize, outline: &[(i64, i64)]) -> bool {
    if k >= shapes.len() {
        return false;
    }
    let drawn = shapes.get(k).outline();
    match drawn.as_slice() {
        Some(points) => are_same(points, outline),
        None => false,
    }
}

fn is_figure(alloc: Global, figure: Figure, outline: &[(i64, i64)]) -> bool {
    let mut shapes = Shapes::new(alloc);
    match draw_figure(alloc, PAIR, ORIGIN, figure, None, &mut shapes) {
        Ok(()) => is_one(&shapes, outline),
        Err(_) => false,
    }
}

fn are_types(alloc: Global, width: u64, height: u64, rows: &[(u64, &[(i64, i64)])]) -> bool {
    for (kind, outline) in rows {
        let figure = Figure::Ctrapezoid {
            kind: *kind,
            width,
            height,
        };
        if !is_figure(alloc, figure, outline) {
            return false;
        }
    }
    true
}

#[test]
fn ctrapezoids_by_the_table(rt: HostRuntime) {
    assert!(rt; are_types(rt.alloc(), 10, 3, &FLAT));
    assert!(rt; are_types(rt.alloc(), 4, 9, &TALL));
}

// Deltas of trapezoids, the outline of one of 10 by 4 with level sides, and that of one of 4 by 10 with upright sides.
const SLANTED: [(i64, i64, &[(i64, i64)], &[(i64, i64)]); 3] = [
    (
        4,
        -4,
        &[(0, 0), (8, 8), (12, 8), (20, 0), (0, 0)],
        &[(0, 8), (0, 12), (8, 20), (8, 0), (0, 8)],
    ),
    (
        -4,
        4,
        &[(8, 0), (0, 8), (20, 8), (12, 0), (8, 0)],
        &[(0, 0), (0, 20), (8, 12), (8, 8), (0, 0)],
    ),
    (
        0,
        -4,
        &[(0, 0), (0, 8), (12, 8), (20, 0), (0, 0)],
        &[(0, 0), (0, 12), (8, 20), (8, 0), (0, 0)],
    ),
];

fn are_slanted(alloc: Global, rows: &[(i64, i64, &[(i64, i64)], &[(i64, i64)])]) -> bool {
    for (a, b, level, upright) in rows {
        let (a, b) = (*a, *b);
        let horizontal = Figure::Horizontal {
            width: 10,
            height: 4,
            a,
            b,
        };
        let vertical = Figure::Vertical {
            width: 4,
            height: 10,
            a,
            b,
        };
        if !is_figure(alloc, horizontal, level) || !is_figure(alloc, vertical, upright) {
            return false;
        }
    }
    true
}

#[test]
fn trapezoids_both_ways(rt: HostRuntime) {
    assert!(rt; are_slanted(rt.alloc(), &SLANTED));
}

// The point list of this record.
fn points_in(bytes: &[u8]) -> Option<Deltas<'_>> {
    let Ok((record, _next)) = record_at(bytes, 0, false) else {
        return None;
    };
    let lists = record.into_lists();
    if lists.polygon_points.is_some() {
        return lists.polygon_points;
    }
    lists.path_points
}

// The repetition of this record.
fn repetition_in(bytes: &[u8]) -> Option<Rep<'_>> {
    let Ok((record, _next)) = record_at(bytes, 0, false) else {
        return None;
    };
    record.into_lists().repetition
}

// Records of polygons with point lists of kinds 0 to 5, and the outline of each from (1, 2) in half units.
const POLYGONS: [(&[u8], &[(i64, i64)]); 6] = [
    (
        &[0x15, 0x20, 0, 2, 10, 6],
        &[(2, 4), (12, 4), (12, 10), (2, 10), (2, 4)],
    ),
    (
        &[0x15, 0x20, 1, 2, 6, 10],
        &[(2, 4), (2, 10), (12, 10), (12, 4), (2, 4)],
    ),
    (
        &[0x15, 0x20, 2, 3, 13, 20, 15],
        &[(2, 4), (2, 10), (12, 10), (12, 4), (2, 4)],
    ),
    (
        &[0x15, 0x20, 3, 2, 36, 35],
        &[(2, 4), (10, 12), (10, 4), (2, 4)],
    ),
    (
        &[0x15, 0x20, 4, 2, 25, 0, 15, 6],
        &[(2, 4), (14, 4), (8, 10), (2, 4)],
    ),
    (
        &[0x15, 0x20, 5, 3, 1, 6, 13, 7, 15, 7],
        &[(2, 4), (2, 10), (8, 10), (8, 4), (2, 4)],
    ),
];

fn is_polygon(alloc: Global, bytes: &[u8], outline: &[(i64, i64)]) -> bool {
    let Some(written) = points_in(bytes) else {
        return false;
    };
    let points = PointList::new(written);
    let mut shapes = Shapes::new(alloc);
    match draw_polygon(
        alloc,
        PAIR,
        Point { x: 1, y: 2 },
        &points,
        None,
        &mut shapes,
    ) {
        Ok(()) => is_one(&shapes, outline),
        Err(_) => false,
    }
}

fn are_polygons(alloc: Global, rows: &[(&[u8], &[(i64, i64)])]) -> bool {
    for (bytes, outline) in rows {
        if !is_polygon(alloc, bytes, outline) {
            return false;
        }
    }
    true
}

#[test]
fn polygons_of_each_kind(rt: HostRuntime) {
    assert!(rt; are_polygons(rt.alloc(), &POLYGONS));
}

// Puts a number below 2^21 last.
fn put_number(bytes: &mut Vec<u8>, number: u32) -> Result<(), NoMemory> {
    bytes.push((number % 128) as u8 | 0x80)?;
    bytes.push((number / 128 % 128) as u8 | 0x80)?;
    bytes.push((number / 16384 % 128) as u8)?;
    Ok(())
}

// The record of a tower of 5 by this height, a vertex at each step on its left side.
fn tower(alloc: Global, height: u16) -> Result<Vec<u8>, NoMemory> {
    let mut bytes = Vec::new(alloc);
    bytes.extend_from_slice(&[0x15, 0x20, 2])?;
    put_number(&mut bytes, u32::from(height).wrapping_add(2))?;
    for _step in 0..height {
        bytes.push(5)?;
    }
    bytes.push(20)?;
    put_number(&mut bytes, u32::from(height).wrapping_mul(4) | 3)?;
    Ok(bytes)
}

// The outline of the tower from this place in half units.
fn outline_of(alloc: Global, height: u16, x: i64, y: i64) -> Result<Vec<Point>, NoMemory> {
    let mut points = Vec::new(alloc);
    let mut at = y;
    points.push(Point { x, y })?;
    for _step in 0..height {
        at = at.wrapping_add(2);
        points.push(Point { x, y: at })?;
    }
    let right = x.wrapping_add(10);
    points.push(Point { x: right, y: at })?;
    points.push(Point { x: right, y })?;
    points.push(Point { x, y })?;
    Ok(points)
}

// Whether the shape is the tower from this place in half units.
fn is_tower(
    alloc: Global,
    shape: ShapeRef<'_>,
    height: u16,
    x: i64,
    y: i64,
) -> Result<bool, NoMemory> {
    let points = shape.outline().to_vec(alloc)?;
    let wanted = outline_of(alloc, height, x, y)?;
    Ok(points.as_slice() == wanted.as_slice())
}

// The outlines of a tower whose list was made at one place and is used at this and at another.
fn are_towers(alloc: Global, height: u16) -> Result<bool, NoMemory> {
    let bytes = tower(alloc, height)?;
    let Some(written) = points_in(bytes.as_slice()) else {
        return Ok(false);
    };
    let mut points = PointList::new(written);
    let (here, there) = (Point { x: 1, y: 2 }, Point { x: -30, y: 7 });
    points.make_outline(alloc, here);
    let mut shapes = Shapes::new(alloc);
    for at in [here, there] {
        if draw_polygon(alloc, PAIR, at, &points, None, &mut shapes).is_err() {
            return Ok(false);
        }
    }
    if shapes.len() != 2 {
        return Ok(false);
    }
    let (first, second) = (shapes.get(0), shapes.get(1));
    Ok(is_tower(alloc, first, height, 2, 4)? && is_tower(alloc, second, height, -60, 14)?)
}

// Outlines of 8, 9, 11, 12 and 8,191 points; those from 12 on are shared.
#[test]
fn lists_that_polygons_use_again(rt: HostRuntime) -> Result<(), Fail> {
    for height in [4, 5, 7, 8, 8187] {
        assert!(rt; are_towers(rt.alloc(), height)?);
    }
    Ok(())
}

// Texts with repetitions of kinds 0 to 11, and the offsets of each in half units.
const REPEATED: [(&[u8], &[(i64, i64)]); 12] = [
    (&[0x13, 4, 0], &[(0, 0)]),
    (
        &[0x13, 4, 1, 1, 0, 5, 7],
        &[(0, 0), (10, 0), (20, 0), (0, 14), (10, 14), (20, 14)],
    ),
    (&[0x13, 4, 2, 1, 5], &[(0, 0), (10, 0), (20, 0)]),
    (&[0x13, 4, 3, 1, 5], &[(0, 0), (0, 10), (0, 20)]),
    (&[0x13, 4, 4, 1, 5, 7], &[(0, 0), (10, 0), (24, 0)]),
    (&[0x13, 4, 5, 1, 10, 5, 7], &[(0, 0), (100, 0), (240, 0)]),
    (&[0x13, 4, 6, 1, 5, 7], &[(0, 0), (0, 10), (0, 24)]),
    (&[0x13, 4, 7, 1, 10, 5, 7], &[(0, 0), (0, 100), (0, 240)]),
    (
        &[0x13, 4, 8, 0, 0, 21, 2, 1, 9],
        &[(0, 0), (10, 2), (0, -8), (10, -6)],
    ),
    (&[0x13, 4, 9, 1, 21, 2], &[(0, 0), (10, 2), (20, 4)]),
    (&[0x13, 4, 10, 1, 21, 3, 1, 6], &[(0, 0), (10, -2), (10, 4)]),
    (
        &[0x13, 4, 11, 1, 10, 21, 3, 1, 6],
        &[(0, 0), (100, -20), (100, 40)],
    ),
];

fn are_offsets(offsets: &Offsets, wanted: &[(i64, i64)]) -> bool {
    if offsets.count() != wanted.len() as u64 {
        return false;
    }
    for (k, (x, y)) in wanted.iter().enumerate() {
        let place = offsets.nth(k as u64);
        if place.x != *x || place.y != *y {
            return false;
        }
    }
    true
}

fn is_repeated(alloc: Global, bytes: &[u8], wanted: &[(i64, i64)]) -> bool {
    let Some(written) = repetition_in(bytes) else {
        return false;
    };
    let is_allowed = dimensions_are_allowed(&written);
    let mut repetition = Repetition::new(written);
    let Ok(first) = offsets_of(alloc, &repetition) else {
        return false;
    };
    repetition.make_places(alloc);
    match offsets_of(alloc, &repetition) {
        Ok(again) => is_allowed && are_offsets(&first, wanted) && are_offsets(&again, wanted),
        Err(_) => false,
    }
}

fn are_repeated(alloc: Global, rows: &[(&[u8], &[(i64, i64)])]) -> bool {
    for (bytes, wanted) in rows {
        if !is_repeated(alloc, bytes, wanted) {
            return false;
        }
    }
    true
}

#[test]
fn repetitions_of_each_kind(rt: HostRuntime) {
    assert!(rt; are_repeated(rt.alloc(), &REPEATED));
}

fn rule_of(drawn: Result<(), Undrawn>) -> u8 {
    match drawn {
        Ok(()) => 0,
        Err(Undrawn::Rule(rule)) => rule,
        Err(Undrawn::NoMemory) => 255,
    }
}

fn rule_of_figure(alloc: Global, figure: Figure, repetition: Option<&Repetition<'_>>) -> u8 {
    let mut shapes = Shapes::new(alloc);
    rule_of(draw_figure(alloc, PAIR, ORIGIN, figure, repetition, &mut shapes))
}

#[test]
fn figures_by_their_lowest_rule(rt: HostRuntime) {
    let alloc = rt.alloc();
    let square = |side: u64| Figure::Rectangle {
        width: side,
        height: side,
    };
    let row = |dim: u64, space: u64| Repetition::new(Rep::Row { dim, space });
    let far = row(3, 1 << 40);
    let many = row(16_777_217, 0);
    let slanted = Figure::Horizontal {
        width: 10,
        height: 4,
        a: 2,
        b: 0,
    };
    assert_eq!(rt; rule_of_figure(alloc, square(1 << 40), None), 0);
    assert_eq!(rt;
        rule_of_figure(alloc, square((1 << 40) + 1), Some(&many)),
        1
    );
    assert_eq!(rt; rule_of_figure(alloc, square(1), Some(&far)), 1);
    assert_eq!(rt; rule_of_figure(alloc, slanted, Some(&far)), 1);
    assert_eq!(rt; rule_of_figure(alloc, slanted, Some(&many)), 6);
    assert_eq!(rt; rule_of_figure(alloc, slanted, None), 6);
    assert_eq!(rt; rule_of_figure(alloc, square(1), Some(&many)), 11);
}

fn rule_of_path(alloc: Global, brush: Brush, bytes: &[u8]) -> u8 {
    let Some(written) = points_in(bytes) else {
        return 255;
    };
    let points = PathList::new(written);
    let mut shapes = Shapes::new(alloc);
    rule_of(draw_path(alloc, PAIR, ORIGIN, brush, &points, None, &mut shapes))
}

// Paths that go along x and along y, at 45 degrees, and 2^41 to the right.
const BENT_PATH: &[u8] = &[0x16, 0x20, 4, 2, 21, 0, 1, 10];

const SLANTED_PATH: &[u8] = &[0x16, 0x20, 4, 1, 21, 10];

const FAR_PATH: &[u8] = &[0x16, 0x20, 4, 1, 0x81, 0x80, 0x80, 0x80, 0x80, 0x80, 2, 0];

#[test]
fn paths_by_their_lowest_rule(rt: HostRuntime) {
    let alloc = rt.alloc();
    let brush = |half_width: u64, end: i128| Brush {
        half_width,
        start: 0,
        end,
    };
    assert_eq!(rt; rule_of_path(alloc, brush(2, 0), BENT_PATH), 0);
    assert_eq!(rt; rule_of_path(alloc, brush(2, 0), SLANTED_PATH), 8);
    assert_eq!(rt; rule_of_path(alloc, brush(0, 0), SLANTED_PATH), 0);
    assert_eq!(rt; rule_of_path(alloc, brush(0, 1 << 41), SLANTED_PATH), 1);
    assert_eq!(rt; rule_of_path(alloc, brush(0, 0), FAR_PATH), 1);
}

const STAIRS: &[u8] = &[0x16, 0x20, 2, 10, 40, 41, 40, 41, 40, 41, 40, 41, 40, 41];

// Stairs that are made once and drawn with three widths, of which one is 0, at another position.
#[test]
fn a_path_used_again(rt: HostRuntime) -> Result<(), Fail> {
    let alloc = rt.alloc();
    let mut points = PathList::new(points_in(STAIRS).expect(&rt, "a list"));
    points.make_segments(alloc, ORIGIN);
    let mut shapes = Shapes::new(alloc);
    for (half_width, start) in [(1u64, 0i128), (0, 5), (3, 2)] {
        let brush = Brush {
            half_width,
            start,
            end: 0,
        };
        let place = Point { x: 100, y: -7 };
        let drawn = draw_path(alloc, PAIR, place, brush, &points, None, &mut shapes);
        assert!(rt; drawn.is_ok());
    }
    assert_eq!(rt; shapes.len(), 20);
    let narrow = [(200, -16), (200, -12), (222, -12), (222, -16), (200, -16)];
    assert!(rt; is_at(&shapes, 0, &narrow));
    let wide = [(196, -20), (196, -8), (226, -8), (226, -20), (196, -20)];
    assert!(rt; is_at(&shapes, 10, &wide));
    Ok(())
}

#[test]
fn a_path_with_its_ends(rt: HostRuntime) {
    let written = points_in(&[0x16, 0x20, 2, 1, 40]).expect(&rt, "a list");
    let points = PathList::new(written);
    let brush = Brush {
        half_width: 2,
        start: 1,
        end: -3,
    };
    let mut shapes = Shapes::new(rt.alloc());
    let drawn = draw_path(rt.alloc(), PAIR, ORIGIN, brush, &points, None, &mut shapes);
    assert!(rt; drawn.is_ok());
    assert!(rt; is_one(&shapes, &[(-2, -4), (-2, 4), (14, 4), (14, -4), (-2, -4)]));
}
