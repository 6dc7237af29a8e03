//! The two cells of a generated layout, put into a buffer.
ghost use Rattle.std.specs.Prelude.{◌≡◌, ◌+◌, ◌*◌, ◌-◌, ◌%◌, ◌≤◌, ◌<◌, ◌++◌, length, pos};
ghost use Rattle.layout_gen.specs.Streams.{record_bytes, points_bytes};
ghost use Rattle.layout_gen.specs.Generated.{side_of, left_of, bottom_of, square, triangle, boundary_bytes, outline_of, shape_bytes, shapes_from, path_bytes, leaf_bytes, array_points, array_bytes, turned_bytes, top_bytes};

use crate::records::{
    ANGLE, AREF, BGN_STR, BOUNDARY, COL_ROW, DATA_TYPE, END_EL, END_STR, LAYER, NO_DATES, PATH,
    PATH_TYPE, SNAME, SREF, STR_NAME, STRANS, WIDTH, XY, put_long, put_number, put_points,
    put_record, put_two, put_wide,
};
use depot::{BUFFER_SIZE, Buffer};

/// Puts a shape with this outline on layer 1, datatype 0.
fn put_boundary(buffer: &mut Buffer, points: &[(i32, i32)])
    requires few { length points.now ≤ 5 }
    requires room { length buffer.old + 64 ≤ BUFFER_SIZE }
    ensures value { buffer.new ≡ buffer.old ++ boundary_bytes points.now }
    ensures size { length buffer.new ≡ length buffer.old + (24 + 8 * length points.now) }
{
    put_record(buffer, BOUNDARY, b"");
    put_number(buffer, LAYER, 1);
    put_number(buffer, DATA_TYPE, 0);
    put_points(buffer, points);
    put_record(buffer, END_EL, b"");
}

/// Puts the square from the corner (a, b) on.
#[tactic(auto, unfolding(crate::specs::Generated::square))]
fn put_square(buffer: &mut Buffer, a: u16, b: u16, side: u16)
    requires left { a ≤ 1000 }
    requires bottom { b ≤ 1000 }
    requires side { side ≤ 100 }
    requires room { length buffer.old + 64 ≤ BUFFER_SIZE }
    ensures value { buffer.new ≡ buffer.old ++ boundary_bytes (square a b side) }
    ensures size { length buffer.new ≡ length buffer.old + 64 }
{
    let (left, bottom) = (i32::from(a), i32::from(b));
    let (right, top) = (i32::from(a + side), i32::from(b + side));
    let corner = (left, bottom);
    put_boundary(
        buffer,
        &[corner, (left, top), (right, top), (right, bottom), corner],
    );
}

/// Puts its half below the diagonal that goes up to the right.
#[tactic(auto, unfolding(crate::specs::Generated::triangle))]
fn put_triangle(buffer: &mut Buffer, a: u16, b: u16, side: u16)
    requires left { a ≤ 1000 }
    requires bottom { b ≤ 1000 }
    requires side { side ≤ 100 }
    requires room { length buffer.old + 64 ≤ BUFFER_SIZE }
    ensures value { buffer.new ≡ buffer.old ++ boundary_bytes (triangle a b side) }
    ensures size { length buffer.new ≡ length buffer.old + 56 }
{
    let (left, bottom) = (i32::from(a), i32::from(b));
    let (right, top) = (i32::from(a + side), i32::from(b + side));
    let corner = (left, bottom);
    put_boundary(buffer, &[corner, (right, top), (right, bottom), corner]);
}

/// The side of shape `m`, in grid steps.
#[tactic(auto, unfolding(crate::specs::Generated::side_of))]
fn side_of_shape(n: u16, m: u16) -> u16
    requires number { n ≤ 1000 }
    requires shape { m ≤ 16 }
    ensures value { result ≡ side_of n m }
    ensures short { result ≤ 100 }
{
    (20 + 37 * u32::from(n) * u32::from(m) % 80) as u16
}

/// Puts shape `m`.
#[tactic(auto, unfolding(crate::specs::Generated::shape_bytes, crate::specs::Generated::left_of, crate::specs::Generated::bottom_of))]
fn put_shape(buffer: &mut Buffer, n: u16, m: u16)
    requires number { n ≤ 1000 }
    requires first { 1 ≤ m }
    requires last { m ≤ 16 }
    requires room { length buffer.old + 64 ≤ BUFFER_SIZE }
    ensures value { buffer.new ≡ buffer.old ++ shape_bytes n m }
    ensures size { length buffer.new ≡ length buffer.old + (56 + 8 * (m % 2)) }
{
    let (a, b) = (200 * ((m - 1) % 4), 200 * ((m - 1) / 4));
    let side = side_of_shape(n, m);
    if m % 2 == 0 {
        put_triangle(buffer, a, b, side);
    } else {
        put_square(buffer, a, b, side);
    }
}

/// Puts the sixteen shapes.
#[tactic(auto, unfolding(crate::specs::Generated::shapes_from))]
fn put_shapes(buffer: &mut Buffer, n: u16)
    requires number { n ≤ 1000 }
    requires room { length buffer.old + 1024 ≤ BUFFER_SIZE }
    ensures value { buffer.new ≡ buffer.old ++ shapes_from n 1 16 }
    ensures size { length buffer.new ≡ length buffer.old + 960 }
{
    let mut m = 1;
    while m < 17 {
        put_shape(buffer, n, m);
        m += 1;
    }
}

/// Puts the path on layer 2, datatype 0.
fn put_path(buffer: &mut Buffer)
    requires room { length buffer.old + 62 ≤ BUFFER_SIZE }
    ensures value { buffer.new ≡ buffer.old ++ path_bytes }
    ensures size { length buffer.new ≡ length buffer.old + 62 }
{
    put_record(buffer, PATH, b"");
    put_number(buffer, LAYER, 2);
    put_number(buffer, DATA_TYPE, 0);
    put_number(buffer, PATH_TYPE, 2);
    put_long(buffer, WIDTH, 20);
    put_points(buffer, &[(0, 0), (700, 0), (700, 700)]);
    put_record(buffer, END_EL, b"");
}

/// Puts the cell LEAF.
pub(crate) fn put_leaf(buffer: &mut Buffer, n: u16)
    requires number { n ≤ 1000 }
    requires room { length buffer.old + 1126 ≤ BUFFER_SIZE }
    ensures value { buffer.new ≡ buffer.old ++ leaf_bytes n }
    ensures size { length buffer.new ≡ length buffer.old + 1062 }
{
    put_record(buffer, BGN_STR, &NO_DATES);
    put_record(buffer, STR_NAME, b"LEAF");
    put_shapes(buffer, n);
    put_path(buffer);
    put_record(buffer, END_STR, b"");
}

/// Puts the origin of the array, and the origin moved by all columns and by all rows.
#[tactic(auto, unfolding(crate::specs::Generated::array_points))]
fn put_array_points(buffer: &mut Buffer, n: u16)
    requires number { n ≤ 1000 }
    requires room { length buffer.old + 28 ≤ BUFFER_SIZE }
    ensures value { buffer.new ≡ buffer.old ++ record_bytes XY (points_bytes (array_points n)) }
    ensures size { length buffer.new ≡ length buffer.old + 28 }
{
    let far = (1000 * u32::from(n)) as i32;
    put_points(buffer, &[(0, 0), (far, 0), (0, far)]);
}

/// Puts the array of `n` by `n` LEAFs.
fn put_array(buffer: &mut Buffer, n: u16)
    requires number { n ≤ 1000 }
    requires room { length buffer.old + 52 ≤ BUFFER_SIZE }
    ensures value { buffer.new ≡ buffer.old ++ array_bytes n }
    ensures size { length buffer.new ≡ length buffer.old + 52 }
{
    put_record(buffer, AREF, b"");
    put_record(buffer, SNAME, b"LEAF");
    put_two(buffer, COL_ROW, n, n);
    put_array_points(buffer, n);
    put_record(buffer, END_EL, b"");
}

/// Puts the one LEAF that is flipped and turned.
fn put_turned(buffer: &mut Buffer)
    requires room { length buffer.old + 46 ≤ BUFFER_SIZE }
    ensures value { buffer.new ≡ buffer.old ++ turned_bytes }
    ensures size { length buffer.new ≡ length buffer.old + 46 }
{
    put_record(buffer, SREF, b"");
    put_record(buffer, SNAME, b"LEAF");
    put_number(buffer, STRANS, 0x8000);
    put_wide(buffer, ANGLE, 0x425A_0000_0000_0000);
    put_points(buffer, &[(-1000, -1000)]);
    put_record(buffer, END_EL, b"");
}

/// Puts the cell TOP.
pub(crate) fn put_top(buffer: &mut Buffer, n: u16)
    requires number { n ≤ 1000 }
    requires room { length buffer.old + 138 ≤ BUFFER_SIZE }
    ensures value { buffer.new ≡ buffer.old ++ top_bytes n }
    ensures size { length buffer.new ≡ length buffer.old + 138 }
{
    put_record(buffer, BGN_STR, &NO_DATES);
    put_record(buffer, STR_NAME, b"TOP\0");
    put_array(buffer, n);
    put_turned(buffer);
    put_record(buffer, END_STR, b"");
}
