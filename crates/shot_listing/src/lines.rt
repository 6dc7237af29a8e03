//! The lines of a listing, put into a buffer that has room for one.
ghost use Rattle.std.specs.Prelude.{◌≡◌, ◌+◌, ◌≤◌, ◌∷◌, [], ◌++◌, Some, decimal, length};
ghost use Rattle.std.specs.Fmt.{signed_decimal};
ghost use Rattle.shot_listing.specs.Listing.{unit_line, layer_line, shot_line, sums_line};

use crate::room::ROOM;
use depot::{BUFFER_SIZE, Buffer};
use half_grid::Trap;
use layout_model::Pair;

// Puts the decimal text of a number that isn't negative.
fn put_count(buffer: &mut Buffer, number: u128)
    requires { length buffer.old + 40 ≤ BUFFER_SIZE }
    ensures value { buffer.new ≡ buffer.old ++ decimal number }
    ensures size { length buffer.new ≤ length buffer.old + 40 }
{
    let mut digits = itoa::Buffer::new();
    buffer.put(digits.format(number).as_bytes());
}

// Puts the decimal text of a number.
fn put_number(buffer: &mut Buffer, number: i64)
    requires { length buffer.old + 20 ≤ BUFFER_SIZE }
    ensures value { buffer.new ≡ buffer.old ++ signed_decimal number }
    ensures size { length buffer.new ≤ length buffer.old + 20 }
{
    let mut digits = itoa::Buffer::new();
    buffer.put(digits.format(number).as_bytes());
}

/// Puts the line of a unit.
pub(crate) fn put_unit(buffer: &mut Buffer, unit: u32)
    requires { length buffer.old + ROOM ≤ BUFFER_SIZE }
    ensures value { buffer.new ≡ buffer.old ++ unit_line unit }
    ensures size { length buffer.new ≤ length buffer.old + ROOM }
{
    buffer.put(b"unit ");
    put_count(buffer, u128::from(unit));
    buffer.put(b"\n");
}

// Puts the line of a layer and a datatype.
fn put_pair(buffer: &mut Buffer, pair: Pair)
    requires { length buffer.old + ROOM ≤ BUFFER_SIZE }
    ensures { buffer.new ≡ buffer.old ++ layer_line (Some pair) }
{
    buffer.put(b"layer ");
    put_count(buffer, u128::from(pair.layer));
    buffer.put(b" ");
    put_count(buffer, u128::from(pair.datatype));
    buffer.put(b"\n");
}

/// Puts the line of a layer and a datatype, where there is one.
pub(crate) fn put_layer(buffer: &mut Buffer, pair: Option<Pair>)
    requires { length buffer.old + ROOM ≤ BUFFER_SIZE }
    ensures { buffer.new ≡ buffer.old ++ layer_line pair }
{
    if let Some(pair) = pair {
        put_pair(buffer, pair);
    }
}

// Puts one number of a shot, and the byte after it.
fn put_field(buffer: &mut Buffer, number: i64, after: u8)
    requires { length buffer.old + 21 ≤ BUFFER_SIZE }
    ensures value { buffer.new ≡ buffer.old ++ (signed_decimal number ++ after ∷ []) }
    ensures size { length buffer.new ≤ length buffer.old + 21 }
{
    put_number(buffer, number);
    buffer.push(after);
}

/// Puts the line of a shot.
pub(crate) fn put_shot(buffer: &mut Buffer, shot: &Trap)
    requires { length buffer.old + ROOM ≤ BUFFER_SIZE }
    ensures { buffer.new ≡ buffer.old ++ shot_line shot.now }
{
    put_field(buffer, shot.y0(), b' ');
    put_field(buffer, shot.y1(), b' ');
    put_field(buffer, shot.bottom_left(), b' ');
    put_field(buffer, shot.bottom_right(), b' ');
    put_field(buffer, shot.top_left(), b' ');
    put_field(buffer, shot.top_right(), b'\n');
}

/// Puts the line of the sums.
pub(crate) fn put_sums(buffer: &mut Buffer, shots: usize, triangles: u128)
    requires { length buffer.old + ROOM ≤ BUFFER_SIZE }
    ensures { buffer.new ≡ buffer.old ++ sums_line shots triangles }
{
    buffer.put(b"shots ");
    put_count(buffer, shots as u128);
    buffer.put(b" triangles ");
    put_count(buffer, triangles);
    buffer.put(b"\n");
}
