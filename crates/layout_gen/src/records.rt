//! Records of a stream file, put into a buffer.
ghost use Rattle.std.specs.Prelude.{◌≡◌, ◌+◌, ◌*◌, ◌≤◌, ◌++◌, length};
ghost use Rattle.byteorder.specs.Endian.{big_bytes};
ghost use Rattle.layout_gen.specs.Streams.{record_bytes, point_bytes, points_bytes, wide_bytes};

use byteorder::{BigEndian, ByteOrder};
use depot::{BUFFER_SIZE, Buffer};

/// The dates of a library or a cell, all 0.
pub(crate) const NO_DATES: [u8; 24] = [0; 24];

// The heads of the records that a generated layout has: record type and data type.
pub(crate) const HEADER: u16 = 0x0002;

pub(crate) const BGN_LIB: u16 = 0x0102;

pub(crate) const LIB_NAME: u16 = 0x0206;

pub(crate) const UNITS: u16 = 0x0305;

pub(crate) const END_LIB: u16 = 0x0400;

pub(crate) const BGN_STR: u16 = 0x0502;

pub(crate) const STR_NAME: u16 = 0x0606;

pub(crate) const END_STR: u16 = 0x0700;

pub(crate) const BOUNDARY: u16 = 0x0800;

pub(crate) const PATH: u16 = 0x0900;

pub(crate) const SREF: u16 = 0x0A00;

pub(crate) const AREF: u16 = 0x0B00;

pub(crate) const LAYER: u16 = 0x0D02;

pub(crate) const DATA_TYPE: u16 = 0x0E02;

pub(crate) const WIDTH: u16 = 0x0F03;

pub(crate) const XY: u16 = 0x1003;

pub(crate) const END_EL: u16 = 0x1100;

pub(crate) const SNAME: u16 = 0x1206;

pub(crate) const COL_ROW: u16 = 0x1302;

pub(crate) const STRANS: u16 = 0x1A01;

pub(crate) const ANGLE: u16 = 0x1C05;

pub(crate) const PATH_TYPE: u16 = 0x2102;

/// Puts the length and the head of a record whose content has this many bytes.
fn put_head(buffer: &mut Buffer, head: u16, content: usize)
    requires room { length buffer.old + (content + 4) ≤ BUFFER_SIZE }
    ensures value { buffer.new ≡ buffer.old ++ (big_bytes 2 (content + 4) ++ big_bytes 2 head) }
    ensures size { length buffer.new ≡ length buffer.old + 4 }
{
    let mut start = [0u8; 4];
    BigEndian::write_u16(&mut start, (content + 4) as u16);
    BigEndian::write_u16(&mut start[2..], head);
    buffer.put(&start);
}

/// Puts a record.
#[tactic(auto, unfolding(crate::specs::Streams::record_bytes))]
pub(crate) fn put_record(buffer: &mut Buffer, head: u16, content: &[u8])
    requires room { length buffer.old + (length content.now + 4) ≤ BUFFER_SIZE }
    ensures value { buffer.new ≡ buffer.old ++ record_bytes head content.now }
    ensures size { length buffer.new ≡ length buffer.old + (length content.now + 4) }
{
    put_head(buffer, head, content.len());
    buffer.put(content);
}

/// Puts a record of one number of two bytes.
pub(crate) fn put_number(buffer: &mut Buffer, head: u16, number: u16)
    requires room { length buffer.old + 6 ≤ BUFFER_SIZE }
    ensures value { buffer.new ≡ buffer.old ++ record_bytes head (big_bytes 2 number) }
    ensures size { length buffer.new ≡ length buffer.old + 6 }
{
    let mut content = [0u8; 2];
    BigEndian::write_u16(&mut content, number);
    put_record(buffer, head, &content);
}

/// Puts a point.
#[tactic(auto, unfolding(crate::specs::Streams::point_bytes))]
fn put_point(buffer: &mut Buffer, point: (i32, i32))
    requires room { length buffer.old + 8 ≤ BUFFER_SIZE }
    ensures value { buffer.new ≡ buffer.old ++ point_bytes point }
    ensures size { length buffer.new ≡ length buffer.old + 8 }
{
    let mut bytes = [0u8; 8];
    BigEndian::write_i32(&mut bytes, point.0);
    BigEndian::write_i32(&mut bytes[4..], point.1);
    buffer.put(&bytes);
}

/// Puts a record of points, in grid steps.
#[tactic(auto, unfolding(crate::specs::Streams::record_bytes, crate::specs::Streams::points_bytes))]
pub(crate) fn put_points(buffer: &mut Buffer, points: &[(i32, i32)])
    requires room { length buffer.old + (8 * length points.now + 4) ≤ BUFFER_SIZE }
    ensures value { buffer.new ≡ buffer.old ++ record_bytes XY (points_bytes points.now) }
    ensures size { length buffer.new ≡ length buffer.old + (8 * length points.now + 4) }
{
    put_head(buffer, XY, 8 * points.len());
    for point in points {
        put_point(buffer, *point);
    }
}

/// Puts a record of two numbers of two bytes.
pub(crate) fn put_two(buffer: &mut Buffer, head: u16, first: u16, second: u16)
    requires room { length buffer.old + 8 ≤ BUFFER_SIZE }
    ensures value { buffer.new ≡ buffer.old ++ record_bytes head (big_bytes 2 first ++ big_bytes 2 second) }
    ensures size { length buffer.new ≡ length buffer.old + 8 }
{
    let mut content = [0u8; 4];
    BigEndian::write_u16(&mut content, first);
    BigEndian::write_u16(&mut content[2..], second);
    put_record(buffer, head, &content);
}

/// A number of eight bytes.
#[tactic(auto, unfolding(crate::specs::Streams::wide_bytes))]
fn wide(number: u64) -> [u8; 8]
    ensures { result ≡ wide_bytes number }
{
    let mut bytes = [0u8; 8];
    BigEndian::write_u64(&mut bytes, number);
    bytes
}

/// Puts a record of one number of eight bytes.
pub(crate) fn put_wide(buffer: &mut Buffer, head: u16, number: u64)
    requires room { length buffer.old + 12 ≤ BUFFER_SIZE }
    ensures value { buffer.new ≡ buffer.old ++ record_bytes head (wide_bytes number) }
    ensures size { length buffer.new ≡ length buffer.old + 12 }
{
    put_record(buffer, head, &wide(number));
}

/// Puts a record of two numbers of eight bytes.
pub(crate) fn put_two_wide(buffer: &mut Buffer, head: u16, first: u64, second: u64)
    requires room { length buffer.old + 20 ≤ BUFFER_SIZE }
    ensures value { buffer.new ≡ buffer.old ++ record_bytes head (wide_bytes first ++ wide_bytes second) }
    ensures size { length buffer.new ≡ length buffer.old + 20 }
{
    put_head(buffer, head, 16);
    buffer.put(&wide(first));
    buffer.put(&wide(second));
}

/// Puts a record of one number of four bytes.
pub(crate) fn put_long(buffer: &mut Buffer, head: u16, number: u32)
    requires room { length buffer.old + 8 ≤ BUFFER_SIZE }
    ensures value { buffer.new ≡ buffer.old ++ record_bytes head (big_bytes 4 number) }
    ensures size { length buffer.new ≡ length buffer.old + 8 }
{
    let mut content = [0u8; 4];
    BigEndian::write_u32(&mut content, number);
    put_record(buffer, head, &content);
}
