//! GDSII files of squares: in one cell, and in a cell that is placed in arrays.

use std::alloc::{AllocError, Global};

// HEADER, BGNLIB, LIBNAME and UNITS.
const START: [u8; 60] = [
    0x00, 0x06, 0x00, 0x02, 0x02, 0x58, 0x00, 0x1C, 0x01, 0x02, 0, 0, 0, 0, 0, 0, 0, 0, 0, 0, 0, 0,
    0, 0, 0, 0, 0, 0, 0, 0, 0, 0, 0, 0, 0x00, 0x06, 0x02, 0x06, 0x4C, 0x00, 0x00, 0x14, 0x03, 0x05,
    0x3E, 0x41, 0x89, 0x37, 0x4B, 0xC6, 0xA7, 0xF0, 0x39, 0x44, 0xB8, 0x2F, 0xA0, 0x9B, 0x5A, 0x54,
];

// BGNSTR and the head of a STRNAME of two bytes.
const STRUCTURE: [u8; 32] = [
    0x00, 0x1C, 0x05, 0x02, 0, 0, 0, 0, 0, 0, 0, 0, 0, 0, 0, 0, 0, 0, 0, 0, 0, 0, 0, 0, 0, 0, 0, 0,
    0x00, 0x06, 0x06, 0x06,
];

// AREF and the head of an SNAME of two bytes.
const ARRAY: [u8; 8] = [0x00, 0x04, 0x0B, 0x00, 0x00, 0x06, 0x12, 0x06];

// The heads of COLROW and of an XY of three points.
const COLUMNS: [u8; 4] = [0x00, 0x08, 0x13, 0x02];

const CORNERS: [u8; 4] = [0x00, 0x1C, 0x10, 0x03];

// BOUNDARY, LAYER 1, DATATYPE 0 and the head of an XY of five points.
const SHAPE: [u8; 20] = [
    0x00, 0x04, 0x08, 0x00, 0x00, 0x06, 0x0D, 0x02, 0x00, 0x01, 0x00, 0x06, 0x0E, 0x02, 0x00, 0x00,
    0x00, 0x2C, 0x10, 0x03,
];

// ENDEL.
const END: [u8; 4] = [0x00, 0x04, 0x11, 0x00];

// ENDSTR and ENDLIB.
const WHOLE: [u8; 4] = [0x00, 0x04, 0x07, 0x00];

const FINISH: [u8; 4] = [0x00, 0x04, 0x04, 0x00];

/// From one cell of ten squares to the next, in grid steps.
pub(crate) const PITCH: i32 = 200;

/// The name of the cell that has the squares. The name of each cell that places the one before is the next letter.
pub(crate) const LOWEST: u8 = b'A';

fn put_point(bytes: &mut Vec<u8>, x: i32, y: i32) -> Result<(), AllocError> {
    bytes.extend_from_slice(&x.to_be_bytes())?;
    bytes.extend_from_slice(&y.to_be_bytes())
}

// A square of ten grid steps.
fn put_square(bytes: &mut Vec<u8>, x: i32, y: i32) -> Result<(), AllocError> {
    let (right, top) = (x.wrapping_add(10), y.wrapping_add(10));
    bytes.extend_from_slice(&SHAPE)?;
    put_point(bytes, x, y)?;
    put_point(bytes, x, top)?;
    put_point(bytes, right, top)?;
    put_point(bytes, right, y)?;
    put_point(bytes, x, y)?;
    bytes.extend_from_slice(&END)
}

// The head of the structure of this letter.
fn put_head(bytes: &mut Vec<u8>, name: u8) -> Result<(), AllocError> {
    bytes.extend_from_slice(&STRUCTURE)?;
    bytes.extend_from_slice(&[name, 0])
}

// A square array of the structure of this letter, so many a side, this many grid steps from one to the next.
fn put_array(bytes: &mut Vec<u8>, name: u8, side: u16, pitch: i32) -> Result<(), AllocError> {
    let far = pitch.wrapping_mul(i32::from(side));
    bytes.extend_from_slice(&ARRAY)?;
    bytes.extend_from_slice(&[name, 0])?;
    bytes.extend_from_slice(&COLUMNS)?;
    bytes.extend_from_slice(&side.to_be_bytes())?;
    bytes.extend_from_slice(&side.to_be_bytes())?;
    bytes.extend_from_slice(&CORNERS)?;
    put_point(bytes, 0, 0)?;
    put_point(bytes, far, 0)?;
    put_point(bytes, 0, far)?;
    bytes.extend_from_slice(&END)
}

// The structure of so many squares, a thousand in a row: 64 bytes each.
fn put_squares(bytes: &mut Vec<u8>, count: u32) -> Result<(), AllocError> {
    put_head(bytes, LOWEST)?;
    for k in 0..count {
        put_square(bytes, ((k % 1000) * 20) as i32, ((k / 1000) * 20) as i32)?;
    }
    bytes.extend_from_slice(&WHOLE)
}

/// One structure of this many squares.
pub(crate) fn file(alloc: Global, count: u32) -> Result<Vec<u8>, AllocError> {
    let mut bytes = Vec::new(alloc);
    bytes.extend_from_slice(&START)?;
    put_squares(&mut bytes, count)?;
    bytes.extend_from_slice(&FINISH)?;
    Ok(bytes)
}

/// A structure of ten squares in a row, and this many more, each a square array of the one before, with this many a
/// side.
pub(crate) fn arrays(alloc: Global, levels: u8, side: u16) -> Result<Vec<u8>, AllocError> {
    let mut bytes = Vec::new(alloc);
    bytes.extend_from_slice(&START)?;
    put_squares(&mut bytes, 10)?;
    let mut pitch = PITCH;
    for level in 0..levels {
        let name = LOWEST.wrapping_add(level);
        put_head(&mut bytes, name.wrapping_add(1))?;
        put_array(&mut bytes, name, side, pitch)?;
        bytes.extend_from_slice(&WHOLE)?;
        pitch = pitch.wrapping_mul(i32::from(side));
    }
    bytes.extend_from_slice(&FINISH)?;
    Ok(bytes)
}
