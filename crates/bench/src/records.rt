//! OASIS records of rectangles, and files of them.

use oas_record::{OasRecord, ShapeKind, record_at};
use std::alloc::{AllocError, Global};

// RECTANGLE with x and y alone.
const MODAL: [u8; 2] = [0x14, 0x18];

// RECTANGLE with all its fields but a repetition: layer 1, datatype 0, ten by ten grid steps.
const WHOLE: [u8; 6] = [0x14, 0x7B, 0x01, 0x00, 0x0A, 0x0A];

// The magic bytes, START of version 1.0 with 1000 grid steps per micrometre, and the cell TOP.
const HEAD: &[u8] =
    b"%SEMI-OASIS\r\n\x01\x031.0\x00\xE8\x07\x00\0\0\0\0\0\0\0\0\0\0\0\0\x0E\x03TOP";

// END up to its padding of 252 bytes, after which comes the scheme 0.
const END: &[u8] = b"\x02\xFC\x01";

// A number from 0 to 2^20 - 1, as a signed number in three groups of seven bits.
fn put_number(bytes: &mut Vec<u8>, number: u32) -> Result<(), AllocError> {
    let low = (number % 64 * 2) as u8;
    let middle = (number / 64 % 128) as u8;
    let high = (number / 8192 % 128) as u8;
    bytes.extend_from_slice(&[low | 0x80, middle | 0x80, high])
}

// So many rectangles, a thousand in a row: the first with all its fields, the others so or with their places alone.
fn put_rectangles(bytes: &mut Vec<u8>, count: u32, is_whole: bool) -> Result<(), AllocError> {
    for k in 0..count {
        let fields: &[u8] = if is_whole || k == 0 { &WHOLE } else { &MODAL };
        bytes.extend_from_slice(fields)?;
        put_number(bytes, k % 1000 * 20)?;
        put_number(bytes, k / 1000 * 20)?;
    }
    Ok(())
}

/// So many rectangles: the first with all its fields, the others so or with their places alone.
pub(crate) fn rectangles(alloc: Global, count: u32, is_whole: bool) -> Result<Vec<u8>, AllocError> {
    let mut bytes = Vec::new(alloc);
    put_rectangles(&mut bytes, count, is_whole)?;
    Ok(bytes)
}

/// A file of one cell that has these rectangles.
pub(crate) fn file(alloc: Global, count: u32, is_whole: bool) -> Result<Vec<u8>, AllocError> {
    let mut bytes = Vec::from_slice(alloc, HEAD)?;
    put_rectangles(&mut bytes, count, is_whole)?;
    bytes.extend_from_slice(END)?;
    bytes.extend_from_slice(&[0; 253])?;
    Ok(bytes)
}

// Whether the record is a rectangle that has its place.
fn is_placed(record: &OasRecord<'_>) -> bool {
    match record {
        OasRecord::Shape {
            head,
            kind: ShapeKind::Rectangle { .. },
        } => head.x.is_some() && head.y.is_some(),
        _ => false,
    }
}

/// How many of the records are rectangles that have their place, up to the first that can't be read.
pub(crate) fn placed(bytes: &[u8]) -> usize {
    let mut at = 0;
    let mut found: usize = 0;
    for _ in 0..bytes.len() {
        if at >= bytes.len() {
            return found;
        }
        let Ok((record, next)) = record_at(bytes, at, false) else {
            return found;
        };
        if is_placed(&record) {
            found = found.wrapping_add(1);
        }
        at = next;
    }
    found
}
