//! How many grid steps of a layout's file are a micrometre, in thousandths.
use crate::note::Note;
use geo_stream::NoMemory;
use oas_lex::Real;

// The top over the bottom, rounded to the nearest whole number.
fn nearest(top: u128, bottom: u128) -> Option<u128> {
    if bottom == 0 {
        return None;
    }
    Some(top.saturating_add(bottom / 2) / bottom)
}

/// The thousandths of grid steps in a micrometre, where a grid step is the GDSII real of these bits, in metres.
pub(crate) fn gds_steps(bits: u64) -> Option<u128> {
    let fraction = bits % (1 << 56);
    let exponent = ((bits >> 56) % 128) as u32;
    if bits >> 63 == 1 || exponent < 51 || exponent > 68 {
        return None;
    }
    let shift = 312 - 4 * exponent;
    nearest(1u128 << shift, u128::from(fraction).saturating_mul(1000))
}

// A thousand times the number of an IEEE format with so many fraction bits, of which this exponent is that of a whole
// fraction.
fn ieee_steps(bits: u64, fraction_bits: u32, whole: u64) -> Option<u128> {
    if fraction_bits > 52 {
        return None;
    }
    let one = 1u64 << fraction_bits;
    let exponent = bits / one;
    let thousand = u128::from(one)
        .saturating_add(u128::from(bits % one))
        .saturating_mul(1000);
    if exponent > whole || whole - exponent > 64 {
        return None;
    }
    nearest(thousand, 1u128 << (whole - exponent))
}

/// The thousandths of grid steps in a micrometre, where that many steps are this OASIS real.
pub(crate) fn oas_steps(unit: &Real) -> Option<u128> {
    let thousand = u128::from(unit.a).saturating_mul(1000);
    match unit.kind {
        0 => Some(thousand),
        2 => nearest(1000, u128::from(unit.a)),
        4 => nearest(thousand, u128::from(unit.b)),
        6 => ieee_steps(unit.a, 23, 150),
        7 => ieee_steps(unit.a, 52, 1075),
        _ => None,
    }
}

// Tells so many thousandths.
fn tell_thousandths(note: &mut Note, thousandths: u128) -> Result<(), NoMemory> {
    note.put_number(thousandths / 1000)?;
    match u64::try_from(thousandths % 1000) {
        Ok(0) | Err(_) => Ok(()),
        Ok(rest) => {
            note.put(".")?;
            note.put_digits(rest, 3)
        }
    }
}

/// Tells how many grid steps of the file are a micrometre, in thousandths where they are known, and how many the deck says.
pub(crate) fn tell_units(note: &mut Note, file: Option<u128>, deck: u32) -> Result<(), NoMemory> {
    match file {
        Some(thousandths) => {
            note.put("    the file has ")?;
            tell_thousandths(note, thousandths)?;
            note.put(" steps a micrometre, the deck says ")?;
        }
        None => note.put("    the file's unit is that of no chip, the deck says ")?,
    }
    note.put_number(u128::from(deck))?;
    note.put("\n")
}
