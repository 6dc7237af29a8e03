//! Where a cell is placed that isn't in a GDSII file, and the cells above.
use crate::gdsii::{placement_of, tell_gds};
use crate::note::Note;
use geo_stream::NoMemory;
use std::alloc::Global;

/// So many cells are told at most above a cell.
const MOST: usize = 64;

/// How many names of a long chain are told at its beginning, and at its end.
const ENDS: usize = 4;

/// A cell that is placed and isn't there.
#[derive(Clone, Copy)]
pub(crate) struct Missing<'a> {
    /// The bytes of the file.
    pub(crate) bytes: &'a [u8],
    /// The top cell.
    pub(crate) top: &'a [u8],
    /// The cell that places it.
    pub(crate) cell: &'a [u8],
    /// Its name.
    pub(crate) name: &'a [u8],
    /// The deck's unit.
    pub(crate) unit: u32,
}

// The cells above the one that places it: that which places this one first in the file, and so on up to the top cell. None
// where this isn't reached.
fn cells_above<'a>(alloc: Global, missing: &Missing<'a>) -> Result<Vec<&'a [u8]>, NoMemory> {
    let mut above = Vec::new(alloc);
    let mut below = missing.cell;
    for _step in 0..MOST {
        if below == missing.top {
            return Ok(above);
        }
        let Some((name, _at)) = placement_of(missing.bytes, None, below) else {
            return Ok(Vec::new(alloc));
        };
        above.push(name)?;
        below = name;
    }
    Ok(Vec::new(alloc))
}

// Tells the cells above, the top cell first. The middle of a long chain is left out.
fn tell_above(note: &mut Note, above: &[&[u8]]) -> Result<(), NoMemory> {
    let count = above.len();
    for (number, name) in above.iter().rev().enumerate() {
        let is_hidden = ENDS <= number && number.saturating_add(ENDS) < count;
        if !is_hidden {
            note.put_bytes(name)?;
            note.put(" > ")?;
        } else if number == ENDS {
            note.put(".. > ")?;
        }
    }
    Ok(())
}

/// Tells where the cell is placed, and the chain of cells from the top cell down to it.
pub(crate) fn tell_missing(
    alloc: Global,
    note: &mut Note,
    missing: &Missing,
) -> Result<(), NoMemory> {
    note.put("    ")?;
    if missing.bytes.first() != Some(&b'%') {
        let above = cells_above(alloc, missing)?;
        tell_above(note, above.as_slice())?;
    }
    note.put_bytes(missing.cell)?;
    note.put(" > ")?;
    note.put_bytes(missing.name)?;
    note.put("\n")?;
    match placement_of(missing.bytes, Some(missing.cell), missing.name) {
        Some((_name, at)) => tell_gds(note, missing.bytes, at, 0, missing.unit),
        None => Ok(()),
    }
}
