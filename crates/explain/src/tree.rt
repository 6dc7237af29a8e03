//! Cells that place each other, as a layout is refused for them.
use crate::note::Note;
use cell_tree::TreeBad;
use geo_stream::NoMemory;
use layout_model::Name;

/// How many names of a long chain are told at its beginning, and at its end.
const ENDS: usize = 4;

// Tells names, each after `before` but the first.
fn tell_names(note: &mut Note, names: &[Name]) -> Result<(), NoMemory> {
    let mut before = "";
    for name in names {
        note.put(before)?;
        note.put_bytes(name.bytes())?;
        before = " > ";
    }
    Ok(())
}

// Tells a chain of cells each of which places the next. The middle of a long one is left out.
fn tell_chain(note: &mut Note, names: &[Name]) -> Result<(), NoMemory> {
    let hidden = names.len().saturating_sub(2 * ENDS);
    if hidden < 2 {
        return tell_names(note, names);
    }
    tell_names(note, names.get(..ENDS).unwrap_or(&[]))?;
    note.put(" > .. ")?;
    note.put_number(hidden as u128)?;
    note.put(" more .. > ")?;
    tell_names(
        note,
        names.get(names.len().saturating_sub(ENDS)..).unwrap_or(&[]),
    )
}

// Tells a chain of cells the last of which places the first.
fn tell_circle(note: &mut Note, names: &[Name]) -> Result<(), NoMemory> {
    tell_chain(note, names)?;
    match names.first() {
        Some(first) => {
            note.put(" > ")?;
            note.put_bytes(first.bytes())
        }
        None => Ok(()),
    }
}

// Tells how far a shape reaches, in half units, of which a micrometre has so many.
fn tell_extent(note: &mut Note, value: i64, steps: u32) -> Result<(), NoMemory> {
    note.put_signed(value)?;
    note.put(" half units")?;
    if steps == 0 {
        return Ok(());
    }
    note.put(", that is ")?;
    note.put_length(value, steps)?;
    note.put(" um")
}

/// Tells the cells that a layout below this top cell is refused for. A micrometre has so many half units.
pub(crate) fn tell_tree(
    note: &mut Note,
    bad: &TreeBad,
    top: &[u8],
    steps: u32,
) -> Result<(), NoMemory> {
    note.put("    ")?;
    match bad {
        TreeBad::NoTop => {
            note.put("`top` gives ")?;
            note.put_bytes(top)?;
        }
        TreeBad::Unknown(cell, name) => {
            note.put_bytes(cell.bytes())?;
            note.put(" > ")?;
            note.put_bytes(name.bytes())?;
        }
        TreeBad::Cycle(names) => tell_circle(note, names.as_slice())?,
        TreeBad::Deep(names) => tell_chain(note, names.as_slice())?,
        TreeBad::Scale(value, names) => {
            note.put("times ")?;
            note.put_signed(*value)?;
            note.put(" by ")?;
            tell_chain(note, names.as_slice())?;
        }
        TreeBad::Fixed(value, cell) => {
            note.put("cell ")?;
            note.put_bytes(cell.bytes())?;
            note.put(", times ")?;
            note.put_signed(*value)?;
        }
        TreeBad::Extent(value) => tell_extent(note, *value, steps)?,
        TreeBad::Count(cell, value) => {
            note.put("cell ")?;
            note.put_bytes(cell.bytes())?;
            note.put(": ")?;
            note.put_number(*value)?;
            note.put(" shapes")?;
        }
    }
    note.put("\n")
}
