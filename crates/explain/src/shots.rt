//! Where a shot file is refused: the shot and its place.
use crate::deck_lines::{line_with, text_of};
use crate::note::Note;
use geo_stream::NoMemory;
use half_grid::{Tile, Trap, covers};
use job_report::CheckFault;
use shot_reader::{ShotBad, ShotFile, read_shots};
use shot_repeat::PackBad;
use std::alloc::Global;

/// The line of a deck's output of this number, counted from 0.
pub(crate) fn output_line(deck: &[u8], number: usize) -> &[u8] {
    line_with(deck, b"write", number)
}

// Tells an output of the deck.
fn tell_output(note: &mut Note, deck: &[u8], number: usize) -> Result<(), NoMemory> {
    let line = output_line(deck, number);
    note.put("    output ")?;
    note.put_number((number as u128).saturating_add(1))?;
    note.put(" of the deck: area ")?;
    note.put_bytes(text_of(line, 1))?;
    note.put(", layer ")?;
    note.put_bytes(text_of(line, 3))?;
    note.put("/")?;
    note.put_bytes(text_of(line, 4))?;
    note.put("\n")
}

// Tells a shot of a file in which a micrometre has so many half units.
fn tell_shot(note: &mut Note, number: usize, shot: &Trap, steps: u32) -> Result<(), NoMemory> {
    note.put("shot ")?;
    note.put_number(number as u128)?;
    note.put(", counted from 0, from ")?;
    note.put_point(shot.least_x(), shot.y0(), steps)?;
    note.put(" to ")?;
    note.put_point(shot.greatest_x(), shot.y1(), steps)?;
    note.put(" um")
}

// The first shot that has the tile, with its number.
fn first_with(shots: &[Trap], tile: Tile) -> Option<(usize, &Trap)> {
    for (number, shot) in shots.iter().enumerate() {
        if covers(shot, tile) {
            return Some((number, shot));
        }
    }
    None
}

// Tells which shot of a file has a tile first.
fn tell_holder(note: &mut Note, file: &ShotFile, tile: Tile) -> Result<(), NoMemory> {
    note.put("    ")?;
    match first_with(file.shots.as_slice(), tile) {
        Some((number, shot)) => {
            note.put("the first there is ")?;
            tell_shot(note, number, shot, file.unit)?;
        }
        None => note.put("no shot is there")?,
    }
    note.put("\n")
}

// Tells a tile that is in another number of shots than it should be.
fn tell_tile(
    note: &mut Note,
    file: &ShotFile,
    tile: Tile,
    count: u64,
    wanted: u64,
) -> Result<(), NoMemory> {
    note.put("    at ")?;
    note.put_point(tile.i, tile.j, file.unit)?;
    note.put(" um: in ")?;
    note.put_number(u128::from(count))?;
    note.put(" shots, and should be in ")?;
    note.put_number(u128::from(wanted))?;
    note.put("\n")?;
    tell_holder(note, file, tile)
}

// Tells the shot of a number.
fn tell_numbered(note: &mut Note, file: &ShotFile, number: usize) -> Result<(), NoMemory> {
    match file.shots.as_slice().get(number) {
        Some(shot) => {
            note.put("    ")?;
            tell_shot(note, number, shot, file.unit)?;
            note.put("\n")
        }
        None => Ok(()),
    }
}

// The offset of a fault of a shot file.
fn shot_offset(bad: &ShotBad) -> usize {
    match bad {
        ShotBad::Head(at)
        | ShotBad::Record(at)
        | ShotBad::Spelling(at)
        | ShotBad::Illegal(at)
        | ShotBad::End(at) => *at,
    }
}

// The offset of a fault of a packed shot file.
fn pack_offset(bad: &PackBad) -> usize {
    match bad {
        PackBad::Head(at)
        | PackBad::Record(at)
        | PackBad::Spelling(at)
        | PackBad::Undefined(at)
        | PackBad::Pair(at)
        | PackBad::Many(at)
        | PackBad::Illegal(at)
        | PackBad::End(at) => *at,
    }
}

// Tells an offset in a line of its own.
fn tell_offset(note: &mut Note, at: usize) -> Result<(), NoMemory> {
    note.put("    ")?;
    note.put_byte(at)?;
    note.put("\n")
}

// Tells the unit and the layer of a file, and those of an output.
fn tell_head(note: &mut Note, file: &ShotFile, unit: u32, line: &[u8]) -> Result<(), NoMemory> {
    note.put("    the file has ")?;
    note.put_number(u128::from(file.unit))?;
    note.put(" half units in a micrometre")?;
    if let Some(pair) = file.pair {
        note.put(" and layer ")?;
        note.put_pair(pair.layer, pair.datatype)?;
    }
    note.put("; the output has ")?;
    note.put_number(u128::from(unit).saturating_mul(2))?;
    note.put(" and layer ")?;
    note.put_bytes(text_of(line, 3))?;
    note.put("/")?;
    note.put_bytes(text_of(line, 4))?;
    note.put("\n")
}

/// The bytes of a refused shot file and of the deck, none where they aren't known, and the number of its output.
#[derive(Clone, Copy)]
pub(crate) struct Judged<'a> {
    /// The bytes of the file.
    pub(crate) bytes: &'a [u8],
    /// The bytes of the deck.
    pub(crate) deck: &'a [u8],
    /// The deck's unit.
    pub(crate) unit: u32,
    /// The number of the output, counted from 0.
    pub(crate) output: usize,
}

// Tells the place of a fault in a file that is the text of shots.
fn tell_read(
    note: &mut Note,
    judged: &Judged,
    file: &ShotFile,
    fault: &CheckFault,
) -> Result<(), NoMemory> {
    match fault {
        CheckFault::Head => tell_head(
            note,
            file,
            judged.unit,
            output_line(judged.deck, judged.output),
        ),
        CheckFault::Miscovered(tile, count, wanted) => tell_tile(
            note, file, *tile, *count, *wanted,
        ),
        CheckFault::TooLarge(number) | CheckFault::Wide(number) => tell_numbered(
            note, file, *number,
        ),
        _ => Ok(()),
    }
}

/// Tells where a shot file is refused.
pub(crate) fn tell_file(
    alloc: Global,
    note: &mut Note,
    judged: &Judged,
    fault: &CheckFault,
) -> Result<(), NoMemory> {
    match fault {
        CheckFault::Long => {}
        CheckFault::Bad(bad) => tell_offset(note, shot_offset(bad))?,
        CheckFault::Pack(bad) => tell_offset(note, pack_offset(bad))?,
        CheckFault::Stripes(stripes) => {
            note.put("    they reach over ")?;
            note.put_number(*stripes)?;
            note.put(" stripes\n")?;
        }
        _ => {
            if let Ok(file) = read_shots(alloc, judged.bytes) {
                tell_read(note, judged, &file, fault)?;
            }
        }
    }
    if judged.deck.is_empty() {
        return Ok(());
    }
    tell_output(note, judged.deck, judged.output)
}
