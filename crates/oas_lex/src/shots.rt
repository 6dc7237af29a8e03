//! The text of a shot file: its head, its records and its end.
ghost use Rattle.std.specs.Prelude.{◌≡◌, ◌-ℤ◌, ◌^◌, ◌<◌, unsigned_abs};
ghost use Rattle.half_grid.specs.Trapezoids.{box_width};
ghost use Rattle.oas_lex.specs.ShotText.{AreNarrow, head, end, fields_of, spelling_of, left_delta, right_delta};

use crate::fields::{ShotFields, spell_fields};
use crate::spell::Spell;
use half_grid::Trap;

/// `%SEMI-OASIS`, CR, LF.
const MAGIC: &[u8] = b"%SEMI-OASIS\r\n";
/// START up to its unit: version 1.0, and a real of kind 0.
const START: &[u8] = b"\x01\x031.0\x00";
/// The offset flag 0 and twelve table offsets 0.
const TABLES: &[u8] = &[0; 13];
/// CELL named SHOTS.
const CELL: &[u8] = b"\x0E\x05SHOTS";

// How far the left side leads to the right on the way up.
fn left_delta(trap: &Trap) -> i64
    ensures { result ≡ left_delta trap.now }
{
    trap.top_left() - trap.bottom_left()
}

// How far the right side leads to the right on the way up.
fn right_delta(trap: &Trap) -> i64
    ensures { result ≡ right_delta trap.now }
{
    trap.top_right() - trap.bottom_right()
}

// The width of the box.
fn width(trap: &Trap) -> u64
    ensures { result ≡ unsigned_abs (box_width trap.now) }
{
    trap.box_width().unsigned_abs()
}

// How many rows it has.
fn height(trap: &Trap) -> u64
    ensures { result ≡ unsigned_abs (trap.now.y1 -ℤ trap.now.y0) }
{
    trap.height().unsigned_abs()
}

/// The numbers of a shot's record, for a layer and a datatype.
pub fn fields_of(trap: &Trap, layer: u64, datatype: u64) -> ShotFields
    requires layer { layer < 2 ^ 63 }
    requires datatype { datatype < 2 ^ 63 }
    ensures value { result ≡ fields_of layer datatype trap.now }
    ensures narrow { AreNarrow result }
{
    ShotFields {
        layer,
        datatype,
        width: width(trap),
        height: height(trap),
        left_delta: left_delta(trap),
        right_delta: right_delta(trap),
        x: trap.least_x(),
        y: trap.y0(),
    }
}

/// The record of one shot, for a layer and a datatype: RECTANGLE or TRAPEZOID, each field written, each number in its
/// shortest spelling. It takes no memory.
pub fn spell_shot(trap: &Trap, layer: u64, datatype: u64) -> Spell
    requires layer { layer < 2 ^ 63 }
    requires datatype { datatype < 2 ^ 63 }
    ensures { result ≡ spelling_of layer datatype trap.now }
{
    spell_fields(&fields_of(trap, layer, datatype))
}

/// The head of a shot file up to its first record, for its unit: the magic bytes, START and CELL.
pub fn head_text(unit: u64) -> Spell
    requires { unit < 2 ^ 63 }
    ensures { result ≡ head unit }
{
    let mut spell = Spell::new();
    spell.put_bytes(MAGIC);
    spell.put_bytes(START);
    spell.put_unsigned(unit);
    spell.put_bytes(TABLES);
    spell.put_bytes(CELL);
    spell
}

/// The end of a shot file, which is its END record of 256 bytes.
pub fn end_text() -> [u8; 256]
    ensures { result ≡ end }
{
    let mut bytes = [0; 256];
    bytes[0] = 2;
    bytes[1] = 252;
    bytes[2] = 1;
    bytes
}
