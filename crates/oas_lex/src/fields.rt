//! The fields of a shot's record, and their one spelling.
ghost use Rattle.std.specs.Prelude.{◌≡◌, ◌+◌, ◌^◌, ◌<◌, ◌≤◌, ◌++◌, length, unsigned_abs};
ghost use Rattle.oas_lex.specs.ShotText.{AreNarrow, delta_text, id_for, text_of};

use crate::spell::{ROOM, Spell};

/// The record of a shot with both sides upright.
pub const RECTANGLE: u8 = 20;

/// The record of a shot with neither side upright.
pub const TRAPEZOID: u8 = 23;

/// The record of a shot whose right side alone is upright.
pub const TRAPEZOID_A: u8 = 24;

/// The record of a shot whose left side alone is upright.
pub const TRAPEZOID_B: u8 = 25;

/// The byte after a record's id. Width, height, x, y, datatype and layer are written: no square, no repetition, and a
/// trapezoid is horizontal.
pub const INFO: u8 = 0x7B;

/// The numbers of a shot's record (SEMI P39, RECTANGLE and TRAPEZOID), in half units but for the pair. A delta that isn't
/// written is 0.
#[derive(Clone, Copy, Debug, PartialEq, Eq)]
pub struct ShotFields {
    /// The layer.
    pub layer: u64,
    /// The datatype.
    pub datatype: u64,
    /// The width of the shot's box.
    pub width: u64,
    /// The number of its rows.
    pub height: u64,
    /// How far its left side leads to the right on the way up.
    pub left_delta: i64,
    /// How far its right side does.
    pub right_delta: i64,
    /// Its least X.
    pub x: i64,
    /// Its lowest Y.
    pub y: i64,
}

/// The id of the record of a shot with these deltas.
pub fn id_for(left_delta: i64, right_delta: i64) -> u8
    ensures { result ≡ id_for left_delta right_delta }
{
    if left_delta == 0 {
        if right_delta == 0 {
            RECTANGLE
        } else {
            TRAPEZOID_B
        }
    } else if right_delta == 0 {
        TRAPEZOID_A
    } else {
        TRAPEZOID
    }
}

/// Appends a delta, which isn't written where it is 0.
pub fn put_delta(spell: &mut Spell, delta: i64)
    requires narrow { unsigned_abs delta < 2 ^ 62 }
    requires room { length spell.old + 9 ≤ ROOM }
    ensures value { spell.new ≡ spell.old ++ delta_text delta }
    ensures size { length spell.new ≤ length spell.old + 9 }
{
    if delta != 0 {
        spell.put_signed(delta);
    }
}

/// The one spelling of a record's fields: each is written, but for a delta of 0, and each number has its shortest form. It
/// takes no memory.
pub fn spell_fields(fields: &ShotFields) -> Spell
    requires { AreNarrow fields.now }
    ensures { result ≡ text_of fields.now }
{
    let mut spell = Spell::new();
    spell.push(id_for(fields.left_delta, fields.right_delta));
    spell.push(INFO);
    spell.put_unsigned(fields.layer);
    spell.put_unsigned(fields.datatype);
    spell.put_unsigned(fields.width);
    spell.put_unsigned(fields.height);
    put_delta(&mut spell, fields.left_delta);
    put_delta(&mut spell, fields.right_delta);
    spell.put_signed(fields.x);
    spell.put_signed(fields.y);
    spell
}
