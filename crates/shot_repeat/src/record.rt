//! A record of a packed shot file, and its one spelling.
ghost use Rattle.std.specs.Prelude.{◌≡◌, ◌+◌, ◌^◌, ◌<◌, ◌≤◌, ◌++◌, length, unsigned_abs};
ghost use Rattle.oas_lex.specs.Spelling.{unsigned_text};
ghost use Rattle.shot_repeat.specs.Records.{IsNarrowNumber, IsNarrowPlace, IsNarrowRepetition, IsNarrow, bit, info_of, number_text, place_text, step_code, repetition_text, body_text};

use oas_lex::{ROOM, Spell, id_for, put_delta};

/// The kind of the repetition of a packed shot file: shots at one distance in any direction.
pub(crate) const KIND: u8 = 9;

/// The numbers of a repetition as it is written.
#[derive(Clone, Copy)]
pub(crate) struct Repetition {
    /// How many shots the record gives, less 2.
    pub(crate) more: u64,
    /// How far each shot lies to the right of the one before it, in half units.
    pub(crate) x: i64,
    /// How far each shot lies above the one before it, in half units.
    pub(crate) y: i64,
}

/// The fields of a record as they are written: RECTANGLE or TRAPEZOID (SEMI P39), in half units but for the pair. A
/// delta that isn't written is 0, and any other field has its last value.
#[derive(Clone, Copy)]
pub(crate) struct PackRecord {
    pub(crate) layer: Option<u64>,
    pub(crate) datatype: Option<u64>,
    pub(crate) width: Option<u64>,
    pub(crate) height: Option<u64>,
    pub(crate) left_delta: i64,
    pub(crate) right_delta: i64,
    pub(crate) x: Option<i64>,
    pub(crate) y: Option<i64>,
    pub(crate) repetition: Option<Repetition>,
}

// A bit of the info byte.
fn bit(weight: u8, is_there: bool) -> u8
    ensures value { result ≡ bit weight is_there }
    ensures most { result ≤ weight }
{
    if is_there { weight } else { 0 }
}

/// The info byte: which fields are written.
pub(crate) fn info_of(written: &PackRecord) -> u8
    ensures { result ≡ info_of written.now }
{
    let sizes = bit(64, written.width.is_some()) + bit(32, written.height.is_some());
    let places = bit(16, written.x.is_some()) + bit(8, written.y.is_some());
    let pairs = bit(2, written.datatype.is_some()) + bit(1, written.layer.is_some());
    sizes + places + bit(4, written.repetition.is_some()) + pairs
}

// Appends an unsigned number where it is there.
fn put_number(spell: &mut Spell, number: Option<u64>)
    requires narrow { IsNarrowNumber number }
    requires room { length spell.old + 9 ≤ ROOM }
    ensures value { spell.new ≡ spell.old ++ number_text number }
    ensures size { length spell.new ≤ length spell.old + 9 }
{
    if let Some(value) = number {
        spell.put_unsigned(value);
    }
}

// Appends a signed number where it is there.
fn put_place(spell: &mut Spell, place: Option<i64>)
    requires narrow { IsNarrowPlace place }
    requires room { length spell.old + 9 ≤ ROOM }
    ensures value { spell.new ≡ spell.old ++ place_text place }
    ensures size { length spell.new ≤ length spell.old + 9 }
{
    if let Some(value) = place {
        spell.put_signed(value);
    }
}

/// The first number of a step's spelling: bit 0 is set, bit 1 says west, and the magnitude is above.
pub(crate) fn step_code(x: i64) -> u64
    requires { unsigned_abs x < 2 ^ 61 }
    ensures value { result ≡ step_code x }
    ensures narrow { result < 2 ^ 63 }
{
    let west = if x < 0 { 3 } else { 1 };
    4 * x.unsigned_abs() + west
}

// The text of a repetition.
fn spell_repeat(repetition: &Repetition) -> Spell
    requires { IsNarrowRepetition (Some repetition.now) }
    ensures { result ≡ repetition_text (Some repetition.now) }
{
    let mut spell = Spell::new();
    spell.push(KIND);
    spell.put_unsigned(repetition.more);
    spell.put_unsigned(step_code(repetition.x));
    spell.put_signed(repetition.y);
    spell
}

/// What a record has after its other fields: its repetition, where it has one. It takes no memory.
pub(crate) fn spell_repetition(written: &PackRecord) -> Spell
    requires { IsNarrow written.now }
    ensures { result ≡ repetition_text written.now.repetition }
{
    match &written.repetition {
        Some(repetition) => spell_repeat(repetition),
        None => Spell::new(),
    }
}

/// A record up to its repetition: each field that is there, each number in its shortest form. It takes no memory.
pub(crate) fn spell_body(written: &PackRecord) -> Spell
    requires { IsNarrow written.now }
    ensures { result ≡ body_text written.now }
{
    let mut spell = Spell::new();
    spell.push(id_for(written.left_delta, written.right_delta));
    spell.push(info_of(written));
    put_number(&mut spell, written.layer);
    put_number(&mut spell, written.datatype);
    put_number(&mut spell, written.width);
    put_number(&mut spell, written.height);
    put_delta(&mut spell, written.left_delta);
    put_delta(&mut spell, written.right_delta);
    put_place(&mut spell, written.x);
    put_place(&mut spell, written.y);
    spell
}
