//! The words of OASIS (SEMI P39, version 1.0): integers both ways, reals, deltas and strings, and the one text of a shot
//! file.
//!
//! Nothing here takes memory.
#![tactic(auto)]

mod deltas;
mod fields;
mod laws;
mod numbers;
mod real_readers;
mod reals;
mod shots;
mod spell;
mod strings;

pub use deltas::{delta_g, delta2, delta3};
pub use fields::{
    INFO, RECTANGLE, ShotFields, TRAPEZOID, TRAPEZOID_A, TRAPEZOID_B, id_for, put_delta,
    spell_fields,
};
pub use laws::{shot_laws, spelling_laws};
pub use numbers::{signed, unsigned};
pub use real_readers::real;
pub use reals::{Real, real_whole};
pub use shots::{end_text, fields_of, head_text, spell_shot};
pub use spell::{ROOM, Spell, put_signed, put_unsigned};
pub use strings::{end_of_bytes, text};

/// A number, a string, a real or a delta wasn't read.
#[derive(Clone, Copy, Debug, PartialEq, Eq)]
pub enum LexBad {
    /// The bytes end first.
    Short,
    /// The number's value has more than 63 bits.
    Wide,
    /// A real's kind is above 7.
    RealKind,
}

#[cfg(test)]
mod tests;
