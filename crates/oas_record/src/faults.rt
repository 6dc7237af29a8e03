//! Why no record is at an offset.
ghost use Rattle.std.specs.Prelude.{◌≡◌};
ghost use Rattle.oas_record.specs.Faults.{bad_of};

use oas_lex::LexBad;

/// Why no record is at an offset: what the first byte that breaks shows.
#[derive(Clone, Copy, Debug, PartialEq, Eq)]
pub enum RecordBad {
    /// The bytes end inside the record.
    Short,
    /// A number has more than 63 bits as it is spelled.
    Wide,
    /// An id above 34, a real's kind above 7 or a property value's kind above 15.
    Kind,
    /// The record is a compressed block, which isn't read.
    Packed,
    /// A field, an info byte, a point list or a repetition that no record has.
    Shape,
}

impl From<LexBad> for RecordBad {
    ghost from_gives = { λ lex bad. bad ≡ bad_of lex };

    fn from(bad: LexBad) -> RecordBad {
        match bad {
            LexBad::Short => RecordBad::Short,
            LexBad::Wide => RecordBad::Wide,
            LexBad::RealKind => RecordBad::Kind,
        }
    }
}
