//! Refusals.

use oas_fields::Variable;
use oas_record::RecordBad;

/// Why bytes hold no layout. Offsets are those of the refused record's first byte.
#[derive(Clone, Copy, Debug, PartialEq, Eq)]
pub enum OasBad {
    /// The file doesn't begin with the 13 bytes of its kind.
    Magic,
    /// No record is at the offset.
    Lexical(usize, RecordBad),
    /// The record may not come there.
    Order(usize),
    /// A field is absent, and this variable has no value.
    Undefined(usize, Variable),
    /// The record breaks the value rule of this number, and none of a lower number.
    Value(usize, u8),
    /// The numbers, the kinds of numbering or the names of two records conflict: the offset of the first one, then that
    /// of the second.
    Names(usize, usize),
    /// END hasn't 256 bytes or isn't the end of the file.
    Tail(usize),
    /// The unit of START is another.
    Unit(usize),
}
