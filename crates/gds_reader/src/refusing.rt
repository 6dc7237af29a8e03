//! Why bytes hold no layout.

/// The first fault of bytes that hold no layout. `at` is the offset of the record that has it.
#[derive(Clone, Copy, Debug, PartialEq, Eq)]
pub enum GdsBad {
    /// Fewer bytes are left than a record's head, or than the record's length.
    Short(usize),
    /// A record's length is odd or below four.
    Length(usize),
    /// No kind of record has this record type and data type.
    Kind(usize),
    /// A record's content hasn't the length of its kind.
    Size(usize),
    /// The record isn't allowed after those before it.
    Order(usize),
    /// The record at the first number breaks the value rule of the second, the lowest that it breaks.
    Value(usize, u8),
    /// The first byte after the end of the library that isn't 0.
    Tail(usize),
    /// The database unit, by the bits of the real in metres, isn't the one that was asked for.
    Unit(u64),
    /// The structures' names at these two offsets are the same.
    Twice(usize, usize),
}
