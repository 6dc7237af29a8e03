//! The pieces of a line.
ghost use Rattle.std.specs.Prelude.{◌≡◌};
ghost use Rattle.job_report.specs.Pieces.{spelled};

use layout_model::Name;

/// A piece of a line.
#[derive(Clone, Copy)]
pub enum Piece<'a> {
    /// These bytes.
    Text(&'a [u8]),
    /// A decimal number that isn't negative.
    Count(u128),
    /// A decimal number.
    Number(i64),
    /// These bits as 16 lower case hexadecimal digits.
    Bits(u64),
    /// Each of these names after a space.
    Names(&'a [Name]),
}

/// A line: its pieces, the last of which may be empty.
pub type Line<'a> = [Piece<'a>; 5];

/// A line of up to eleven pieces.
pub(crate) type LongLine<'a> = [Piece<'a>; 11];

/// A line with empty pieces at its end.
pub(crate) fn long(line: Line<'_>) -> LongLine<'_>
    ensures { spelled result ≡ spelled line.entry }
{
    let [a, b, c, d, e] = line;
    let none = Piece::Text(b"");
    [a, b, c, d, e, none, none, none, none, none, none]
}

/// A line of one piece.
pub(crate) fn whole(text: &[u8]) -> Line<'_>
    ensures { spelled result ≡ text.now }
{
    [
        Piece::Text(text),
        Piece::Text(b""),
        Piece::Text(b""),
        Piece::Text(b""),
        Piece::Text(b""),
    ]
}
