//! Why bytes are no deck.
use crate::text::Text;

/// The first fault of bytes that are no deck: the first line that is refused, counted from 1, and the first rule that
/// it breaks, in this order.
#[derive(Debug, Drop)]
pub enum DeckBad {
    /// The line has no form of the table. The column, from 1, is that of the first token or other byte that doesn't
    /// fit, or one past the line's last byte where a token is missing.
    Line(usize, usize),
    /// A setting comes after a definition or an output, or one of these comes before both `unit` and `top`. The line
    /// after the last is meant where a deck has no output.
    Order(usize),
    /// The first line repeats the setting of the second, or defines the name that the second defined.
    Twice(usize, usize),
    /// The first operand that isn't defined on an earlier line.
    Unknown(usize, Text),
    /// `invert` without a frame.
    NoFrame(usize),
    /// The first number that is out of its range.
    Range(usize, i64),
    /// The sum of the two half sides is odd.
    Odd(usize),
    /// The output's file is that of an earlier output, or the layout or the deck.
    Names(usize),
    /// The 257th definition or the 65th output.
    Many(usize),
}
