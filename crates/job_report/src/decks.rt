//! The line of a refused deck.
ghost use Rattle.std.specs.Prelude.{◌≡◌, ◌++◌, codes, decimal};
ghost use Rattle.job_report.specs.Pieces.{spelled};
ghost use Rattle.job_report.specs.Lines.{deck_line};

use crate::pieces::{Line, Piece};
use deck_text::DeckBad;

// The line of two numbers, with this text between them.
fn two<'a>(line: usize, between: &'a [u8], number: usize) -> Line<'a>
    ensures { spelled result
        ≡ codes "deck refused: line " ++ decimal line ++ between.now ++ decimal number ++ codes "\n" }
{
    [
        Piece::Text(b"deck refused: line "),
        Piece::Count(line as u128),
        Piece::Text(between),
        Piece::Count(number as u128),
        Piece::Text(b"\n"),
    ]
}

// The line of one number, with this text after it.
fn one<'a>(line: usize, after: &'a [u8]) -> Line<'a>
    ensures { spelled result ≡ codes "deck refused: line " ++ decimal line ++ after.now }
{
    [
        Piece::Text(b"deck refused: line "),
        Piece::Count(line as u128),
        Piece::Text(after),
        Piece::Text(b""),
        Piece::Text(b""),
    ]
}

/// The line of a deck's first fault.
#[tactic(auto, unfolding(crate::specs::Lines::deck_line))]
pub fn deck_line(bad: &DeckBad) -> Line<'_>
    ensures { spelled result ≡ deck_line bad.now }
{
    match bad {
        DeckBad::Line(line, column) => two(*line, b" column ", *column),
        DeckBad::Order(line) => one(*line, b" out of order\n"),
        DeckBad::Twice(line, earlier) => two(*line, b" repeats line ", *earlier),
        DeckBad::Unknown(line, name) => [
            Piece::Text(b"deck refused: line "),
            Piece::Count(*line as u128),
            Piece::Text(b" unknown "),
            Piece::Text(name.as_str().as_bytes()),
            Piece::Text(b"\n"),
        ],
        DeckBad::NoFrame(line) => one(*line, b" has no frame\n"),
        DeckBad::Range(line, value) => [
            Piece::Text(b"deck refused: line "),
            Piece::Count(*line as u128),
            Piece::Text(b" out of range "),
            Piece::Number(*value),
            Piece::Text(b"\n"),
        ],
        DeckBad::Odd(line) => one(*line, b" odd sum\n"),
        DeckBad::Names(line) => one(*line, b" file name in use\n"),
        DeckBad::Many(line) => one(*line, b" over the limit\n"),
    }
}
