//! The line of a layout that is no tree.
ghost use Rattle.std.specs.Prelude.{◌≡◌, ◌++◌, codes};
ghost use Rattle.job_report.specs.Pieces.{spelled, text_of};
ghost use Rattle.job_report.specs.Lines.{tree_line};

use crate::pieces::{Line, Piece};
use cell_tree::TreeBad;

// The line of one piece after a text.
fn one<'a>(before: &'a [u8], piece: Piece<'a>) -> Line<'a>
    ensures { spelled result ≡ before.now ++ text_of piece.entry ++ codes "\n" }
{
    [
        Piece::Text(before),
        piece,
        Piece::Text(b"\n"),
        Piece::Text(b""),
        Piece::Text(b""),
    ]
}

// The line of two pieces, each after a text.
fn two<'a>(before: &'a [u8], first: Piece<'a>, between: &'a [u8], second: Piece<'a>) -> Line<'a>
    ensures { spelled result ≡ before.now ++ text_of first.entry ++ between.now ++ text_of second.entry ++ codes "\n" }
{
    [
        Piece::Text(before),
        first,
        Piece::Text(between),
        second,
        Piece::Text(b"\n"),
    ]
}

/// The line of a layout that is refused below this top cell.
#[tactic(auto, unfolding(crate::specs::Lines::tree_line))]
pub fn tree_line<'a>(top: &'a [u8], bad: &'a TreeBad) -> Line<'a>
    ensures { spelled result ≡ tree_line top.now bad.now }
{
    match bad {
        TreeBad::NoTop => one(b"layout refused: no cell ", Piece::Text(top)),
        TreeBad::Unknown(cell, name) => two(
            b"layout refused: cell ",
            Piece::Text(cell.bytes()),
            b" places unknown ",
            Piece::Text(name.bytes()),
        ),
        TreeBad::Cycle(names) => one(b"layout refused: cycle", Piece::Names(names.as_slice())),
        TreeBad::Deep(names) => one(b"layout refused: deep", Piece::Names(names.as_slice())),
        TreeBad::Scale(value, names) => two(
            b"layout refused: scale ",
            Piece::Number(*value),
            b"",
            Piece::Names(names.as_slice()),
        ),
        TreeBad::Fixed(value, cell) => two(
            b"layout refused: fixed width ",
            Piece::Text(cell.bytes()),
            b" scale ",
            Piece::Number(*value),
        ),
        TreeBad::Extent(value) => one(b"layout refused: extent ", Piece::Number(*value)),
        TreeBad::Count(cell, value) => two(
            b"layout refused: count ",
            Piece::Text(cell.bytes()),
            b" ",
            Piece::Count(*value),
        ),
    }
}
