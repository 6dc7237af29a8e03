//! The line of a refused GDSII file.
ghost use Rattle.std.specs.Prelude.{◌≡◌, ◌++◌, codes, decimal};
ghost use Rattle.job_report.specs.Pieces.{spelled};
ghost use Rattle.job_report.specs.Lines.{gds_line, gds_fault};

use crate::pieces::{Line, Piece};
use gds_reader::GdsBad;

// The line of a fault of this name at an offset.
fn fault_at(what: &[u8], at: usize) -> Line<'_>
    ensures { spelled result ≡ gds_fault what.now at }
{
    [
        Piece::Text(b"layout refused: gdsii "),
        Piece::Text(what),
        Piece::Text(b" at "),
        Piece::Count(at as u128),
        Piece::Text(b"\n"),
    ]
}

/// The line of a GDSII file's first fault.
#[tactic(auto, unfolding(crate::specs::Lines::gds_line))]
pub fn gds_line(bad: &GdsBad) -> Line<'_>
    ensures { spelled result ≡ gds_line bad.now }
{
    match bad {
        GdsBad::Short(at) => fault_at(b"short", *at),
        GdsBad::Length(at) => fault_at(b"length", *at),
        GdsBad::Kind(at) => fault_at(b"kind", *at),
        GdsBad::Size(at) => fault_at(b"size", *at),
        GdsBad::Order(at) => fault_at(b"order", *at),
        GdsBad::Value(at, rule) => [
            Piece::Text(b"layout refused: gdsii value at "),
            Piece::Count(*at as u128),
            Piece::Text(b" rule "),
            Piece::Count(u128::from(*rule)),
            Piece::Text(b"\n"),
        ],
        GdsBad::Tail(at) => fault_at(b"tail", *at),
        GdsBad::Unit(bits) => [
            Piece::Text(b"layout refused: gdsii unit "),
            Piece::Bits(*bits),
            Piece::Text(b"\n"),
            Piece::Text(b""),
            Piece::Text(b""),
        ],
        GdsBad::Twice(first, second) => [
            Piece::Text(b"layout refused: gdsii name at "),
            Piece::Count(*second as u128),
            Piece::Text(b" repeats "),
            Piece::Count(*first as u128),
            Piece::Text(b"\n"),
        ],
    }
}
