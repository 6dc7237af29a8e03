//! The line of a refused OASIS file.
ghost use Rattle.std.specs.Prelude.{◌≡◌, ◌++◌, codes, decimal};
ghost use Rattle.job_report.specs.Pieces.{spelled};
ghost use Rattle.job_report.specs.Lines.{variable_name, cause_name, oas_line, oas_fault, oas_word, oas_number};

use crate::pieces::{Line, Piece, whole};
use oas_fields::Variable;
use oas_reader::OasBad;
use oas_record::RecordBad;

// The name of a modal variable.
fn variable_name(variable: &Variable) -> &[u8]
    ensures { result.now ≡ variable_name variable.now }
{
    match variable {
        Variable::Layer => b"layer",
        Variable::Datatype => b"datatype",
        Variable::GeometryW => b"geometry-w",
        Variable::GeometryH => b"geometry-h",
        Variable::PolygonPoints => b"polygon-points",
        Variable::PathHalfWidth => b"path-half-width",
        Variable::PathStart => b"path-start",
        Variable::PathEnd => b"path-end",
        Variable::PathPoints => b"path-points",
        Variable::CtrapezoidType => b"ctrapezoid-type",
        Variable::PlacementCell => b"placement-cell",
        Variable::Repetition => b"repetition",
    }
}

// Why no record stands at an offset, in a word.
fn cause_name(cause: &RecordBad) -> &[u8]
    ensures { result.now ≡ cause_name cause.now }
{
    match cause {
        RecordBad::Short => b"short",
        RecordBad::Wide => b"wide",
        RecordBad::Kind => b"kind",
        RecordBad::Packed => b"packed",
        RecordBad::Shape => b"shape",
    }
}

// The line of a fault of this name at an offset.
fn fault_at(what: &[u8], at: usize) -> Line<'_>
    ensures { spelled result ≡ oas_fault what.now at }
{
    [
        Piece::Text(b"layout refused: oasis "),
        Piece::Text(what),
        Piece::Text(b" at "),
        Piece::Count(at as u128),
        Piece::Text(b"\n"),
    ]
}

// The line of a fault of this name at an offset, with a word.
fn word_at<'a>(what: &'a [u8], at: usize, word: &'a [u8]) -> Line<'a>
    ensures { spelled result ≡ oas_word what.now at word.now }
{
    [
        Piece::Text(what),
        Piece::Count(at as u128),
        Piece::Text(b" "),
        Piece::Text(word),
        Piece::Text(b"\n"),
    ]
}

// The line of a fault of this name at an offset, with a second number after a text.
fn number_at<'a>(what: &'a [u8], at: usize, between: &'a [u8], number: usize) -> Line<'a>
    ensures { spelled result ≡ oas_number what.now at between.now number }
{
    [
        Piece::Text(what),
        Piece::Count(at as u128),
        Piece::Text(between),
        Piece::Count(number as u128),
        Piece::Text(b"\n"),
    ]
}

/// The line of an OASIS file's first fault.
#[tactic(auto, unfolding(crate::specs::Lines::oas_line))]
pub fn oas_line(bad: &OasBad) -> Line<'_>
    ensures { spelled result ≡ oas_line bad.now }
{
    match bad {
        OasBad::Magic => whole(b"layout refused: oasis magic\n"),
        OasBad::Lexical(at, cause) => word_at(
            b"layout refused: oasis record at ",
            *at,
            cause_name(cause),
        ),
        OasBad::Order(at) => fault_at(b"order", *at),
        OasBad::Undefined(at, variable) => word_at(
            b"layout refused: oasis undefined at ",
            *at,
            variable_name(variable),
        ),
        OasBad::Value(at, rule) => number_at(
            b"layout refused: oasis value at ",
            *at,
            b" rule ",
            usize::from(*rule),
        ),
        OasBad::Names(first, second) => number_at(
            b"layout refused: oasis names at ",
            *first,
            b" and ",
            *second,
        ),
        OasBad::Tail(at) => fault_at(b"tail", *at),
        OasBad::Unit(at) => fault_at(b"unit", *at),
    }
}
