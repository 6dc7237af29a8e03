//! The line of a refused shot file.
ghost use Rattle.std.specs.Prelude.{◌≡◌, decimal};
ghost use Rattle.std.specs.Fmt.{signed_decimal};
ghost use Rattle.job_report.specs.Pieces.{spelled, text_of};
ghost use Rattle.job_report.specs.ShotLines.{fault_line, shot_line_of, pack_line_of, side_text, tile_line};
ghost use Rattle.job_report.specs.ShotLines.{too_large_line, wide_line, stripes_line, text_line, check_line};

use crate::faults::CheckFault;
use crate::pieces::{Line, LongLine, Piece, long};
use half_grid::{Side, Tile};
use shot_reader::ShotBad;
use shot_repeat::PackBad;

// The line of a shot file with a fault of this name at an offset.
fn fault_line<'a>(file: &'a str, fault: &'a str, at: usize) -> Line<'a>
    ensures { spelled result ≡ fault_line file.now fault.now at }
{
    [
        Piece::Text(b"check refused: "),
        Piece::Text(file.as_bytes()),
        Piece::Text(fault.as_bytes()),
        Piece::Count(at as u128),
        Piece::Text(b"\n"),
    ]
}

// The line of a shot file that is no text of shots.
fn shot_line<'a>(file: &'a str, bad: &ShotBad) -> Line<'a>
    ensures { spelled result ≡ shot_line_of file.now bad.now }
{
    match bad {
        ShotBad::Head(at) => fault_line(file, ": head at ", *at),
        ShotBad::Record(at) => fault_line(file, ": record at ", *at),
        ShotBad::Spelling(at) => fault_line(file, ": spelling at ", *at),
        ShotBad::Illegal(at) => fault_line(file, ": illegal at ", *at),
        ShotBad::End(at) => fault_line(file, ": end at ", *at),
    }
}

// The line of a packed shot file that stands for no shots.
fn pack_line<'a>(file: &'a str, bad: &PackBad) -> Line<'a>
    ensures { spelled result ≡ pack_line_of file.now bad.now }
{
    match bad {
        PackBad::Head(at) => fault_line(file, ": packed head at ", *at),
        PackBad::Record(at) => fault_line(file, ": packed record at ", *at),
        PackBad::Spelling(at) => fault_line(file, ": packed spelling at ", *at),
        PackBad::Undefined(at) => fault_line(file, ": packed undefined at ", *at),
        PackBad::Pair(at) => fault_line(file, ": packed pair at ", *at),
        PackBad::Many(at) => fault_line(file, ": packed many at ", *at),
        PackBad::Illegal(at) => fault_line(file, ": packed illegal at ", *at),
        PackBad::End(at) => fault_line(file, ": packed end at ", *at),
    }
}

// A tile's side, on its way to the number of shots.
fn side_text(side: Side) -> &'static [u8]
    ensures { result.now ≡ side_text side }
{
    match side {
        Side::Left => b" left count ",
        Side::Right => b" right count ",
    }
}

fn column_piece(tile: &Tile) -> Piece<'static>
    ensures { text_of result ≡ signed_decimal tile.now.i }
{
    Piece::Number(tile.i)
}

fn row_piece(tile: &Tile) -> Piece<'static>
    ensures { text_of result ≡ signed_decimal tile.now.j }
{
    Piece::Number(tile.j)
}

fn side_piece(tile: &Tile) -> Piece<'static>
    ensures { text_of result ≡ side_text tile.now.side }
{
    Piece::Text(side_text(tile.side))
}

fn count_piece(number: u64) -> Piece<'static>
    ensures { text_of result ≡ decimal number }
{
    Piece::Count(u128::from(number))
}

// The line of a shot file with a tile that is in another number of shots than it should be.
fn tile_line<'a>(file: &'a str, tile: &Tile, count: u64, wanted: u64) -> LongLine<'a>
    ensures { spelled result ≡ tile_line file.now tile.now count wanted }
{
    let column = column_piece(tile);
    let row = row_piece(tile);
    let side = side_piece(tile);
    let is = count_piece(count);
    let should_be = count_piece(wanted);
    [
        Piece::Text(b"check refused: "),
        Piece::Text(file.as_bytes()),
        Piece::Text(b": tile "),
        column,
        Piece::Text(b" "),
        row,
        side,
        is,
        Piece::Text(b" wanted "),
        should_be,
        Piece::Text(b"\n"),
    ]
}

// The line of a shot file with a shot that is beyond the limits.
fn too_large_line(file: &str, shot: usize) -> Line<'_>
    ensures { spelled result ≡ too_large_line file.now shot }
{
    [
        Piece::Text(b"check refused: "),
        Piece::Text(file.as_bytes()),
        Piece::Text(b": shot "),
        Piece::Count(shot as u128),
        Piece::Text(b" too large\n"),
    ]
}

// The line of a shot file with a shot that is past a field's reach.
fn wide_line(file: &str, shot: usize) -> Line<'_>
    ensures { spelled result ≡ wide_line file.now shot }
{
    [
        Piece::Text(b"check refused: "),
        Piece::Text(file.as_bytes()),
        Piece::Text(b": shot "),
        Piece::Count(shot as u128),
        Piece::Text(b" past field reach\n"),
    ]
}

// The line of a shot file whose shots meet too many stripes.
fn stripes_line(file: &str, stripes: u128) -> Line<'_>
    ensures { spelled result ≡ stripes_line file.now stripes }
{
    [
        Piece::Text(b"check refused: "),
        Piece::Text(file.as_bytes()),
        Piece::Text(b": "),
        Piece::Count(stripes),
        Piece::Text(b" stripes\n"),
    ]
}

// A line of a refused shot file that ends with this text.
fn text_line<'a>(file: &'a str, text: &'a [u8]) -> LongLine<'a>
    ensures { spelled result ≡ text_line file.now text.now }
{
    long([
        Piece::Text(b"check refused: "),
        Piece::Text(file.as_bytes()),
        Piece::Text(text),
        Piece::Text(b""),
        Piece::Text(b""),
    ])
}

/// The line of a refused shot file.
pub(crate) fn check_line<'a>(file: &'a str, fault: &CheckFault) -> LongLine<'a>
    ensures { spelled result ≡ check_line file.now fault.now }
{
    match fault {
        CheckFault::Long => text_line(file, b": longer than 268435456 bytes\n"),
        CheckFault::Bad(bad) => long(shot_line(file, bad)),
        CheckFault::Head => text_line(file, b": unit or layer differs\n"),
        CheckFault::Miscovered(tile, count, wanted) => tile_line(file, tile, *count, *wanted),
        CheckFault::TooLarge(shot) => long(too_large_line(file, *shot)),
        CheckFault::Pack(bad) => long(pack_line(file, bad)),
        CheckFault::Wide(shot) => long(wide_line(file, *shot)),
        CheckFault::Stripes(stripes) => long(stripes_line(file, *stripes)),
    }
}
