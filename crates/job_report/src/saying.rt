//! Pieces that are printed one after another.
ghost use Rattle.std.specs.Prelude.{◌∷◌, ◌++◌};
ghost use Rattle.depot.specs.Counting.{CountsWrites};
ghost use Rattle.depot.specs.Doing.{Puts, Says};
ghost use Rattle.job_report.specs.Pieces.{names_text, text_of, spelled};

use crate::hexadecimal::digits_of;
use crate::pieces::Piece;
use depot::{Buffer, Depot, DepotBad, flush, put_piece};
use layout_model::Name;

// Puts a name after a space.
fn put_name<D: Depot>(depot: &mut D, buffer: &mut Buffer, name: &Name) -> Result<(), DepotBad>
    ensures content { Puts D.tells (D.content depot.old) (D.content depot.new)
        (buffer.old ++ (32 ∷ name.now)) buffer.new result }
    ensures counts { CountsWrites (D.counts depot.old) (D.counts depot.new) result }
{
    put_piece(depot, buffer, b" ")?;
    put_piece(depot, buffer, name.bytes())
}

// Puts names, each after a space.
fn put_names<D: Depot>(depot: &mut D, buffer: &mut Buffer, names: &[Name]) -> Result<(), DepotBad>
    ensures content { Puts D.tells (D.content depot.old) (D.content depot.new)
        (buffer.old ++ names_text names.now) buffer.new result }
    ensures counts { CountsWrites (D.counts depot.old) (D.counts depot.new) result }
{
    for name in names {
        put_name(depot, buffer, name)?;
    }
    Ok(())
}

// Puts what a piece says.
fn put_one<D: Depot>(depot: &mut D, buffer: &mut Buffer, piece: &Piece) -> Result<(), DepotBad>
    ensures content { Puts D.tells (D.content depot.old) (D.content depot.new)
        (buffer.old ++ text_of piece.now) buffer.new result }
    ensures counts { CountsWrites (D.counts depot.old) (D.counts depot.new) result }
{
    let mut digits = itoa::Buffer::new();
    match piece {
        Piece::Text(bytes) => put_piece(depot, buffer, bytes),
        Piece::Count(number) => put_piece(depot, buffer, digits.format(*number).as_bytes()),
        Piece::Number(number) => put_piece(depot, buffer, digits.format(*number).as_bytes()),
        Piece::Bits(bits) => put_piece(depot, buffer, digits_of(*bits).bytes()),
        Piece::Names(names) => put_names(depot, buffer, names),
    }
}

/// Puts what the pieces say, one after another.
pub fn put_pieces<D: Depot>(
    depot: &mut D,
    buffer: &mut Buffer,
    pieces: &[Piece],
) -> Result<(), DepotBad>
    ensures content { Puts D.tells (D.content depot.old) (D.content depot.new)
        (buffer.old ++ spelled pieces.now) buffer.new result }
    ensures counts { CountsWrites (D.counts depot.old) (D.counts depot.new) result }
{
    for piece in pieces {
        put_one(depot, buffer, piece)?;
    }
    Ok(())
}

/// Prints the pieces one after another. After a refusal a prefix of the whole was printed.
pub fn say_pieces<D: Depot>(depot: &mut D, pieces: &[Piece]) -> Result<(), DepotBad>
    ensures content { Says D.tells (D.content depot.old) (D.content depot.new) (spelled pieces.now) result }
    ensures counts { CountsWrites (D.counts depot.old) (D.counts depot.new) result }
{
    let mut buffer = Buffer::new();
    put_pieces(depot, &mut buffer, pieces)?;
    flush(depot, &mut buffer)
}
