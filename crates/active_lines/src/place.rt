//! A place among chunks of lines.
ghost use Rattle.std.specs.Prelude.{◌≡◌, ◌+◌, ◌<◌, ◌≤◌, All, length, take, drop};
ghost use Rattle.active_lines.specs.Chunked.{IsPlace, ArePages, HasLine, chunk_at, lines_before, lines_after};

use crate::chunk::{Chunk, Least};
use crate::pages::forget_from;

/// A place among the lines: the number of a chunk, and that of a line in it. The place at the end of all lines is in no
/// chunk.
#[derive(Clone, Copy)]
pub(crate) struct Place {
    pub(crate) chunk: usize,
    pub(crate) at: usize,
}

/// The place after the line at this one.
#[inline]
pub(crate) fn next_place(chunks: &[Chunk], place: Place) -> Place
    requires place { IsPlace chunks.now place.chunk place.at }
    requires line { place.chunk < length chunks.now }
    ensures place { IsPlace chunks.now result.chunk result.at }
    ensures before { lines_before chunks.now result.chunk result.at ≡ lines_before chunks.now place.chunk (place.at + 1) }
    ensures after { lines_after chunks.now result.chunk result.at ≡ lines_after chunks.now place.chunk (place.at + 1) }
{
    let len = chunks[place.chunk].len();
    if place.at + 1 < len {
        return Place {
            chunk: place.chunk,
            at: place.at + 1,
        };
    }
    Place {
        chunk: place.chunk + 1,
        at: 0,
    }
}

/// The place one line further, in the same chunk.
#[inline]
pub(crate) fn further(chunks: &[Chunk], place: Place) -> Place
    requires chunk { place.chunk < length chunks.now }
    requires line { place.at < length (chunk_at chunks.now place.chunk) }
    ensures chunk { result.chunk ≡ place.chunk }
    ensures at { result.at ≡ place.at + 1 }
{
    let _len = chunks[place.chunk].len();
    Place {
        chunk: place.chunk,
        at: place.at + 1,
    }
}

/// The place after a line was taken out of its chunk there: the chunk goes where it has none left.
pub(crate) fn settled(chunks: &mut Vec<Chunk>, leasts: &mut Vec<Least>, place: Place) -> Place
    requires chunk { place.chunk < length chunks.old.items }
    requires at { place.at ≤ length (chunk_at chunks.old.items place.chunk) }
    requires left { All HasLine (take place.chunk chunks.old.items) }
    requires right { All HasLine (drop (place.chunk + 1) chunks.old.items) }
    requires pages { ArePages chunks.old.items leasts.old.items }
    ensures place { IsPlace chunks.new.items result.chunk result.at }
    ensures before { lines_before chunks.new.items result.chunk result.at ≡ lines_before chunks.old.items place.chunk place.at }
    ensures after { lines_after chunks.new.items result.chunk result.at ≡ lines_after chunks.old.items place.chunk place.at }
    ensures pages { ArePages chunks.new.items leasts.new.items }
{
    let len = chunks[place.chunk].len();
    if place.at < len {
        return place;
    }
    if len == 0 {
        forget_from(leasts, place.chunk);
        let _empty = chunks.remove(place.chunk);
        return Place {
            chunk: place.chunk,
            at: 0,
        };
    }
    Place {
        chunk: place.chunk + 1,
        at: 0,
    }
}
