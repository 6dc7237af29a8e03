//! Lines put among chunks.
ghost use Rattle.std.specs.Prelude.{◌≡◌, ◌+◌, ◌<◌, ◌≤◌, ◌++◌, ◌∷◌, [], All, IfOk, OnOk, OnErr, IsTrue, length, take, drop, ◌-◌, slice_set, vec_len, vec_capacity};
ghost use Rattle.std.specs.List.{HoldsAt};
ghost use Rattle.active_lines.specs.ActiveLists.{BeginsOn, reopened};
ghost use Rattle.active_lines.specs.Chunked.{HasNearLine, IsPlace, ArePages, HasLine, chunk_at, lines_of, lines_before, lines_after};

use crate::chunk::{Chunk, Least};
use crate::item::{ActiveLine, Opened};
use crate::pages::{forget, forget_from};
use crate::place::Place;
use geo_stream::NoMemory;
use std::alloc::Global;

// Whether the last chunk has room for one more line.
fn last_has_room(chunks: &[Chunk]) -> bool
    ensures { IsTrue result → 0 < length chunks.now }
{
    if chunks.is_empty() {
        return false;
    }
    !chunks[chunks.len() - 1].is_full()
}

/// Puts a line after all others.
pub(crate) fn append(
    chunks: &mut Vec<Chunk>,
    leasts: &mut Vec<Least>,
    alloc: Global,
    line: ActiveLine,
) -> Result<(), NoMemory>
    requires full { All HasLine chunks.old.items }
    requires near { HasNearLine line }
    requires pages { ArePages chunks.old.items leasts.old.items }
    ensures full { All HasLine chunks.new.items }
    ensures ok { OnOk result (lines_of chunks.new.items ≡ lines_of chunks.old.items ++ line ∷ []) }
    ensures no_memory { OnErr result (chunks.new.items ≡ chunks.old.items) }
    ensures pages { ArePages chunks.new.items leasts.new.items }
{
    forget_from(leasts, chunks.len().saturating_sub(1));
    if last_has_room(chunks.as_slice()) {
        let last = chunks.len() - 1;
        let end = chunks[last].len();
        return chunks[last].insert(end, line);
    }
    let chunk = Chunk::one(alloc, line)?;
    chunks.push(chunk)?;
    Ok(())
}

// Splits the chunk at the place in two. There is room for one more chunk.
fn split_at(chunks: &mut Vec<Chunk>, alloc: Global, place: Place) -> Result<Place, NoMemory>
    requires place { IsPlace chunks.old.items place.chunk place.at }
    requires line { place.chunk < length chunks.old.items }
    requires two { 1 < length (chunk_at chunks.old.items place.chunk) }
    requires room { vec_len chunks.old < vec_capacity chunks.old }
    ensures place { IfOk result (λ p. IsPlace chunks.new.items p.chunk p.at) }
    ensures line { IfOk result (λ p. p.chunk < length chunks.new.items) }
    ensures before { IfOk result (λ p. lines_before chunks.new.items p.chunk p.at ≡ lines_before chunks.old.items place.chunk place.at) }
    ensures after { IfOk result (λ p. lines_after chunks.new.items p.chunk p.at ≡ lines_after chunks.old.items place.chunk place.at) }
    ensures no_memory { OnErr result (chunks.new.items ≡ chunks.old.items) }
    ensures front { take place.chunk chunks.new.items ≡ take place.chunk chunks.old.items }
{
    let upper = chunks[place.chunk].split(alloc)?;
    let half = chunks[place.chunk].len();
    chunks.insert(place.chunk + 1, upper).unwrap();
    if place.at < half {
        return Ok(place);
    }
    Ok(Place {
        chunk: place.chunk + 1,
        at: place.at - half,
    })
}

/// Sees to it that the chunk at the place has room for one more line. The place may be another one then, at the same line.
pub(crate) fn make_room(
    chunks: &mut Vec<Chunk>,
    leasts: &mut Vec<Least>,
    alloc: Global,
    place: Place,
) -> Result<Place, NoMemory>
    requires place { IsPlace chunks.old.items place.chunk place.at }
    requires line { place.chunk < length chunks.old.items }
    requires pages { ArePages chunks.old.items leasts.old.items }
    ensures place { IfOk result (λ p. IsPlace chunks.new.items p.chunk p.at) }
    ensures line { IfOk result (λ p. p.chunk < length chunks.new.items) }
    ensures before { IfOk result (λ p. lines_before chunks.new.items p.chunk p.at ≡ lines_before chunks.old.items place.chunk place.at) }
    ensures after { IfOk result (λ p. lines_after chunks.new.items p.chunk p.at ≡ lines_after chunks.old.items place.chunk place.at) }
    ensures no_memory { OnErr result (chunks.new.items ≡ chunks.old.items) }
    ensures pages { ArePages chunks.new.items leasts.new.items }
{
    if !chunks[place.chunk].is_full() {
        return Ok(place);
    }
    chunks.reserve(1)?;
    forget_from(leasts, place.chunk);
    split_at(chunks, alloc, place)
}

/// Puts a line before the one at the place. The place may be another one then: it is where the line after it is.
pub(crate) fn insert_at(
    chunks: &mut Vec<Chunk>,
    leasts: &mut Vec<Least>,
    place: Place,
    line: ActiveLine,
) -> Result<(), NoMemory>
    requires place { IsPlace chunks.old.items place.chunk place.at }
    requires chunk { place.chunk < length chunks.old.items }
    requires near { HasNearLine line }
    requires pages { ArePages chunks.old.items leasts.old.items }
    ensures place { OnOk result (IsPlace chunks.new.items place.chunk (place.at + 1)) }
    ensures chunk { place.chunk < length chunks.new.items }
    ensures line { OnOk result (place.at + 1 < length (chunk_at chunks.new.items place.chunk)) }
    ensures before { OnOk result (lines_before chunks.new.items place.chunk (place.at + 1) ≡ lines_before chunks.old.items place.chunk place.at ++ line ∷ []) }
    ensures after { OnOk result (lines_after chunks.new.items place.chunk (place.at + 1) ≡ lines_after chunks.old.items place.chunk place.at) }
    ensures no_memory { OnErr result (chunks.new.items ≡ chunks.old.items) }
    ensures pages { ArePages chunks.new.items leasts.new.items }
{
    forget(leasts, place.chunk);
    chunks[place.chunk].insert(place.at, line)
}

/// Takes the line at the place out of its chunk, which may then be empty.
pub(crate) fn remove_at(
    chunks: &mut Vec<Chunk>,
    leasts: &mut Vec<Least>,
    place: Place,
) -> ActiveLine
    requires place { IsPlace chunks.old.items place.chunk place.at }
    requires chunk { place.chunk < length chunks.old.items }
    requires pages { ArePages chunks.old.items leasts.old.items }
    ensures chunk { place.chunk < length chunks.new.items }
    ensures at { place.at ≤ length (chunk_at chunks.new.items place.chunk) }
    ensures left { All HasLine (take place.chunk chunks.new.items) }
    ensures right { All HasLine (drop (place.chunk + 1) chunks.new.items) }
    ensures before { lines_before chunks.new.items place.chunk place.at ≡ lines_before chunks.old.items place.chunk place.at }
    ensures after { lines_after chunks.old.items place.chunk place.at ≡ result ∷ lines_after chunks.new.items place.chunk place.at }
    ensures pages { ArePages chunks.new.items leasts.new.items }
{
    forget(leasts, place.chunk);
    chunks[place.chunk].remove(place.at)
}

/// Puts another in place of the line at the place, on the same line.
pub(crate) fn replace_at(
    chunks: &mut Vec<Chunk>,
    leasts: &mut Vec<Least>,
    place: Place,
    line: ActiveLine,
)
    requires place { IsPlace chunks.old.items place.chunk place.at }
    requires chunk { place.chunk < length chunks.old.items }
    requires same { BeginsOn line.line (lines_after chunks.old.items place.chunk place.at) }
    requires pages { ArePages chunks.old.items leasts.old.items }
    ensures place { IsPlace chunks.new.items place.chunk place.at }
    ensures chunk { place.chunk < length chunks.new.items }
    ensures before { lines_before chunks.new.items place.chunk (place.at + 1) ≡ lines_before chunks.old.items place.chunk place.at ++ line ∷ [] }
    ensures after { lines_after chunks.new.items place.chunk (place.at + 1) ≡ drop 1 (lines_after chunks.old.items place.chunk place.at) }
    ensures pages { ArePages chunks.new.items leasts.new.items }
{
    forget(leasts, place.chunk);
    chunks[place.chunk].replace(place.at, line);
}

/// Opens another trapezoid at the last of this many lines of a chunk. The answer is the line as it was.
pub(crate) fn reopen_at(chunks: &mut Vec<Chunk>, place: Place, opened: Opened) -> ActiveLine
    requires chunk { place.chunk < length chunks.old.items }
    requires some { 0 < place.at }
    requires inside { place.at ≤ length (chunk_at chunks.old.items place.chunk) }
    ensures line { HoldsAt (λ l. result ≡ l) (chunk_at chunks.old.items place.chunk) (place.at - 1) }
    ensures chunks { chunks.new.items ≡ slice_set chunks.old.items place.chunk (slice_set (chunk_at chunks.old.items place.chunk) (place.at - 1) (reopened opened result)) }
{
    let line = chunks[place.chunk].get(place.at - 1);
    let new = ActiveLine {
        line: line.line,
        windings: line.windings,
        opened: Some(opened),
    };
    chunks[place.chunk].replace(place.at - 1, new);
    line
}
