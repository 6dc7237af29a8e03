//! What is looked for over all chunks.
ghost use Rattle.std.specs.Prelude.{ℕ, ◌≡◌, ◌+◌, ◌<◌, ◌≤◌, ◌++◌, ◌∷◌, [], List, All, IfSome, IfNone, length, take, drop};
ghost use Rattle.std.specs.List.{HoldsAt};
ghost use Rattle.half_grid.specs.Reach.{IsWithinReach};
ghost use Rattle.active_lines.specs.Points.{IsBefore, IsNotBefore, AscendAt, EndsNotBefore};
ghost use Rattle.active_lines.specs.Neighbours.{SomeMeeting, IsLeastMeeting, IsFirstMeeting, IsSeam, MeetAtSeam, IsLastMeeting};
ghost use Rattle.active_lines.specs.ActiveLists.{IsShut, last_of};
ghost use Rattle.active_lines.specs.Chunked.{IsPlace, ArePages, HasLine, chunk_at, lines_of, lines_before, lines_after, IsOpenUpTo};

use crate::chunk::{Chunk, Least};
use crate::item::ActiveLine;
use crate::leaning::{Level, is_at, lesser, meeting_above};
use crate::pages::{is_quiet_page, page_end};
use crate::place::Place;
use crate::slices::is_before;
use half_grid::Point;

// The first chunk with a line that doesn't pass left of the point, by halving.
fn chunk_of(chunks: &[Chunk], point: Point) -> usize
    requires full { All HasLine chunks.now }
    requires ascend { AscendAt point.y (lines_of chunks.now) }
    requires y { IsWithinReach point.y }
    ensures inside { result ≤ length chunks.now }
    ensures before { All (IsBefore point.x point.y) (lines_of (take result chunks.now)) }
    ensures at { result < length chunks.now → EndsNotBefore point.x point.y (chunk_at chunks.now result) }
{
    let mut low = 0;
    let mut high = chunks.len();
    while low < high {
        let middle = low + (high - low) / 2;
        if is_before(&chunks[middle].last(), point) {
            low = middle + 1;
        } else {
            high = middle;
        }
    }
    low
}

/// The place of the first line that doesn't pass left of the point.
pub(crate) fn place_of(chunks: &[Chunk], point: Point) -> Place
    requires full { All HasLine chunks.now }
    requires ascend { AscendAt point.y (lines_of chunks.now) }
    requires y { IsWithinReach point.y }
    ensures place { IsPlace chunks.now result.chunk result.at }
    ensures before { All (IsBefore point.x point.y) (lines_before chunks.now result.chunk result.at) }
    ensures after { All (IsNotBefore point.x point.y) (lines_after chunks.now result.chunk result.at) }
{
    let chunk = chunk_of(chunks, point);
    if chunks.len() <= chunk {
        return Place { chunk, at: 0 };
    }
    Place {
        chunk,
        at: chunks[chunk].place_of(point),
    }
}

// The Y at which the last line of the chunk before this one meets the first of this one, if it does.
fn seam_before(chunks: &[Chunk], c: usize) -> Option<i64>
    requires full { All HasLine chunks.now }
    requires inside { c < length chunks.now }
    ensures { IsSeam (lines_of (take c chunks.now)) (chunk_at chunks.now c) result }
{
    if c == 0 {
        return None;
    }
    let last = chunks[c - 1].last();
    let first = chunks[c].get(0);
    meeting_above(last.line, first.line)
}

/// The least Y at which a line of the chunks meets the next one.
pub(crate) fn least_meeting(chunks: &mut [Chunk]) -> Option<i64>
    requires { All HasLine chunks.old }
    ensures least { IsLeastMeeting (lines_of chunks.old) result }
    ensures same { chunks.new ≡ chunks.old }
{
    let mut least = None;
    let mut c = 0;
    while c < chunks.len() {
        least = lesser(least, seam_before(chunks, c));
        least = lesser(least, chunks[c].least_meeting());
        c += 1;
    }
    least
}

// The last line of the chunk with this number, where it meets the first of the next one at the level.
fn meeting_after(chunks: &[Chunk], c: usize, level: Level) -> Option<ActiveLine>
    requires full { All HasLine chunks.now }
    requires inside { c < length chunks.now }
    ensures some { IfSome result (IsLastMeeting (chunk_at chunks.now c) (lines_of (drop (c + 1) chunks.now)) level.y) }
    ensures none { IfNone result (MeetAtSeam (chunk_at chunks.now c) (lines_of (drop (c + 1) chunks.now)) level.y → ⊥) }
{
    if chunks.len() <= c + 1 {
        return None;
    }
    if is_at(seam_before(chunks, c + 1), level) {
        return Some(chunks[c].last());
    }
    None
}

/// The leftmost line from the place on that meets the next one at the level. Pages in which none does are passed over.
pub(crate) fn first_meeting(
    chunks: &[Chunk],
    leasts: &[Least],
    place: Place,
    level: Level,
) -> Option<ActiveLine>
    requires place { IsPlace chunks.now place.chunk place.at }
    requires pages { ArePages chunks.now leasts.now }
    ensures some { IfSome result (IsFirstMeeting (lines_after chunks.now place.chunk place.at) level.y) }
    ensures none { IfNone result (SomeMeeting (lines_after chunks.now place.chunk place.at) level.y → ⊥) }
{
    let mut c = place.chunk;
    let mut from = place.at;
    while c < chunks.len() {
        if from == 0 && is_quiet_page(leasts, c, level) {
            c = page_end(chunks, c);
            continue;
        }
        if let Some(line) = chunks[c].first_meeting(from, level) {
            return Some(line);
        }
        if let Some(line) = meeting_after(chunks, c, level) {
            return Some(line);
        }
        c += 1;
        from = 0;
    }
    None
}

/// The line before the place, if there is one.
pub(crate) fn last_before(chunks: &[Chunk], place: Place) -> Option<ActiveLine>
    requires { IsPlace chunks.now place.chunk place.at }
    ensures { result ≡ last_of (lines_before chunks.now place.chunk place.at) }
{
    if 0 < place.at {
        return Some(chunks[place.chunk].get(place.at - 1));
    }
    if 0 < place.chunk {
        return Some(chunks[place.chunk - 1].last());
    }
    None
}

// How many lines there are in the place's chunk up to the last one before the place at which a trapezoid is open.
fn open_in_chunk(chunks: &[Chunk], place: Place) -> usize
    requires { IsPlace chunks.now place.chunk place.at }
    ensures { IsOpenUpTo chunks.now place.chunk place.at place.chunk result }
{
    if chunks.len() <= place.chunk {
        return 0;
    }
    chunks[place.chunk].last_open(place.at)
}

/// The last line before the place at which a trapezoid is open, by its chunk and how many lines there are up to it, with
/// it. That number is 0 where there is no such line.
pub(crate) fn open_before(chunks: &[Chunk], place: Place) -> Place
    requires { IsPlace chunks.now place.chunk place.at }
    ensures is_open { IsOpenUpTo chunks.now place.chunk place.at result.chunk result.at }
    ensures none { result.at ≡ 0 → result.chunk ≡ 0 }
{
    let mut c = place.chunk;
    let mut count = open_in_chunk(chunks, place);
    while count == 0 && 0 < c {
        c -= 1;
        count = chunks[c].last_open(chunks[c].len());
    }
    Place {
        chunk: c,
        at: count,
    }
}
