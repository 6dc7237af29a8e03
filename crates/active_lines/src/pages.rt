//! The least meetings of pages: of 32 chunks each, with the first chunk after them, so that pages join without a seam.
ghost use Rattle.std.specs.Prelude.{◌≡◌, ◌+◌, ◌*◌, ◌<◌, ◌≤◌, min, List, All, IsTrue, length, take, drop, slice_set, slice_index_or};
ghost use Rattle.active_lines.specs.declared.item.ActiveLine.{ActiveLine};
ghost use Rattle.active_lines.specs.Neighbours.{IsLeastMeeting, SomeMeeting};
ghost use Rattle.active_lines.specs.declared.chunk.Least.TheVariants.{Unknown};
ghost use Rattle.active_lines.specs.Chunked.{ArePages, HasLine, lines_of, page_at};

use crate::chunk::{Chunk, Least, is_quiet_at};
use crate::leaning::{Level, lesser};
use crate::looking::least_meeting;

/// How many chunks a page has.
const PAGE: usize = 32;

// What was kept of a page isn't so any more.
fn forget_page(leasts: &mut Vec<Least>, p: usize)
    ensures { leasts.new.items ≡ slice_set leasts.old.items p Unknown }
{
    if p < leasts.len() {
        leasts[p] = Least::Unknown;
    }
}

/// Forgets the pages with this chunk, whose lines change.
pub(crate) fn forget(leasts: &mut Vec<Least>, c: usize)
    ensures { (chunks : List (List ActiveLine)) (lines : List ActiveLine) → ArePages chunks leasts.old.items → ArePages (slice_set chunks c lines) leasts.new.items }
{
    forget_page(leasts, c / PAGE);
    forget_page(leasts, c.saturating_sub(1) / PAGE);
}

/// Forgets the pages with this chunk or one after it: chunks come and go there.
pub(crate) fn forget_from(leasts: &mut Vec<Least>, c: usize)
    ensures { (chunks new : List (List ActiveLine)) → ArePages chunks leasts.old.items → take c new ≡ take c chunks → ArePages new leasts.new.items }
{
    leasts.truncate(c.saturating_sub(1) / PAGE);
}

// What is kept of the page.
fn kept_of(leasts: &[Least], p: usize) -> Least
    ensures { result ≡ slice_index_or leasts.now p Unknown }
{
    match leasts.get(p) {
        Some(least) => *least,
        None => Least::Unknown,
    }
}

/// Whether a page begins at this chunk, and what is kept of it says that none of its lines meets the next one at the level.
pub(crate) fn is_quiet_page(leasts: &[Least], c: usize, level: Level) -> bool
    ensures { IsTrue result → (chunks : List (List ActiveLine)) → ArePages chunks leasts.now → SomeMeeting (lines_of (take 33 (drop c chunks))) level.y → ⊥ }
{
    if c % PAGE != 0 {
        return false;
    }
    is_quiet_at(kept_of(leasts, c / PAGE), level)
}

/// The first chunk after the page that begins at this one, or the end of all.
pub(crate) fn page_end(chunks: &[Chunk], c: usize) -> usize
    requires { c < length chunks.now }
    ensures { result ≡ min (c + 32) (length chunks.now) }
{
    (c + PAGE).min(chunks.len())
}

// Keeps the least meeting of the page, where there is memory for it.
fn keep(leasts: &mut Vec<Least>, p: usize, least: Option<i64>)
    ensures { (chunks : List (List ActiveLine)) → ArePages chunks leasts.old.items → IsLeastMeeting (lines_of (page_at chunks p)) least → ArePages chunks leasts.new.items }
{
    if p < leasts.len() {
        leasts[p] = Least::Known(least);
    } else if p == leasts.len() {
        let _kept = leasts.push(Least::Known(least));
    }
}

// The least Y at which a line of the page meets the next one, looked for.
fn looked_for(chunks: &mut [Chunk], p: usize) -> Option<i64>
    requires full { All HasLine chunks.old }
    requires inside { 32 * p ≤ length chunks.old }
    ensures least { IsLeastMeeting (lines_of (page_at chunks.old p)) result }
    ensures same { chunks.new ≡ chunks.old }
{
    let from = PAGE * p;
    let to = chunks.len().min(from + PAGE + 1);
    least_meeting(&mut chunks[from..to])
}

// The least Y at which a line of the page meets the next one.
fn page_meeting(chunks: &mut [Chunk], leasts: &mut Vec<Least>, p: usize) -> Option<i64>
    requires full { All HasLine chunks.old }
    requires inside { 32 * p ≤ length chunks.old }
    requires pages { ArePages chunks.old leasts.old.items }
    ensures least { IsLeastMeeting (lines_of (page_at chunks.old p)) result }
    ensures same { chunks.new ≡ chunks.old }
    ensures pages { ArePages chunks.new leasts.new.items }
{
    match kept_of(leasts.as_slice(), p) {
        Least::Known(least) => least,
        Least::Unknown => {
            let least = looked_for(chunks, p);
            keep(leasts, p, least);
            least
        }
    }
}

/// The least Y at which a line meets the next one. Pages that have changed are looked through.
pub(crate) fn least_of_pages(chunks: &mut [Chunk], leasts: &mut Vec<Least>) -> Option<i64>
    requires full { All HasLine chunks.old }
    requires pages { ArePages chunks.old leasts.old.items }
    ensures least { IsLeastMeeting (lines_of chunks.old) result }
    ensures same { chunks.new ≡ chunks.old }
    ensures pages { ArePages chunks.new leasts.new.items }
{
    let mut least = page_meeting(chunks, leasts, 0);
    let mut p = 1;
    while PAGE * p + 1 < chunks.len() {
        least = lesser(least, page_meeting(chunks, leasts, p));
        p += 1;
    }
    least
}
