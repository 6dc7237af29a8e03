//! The list of active lines.
ghost use Rattle.std.specs.Prelude.{◌≡◌, ◌++◌, ◌∷◌, [], All, OnOk, OnErr, IfSome, IfNone, option_to_list, drop};
ghost use Rattle.half_grid.specs.Reach.{IsWithinReach};
ghost use Rattle.active_lines.specs.Points.{IsBefore, IsNotBefore, AscendAt};
ghost use Rattle.active_lines.specs.Neighbours.{SomeMeeting, IsLeastMeeting, IsFirstMeeting};
ghost use Rattle.active_lines.specs.Leaning.{IsNearLine};

use crate::chunk::{Chunk, Least};
use crate::editing::{append, insert_at, make_room, remove_at, reopen_at, replace_at};
use crate::item::{ActiveLine, Opened};
use crate::leaning::Level;
use crate::looking::{first_meeting, last_before, open_before, place_of};
use crate::pages::{forget, least_of_pages};
use crate::place::{Place, further, next_place, settled};
use geo_stream::NoMemory;
use half_grid::Point;
use std::alloc::Global;
use std::marker::Model;

/// The active lines of a sweep, from left to right, with a place among them. Contracts see the lines before the place
/// and those after it.
///
/// They are in chunks of at most 64. Each chunk keeps the least Y at which one of its lines meets the next one, until its
/// lines change, and so does each page of 32 chunks.
#[derive(Drop)]
pub struct ActiveLines {
    chunks: Vec<Chunk>,
    place: Place,
    leasts: Vec<Least>,
}

impl Model for ActiveLines {
    ghost use Rattle.active_lines.specs.ActiveLists.{ActiveList, active_list};
    ghost use Rattle.active_lines.specs.Chunked.{IsPaged, lines_before, lines_after};

    ghost Value = { ActiveList };

    ghost view = { λ list. active_list (lines_before list.chunks.items list.place.chunk list.place.at) (lines_after list.chunks.items list.place.chunk list.place.at) };

    ghost invariant = { λ list. IsPaged list.chunks.items list.place.chunk list.place.at list.leasts.items };
}

impl ActiveLines {
    ghost use Rattle.active_lines.specs.ActiveLists.{active_list, items, first_of, last_of, BeginsOn, IsShut, IsReopened};

    /// A list of no lines. It takes no memory.
    pub fn new(alloc: Global) -> ActiveLines
        ensures { result ≡ active_list [] [] }
    {
        ActiveLines {
            chunks: Vec::new(alloc),
            place: Place { chunk: 0, at: 0 },
            leasts: Vec::new(alloc),
        }
    }

    /// Goes to the place before all lines.
    pub fn rewind(&mut self)
        ensures { self.new ≡ active_list [] (items self.old) }
    {
        self.place = Place { chunk: 0, at: 0 };
    }

    /// Goes to the place of the first line that doesn't pass left of the point. From left to right no line may be left of
    /// one before it at the point's Y.
    pub fn seek(&mut self, point: Point)
        requires ascend { AscendAt point.y (items self.old) }
        requires y { IsWithinReach point.y }
        ensures same { items self.new ≡ items self.old }
        ensures before { All (IsBefore point.x point.y) self.new.before }
        ensures after { All (IsNotBefore point.x point.y) self.new.after }
    {
        self.place = place_of(self.chunks.as_slice(), point);
    }

    /// The line after the place, if there is one.
    pub fn first(&self) -> Option<ActiveLine>
        ensures { result ≡ first_of self.now.after }
    {
        if self.chunks.len() <= self.place.chunk {
            return None;
        }
        Some(self.chunks[self.place.chunk].get(self.place.at))
    }

    /// The line before the place, if there is one.
    pub fn last(&self) -> Option<ActiveLine>
        ensures { result ≡ last_of self.now.before }
    {
        last_before(self.chunks.as_slice(), self.place)
    }

    /// Takes the line after the place out of the list, if there is one.
    pub fn take(&mut self) -> Option<ActiveLine>
        ensures before { self.new.before ≡ self.old.before }
        ensures after { self.old.after ≡ option_to_list result ++ self.new.after }
        ensures none { IfNone result (self.old.after ≡ []) }
    {
        if self.chunks.len() <= self.place.chunk {
            return None;
        }
        let line = remove_at(&mut self.chunks, &mut self.leasts, self.place);
        self.place = settled(&mut self.chunks, &mut self.leasts, self.place);
        Some(line)
    }

    /// Puts a line at the place, which is after it then. The line's own number is within reach.
    pub fn put(&mut self, alloc: Global, line: ActiveLine) -> Result<(), NoMemory>
        requires { IsNearLine line.line }
        ensures before { OnOk result (self.new.before ≡ self.old.before ++ line ∷ []) }
        ensures after { self.new.after ≡ self.old.after }
        ensures no_memory { OnErr result (self.new.before ≡ self.old.before) }
    {
        if self.chunks.len() <= self.place.chunk {
            append(&mut self.chunks, &mut self.leasts, alloc, line)?;
            self.place = Place {
                chunk: self.chunks.len(),
                at: 0,
            };
            return Ok(());
        }
        self.place = make_room(&mut self.chunks, &mut self.leasts, alloc, self.place)?;
        insert_at(&mut self.chunks, &mut self.leasts, self.place, line)?;
        self.place = further(self.chunks.as_slice(), self.place);
        Ok(())
    }

    /// Passes the line after the place, which changes to this one: other windings, or another open trapezoid, on the same
    /// line.
    pub fn pass(&mut self, line: ActiveLine)
        requires { BeginsOn line.line self.old.after }
        ensures before { self.new.before ≡ self.old.before ++ line ∷ [] }
        ensures after { self.new.after ≡ drop 1 self.old.after }
    {
        replace_at(&mut self.chunks, &mut self.leasts, self.place, line);
        self.place = next_place(self.chunks.as_slice(), self.place);
    }

    /// At the last line before the place at which a trapezoid is open, this one is open in its stead. The answer is the
    /// line as it was, or None where no trapezoid is open before the place.
    pub fn reopen(&mut self, opened: Opened) -> Option<ActiveLine>
        ensures some { IfSome result (λ line. IsReopened opened self.old.before line self.new.before) }
        ensures none { IfNone result (All IsShut self.old.before) }
        ensures same { IfNone result (self.new.before ≡ self.old.before) }
        ensures after { self.new.after ≡ self.old.after }
    {
        let place = open_before(self.chunks.as_slice(), self.place);
        if place.at == 0 {
            return None;
        }
        forget(&mut self.leasts, place.chunk);
        Some(reopen_at(&mut self.chunks, place, opened))
    }

    /// The least Y at which a line meets the next one above, if one does.
    pub fn least_meeting(&mut self) -> Option<i64>
        ensures least { IsLeastMeeting (items self.old) result }
        ensures same { self.new ≡ self.old }
    {
        least_of_pages(self.chunks.as_mut_slice(), &mut self.leasts)
    }

    /// The leftmost line after the place that meets the next one at `y`, if one does.
    pub fn first_meeting(&self, y: i64) -> Option<ActiveLine>
        ensures some { IfSome result (IsFirstMeeting self.now.after y) }
        ensures none { IfNone result (SomeMeeting self.now.after y → ⊥) }
    {
        first_meeting(
            self.chunks.as_slice(),
            self.leasts.as_slice(),
            self.place,
            Level { y },
        )
    }
}
