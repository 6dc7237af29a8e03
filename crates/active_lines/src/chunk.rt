//! A chunk of neighbouring lines.
ghost use Rattle.std.specs.Prelude.{List, ◌≡◌, ◌-◌, ◌<◌, ◌≤◌, ◌++◌, ◌∷◌, [], All, IfOk, OnOk, OnErr, IfSome, IfNone, IsTrue, Some, length, take, drop, slice_set};
ghost use Rattle.std.specs.List.{HoldsAt, insert, remove};
ghost use Rattle.half_grid.specs.Reach.{IsWithinReach};
ghost use Rattle.active_lines.specs.declared.item.ActiveLine.{ActiveLine};
ghost use Rattle.active_lines.specs.Points.{IsBefore, IsNotBefore, AscendAt};
ghost use Rattle.active_lines.specs.Neighbours.{SomeMeeting};
ghost use Rattle.active_lines.specs.Chunked.{IsKept};

use crate::item::ActiveLine;
use crate::leaning::Level;
use crate::slices::{first_meeting, last_open, least_meeting, place_of};
use geo_stream::NoMemory;
use half_grid::Point;
use std::alloc::Global;
use std::marker::Model;

/// What is kept of the least meeting in a chunk.
#[derive(Clone, Copy)]
pub(crate) enum Least {
    /// It has to be looked for.
    Unknown,
    /// The least Y at which a line of the chunk meets the next one, if there is one.
    Known(Option<i64>),
}

/// Whether what is kept of lines says that none of them meets the next one at the level.
#[inline]
pub(crate) fn is_quiet_at(kept: Least, level: Level) -> bool
    ensures { IsTrue result → (lines : List ActiveLine) → IsKept lines kept → SomeMeeting lines level.y → ⊥ }
{
    match kept {
        Least::Known(Some(least)) => level.y < least,
        Least::Known(None) => true,
        Least::Unknown => false,
    }
}

/// Neighbouring lines, from left to right. Contracts see the list of them.
#[derive(Drop)]
pub(crate) struct Chunk {
    lines: Vec<ActiveLine>,
    least: Least,
}

impl Model for Chunk {
    ghost use Rattle.std.specs.Prelude.{List};
    ghost use Rattle.active_lines.specs.declared.item.ActiveLine.{ActiveLine};
    ghost use Rattle.active_lines.specs.Chunked.{IsChunk};

    ghost Value = { List ActiveLine };

    ghost view = { λ chunk. chunk.lines.items };

    ghost invariant = { λ chunk. IsChunk chunk.lines.items chunk.least };
}

/// How many lines a chunk may have.
const MOST: usize = 64;

impl Chunk {
    ghost use Rattle.active_lines.specs.Neighbours.{SomeMeeting, IsLeastMeeting, IsFirstMeeting};
    ghost use Rattle.active_lines.specs.ActiveLists.{IsShut, last_of};
    ghost use Rattle.active_lines.specs.Chunked.{HasLine, HasNearLine};

    /// A chunk of one line.
    pub(crate) fn one(alloc: Global, line: ActiveLine) -> Result<Chunk, NoMemory>
        requires { HasNearLine line }
        ensures { IfOk result (λ chunk. chunk ≡ line ∷ []) }
    {
        let mut lines = Vec::new(alloc);
        lines.push(line)?;
        Ok(Chunk {
            lines,
            least: Least::Unknown,
        })
    }

    /// How many lines it has.
    #[inline]
    pub(crate) fn len(&self) -> usize
        ensures { result ≡ length self.now }
    {
        self.lines.len()
    }

    /// Whether it has as many lines as it may have.
    #[inline]
    pub(crate) fn is_full(&self) -> bool
        ensures { IsTrue result → 1 < length self.now }
    {
        MOST <= self.lines.len()
    }

    /// The line with this number.
    #[inline]
    pub(crate) fn get(&self, k: usize) -> ActiveLine
        requires { k < length self.now }
        ensures line { HoldsAt (λ l. result ≡ l) self.now k }
        ensures near { HasNearLine result }
    {
        self.lines[k]
    }

    /// Its last line.
    #[inline]
    pub(crate) fn last(&self) -> ActiveLine
        requires { HasLine self.now }
        ensures line { last_of self.now ≡ Some result }
        ensures near { HasNearLine result }
    {
        self.lines[self.lines.len() - 1]
    }

    /// Puts a line before the one with this number, or at the end.
    pub(crate) fn insert(&mut self, k: usize, line: ActiveLine) -> Result<(), NoMemory>
        requires inside { k ≤ length self.old }
        requires near { HasNearLine line }
        ensures ok { OnOk result (self.new ≡ insert self.old k line) }
        ensures no_memory { OnErr result (self.new ≡ self.old) }
    {
        self.least = Least::Unknown;
        self.lines.insert(k, line)?;
        Ok(())
    }

    /// Takes the line with this number out.
    pub(crate) fn remove(&mut self, k: usize) -> ActiveLine
        requires { k < length self.old }
        ensures line { HoldsAt (λ l. result ≡ l) self.old k }
        ensures rest { self.new ≡ remove self.old k }
    {
        self.least = Least::Unknown;
        self.lines.remove(k)
    }

    /// Puts another in place of the line with this number. It is on the same line, so what is kept of meetings stays.
    #[inline]
    pub(crate) fn replace(&mut self, k: usize, line: ActiveLine)
        requires inside { k < length self.old }
        requires same { HoldsAt (λ l. line.line ≡ l.line) self.old k }
        ensures { self.new ≡ slice_set self.old k line }
    {
        self.lines[k] = line;
    }

    /// Takes its right half off.
    pub(crate) fn split(&mut self, alloc: Global) -> Result<Chunk, NoMemory>
        requires { 1 < length self.old }
        ensures whole { IfOk result (λ upper. self.old ≡ self.new ++ upper) }
        ensures lower { OnOk result (HasLine self.new) }
        ensures upper { IfOk result HasLine }
        ensures no_memory { OnErr result (self.new ≡ self.old) }
    {
        let half = self.lines.len() / 2;
        let upper = Vec::from_slice(alloc, &self.lines.as_slice()[half..])?;
        self.lines.truncate(half);
        self.least = Least::Unknown;
        Ok(Chunk {
            lines: upper,
            least: Least::Unknown,
        })
    }

    /// The least Y at which one of its lines meets the next one.
    pub(crate) fn least_meeting(&mut self) -> Option<i64>
        ensures least { IsLeastMeeting self.old result }
        ensures same { self.new ≡ self.old }
    {
        match self.least {
            Least::Known(least) => least,
            Least::Unknown => {
                let least = least_meeting(self.lines.as_slice());
                self.least = Least::Known(least);
                least
            }
        }
    }

    /// How many of its lines, from the left, pass left of the point.
    pub(crate) fn place_of(&self, point: Point) -> usize
        requires ascend { AscendAt point.y self.now }
        requires y { IsWithinReach point.y }
        ensures inside { result ≤ length self.now }
        ensures before { All (IsBefore point.x point.y) (take result self.now) }
        ensures after { All (IsNotBefore point.x point.y) (drop result self.now) }
    {
        place_of(self.lines.as_slice(), point)
    }

    /// The leftmost of its lines from number `k` on that meets the next one at the level.
    pub(crate) fn first_meeting(&self, k: usize, level: Level) -> Option<ActiveLine>
        requires { k ≤ length self.now }
        ensures some { IfSome result (IsFirstMeeting (drop k self.now) level.y) }
        ensures none { IfNone result (SomeMeeting (drop k self.now) level.y → ⊥) }
    {
        if is_quiet_at(self.least, level) {
            return None;
        }
        first_meeting(&self.lines.as_slice()[k..], level)
    }

    /// How many of its first `k` lines there are up to the last one at which a trapezoid is open, with it.
    pub(crate) fn last_open(&self, k: usize) -> usize
        requires { k ≤ length self.now }
        ensures inside { result ≤ k }
        ensures is_open { 0 < result → HoldsAt (λ l. IsShut l → ⊥) self.now (result - 1) }
        ensures shut { All IsShut (drop result (take k self.now)) }
    {
        last_open(&self.lines.as_slice()[..k])
    }
}
