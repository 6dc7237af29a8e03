//! How many trapezoids the shots of a file are the pieces of.
//!
//! Shots come band by band, from below; in a band trapezoid by trapezoid; and of a trapezoid row of pieces by row of pieces,
//! each from the left. A row of pieces is one trapezoid with one that has the same lines at its left and right and ends where it
//! begins: the last one, or, at the line between two bands, any of the band below.
ghost use Rattle.std.specs.Prelude.{IsTrue};
ghost use Rattle.depot.specs.Content.{ChangesLeftOnly};

use depot::Depot;
use geo_stream::NoMemory;
use half_grid::{Line, Trap};
use oas_lex::ShotFields;
use shot_reader::{delta_at, has_left, has_right, head_of, signed_at, trap_of, unsigned_at};
use std::alloc::Global;

/// How many shots of a file are looked at.
pub(crate) const MOST_SHOTS: u64 = 1_000_000;

/// How many bytes are read at once.
const CHUNK: usize = 65_536;

/// No record of a shot has this many bytes.
const LONG: usize = 100;

/// A warning is given of more than this many shots a trapezoid.
const RATIO: u64 = 10;

/// The first byte of END.
const END: u8 = 2;

/// Pieces from the left to the right of one trapezoid.
#[derive(Clone, Copy, PartialEq, Eq)]
struct Row {
    y0: i64,
    y1: i64,
    left: Line,
    right: Line,
}

impl Row {
    fn of(shot: &Trap) -> Row {
        Row {
            y0: shot.y0(),
            y1: shot.y1(),
            left: shot.left(),
            right: shot.right(),
        }
    }

    // Whether a piece is the next one of the row.
    fn is_before(&self, piece: &Row) -> bool {
        self.right == piece.left && self.y0 == piece.y0 && self.y1 == piece.y1
    }

    // Whether a row is the next one of the trapezoid.
    fn is_below(&self, row: &Row) -> bool {
        self.y1 == row.y0 && self.left == row.left && self.right == row.right
    }
}

// A number for a line, another one for each.
fn line_key(line: Line) -> (i64, u8) {
    match line {
        Line::Upright(c) => (c, 0),
        Line::Rising(c) => (c, 1),
        Line::Falling(c) => (c, 2),
    }
}

/// The lines at both sides of a row, as numbers in an order.
#[derive(Clone, Copy, PartialEq, Eq, PartialOrd, Ord)]
struct Sides {
    left: (i64, u8),
    right: (i64, u8),
}

impl Sides {
    fn of(row: &Row) -> Sides {
        Sides {
            left: line_key(row.left),
            right: line_key(row.right),
        }
    }
}

/// The trapezoids that the shots of a file so far are the pieces of.
#[derive(Drop)]
struct Tally {
    // how many rows a band has
    band: i64,
    // the row of the last shot, and the one before it
    row: Option<Row>,
    last: Option<Row>,
    // the line at the top of the current band, and the rows that end there
    top: i64,
    ending: Vec<Sides>,
    // the rows that end at the line below the current band, in order
    below: Vec<Sides>,
    shots: u64,
    traps: u64,
}

impl Tally {
    fn new(alloc: Global, band: i64) -> Tally {
        Tally {
            band: band.max(1),
            row: None,
            last: None,
            top: i64::MIN,
            ending: Vec::new(alloc),
            below: Vec::new(alloc),
            shots: 0,
            traps: 0,
        }
    }

    // The line at the top of the band that has this one at its bottom or in it.
    fn top_above(&self, y: i64) -> i64 {
        let past = y.checked_rem_euclid(self.band).unwrap_or(0);
        y.saturating_sub(past).saturating_add(self.band)
    }

    // Begins the band of a row, where it isn't the current one.
    fn enter_band(&mut self, alloc: Global, row: &Row) {
        if row.y0 < self.top {
            return;
        }
        let top = self.top_above(row.y0);
        let bottom = top.saturating_sub(self.band);
        let ended = std::mem::replace(&mut self.ending, Vec::new(alloc));
        if bottom == self.top {
            self.below = ended;
            self.below.sort_unstable();
        } else {
            self.below = Vec::new(alloc);
        }
        self.top = top;
    }

    // Whether a row that begins at the bottom of the current band goes on with one of the band below.
    fn goes_on(&self, row: &Row) -> bool {
        if row.y0 != self.top.saturating_sub(self.band) {
            return false;
        }
        let sides = Sides::of(row);
        let place = self.below.partition_point(|other| *other < sides);
        self.below.get(place) == Some(&sides)
    }

    // Takes a whole row.
    fn take_row(&mut self, alloc: Global, row: &Row) -> Result<(), NoMemory> {
        self.enter_band(alloc, row);
        let is_new = match self.last {
            Some(last) => !last.is_below(row) && !self.goes_on(row),
            None => true,
        };
        if is_new {
            self.traps = self.traps.saturating_add(1);
        }
        if row.y1 == self.top {
            self.ending.push(Sides::of(row))?;
        }
        self.last = Some(*row);
        Ok(())
    }

    // Takes the row of the last shot, where there are no shots after it.
    fn end(&mut self, alloc: Global) -> Result<(), NoMemory> {
        match self.row {
            Some(row) => self.take_row(alloc, &row),
            None => Ok(()),
        }
    }

    // Takes a shot.
    fn take(&mut self, alloc: Global, shot: &Trap) -> Result<(), NoMemory> {
        self.shots = self.shots.saturating_add(1);
        let piece = Row::of(shot);
        if let Some(row) = self.row {
            if row.is_before(&piece) {
                self.row = Some(Row {
                    right: piece.right,
                    ..row
                });
                return Ok(());
            }
            self.take_row(alloc, &row)?;
        }
        self.row = Some(piece);
        Ok(())
    }
}

// Whether the record of this first byte is one of a shot.
fn begins_shot(first: Option<u8>) -> bool {
    match first {
        Some(byte) => byte != END,
        None => false,
    }
}

// The shot whose record is at an offset, and the offset after it. None where there is none.
fn shot_at(bytes: &[u8], at: usize) -> Option<(Trap, usize)> {
    let id = bytes.get(at).copied()?;
    if !begins_shot(Some(id)) {
        return None;
    }
    let (layer, after_layer) = unsigned_at(bytes, at.saturating_add(2));
    let (datatype, after_datatype) = unsigned_at(bytes, after_layer);
    let (width, after_width) = unsigned_at(bytes, after_datatype);
    let (height, after_height) = unsigned_at(bytes, after_width);
    let (left_delta, after_left) = delta_at(bytes, after_height, has_left(id));
    let (right_delta, after_right) = delta_at(bytes, after_left, has_right(id));
    let (x, after_x) = signed_at(bytes, after_right);
    let (y, next) = signed_at(bytes, after_x);
    if bytes.len() < next {
        return None;
    }
    let shot = trap_of(&ShotFields {
        layer,
        datatype,
        width,
        height,
        left_delta,
        right_delta,
        x,
        y,
    })?;
    Some((shot, next))
}

impl Tally {
    // Whether nothing more has to be known of a file with so many shots: all are taken, or there are too many trapezoids for
    // a warning.
    fn is_enough(&self, shots: u64) -> bool {
        shots <= self.shots || shots <= self.traps.saturating_mul(RATIO)
    }

    // Takes the shots in a piece of a file with so many of them, and answers the offset after these. After this offset there
    // are less bytes than a record may have, or none that is looked at.
    fn take_all(
        &mut self,
        alloc: Global,
        bytes: &[u8],
        shots: u64,
        is_last: bool,
    ) -> Result<Option<usize>, NoMemory> {
        let mut at = 0usize;
        for _shot in 0..bytes.len() {
            let left = bytes.len().saturating_sub(at);
            if left < LONG && !is_last {
                return Ok(Some(at));
            }
            let Some((shot, next)) = shot_at(bytes, at) else {
                return Ok(None);
            };
            self.take(alloc, &shot)?;
            if self.is_enough(shots) {
                return Ok(None);
            }
            at = next;
        }
        Ok(Some(at))
    }
}

// The bytes from an offset on.
fn rest_of(alloc: Global, bytes: &[u8], at: usize) -> Result<Vec<u8>, NoMemory> {
    let mut rest = Vec::new(alloc);
    rest.extend_from_slice(bytes.get(at..).unwrap_or(&[]))?;
    Ok(rest)
}

// The bytes after the head of a shot file, of its first bytes.
fn after_head(bytes: &[u8]) -> Option<usize> {
    let (_unit, length) = head_of(bytes)?;
    Some(length)
}

// The bytes of a started file that are looked at.
#[derive(Drop)]
struct Looked {
    chunk: Vec<u8>,
    // what was read of the file and isn't taken yet
    bytes: Vec<u8>,
    is_first: bool,
}

impl Looked {
    fn new(alloc: Global) -> Result<Looked, NoMemory> {
        Ok(Looked {
            chunk: vec![in alloc; 0u8; CHUNK]?,
            bytes: Vec::new(alloc),
            is_first: true,
        })
    }

    // Reads the next bytes, and answers how many these are. None where that is refused.
    fn read<D: Depot>(&mut self, depot: &mut D) -> Result<Option<usize>, NoMemory>
        ensures reads { IsTrue D.tells → ChangesLeftOnly (D.content depot.old) (D.content depot.new) }
    {
        match depot.read(&mut self.chunk) {
            Ok(count) => {
                self.bytes
                    .extend_from_slice(self.chunk.get(..count).unwrap_or(&[]))?;
                Ok(Some(count))
            }
            Err(_refused) => Ok(None),
        }
    }

    // Takes the shots of what was read of a file with so many of them. Whether more is to be read.
    fn take(
        &mut self,
        alloc: Global,
        tally: &mut Tally,
        shots: u64,
        is_last: bool,
    ) -> Result<bool, NoMemory> {
        if self.is_first {
            let Some(length) = after_head(&self.bytes) else {
                return Ok(false);
            };
            self.bytes = rest_of(alloc, &self.bytes, length)?;
            self.is_first = false;
        }
        let taken = tally.take_all(alloc, &self.bytes, shots, is_last)?;
        if let Some(at) = taken {
            self.bytes = rest_of(alloc, &self.bytes, at)?;
        }
        Ok(taken.is_some() && !is_last)
    }
}

// Takes the shots of the started file, of which there are so many.
fn take_started<D: Depot>(
    alloc: Global,
    depot: &mut D,
    tally: &mut Tally,
    shots: u64,
) -> Result<(), NoMemory>
    ensures reads { IsTrue D.tells → ChangesLeftOnly (D.content depot.old) (D.content depot.new) }
{
    let mut looked = Looked::new(alloc)?;
    for _chunk in 0..shots {
        let Some(count) = looked.read(depot)? else {
            return Ok(());
        };
        if !looked.take(alloc, tally, shots, count == 0)? {
            return Ok(());
        }
    }
    Ok(())
}

/// How many shots of a file were looked at, and how many trapezoids they are the pieces of.
#[derive(Clone, Copy)]
pub(crate) struct Pieces {
    /// The shots.
    pub(crate) shots: u64,
    /// The trapezoids.
    pub(crate) traps: u64,
}

/// How many trapezoids the shots of a file are the pieces of, where the shots are more than ten times as many. The first
/// shots are looked at, up to a limit, of a file with so many shots in bands of so many rows.
pub(crate) fn many_pieces<D: Depot>(
    alloc: Global,
    depot: &mut D,
    file: &str,
    shots: u64,
    band: i64,
) -> Result<Option<Pieces>, NoMemory>
    ensures reads { IsTrue D.tells → ChangesLeftOnly (D.content depot.old) (D.content depot.new) }
{
    match depot.start_read(file) {
        Ok(()) => {}
        Err(_refused) => return Ok(None),
    }
    let wanted = shots.min(MOST_SHOTS);
    let mut tally = Tally::new(alloc, band);
    take_started(alloc, depot, &mut tally, wanted)?;
    if tally.shots < wanted {
        return Ok(None);
    }
    // the last row of a part of a file may not be whole
    if wanted == shots {
        tally.end(alloc)?;
    }
    if tally.shots <= tally.traps.saturating_mul(RATIO) {
        return Ok(None);
    }
    Ok(Some(Pieces {
        shots: tally.shots,
        traps: tally.traps.max(1),
    }))
}
