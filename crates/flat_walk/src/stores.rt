//! Lists of pieces, kept one after another in one block of memory.
ghost use Rattle.std.specs.Prelude.{◌≡◌, ◌<◌, ◌^◌, ◌++◌, [], ◌∷◌, List, length, slice_get, Some, IfOk, IsTrue, OnOk, OnErr, if◌then◌else◌};
ghost use Rattle.half_grid.specs.Trapezoids.{Trapezoid};
ghost use Rattle.flat_walk.specs.Kept.{Entry, alone, bare_ones};
ghost use Rattle.flat_walk.specs.PieceLists.{AreShots};
ghost use Rattle.flat_walk.specs.Stores.{entry_in, entry_of, number_from, seldom_place};

use crate::kept_pieces::ShortPiece;
use crate::piece_lists::PieceList;
use geo_stream::NoMemory;
use half_grid::Trap;
use std::alloc::Global;
use std::marker::Model;

// What is seldom: pieces with a number of more than 32 bits, or no pieces, of a shape and of so many more after it.
#[derive(Drop)]
enum Form {
    Wide(Vec<Trap>),
    Without(usize),
}

// Such an entry. Contracts see the pieces of the first shape, and how many shapes without pieces come after it.
#[derive(Drop)]
struct Seldom {
    form: Form,
}

impl Model for Seldom {
    ghost use Rattle.flat_walk.specs.Kept.{Entry};
    ghost use Rattle.flat_walk.specs.Stores.{entry_of};

    ghost Value = { Entry };

    ghost view = { λ seldom. entry_of seldom.form };
}

// Where an entry is: so many short pieces from one on, or at a place among what is seldom, by 32 bits and those above them.
#[derive(Clone, Copy)]
enum Place {
    Short(u32, u32),
    Seldom(u32, u32),
}

/// The pieces of a shape, or any number of shapes without pieces.
#[derive(Clone, Copy)]
pub(crate) struct EntryRef<'t> {
    /// The pieces of the first shape.
    pub(crate) pieces: PieceList<'t>,
    /// How many shapes without pieces come after it.
    pub(crate) more: usize,
}

/// Entries in order: each has the pieces of a shape, or stands for any number of shapes without pieces. An entry takes 12
/// bytes, and 20 for each piece whose numbers are of 32 bits. Contracts see the entries.
#[derive(Drop)]
pub(crate) struct PieceStore {
    pieces: Vec<ShortPiece>,
    seldom: Vec<Seldom>,
    places: Vec<Place>,
}

impl Model for PieceStore {
    ghost use Rattle.std.specs.Prelude.{List, map};
    ghost use Rattle.flat_walk.specs.Kept.{Entry};
    ghost use Rattle.flat_walk.specs.Stores.{place_entry, ArePlaces};

    ghost Value = { List Entry };

    ghost view = { λ store. map (place_entry store.pieces.items store.seldom.items) store.places.items };

    ghost invariant = { λ store. ArePlaces store.pieces.items store.seldom.items store.places.items };
}

// The greatest number of 32 bits.
const GREATEST: usize = (1 << 32) - 1;

// The least number that takes more than 32 bits.
const BEYOND: usize = 1 << 32;

// Puts the pieces at the end, up to the first that isn't short. Whether all are.
fn put_short(pieces: &mut Vec<ShortPiece>, traps: &[Trap]) -> Result<bool, NoMemory>
    ensures added { (added : List Trapezoid) × (pieces.new.items ≡ pieces.old.items ++ added) }
    ensures all { IfOk result (λ all. IsTrue all → pieces.new.items ≡ pieces.old.items ++ traps.now) }
{
    for trap in traps {
        let Some(piece) = ShortPiece::of(trap) else {
            return Ok(false);
        };
        pieces.push(piece)?;
    }
    Ok(true)
}

// The place of this number among what is seldom.
fn seldom_place(number: usize) -> Place
    ensures { result ≡ seldom_place number }
{
    Place::Seldom((number % BEYOND) as u32, (number / BEYOND) as u32)
}

// A number by its 32 lower bits and those above them.
fn number_from(low: u32, high: u32) -> usize
    ensures { result ≡ number_from low high }
{
    high as usize * BEYOND + low as usize
}

impl PieceStore {
    /// No entries. It takes no memory.
    pub(crate) fn new(alloc: Global) -> PieceStore
        ensures { result ≡ [] }
    {
        PieceStore {
            pieces: Vec::new(alloc),
            seldom: Vec::new(alloc),
            places: Vec::new(alloc),
        }
    }

    /// How many entries there are.
    pub(crate) fn len(&self) -> usize
        ensures { result ≡ length self.now }
    {
        self.places.len()
    }

    // Puts an entry at the end that is seldom.
    fn push_seldom(&mut self, form: Form) -> Result<(), NoMemory>
        ensures ok { OnOk result (self.new ≡ self.old ++ entry_of form ∷ []) }
        ensures err { OnErr result (self.new ≡ self.old) }
    {
        let number = self.seldom.len();
        self.seldom.push(Seldom { form })?;
        self.places.push(seldom_place(number))?;
        Ok(())
    }

    // Puts pieces at the end, if their numbers are of 32 bits each. Whether they are.
    fn push_short(&mut self, traps: &[Trap]) -> Result<bool, NoMemory>
        ensures ok { IfOk result (λ all. self.new ≡ (if all then self.old ++ alone traps.now ∷ [] else self.old)) }
        ensures err { OnErr result (self.new ≡ self.old) }
    {
        let first = self.pieces.len();
        let count = traps.len();
        if count > GREATEST || first > GREATEST {
            return Ok(false);
        }
        if !put_short(&mut self.pieces, traps)? {
            return Ok(false);
        }
        self.places.push(Place::Short(first as u32, count as u32))?;
        Ok(true)
    }

    /// Puts the pieces of a shape at the end. Refused, all is as before.
    pub(crate) fn push(&mut self, alloc: Global, traps: &[Trap]) -> Result<(), NoMemory>
        ensures ok { OnOk result (self.new ≡ self.old ++ alone traps.now ∷ []) }
        ensures err { OnErr result (self.new ≡ self.old) }
    {
        if self.push_short(traps)? {
            return Ok(());
        }
        let traps = Vec::from_slice(alloc, traps)?;
        self.push_seldom(Form::Wide(traps))
    }

    /// Puts a shape without pieces at the end, and so many more after it. Refused, all is as before.
    pub(crate) fn push_without(&mut self, more: usize) -> Result<(), NoMemory>
        ensures ok { OnOk result (self.new ≡ self.old ++ bare_ones more ∷ []) }
        ensures err { OnErr result (self.new ≡ self.old) }
    {
        self.push_seldom(Form::Without(more))
    }

    /// An entry.
    pub(crate) fn get(&self, number: usize) -> EntryRef<'_>
        requires { number < length self.now }
        ensures there { slice_get self.now number ≡ Some (entry_in result) }
        ensures shots { AreShots result.pieces }
    {
        match self.places[number] {
            Place::Short(first, count) => {
                let first = first as usize;
                let pieces = &self.pieces[first..first + count as usize];
                EntryRef {
                    pieces: PieceList::Short(pieces),
                    more: 0,
                }
            }
            Place::Seldom(low, high) => match &self.seldom[number_from(low, high)].form {
                Form::Wide(traps) => EntryRef {
                    pieces: PieceList::Wide(traps.as_slice()),
                    more: 0,
                },
                Form::Without(more) => EntryRef {
                    pieces: PieceList::none(),
                    more: *more,
                },
            },
        }
    }
}
