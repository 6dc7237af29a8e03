//! Names of cells, by number and by text.
ghost use Rattle.std.specs.Prelude.{◌≡◌, ◌<◌, ◌^◌, ℕ, List, [], ◌∷◌, Some, None, Ok, Err, OnOk, IfErr, IfOk, IfSome, IfNone};
ghost use Rattle.geo_stream.specs.Refusals.{IfFault};
ghost use Rattle.geo_stream.specs.declared.refusal.Refusal.TheVariants.{Fault};
ghost use Rattle.layout_model.specs.Names.{IsName};
ghost use Rattle.oas_record.specs.declared.records.OasRecord.{OasRecord as ARecord};
ghost use Rattle.oas_reader.specs.declared.refusing.OasBad.TheVariants as bads;
ghost use Rattle.oas_reader.specs.Items.{Item, records_in, text_in};
ghost use Rattle.oas_reader.specs.Names.{conflict_of, name_called as the_name_called, first_unknown, first_named, cell_name, cell_called, is_none};
ghost use Rattle.oas_reader.specs.Naming.{IsSpan, IsCalledWithin, AreCalledWithin, IsNoName, cell_name_record, cell_record, IsConflict, conflict_in, given_in, first_marked, HaveSpans, Calls, Mentions, AreNamesOf, AreCellsOf, IsTwin};
ghost use Rattle.oas_reader.specs.Reading.{item};
ghost use Rattle.oas_reader.specs.Rules.{IsNameWhereWritten};
ghost use Rattle.indexmap.specs.IndexMap.{hasher_of};
ghost use Rattle.keyed_hash.specs.Keys.{hasher_after, start_of};

use crate::refusing::OasBad;
use geo_stream::{NoMemory, Refusal};
use indexmap::IndexMap;
use keyed_hash::KeyedState;
use layout_model::{Name, NameBad};
use oas_record::Called;
use std::alloc::Global;

/// The rule of cells' names.
const NAME_RULE: u8 = 2;

/// The rule of cells' numbers.
const NUMBER_RULE: u8 = 3;

// A CELLNAME record: where it starts, and where its string does and ends.
#[derive(Clone, Copy)]
struct Given {
    at: usize,
    first: usize,
    next: usize,
}

// The first CELLNAME record: where it starts, and whether it writes its number.
#[derive(Clone, Copy)]
struct Numbering {
    at: usize,
    is_written: bool,
}

/// The names of the records so far. The hashes of the tables depend on all bytes of the file.
#[derive(Drop)]
pub(crate) struct Names<'a> {
    // Those that CELLNAME records give, by their numbers.
    given: IndexMap<u64, Given, KeyedState>,
    numbering: Option<Numbering>,
    // How many CELLNAME records don't write their number.
    counted: u64,
    // The names of the cells that write theirs, each with the offset of its CELL record.
    cells: IndexMap<&'a [u8], usize, KeyedState>,
    // The numbers that CELL and PLACEMENT records write, each with the offset of the first such record, in the order of
    // the file.
    used: IndexMap<u64, usize, KeyedState>,
}

/// Looks at what is written of a cell's name. That it is none is reported even where memory runs out.
pub(crate) fn look_at_name(
    alloc: Global,
    bytes: &[u8],
    first: usize,
    next: usize,
    at: usize,
) -> Result<(), Refusal<OasBad>>
    requires { IsSpan bytes.now (first, next) }
    ensures ok { OnOk result (IsName (text_in bytes.now (first, next))) }
    ensures bad { IfFault result (IsNoName (text_in bytes.now (first, next)) at) }
    ensures no_name { (IsName (text_in bytes.now (first, next)) → ⊥) → result ≡ Err (Fault (bads.Value at 2)) }
{
    match Name::new(alloc, &bytes[first..next]) {
        Ok(_) => Ok(()),
        Err(NameBad::Form) => Err(Refusal::Fault(OasBad::Value(at, NAME_RULE))),
        Err(NameBad::NoMemory) => Err(Refusal::NoMemory),
    }
}

/// Looks at a name where its string is written.
pub(crate) fn look_at_called(
    alloc: Global,
    bytes: &[u8],
    called: Option<Called>,
    at: usize,
) -> Result<(), Refusal<OasBad>>
    requires { AreCalledWithin bytes.now called }
    ensures ok { OnOk result (IsNameWhereWritten bytes.now called) }
    ensures bad { IfFault result (λ bad. (IsNameWhereWritten bytes.now called → ⊥) × (bad ≡ bads.Value at 2)) }
    ensures no_name { (IsNameWhereWritten bytes.now called → ⊥) → result ≡ Err (Fault (bads.Value at 2)) }
{
    match called {
        Some(Called::Text(first, next)) => look_at_name(alloc, bytes, first, next, at),
        _ => Ok(()),
    }
}

impl<'a> Names<'a> {
    /// No names. The file has these bytes.
    pub(crate) fn new(alloc: Global, file: &[u8]) -> Names<'a>
        ensures names { (bytes : List ℕ) → AreNamesOf bytes [] result }
        ensures given_key { start_of (hasher_of result.given) ≡ hasher_after file.now }
        ensures cells_key { start_of (hasher_of result.cells) ≡ hasher_after file.now }
        ensures used_key { start_of (hasher_of result.used) ≡ hasher_after file.now }
    {
        let key = KeyedState::of(file);
        Names {
            given: IndexMap::with_hasher(alloc, key),
            numbering: None,
            counted: 0,
            cells: IndexMap::with_hasher(alloc, key),
            used: IndexMap::with_hasher(alloc, key),
        }
    }

    /// What the hashes of the tables begin with.
    pub(crate) fn key(&self) -> KeyedState
        ensures { result ≡ hasher_of self.now.cells }
    {
        *self.cells.hasher()
    }

    // The offset of the first CELLNAME record that conflicts with one of this number.
    fn conflict(&self, is_written: bool, number: u64) -> Option<usize>
        ensures { result ≡ conflict_in self.now is_written number }
    {
        if let Some(numbering) = self.numbering {
            if numbering.is_written != is_written {
                return Some(numbering.at);
            }
        }
        match self.given.get(&number) {
            Some(given) => Some(given.at),
            None => None,
        }
    }

    /// Takes a CELLNAME record at this offset, with its number where it writes it.
    pub(crate) fn give(
        &mut self,
        name: (usize, usize),
        written: Option<u64>,
        at: usize,
    ) -> Result<(), Refusal<OasBad>>
        requires { self.old.counted < 2 ^ 63 }
        ensures names { (bytes : List ℕ) (past : List Item) → AreNamesOf bytes past self.old
            → OnOk result (AreNamesOf bytes (item at (cell_name_record name written) ∷ past) self.new) }
        ensures spans { (bytes : List ℕ) → HaveSpans bytes self.old → IsSpan bytes name → OnOk result (HaveSpans bytes self.new) }
        ensures new { (bytes : List ℕ) (past : List Item) → AreNamesOf bytes past self.old
            → OnOk result (conflict_of bytes past (cell_name_record name written) ≡ None) }
        ensures twice { (bytes : List ℕ) (past : List Item) → AreNamesOf bytes past self.old
            → IfFault result (IsConflict bytes past (cell_name_record name written) at) }
    {
        let number = match written {
            Some(number) => number,
            None => self.counted,
        };
        let is_written = written.is_some();
        if let Some(first) = self.conflict(is_written, number) {
            return Err(Refusal::Fault(OasBad::Names(first, at)));
        }
        if !is_written {
            self.counted += 1;
        }
        if self.numbering.is_none() {
            self.numbering = Some(Numbering { at, is_written });
        }
        let given = Given {
            at,
            first: name.0,
            next: name.1,
        };
        match self.given.insert(number, given) {
            Ok(_) => Ok(()),
            Err(_) => Err(Refusal::NoMemory),
        }
    }

    /// Takes what a CELL record at this offset calls its cell.
    pub(crate) fn begin(
        &mut self,
        bytes: &'a [u8],
        called: Called,
        at: usize,
    ) -> Result<(), Refusal<OasBad>>
        requires { IsCalledWithin bytes.now called }
        ensures names { (past : List Item) → AreNamesOf bytes.now past self.old
            → OnOk result (AreNamesOf bytes.now (item at (cell_record called) ∷ past) self.new) }
        ensures spans { HaveSpans bytes.now self.old → OnOk result (HaveSpans bytes.now self.new) }
        ensures new { (past : List Item) → AreNamesOf bytes.now past self.old
            → OnOk result (conflict_of bytes.now past (cell_record called) ≡ None) }
        ensures twice { (past : List Item) → AreNamesOf bytes.now past self.old
            → IfFault result (IsConflict bytes.now past (cell_record called) at) }
    {
        match called {
            Called::Number(number) => {
                self.mention(number, at)?;
                Ok(())
            }
            Called::Text(first, next) => {
                let name = &bytes[first..next];
                if let Some(earlier) = self.cells.get(name).copied() {
                    return Err(Refusal::Fault(OasBad::Names(earlier, at)));
                }
                match self.cells.insert(name, at) {
                    Ok(_) => Ok(()),
                    Err(_) => Err(Refusal::NoMemory),
                }
            }
        }
    }

    /// Takes a number that a record at this offset writes.
    pub(crate) fn mention(&mut self, number: u64, at: usize) -> Result<(), NoMemory>
        ensures names { (bytes : List ℕ) (past : List Item) (r : ARecord) → AreNamesOf bytes past self.old → Mentions bytes (records_in past) r number
            → OnOk result (AreNamesOf bytes (item at r ∷ past) self.new) }
        ensures given { OnOk result (self.new.given ≡ self.old.given) }
    {
        if self.used.get(&number).is_some() {
            return Ok(());
        }
        match self.used.insert(number, at) {
            Ok(_) => Ok(()),
            Err(_) => Err(NoMemory),
        }
    }

    /// Takes what a record at this offset calls the placed cell, where it writes it.
    pub(crate) fn place(&mut self, called: Option<Called>, at: usize) -> Result<(), NoMemory>
        ensures names { (bytes : List ℕ) (past : List Item) (r : ARecord) → AreNamesOf bytes past self.old → Calls bytes (records_in past) r called
            → OnOk result (AreNamesOf bytes (item at r ∷ past) self.new) }
        ensures given { OnOk result (self.new.given ≡ self.old.given) }
    {
        match called {
            None => Ok(()),
            Some(Called::Text(..)) => Ok(()),
            Some(Called::Number(number)) => self.mention(number, at),
        }
    }

    /// The bytes of the name that is called so, if there is one. All records of the file have been taken.
    pub(crate) fn name_called(&self, bytes: &'a [u8], called: Called) -> Option<&'a [u8]>
        requires spans { HaveSpans bytes.now self.now }
        requires called { IsCalledWithin bytes.now called }
        ensures some { (past : List Item) → AreNamesOf bytes.now past self.now
            → IfSome result (λ name. the_name_called bytes.now (records_in past) called ≡ Some name.now) }
        ensures none { (past : List Item) → AreNamesOf bytes.now past self.now
            → IfNone result (the_name_called bytes.now (records_in past) called ≡ None) }
    {
        match called {
            Called::Text(first, next) => Some(&bytes[first..next]),
            Called::Number(number) => match self.given.get(&number) {
                Some(given) => Some(&bytes[given.first..given.next]),
                None => None,
            },
        }
    }

    // The offset of the first record whose number no CELLNAME record gives.
    fn first_stray(&self) -> Option<usize>
        ensures { result ≡ first_marked (λ number. is_none (given_in self.now number)) self.now.used.entries }
    {
        for (number, at) in self.used.iter() {
            if self.given.get(number).is_none() {
                return Some(*at);
            }
        }
        None
    }

    /// Refuses the first record whose number no CELLNAME record gives.
    pub(crate) fn all_known(&self) -> Result<(), OasBad>
        ensures known { (bytes : List ℕ) (past : List Item) → AreNamesOf bytes past self.now
            → OnOk result (first_unknown bytes (records_in past) past ≡ None) }
        ensures unknown { (bytes : List ℕ) (past : List Item) → AreNamesOf bytes past self.now
            → IfErr result (λ bad. (at : ℕ) × (first_unknown bytes (records_in past) past ≡ Some at) × (bad ≡ bads.Value at 3)) }
    {
        match self.first_stray() {
            Some(at) => Err(OasBad::Value(at, NUMBER_RULE)),
            None => Ok(()),
        }
    }
}

/// The cells' names after END, each with the offset of its CELL record.
#[derive(Drop)]
pub(crate) struct Cells<'a> {
    places: IndexMap<&'a [u8], usize, KeyedState>,
}

impl<'a> Cells<'a> {
    /// No cells. The hash of the table begins with this key.
    pub(crate) fn new(alloc: Global, key: KeyedState) -> Cells<'a>
        ensures cells { (bytes : List ℕ) (all : List ARecord) → AreCellsOf bytes all [] result }
        ensures key { hasher_of result.places ≡ key }
    {
        Cells {
            places: IndexMap::with_hasher(alloc, key),
        }
    }

    /// Takes the name of the cell whose CELL record is at this offset, which comes after those before.
    pub(crate) fn enter(&mut self, name: &'a [u8], at: usize) -> Result<(), Refusal<OasBad>>
        ensures cells { (bytes : List ℕ) (all : List ARecord) (past : List Item) (r : ARecord) → AreCellsOf bytes all past self.old
            → cell_name bytes all (cell_called r) ≡ Some name.now → OnOk result (AreCellsOf bytes all (item at r ∷ past) self.new) }
        ensures new { (bytes : List ℕ) (all : List ARecord) (past : List Item) → AreCellsOf bytes all past self.old
            → OnOk result (first_named bytes all (Some name.now) past ≡ None) }
        ensures twin { (bytes : List ℕ) (all : List ARecord) (past : List Item) → AreCellsOf bytes all past self.old
            → IfFault result (IsTwin bytes all past name.now at) }
    {
        if let Some(earlier) = self.places.get(name).copied() {
            return Err(Refusal::Fault(OasBad::Names(earlier, at)));
        }
        match self.places.insert(name, at) {
            Ok(_) => Ok(()),
            Err(_) => Err(Refusal::NoMemory),
        }
    }
}

/// The name with these bytes.
pub(crate) fn name_of(alloc: Global, bytes: &[u8]) -> Result<Name, NoMemory>
    ensures { IfOk result (λ name. name ≡ bytes.now) }
{
    match Name::new(alloc, bytes) {
        Ok(name) => Ok(name),
        Err(_) => Err(NoMemory),
    }
}
