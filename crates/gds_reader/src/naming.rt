//! Names in records, and the table of the structures' names.
ghost use Rattle.std.specs.Prelude.{◌≡◌, ◌+◌, ℕ, List, [], ◌∷◌, Some, None, if◌then◌else◌, OnOk, Err};
ghost use Rattle.geo_stream.specs.Refusals.{IfFault};
ghost use Rattle.geo_stream.specs.declared.refusal.Refusal.TheVariants.{NoMemory as Wanting};
ghost use Rattle.gds_record.specs.declared.kinds.Kind.TheVariants.{StrName};
ghost use Rattle.gds_record.specs.declared.records.Record.{Record as ARecord};
ghost use Rattle.gds_reader.specs.Elements.{IsHeld};
ghost use Rattle.gds_reader.specs.Names.{same_name, place_of as the_place_of, place_in, AreNamesOf, IsTwice};
ghost use Rattle.gds_reader.specs.Values.{name_in, without_nuls};
ghost use Rattle.indexmap.specs.IndexMap.{hasher_of};
ghost use Rattle.keyed_hash.specs.Keys.{hasher_after, start_of};

use crate::refusing::GdsBad;
use gds_record::{Kind, Record};
use geo_stream::{NoMemory, Refusal};
use indexmap::IndexMap;
use keyed_hash::KeyedState;
use std::alloc::Global;

// The bytes without the NULs at their end.
fn trimmed(bytes: &[u8]) -> &[u8]
    ensures { result.now ≡ without_nuls bytes.now }
{
    let mut end = bytes.len();
    while end > 0 && bytes[end - 1] == 0 {
        end -= 1;
    }
    &bytes[..end]
}

/// The name in a record of text: its bytes without the NULs at their end.
pub(crate) fn name_of(bytes: &[u8], current: Record) -> &[u8]
    requires { IsHeld bytes.now current }
    ensures { result.now ≡ name_in bytes.now current }
{
    trimmed(&bytes[current.first..current.next])
}

/// The names of the structures so far, each with the offset of its STRNAME. The table's hash depends on all bytes of
/// the file.
#[derive(Drop)]
pub(crate) struct Names<'a> {
    places: IndexMap<&'a [u8], usize, KeyedState>,
}

impl<'a> Names<'a> {
    /// No names. The file has these bytes.
    pub(crate) fn new(alloc: Global, file: &[u8]) -> Names<'a>
        ensures names { (bytes : List ℕ) → AreNamesOf bytes [] result }
        ensures key { start_of (hasher_of result.places) ≡ hasher_after file.now }
    {
        Names {
            places: IndexMap::with_hasher(alloc, KeyedState::of(file)),
        }
    }

    /// The offset of the STRNAME with this name, if there is one.
    pub(crate) fn place_of(&self, name: &[u8]) -> Option<usize>
        ensures { (bytes : List ℕ) (past : List ARecord) → AreNamesOf bytes past self.now
            → result ≡ the_place_of bytes name.now past }
    {
        self.places.get(name).copied()
    }

    /// Adds a name that isn't there, whose STRNAME is at this offset.
    pub(crate) fn put(&mut self, name: &'a [u8], at: usize) -> Result<(), NoMemory>
        ensures ok { (bytes : List ℕ) (past : List ARecord) → AreNamesOf bytes past self.old
            → OnOk result ((other : List ℕ) → place_in self.new other
            ≡ (if same_name name.now other then Some at else the_place_of bytes other past)) }
    {
        match self.places.insert(name, at) {
            Ok(_) => Ok(()),
            Err(_) => Err(NoMemory),
        }
    }
}

/// Adds the name of a STRNAME, which is at this offset; other records have none.
#[inline(always)]
pub(crate) fn enter<'a>(
    names: &mut Names<'a>,
    bytes: &'a [u8],
    current: Record,
    at: usize,
) -> Result<(), Refusal<GdsBad>>
    requires held { IsHeld bytes.now current }
    requires at { current.first ≡ at + 4 }
    ensures names { (past : List ARecord) → AreNamesOf bytes.now past names.old
        → OnOk result (AreNamesOf bytes.now (current ∷ past) names.new) }
    ensures new { (past : List ARecord) → AreNamesOf bytes.now past names.old → current.kind ≡ StrName
        → OnOk result (the_place_of bytes.now (name_in bytes.now current) past ≡ None) }
    ensures twice { (past : List ARecord) → AreNamesOf bytes.now past names.old
        → IfFault result (IsTwice bytes.now past current at) }
    ensures memory { (past : List ARecord) → AreNamesOf bytes.now past names.old → result ≡ Err Wanting
        → the_place_of bytes.now (name_in bytes.now current) past ≡ None }
{
    if current.kind != Kind::StrName {
        return Ok(());
    }
    let name = name_of(bytes, current);
    if let Some(first) = names.place_of(name) {
        return Err(Refusal::Fault(GdsBad::Twice(first, at)));
    }
    names.put(name, at)?;
    Ok(())
}
