//! Which files are read and written, what is counted, and what is put in place when.
ghost use Rattle.std.specs.Prelude.{◌≡◌, ◌≤◌, ◌<◌, ◌++◌, [], None, Some, IsTrue, IsSome, IsNone, IsSomeAnd, IfSome, IfOk, OnOk, OnErr, Err, ℕ, string_bytes, length, take};
ghost use Rattle.depot.specs.Keeping.{IsSoundPart, IsSound, IsPlaced, IsBegun};
ghost use Rattle.depot.specs.Counts.{no_counts};
ghost use Rattle.depot.specs.Counting.{CountsReads, CountsWrites};
ghost use Rattle.depot.specs.Tallies.{tally_counts};
ghost use Rattle.depot.specs.Shelves.{with_reading, with_writing, with_new, with_part, KeepsReading, IsOpened, IsNotedAsRead, IsAmong, IsNoneOf, ReadsOn, WritesOn, IsWholeOrAsBefore};

use crate::disk::{Disk, FileId, Target};
use crate::fault::{FaultCause, OUT_OF_MEMORY, SystemFault, Tally};
use crate::outside::DepotBad;
use std::alloc::{AllocError, Global};
use std::fs::Permissions;
use std::io::ErrorKind;

/// How many files that are in the way a new one passes by.
const MOST_LEFTOVERS: u32 = 1000;

// A new file that isn't in its place yet.
#[derive(Drop)]
struct Part {
    part: String,
    path: String,
}

// What is being written, under the name as it was given; where there is no part, writes go straight to what the name is.
#[derive(Drop)]
struct Output {
    name: String,
    part: Option<Part>,
}

/// The books over a disk. A file is written beside its place, and put there once it is whole: when the next one is started
/// or something is said. Once a call was refused nothing more is put in its place.
#[derive(Drop)]
pub(crate) struct Keeper<D: Disk + Drop> {
    alloc: Global,
    pub(crate) disk: D,
    // the name of what is being read
    source: Option<String>,
    output: Option<Output>,
    read: Vec<FileId>,
    written: Vec<FileId>,
    leftovers: Vec<String>,
    gives_up_at: Option<&'static [u8]>,
    pub(crate) tally: Tally,
}

// The name of a new file beside its place.
fn part_name(alloc: Global, path: &str, number: u32) -> Result<String, AllocError> {
    format!(in alloc; "{path}.nettletide-part{number}")
}

// What was to be kept was kept, or memory was wanting for it.
fn kept(is_kept: bool) -> Result<(), FaultCause> {
    if is_kept { Ok(()) } else { Err(OUT_OF_MEMORY) }
}

// Puts a file after these.
fn note(files: &mut Vec<FileId>, file: FileId) -> Result<(), FaultCause>
    ensures { OnOk result (IsAmong files.new.items file) }
{
    match files.push(file) {
        Ok(()) => Ok(()),
        Err(_wanting) => Err(OUT_OF_MEMORY),
    }
}

// The file is among these.
fn is_among(files: &[FileId], file: FileId) -> bool
    ensures among { IsTrue result → IsAmong files.now file }
    ensures none { (IsTrue result → ⊥) → IsNoneOf files.now file }
{
    files.contains(&file)
}

impl<D: Disk + Drop> Keeper<D> {
    /// Nothing was read, written or refused.
    pub(crate) fn new(alloc: Global, disk: D) -> Keeper<D>
        ensures counts { tally_counts result.tally ≡ no_counts }
        ensures output { IsNone result.output }
        ensures disk { result.disk ≡ disk }
        ensures read { result.read.items ≡ [] }
        ensures written { result.written.items ≡ [] }
    {
        Keeper {
            alloc,
            disk,
            source: None,
            output: None,
            read: Vec::new(alloc),
            written: Vec::new(alloc),
            leftovers: Vec::new(alloc),
            gives_up_at: None,
            tally: Tally::new(),
        }
    }

    /// When these words are said, what is being written isn't whole.
    pub(crate) fn give_up_at(&mut self, words: &'static [u8])
        ensures disk { self.new.disk ≡ self.old.disk }
        ensures tally { self.new.tally ≡ self.old.tally }
        ensures output { self.new.output ≡ self.old.output }
    {
        self.gives_up_at = Some(words);
    }

    /// The first fault.
    pub(crate) fn fault(&self) -> Option<&SystemFault> {
        self.tally.first()
    }

    /// The names of the files that were in the way of new ones.
    pub(crate) fn leftovers(&self) -> &[String] {
        &self.leftovers
    }

    /// Starts to read a file.
    pub(crate) fn start_read(&mut self, name: &str) -> Result<(), DepotBad>
        ensures started { OnOk result (IsSome (D.shelf self.new.disk).reading) }
        ensures bytes { OnOk result (IsTrue D.tells
            → IsOpened (D.shelf self.old.disk) name.now (D.shelf self.new.disk)) }
        ensures noted { OnOk result (IsTrue D.tells
            → IsNotedAsRead ((D.shelf self.old.disk).ids name.now) self.old.written.items self.new.read.items) }
        ensures refused { OnErr result ((D.shelf self.new.disk).reading ≡ None) }
        ensures rest { D.shelf self.new.disk ≡ with_reading (D.shelf self.old.disk) (D.shelf self.new.disk).reading }
        ensures output { self.new.output ≡ self.old.output }
        ensures written { self.new.written ≡ self.old.written }
        ensures counts { CountsReads (tally_counts self.old.tally) (tally_counts self.new.tally) result }
    {
        let opened = self.disk.open(name);
        let Ok(name) = String::from_str(self.alloc, name) else {
            self.disk.stop_read();
            return Err(self.tally.refuse());
        };
        match opened {
            Ok(id) => self.start_source(name, id),
            Err(error) => Err(
                self.tally
                    .read_fault(Some(name), FaultCause::System(error.kind())),
            ),
        }
    }

    // Reads on from the file that was opened, if it isn't one that was written.
    fn start_source(&mut self, name: String, id: Option<FileId>) -> Result<(), DepotBad>
        ensures noted { OnOk result (IsNotedAsRead id self.old.written.items self.new.read.items) }
        ensures started { OnOk result (self.new.disk ≡ self.old.disk) }
        ensures refused { OnErr result (D.shelf self.new.disk ≡ with_reading (D.shelf self.old.disk) None) }
        ensures output { self.new.output ≡ self.old.output }
        ensures written { self.new.written ≡ self.old.written }
        ensures counts { CountsReads (tally_counts self.old.tally) (tally_counts self.new.tally) result }
    {
        match self.note_read(id) {
            Ok(()) => {
                self.source = Some(name);
                Ok(())
            }
            Err(cause) => {
                self.disk.stop_read();
                Err(self.tally.read_fault(Some(name), cause))
            }
        }
    }

    // Notes that a file is read. One that was written is refused.
    fn note_read(&mut self, id: Option<FileId>) -> Result<(), FaultCause>
        ensures noted { OnOk result (IsNotedAsRead id self.old.written.items self.new.read.items) }
        ensures disk { self.new.disk ≡ self.old.disk }
        ensures tally { self.new.tally ≡ self.old.tally }
        ensures output { self.new.output ≡ self.old.output }
        ensures written { self.new.written ≡ self.old.written }
    {
        let Some(id) = id else {
            return Ok(());
        };
        if is_among(&self.written, id) {
            return Err(FaultCause::AlreadyWritten);
        }
        if !is_among(&self.read, id) {
            return note(&mut self.read, id);
        }
        Ok(())
    }

    /// Reads on from the file.
    pub(crate) fn read(&mut self, buf: &mut [u8]) -> Result<usize, DepotBad>
        ensures bound { IfOk result (λ n. n ≤ length buf.old) }
        ensures bytes { ReadsOn (D.shelf self.old.disk).reading (D.shelf self.new.disk).reading result buf.new }
        ensures rest { D.shelf self.new.disk ≡ with_reading (D.shelf self.old.disk) (D.shelf self.new.disk).reading }
        ensures output { self.new.output ≡ self.old.output }
        ensures written { self.new.written ≡ self.old.written }
        ensures read { self.new.read ≡ self.old.read }
        ensures counts { CountsReads (tally_counts self.old.tally) (tally_counts self.new.tally) result }
    {
        match self.disk.read(buf) {
            Ok(count) => Ok(count),
            Err(error) => Err(
                self.tally
                    .read_fault(self.source.take(), FaultCause::System(error.kind())),
            ),
        }
    }

    /// Puts what was written in its place, and starts to write another file.
    pub(crate) fn start_write(&mut self, name: &str) -> Result<(), DepotBad>
        ensures whole { IsSound D.tells D.leads self.old.output (D.shelf self.old.disk)
            → IsWholeOrAsBefore (D.shelf self.old.disk) (D.shelf self.new.disk) }
        ensures placed { OnOk result (tally_counts self.old.tally ≡ no_counts
            → IsSound D.tells D.leads self.old.output (D.shelf self.old.disk)
            → IsPlaced D.tells self.old.output (D.shelf self.old.disk) (D.shelf self.new.disk)) }
        ensures stays { (tally_counts self.old.tally ≡ no_counts → ⊥)
            → IsSound D.tells D.leads self.old.output (D.shelf self.old.disk)
            → (D.shelf self.new.disk).files ≡ (D.shelf self.old.disk).files }
        ensures started { OnOk result (IsSomeAnd self.new.output (λ o. string_bytes o.name ≡ name.now)) }
        ensures begun { OnOk result (IfSome self.new.output (λ o. IsSome o.part → IsTrue D.tells
            → IsBegun self.old.read.items self.old.written.items self.new.written.items name.now (D.shelf self.new.disk))) }
        ensures sound { OnOk result (IsSound D.tells D.leads self.new.output (D.shelf self.new.disk)) }
        ensures refused { OnErr result (IsNone self.new.output) }
        ensures reading { IsSound D.tells D.leads self.old.output (D.shelf self.old.disk)
            → KeepsReading (D.shelf self.old.disk) (D.shelf self.new.disk) }
        ensures read { self.new.read ≡ self.old.read }
        ensures counts { CountsWrites (tally_counts self.old.tally) (tally_counts self.new.tally) result }
    {
        self.finish()?;
        let Ok(name) = String::from_str(self.alloc, name) else {
            return Err(self.tally.refuse());
        };
        match self.begin(name.as_str()) {
            Ok(part) => {
                self.output = Some(Output { name, part });
                Ok(())
            }
            Err(cause) => Err(self.tally.write_fault(Some(name), cause)),
        }
    }

    // Starts to write what the name is, or a new file that will take its place.
    fn begin(&mut self, name: &str) -> Result<Option<Part>, FaultCause>
        ensures sound { IfOk result (λ part. IfSome part (λ p. IsSoundPart D.tells D.leads name.now (D.shelf self.new.disk) p)) }
        ensures begun { IfOk result (λ part. IsSome part → IsTrue D.tells
            → IsBegun self.old.read.items self.old.written.items self.new.written.items name.now (D.shelf self.new.disk)) }
        ensures rest { D.shelf self.new.disk ≡ with_new (D.shelf self.old.disk) (D.shelf self.new.disk) }
        ensures tally { self.new.tally ≡ self.old.tally }
        ensures read { self.new.read ≡ self.old.read }
        ensures output { self.new.output ≡ self.old.output }
    {
        match self.disk.look(name)? {
            Target::Straight => Ok(None),
            Target::Free { path } => self.begin_part(path, None),
            Target::Taken {
                path,
                id,
                permissions,
            } => {
                self.may_replace(id)?;
                self.begin_part(path, Some(permissions))
            }
        }
    }

    // A file that was read or written in this run isn't written.
    fn may_replace(&self, id: FileId) -> Result<(), FaultCause>
        ensures { OnOk result (IsNoneOf self.now.read.items id × IsNoneOf self.now.written.items id) }
    {
        if is_among(&self.read, id) {
            return Err(FaultCause::IsInput);
        }
        if is_among(&self.written, id) {
            return Err(FaultCause::AlreadyWritten);
        }
        Ok(())
    }

    // Makes the new file of a path.
    fn begin_part(
        &mut self,
        path: String,
        like: Option<Permissions>,
    ) -> Result<Option<Part>, FaultCause>
        ensures path { IfOk result (λ part. IsSomeAnd part (λ p. p.path ≡ path)) }
        ensures made { IfOk result (λ part. IfSome part (λ p. IsTrue D.tells
            → ((D.shelf self.new.disk).beside ≡ string_bytes p.part)
            × ((D.shelf self.new.disk).writing ≡ Some (Some [])))) }
        ensures noted { OnOk result (IsTrue D.tells
            → IfSome (D.shelf self.new.disk).part (λ id. IsAmong self.new.written.items id)) }
        ensures rest { D.shelf self.new.disk ≡ with_new (D.shelf self.old.disk) (D.shelf self.new.disk) }
        ensures tally { self.new.tally ≡ self.old.tally }
        ensures read { self.new.read ≡ self.old.read }
        ensures output { self.new.output ≡ self.old.output }
    {
        let part = self.create(path.as_str())?;
        match self.prepare(like) {
            Ok(()) => Ok(Some(Part { part, path })),
            Err(cause) => {
                self.disk.take_away(part.as_str());
                Err(cause)
            }
        }
    }

    // Makes a file beside a path, under the first name that no file has.
    fn create(&mut self, path: &str) -> Result<String, FaultCause>
        ensures made { IfOk result (λ part. IsTrue D.tells
            → ((D.shelf self.new.disk).beside ≡ string_bytes part)
            × ((D.shelf self.new.disk).writing ≡ Some (Some []))) }
        ensures rest { D.shelf self.new.disk ≡ with_new (D.shelf self.old.disk) (D.shelf self.new.disk) }
        ensures tally { self.new.tally ≡ self.old.tally }
        ensures read { self.new.read ≡ self.old.read }
        ensures output { self.new.output ≡ self.old.output }
        ensures written { self.new.written ≡ self.old.written }
    {
        for number in 0..MOST_LEFTOVERS {
            let part = part_name(self.alloc, path, number)?;
            match self.disk.create(part.as_str()) {
                Ok(()) => return Ok(part),
                Err(error) if error.kind() == ErrorKind::AlreadyExists => {
                    kept(self.leftovers.push(part).is_ok())?;
                }
                Err(error) => return Err(FaultCause::System(error.kind())),
            }
        }
        Err(FaultCause::System(ErrorKind::AlreadyExists))
    }

    // Gives the new file its permissions, and notes that it is written.
    fn prepare(&mut self, like: Option<Permissions>) -> Result<(), FaultCause>
        ensures noted { OnOk result (IsTrue D.tells
            → IfSome (D.shelf self.new.disk).part (λ id. IsAmong self.new.written.items id)) }
        ensures rest { D.shelf self.new.disk ≡ with_part (D.shelf self.old.disk) (D.shelf self.new.disk).part }
        ensures tally { self.new.tally ≡ self.old.tally }
        ensures read { self.new.read ≡ self.old.read }
        ensures output { self.new.output ≡ self.old.output }
    {
        let id = self.disk.prepare(like)?;
        note(&mut self.written, id)
    }

    /// Writes on to the file. After a refusal it isn't written any more, and what was there before stays.
    pub(crate) fn write(&mut self, bytes: &[u8]) -> Result<usize, DepotBad>
        ensures bound { IfOk result (λ n. n ≤ length bytes.now) }
        ensures progress { IfOk result (λ n. 0 < length bytes.now → 0 < n) }
        ensures bytes { OnOk result (WritesOn (D.shelf self.old.disk).writing (D.shelf self.new.disk).writing result bytes.now) }
        ensures started { OnOk result (IsSome self.old.output × (self.new.output ≡ self.old.output)) }
        ensures refused { OnErr result (IsNone self.new.output) }
        ensures rest { IsSound D.tells D.leads self.old.output (D.shelf self.old.disk)
            → D.shelf self.new.disk ≡ with_writing (D.shelf self.old.disk) (D.shelf self.new.disk).writing }
        ensures read { self.new.read ≡ self.old.read }
        ensures written { self.new.written ≡ self.old.written }
        ensures counts { CountsWrites (tally_counts self.old.tally) (tally_counts self.new.tally) result }
    {
        if self.output.is_none() {
            return Err(self.tally.write_fault(None, FaultCause::NoneStarted));
        }
        match self.disk.write(bytes) {
            Ok(0) if !bytes.is_empty() => {
                Err(self.write_refused(FaultCause::System(ErrorKind::WriteZero)))
            }
            Ok(count) => Ok(count),
            Err(error) => Err(self.write_refused(FaultCause::System(error.kind()))),
        }
    }

    // What was written is given up.
    fn write_refused(&mut self, cause: FaultCause) -> DepotBad
        ensures rest { IsSound D.tells D.leads self.old.output (D.shelf self.old.disk)
            → D.shelf self.new.disk ≡ with_writing (D.shelf self.old.disk) (D.shelf self.new.disk).writing }
        ensures output { IsNone self.new.output }
        ensures read { self.new.read ≡ self.old.read }
        ensures written { self.new.written ≡ self.old.written }
        ensures counts { CountsWrites {T = ℕ} (tally_counts self.old.tally) (tally_counts self.new.tally) (Err result) }
    {
        let name = self.give_up();
        self.tally.write_fault(name, cause)
    }

    // Takes away what isn't in its place yet, and answers its name.
    fn give_up(&mut self) -> Option<String>
        ensures rest { IsSound D.tells D.leads self.old.output (D.shelf self.old.disk)
            → D.shelf self.new.disk ≡ with_writing (D.shelf self.old.disk) (D.shelf self.new.disk).writing }
        ensures output { IsNone self.new.output }
        ensures read { self.new.read ≡ self.old.read }
        ensures written { self.new.written ≡ self.old.written }
        ensures tally { self.new.tally ≡ self.old.tally }
    {
        let output = self.output.take()?;
        if let Some(part) = &output.part {
            self.disk.take_away(part.part.as_str());
        }
        Some(output.name)
    }

    /// Puts what was written in its place, or takes it away where a call was refused before.
    pub(crate) fn finish(&mut self) -> Result<(), DepotBad>
        ensures whole { IsSound D.tells D.leads self.old.output (D.shelf self.old.disk)
            → IsWholeOrAsBefore (D.shelf self.old.disk) (D.shelf self.new.disk) }
        ensures placed { OnOk result (tally_counts self.old.tally ≡ no_counts
            → IsSound D.tells D.leads self.old.output (D.shelf self.old.disk)
            → IsPlaced D.tells self.old.output (D.shelf self.old.disk) (D.shelf self.new.disk)) }
        ensures stays { (tally_counts self.old.tally ≡ no_counts → ⊥)
            → IsSound D.tells D.leads self.old.output (D.shelf self.old.disk)
            → (D.shelf self.new.disk).files ≡ (D.shelf self.old.disk).files }
        ensures refused { OnErr result (IsSound D.tells D.leads self.old.output (D.shelf self.old.disk)
            → (D.shelf self.new.disk).files ≡ (D.shelf self.old.disk).files) }
        ensures reading { IsSound D.tells D.leads self.old.output (D.shelf self.old.disk)
            → KeepsReading (D.shelf self.old.disk) (D.shelf self.new.disk) }
        ensures output { IsNone self.new.output }
        ensures read { self.new.read ≡ self.old.read }
        ensures written { self.new.written ≡ self.old.written }
        ensures counts { CountsWrites (tally_counts self.old.tally) (tally_counts self.new.tally) result }
    {
        if !self.tally.is_clear() {
            let _name = self.give_up();
            return Ok(());
        }
        match self.output.take() {
            Some(output) => self.put(output),
            None => Ok(()),
        }
    }

    // Puts a new file in its place.
    fn put(&mut self, output: Output) -> Result<(), DepotBad>
        ensures whole { IsSound D.tells D.leads (Some output) (D.shelf self.old.disk)
            → IsWholeOrAsBefore (D.shelf self.old.disk) (D.shelf self.new.disk) }
        ensures placed { OnOk result (IsSound D.tells D.leads (Some output) (D.shelf self.old.disk)
            → IsPlaced D.tells (Some output) (D.shelf self.old.disk) (D.shelf self.new.disk)) }
        ensures refused { OnErr result (IsSound D.tells D.leads (Some output) (D.shelf self.old.disk)
            → (D.shelf self.new.disk).files ≡ (D.shelf self.old.disk).files) }
        ensures reading { IsSound D.tells D.leads (Some output) (D.shelf self.old.disk)
            → KeepsReading (D.shelf self.old.disk) (D.shelf self.new.disk) }
        ensures output { self.new.output ≡ self.old.output }
        ensures read { self.new.read ≡ self.old.read }
        ensures written { self.new.written ≡ self.old.written }
        ensures counts { CountsWrites (tally_counts self.old.tally) (tally_counts self.new.tally) result }
    {
        let Output { name, part } = output;
        let Some(part) = part else {
            return Ok(());
        };
        match self.disk.put(part.part.as_str(), part.path.as_str()) {
            Ok(()) => Ok(()),
            Err(error) => {
                self.disk.take_away(part.part.as_str());
                Err(
                    self.tally
                        .write_fault(Some(name), FaultCause::System(error.kind())),
                )
            }
        }
    }

    // Puts what was written in its place, or gives it up where these words are said.
    fn settle(&mut self, bytes: &[u8]) -> Result<(), DepotBad>
        ensures whole { IsSound D.tells D.leads self.old.output (D.shelf self.old.disk)
            → IsWholeOrAsBefore (D.shelf self.old.disk) (D.shelf self.new.disk) }
        ensures placed { OnOk result (tally_counts self.old.tally ≡ no_counts
            → (IsSomeAnd self.old.gives_up_at (λ words. words.now ≡ bytes.now) → ⊥)
            → IsSound D.tells D.leads self.old.output (D.shelf self.old.disk)
            → IsPlaced D.tells self.old.output (D.shelf self.old.disk) (D.shelf self.new.disk)) }
        ensures stays { (tally_counts self.old.tally ≡ no_counts → ⊥)
            → IsSound D.tells D.leads self.old.output (D.shelf self.old.disk)
            → (D.shelf self.new.disk).files ≡ (D.shelf self.old.disk).files }
        ensures reading { IsSound D.tells D.leads self.old.output (D.shelf self.old.disk)
            → KeepsReading (D.shelf self.old.disk) (D.shelf self.new.disk) }
        ensures output { IsNone self.new.output }
        ensures read { self.new.read ≡ self.old.read }
        ensures written { self.new.written ≡ self.old.written }
        ensures counts { CountsWrites (tally_counts self.old.tally) (tally_counts self.new.tally) result }
    {
        if self.is_given_up_at(bytes) {
            let _name = self.give_up();
            return Ok(());
        }
        self.finish()
    }

    /// Puts what was written in its place, and prints on standard output.
    pub(crate) fn say(&mut self, bytes: &[u8]) -> Result<usize, DepotBad>
        ensures bound { IfOk result (λ n. n ≤ length bytes.now) }
        ensures progress { IfOk result (λ n. 0 < length bytes.now → 0 < n) }
        ensures said { IfOk result (λ n. IsSound D.tells D.leads self.old.output (D.shelf self.old.disk)
            → IsTrue D.tells
            → (D.shelf self.new.disk).said ≡ (D.shelf self.old.disk).said ++ take n bytes.now) }
        ensures unsaid { OnErr result (IsSound D.tells D.leads self.old.output (D.shelf self.old.disk)
            → IsTrue D.tells → (D.shelf self.new.disk).said ≡ (D.shelf self.old.disk).said) }
        ensures whole { IsSound D.tells D.leads self.old.output (D.shelf self.old.disk)
            → IsWholeOrAsBefore (D.shelf self.old.disk) (D.shelf self.new.disk) }
        ensures placed { OnOk result (tally_counts self.old.tally ≡ no_counts
            → (IsSomeAnd self.old.gives_up_at (λ words. words.now ≡ bytes.now) → ⊥)
            → IsSound D.tells D.leads self.old.output (D.shelf self.old.disk)
            → IsPlaced D.tells self.old.output (D.shelf self.old.disk) (D.shelf self.new.disk)) }
        ensures stays { (tally_counts self.old.tally ≡ no_counts → ⊥)
            → IsSound D.tells D.leads self.old.output (D.shelf self.old.disk)
            → (D.shelf self.new.disk).files ≡ (D.shelf self.old.disk).files }
        ensures reading { IsSound D.tells D.leads self.old.output (D.shelf self.old.disk)
            → (D.shelf self.new.disk).reading ≡ (D.shelf self.old.disk).reading }
        ensures output { IsNone self.new.output }
        ensures read { self.new.read ≡ self.old.read }
        ensures written { self.new.written ≡ self.old.written }
        ensures counts { CountsWrites (tally_counts self.old.tally) (tally_counts self.new.tally) result }
    {
        self.settle(bytes)?;
        match self.disk.say(bytes) {
            Ok(0) if !bytes.is_empty() => {
                Err(self.say_fault(FaultCause::System(ErrorKind::WriteZero)))
            }
            Ok(count) => Ok(count),
            Err(error) => Err(self.say_fault(FaultCause::System(error.kind()))),
        }
    }

    // What is being written is given up where these words are said.
    fn is_given_up_at(&self, bytes: &[u8]) -> bool
        ensures { IsTrue result → IsSomeAnd self.now.gives_up_at (λ words. words.now ≡ bytes.now) }
    {
        match self.gives_up_at {
            Some(words) => words == bytes,
            None => false,
        }
    }

    fn say_fault(&mut self, cause: FaultCause) -> DepotBad
        ensures rest { (self.new.disk ≡ self.old.disk) × (self.new.output ≡ self.old.output) }
        ensures read { self.new.read ≡ self.old.read }
        ensures written { self.new.written ≡ self.old.written }
        ensures counts { CountsWrites {T = ℕ} (tally_counts self.old.tally) (tally_counts self.new.tally) (Err result) }
    {
        self.tally.write_fault(Some(String::new(self.alloc)), cause)
    }
}
