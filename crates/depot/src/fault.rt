//! Which call of the system was refused, and how often one was.
ghost use Rattle.std.specs.Prelude.{◌≡◌, ◌↔◌, ℕ, IsTrue, Err};
ghost use Rattle.depot.specs.Counts.{no_counts};
ghost use Rattle.depot.specs.Counting.{CountsReads, CountsWrites};
ghost use Rattle.depot.specs.Tallies.{tally_counts, counted_read, counted_write};
ghost use Rattle.depot.specs.declared.outside.DepotBad.TheVariants.{Failed, NoMemory as Wanting};

use crate::outside::DepotBad;
use std::alloc::AllocError;
use std::io::{self, ErrorKind};

/// Why a file of the system, or standard output, wasn't read or written.
#[derive(Clone, Copy, Debug, PartialEq, Eq)]
pub enum FaultCause {
    /// The system refused the call, with an error of this kind.
    System(ErrorKind),
    /// The name to be written is a file that was read in this run.
    IsInput,
    /// The name is a file that was written in this run: it is neither written again nor read.
    AlreadyWritten,
    /// Bytes came for a file where none is being written.
    NoneStarted,
}

/// Memory was wanting, which is told apart from all other causes.
pub(crate) const OUT_OF_MEMORY: FaultCause = FaultCause::System(ErrorKind::OutOfMemory);

impl From<io::Error> for FaultCause {
    fn from(error: io::Error) -> FaultCause {
        FaultCause::System(error.kind())
    }
}

impl From<AllocError> for FaultCause {
    fn from(_refused: AllocError) -> FaultCause {
        OUT_OF_MEMORY
    }
}

/// A call of the system that was refused, or one that the depot refused by itself.
#[derive(Debug, Drop)]
pub struct SystemFault {
    name: String,
    cause: FaultCause,
}

impl SystemFault {
    /// The file's name as it was given. It is empty where the call was for standard output.
    pub fn name(&self) -> &str {
        self.name.as_str()
    }

    /// Why the call was refused.
    pub fn cause(&self) -> FaultCause
        ensures { result ≡ self.now.cause }
    {
        self.cause
    }
}

/// How often calls were refused, by kind, and the first of them.
#[derive(Drop)]
pub(crate) struct Tally {
    pub(crate) read_faults: u64,
    pub(crate) write_faults: u64,
    pub(crate) refused: u64,
    first: Option<SystemFault>,
}

impl Tally {
    /// Nothing was refused.
    pub(crate) fn new() -> Tally
        ensures { tally_counts result ≡ no_counts }
    {
        Tally {
            read_faults: 0,
            write_faults: 0,
            refused: 0,
            first: None,
        }
    }

    /// Nothing was counted.
    pub(crate) fn is_clear(&self) -> bool
        ensures { IsTrue result ↔ (tally_counts self.now ≡ no_counts) }
    {
        self.read_faults == 0 && self.write_faults == 0 && self.refused == 0
    }

    /// The first fault. A want of memory is none.
    pub(crate) fn first(&self) -> Option<&SystemFault> {
        self.first.as_ref()
    }

    /// Counts a want of memory.
    pub(crate) fn refuse(&mut self) -> DepotBad
        ensures answer { result ≡ Wanting }
        ensures counts { tally_counts self.new ≡ counted_write (tally_counts self.old) Wanting }
        ensures starts { CountsReads {T = Unit {0}} (tally_counts self.old) (tally_counts self.new) (Err result) }
        ensures writes { CountsWrites {T = Unit {0}} (tally_counts self.old) (tally_counts self.new) (Err result) }
    {
        self.refused = self.refused.saturating_add(1);
        DepotBad::NoMemory
    }

    /// Counts a read that was refused.
    pub(crate) fn read_fault(&mut self, name: Option<String>, cause: FaultCause) -> DepotBad
        ensures no_memory { (result ≡ Wanting) ↔ (cause ≡ OUT_OF_MEMORY) }
        ensures counts { tally_counts self.new ≡ counted_read (tally_counts self.old) result }
        ensures starts { CountsReads {T = Unit {0}} (tally_counts self.old) (tally_counts self.new) (Err result) }
        ensures moves { CountsReads {T = ℕ} (tally_counts self.old) (tally_counts self.new) (Err result) }
    {
        if cause == OUT_OF_MEMORY {
            return self.refuse();
        }
        self.read_faults = self.read_faults.saturating_add(1);
        self.keep(name, cause);
        DepotBad::Failed
    }

    /// Counts a write that was refused.
    pub(crate) fn write_fault(&mut self, name: Option<String>, cause: FaultCause) -> DepotBad
        ensures no_memory { (result ≡ Wanting) ↔ (cause ≡ OUT_OF_MEMORY) }
        ensures counts { tally_counts self.new ≡ counted_write (tally_counts self.old) result }
        ensures starts { CountsWrites {T = Unit {0}} (tally_counts self.old) (tally_counts self.new) (Err result) }
        ensures moves { CountsWrites {T = ℕ} (tally_counts self.old) (tally_counts self.new) (Err result) }
    {
        if cause == OUT_OF_MEMORY {
            return self.refuse();
        }
        self.write_faults = self.write_faults.saturating_add(1);
        self.keep(name, cause);
        DepotBad::Failed
    }

    // Keeps a fault if it is the first.
    fn keep(&mut self, name: Option<String>, cause: FaultCause)
        ensures { tally_counts self.new ≡ tally_counts self.old }
    {
        if self.first.is_none()
            && let Some(name) = name
        {
            self.first = Some(SystemFault { name, cause });
        }
    }
}
