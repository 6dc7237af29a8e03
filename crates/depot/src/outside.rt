//! What a program uses of the outside.
ghost use Rattle.std.specs.Prelude.{◌≡◌, ◌⊎◌, ℕ, ◌<◌, ◌≤◌, [], Bool, IsTrue, IsSome, IfOk, OnOk, OnErr, IsErrOf, length, take};
ghost use Rattle.std.specs.Int.{int_gap, int_min};
ghost use Rattle.depot.specs.Content.{Content, IsNotThere, with_left, StartsReading, TakesFirst, begun, IsNotBegun, with_written, with_said};
ghost use Rattle.depot.specs.Counts.{Counts};
ghost use Rattle.depot.specs.Counting.{CountsReads, CountsStarts, CountsWrites};

/// Why a call of a depot was refused.
#[derive(Clone, Copy, Debug, PartialEq, Eq)]
pub enum DepotBad {
    /// The outside refused it. The depot has counted it, unless a name to be read isn't there.
    Failed,
    /// Memory ran out. The depot has counted it.
    NoMemory,
}

/// What is done with a file, or with the rows of an output.
#[derive(Clone, Copy, Debug, PartialEq, Eq)]
pub enum Phase {
    /// A file is read.
    Reading,
    /// What was read is judged.
    Judging,
    /// The area of an output is covered by shots.
    Covering,
    /// A file is written.
    Writing,
    /// The shots of a file are compared with the area of its output.
    Checking,
    /// The triangles of an output's area are counted.
    Counting,
}

/// How far the work on an output is that is done row by row, from below.
#[derive(Clone, Copy, Debug, PartialEq, Eq)]
pub struct Progress {
    /// What is done with the rows.
    pub phase: Phase,
    /// How many of the output's rows are done.
    pub rows: u64,
    /// How many rows the output has.
    pub all_rows: u64,
    /// How many shots are written.
    pub shots: u128,
}

// How many rows there are from one row up to another. None where the other isn't above it.
fn rows_between(bottom: i64, top: i64) -> u64
    ensures { result ≡ int_gap bottom top }
{
    if top <= bottom {
        return 0;
    }
    top.abs_diff(bottom)
}

impl Progress {
    /// How far the work is on an output with the rows from `bottom` up to `top`, once all of them below `row` are done.
    pub fn up_to(phase: Phase, bottom: i64, top: i64, row: i64, shots: u128) -> Progress
        ensures phase { result.phase ≡ phase }
        ensures rows { result.rows ≡ int_gap bottom (int_min row top) }
        ensures all_rows { result.all_rows ≡ int_gap bottom top }
        ensures shots { result.shots ≡ shots }
    {
        Progress {
            phase,
            rows: rows_between(bottom, row.min(top)),
            all_rows: rows_between(bottom, top),
            shots,
        }
    }
}

/// A store of files, and standard output: all that the program uses of the outside. One file at a time is
/// read, and one is written. Files that are made aren't seen by a read. A call that succeeds counts nothing, and
/// those that write or say never count a fault of reading.
pub trait Depot {
    /// Whether the depot tells its content. The clauses on content hold for one that does.
    ghost tells: { Bool };

    /// What it holds, gives, has made and printed.
    ghost content: { Self → Content };

    /// How often it refused, by kind.
    ghost counts: { Self → Counts };

    /// Starts to read a file from its first byte. After a refusal nothing is left to be read.
    /// A name that isn't there is answered `Failed`.
    fn start_read(&mut self, name: &str) -> Result<(), DepotBad>
        ensures ok { OnOk result (IsTrue tells → StartsReading (content self.old) name.now (content self.new)) }
        ensures refused { OnErr result (IsTrue tells → content self.new ≡ with_left (content self.old) []) }
        ensures missing { IsTrue tells → IsNotThere (content self.old) name.now
            → IsErrOf result DepotBad.Failed ⊎ IsErrOf result DepotBad.NoMemory }
        ensures counts { CountsStarts (counts self.old) (counts self.new)
            (IsTrue tells × IsNotThere (content self.old) name.now) result };

    /// Puts the next bytes of the started file first in the buffer and answers how many. It answers 0 at a
    /// buffer that isn't empty only at the file's end. A refusal takes nothing.
    fn read(&mut self, buf: &mut [u8]) -> Result<usize, DepotBad>
        ensures bound { IfOk result (λ n. n ≤ length buf.old) }
        ensures ok { IfOk result (λ n. IsTrue tells
            → TakesFirst (content self.old) n buf.old buf.new (content self.new)) }
        ensures end { IfOk result (λ n. IsTrue tells → n ≡ 0 → 0 < length buf.old
            → (content self.old).left ≡ []) }
        ensures refused { OnErr result (IsTrue tells
            → (content self.new ≡ content self.old) × (buf.new ≡ buf.old)) }
        ensures counts { CountsReads (counts self.old) (counts self.new) result };

    /// Makes the file with no bytes; later writes go to it. After a refusal writes go nowhere, and the name
    /// is as before or has no bytes.
    fn start_write(&mut self, name: &str) -> Result<(), DepotBad>
        ensures ok { OnOk result (IsTrue tells → content self.new ≡ begun (content self.old) name.now) }
        ensures refused { OnErr result (IsTrue tells
            → IsNotBegun (content self.old) name.now (content self.new)) }
        ensures counts { CountsWrites (counts self.old) (counts self.new) result };

    /// Appends the first bytes of the piece to the started file and answers how many: at least one of a
    /// piece that isn't empty. A refusal appends nothing.
    fn write(&mut self, bytes: &[u8]) -> Result<usize, DepotBad>
        requires { IsTrue tells → IsSome (content self.old).current }
        ensures bound { IfOk result (λ n. n ≤ length bytes.now) }
        ensures progress { IfOk result (λ n. 0 < length bytes.now → 0 < n) }
        ensures ok { IfOk result (λ n. IsTrue tells
            → content self.new ≡ with_written (content self.old) (take n bytes.now)) }
        ensures refused { OnErr result (IsTrue tells → content self.new ≡ content self.old) }
        ensures counts { CountsWrites (counts self.old) (counts self.new) result };

    /// Prints the first bytes of the piece on standard output and answers how many: at least one of a piece
    /// that isn't empty. A refusal prints nothing.
    fn say(&mut self, bytes: &[u8]) -> Result<usize, DepotBad>
        ensures bound { IfOk result (λ n. n ≤ length bytes.now) }
        ensures progress { IfOk result (λ n. 0 < length bytes.now → 0 < n) }
        ensures ok { IfOk result (λ n. IsTrue tells
            → content self.new ≡ with_said (content self.old) (take n bytes.now)) }
        ensures refused { OnErr result (IsTrue tells → content self.new ≡ content self.old) }
        ensures counts { CountsWrites (counts self.old) (counts self.new) result };

    /// Takes note of how far the work on an output is, so that it can show it. It does nothing else: its content and its counts
    /// are as before.
    fn note(&mut self, progress: Progress)
        ensures content { content self.new ≡ content self.old }
        ensures counts { counts self.new ≡ counts self.old };
}
