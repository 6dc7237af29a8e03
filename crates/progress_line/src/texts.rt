//! The words of a line.
ghost use Rattle.std.specs.Prelude.{◌≡◌, Some, None, [], ◌++◌};
ghost use Rattle.progress_line.specs.Text.{put, verb, short_name, rows_done, some_shots, shots_done, megabytes, bytes_of, unit_of, amount};

use crate::line::Line;
use depot::{Phase, Progress};
use itoa::Buffer;

/// How many bytes of a name are shown whole.
const LONGEST_NAME: usize = 24;

/// How many of the last bytes of a longer name are shown.
const END_OF_NAME: usize = 22;

const MEGABYTE: u64 = 1_000_000;

const TENTH: u64 = 100_000;

/// What is done, with a space after it.
pub(crate) fn verb(phase: Phase) -> &'static [u8]
    ensures { result.now ≡ verb phase }
{
    match phase {
        Phase::Reading => b"reading ",
        Phase::Judging => b"judging ",
        Phase::Covering => b"covering ",
        Phase::Writing => b"writing ",
        Phase::Checking => b"checking ",
        Phase::Counting => b"counting ",
    }
}

/// Puts a name at the end, or its last bytes where it is long.
pub(crate) fn put_name(line: &mut Line, name: &[u8])
    ensures { line.new ≡ put line.old (short_name name.now) }
{
    if name.len() <= LONGEST_NAME {
        line.put(name);
        return;
    }
    line.put(b"..");
    line.put(&name[name.len() - END_OF_NAME..]);
}

// Puts how many rows are done at the end.
fn put_progress(line: &mut Line, progress: Progress)
    ensures { line.new ≡ put line.old (rows_done (Some progress)) }
{
    let mut digits = Buffer::new();
    line.put(digits.format(progress.rows).as_bytes());
    line.put(b" of ");
    line.put(digits.format(progress.all_rows).as_bytes());
    line.put(b" rows, ");
}

/// Puts how many rows are done at the end, where that is known.
pub(crate) fn put_rows(line: &mut Line, work: Option<Progress>)
    ensures { line.new ≡ put line.old (rows_done work) }
{
    match work {
        Some(progress) => put_progress(line, progress),
        None => line.put(b""),
    }
}

// Puts how many shots there are, where there are some.
fn put_some(line: &mut Line, shots: u128)
    ensures { line.new ≡ put line.old (some_shots shots) }
{
    if shots == 0 {
        line.put(b"");
        return;
    }
    let mut digits = Buffer::new();
    line.put(digits.format(shots).as_bytes());
    line.put(b" shots, ");
}

/// Puts how many shots are written at the end, where there are some.
pub(crate) fn put_shots(line: &mut Line, work: Option<Progress>)
    ensures { line.new ≡ put line.old (shots_done work) }
{
    match work {
        Some(progress) => put_some(line, progress.shots),
        None => line.put(b""),
    }
}

// Puts bytes in megabytes at the end, cut to one decimal.
fn put_megabytes(line: &mut Line, bytes: u64)
    ensures { line.new ≡ put line.old (megabytes bytes) }
{
    let mut digits = Buffer::new();
    line.put(digits.format(bytes / MEGABYTE).as_bytes());
    line.put(b".");
    line.put(digits.format(bytes % MEGABYTE / TENTH).as_bytes());
}

// Puts bytes of a file of this size at the end.
fn put_bytes(line: &mut Line, size: u64, bytes: u64)
    ensures { line.new ≡ put line.old (bytes_of size bytes) }
{
    if MEGABYTE <= size {
        put_megabytes(line, bytes);
        return;
    }
    let mut digits = Buffer::new();
    line.put(digits.format(bytes).as_bytes());
}

// Puts at the end what the bytes of a file of this size are counted in.
fn put_unit(line: &mut Line, size: u64)
    ensures { line.new ≡ put line.old (unit_of size) }
{
    if MEGABYTE <= size {
        line.put(b" MB");
        return;
    }
    line.put(b" bytes");
}

/// Puts how much is done at the end, and of how much where that is known.
pub(crate) fn put_amount(line: &mut Line, done: u64, all: Option<u64>)
    ensures { line.new ≡ put line.old (amount done all) }
{
    let Some(all) = all else {
        put_bytes(line, done, done);
        put_unit(line, done);
        return;
    };
    put_bytes(line, all, done);
    line.put(b" of ");
    put_bytes(line, all, all);
    put_unit(line, all);
}
