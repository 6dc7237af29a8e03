//! What is told after a job: a line for each shot file, and one for the job.
ghost use Rattle.std.specs.Prelude.{◌≡◌};

use crate::line::Line;
use crate::tally::{Sums, Tally};
use crate::texts::put_name;
use depot::Phase;
use itoa::Buffer;
use std::alloc::Global;

/// How many files are kept.
const MOST: usize = 4096;

/// A file that was read or written.
#[derive(Drop)]
pub(crate) struct Entry {
    name: Line,
    phase: Phase,
    from: u64,
    to: u64,
    tally: Tally,
}

/// The files that were read and written, in their order, and when that began. Seconds are those of one clock.
#[derive(Drop)]
pub(crate) struct Ledger {
    alloc: Global,
    files: Vec<Entry>,
    from: u64,
    is_lost: bool,
}

impl Entry {
    // How many seconds it took.
    fn seconds(&self) -> u64 {
        self.to.saturating_sub(self.from)
    }

    /// The line of a shot file. None of another file.
    pub(crate) fn line(&self) -> Option<Line> {
        let sums = self.tally.sums()?;
        let mut line = Line::new();
        line.put(self.name.bytes());
        line.put(b": ");
        put_sums(&mut line, &sums);
        if let Some(thin) = self.tally.thin() {
            line.put(b", ");
            put_number(&mut line, u128::from(thin));
            line.put(b" thinner than a tenth of the median");
        }
        line.put(b", ");
        put_number(&mut line, u128::from(self.seconds()));
        line.put(b" s");
        Some(line)
    }
}

impl Ledger {
    /// No file yet. It takes no memory.
    pub(crate) fn new(alloc: Global, second: u64) -> Ledger
        ensures { result.from ≡ second }
    {
        Ledger {
            alloc,
            files: Vec::new(alloc),
            from: second,
            is_lost: false,
        }
    }

    /// The files.
    pub(crate) fn files(&self) -> &[Entry]
        ensures { result.now ≡ self.now.files.items }
    {
        self.files.as_slice()
    }

    /// The last file ends in this second.
    pub(crate) fn end(&mut self, second: u64) {
        if let Some(last) = self.files.last_mut() {
            last.to = second;
        }
    }

    /// A file is read or written from this second on. Where it has no room, nothing more is kept.
    pub(crate) fn start(&mut self, phase: Phase, name: &str, second: u64) {
        self.end(second);
        if self.is_lost || MOST <= self.files.len() {
            self.is_lost = true;
            return;
        }
        let mut line = Line::new();
        put_name(&mut line, name.as_bytes());
        let entry = Entry {
            name: line,
            phase,
            from: second,
            to: second,
            tally: Tally::new(self.alloc),
        };
        self.is_lost = self.files.push(entry).is_err();
    }

    /// Bytes of the last file go by.
    pub(crate) fn take(&mut self, bytes: &[u8]) {
        if self.is_lost {
            return;
        }
        if let Some(last) = self.files.last_mut() {
            last.tally.take(bytes);
        }
    }

    // How many seconds were spent on files that were read and are no shot files, with what was made of them.
    fn reading(&self) -> u64 {
        let mut seconds: u64 = 0;
        for file in self.files.as_slice() {
            if file.phase == Phase::Reading && file.tally.sums().is_none() {
                seconds = seconds.saturating_add(file.seconds());
            }
        }
        seconds
    }

    /// The line of the job, up to this second, which took that many kilobytes at most.
    pub(crate) fn line(&self, second: u64, kilobytes: Option<u64>) -> Line {
        let mut line = Line::new();
        line.put(b"reading ");
        put_number(&mut line, u128::from(self.reading()));
        line.put(b" s, in all ");
        put_number(&mut line, u128::from(second.saturating_sub(self.from)));
        line.put(b" s");
        if let Some(kilobytes) = kilobytes {
            line.put(b", ");
            put_number(&mut line, u128::from(kilobytes / 1000));
            line.put(b" MB of memory at most");
        }
        line
    }
}

// Puts a number at the end.
fn put_number(line: &mut Line, number: u128) {
    let mut digits = Buffer::new();
    line.put(digits.format(number).as_bytes());
}

// Puts thousandths at the end, with a point.
fn put_thousandths(line: &mut Line, number: u128) {
    put_number(line, number / 1000);
    line.put(b".");
    put_number(line, number % 1000 / 100);
    put_number(line, number % 100 / 10);
    put_number(line, number % 10);
}

// Puts a length in micrometres at the end, cut to three decimals. There are half units.
fn put_length(line: &mut Line, length: u64, unit: u64) {
    let nanometres = u128::from(length).saturating_mul(1000);
    put_thousandths(line, nanometres.checked_div(u128::from(unit)).unwrap_or(0));
    line.put(b" um");
}

// Puts the area of triangles in square micrometres at the end, cut to three decimals.
fn put_area(line: &mut Line, triangles: u128, unit: u64) {
    let square = u128::from(unit).saturating_mul(u128::from(unit));
    let thousandths = triangles.saturating_mul(500);
    put_thousandths(line, thousandths.checked_div(square).unwrap_or(0));
    line.put(b" um2");
}

// Puts what is told of the shots of a file at the end.
fn put_sums(line: &mut Line, sums: &Sums) {
    put_number(line, u128::from(sums.shots));
    line.put(b" shots, ");
    put_area(line, sums.triangles, sums.unit);
    if sums.shots == 0 {
        return;
    }
    line.put(b", least width ");
    put_length(line, sums.least_width, sums.unit);
    line.put(b", least height ");
    put_length(line, sums.least_height, sums.unit);
}
