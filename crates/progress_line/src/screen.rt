//! A terminal on which one line is shown, over and over.
ghost use Rattle.std.specs.Prelude.{◌≡◌, ◌+◌, ◌-◌, ◌^◌, min, length, false, None, Some};
ghost use Rattle.depot.specs.declared.outside.Phase.TheVariants.{Reading, Writing, Judging};
ghost use Rattle.progress_line.specs.Text.{label};
ghost use Rattle.progress_line.specs.Frames.{IsShownOnce};

use crate::file::FileLine;
use crate::frame::{WIPE, frame};
use crate::ledger::Ledger;
use crate::line::Line;
use crate::pace::Pace;
use crate::peak::peak;
use depot::{Phase, Progress};
use std::alloc::Global;
use std::fs::{Files, metadata};
use std::io::Write;
use std::time::Clock;

/// A terminal with one line of progress: its clock and files tell the time and how long a file is, and its writer is
/// where the line goes. A refusal of any of them is passed over.
#[derive(Drop)]
pub struct Screen<R: Drop, W: Drop> {
    rt: R,
    to: W,
    columns: usize,
    pace: Pace,
    file: FileLine,
    since: u64,
    ledger: Ledger,
    is_shown: bool,
}

/// How many lines are told of files after a job.
const LINES: usize = 40;

// The second of the clock, or this one where it tells none.
fn second_of<R: Clock>(rt: &R, usual: u64) -> u64 {
    match rt.monotonic() {
        Ok(time) => time.as_secs(),
        Err(_) => usual,
    }
}

// Writes a line. A refusal is passed over.
fn put_line<W: Write>(to: &mut W, line: &Line) {
    let _line = to.write_all(line.bytes());
    let _end = to.write_all(b"\n");
}

impl<R: Clock + Files + Drop, W: Write + Drop> Screen<R, W> {
    /// A terminal on which nothing is shown yet. A line has at most that many columns.
    pub fn new(rt: R, to: W, columns: usize, alloc: Global) -> Screen<R, W>
        ensures shown { result.is_shown ≡ false }
        ensures columns { result.columns ≡ columns }
    {
        let second = second_of(&rt, 0);
        Screen {
            rt,
            to,
            columns,
            pace: Pace::new(),
            file: FileLine::new(Phase::Reading, "", None),
            since: second,
            ledger: Ledger::new(alloc, second),
            is_shown: false,
        }
    }

    /// A file is read from its first byte.
    pub fn start_read(&mut self, name: &str)
        ensures name { self.new.file.name ≡ label name.now }
        ensures phase { self.new.file.phase ≡ Reading }
        ensures done { self.new.file.done ≡ 0 }
    {
        let size = match metadata(&self.rt, name) {
            Ok(data) => Some(data.len()),
            Err(_) => None,
        };
        self.file = FileLine::new(Phase::Reading, name, size);
        self.begin();
        self.ledger.start(Phase::Reading, name, self.since);
    }

    /// A file is written anew.
    pub fn start_write(&mut self, name: &str)
        ensures name { self.new.file.name ≡ label name.now }
        ensures phase { self.new.file.phase ≡ Writing }
        ensures done { self.new.file.done ≡ 0 }
        ensures all { self.new.file.all ≡ None }
    {
        self.file = FileLine::new(Phase::Writing, name, None);
        self.begin();
        self.ledger.start(Phase::Writing, name, self.since);
    }

    /// More bytes of the file are read or written. They are shown once a second, so that what is saved up of the pace is
    /// left for the names of files.
    pub fn advance(&mut self, phase: Phase, bytes: &[u8])
        ensures name { self.new.file.name ≡ self.old.file.name }
        ensures phase { self.new.file.phase ≡ phase }
        ensures done { self.new.file.done ≡ min (self.old.file.done + length bytes.now) (2 ^ 64 - 1) }
    {
        self.ledger.take(bytes);
        self.file.advance(phase, bytes.len());
        self.show_once();
    }

    /// All of the file is read, and it is judged from here on.
    pub fn judge(&mut self)
        ensures name { self.new.file.name ≡ self.old.file.name }
        ensures phase { self.new.file.phase ≡ Judging }
        ensures done { self.new.file.done ≡ self.old.file.done }
    {
        self.file.judge();
        self.begin();
    }

    /// The rows and shots of an output are that far. How many rows there are is shown at once, and then what is done once
    /// a second.
    pub fn note(&mut self, progress: Progress)
        ensures work { self.new.file.work ≡ Some progress }
        ensures phase { self.new.file.phase ≡ progress.phase }
        ensures name { self.new.file.name ≡ self.old.file.name }
        ensures done { self.new.file.done ≡ self.old.file.done }
    {
        self.file.note(progress);
        if progress.rows == 0 {
            self.begin();
        } else {
            self.show_once();
        }
    }

    /// Takes the line away.
    pub fn wipe(&mut self)
        ensures shown { self.new.is_shown ≡ false }
        ensures file { self.new.file ≡ self.old.file }
    {
        if self.is_shown {
            let _refused = self.to.write_all(WIPE);
            self.is_shown = false;
        }
    }

    // Shows the line of work that begins now.
    fn begin(&mut self)
        ensures { self.new.file ≡ self.old.file }
    {
        self.since = second_of(&self.rt, self.since);
        self.show();
    }

    /// Tells of the files and of the job, in lines that stay.
    pub fn summarize(&mut self) {
        let second = second_of(&self.rt, self.since);
        self.ledger.end(second);
        let mut lines = 0;
        for file in self.ledger.files() {
            if let Some(line) = file.line() {
                if lines < LINES {
                    put_line(&mut self.to, &line);
                    lines += 1;
                }
            }
        }
        put_line(&mut self.to, &self.ledger.line(second, peak(&self.rt)));
    }

    // Shows the line, where none was shown in this second.
    fn show_once(&mut self)
        ensures { self.new.file ≡ self.old.file }
    {
        let Ok(time) = self.rt.monotonic() else {
            return;
        };
        if self.pace.is_new(time.as_secs()) {
            self.show();
        }
    }

    // Shows the line, where that is due, by one write.
    fn show(&mut self)
        ensures file { self.new.file ≡ self.old.file }
        ensures once { IsShownOnce self.old.file self.old.columns (W.contents self.old.to) (W.contents self.new.to) }
    {
        let Ok(time) = self.rt.monotonic() else {
            return;
        };
        if !self.pace.is_due(time.as_secs()) {
            return;
        }
        let line = self.file.line(time.as_secs().saturating_sub(self.since));
        let frame = frame(line.bytes(), self.columns);
        let _shown = self.to.write(frame.bytes());
        self.is_shown = true;
    }
}
