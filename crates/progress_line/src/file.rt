//! What is shown of a file.
ghost use Rattle.std.specs.Prelude.{◌≡◌, None, Some, ◌+◌, ◌-◌, ◌^◌, min};
ghost use Rattle.depot.specs.declared.outside.Phase.TheVariants.{Judging};
ghost use Rattle.progress_line.specs.Text.{label, line_of, part_done, part_of};

use crate::line::Line;
use crate::texts::{put_amount, put_name, put_rows, put_shots, verb};
use crate::times::{put_clock, put_left};
use depot::{Phase, Progress};

/// A file that is read or written, or an output whose rows are gone through, and how much of it is done.
#[derive(Drop)]
pub struct FileLine {
    name: Line,
    phase: Phase,
    work: Option<Progress>,
    done: u64,
    all: Option<u64>,
}

impl FileLine {
    /// Nothing is done. The phase says what is being done to the file, and the size is how many bytes it has, where
    /// that is known.
    pub fn new(phase: Phase, name: &str, size: Option<u64>) -> FileLine
        ensures name { result.name ≡ label name.now }
        ensures phase { result.phase ≡ phase }
        ensures work { result.work ≡ None }
        ensures done { result.done ≡ 0 }
        ensures all { result.all ≡ size }
    {
        let mut line = Line::new();
        put_name(&mut line, name.as_bytes());
        line.put(b": ");
        FileLine {
            name: line,
            phase,
            work: None,
            done: 0,
            all: size,
        }
    }

    /// That many more bytes are done, by reading or writing.
    pub fn advance(&mut self, phase: Phase, count: usize)
        ensures done { self.new.done ≡ min (self.old.done + count) (2 ^ 64 - 1) }
        ensures phase { self.new.phase ≡ phase }
        ensures name { self.new.name ≡ self.old.name }
        ensures work { self.new.work ≡ self.old.work }
        ensures all { self.new.all ≡ self.old.all }
    {
        self.phase = phase;
        self.done = self.done.saturating_add(count as u64);
    }

    /// All of it is read, and it is judged from here on.
    pub fn judge(&mut self)
        ensures phase { self.new.phase ≡ Judging }
        ensures all { self.new.all ≡ None }
        ensures name { self.new.name ≡ self.old.name }
        ensures work { self.new.work ≡ self.old.work }
        ensures done { self.new.done ≡ self.old.done }
    {
        self.phase = Phase::Judging;
        self.all = None;
    }

    /// Its rows and shots are that far.
    pub fn note(&mut self, progress: Progress)
        ensures work { self.new.work ≡ Some progress }
        ensures phase { self.new.phase ≡ progress.phase }
        ensures name { self.new.name ≡ self.old.name }
        ensures done { self.new.done ≡ self.old.done }
        ensures all { self.new.all ≡ self.old.all }
    {
        self.phase = progress.phase;
        self.work = Some(progress);
    }

    // How much is done: rows where these are known, else bytes.
    fn part_done(&self) -> u64
        ensures { result ≡ part_done self.now.work self.now.done }
    {
        match self.work {
            Some(progress) => progress.rows,
            None => self.done,
        }
    }

    // How much there is of it. None where that isn't known.
    fn part_of(&self) -> u64
        ensures { result ≡ part_of self.now.work self.now.all }
    {
        match self.work {
            Some(progress) => progress.all_rows,
            None => self.all.unwrap_or(0),
        }
    }

    /// The line to be shown, so many seconds after its work began.
    pub fn line(&self, seconds: u64) -> Line
        ensures { result ≡ line_of self.now.phase self.now.name self.now.work self.now.done self.now.all seconds }
    {
        let mut line = Line::new();
        line.put(verb(self.phase));
        line.put(self.name.bytes());
        put_rows(&mut line, self.work);
        put_clock(&mut line, u128::from(seconds));
        put_left(&mut line, seconds, self.part_done(), self.part_of());
        line.put(b", ");
        put_shots(&mut line, self.work);
        put_amount(&mut line, self.done, self.all);
        line
    }
}
