//! A depot that hears what is said through it.
ghost use Rattle.std.specs.Prelude.{◌≡◌};

use depot::{Depot, DepotBad, Progress};

/// How many lines a report has before those of its outputs.
const BEFORE: u32 = 8;

/// How many blanks the line of an output has before the number of its shots.
const BLANKS: u32 = 3;

/// How many outputs a report has at most.
const MOST: usize = 64;

/// The numbers of shots in the lines of a report that is heard byte by byte.
#[derive(Clone, Copy)]
struct Ear {
    // how many lines have ended, and how many blanks the current one has so far
    lines: u32,
    blanks: u32,
    shots: [u64; MOST],
}

impl Ear {
    // Takes a digit of the number of shots of the current output.
    fn take_digit(&mut self, digit: u8) {
        let output = self.lines.saturating_sub(BEFORE) as usize;
        if self.lines < BEFORE || MOST <= output {
            return;
        }
        let value = u64::from(digit.saturating_sub(b'0'));
        self.shots[output] = self.shots[output].saturating_mul(10).saturating_add(value);
    }

    fn hear(&mut self, byte: u8) {
        match byte {
            b'\n' => {
                self.lines = self.lines.saturating_add(1);
                self.blanks = 0;
            }
            b' ' => self.blanks = self.blanks.saturating_add(1),
            digit if self.blanks == BLANKS => self.take_digit(digit),
            _ => {}
        }
    }

    fn hear_all(&mut self, bytes: &[u8]) {
        for byte in bytes {
            self.hear(*byte);
        }
    }
}

/// A depot that answers, tells and counts as another one does, and keeps how many shots the outputs of a report that is said
/// have.
#[derive(Drop)]
pub struct HeardDepot<D: Drop> {
    depot: D,
    ear: Ear,
}

impl<D: Depot + Drop> HeardDepot<D> {
    /// The depot, of which nothing was heard.
    pub fn new(depot: D) -> HeardDepot<D>
        ensures content { ⟦<HeardDepot<D> as Depot>⟧.content result ≡ D.content depot }
        ensures counts { ⟦<HeardDepot<D> as Depot>⟧.counts result ≡ D.counts depot }
    {
        HeardDepot {
            depot,
            ear: Ear {
                lines: 0,
                blanks: 0,
                shots: [0; MOST],
            },
        }
    }

    /// The depot.
    pub fn depot(&self) -> &D
        ensures { result.now ≡ self.now.depot }
    {
        &self.depot
    }

    /// How many shots each output of the report has, as far as its lines were heard.
    pub fn shots(&self) -> &[u64] {
        let heard = self.ear.lines.saturating_sub(BEFORE) as usize;
        &self.ear.shots[..heard.min(MOST)]
    }
}

impl<D: Depot + Drop> Depot for HeardDepot<D> {
    ghost tells = { D.tells };

    ghost content = { λ s. D.content s.depot };

    ghost counts = { λ s. D.counts s.depot };

    fn start_read(&mut self, name: &str) -> Result<(), DepotBad> {
        self.depot.start_read(name)
    }

    fn read(&mut self, buf: &mut [u8]) -> Result<usize, DepotBad> {
        self.depot.read(buf)
    }

    fn start_write(&mut self, name: &str) -> Result<(), DepotBad> {
        self.depot.start_write(name)
    }

    fn write(&mut self, bytes: &[u8]) -> Result<usize, DepotBad> {
        self.depot.write(bytes)
    }

    fn say(&mut self, bytes: &[u8]) -> Result<usize, DepotBad> {
        let count = self.depot.say(bytes)?;
        self.ear.hear_all(&bytes[..count]);
        Ok(count)
    }

    fn note(&mut self, progress: Progress) {
        self.depot.note(progress);
    }
}
