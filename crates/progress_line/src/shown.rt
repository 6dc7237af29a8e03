//! A depot that shows what goes through another one.
ghost use Rattle.std.specs.Prelude.{◌≡◌, ◌⊎◌, ◌<◌, ◌≤◌, [], false, length, take};
ghost use Rattle.std.specs.Prelude.{IsTrue, IsSome, IfOk, OnOk, OnErr, IsErrOf};
ghost use Rattle.depot.specs.Content.{IsNotThere, with_left, StartsReading, TakesFirst, begun, IsNotBegun, with_written, with_said};
ghost use Rattle.depot.specs.Counting.{CountsReads, CountsStarts, CountsWrites};
ghost use Rattle.depot.specs.declared.outside.Phase.TheVariants.{Reading, Writing};
ghost use Rattle.progress_line.specs.Screens.{StaysWith, IsBegun, IsAhead, IsReadOn, IsNoted};

use crate::screen::Screen;
use depot::{Depot, DepotBad, Phase, Progress};
use std::fs::Files;
use std::io::Write;
use std::time::Clock;

/// A depot that answers, tells and counts as another one does, and shows on a screen, where there is one, what is
/// read and written.
#[derive(Drop)]
pub struct ShownDepot<D: Drop, R: Drop, W: Drop> {
    depot: D,
    screen: Option<Screen<R, W>>,
}

impl<D: Depot + Drop, R: Clock + Files + Drop, W: Write + Drop> ShownDepot<D, R, W> {
    /// The depot, shown on this screen, or on none.
    pub fn new(depot: D, screen: Option<Screen<R, W>>) -> ShownDepot<D, R, W>
        ensures content { ⟦<ShownDepot<D, R, W> as Depot>⟧.content result ≡ D.content depot }
        ensures counts { ⟦<ShownDepot<D, R, W> as Depot>⟧.counts result ≡ D.counts depot }
        ensures depot { result.depot ≡ depot }
        ensures screen { result.screen ≡ screen }
    {
        ShownDepot { depot, screen }
    }

    /// The depot inside.
    pub fn depot(&self) -> &D
        ensures { result.now ≡ self.now.depot }
    {
        &self.depot
    }

    /// Takes the line off the screen. The depot is as before.
    pub fn wipe(&mut self)
        ensures depot { self.new.depot ≡ self.old.depot }
        ensures screen { StaysWith self.old.screen self.new.screen
            (λ old new. (new.is_shown ≡ false) × (new.file ≡ old.file)) }
    {
        if let Some(screen) = &mut self.screen {
            screen.wipe();
        }
    }

    /// Tells on the screen, in lines that stay, of the shot files and of the job. The depot is as before.
    pub fn summarize(&mut self)
        ensures depot { self.new.depot ≡ self.old.depot }
    {
        if let Some(screen) = &mut self.screen {
            screen.summarize();
        }
    }

    // Says to the screen that these bytes were read. Where there are none, the file is at its end, and is judged.
    fn has_read(&mut self, bytes: &[u8])
        ensures depot { self.new.depot ≡ self.old.depot }
        ensures screen { StaysWith self.old.screen self.new.screen
            (λ old new. IsReadOn (length bytes.now) old.file new.file) }
    {
        let Some(screen) = &mut self.screen else {
            return;
        };
        if bytes.is_empty() {
            screen.judge();
        } else {
            screen.advance(Phase::Reading, bytes);
        }
    }

    // Says to the screen that these bytes were written.
    fn has_written(&mut self, bytes: &[u8])
        ensures depot { self.new.depot ≡ self.old.depot }
        ensures screen { StaysWith self.old.screen self.new.screen
            (λ old new. IsAhead Writing (length bytes.now) old.file new.file) }
    {
        if let Some(screen) = &mut self.screen {
            screen.advance(Phase::Writing, bytes);
        }
    }
}

impl<D: Depot + Drop, R: Clock + Files + Drop, W: Write + Drop> Depot for ShownDepot<D, R, W> {
    ghost tells = { D.tells };

    ghost content = { λ s. D.content s.depot };

    ghost counts = { λ s. D.counts s.depot };

    fn start_read(&mut self, name: &str) -> Result<(), DepotBad>
        ensures ok { OnOk result (IsTrue D.tells → StartsReading (D.content self.old.depot) name.now (D.content self.new.depot)) }
        ensures refused { OnErr result (IsTrue D.tells → D.content self.new.depot ≡ with_left (D.content self.old.depot) []) }
        ensures missing { IsTrue D.tells → IsNotThere (D.content self.old.depot) name.now
            → IsErrOf result DepotBad.Failed ⊎ IsErrOf result DepotBad.NoMemory }
        ensures counts { CountsStarts (D.counts self.old.depot) (D.counts self.new.depot)
            (IsTrue D.tells × IsNotThere (D.content self.old.depot) name.now) result }
        ensures screen { StaysWith self.old.screen self.new.screen (λ old new. IsBegun Reading name.now new.file) }
    {
        if let Some(screen) = &mut self.screen {
            screen.start_read(name);
        }
        self.depot.start_read(name)
    }

    fn read(&mut self, buf: &mut [u8]) -> Result<usize, DepotBad>
        ensures bound { IfOk result (λ n. n ≤ length buf.old) }
        ensures ok { IfOk result (λ n. IsTrue D.tells → TakesFirst (D.content self.old.depot) n buf.old buf.new (D.content self.new.depot)) }
        ensures end { IfOk result (λ n. IsTrue D.tells → n ≡ 0 → 0 < length buf.old → (D.content self.old.depot).left ≡ []) }
        ensures refused { OnErr result (IsTrue D.tells → (D.content self.new.depot ≡ D.content self.old.depot) × (buf.new ≡ buf.old)) }
        ensures counts { CountsReads (D.counts self.old.depot) (D.counts self.new.depot) result }
        ensures screen { IfOk result (λ n. StaysWith self.old.screen self.new.screen
            (λ old new. IsReadOn n old.file new.file)) }
        ensures unshown { OnErr result (self.new.screen ≡ self.old.screen) }
    {
        let count = self.depot.read(buf)?;
        self.has_read(&buf[..count]);
        Ok(count)
    }

    fn start_write(&mut self, name: &str) -> Result<(), DepotBad>
        ensures ok { OnOk result (IsTrue D.tells → D.content self.new.depot ≡ begun (D.content self.old.depot) name.now) }
        ensures refused { OnErr result (IsTrue D.tells → IsNotBegun (D.content self.old.depot) name.now (D.content self.new.depot)) }
        ensures counts { CountsWrites (D.counts self.old.depot) (D.counts self.new.depot) result }
        ensures screen { StaysWith self.old.screen self.new.screen (λ old new. IsBegun Writing name.now new.file) }
    {
        if let Some(screen) = &mut self.screen {
            screen.start_write(name);
        }
        self.depot.start_write(name)
    }

    fn write(&mut self, bytes: &[u8]) -> Result<usize, DepotBad>
        requires { IsTrue D.tells → IsSome (D.content self.old.depot).current }
        ensures bound { IfOk result (λ n. n ≤ length bytes.now) }
        ensures progress { IfOk result (λ n. 0 < length bytes.now → 0 < n) }
        ensures ok { IfOk result (λ n. IsTrue D.tells → D.content self.new.depot ≡ with_written (D.content self.old.depot) (take n bytes.now)) }
        ensures refused { OnErr result (IsTrue D.tells → D.content self.new.depot ≡ D.content self.old.depot) }
        ensures counts { CountsWrites (D.counts self.old.depot) (D.counts self.new.depot) result }
        ensures screen { IfOk result (λ n. StaysWith self.old.screen self.new.screen
            (λ old new. IsAhead Writing n old.file new.file)) }
        ensures unshown { OnErr result (self.new.screen ≡ self.old.screen) }
    {
        let count = self.depot.write(bytes)?;
        self.has_written(&bytes[..count]);
        Ok(count)
    }

    /// The line is removed first, since both may go to one terminal.
    fn say(&mut self, bytes: &[u8]) -> Result<usize, DepotBad>
        ensures bound { IfOk result (λ n. n ≤ length bytes.now) }
        ensures progress { IfOk result (λ n. 0 < length bytes.now → 0 < n) }
        ensures ok { IfOk result (λ n. IsTrue D.tells → D.content self.new.depot ≡ with_said (D.content self.old.depot) (take n bytes.now)) }
        ensures refused { OnErr result (IsTrue D.tells → D.content self.new.depot ≡ D.content self.old.depot) }
        ensures counts { CountsWrites (D.counts self.old.depot) (D.counts self.new.depot) result }
        ensures screen { StaysWith self.old.screen self.new.screen
            (λ old new. (new.is_shown ≡ false) × (new.file ≡ old.file)) }
    {
        self.wipe();
        self.depot.say(bytes)
    }

    /// It is shown, and passed on to the other depot.
    fn note(&mut self, progress: Progress)
        ensures content { D.content self.new.depot ≡ D.content self.old.depot }
        ensures counts { D.counts self.new.depot ≡ D.counts self.old.depot }
        ensures screen { StaysWith self.old.screen self.new.screen (λ old new. IsNoted progress old.file new.file) }
    {
        if let Some(screen) = &mut self.screen {
            screen.note(progress);
        }
        self.depot.note(progress);
    }
}
