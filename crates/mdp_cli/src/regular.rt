//! The files that are read again once a command has ended.
ghost use Rattle.std.specs.Prelude.{false};

use depot::{Depot, DepotBad, FileDepot, Progress};
use std::fs;

/// A depot over the files of the system that reads nothing but regular files. A pipe has given its bytes to the command, and
/// nobody may write into it any more: to read it again might wait for ever.
#[derive(Drop)]
pub(crate) struct RegularDepot {
    rt: HostRuntime,
    files: FileDepot<HostRuntime>,
}

// Whether a name leads to a regular file.
fn is_regular(rt: &HostRuntime, name: &str) -> bool {
    match fs::metadata(rt, name) {
        Ok(metadata) => metadata.is_file(),
        Err(_refused) => false,
    }
}

impl RegularDepot {
    /// A depot that has started no file.
    pub(crate) fn new(rt: HostRuntime) -> RegularDepot {
        RegularDepot {
            rt,
            files: FileDepot::new(rt),
        }
    }
}

impl Depot for RegularDepot {
    ghost tells = { false };

    ghost content = { λ d. ⟦<FileDepot<HostRuntime> as Depot>⟧.content d.files };

    ghost counts = { λ d. ⟦<FileDepot<HostRuntime> as Depot>⟧.counts d.files };

    /// A name that leads to no regular file is as one without letters, which none has.
    fn start_read(&mut self, name: &str) -> Result<(), DepotBad> {
        let name = if is_regular(&self.rt, name) { name } else { "" };
        self.files.start_read(name)
    }

    fn read(&mut self, buf: &mut [u8]) -> Result<usize, DepotBad> {
        self.files.read(buf)
    }

    fn start_write(&mut self, name: &str) -> Result<(), DepotBad> {
        self.files.start_write(name)
    }

    fn write(&mut self, bytes: &[u8]) -> Result<usize, DepotBad> {
        self.files.write(bytes)
    }

    fn say(&mut self, bytes: &[u8]) -> Result<usize, DepotBad> {
        self.files.say(bytes)
    }

    fn note(&mut self, progress: Progress) {
        self.files.note(progress);
    }
}
