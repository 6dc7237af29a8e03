//! The files of the system.
ghost use Rattle.std.specs.Prelude.{◌≡◌, false, [], None, option_map};

use crate::disk::{Disk, FileId, Target};
use std::fs::{self, File, Metadata, OpenFile, OpenOptions, Permissions};
use std::io::{self, ErrorKind, Read, Write};
use std::os::unix::fs::MetadataExt;
use std::path::Path;
use std::rt::Runtime;

/// How many links a name may lead through, as Linux has it.
const MOST_LINKS: usize = 40;

/// The files of the system and standard output: the trusted edge.
#[derive(Drop)]
pub(crate) struct SystemDisk<R: Runtime> {
    rt: R,
    reading: Option<R::File>,
    writing: Option<R::File>,
}

fn id_of(metadata: &Metadata) -> FileId {
    FileId {
        device: metadata.dev(),
        inode: metadata.ino(),
    }
}

// The path below which the system shows the files that a program has open, standard output among them.
fn is_open_file(path: &str) -> bool {
    path.starts_with("/proc/") || path.starts_with("/dev/fd/")
}

// Where a link leads.
fn follow<R: Runtime + AllocGlobal>(rt: &R, link: &str) -> io::Result<String> {
    let to = fs::read_link(rt, link)?;
    let path = match Path::new(link).parent() {
        Some(folder) => folder.join(rt.alloc(), to.as_path())?,
        None => to,
    };
    Ok(path.into_string())
}

// What is no link, or isn't there, at the end of the links from a name; None where a file leads there that the program
// has open.
fn path_of<R: Runtime + AllocGlobal>(rt: &R, name: &str) -> io::Result<Option<String>> {
    let mut path = String::from_str(rt.alloc(), name)?;
    for _ in 0..MOST_LINKS {
        match fs::symlink_metadata(rt, path.as_str()) {
            Ok(metadata) if metadata.is_symlink() => {}
            Err(error) if error.kind() != ErrorKind::NotFound => return Err(error),
            _ => return Ok(Some(path)),
        }
        if is_open_file(path.as_str()) {
            return Ok(None);
        }
        path = follow(rt, path.as_str())?;
    }
    Err(io::Error::from(ErrorKind::FilesystemLoop))
}

impl<R: Runtime + AllocGlobal> SystemDisk<R> {
    pub(crate) fn new(rt: R) -> SystemDisk<R> {
        SystemDisk {
            rt,
            reading: None,
            writing: None,
        }
    }

    // What the name of an open file leads to.
    fn look_at(&mut self, name: &str, file: R::File) -> io::Result<Target>
        ensures { self.new.reading ≡ self.old.reading }
    {
        let metadata = file.metadata()?;
        if metadata.is_file() {
            if let Some(path) = path_of(&self.rt, name)? {
                return Ok(Target::Taken {
                    path,
                    id: id_of(&metadata),
                    permissions: metadata.permissions(),
                });
            }
            file.set_len(0)?;
        }
        self.writing = Some(file);
        Ok(Target::Straight)
    }
}

impl<R: Runtime + AllocGlobal> Disk for SystemDisk<R> {
    ghost tells = { false };

    ghost shelf = { λ d. record {
      reading = option_map R.File.remaining d.reading;
      writing = option_map R.File.contents d.writing;
      files = λ _. None;
      said = [];
      ids = λ _. None;
      part = None;
      beside = [];
    } };

    ghost leads = { λ _ _. ⊥ };

    fn open(&mut self, name: &str) -> io::Result<Option<FileId>> {
        self.reading = None;
        let file = File::open(&self.rt, name)?;
        let metadata = file.metadata()?;
        self.reading = Some(file);
        Ok(metadata.is_file().then_some(id_of(&metadata)))
    }

    fn stop_read(&mut self) {
        self.reading = None;
    }

    fn read(&mut self, buf: &mut [u8]) -> io::Result<usize> {
        match &mut self.reading {
            Some(file) => file.read(buf),
            None => Ok(0),
        }
    }

    fn look(&mut self, name: &str) -> io::Result<Target> {
        self.writing = None;
        match OpenOptions::new().write(true).open(&self.rt, name) {
            Ok(file) => self.look_at(name, file),
            Err(error) if error.kind() == ErrorKind::NotFound => match path_of(&self.rt, name)? {
                Some(path) => Ok(Target::Free { path }),
                None => Err(error),
            },
            Err(error) => Err(error),
        }
    }

    fn create(&mut self, part: &str) -> io::Result<()> {
        self.writing = None;
        self.writing = Some(File::create_new(&self.rt, part)?);
        Ok(())
    }

    fn prepare(&mut self, like: Option<Permissions>) -> io::Result<FileId> {
        let Some(file) = &self.writing else {
            return Err(io::Error::from(ErrorKind::NotFound));
        };
        if let Some(permissions) = like {
            file.set_permissions(permissions)?;
        }
        Ok(id_of(&file.metadata()?))
    }

    fn write(&mut self, bytes: &[u8]) -> io::Result<usize> {
        match &mut self.writing {
            Some(file) => file.write(bytes),
            None => Ok(0),
        }
    }

    fn put(&mut self, part: &str, path: &str) -> io::Result<()> {
        if let Some(file) = self.writing.take() {
            file.sync_all()?;
        }
        fs::rename(&self.rt, part, path)
    }

    fn take_away(&mut self, part: &str) {
        self.writing = None;
        let _gone = fs::remove_file(&self.rt, part);
    }

    fn say(&mut self, bytes: &[u8]) -> io::Result<usize> {
        self.rt.write_some(bytes)
    }
}
