//! The files of the system and standard output, as a store of files uses them.
ghost use Rattle.std.specs.Prelude.{◌≡◌, ℕ, List, Bool, IsTrue, ◌≤◌, ◌++◌, [], None, Some, IsSome, IfOk, OnOk, OnErr, IfSome, length, take};
ghost use Rattle.depot.specs.Shelves.{Shelf, with_reading, with_writing, with_new, with_part, with_files, with_said, IsOpened, ReadsOn, WritesOn, IsInPlace, IsWholeOrAsBefore};
ghost use Rattle.depot.specs.Targets.{path_of, id_of};

use std::fs::Permissions;
use std::io;

/// Which file of the system it is: all names of one file have the same.
#[derive(Clone, Copy, Debug, PartialEq, Eq)]
pub(crate) struct FileId {
    pub(crate) device: u64,
    pub(crate) inode: u64,
}

/// What stands where a name leads, once its links are followed.
#[derive(Drop)]
pub(crate) enum Target {
    /// Nothing: a file may be put at this path.
    Free {
        path: String,
    },
    /// A file.
    Taken {
        path: String,
        id: FileId,
        permissions: Permissions,
    },
    /// No regular file, or what standard output is. Writes go there from now on.
    Straight,
}

/// The files of the system and standard output. Of the files one at a time is read and one is written. A file that isn't in
/// its place yet is seen under no name.
pub(crate) trait Disk {
    /// Whether it tells what files hold and what was said. What is being read and written it always tells, as far as it is
    /// known.
    ghost tells: { Bool };

    /// What it holds.
    ghost shelf: { Self → Shelf };

    /// Where the links of a name end.
    ghost leads: { List ℕ → List ℕ → Type 0 };

    /// Starts to read a file, and answers which it is, if it is a regular one. After a refusal none is read.
    fn open(&mut self, name: &str) -> io::Result<Option<FileId>>
        ensures started { OnOk result (IsSome (shelf self.new).reading) }
        ensures bytes { OnOk result (IsTrue tells → IsOpened (shelf self.old) name.now (shelf self.new)) }
        ensures id { IfOk result (λ id. IsTrue tells → id ≡ (shelf self.old).ids name.now) }
        ensures refused { OnErr result ((shelf self.new).reading ≡ None) }
        ensures rest { shelf self.new ≡ with_reading (shelf self.old) (shelf self.new).reading };

    /// Reads no more.
    fn stop_read(&mut self)
        ensures { shelf self.new ≡ with_reading (shelf self.old) None };

    /// Puts the next bytes of the file first in the buffer, and answers how many.
    fn read(&mut self, buf: &mut [u8]) -> io::Result<usize>
        ensures bound { IfOk result (λ n. n ≤ length buf.old) }
        ensures bytes { ReadsOn (shelf self.old).reading (shelf self.new).reading result buf.new }
        ensures rest { shelf self.new ≡ with_reading (shelf self.old) (shelf self.new).reading };

    /// What stands where the name leads.
    fn look(&mut self, name: &str) -> io::Result<Target>
        ensures path { IfOk result (λ target. IsTrue tells
            → IfSome (path_of target) (λ path. leads name.now path)) }
        ensures id { IfOk result (λ target. IsTrue tells → IsSome (path_of target)
            → id_of target ≡ (shelf self.old).ids name.now) }
        ensures rest { shelf self.new ≡ with_writing (shelf self.old) (shelf self.new).writing };

    /// Makes a new file, to which writes go. A file that is there is refused, and stays as it is.
    fn create(&mut self, part: &str) -> io::Result<()>
        ensures started { OnOk result (IsSome (shelf self.new).writing) }
        ensures empty { OnOk result (IsTrue tells → (shelf self.new).writing ≡ Some (Some [])) }
        ensures name { OnOk result (IsTrue tells → (shelf self.new).beside ≡ part.now) }
        ensures rest { shelf self.new ≡ with_new (shelf self.old) (shelf self.new) };

    /// Gives these permissions to the new file, and answers which it is.
    fn prepare(&mut self, like: Option<Permissions>) -> io::Result<FileId>
        ensures id { IfOk result (λ id. IsTrue tells → (shelf self.new).part ≡ Some id) }
        ensures rest { shelf self.new ≡ with_part (shelf self.old) (shelf self.new).part };

    /// Appends the first bytes of the piece, and answers how many.
    fn write(&mut self, bytes: &[u8]) -> io::Result<usize>
        ensures bound { IfOk result (λ n. n ≤ length bytes.now) }
        ensures bytes { WritesOn (shelf self.old).writing (shelf self.new).writing result bytes.now }
        ensures rest { shelf self.new ≡ with_writing (shelf self.old) (shelf self.new).writing };

    /// Puts the new file in the place of what is at the path, at once. Writes go nowhere then.
    fn put(&mut self, part: &str, path: &str) -> io::Result<()>
        ensures placed { OnOk result (IsTrue tells → (shelf self.old).beside ≡ part.now
            → IsInPlace leads (shelf self.old) path.now (shelf self.new)) }
        ensures whole { (IsTrue tells → (shelf self.old).beside ≡ part.now)
            → IsWholeOrAsBefore (shelf self.old) (shelf self.new) }
        ensures refused { OnErr result (shelf self.new ≡ with_writing (shelf self.old) None) }
        ensures rest { shelf self.new ≡ with_files (shelf self.old) (shelf self.new) };

    /// Takes the new file away. Writes go nowhere then.
    fn take_away(&mut self, part: &str)
        ensures { (IsTrue tells → (shelf self.old).beside ≡ part.now)
            → shelf self.new ≡ with_writing (shelf self.old) None };

    /// Prints the first bytes of the piece on standard output, and answers how many.
    fn say(&mut self, bytes: &[u8]) -> io::Result<usize>
        ensures bound { IfOk result (λ n. n ≤ length bytes.now) }
        ensures said { IfOk result (λ n. IsTrue tells
            → (shelf self.new).said ≡ (shelf self.old).said ++ take n bytes.now) }
        ensures refused { OnErr result ((shelf self.new).said ≡ (shelf self.old).said) }
        ensures rest { shelf self.new ≡ with_said (shelf self.old) (shelf self.new).said };
}
