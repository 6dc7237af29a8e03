//! Files in memory: a list in which the first file of a name counts.
ghost use Rattle.std.specs.Prelude.{◌≡◌, ◌<◌, ◌≤◌, ◌^◌, [], ◌++◌, Some, None, IfOk, OnOk, OnErr, MatchOption, length, drop};
ghost use Rattle.std.specs.FinMap.{insert};
ghost use Rattle.depot.specs.Content.{appended};
ghost use Rattle.depot.specs.Filing.{files_of, bytes_at, name_at, IsPlace, HasNone};

use geo_stream::NoMemory;
use std::alloc::Global;

#[derive(Drop)]
pub(crate) struct File {
    pub(crate) name: String,
    pub(crate) bytes: Vec<u8>,
}

// Where the first file of a name stands.
pub(crate) fn place(files: &[File], name: &str) -> Option<usize>
    ensures { MatchOption result (HasNone files.now name.now) (IsPlace files.now name.now) }
{
    for (i, file) in files.iter().enumerate() {
        if file.name.as_str() == name {
            return Some(i);
        }
    }
    None
}

// The bytes of a file.
pub(crate) fn bytes_of(files: &[File], at: usize) -> &[u8]
    requires { at < length files.now }
    ensures { result.now ≡ bytes_at files.now at }
{
    files[at].bytes.as_slice()
}

// The bytes of a file after the first so many.
pub(crate) fn rest(files: &[File], at: usize, given: usize) -> &[u8]
    requires at { at < length files.now }
    requires given { given ≤ length (bytes_at files.now at) }
    ensures value { result.now ≡ drop given (bytes_at files.now at) }
    ensures small { length (bytes_at files.now at) < 2 ^ 64 }
{
    let bytes = bytes_of(files, at);
    let len = bytes.len();
    &bytes[given..len]
}

// Puts a file after the others, where none has its name.
fn push(alloc: Global, files: &mut Vec<File>, name: &str, bytes: Vec<u8>) -> Result<usize, NoMemory>
    requires { HasNone files.old.items name.now }
    ensures ok { OnOk result (files_of files.new.items
        ≡ insert (files_of files.old.items) name.now bytes.items) }
    ensures place { IfOk result (IsPlace files.new.items name.now) }
    ensures refused { OnErr result (files.new.items ≡ files.old.items) }
{
    let name = String::from_str(alloc, name)?;
    let at = files.len();
    files.push(File { name, bytes })?;
    Ok(at)
}

// Puts bytes in the place of those of a file.
fn replace(files: &mut Vec<File>, name: &str, at: usize, bytes: Vec<u8>)
    requires { IsPlace files.old.items name.now at }
    ensures files { files_of files.new.items
        ≡ insert (files_of files.old.items) name.now bytes.items }
    ensures place { IsPlace files.new.items name.now at }
{
    files[at].bytes = bytes;
}

// Puts a file of these bytes, in the place of one of its name where there is one. It answers its place.
pub(crate) fn put(
    alloc: Global,
    files: &mut Vec<File>,
    name: &str,
    bytes: Vec<u8>,
) -> Result<usize, NoMemory>
    ensures ok { OnOk result (files_of files.new.items
        ≡ insert (files_of files.old.items) name.now bytes.items) }
    ensures place { IfOk result (IsPlace files.new.items name.now) }
    ensures refused { OnErr result (files.new.items ≡ files.old.items) }
{
    match place(files, name) {
        Some(at) => {
            replace(files, name, at, bytes);
            Ok(at)
        }
        None => push(alloc, files, name, bytes),
    }
}

// Puts bytes after those of a file.
pub(crate) fn append(files: &mut Vec<File>, at: usize, piece: &[u8]) -> Result<(), NoMemory>
    requires { IsPlace files.old.items (name_at files.old.items at) at }
    ensures ok { OnOk result (files_of files.new.items
        ≡ appended (files_of files.old.items) (Some (name_at files.old.items at)) piece.now) }
    ensures refused { OnErr result (files_of files.new.items ≡ files_of files.old.items) }
    ensures place { IsPlace files.new.items (name_at files.old.items at) at }
{
    files[at].bytes.extend_from_slice(piece)?;
    Ok(())
}
