//! What the system refused.
use crate::note::Note;
use depot::{FaultCause, SystemFault};
use geo_stream::NoMemory;
use std::io::ErrorKind;

// The system's reason, in words.
fn reason_of(kind: ErrorKind) -> &'static str {
    match kind {
        ErrorKind::NotFound => "no such file or folder",
        ErrorKind::PermissionDenied => "permission denied",
        ErrorKind::IsADirectory => "is a folder",
        ErrorKind::NotADirectory => "a part of the path isn't a folder",
        ErrorKind::StorageFull => "no space left",
        ErrorKind::QuotaExceeded => "the quota is used up",
        ErrorKind::FileTooLarge => "the file would be too large",
        ErrorKind::ReadOnlyFilesystem => "the file system is read-only",
        ErrorKind::WriteZero => "the system takes no more bytes",
        ErrorKind::BrokenPipe => "nobody reads what is written",
        ErrorKind::InvalidFilename => "the name is too long",
        ErrorKind::InvalidInput => "this can't be a file's name",
        ErrorKind::FilesystemLoop => "links lead in a circle",
        ErrorKind::ResourceBusy | ErrorKind::ExecutableFileBusy => "it is in use",
        _ => "an error of the disk or the system",
    }
}

// The cause, in words.
fn cause_text(cause: FaultCause) -> &'static str {
    match cause {
        FaultCause::System(kind) => reason_of(kind),
        FaultCause::IsInput => "it was read in this run, and isn't written over",
        FaultCause::AlreadyWritten =>
            "it was written in this run already, under this name or another",
        FaultCause::NoneStarted => "no file was begun",
    }
}

/// Tells which file was refused, and why.
pub(crate) fn tell_fault(note: &mut Note, fault: &SystemFault) -> Result<(), NoMemory> {
    let name = fault.name();
    note.put("    ")?;
    if name.is_empty() {
        note.put("standard output")?;
    } else {
        note.put(name)?;
    }
    note.put(": ")?;
    note.put(cause_text(fault.cause()))?;
    note.put("\n")
}
