//! A command that has ended, explained.
ghost use Rattle.std.specs.Prelude.{IsTrue};
ghost use Rattle.depot.specs.Content.{ChangesLeftOnly};

use crate::advice::{Advice, READ_FAULT, WANT_OF_MEMORY, WORDS, WRITE_FAULT};
use crate::names::{Names, names_of};
use crate::note::Note;
use crate::system::tell_fault;
use crate::telling::{
    explain_deck, explain_file, explain_layout, explain_output, tell_advice, tell_means,
};
use crate::warning::warn;
use crate::words::tell_words;
use depot::{Depot, SystemFault};
use geo_stream::NoMemory;
use job_report::{CheckFault, Status};
use job_words::{check_names, file_word};
use std::alloc::Global;

/// A command that has ended.
#[derive(Clone, Copy, Debug)]
pub struct Ended<'a> {
    /// Its words, without the program's own name.
    pub words: &'a [String],
    /// How it ended.
    pub status: &'a Status,
    /// The first call that the system refused.
    pub fault: Option<&'a SystemFault>,
    /// How many shots each output of the report has.
    pub shots: &'a [u64],
}

/// What is told where the system doesn't hand over the words of the command.
pub const WITHOUT_WORDS: &str =
    "nettletide: the system didn't hand over the words of the command, or memory for them ran out\n";

// Tells of a refusal of the system.
fn tell_system(note: &mut Note, ended: &Ended, advice: Advice) -> Result<(), NoMemory> {
    tell_means(note, "", advice)?;
    if let Some(fault) = ended.fault {
        tell_fault(note, fault)?;
    }
    tell_advice(note, advice)
}

// Tells of words that are no command.
fn tell_refused_words(note: &mut Note, words: &[String]) -> Result<(), NoMemory> {
    tell_means(note, "", WORDS)?;
    tell_words(note, words)?;
    tell_advice(note, WORDS)
}

// Tells of a refused shot file.
fn tell_no<D: Depot>(
    alloc: Global,
    note: &mut Note,
    words: &[String],
    output: usize,
    fault: &CheckFault,
    depot: &mut D,
) -> Result<(), NoMemory>
    ensures reads { IsTrue D.tells → ChangesLeftOnly (D.content depot.old) (D.content depot.new) }
{
    match check_names(words) {
        Some((_layout, deck)) => explain_output(alloc, note, deck, output, fault, depot),
        None => explain_file(alloc, note, file_word(words), fault, depot),
    }
}

// Tells of an answer about a deck and a layout.
fn tell_input<D: Depot>(
    alloc: Global,
    note: &mut Note,
    names: Names,
    ended: &Ended,
    depot: &mut D,
) -> Result<(), NoMemory>
    ensures reads { IsTrue D.tells → ChangesLeftOnly (D.content depot.old) (D.content depot.new) }
{
    match ended.status {
        Status::Done => warn(alloc, note, ended.words, names, ended.shots, depot),
        Status::Deck(fault) => explain_deck(alloc, note, names, fault, depot),
        Status::Layout(fault) => explain_layout(alloc, note, names, fault, depot),
        _ => Ok(()),
    }
}

// Tells of all answers.
fn tell<D: Depot>(
    alloc: Global,
    note: &mut Note,
    ended: &Ended,
    depot: &mut D,
) -> Result<(), NoMemory>
    ensures reads { IsTrue D.tells → ChangesLeftOnly (D.content depot.old) (D.content depot.new) }
{
    match ended.status {
        Status::Words => tell_refused_words(note, ended.words),
        Status::ReadFault => tell_system(note, ended, READ_FAULT),
        Status::WriteFault => tell_system(note, ended, WRITE_FAULT),
        Status::NoMemory => tell_system(note, ended, WANT_OF_MEMORY),
        Status::No(output, fault) => tell_no(alloc, note, ended.words, *output, fault, depot),
        Status::Done | Status::Deck(_) | Status::Layout(_) => match names_of(ended.words) {
            Some(names) => tell_input(alloc, note, names, ended, depot),
            None => Ok(()),
        },
    }
}

/// What a person is told of a command that has ended, as lines: what was refused and why, where it is and what to do, or
/// the warnings of a run that went well. Nothing is told where memory runs out for the text. Files of the command are read
/// again where a place in them is told; of the depot only what is left to be read changes.
pub fn explain<D: Depot>(alloc: Global, ended: &Ended, depot: &mut D) -> Option<Vec<u8>>
    ensures reads { IsTrue D.tells → ChangesLeftOnly (D.content depot.old) (D.content depot.new) }
{
    let mut note = Note::new(alloc);
    match tell(alloc, &mut note, ended, depot) {
        Ok(()) => Some(note.into_text()),
        Err(NoMemory) => None,
    }
}
