//! How a command ended, and the line that is printed where it wasn't done.

ghost use Rattle.std.specs.Prelude.{◌≡◌, ◌⊎◌, None, IsTrue};
ghost use Rattle.depot.specs.Content.{with_said, IsPartSaid};
ghost use Rattle.depot.specs.Counts.{NeverFall, Rose};
ghost use Rattle.job_report.specs.Endings.{deck_fault_line, layout_fault_line, file_of, name_of, line_of};
ghost use Rattle.job_report.specs.Pieces.{spelled};

use crate::decks::deck_line;
use crate::layouts::gds_line;
use crate::oasis::oas_line;
use crate::pieces::{Line, LongLine, long, whole};
use crate::saying::say_pieces;
use crate::shot_lines::check_line;
use crate::status::Status;
use crate::trees::tree_line;
use deck_text::Output;
use depot::Depot;
use geo_stream::List;
use job_input::{DeckFault, LayoutFault};
use layout_model::Name;

/// How a command ended, with what its line may need.
#[derive(Drop)]
pub struct Ending {
    /// How it ended.
    pub status: Status,
    /// The name of the deck's top cell, where the layout is refused.
    pub top: Option<Name>,
    /// The deck's outputs, where their files were checked.
    pub outputs: Option<List<Output>>,
}

impl Ending {
    /// An ending whose line needs nothing else than its status.
    pub fn plain(status: Status) -> Ending
        ensures status { result.status ≡ status }
        ensures top { result.top ≡ None }
        ensures outputs { result.outputs ≡ None }
    {
        Ending {
            status,
            top: None,
            outputs: None,
        }
    }
}

fn deck_fault_line(fault: &DeckFault) -> Line<'_>
    ensures { spelled result ≡ deck_fault_line fault.now }
{
    match fault {
        DeckFault::Long => whole(b"deck refused: longer than 65536 bytes\n"),
        DeckFault::Bad(bad) => deck_line(bad),
    }
}

fn layout_fault_line<'a>(top: &'a [u8], fault: &'a LayoutFault) -> Line<'a>
    ensures { spelled result ≡ layout_fault_line top.now fault.now }
{
    match fault {
        LayoutFault::Long => whole(b"layout refused: longer than 268435456 bytes\n"),
        LayoutFault::Gds(bad) => gds_line(bad),
        LayoutFault::Oas(bad) => oas_line(bad),
        LayoutFault::Tree(bad) => tree_line(top, bad),
    }
}

// The file that an ending is about: that of the refused output, and else the file of this name.
fn file_of<'a>(word: &'a str, ending: &'a Ending) -> &'a str
    ensures { result.now ≡ file_of word.now ending.now.outputs ending.now.status }
{
    let Status::No(place, _) = &ending.status else {
        return word;
    };
    let Some(outputs) = &ending.outputs else {
        return word;
    };
    match outputs.as_slice().get(*place) {
        Some(output) => output.file.as_str(),
        None => word,
    }
}

// The name of the top cell, and no bytes where it isn't told.
fn name_of(ending: &Ending) -> &[u8]
    ensures { result.now ≡ name_of ending.now.top }
{
    match &ending.top {
        Some(top) => top.bytes(),
        None => b"",
    }
}

// The line of an ending.
fn line_of<'a>(file: &'a str, ending: &'a Ending) -> LongLine<'a>
    ensures { spelled result ≡ line_of file.now (name_of ending.now.top) ending.now.status }
{
    match &ending.status {
        Status::Done => long(whole(b"")),
        Status::Words => long(whole(b"words refused\n")),
        Status::Deck(fault) => long(deck_fault_line(fault)),
        Status::Layout(fault) => long(layout_fault_line(name_of(ending), fault)),
        Status::ReadFault => long(whole(b"read fault\n")),
        Status::WriteFault => long(whole(b"write fault\n")),
        Status::NoMemory => long(whole(b"want of memory\n")),
        Status::No(_, fault) => check_line(file, fault),
    }
}

/// Prints the line of an ending other than Done, where the word after the command is this one. A failure to print it
/// changes nothing.
pub fn say_line<D: Depot>(depot: &mut D, word: &str, ending: &Ending)
    ensures done { ending.now.status ≡ Status.Done → depot.new ≡ depot.old }
    ensures said { IsTrue D.tells → IsPartSaid (D.content depot.old)
        (line_of (file_of word.now ending.now.outputs ending.now.status) (name_of ending.now.top) ending.now.status)
        (D.content depot.new) }
    ensures whole { IsTrue D.tells → ((D.content depot.new ≡ with_said (D.content depot.old)
        (line_of (file_of word.now ending.now.outputs ending.now.status) (name_of ending.now.top) ending.now.status))
        × (D.counts depot.new ≡ D.counts depot.old))
        ⊎ Rose (D.counts depot.old).write_faults (D.counts depot.new).write_faults
        ⊎ Rose (D.counts depot.old).refused (D.counts depot.new).refused }
    ensures reads { (D.counts depot.new).read_faults ≡ (D.counts depot.old).read_faults }
    ensures counted { NeverFall (D.counts depot.old) (D.counts depot.new) }
{
    if let Status::Done = &ending.status {
        return;
    }
    match say_pieces(depot, &line_of(file_of(word, ending), ending)) {
        Ok(()) => {}
        Err(_unsaid) => {}
    }
}
