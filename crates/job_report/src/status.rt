//! The ways in which a command ends, and the number of each.
use crate::faults::CheckFault;
use job_input::{DeckFault, LayoutFault};

/// How a command ended.
#[derive(Debug, Drop)]
pub enum Status {
    /// The command was done.
    Done,
    /// The words are no command.
    Words,
    /// The deck was read and is refused.
    Deck(DeckFault),
    /// The deck is accepted, and the layout was read and is refused.
    Layout(LayoutFault),
    /// A read failed, or a file that has to be read isn't there.
    ReadFault,
    /// A write failed.
    WriteFault,
    /// Memory ran out.
    NoMemory,
    /// A shot file was read and is refused. The number is its output's place from 0; it is 0 but for `check`.
    No(usize, CheckFault),
}

impl Status {
    ghost use Rattle.std.specs.Prelude.{◌≡◌};
    ghost use Rattle.job_report.specs.Codes.{code_of};

    /// The number with which the program ends.
    pub fn code(&self) -> u8
        ensures { result ≡ code_of self.now }
    {
        match self {
            Status::Done => 0,
            Status::Words => 1,
            Status::Deck(_) => 2,
            Status::Layout(_) => 3,
            Status::ReadFault => 4,
            Status::WriteFault => 5,
            Status::NoMemory => 6,
            Status::No(_, _) => 7,
        }
    }
}
