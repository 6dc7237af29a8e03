//! What a command answers where it ends by writing or printing.
ghost use Rattle.std.specs.Prelude.{◌≡◌, IsTrue};
ghost use Rattle.depot.specs.Counts.{NeverFall, Rose};
ghost use Rattle.job_report.specs.Pieces.{spelled};
ghost use Rattle.mdp_job.specs.Parts.{fault_status, IsSaidSo, IsOfWriting, CountsFor};

use depot::{Depot, DepotBad};
use job_report::{Piece, Status, say_pieces};

/// The answer to a refused write.
pub(crate) fn fault_status(bad: DepotBad) -> Status
    ensures { result ≡ fault_status bad }
{
    match bad {
        DepotBad::Failed => Status::WriteFault,
        DepotBad::NoMemory => Status::NoMemory,
    }
}

/// Prints the last text of a command.
pub(crate) fn say_text<D: Depot>(pieces: &[Piece], depot: &mut D) -> Status
    ensures said { IsTrue D.tells → IsSaidSo (D.content depot.old) (D.content depot.new)
        (Rose (D.counts depot.old).write_faults (D.counts depot.new).write_faults)
        (Rose (D.counts depot.old).refused (D.counts depot.new).refused)
        (spelled pieces.now) result }
    ensures write_fault { result ≡ Status.WriteFault
        → Rose (D.counts depot.old).write_faults (D.counts depot.new).write_faults }
    ensures kind { IsOfWriting result }
    ensures counts { CountsFor (D.counts depot.old) (D.counts depot.new) result }
    ensures counted { NeverFall (D.counts depot.old) (D.counts depot.new) }
{
    match say_pieces(depot, pieces) {
        Ok(()) => Status::Done,
        Err(bad) => fault_status(bad),
    }
}
