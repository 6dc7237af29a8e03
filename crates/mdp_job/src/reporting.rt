//! The report on the outputs of an accepted input.
ghost use Rattle.std.specs.Prelude.{◌≡◌, IsTrue, length};
ghost use Rattle.depot.specs.Counts.{NeverFall, Rose};
ghost use Rattle.mdp_job.specs.Outputs.{report_of};
ghost use Rattle.mdp_job.specs.Parts.{IsSaidSo, IsOfWriting, CountsFor};

use crate::ending::fault_status;
use depot::Depot;
use job_input::Input;
use job_report::{Status, say_report};
use shot_writer::Sums;

/// Says the report on an accepted input whose outputs have these sums, with this word before each of them.
pub(crate) fn say_report_on<D: Depot>(
    word: &str,
    input: &Input,
    sums: &[Sums],
    depot: &mut D,
) -> Status
    requires { length input.now.deck.outputs ≡ length sums.now }
    ensures said { IsTrue D.tells → IsSaidSo (D.content depot.old) (D.content depot.new)
        (Rose (D.counts depot.old).write_faults (D.counts depot.new).write_faults)
        (Rose (D.counts depot.old).refused (D.counts depot.new).refused)
        (report_of word.now input.now sums.now) result }
    ensures write_fault { result ≡ Status.WriteFault
        → Rose (D.counts depot.old).write_faults (D.counts depot.new).write_faults }
    ensures kind { IsOfWriting result }
    ensures counts { CountsFor (D.counts depot.old) (D.counts depot.new) result }
    ensures counted { NeverFall (D.counts depot.old) (D.counts depot.new) }
{
    let tree = &input.tree;
    let counts = tree.counts();
    let outputs = input.deck.outputs.as_slice();
    match say_report(
        depot,
        input.format,
        tree.cells().len(),
        &counts,
        word,
        outputs,
        sums,
    ) {
        Ok(()) => Status::Done,
        Err(bad) => fault_status(bad),
    }
}
