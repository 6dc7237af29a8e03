//! The command `fracture`: the outputs of a deck, written of a layout, and the report on them.
ghost use Rattle.std.specs.Prelude.{◌≡◌, ◌⊎◌, IsTrue, None, length};
ghost use Rattle.depot.specs.Counts.{NeverFall, Rose};
ghost use Rattle.deck_plan.specs.Plans.{IsRead};
ghost use Rattle.mdp_job.specs.Runs.{run_of};
ghost use Rattle.mdp_job.specs.Outputs.{report_on};
ghost use Rattle.mdp_job.specs.Parts.{status_of, top_of, IsSaidSo, IsMade, IsAnswer, IsOfInput, IsOfWriting};
ghost use Rattle.mdp_job.specs.Parts.{refuses_none, CountsFor};

use crate::ending::fault_status;
use crate::reading::refused_input;
use crate::reporting::say_report_on;
use deck_plan::Plan;
use depot::Depot;
use job_input::{Input, read_input};
use job_report::{Ending, Status};
use shot_output::write_outputs;
use std::alloc::Global;

// Writes the outputs of an accepted input, and says the report.
fn write_all<D: Depot>(alloc: Global, input: &Input, depot: &mut D) -> Status
    requires { IsRead input.now.deck }
    ensures made { IsTrue D.tells → IsMade D.tells (D.content depot.old) (D.content depot.new)
        (Rose (D.counts depot.old).write_faults (D.counts depot.new).write_faults)
        (Rose (D.counts depot.old).refused (D.counts depot.new).refused) input.now result }
    ensures write_fault { result ≡ Status.WriteFault
        → Rose (D.counts depot.old).write_faults (D.counts depot.new).write_faults }
    ensures kind { IsOfWriting result }
    ensures counts { CountsFor (D.counts depot.old) (D.counts depot.new) result }
    ensures counted { NeverFall (D.counts depot.old) (D.counts depot.new) }
{
    let Ok(plan) = Plan::new(alloc, &input.deck, &input.tree) else {
        return Status::NoMemory;
    };
    match write_outputs(alloc, depot, &plan) {
        Ok(sums) => say_report_on("output", input, &sums, depot),
        Err(bad) => fault_status(bad),
    }
}

/// Reads deck and layout, writes the deck's outputs and prints the report.
pub(crate) fn fracture<D: Depot>(alloc: Global, layout: &str, deck: &str, depot: &mut D) -> Ending
    ensures answer { IsTrue D.tells → IsAnswer D.tells
        (run_of (D.content depot.old) (D.content depot.new) (D.counts depot.old) (D.counts depot.new))
        layout.now deck.now result.status result.top }
    ensures outputs { result.outputs ≡ None }
    ensures write_fault { result.status ≡ Status.WriteFault
        → Rose (D.counts depot.old).write_faults (D.counts depot.new).write_faults }
    ensures read_fault { result.status ≡ Status.ReadFault
        → Rose (D.counts depot.old).read_faults (D.counts depot.new).read_faults ⊎ IsTrue D.tells }
    ensures kind { IsOfInput refuses_none result.status }
    ensures counts { CountsFor (D.counts depot.old) (D.counts depot.new) result.status }
    ensures counted { NeverFall (D.counts depot.old) (D.counts depot.new) }
{
    match read_input(alloc, depot, layout, deck) {
        Ok(input) => Ending::plain(write_all(alloc, &input, depot)),
        Err(refusal) => refused_input(refusal),
    }
}
