//! The command `check`: the files of a deck's outputs, judged by a layout, and the report on them.
ghost use Rattle.std.specs.Prelude.{◌≡◌, ◌⊎◌, None, Some, IsTrue};
ghost use Rattle.depot.specs.Counts.{NeverFall, Rose};
ghost use Rattle.deck_plan.specs.Plans.{IsRead};
ghost use Rattle.mdp_job.specs.Runs.{run_of};
ghost use Rattle.mdp_job.specs.Checking.{checked_status, IsChecked, IsCheckAnswer, HasOutputs};
ghost use Rattle.mdp_job.specs.Parts.{IsOfInput, refuses_output, CountsFor};

use crate::faults::fault_of;
use crate::reading::refused_input;
use crate::reporting::say_report_on;
use deck_plan::Plan;
use depot::Depot;
use file_check::{CheckBad, check_files};
use geo_stream::Refusal;
use job_input::{Input, read_input};
use job_report::{Ending, Status};
use std::alloc::Global;

// The answer to files that aren't all exact.
fn checked_status(refusal: Refusal<CheckBad>) -> Status
    ensures { result ≡ checked_status refusal }
{
    match refusal {
        Refusal::Fault(CheckBad::Refused(place, fault)) => Status::No(place, fault_of(fault)),
        Refusal::Fault(CheckBad::ReadFault) => Status::ReadFault,
        Refusal::NoMemory => Status::NoMemory,
    }
}

// Judges the files of an accepted input's outputs, and says the report where all are exact.
fn check_all<D: Depot>(alloc: Global, input: &Input, depot: &mut D) -> Status
    requires { IsRead input.now.deck }
    ensures checked { IsTrue D.tells → IsChecked
        (run_of (D.content depot.old) (D.content depot.new) (D.counts depot.old) (D.counts depot.new))
        input.now result }
    ensures write_fault { result ≡ Status.WriteFault
        → Rose (D.counts depot.old).write_faults (D.counts depot.new).write_faults }
    ensures read_fault { result ≡ Status.ReadFault
        → Rose (D.counts depot.old).read_faults (D.counts depot.new).read_faults ⊎ IsTrue D.tells }
    ensures kind { IsOfInput refuses_output result }
    ensures counts { CountsFor (D.counts depot.old) (D.counts depot.new) result }
    ensures counted { NeverFall (D.counts depot.old) (D.counts depot.new) }
{
    let Ok(plan) = Plan::new(alloc, &input.deck, &input.tree) else {
        return Status::NoMemory;
    };
    match check_files(alloc, depot, &plan) {
        Ok(sums) => say_report_on("exact", input, &sums, depot),
        Err(refusal) => checked_status(refusal),
    }
}

// Judges the files of an accepted input's outputs, and says the report where all are exact. The outputs are kept for
// the line of a refused file.
fn check_input<D: Depot>(alloc: Global, input: Input, depot: &mut D) -> Ending
    requires { IsRead input.deck }
    ensures checked { IsTrue D.tells → IsChecked
        (run_of (D.content depot.old) (D.content depot.new) (D.counts depot.old) (D.counts depot.new))
        input result.status }
    ensures top { result.top ≡ None }
    ensures outputs { result.outputs ≡ Some input.deck.outputs }
    ensures write_fault { result.status ≡ Status.WriteFault
        → Rose (D.counts depot.old).write_faults (D.counts depot.new).write_faults }
    ensures read_fault { result.status ≡ Status.ReadFault
        → Rose (D.counts depot.old).read_faults (D.counts depot.new).read_faults ⊎ IsTrue D.tells }
    ensures kind { IsOfInput refuses_output result.status }
    ensures counts { CountsFor (D.counts depot.old) (D.counts depot.new) result.status }
    ensures counted { NeverFall (D.counts depot.old) (D.counts depot.new) }
{
    let status = check_all(alloc, &input, depot);
    let deck = input.deck;
    Ending {
        status,
        top: None,
        outputs: Some(deck.outputs),
    }
}

/// Reads deck and layout, judges the files of the deck's outputs and prints the report where all are exact.
pub(crate) fn check<D: Depot>(alloc: Global, layout: &str, deck: &str, depot: &mut D) -> Ending
    ensures answer { IsTrue D.tells → IsCheckAnswer
        (run_of (D.content depot.old) (D.content depot.new) (D.counts depot.old) (D.counts depot.new))
        layout.now deck.now result.status result.top }
    ensures outputs { IsTrue D.tells
        → HasOutputs (D.content depot.old) layout.now deck.now result.status result.outputs }
    ensures write_fault { result.status ≡ Status.WriteFault
        → Rose (D.counts depot.old).write_faults (D.counts depot.new).write_faults }
    ensures read_fault { result.status ≡ Status.ReadFault
        → Rose (D.counts depot.old).read_faults (D.counts depot.new).read_faults ⊎ IsTrue D.tells }
    ensures kind { IsOfInput refuses_output result.status }
    ensures counts { CountsFor (D.counts depot.old) (D.counts depot.new) result.status }
    ensures counted { NeverFall (D.counts depot.old) (D.counts depot.new) }
{
    match read_input(alloc, depot, layout, deck) {
        Ok(input) => check_input(alloc, input, depot),
        Err(refusal) => refused_input(refusal),
    }
}
