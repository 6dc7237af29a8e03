//! The command `density`: the triangles of each output of a deck, counted in windows.
ghost use Rattle.std.specs.Prelude.{◌≡◌, ◌⊎◌, ◌≤◌, pos, IsTrue, None};
ghost use Rattle.depot.specs.Counts.{NeverFall, Rose};
ghost use Rattle.deck_plan.specs.Plans.{IsRead};
ghost use Rattle.mdp_job.specs.Runs.{run_of};
ghost use Rattle.mdp_job.specs.Densities.{AreCounted, IsDensityAnswer};
ghost use Rattle.mdp_job.specs.Parts.{IsOfInput, IsOfWriting, refuses_none, CountsFor};

use crate::ending::fault_status;
use crate::reading::refused_input;
use deck_plan::Plan;
use density_report::say_densities;
use depot::Depot;
use job_input::{Input, read_input};
use job_report::{Ending, Status};
use std::alloc::Global;

// Says the windows of the outputs of an accepted input.
fn count_all<D: Depot>(alloc: Global, size: u32, input: &Input, depot: &mut D) -> Status
    requires read { IsRead input.now.deck }
    requires size { 64 ≤ size × size ≤ 16777216 }
    ensures counted_so { IsTrue D.tells → AreCounted (D.content depot.old) (D.content depot.new)
        (Rose (D.counts depot.old).write_faults (D.counts depot.new).write_faults) (pos size) input.now result }
    ensures write_fault { result ≡ Status.WriteFault
        → Rose (D.counts depot.old).write_faults (D.counts depot.new).write_faults }
    ensures kind { IsOfWriting result }
    ensures counts { CountsFor (D.counts depot.old) (D.counts depot.new) result }
    ensures counted { NeverFall (D.counts depot.old) (D.counts depot.new) }
{
    let Ok(plan) = Plan::new(alloc, &input.deck, &input.tree) else {
        return Status::NoMemory;
    };
    match say_densities(alloc, depot, &plan, i64::from(size)) {
        Ok(()) => Status::Done,
        Err(bad) => fault_status(bad),
    }
}

/// Reads deck and layout, and prints for each of the deck's outputs how many of its triangles are in each window of
/// this size, 64 to 16,777,216 half units.
pub(crate) fn density<D: Depot>(
    alloc: Global,
    size: u32,
    layout: &str,
    deck: &str,
    depot: &mut D,
) -> Ending
    requires { 64 ≤ size × size ≤ 16777216 }
    ensures answer { IsTrue D.tells → IsDensityAnswer
        (run_of (D.content depot.old) (D.content depot.new) (D.counts depot.old) (D.counts depot.new))
        (pos size) layout.now deck.now result.status result.top }
    ensures outputs { result.outputs ≡ None }
    ensures write_fault { result.status ≡ Status.WriteFault
        → Rose (D.counts depot.old).write_faults (D.counts depot.new).write_faults }
    ensures read_fault { result.status ≡ Status.ReadFault
        → Rose (D.counts depot.old).read_faults (D.counts depot.new).read_faults ⊎ IsTrue D.tells }
    ensures kind { IsOfInput refuses_none result.status }
    ensures counts { CountsFor (D.counts depot.old) (D.counts depot.new) result.status }
    ensures counted { NeverFall (D.counts depot.old) (D.counts depot.new) }
{
    match read_input(alloc, depot, layout, deck) {
        Ok(input) => Ending::plain(count_all(alloc, size, &input, depot)),
        Err(refusal) => refused_input(refusal),
    }
}
