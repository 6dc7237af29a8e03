//! The bytes of a shot file, judged for an output.
ghost use Rattle.std.specs.Prelude.{◌≡◌, ◌≤◌, ◌<◌, ◌*◌, ◌↔◌, Err, IsTrue, IfOk, IfSome, All, length};
ghost use Rattle.geo_stream.specs.Refusals.{IfFault};
ghost use Rattle.geo_stream.specs.declared.refusal.Refusal.TheVariants.{Fault, NoMemory};
ghost use Rattle.shot_checker.specs.Verdicts.{Fits};
ghost use Rattle.file_check.specs.Certificates.{IsCertified};
ghost use Rattle.file_check.specs.Files.{HasHeadOf, AreSumsOf, IsExactText, OfOutput};
ghost use Rattle.file_check.specs.Judgements.{data_of, IsBytesFault, IsShotsFault};

use crate::certificates::check_output;
use crate::faults::{CheckBad, CheckFault};
use deck_plan::Plan;
use deck_text::Output;
use depot::Depot;
use geo_stream::Refusal;
use half_grid::Trap;
use shot_checker::Verdict;
use shot_reader::{ShotFile, read_shots};
use shot_writer::{Sums, triangles_in};
use std::alloc::Global;

// Whether the shots may have this pair: they have it, or there are none.
fn has_pair(file: &ShotFile, output: &Output) -> bool
    ensures { IsTrue result ↔ IfSome file.now.pair (λ pair. pair ≡ output.now.pair) }
{
    match file.pair {
        None => true,
        Some(pair) => pair == output.pair,
    }
}

// Whether the head is that of the output: twice the deck's unit, and where there are shots the output's pair.
fn has_head(file: &ShotFile, plan: &Plan, output: &Output) -> bool
    ensures { IsTrue result ↔ HasHeadOf plan.now.deck output.now (data_of file.now) }
{
    if u64::from(file.unit) != 2 * u64::from(plan.deck().unit) {
        return false;
    }
    has_pair(file, output)
}

// The number of the shots, and that of their triangles.
fn sums_of(shots: &[Trap]) -> Sums
    requires { length shots.now ≤ 268435456 }
    ensures { AreSumsOf shots.now result }
{
    let mut triangles = 0;
    for shot in shots {
        triangles += triangles_in(shot);
    }
    Sums {
        shots: shots.len() as u128,
        triangles,
    }
}

// The refusal of the file of the output of this place, for this fault.
fn refused(place: usize, fault: CheckFault) -> Refusal<CheckBad>
    ensures { result ≡ Fault (CheckBad.Refused place fault) }
{
    Refusal::Fault(CheckBad::Refused(place, fault))
}

// Judges the shots of a file whose head is right, and tells the depot how far that is. A shot that doesn't fit is told even
// where memory is wanting.
fn judge_shots<D: Depot>(
    alloc: Global,
    depot: &mut D,
    plan: &Plan,
    place: usize,
    shots: &[Trap],
) -> Result<Sums, Refusal<CheckBad>>
    requires place { place < length plan.now.deck.outputs }
    requires few { length shots.now ≤ 268435456 }
    ensures ok { IfOk result (AreSumsOf shots.now) }
    ensures exact { IfOk result (λ _. IsCertified plan.now place shots.now) }
    ensures refused { IfFault result (IsShotsFault plan.now place shots.now) }
    ensures memory { result ≡ Err NoMemory → All (Fits plan.now.deck.limits) shots.now }
    ensures content { D.content depot.new ≡ D.content depot.old }
    ensures counts { D.counts depot.new ≡ D.counts depot.old }
{
    let verdict = check_output(alloc, depot, plan, place, shots)?;
    match verdict {
        Verdict::Exact => Ok(sums_of(shots)),
        Verdict::Miscovered(tile, count, wanted) => {
            Err(refused(place, CheckFault::Miscovered(tile, count, wanted)))
        }
        Verdict::TooLarge(k) => Err(refused(place, CheckFault::TooLarge(k))),
    }
}

// Judges the bytes of a file as those of this output.
fn judge_text<D: Depot>(
    alloc: Global,
    depot: &mut D,
    plan: &Plan,
    place: usize,
    output: &Output,
    bytes: &[u8],
) -> Result<Sums, Refusal<CheckBad>>
    requires place { place < length plan.now.deck.outputs }
    requires short { length bytes.now ≤ 268435456 }
    ensures ok { IfOk result (IsExactText plan.now place output.now bytes.now) }
    ensures refused { IfFault result (IsBytesFault plan.now place output.now bytes.now) }
    ensures content { D.content depot.new ≡ D.content depot.old }
    ensures counts { D.counts depot.new ≡ D.counts depot.old }
{
    let file = match read_shots(alloc, bytes) {
        Ok(file) => file,
        Err(Refusal::Fault(bad)) => return Err(refused(place, CheckFault::Bad(bad))),
        Err(Refusal::NoMemory) => return Err(Refusal::NoMemory),
    };
    if !has_head(&file, plan, output) {
        return Err(refused(place, CheckFault::Head));
    }
    judge_shots(alloc, depot, plan, place, file.shots.as_slice())
}

/// Judges the bytes of the file of an output. The depot is told how far that is, and is as before.
pub(crate) fn judge<D: Depot>(
    alloc: Global,
    depot: &mut D,
    plan: &Plan,
    place: usize,
    bytes: &[u8],
) -> Result<Sums, Refusal<CheckBad>>
    requires place { place < length plan.now.deck.outputs }
    requires short { length bytes.now ≤ 268435456 }
    ensures ok { IfOk result (λ sums. OfOutput plan.now place (λ output. IsExactText plan.now place output bytes.now sums)) }
    ensures refused { IfFault result (λ bad. OfOutput plan.now place (λ output. IsBytesFault plan.now place output bytes.now bad)) }
    ensures content { D.content depot.new ≡ D.content depot.old }
    ensures counts { D.counts depot.new ≡ D.counts depot.old }
{
    let output = &plan.deck().outputs.as_slice()[place];
    judge_text(alloc, depot, plan, place, output, bytes)
}
