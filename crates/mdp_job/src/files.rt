//! Shot files that are read: plain ones and packed ones.
ghost use Rattle.std.specs.Prelude.{◌≡◌, ◌⊎◌, [], IsTrue, IfOk, IfErr, OnOk};
ghost use Rattle.depot.specs.Content.{with_left};
ghost use Rattle.depot.specs.Counts.{NeverFall, Rose};
ghost use Rattle.mdp_job.specs.Runs.{run_of};
ghost use Rattle.mdp_job.specs.ShotFiles.{HoldsShots, HoldsPacked, IsShotsFault, IsPackedFault};
ghost use Rattle.mdp_job.specs.FileAnswers.{IsRefusedFile, IsOfRefusedFile, IsPlainData, IsPackedData, shot_data};
ghost use Rattle.mdp_job.specs.Parts.{refuses_shots, refuses_packed, CountsFor};

use crate::reading::refused_status;
use depot::{Depot, read_all};
use geo_stream::Refusal;
use job_report::{CheckFault, Status};
use shot_listing::MOST_SHOTS;
use shot_reader::{ShotFile, read_shots};
use shot_repeat::read_packed;
use std::alloc::Global;

/// A shot file has at most this many bytes, so a plain one has no more shots than that.
const SHOTS_LIMIT: usize = MOST_SHOTS;

/// Reads a plain shot file, or answers why it isn't taken.
pub(crate) fn read_shot_file<D: Depot>(
    alloc: Global,
    file: &str,
    depot: &mut D,
) -> Result<ShotFile, Status>
    ensures held { IfOk result (λ read. IsTrue D.tells
        → HoldsShots (D.content depot.old) file.now (shot_data read)) }
    ensures plain { IfOk result (λ read. IsPlainData (shot_data read)) }
    ensures whole { OnOk result (IsTrue D.tells
        → D.content depot.new ≡ with_left (D.content depot.old) []) }
    ensures uncounted { OnOk result (D.counts depot.new ≡ D.counts depot.old) }
    ensures refused { IfErr result (λ status. IsTrue D.tells → IsRefusedFile IsShotsFault
        (run_of (D.content depot.old) (D.content depot.new) (D.counts depot.old) (D.counts depot.new))
        file.now status) }
    ensures kind { IfErr result (IsOfRefusedFile refuses_shots) }
    ensures read_fault { IfErr result (λ status. status ≡ Status.ReadFault
        → Rose (D.counts depot.old).read_faults (D.counts depot.new).read_faults ⊎ IsTrue D.tells) }
    ensures counts { IfErr result (λ status. CountsFor (D.counts depot.old) (D.counts depot.new) status) }
    ensures counted { NeverFall (D.counts depot.old) (D.counts depot.new) }
{
    let bytes = match read_all(alloc, depot, file, SHOTS_LIMIT) {
        Ok(bytes) => bytes,
        Err(refused) => return Err(refused_status(refused, Status::No(0, CheckFault::Long))),
    };
    match read_shots(alloc, &bytes) {
        Ok(read) => Ok(read),
        Err(Refusal::Fault(bad)) => Err(Status::No(0, CheckFault::Bad(bad))),
        Err(Refusal::NoMemory) => Err(Status::NoMemory),
    }
}

/// Reads a packed shot file, or answers why it isn't taken.
pub(crate) fn read_packed_file<D: Depot>(
    alloc: Global,
    file: &str,
    depot: &mut D,
) -> Result<ShotFile, Status>
    ensures held { IfOk result (λ read. IsTrue D.tells
        → HoldsPacked (D.content depot.old) file.now (shot_data read)) }
    ensures packed { IfOk result (λ read. IsPackedData (shot_data read)) }
    ensures whole { OnOk result (IsTrue D.tells
        → D.content depot.new ≡ with_left (D.content depot.old) []) }
    ensures uncounted { OnOk result (D.counts depot.new ≡ D.counts depot.old) }
    ensures refused { IfErr result (λ status. IsTrue D.tells → IsRefusedFile IsPackedFault
        (run_of (D.content depot.old) (D.content depot.new) (D.counts depot.old) (D.counts depot.new))
        file.now status) }
    ensures kind { IfErr result (IsOfRefusedFile refuses_packed) }
    ensures read_fault { IfErr result (λ status. status ≡ Status.ReadFault
        → Rose (D.counts depot.old).read_faults (D.counts depot.new).read_faults ⊎ IsTrue D.tells) }
    ensures counts { IfErr result (λ status. CountsFor (D.counts depot.old) (D.counts depot.new) status) }
    ensures counted { NeverFall (D.counts depot.old) (D.counts depot.new) }
{
    let bytes = match read_all(alloc, depot, file, SHOTS_LIMIT) {
        Ok(bytes) => bytes,
        Err(refused) => return Err(refused_status(refused, Status::No(0, CheckFault::Long))),
    };
    match read_packed(alloc, &bytes) {
        Ok(read) => Ok(read),
        Err(Refusal::Fault(bad)) => Err(Status::No(0, CheckFault::Pack(bad))),
        Err(Refusal::NoMemory) => Err(Status::NoMemory),
    }
}
