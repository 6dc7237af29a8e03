//! The command `shots`: the listing of a shot file.

ghost use Rattle.std.specs.Prelude.{◌≡◌, ◌⊎◌, IsTrue};
ghost use Rattle.depot.specs.Counts.{NeverFall, Rose};
ghost use Rattle.mdp_job.specs.Runs.{run_of};
ghost use Rattle.mdp_job.specs.ShotFiles.{listed};
ghost use Rattle.mdp_job.specs.FileAnswers.{IsFileAnswer, IsPlainData, shot_data};
ghost use Rattle.mdp_job.specs.Table.{listing_command};
ghost use Rattle.mdp_job.specs.Parts.{IsSaidSo, IsOfFile, IsOfWriting, refuses_shots, CountsFor};

use crate::ending::fault_status;
use crate::files::read_shot_file;
use depot::Depot;
use job_report::Status;
use shot_listing::say_listing;
use shot_reader::ShotFile;
use std::alloc::Global;

// Says the listing of a shot file.
fn say_file<D: Depot>(file: &ShotFile, depot: &mut D) -> Status
    requires { IsPlainData (shot_data file.now) }
    ensures said { IsTrue D.tells → IsSaidSo (D.content depot.old) (D.content depot.new)
        (Rose (D.counts depot.old).write_faults (D.counts depot.new).write_faults)
        (Rose (D.counts depot.old).refused (D.counts depot.new).refused)
        (listed (shot_data file.now)) result }
    ensures write_fault { result ≡ Status.WriteFault
        → Rose (D.counts depot.old).write_faults (D.counts depot.new).write_faults }
    ensures kind { IsOfWriting result }
    ensures counts { CountsFor (D.counts depot.old) (D.counts depot.new) result }
    ensures counted { NeverFall (D.counts depot.old) (D.counts depot.new) }
{
    match say_listing(depot, file.unit, file.pair, file.shots.as_slice()) {
        Ok(()) => Status::Done,
        Err(bad) => fault_status(bad),
    }
}

/// Reads a shot file and prints its listing.
pub(crate) fn list_shots<D: Depot>(alloc: Global, file: &str, depot: &mut D) -> Status
    ensures answer { IsTrue D.tells → IsFileAnswer listing_command
        (run_of (D.content depot.old) (D.content depot.new) (D.counts depot.old) (D.counts depot.new))
        file.now result }
    ensures write_fault { result ≡ Status.WriteFault
        → Rose (D.counts depot.old).write_faults (D.counts depot.new).write_faults }
    ensures read_fault { result ≡ Status.ReadFault
        → Rose (D.counts depot.old).read_faults (D.counts depot.new).read_faults ⊎ IsTrue D.tells }
    ensures kind { IsOfFile refuses_shots result }
    ensures counts { CountsFor (D.counts depot.old) (D.counts depot.new) result }
    ensures counted { NeverFall (D.counts depot.old) (D.counts depot.new) }
{
    match read_shot_file(alloc, file, depot) {
        Ok(read) => say_file(&read, depot),
        Err(status) => status,
    }
}
