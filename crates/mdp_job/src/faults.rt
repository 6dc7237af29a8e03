//! Why an output's file is refused, among the faults of all shot files.
ghost use Rattle.std.specs.Prelude.{◌≡◌};
ghost use Rattle.mdp_job.specs.Faults.{fault_of};

use file_check::CheckFault as OutputFault;
use job_report::CheckFault;

/// The fault of an output's file.
pub(crate) fn fault_of(fault: OutputFault) -> CheckFault
    ensures { result ≡ fault_of fault }
{
    match fault {
        OutputFault::Long => CheckFault::Long,
        OutputFault::Bad(bad) => CheckFault::Bad(bad),
        OutputFault::Head => CheckFault::Head,
        OutputFault::Miscovered(tile, count, wanted) => CheckFault::Miscovered(tile, count, wanted),
        OutputFault::TooLarge(shot) => CheckFault::TooLarge(shot),
    }
}
