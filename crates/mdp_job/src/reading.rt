//! Files that can't be read, and an input that isn't accepted.

ghost use Rattle.std.specs.Prelude.{◌≡◌, None};
ghost use Rattle.mdp_job.specs.Parts.{refused_status, status_of, top_of};

use depot::Refused;
use geo_stream::Refusal;
use job_input::InputBad;
use job_report::{Ending, Status};

/// The answer to a file that wasn't read, where `long` is that to a file past its limit.
pub(crate) fn refused_status(refused: Refused, long: Status) -> Status
    ensures { result ≡ refused_status refused long }
{
    match refused {
        Refused::Fault => Status::ReadFault,
        Refused::TooLong => long,
        Refused::NoMemory => Status::NoMemory,
    }
}

/// The ending where deck or layout aren't accepted.
pub(crate) fn refused_input(refusal: Refusal<InputBad>) -> Ending
    ensures status { result.status ≡ status_of refusal }
    ensures top { result.top ≡ top_of refusal }
    ensures outputs { result.outputs ≡ None }
{
    match refusal {
        Refusal::Fault(InputBad::Deck(fault)) => Ending::plain(Status::Deck(fault)),
        Refusal::Fault(InputBad::Layout(fault, top)) => Ending {
            status: Status::Layout(fault),
            top: Some(top),
            outputs: None,
        },
        Refusal::Fault(InputBad::ReadFault) => Ending::plain(Status::ReadFault),
        Refusal::NoMemory => Ending::plain(Status::NoMemory),
    }
}
