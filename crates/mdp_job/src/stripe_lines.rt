//! The lines of stripes' files.

ghost use Rattle.std.specs.Prelude.{◌≡◌, ◌++◌, IsTrue, flat_map};
ghost use Rattle.depot.specs.Counts.{NeverFall, Rose};
ghost use Rattle.depot.specs.Counting.{CountsWrites};
ghost use Rattle.depot.specs.Doing.{Puts, Says};
ghost use Rattle.job_report.specs.Pieces.{spelled};
ghost use Rattle.mdp_job.specs.Splitting.{stripe_line, sums_text, lines_of_stripes};
ghost use Rattle.mdp_job.specs.Parts.{IsSaidSo, IsOfWriting, CountsFor};

use crate::ending::fault_status;
use depot::{Buffer, Depot, DepotBad, flush};
use field_output::StripeSums;
use job_report::{Piece, Status, put_pieces};
use shot_writer::Sums;

// The line of a stripe, as pieces.
#[tactic(auto, unfolding(crate::specs::Splitting::stripe_line))]
fn stripe_pieces(stripe: &StripeSums) -> [Piece<'static>; 7]
    ensures { spelled result ≡ stripe_line stripe.now }
{
    [
        Piece::Text(b"stripe "),
        Piece::Number(stripe.number),
        Piece::Text(b" shots "),
        Piece::Count(stripe.sums.shots),
        Piece::Text(b" triangles "),
        Piece::Count(stripe.sums.triangles),
        Piece::Text(b"\n"),
    ]
}

// The line of all stripes, as pieces.
fn all_pieces(all: &Sums) -> [Piece<'static>; 5]
    ensures { spelled result ≡ sums_text all.now }
{
    [
        Piece::Text(b"shots "),
        Piece::Count(all.shots),
        Piece::Text(b" triangles "),
        Piece::Count(all.triangles),
        Piece::Text(b"\n"),
    ]
}

// Puts the lines of stripes.
fn put_stripes<D: Depot>(
    depot: &mut D,
    buffer: &mut Buffer,
    each: &[StripeSums],
) -> Result<(), DepotBad>
    ensures content { Puts D.tells (D.content depot.old) (D.content depot.new)
        (buffer.old ++ flat_map stripe_line each.now) buffer.new result }
    ensures counts { CountsWrites (D.counts depot.old) (D.counts depot.new) result }
{
    for stripe in each {
        put_pieces(depot, buffer, &stripe_pieces(stripe))?;
    }
    Ok(())
}

// Says the lines of stripes, and that of all.
fn say_lines<D: Depot>(depot: &mut D, each: &[StripeSums], all: &Sums) -> Result<(), DepotBad>
    ensures content { Says D.tells (D.content depot.old) (D.content depot.new)
        (lines_of_stripes each.now all.now) result }
    ensures counts { CountsWrites (D.counts depot.old) (D.counts depot.new) result }
{
    let mut buffer = Buffer::new();
    put_stripes(depot, &mut buffer, each)?;
    put_pieces(depot, &mut buffer, &all_pieces(all))?;
    flush(depot, &mut buffer)
}

/// Prints how much each stripe's file is, and how much all are.
pub(crate) fn say_stripes<D: Depot>(each: &[StripeSums], all: &Sums, depot: &mut D) -> Status
    ensures said { IsTrue D.tells → IsSaidSo (D.content depot.old) (D.content depot.new)
        (Rose (D.counts depot.old).write_faults (D.counts depot.new).write_faults)
        (Rose (D.counts depot.old).refused (D.counts depot.new).refused)
        (lines_of_stripes each.now all.now) result }
    ensures write_fault { result ≡ Status.WriteFault
        → Rose (D.counts depot.old).write_faults (D.counts depot.new).write_faults }
    ensures kind { IsOfWriting result }
    ensures counts { CountsFor (D.counts depot.old) (D.counts depot.new) result }
    ensures counted { NeverFall (D.counts depot.old) (D.counts depot.new) }
{
    match say_lines(depot, each, all) {
        Ok(()) => Status::Done,
        Err(bad) => fault_status(bad),
    }
}
