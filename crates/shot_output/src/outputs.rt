//! The outputs of a deck, each written into its file.
ghost use Rattle.std.specs.Prelude.{◌<◌, IsTrue, IfOk, OnErr, length};
ghost use Rattle.depot.specs.Counting.{CountsWritesInMemory};
ghost use Rattle.shot_output.specs.Files.{IsWritten, IsOutputCutShort, AreWritten, AreCutShort};

use crate::bands::put_bands;
use deck_plan::Plan;
use depot::{Depot, DepotBad};
use shot_writer::{Head, ShotWriter, Sums};
use std::alloc::Global;

/// Writes one output of the deck into its file, band by band in ascending order: the shots of a band are written before
/// the next band is computed. It answers the sums of the shots. After a refusal the file is as before, or holds a prefix
/// of this text; memory may have run out for the area, which no depot counts.
pub fn write_output<D: Depot>(
    alloc: Global,
    depot: &mut D,
    plan: &Plan,
    output: usize,
) -> Result<Sums, DepotBad>
    requires { output < length plan.now.deck.outputs }
    ensures ok { IfOk result (λ sums. IsWritten plan.now output D.tells (D.content depot.old) (D.content depot.new) sums) }
    ensures refused { OnErr result (IsTrue D.tells
        → IsOutputCutShort plan.now output (D.content depot.old) (D.content depot.new)) }
    ensures counts { CountsWritesInMemory (D.counts depot.old) (D.counts depot.new) result }
{
    plan.has_lists(output);
    let deck = plan.deck();
    let rows = plan.rows(output);
    let written = &deck.outputs.as_slice()[output];
    let head = Head {
        unit: 2 * deck.unit,
        pair: written.pair,
    };
    let mut writer = ShotWriter::start(depot, written.file.as_str(), head)?;
    put_bands(alloc, depot, &mut writer, plan, output, rows)?;
    writer.finish(depot)
}

/// Writes all outputs of the deck in its order, and stops at the first refusal. It answers the sums of each. After a
/// refusal there is an output before which all are whole, whose file is as before or holds a prefix of its text, and
/// after which nothing has changed.
pub fn write_outputs<D: Depot>(
    alloc: Global,
    depot: &mut D,
    plan: &Plan,
) -> Result<Vec<Sums>, DepotBad>
    ensures ok { IfOk result (λ sums. AreWritten plan.now (length plan.now.deck.outputs) D.tells (D.content depot.old) (D.content depot.new) sums.items) }
    ensures refused { OnErr result (AreCutShort plan.now D.tells (D.content depot.old) (D.content depot.new)) }
    ensures counts { CountsWritesInMemory (D.counts depot.old) (D.counts depot.new) result }
{
    let count = plan.deck().outputs.as_slice().len();
    let mut all = Vec::new(alloc);
    for output in 0..count {
        let sums = write_output(alloc, depot, plan, output)?;
        if all.push(sums).is_err() {
            return Err(DepotBad::NoMemory);
        }
    }
    Ok(all)
}
