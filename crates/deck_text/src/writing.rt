//! The deck that accepted statements say.
ghost use Rattle.std.specs.Prelude.{◌≡◌, List as Items, Some, None, pos, true, unsigned_abs, IfOk, IfNone, IfSome, IsSome};
ghost use Rattle.deck_text.specs.Decks.{names_of, pair, combined, resized, step_of, steps_of, outputs_of, setting_in, unit_of, top_of, IsDeckOf};
ghost use Rattle.deck_text.specs.Indexes.{IsIndexOf};
ghost use Rattle.deck_text.specs.Statements.{Said as ASaid};
ghost use Rattle.deck_text.specs.SaidViews.{said_views};
ghost use Rattle.deck_text.specs.Views.{operation_view};

use crate::deck::{Deck, Output, Step};
use crate::index::Index;
use crate::said::Said;
use crate::settings::{BAND, LIMITS, band_in, frame_in, limits_in, top_in, unit_in};
use crate::statement::{CellWord, Operation, Operator, Sizing, Statement};
use crate::text::Text;
use geo_stream::{List, NoMemory};
use layout_model::{Name, NameBad, Pair};
use std::alloc::Global;

// A layer and a datatype in range.
fn pair_of(layer: i64, datatype: i64) -> Pair
    ensures { result ≡ pair layer datatype }
{
    Pair {
        layer: layer.unsigned_abs(),
        datatype: datatype.unsigned_abs(),
    }
}

// Two areas combined.
fn combined(operator: Operator, a: usize, b: usize) -> Step
    ensures { result ≡ combined operator a b }
{
    match operator {
        Operator::Or => Step::Or(a, b),
        Operator::And => Step::And(a, b),
        Operator::Sub => Step::Sub(a, b),
        Operator::Xor => Step::Xor(a, b),
    }
}

// An area sized.
fn resized(sizing: Sizing, a: usize, dx: i64, dy: i64) -> Step
    ensures { result ≡ resized sizing a dx dy }
{
    match sizing {
        Sizing::Grow => Step::Grow(a, dx, dy),
        Sizing::Shrink => Step::Shrink(a, dx, dy),
    }
}

// The step of an operation.
fn step_of(index: &Index, operation: &Operation) -> Step
    ensures { (saids : Items ASaid) → IsIndexOf saids index.now → result ≡ step_of (names_of saids) (operation_view operation.now) }
{
    match operation {
        Operation::Layer(layer, datatype) => Step::Layer(pair_of(*layer, *datatype)),
        Operation::Combine(operator, a, b) => combined(
            *operator,
            index.number_of(a),
            index.number_of(b),
        ),
        Operation::Resize(sizing, a, dx, dy) => resized(*sizing, index.number_of(a), *dx, *dy),
        Operation::Invert(a) => Step::Invert(index.number_of(a)),
        Operation::Mirror(a, m) => Step::Mirror(index.number_of(a), *m),
    }
}

// The steps of the definitions in order.
fn steps_of(alloc: Global, saids: &[Said], index: &Index) -> Result<List<Step>, NoMemory>
    requires { IsIndexOf (said_views saids.now) index.now }
    ensures { IfOk result (λ steps. steps ≡ steps_of (said_views saids.now)) }
{
    let mut steps = List::new(alloc);
    for said in saids {
        match &said.says {
            Statement::Set(_) => {}
            Statement::Define(_, operation) => steps.push(step_of(index, operation))?,
            Statement::Write(_) => {}
        }
    }
    Ok(steps)
}

// The outputs in order.
fn outputs_of(alloc: Global, saids: &[Said], index: &Index) -> Result<List<Output>, NoMemory>
    requires { IsIndexOf (said_views saids.now) index.now }
    ensures { IfOk result (λ outputs. outputs ≡ outputs_of (said_views saids.now)) }
{
    let mut outputs = List::new(alloc);
    for said in saids {
        match &said.says {
            Statement::Set(_) => {}
            Statement::Define(_, _) => {}
            Statement::Write(writing) => {
                let file = Text::new(alloc, writing.file)?;
                outputs.push(Output {
                    name: index.number_of(writing.name),
                    file,
                    pair: pair_of(writing.layer, writing.datatype),
                })?;
            }
        }
    }
    Ok(outputs)
}

// The name of the top cell.
fn name_of(alloc: Global, cell: CellWord) -> Result<Name, NoMemory>
    ensures { IfOk result (λ name. name ≡ cell.entry.bytes.now) }
{
    match Name::new(alloc, cell.bytes) {
        Ok(name) => Ok(name),
        Err(NameBad::Form) => unreachable!(),
        Err(NameBad::NoMemory) => Err(NoMemory),
    }
}

/// The deck that the statements say.
pub(crate) fn deck_of(alloc: Global, saids: &[Said], index: &Index) -> Result<Deck, NoMemory>
    requires index { IsIndexOf (said_views saids.now) index.now }
    requires unit { IsSome (setting_in unit_of (said_views saids.now)) }
    requires top { IsSome (setting_in top_of (said_views saids.now)) }
    ensures { IfOk result (IsDeckOf (said_views saids.now)) }
{
    let Some(unit) = unit_in(saids) else {
        unreachable!();
    };
    let Some(top) = top_in(saids) else {
        unreachable!();
    };
    Ok(Deck {
        unit: unit as u32,
        top: name_of(alloc, top)?,
        band: band_in(saids).unwrap_or(BAND),
        limits: limits_in(saids).unwrap_or(LIMITS),
        frame: frame_in(saids),
        steps: steps_of(alloc, saids, index)?,
        outputs: outputs_of(alloc, saids, index)?,
    })
}
