//! What comes after END: names.
ghost use Rattle.std.specs.Prelude.{◌≡◌, Some, None, List as AList, ◌∷◌, true, map, All, OnOk, IfOk};
ghost use Rattle.geo_stream.specs.Refusals.{IfFault};
ghost use Rattle.layout_model.specs.Layouts.{IsPlacementOnGrid, IsCellOnGrid, AreDistinct};
ghost use Rattle.layout_model.specs.declared.pair.Pair.{Pair as APair};
ghost use Rattle.oas_reader.specs.Behind.{AreCellsBehind};
ghost use Rattle.oas_reader.specs.Items.{Item, records_in, NoItemEnds, is_end};
ghost use Rattle.oas_reader.specs.Finished.{cell_by, cells_by as the_cells_by, cell_items, AreTwins};
ghost use Rattle.oas_reader.specs.Meaning.{named};
ghost use Rattle.oas_reader.specs.Names.{name_called, first_twins};
ghost use Rattle.oas_reader.specs.Reading.{IsFaultOfNames};
ghost use Rattle.oas_reader.specs.Readers.{placings_of, ArePlacingsWithin, IsPlacingOnGrid, IsDraftWithin, IsDraftOnGrid, AreDraftsWithin, AreDraftsOf};
ghost use Rattle.oas_reader.specs.Naming.{IsCalledWithin, HaveSpans, AreNamesOf};

use crate::cells::{Draft, Drafts};
use crate::naming::{Cells, Names, name_of};
use crate::placing::Placing;
use crate::refusing::OasBad;
use geo_stream::{List, NoMemory, Refusal};
use layout_model::{Cell, Name, Placement};
use oas_record::Called;
use std::alloc::Global;

// The bytes of a name, which is there.
fn bytes_of<'a>(names: &Names<'a>, bytes: &'a [u8], called: Called) -> Result<&'a [u8], NoMemory>
    requires spans { HaveSpans bytes.now names.now }
    requires called { IsCalledWithin bytes.now called }
    ensures ok { (past : AList Item) → AreNamesOf bytes.now past names.now
        → IfOk result (λ name. name_called bytes.now (records_in past) called ≡ Some name.now) }
{
    match names.name_called(bytes, called) {
        Some(name) => Ok(name),
        None => Err(NoMemory),
    }
}

// Refuses the first cell that has the name of an earlier one.
fn look_at_cells<'a>(
    alloc: Global,
    bytes: &'a [u8],
    names: &Names<'a>,
    drafts: &[Draft],
) -> Result<(), Refusal<OasBad>>
    requires spans { HaveSpans bytes.now names.now }
    requires called { All (λ draft. IsCalledWithin bytes.now draft.called) drafts.now }
    ensures distinct { (past : AList Item) → AreNamesOf bytes.now past names.now
        → OnOk result (first_twins bytes.now (records_in past) (cell_items drafts.now) ≡ None) }
    ensures twins { (past : AList Item) → AreNamesOf bytes.now past names.now
        → IfFault result (AreTwins bytes.now (records_in past) (cell_items drafts.now)) }
{
    let mut cells = Cells::new(alloc, names.key());
    for draft in drafts {
        let name = bytes_of(names, bytes, draft.called)?;
        match cells.enter(name, draft.at) {
            Ok(()) => {}
            Err(bad) => return Err(bad),
        }
    }
    Ok(())
}

fn name_by<'a>(
    alloc: Global,
    bytes: &'a [u8],
    names: &Names<'a>,
    called: Called,
) -> Result<Name, NoMemory>
    requires spans { HaveSpans bytes.now names.now }
    requires called { IsCalledWithin bytes.now called }
    ensures ok { (past : AList Item) → AreNamesOf bytes.now past names.now
        → IfOk result (λ name. name_called bytes.now (records_in past) called ≡ Some name) }
{
    let name = bytes_of(names, bytes, called)?;
    name_of(alloc, name)
}

// The placements by name.
fn placements_of<'a>(
    alloc: Global,
    bytes: &'a [u8],
    names: &Names<'a>,
    placings: Vec<Placing>,
) -> Result<List<Placement>, NoMemory>
    requires spans { HaveSpans bytes.now names.now }
    requires called { ArePlacingsWithin bytes.now placings.items }
    ensures ok { (past : AList Item) → AreNamesOf bytes.now past names.now
        → IfOk result (λ placements. placements ≡ named bytes.now (records_in past) (placings_of placings.items)) }
    ensures grid { All IsPlacingOnGrid placings.items → IfOk result (All IsPlacementOnGrid) }
{
    let mut placements = List::new(alloc);
    for placing in placings {
        let target = name_by(alloc, bytes, names, placing.target)?;
        let Placing {
            orient,
            at,
            offsets,
            ..
        } = placing;
        let placement = Placement {
            target,
            orient,
            at,
            offsets,
        };
        match placements.push(placement) {
            Ok(()) => {}
            Err(_) => return Err(NoMemory),
        }
    }
    Ok(placements)
}

fn cell_of<'a>(
    alloc: Global,
    bytes: &'a [u8],
    names: &Names<'a>,
    draft: Draft,
) -> Result<Cell, NoMemory>
    requires spans { HaveSpans bytes.now names.now }
    requires within { IsDraftWithin bytes.now draft }
    ensures ok { (past : AList Item) → AreNamesOf bytes.now past names.now
        → IfOk result (λ cell. cell ≡ cell_by bytes.now (records_in past) draft) }
    ensures grid { IsDraftOnGrid draft → IfOk result IsCellOnGrid }
{
    let Draft {
        called,
        shapes,
        placings,
        ..
    } = draft;
    let name = name_by(alloc, bytes, names, called)?;
    let placements = placements_of(alloc, bytes, names, placings)?;
    Ok(Cell {
        name,
        shapes,
        placements,
    })
}

// The cells by name.
fn cells_by<'a>(
    alloc: Global,
    bytes: &'a [u8],
    names: &Names<'a>,
    drafts: Vec<Draft>,
) -> Result<List<Cell>, NoMemory>
    requires spans { HaveSpans bytes.now names.now }
    requires within { All (IsDraftWithin bytes.now) drafts.items }
    ensures ok { (past : AList Item) → AreNamesOf bytes.now past names.now
        → IfOk result (λ cells. cells ≡ the_cells_by bytes.now (records_in past) drafts.items) }
    ensures grid { All IsDraftOnGrid drafts.items → IfOk result (All IsCellOnGrid) }
{
    let mut cells = List::new(alloc);
    for draft in drafts {
        let cell = cell_of(alloc, bytes, names, draft)?;
        match cells.push(cell) {
            Ok(()) => {}
            Err(_) => return Err(NoMemory),
        }
    }
    Ok(cells)
}

// The cells by name, where no two have one name.
fn distinct_cells<'a>(
    alloc: Global,
    bytes: &'a [u8],
    names: &Names<'a>,
    drafts: Vec<Draft>,
) -> Result<List<Cell>, Refusal<OasBad>>
    requires spans { HaveSpans bytes.now names.now }
    requires within { All (IsDraftWithin bytes.now) drafts.items }
    ensures ok { (past : AList Item) → AreNamesOf bytes.now past names.now
        → IfOk result (λ cells. cells ≡ the_cells_by bytes.now (records_in past) drafts.items) }
    ensures grid { All IsDraftOnGrid drafts.items → IfOk result (All IsCellOnGrid) }
    ensures distinct { (past : AList Item) → AreNamesOf bytes.now past names.now
        → OnOk result (first_twins bytes.now (records_in past) (cell_items drafts.items) ≡ None) }
    ensures twins { (past : AList Item) → AreNamesOf bytes.now past names.now
        → IfFault result (AreTwins bytes.now (records_in past) (cell_items drafts.items)) }
{
    look_at_cells(alloc, bytes, names, drafts.as_slice())?;
    let cells = cells_by(alloc, bytes, names, drafts)?;
    Ok(cells)
}

/// The cells of a whole file by name, where each number is given and no two cells have one name.
pub(crate) fn cells_of<'a>(
    alloc: Global,
    bytes: &'a [u8],
    names: &Names<'a>,
    drafts: Drafts,
) -> Result<List<Cell>, Refusal<OasBad>>
    requires spans { HaveSpans bytes.now names.now }
    requires within { AreDraftsWithin bytes.now drafts }
    ensures ok { (wanted : AList APair) (past : AList Item) (last : Item) → AreNamesOf bytes.now (last ∷ past) names.now
        → AreDraftsOf wanted (last ∷ past) drafts → is_end last.r ≡ true → NoItemEnds past
        → IfOk result (AreCellsBehind bytes.now wanted (last ∷ past)) }
    ensures grid { IfOk result (All IsCellOnGrid) }
    ensures names { (wanted : AList APair) (past : AList Item) (last : Item) → AreNamesOf bytes.now (last ∷ past) names.now
        → AreDraftsOf wanted (last ∷ past) drafts → is_end last.r ≡ true → NoItemEnds past
        → IfOk result (λ cells. AreDistinct (map (λ cell. cell.name) cells)) }
    ensures bad { (wanted : AList APair) (past : AList Item) (last : Item) → AreNamesOf bytes.now (last ∷ past) names.now
        → AreDraftsOf wanted (last ∷ past) drafts → is_end last.r ≡ true → NoItemEnds past
        → IfFault result (IsFaultOfNames bytes.now (last ∷ past)) }
{
    match names.all_known() {
        Ok(()) => {}
        Err(bad) => return Err(Refusal::Fault(bad)),
    }
    match drafts.finish(alloc) {
        Ok(drafts) => distinct_cells(alloc, bytes, names, drafts),
        Err(_) => Err(Refusal::NoMemory),
    }
}
