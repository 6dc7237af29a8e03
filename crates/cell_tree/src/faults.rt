//! Why a layout is no tree, told with the names of its cells.
ghost use Rattle.std.specs.Prelude.{◌≡◌, ◌<◌, IfOk, All, map, length};
ghost use Rattle.cell_tree.specs.Cells.{name_at};

use geo_stream::{List, NoMemory};
use layout_model::{Cell, Name, NameBad};
use std::alloc::Global;

/// Why a layout is no tree. What is kept is one such thing; there may be others.
#[derive(Debug, Drop)]
pub enum TreeBad {
    /// No cell has the name of the top cell.
    NoTop,
    /// A reachable cell, kept first, places a name that no cell has.
    Unknown(Name, Name),
    /// Reachable cells each of which places the next, and the last the first.
    Cycle(List<Name>),
    /// A chain of 65 cells from the top cell, each placed by the one before.
    Deep(List<Name>),
    /// A chain of cells from the top cell, each placed by the one before, that enlarges the last one by more than 16,
    /// and the one before by at most 16. The factor is kept first.
    Scale(i64, List<Name>),
    /// A cell with a shape that may not be enlarged is enlarged by this factor.
    Fixed(i64, Name),
    /// The first of the least x, the least y, the greatest x and the greatest y of all vertices that is further than
    /// 2^30 from 0.
    Extent(i64),
    /// A cell with more than 2^40 flattened shapes, while no cell that it places has more. Their number is kept, or
    /// 2^128 - 1 where there are more.
    Count(Name, u128),
}

/// The same name again.
pub(crate) fn copy_of(alloc: Global, name: &Name) -> Result<Name, NoMemory>
    ensures { IfOk result (λ copy. copy ≡ name.now) }
{
    match Name::new(alloc, name.bytes()) {
        Ok(copy) => Ok(copy),
        Err(NameBad::NoMemory) => Err(NoMemory),
        Err(NameBad::Form) => unreachable!(),
    }
}

/// The name of the cell of this number.
pub(crate) fn name_of(alloc: Global, cells: &[Cell], number: usize) -> Result<Name, NoMemory>
    requires { number < length cells.now }
    ensures { IfOk result (λ name. name ≡ name_at cells.now number) }
{
    copy_of(alloc, &cells[number].name)
}

/// The names of the cells of these numbers.
pub(crate) fn names_of(
    alloc: Global,
    cells: &[Cell],
    numbers: &[usize],
) -> Result<List<Name>, NoMemory>
    requires { All (λ n. n < length cells.now) numbers.now }
    ensures { IfOk result (λ names. names ≡ map (name_at cells.now) numbers.now) }
{
    let mut names = List::new(alloc);
    for number in numbers {
        names.push(copy_of(alloc, &cells[*number].name)?)?;
    }
    Ok(names)
}
