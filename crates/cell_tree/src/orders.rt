//! The cells below the top cell, from the leaves up.
ghost use Rattle.std.specs.Prelude.{◌≡◌, ◌≢◌, ◌<◌, ℕ, suc, length, map, drop, [], ◌∷◌, ◌++◌, List, Some, slice_get};
ghost use Rattle.std.specs.Prelude.{slice_set, IfOk, OnOk, IfSome, IfNone, replicate};
ghost use Rattle.cell_tree.specs.Searches.{IsStop, IsOnPath, IsSearch, IsFound, work_left};
ghost use Rattle.cell_tree.specs.declared.orders.Mark.TheVariants.{New as IsNew, Open as IsOpen, Done as IsDone};

use crate::linked::Linked;
use geo_stream::NoMemory;
use std::alloc::Global;

// How far the search has come with a cell.
#[derive(Clone, Copy, Debug, PartialEq, Eq)]
enum Mark {
    // It wasn't met.
    New,
    // It is on the path.
    Open,
    // All that it places was looked at.
    Done,
}

// A cell of the path, and the number of its first placement that wasn't looked at.
#[derive(Clone, Copy, Debug)]
struct Stop {
    cell: usize,
    next: usize,
}

/// What a search from the top cell found.
#[derive(Debug, Drop)]
pub(crate) struct Found {
    /// The top cell.
    pub(crate) top: usize,
    /// The reachable cells, in the order in which the search was done with them: where there is no cycle, each after
    /// all that it places.
    pub(crate) order: Vec<usize>,
    /// A cycle, or nothing where there is none.
    pub(crate) cycle: Vec<usize>,
}

// A search along placements. The path leads from the top cell to the cell that is looked at.
#[derive(Debug, Drop)]
struct Search {
    marks: Vec<Mark>,
    path: Vec<Stop>,
    order: Vec<usize>,
    cycle: Vec<usize>,
}

// The place of a cell on the path.
fn place_on(path: &[Stop], cell: usize) -> Option<usize>
    ensures some { IfSome result (λ i. IsStop path.now i cell) }
    ensures none { IfNone result (IsOnPath path.now cell → ⊥) }
{
    for (i, stop) in path.iter().enumerate() {
        if stop.cell == cell {
            return Some(i);
        }
    }
    None
}

// The cells of the path from a place on.
fn path_from(alloc: Global, path: &[Stop], place: usize) -> Result<Vec<usize>, NoMemory>
    requires { place < length path.now }
    ensures { IfOk result (λ cells. cells.items ≡ map (λ stop. stop.cell) (drop place path.now)) }
{
    let cells = path[place..].iter().map(|stop| stop.cell).collect(alloc)?;
    Ok(cells)
}

impl Search {
    fn new(alloc: Global, count: usize, top: usize) -> Result<Search, NoMemory>
        requires { top < count }
        ensures marks { IfOk result (λ search. search.marks.items ≡ slice_set (replicate count IsNew) top IsOpen) }
        ensures path { IfOk result (λ search. search.path.items ≡ record { cell = top; next = 0 } ∷ []) }
        ensures order { IfOk result (λ search. search.order.items ≡ []) }
        ensures cycle { IfOk result (λ search. search.cycle.items ≡ []) }
    {
        let mut marks = vec![in alloc; Mark::New; count]?;
        marks[top] = Mark::Open;
        let mut path = Vec::new(alloc);
        path.push(Stop { cell: top, next: 0 })?;
        Ok(Search {
            marks,
            path,
            order: Vec::new(alloc),
            cycle: Vec::new(alloc),
        })
    }

    // Leaves a cell, all of whose placements were looked at.
    fn leave(&mut self, cell: usize) -> Result<(), NoMemory>
        requires { cell < length self.old.marks.items }
        ensures marks { OnOk result (self.new.marks.items ≡ slice_set self.old.marks.items cell IsDone) }
        ensures path { OnOk result (self.new.path.items ≡ self.old.path.items) }
        ensures order { OnOk result (self.new.order.items ≡ self.old.order.items ++ cell ∷ []) }
        ensures cycle { OnOk result (self.new.cycle.items ≡ self.old.cycle.items) }
    {
        self.marks[cell] = Mark::Done;
        self.order.push(cell)?;
        Ok(())
    }

    // Goes on to a new cell, which the last cell of the path places.
    fn open(&mut self, cell: usize) -> Result<(), NoMemory>
        requires { cell < length self.old.marks.items }
        ensures marks { OnOk result (self.new.marks.items ≡ slice_set self.old.marks.items cell IsOpen) }
        ensures path { OnOk result (self.new.path.items ≡ self.old.path.items ++ record { cell = cell; next = 0 } ∷ []) }
        ensures order { OnOk result (self.new.order.items ≡ self.old.order.items) }
        ensures cycle { OnOk result (self.new.cycle.items ≡ self.old.cycle.items) }
    {
        self.marks[cell] = Mark::Open;
        self.path.push(Stop { cell, next: 0 })?;
        Ok(())
    }

    // Notes the cycle from a cell of the path to the last, which places it, if none was noted.
    fn note_cycle(&mut self, alloc: Global, cell: usize) -> Result<(), NoMemory>
        requires { IsOnPath self.old.path.items cell }
        ensures marks { OnOk result (self.new.marks.items ≡ self.old.marks.items) }
        ensures path { OnOk result (self.new.path.items ≡ self.old.path.items) }
        ensures order { OnOk result (self.new.order.items ≡ self.old.order.items) }
        ensures first { self.old.cycle.items ≢ [] → OnOk result (self.new.cycle.items ≡ self.old.cycle.items) }
        ensures cycle { self.old.cycle.items ≡ [] → OnOk result ((i : ℕ) × IsStop self.old.path.items i cell
            × (self.new.cycle.items ≡ map (λ stop. stop.cell) (drop i self.old.path.items))) }
    {
        if !self.cycle.is_empty() {
            return Ok(());
        }
        match place_on(self.path.as_slice(), cell) {
            Some(place) => {
                self.cycle = path_from(alloc, self.path.as_slice(), place)?;
                Ok(())
            }
            None => unreachable!(),
        }
    }

    // Goes on from what was the last stop of the path.
    fn go_on(
        &mut self,
        alloc: Global,
        linked: &Linked,
        top: usize,
        stop: Stop,
    ) -> Result<(), NoMemory>
        requires top { top < length linked.now.cells }
        requires search { IsSearch linked.now.cells top self.old.marks.items (self.old.path.items ++ stop ∷ []) self.old.order.items self.old.cycle.items }
        ensures search { OnOk result (IsSearch linked.now.cells top self.new.marks.items self.new.path.items self.new.order.items self.new.cycle.items) }
        ensures smaller { OnOk result (work_left linked.now.cells self.new.marks.items self.new.path.items
            < work_left linked.now.cells self.old.marks.items (self.old.path.items ++ stop ∷ [])) }
    {
        let Stop { cell, next } = stop;
        let targets = linked.targets(cell);
        if targets.len() <= next {
            return self.leave(cell);
        }
        self.path.push(Stop {
            cell,
            next: next + 1,
        })?;
        let Some(target) = targets[next] else {
            return Ok(());
        };
        match self.marks[target] {
            Mark::New => self.open(target),
            Mark::Open => self.note_cycle(alloc, target),
            Mark::Done => Ok(()),
        }
    }
}

/// Searches all cells that the top cell reaches.
pub(crate) fn search_from(alloc: Global, linked: &Linked, top: usize) -> Result<Found, NoMemory>
    requires { top < length linked.now.cells }
    ensures top { IfOk result (λ found. found.top ≡ top) }
    ensures found { IfOk result (λ found. IsFound linked.now.cells found.top found.order.items found.cycle.items) }
{
    let mut search = Search::new(alloc, linked.cells().len(), top)?;
    while let Some(stop) = search.path.pop() {
        search.go_on(alloc, linked, top, stop)?;
    }
    let Search {
        marks: _,
        path: _,
        order,
        cycle,
    } = search;
    Ok(Found { top, order, cycle })
}
