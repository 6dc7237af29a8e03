//! Which cells of a layout the top cell shows.
use crate::walk::{Found, Title, Walk};
use geo_stream::NoMemory;
use indexmap::IndexMap;
use keyed_hash::KeyedState;
use std::alloc::Global;

// A cell, by its number.
#[derive(Clone, Copy)]
struct Node {
    // its part of the list of placed cells
    first: usize,
    end: usize,
    // the cell that was seen to place it last
    placer: Option<usize>,
    // the same cell by its number, or by its name
    other: Option<usize>,
    is_reached: bool,
}

const UNSEEN: Node = Node {
    first: 0,
    end: 0,
    placer: None,
    other: None,
    is_reached: false,
};

/// The cells of a layout, and which cells they place.
#[derive(Drop)]
pub(crate) struct Cells<'a> {
    named: IndexMap<&'a [u8], usize, KeyedState>,
    numbered: IndexMap<u64, usize, KeyedState>,
    nodes: Vec<Node>,
    placed: Vec<usize>,
    current: Option<usize>,
}

impl<'a> Cells<'a> {
    // None of those of a file with these bytes.
    fn new(alloc: Global, bytes: &'a [u8]) -> Cells<'a> {
        let key = KeyedState::of(bytes);
        Cells {
            named: IndexMap::with_hasher(alloc, key),
            numbered: IndexMap::with_hasher(alloc, key),
            nodes: Vec::new(alloc),
            placed: Vec::new(alloc),
            current: None,
        }
    }

    // The number of a cell, where it was seen.
    fn place_of(&self, title: Title<'_>) -> Option<usize> {
        match title {
            Title::Name(name) => self.named.get(name).copied(),
            Title::Number(number) => self.numbered.get(&number).copied(),
        }
    }

    // The number of a cell.
    fn number_of(&mut self, title: Title<'a>) -> Result<usize, NoMemory> {
        if let Some(number) = self.place_of(title) {
            return Ok(number);
        }
        let number = self.nodes.len();
        self.nodes.push(UNSEEN)?;
        let is_entered = match title {
            Title::Name(name) => self.named.insert(name, number).is_ok(),
            Title::Number(own) => self.numbered.insert(own, number).is_ok(),
        };
        if is_entered {
            Ok(number)
        } else {
            Err(NoMemory)
        }
    }

    // Begins a cell.
    fn begin(&mut self, title: Title<'a>) -> Result<(), NoMemory> {
        let number = self.number_of(title)?;
        let first = self.placed.len();
        if let Some(node) = self.nodes.get_mut(number) {
            node.first = first;
            node.end = first;
        }
        self.current = Some(number);
        Ok(())
    }

    // Whether the current cell wasn't seen to place a cell yet.
    fn is_new(&mut self, number: usize) -> bool {
        let current = self.current;
        match self.nodes.get_mut(number) {
            Some(node) if node.placer != current => {
                node.placer = current;
                true
            }
            _ => false,
        }
    }

    // Has the current cell place a cell.
    fn place(&mut self, title: Title<'a>) -> Result<(), NoMemory> {
        let number = self.number_of(title)?;
        if !self.is_new(number) {
            return Ok(());
        }
        self.placed.push(number)?;
        let end = self.placed.len();
        if let Some(current) = self.current {
            if let Some(node) = self.nodes.get_mut(current) {
                node.end = end;
            }
        }
        Ok(())
    }

    // Two of the numbers are of one cell.
    fn join(&mut self, a: usize, b: usize) {
        if let Some(node) = self.nodes.get_mut(a) {
            node.other = Some(b);
        }
        if let Some(node) = self.nodes.get_mut(b) {
            node.other = Some(a);
        }
    }

    // Takes what a record has.
    fn take(&mut self, found: Found<'a>) -> Result<(), NoMemory> {
        match found {
            Found::Cell(title) => self.begin(title),
            Found::Placed(title) => self.place(title),
            Found::Numbered(name, number) => {
                let a = self.number_of(Title::Name(name))?;
                let b = self.number_of(Title::Number(number))?;
                self.join(a, b);
                Ok(())
            }
            Found::Shape(_) | Found::Other => Ok(()),
        }
    }

    // Marks a cell, which then waits for those that it places, where it isn't marked.
    fn mark(&mut self, number: usize, waiting: &mut Vec<usize>) -> Result<(), NoMemory> {
        match self.nodes.get_mut(number) {
            Some(node) if !node.is_reached => {
                node.is_reached = true;
                waiting.push(number)?;
                Ok(())
            }
            _ => Ok(()),
        }
    }

    // Marks the cells that a marked one places.
    fn mark_placed(&mut self, number: usize, waiting: &mut Vec<usize>) -> Result<(), NoMemory> {
        let Some(node) = self.nodes.get(number).copied() else {
            return Ok(());
        };
        if let Some(other) = node.other {
            self.mark(other, waiting)?;
        }
        for place in node.first..node.end {
            if let Some(placed) = self.placed.get(place).copied() {
                self.mark(placed, waiting)?;
            }
        }
        Ok(())
    }

    // Marks all cells that a cell shows.
    fn mark_below(&mut self, alloc: Global, top: usize) -> Result<(), NoMemory> {
        let mut waiting = Vec::new(alloc);
        self.mark(top, &mut waiting)?;
        for _cell in 0..self.nodes.len() {
            let Some(number) = waiting.pop() else {
                return Ok(());
            };
            self.mark_placed(number, &mut waiting)?;
        }
        Ok(())
    }

    /// Whether the top cell shows this one.
    pub(crate) fn is_reached(&self, title: Title<'_>) -> bool {
        match self.place_of(title) {
            Some(number) => match self.nodes.get(number) {
                Some(node) => node.is_reached,
                None => false,
            },
            None => false,
        }
    }
}

// All cells of a layout.
fn cells_of(alloc: Global, bytes: &[u8]) -> Result<Cells<'_>, NoMemory> {
    let mut cells = Cells::new(alloc, bytes);
    let mut walk = Walk::new(bytes);
    for _record in 0..bytes.len() {
        let Some(found) = walk.next() else {
            return Ok(cells);
        };
        cells.take(found)?;
    }
    Ok(cells)
}

/// The cells of a layout with this top cell. None where the top cell isn't there.
pub(crate) fn cells_below<'a>(
    alloc: Global,
    bytes: &'a [u8],
    top: &[u8],
) -> Result<Option<Cells<'a>>, NoMemory> {
    let mut cells = cells_of(alloc, bytes)?;
    match cells.place_of(Title::Name(top)) {
        Some(number) => {
            cells.mark_below(alloc, number)?;
            Ok(Some(cells))
        }
        None => Ok(None),
    }
}
