//! Walks over the placed pieces of layouts.
ghost use Rattle.std.specs.Prelude.{List};
ghost use Rattle.half_grid.specs.Quads.{Corners};
ghost use Rattle.deck_plan.specs.Plans.{AreAllCut};

use crate::layouts::{LOWEST, PITCH, arrays, file};
use cell_tree::{Tree, resolve};
use deck_plan::cut_parts;
use flat_walk::{Parts, Walk};
use gds_reader::read_gds;
use geo_stream::Stream;
use half_grid::{Quad, Window};
use layout_model::{Name, Pair};
use std::alloc::{AllocError, Global};
use std::io;
use std::time::Instant;

const METAL: Pair = Pair {
    layer: 1,
    datatype: 0,
};

// Windows, one upon another.
#[derive(Clone, Copy)]
struct Windows {
    bottom: i64,
    height: i64,
    count: u32,
}

const WHOLE: Windows = Windows {
    bottom: -1_000_000_000,
    height: 2_000_000_000,
    count: 1,
};

// Nested arrays place as many cells as the tree allows: six levels of 8 by 8, some 2^39 squares. Four rows of cells in
// the middle have 10,485,760.
const LEVELS: u8 = 6;

const SIDE: u16 = 8;

const MIDDLE: Windows = Windows {
    bottom: 40_000_000,
    height: 1600,
    count: 1,
};

// The tree of the cells below the cell of this letter.
fn tree_of(alloc: Global, bytes: &[u8], top: u8) -> Option<Tree> {
    let Ok(name) = Name::new(alloc, &[top]) else {
        return None;
    };
    let Ok(layout) = read_gds(alloc, bytes, 1000, &[METAL]) else {
        return None;
    };
    match resolve(alloc, layout, &name) {
        Ok(tree) => Some(tree),
        Err(_) => None,
    }
}

// How many quadrilaterals that aren't empty are still to come.
fn count_all<S: Stream<Item = Quad>>(quads: &mut S) -> u64
    requires { (list : List Corners) × S.stands_for quads.old list }
{
    let mut count = 0u64;
    while let Some(quad) = quads.next() {
        if quad.a() != quad.c() && quad.b() != quad.d() {
            count = count.wrapping_add(1);
        }
    }
    count
}

// How many pieces the window has.
fn count_in(alloc: Global, tree: &Tree, parts: &Parts<'_>, window: Window) -> Option<u64>
    requires { AreAllCut tree.now.layout.cells tree.now.top parts.now }
{
    let mut walk = match Walk::begin(alloc, tree, parts, METAL, window) {
        Ok(walk) => walk,
        Err(_) => return None,
    };
    Some(count_all(&mut walk))
}

// How many pieces the windows have.
fn count_over(alloc: Global, tree: &Tree, parts: &Parts<'_>, windows: Windows) -> Option<u64>
    requires { AreAllCut tree.now.layout.cells tree.now.top parts.now }
{
    let mut count = 0u64;
    let mut bottom = windows.bottom;
    for _ in 0..windows.count {
        let top = bottom.wrapping_add(windows.height);
        let window = Window::new(bottom, top)?;
        count = count.wrapping_add(count_in(alloc, tree, parts, window)?);
        bottom = top;
    }
    Some(count)
}

// Walks over the windows, and prints how many pieces they have and how long it took.
fn time(
    rt: &HostRuntime,
    kind: &str,
    tree: &Tree,
    parts: &Parts<'_>,
    windows: Windows,
) -> io::Result<()>
    requires { AreAllCut tree.now.layout.cells tree.now.top parts.now }
{
    let start = Instant::now(rt)?;
    let Some(count) = count_over(rt.alloc(), tree, parts, windows) else {
        return println!(rt; "walk, {kind}: want of memory");
    };
    let milliseconds = start.elapsed(rt)?.as_millis();
    let rate = u128::from(count).wrapping_mul(1000) / milliseconds.max(1);
    println!(rt;
        "walk, {kind}: {} windows, {count} pieces, {milliseconds} ms, {rate} pieces a second",
        windows.count
    )
}

// Walks over the file's top cell, of this letter, in the windows of each kind.
fn time_file(
    rt: &HostRuntime,
    kind: &str,
    made: Result<Vec<u8>, AllocError>,
    top: u8,
    kinds: &[Windows],
) -> io::Result<()> {
    let tree = match made {
        Ok(bytes) => tree_of(rt.alloc(), bytes.as_slice(), top),
        Err(_) => None,
    };
    let Some(tree) = tree else {
        return println!(rt; "walk, {kind}: refused");
    };
    let Ok(parts) = cut_parts(rt.alloc(), &tree) else {
        return println!(rt; "walk, {kind}: want of memory");
    };
    for windows in kinds {
        time(rt, kind, &tree, &parts, *windows)?;
    }
    Ok(())
}

/// Walks over a flat cell of this many squares a side, over an array of this many cells a side, and over nested arrays.
pub(crate) fn time_walks(rt: &HostRuntime, side: u16) -> io::Result<()> {
    let alloc = rt.alloc();
    let squares = u32::from(side).wrapping_mul(u32::from(side));
    // a row of cells is two half units high for each grid step
    let hundredths = Windows {
        bottom: 0,
        height: i64::from(side) * i64::from(PITCH) / 50,
        count: 100,
    };
    time_file(rt, "a flat cell", file(alloc, squares), LOWEST, &[WHOLE])?;
    let array = arrays(alloc, 1, side);
    time_file(rt, "an array", array, LOWEST + 1, &[WHOLE, hundredths])?;
    let nested = arrays(alloc, LEVELS, SIDE);
    time_file(rt, "nested arrays", nested, LOWEST + LEVELS, &[MIDDLE])
}
