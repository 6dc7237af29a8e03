//! The walk over the placed pieces.
ghost use Rattle.std.specs.Prelude.{◌≡◌, ◌^◌, ◌≤◌, ◌<◌, [], ◌∷◌, ◌++◌, None, Some, map, length, IfOk, IfSome, All, MatchOption, List, false};
ghost use Rattle.std.specs.List.{filter};
ghost use Rattle.std.specs.Vec.{vec_capacity};
ghost use Rattle.half_grid.specs.Outlines.{HasGridEdges};
ghost use Rattle.half_grid.specs.Quads.{IsQuad, Corners, ring_of};
ghost use Rattle.layout_model.specs.declared.pair.Pair.{Pair as APair};
ghost use Rattle.cell_tree.specs.Cells.{shapes_at};
ghost use Rattle.flat_walk.specs.Boxes.{AreAllBoxed};
ghost use Rattle.flat_walk.specs.Tables.{AreCut, lists_at};
ghost use Rattle.flat_walk.specs.Walks.{pieces_in, CoversLayer};
ghost use Rattle.flat_walk.specs.Rests.{Skips, shows_in, placed_rest};
ghost use Rattle.flat_walk.specs.Hands.{own_rest, IsOwn};
ghost use Rattle.flat_walk.specs.Ways.{IsScene, cells_of, marked_of, levels_rest, IsLevel, AreLevels};
ghost use Rattle.flat_walk.specs.Streams.{StandsForWalk, walk_size, Walk-one_list, Walk-no_longer, Walk-bounded};

use crate::boxes::{Boxes, shapes_in};
use crate::levels::{Level, raised, rows_of};
use crate::owned::Own;
use crate::rows::meet;
use crate::scenes::Scene;
use crate::tables::Parts;
use cell_tree::Tree;
use geo_stream::{NoMemory, Stream};
use half_grid::{Point, Quad, Window};
use layout_model::{Orient, Pair, Shapes};
use std::alloc::Global;

/// The placed pieces of a window, one by one.
#[derive(Drop)]
pub struct Walk<'t> {
    scene: Scene<'t>,
    own: Own<'t>,
    // The cells on the way, from the top cell to the one that was entered last.
    levels: Vec<Level<'t>>,
}

// Neither enlarged nor mirrored nor turned.
const UPRIGHT: Orient = Orient {
    flip: false,
    turns: 0,
    mag: 1,
};

const ORIGIN: Point = Point { x: 0, y: 0 };

// A chain of placements has at most so many cells.
const DEPTH: usize = 64;

// Whether the top cell may have rows in the window: its hull has some there.
fn top_meets(scene: &Scene) -> bool
    requires { IsScene scene.now }
    ensures { result ≡ false → filter (shows_in scene.now.window) (marked_of scene.now scene.now.tree.now.top) ≡ [] }
{
    let Some(hull) = scene.tree.hull(scene.tree.top(), scene.pair) else {
        return false;
    };
    let rows = raised(rows_of(UPRIGHT, hull), ORIGIN);
    meet(rows, scene.window)
}

// The shapes of a cell.
fn shapes_of<'t>(scene: &Scene<'t>, cell: usize) -> &'t Shapes
    requires { cell < length (cells_of scene.now) }
    ensures { result.now ≡ shapes_at (cells_of scene.now) cell }
{
    let cells = scene.tree.cells();
    &cells[cell].shapes
}

// All that the own shapes of a cell on the way show. Where all of the cell is in the window, no boxes are looked at.
fn own_of<'t>(scene: &Scene<'t>, level: &Level<'t>) -> Own<'t>
    requires scene { IsScene scene.now }
    requires level { IsLevel scene.now level.now }
    ensures own { IsOwn result }
    ensures list { own_rest scene.now.pair result
        ≡ map Some (placed_rest level.now.orient level.now.at scene.now.pair (shapes_at (cells_of scene.now) level.now.cell) (lists_at scene.now.parts.now level.now.cell) 0) }
{
    let shapes = shapes_of(scene, level.cell());
    let entries = scene.parts.lists(level.cell());
    let (orient, at) = (level.orient(), level.at());
    if level.is_whole() {
        return Own::of(shapes, entries, None, orient, at);
    }
    let boxes = shapes_in(scene.boxes, level.cell());
    Own::of(shapes, entries, boxes, orient, at)
}

// Enters the next placed cell that may have rows in the window.
fn enter<'t>(levels: &mut Vec<Level<'t>>, scene: &Scene<'t>) -> Option<Own<'t>>
    requires scene { IsScene scene.now }
    requires levels { AreLevels scene.now 0 levels.old.items }
    requires room { 64 ≤ vec_capacity levels.old }
    ensures levels { AreLevels scene.now 0 levels.new.items }
    ensures room { vec_capacity levels.new ≡ vec_capacity levels.old }
    ensures own { IfSome result IsOwn }
    ensures gives { MatchOption result (Skips scene.now.window (levels_rest scene.now levels.old.items) [] × (levels_rest scene.now levels.new.items ≡ []))
        (λ own. Skips scene.now.window (levels_rest scene.now levels.old.items) (None ∷ (own_rest scene.now.pair own ++ levels_rest scene.now levels.new.items))) }
{
    while let Some(level) = levels.pop() {
        let mut level = level;
        if let Some(inner) = level.next(scene) {
            let own = own_of(scene, &inner);
            levels.push_reserved(level);
            levels.push_reserved(inner);
            return Some(own);
        }
    }
    None
}

// Enters the top cell, where it may have rows in the window, and else nothing.
fn enter_top<'t>(levels: &mut Vec<Level<'t>>, scene: &Scene<'t>) -> Own<'t>
    requires scene { IsScene scene.now }
    requires levels { levels.old.items ≡ [] }
    requires room { 64 ≤ vec_capacity levels.old }
    ensures { StandsForWalk scene.now result levels.new.items (vec_capacity levels.new)
        (pieces_in (cells_of scene.now) scene.now.tree.now.top scene.now.parts.now scene.now.pair scene.now.window) }
{
    if !top_meets(scene) {
        return Own::nothing(shapes_of(scene, scene.tree.top()), UPRIGHT, ORIGIN);
    }
    let level = Level::of(scene.tree.top(), UPRIGHT, ORIGIN, 0, false);
    let own = own_of(scene, &level);
    levels.push_reserved(level);
    own
}

impl<'t> Walk<'t> {
    /// A stream of the images of the pieces of all flattened shapes on the pair that have a row in the window, depth
    /// first in the order of the file. Each shape on the pair in a reachable cell of the tree has its pieces, and they
    /// cover exactly the shape's tiles, each once; or it has none, and the same shape stands earlier in the cell.
    pub fn begin(
        alloc: Global,
        tree: &'t Tree,
        parts: &'t Parts<'t>,
        pair: Pair,
        window: Window,
    ) -> Result<Walk<'t>, NoMemory>
        requires { AreCut tree.now.layout.cells tree.now.top parts.now pair }
        ensures list { IfOk result (λ walk. ⟦<Walk<'t> as Stream>⟧.stands_for walk
            (pieces_in tree.entry.now.layout.cells tree.entry.now.top parts.entry.now pair window)) }
        ensures quads { All IsQuad (pieces_in tree.now.layout.cells tree.now.top parts.now pair window) }
        ensures grid { All (λ q. HasGridEdges (ring_of q))
            (pieces_in tree.now.layout.cells tree.now.top parts.now pair window) }
        ensures area { CoversLayer tree.now.layout.cells tree.now.top pair window
            (pieces_in tree.now.layout.cells tree.now.top parts.now pair window) }
    {
        parts.kept();
        let _cells = tree.cells();
        let _top = tree.top();
        let scene = Scene {
            tree,
            parts,
            boxes: None,
            pair,
            window,
        };
        let mut levels = Vec::with_capacity(alloc, DEPTH)?;
        let own = enter_top(&mut levels, &scene);
        Ok(Walk { scene, own, levels })
    }

    /// The same stream. By the boxes of shapes and placements it passes by those that have nothing in the window, 64 at a
    /// time where these lie apart from it, and looks at no more of them.
    pub fn begin_boxed(
        alloc: Global,
        tree: &'t Tree,
        parts: &'t Parts<'t>,
        boxes: &'t Boxes,
        pair: Pair,
        window: Window,
    ) -> Result<Walk<'t>, NoMemory>
        requires cut { AreCut tree.now.layout.cells tree.now.top parts.now pair }
        requires boxed { AreAllBoxed tree.now.layout.cells tree.now.top parts.now boxes.now }
        ensures list { IfOk result (λ walk. ⟦<Walk<'t> as Stream>⟧.stands_for walk
            (pieces_in tree.entry.now.layout.cells tree.entry.now.top parts.entry.now pair window)) }
        ensures quads { All IsQuad (pieces_in tree.now.layout.cells tree.now.top parts.now pair window) }
        ensures grid { All (λ q. HasGridEdges (ring_of q))
            (pieces_in tree.now.layout.cells tree.now.top parts.now pair window) }
        ensures area { CoversLayer tree.now.layout.cells tree.now.top pair window
            (pieces_in tree.now.layout.cells tree.now.top parts.now pair window) }
    {
        parts.kept();
        let _cells = tree.cells();
        let _top = tree.top();
        let scene = Scene {
            tree,
            parts,
            boxes: Some(boxes),
            pair,
            window,
        };
        let mut levels = Vec::with_capacity(alloc, DEPTH)?;
        let own = enter_top(&mut levels, &scene);
        Ok(Walk { scene, own, levels })
    }
}

impl<'t> Stream for Walk<'t> {
    type Item = Quad;

    ghost stands_for = { λ walk. StandsForWalk walk.scene walk.own walk.levels.items (vec_capacity walk.levels) };

    ghost size = { λ walk. walk_size walk.scene walk.own walk.levels.items };

    ghost most = { 2 ^ 105 };

    fn next(&mut self) -> Option<Quad> {
        loop {
            if let Some(quad) = self.own.next(self.scene.pair, self.scene.window) {
                return Some(quad);
            }
            match enter(&mut self.levels, &self.scene) {
                Some(own) => self.own = own,
                None => return None,
            }
        }
    }

    ghost one_list = { λ walk. Walk-one_list walk.scene walk.own walk.levels.items (vec_capacity walk.levels) };

    ghost no_longer = { λ walk. Walk-no_longer walk.scene walk.own walk.levels.items (vec_capacity walk.levels) };

    ghost bounded = { λ walk. Walk-bounded walk.scene walk.own walk.levels.items (vec_capacity walk.levels) };
}
