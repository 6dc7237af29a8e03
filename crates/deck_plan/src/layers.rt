//! The area of a layer, and of a set operation on two layers.
ghost use Rattle.std.specs.Prelude.{◌≡◌, ◌++◌, All, List, IfOk, OnOk};
ghost use Rattle.std.specs.List.{flat_map};
ghost use Rattle.half_grid.specs.Quads.{IsQuad, Corners, ring_of};
ghost use Rattle.half_grid.specs.declared.border.Operand.TheVariants.{A, B};
ghost use Rattle.scan_line.specs.OutlineEdges.{edges_along};
ghost use Rattle.cell_tree.specs.Flattening.{IsInLayer};
ghost use Rattle.column_sweep.specs.RowSums.{AddUpAlike};
ghost use Rattle.flat_walk.specs.Boxes.{AreAllBoxed};
ghost use Rattle.flat_walk.specs.Tables.{AreCut};
ghost use Rattle.flat_walk.specs.Walks.{pieces_in};
ghost use Rattle.deck_plan.specs.Lists.{HasArea};
ghost use Rattle.deck_plan.specs.LayerSets.{OfLayers};
ghost use Rattle.deck_plan.specs.Rings.{edges_of_quad};

use crate::own_layers::Layers;
use crate::piles::{most_of_sweep, piled_area};
use bool_ops::{combine, combine_edges_within, unite_within};
use cell_tree::Tree;
use column_sweep::put_edge;
use flat_walk::{Boxes, Parts, Walk};
use geo_stream::{NoMemory, Stream};
use half_grid::{Edge, Operand, Quad, Trap, Window};
use layout_model::Pair;
use scan_line::EdgesOf;
use std::alloc::Global;

/// Puts the edges of the quadrilateral at the end, less what a side has in common with the last one.
pub(crate) fn put_ring(edges: &mut Vec<Edge>, quad: &Quad, operand: Operand) -> Result<(), NoMemory>
    ensures { OnOk result (AddUpAlike edges.new.items (edges.old.items ++ edges_of_quad operand quad.now)) }
{
    let ring = [quad.a(), quad.b(), quad.c(), quad.d(), quad.a()];
    let mut sides = EdgesOf::new(&ring, operand);
    while let Some(edge) = sides.next() {
        put_edge(edges, edge)?;
    }
    Ok(())
}

// Puts the edges of all quadrilaterals of a stream at the end, less what sides that meet one after the other have in common.
fn put_rings<S: Stream<Item = Quad>>(
    edges: &mut Vec<Edge>,
    quads: &mut S,
    operand: Operand,
) -> Result<(), NoMemory>
    requires { (list : List Corners) × S.stands_for quads.old list }
    ensures { (list : List Corners) → S.stands_for quads.old list → OnOk result (AddUpAlike edges.new.items (edges.old.items ++ flat_map (edges_of_quad operand) list)) }
{
    while let Some(quad) = quads.next() {
        put_ring(edges, &quad, operand)?;
    }
    Ok(())
}

// The joined list, in the window, of the area of a layer whose pieces may lie one over another.
fn piled_layer<'t>(
    alloc: Global,
    tree: &'t Tree,
    parts: &'t Parts<'t>,
    boxes: &'t Boxes,
    pair: Pair,
    window: Window,
) -> Result<Vec<Trap>, NoMemory>
    requires cut { AreCut tree.now.layout.cells tree.now.top parts.now pair }
    requires boxed { AreAllBoxed tree.now.layout.cells tree.now.top parts.now boxes.now }
    ensures { IfOk result (λ traps. HasArea window (IsInLayer tree.now.layout.cells tree.now.top pair) traps.items) }
{
    let mut walk = match Walk::begin_boxed(alloc, tree, parts, boxes, pair, window) {
        Ok(walk) => walk,
        Err(NoMemory) => return Err(NoMemory),
    };
    piled_area(alloc, &mut walk, window)
}

// The joined list, in the window, of the tiles that an operation takes of two such layers.
fn piled_layers<'t>(
    alloc: Global,
    tree: &'t Tree,
    parts: &'t Parts<'t>,
    boxes: &'t Boxes,
    layers: Layers,
    window: Window,
) -> Result<Vec<Trap>, NoMemory>
    requires first { AreCut tree.now.layout.cells tree.now.top parts.now layers.a }
    requires second { AreCut tree.now.layout.cells tree.now.top parts.now layers.b }
    requires boxed { AreAllBoxed tree.now.layout.cells tree.now.top parts.now boxes.now }
    ensures { IfOk result (λ traps. HasArea window (OfLayers tree.now.layout.cells tree.now.top layers) traps.items) }
{
    let first = piled_layer(alloc, tree, parts, boxes, layers.a, window)?;
    let second = piled_layer(alloc, tree, parts, boxes, layers.b, window)?;
    combine(
        alloc,
        layers.op,
        first.as_slice(),
        second.as_slice(),
        window,
    )
}

/// The joined list, in the window, of the area of a layer.
pub(crate) fn layer_area<'t>(
    alloc: Global,
    tree: &'t Tree,
    parts: &'t Parts<'t>,
    boxes: &'t Boxes,
    pair: Pair,
    window: Window,
) -> Result<Vec<Trap>, NoMemory>
    requires cut { AreCut tree.now.layout.cells tree.now.top parts.now pair }
    requires boxed { AreAllBoxed tree.now.layout.cells tree.now.top parts.now boxes.now }
    ensures { IfOk result (λ traps. HasArea window (IsInLayer tree.now.layout.cells tree.now.top pair) traps.items) }
{
    let mut walk = match Walk::begin_boxed(alloc, tree, parts, boxes, pair, window) {
        Ok(walk) => walk,
        Err(NoMemory) => return Err(NoMemory),
    };
    let mut edges = Vec::new(alloc);
    put_rings(&mut edges, &mut walk, Operand::A)?;
    let most = most_of_sweep(edges.len());
    match unite_within(alloc, edges, window, most)? {
        Some(area) => Ok(area),
        None => piled_layer(alloc, tree, parts, boxes, pair, window),
    }
}

/// The joined list, in the window, of the tiles that an operation takes of two layers: by one sweep over the edges of both.
pub(crate) fn layers_area<'t>(
    alloc: Global,
    tree: &'t Tree,
    parts: &'t Parts<'t>,
    boxes: &'t Boxes,
    layers: Layers,
    window: Window,
) -> Result<Vec<Trap>, NoMemory>
    requires first { AreCut tree.now.layout.cells tree.now.top parts.now layers.a }
    requires second { AreCut tree.now.layout.cells tree.now.top parts.now layers.b }
    requires boxed { AreAllBoxed tree.now.layout.cells tree.now.top parts.now boxes.now }
    ensures { IfOk result (λ traps. HasArea window (OfLayers tree.now.layout.cells tree.now.top layers) traps.items) }
{
    let mut first = match Walk::begin_boxed(alloc, tree, parts, boxes, layers.a, window) {
        Ok(walk) => walk,
        Err(NoMemory) => return Err(NoMemory),
    };
    let mut second = match Walk::begin_boxed(alloc, tree, parts, boxes, layers.b, window) {
        Ok(walk) => walk,
        Err(NoMemory) => return Err(NoMemory),
    };
    let mut edges = Vec::new(alloc);
    put_rings(&mut edges, &mut first, Operand::A)?;
    put_rings(&mut edges, &mut second, Operand::B)?;
    let most = most_of_sweep(edges.len());
    match combine_edges_within(alloc, layers.op, edges, window, most)? {
        Some(area) => Ok(area),
        None => piled_layers(alloc, tree, parts, boxes, layers, window),
    }
}
