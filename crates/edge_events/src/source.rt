//! The events of edges in a window.
ghost use Rattle.std.specs.Prelude.{◌≡◌, ◌≤◌, ◌^◌, ◌++◌, ◌∷◌, [], All, OnOk, IfOk, length, map, IsPermutation};
ghost use Rattle.std.specs.Option.{option_to_list};
ghost use Rattle.half_grid.specs.Edges.{IsEdge};
ghost use Rattle.row_lists.specs.Events.{begin_of, end_of, events_of};
ghost use Rattle.scan_line.specs.ClippedEdges.{part_in, parts_in};
ghost use Rattle.edge_events.specs.EventNumbers.{event_of, IsNumber};
ghost use Rattle.edge_events.specs.Sources.{AreSortedEvents};

use crate::clipping::part_in;
use crate::number::EventNumber;
use crate::sorting::sort_numbers;
use geo_stream::NoMemory;
use half_grid::{Edge, Window};
use row_lists::Event;
use std::alloc::Global;

// The number of the edge's begin.
#[inline]
fn number_of_begin(edge: &Edge) -> EventNumber
    ensures event { event_of result ≡ begin_of edge.now }
    ensures number { IsNumber result }
{
    let _promised = edge.y0();
    EventNumber::of(&Event::begin_of(edge))
}

// The number of its end.
#[inline]
fn number_of_end(edge: &Edge) -> EventNumber
    ensures event { event_of result ≡ end_of edge.now }
    ensures number { IsNumber result }
{
    let _promised = edge.y0();
    EventNumber::of(&Event::end_of(edge))
}

// Puts the two events of the edge after the others.
#[inline]
fn push_events(numbers: &mut Vec<EventNumber>, edge: &Edge) -> Result<(), NoMemory>
    requires numbers { All IsNumber numbers.old.items }
    ensures events { OnOk result (map event_of numbers.new.items ≡ map event_of numbers.old.items ++ begin_of edge.now ∷ end_of edge.now ∷ []) }
    ensures numbers { OnOk result (All IsNumber numbers.new.items) }
{
    numbers.push(number_of_begin(edge))?;
    numbers.push(number_of_end(edge))?;
    Ok(())
}

// Puts those of the edge's part in the window after the others, where it has one.
#[inline]
fn push_part(numbers: &mut Vec<EventNumber>, edge: &Edge, window: Window) -> Result<(), NoMemory>
    requires numbers { All IsNumber numbers.old.items }
    ensures events { OnOk result (map event_of numbers.new.items ≡ map event_of numbers.old.items ++ events_of (option_to_list (part_in window edge.now))) }
    ensures numbers { OnOk result (All IsNumber numbers.new.items) }
{
    if let Some(part) = part_in(edge, window) {
        push_events(numbers, &part)?;
    }
    Ok(())
}

// The events of all parts of edges in the window, edge by edge.
fn numbers_in(alloc: Global, edges: &[Edge], window: Window) -> Result<Vec<EventNumber>, NoMemory>
    ensures events { IfOk result (λ numbers. map event_of numbers.items ≡ events_of (parts_in window edges.now)) }
    ensures numbers { IfOk result (λ numbers. All IsNumber numbers.items) }
{
    let mut numbers = Vec::with_capacity(alloc, 2 * edges.len())?;
    let mut left = edges;
    while let Some((edge, rest)) = left.split_first() {
        push_part(&mut numbers, edge, window)?;
        left = rest;
    }
    Ok(numbers)
}

// What each item of a list of edges is, from its own promise.
fn know_edges(edges: &[Edge])
    ensures { All IsEdge edges.now }
{
    for edge in edges {
        let _promised = edge.y0();
    }
}

// What the parts of the edges in the window are.
fn know_parts(edges: &[Edge], window: Window)
    ensures known { All IsEdge (parts_in window edges.now) }
    ensures short { length (parts_in window edges.now) ≤ 2 ^ 64 }
{
    know_edges(edges);
    let _count = edges.len();
}

/// The events of the edges' parts in the rows of the window, in the order of a sweep. The edges are let go.
pub fn sorted_events(
    alloc: Global,
    edges: Vec<Edge>,
    window: Window,
) -> Result<Vec<EventNumber>, NoMemory>
    ensures { IfOk result (λ numbers. AreSortedEvents (parts_in window edges.items) (map event_of numbers.items)) }
{
    know_parts(edges.as_slice(), window);
    let mut numbers = numbers_in(alloc, edges.as_slice(), window)?;
    drop(edges);
    sort_numbers(alloc, numbers.as_mut_slice())?;
    Ok(numbers)
}
