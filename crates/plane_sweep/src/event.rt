//! The events of a sweep, one by one.
ghost use Rattle.std.specs.Prelude.{◌≡◌, OnOk, IfOk, IsTrue, false, List, All, IsPermutation, drop, length, ◌++◌, ◌∷◌, [], ◌≤◌, ◌^◌};
ghost use Rattle.half_grid.specs.Edges.{IsEdge};
ghost use Rattle.row_lists.specs.declared.event.Event.{Event as AnEvent};
ghost use Rattle.row_lists.specs.Events.{begin_of, end_of, events_of, EventsAscend};
ghost use Rattle.std.specs.Option.{option_to_list};
ghost use Rattle.scan_line.specs.ClippedEdges.{part_in, parts_in};
ghost use Rattle.plane_sweep.specs.Bundles.{PassesEvents, first_event};
ghost use Rattle.plane_sweep.specs.Sources.{AreEventsOf};

use crate::bundle::{Bundle, change_of};
use crate::packed::Packed;
use crate::parts::part_in;
use geo_stream::NoMemory;
use half_grid::{Edge, Point, Window};
use row_lists::Event;
use std::alloc::Global;
use std::marker::Model;

/// Events by ascending Y, and those of one Y from left to right.
pub trait EventSource {
    // The events still to come.
    ghost left: { Self → List AnEvent };

    /// The next event, if there is one.
    fn first(&self) -> Option<Event>
        ensures { result ≡ first_event (left self.now) };

    /// Goes on to the event after it.
    fn step(&mut self) -> Result<(), NoMemory>
        ensures { OnOk result (left self.new ≡ drop 1 (left self.old)) };
}

/// Events that were sorted before. Contracts see those still to come.
#[derive(Drop)]
pub struct SortedEvents {
    events: Vec<Packed>,
    at: usize,
}

impl Model for SortedEvents {
    ghost use Rattle.std.specs.Prelude.{List, drop};
    ghost use Rattle.row_lists.specs.declared.event.Event.{Event as AnEvent};

    ghost Value = { List AnEvent };

    ghost view = { λ s. drop s.at s.events.items };
}

/// What each item of a list of edges is, from its own promise.
pub(crate) fn know_edges(edges: &[Edge])
    ensures { All IsEdge edges.now }
{
    for edge in edges {
        let _promised = edge.y0();
    }
}

// What the parts of the edges in the window are.
fn know_parts(edges: &[Edge], window: Window)
    ensures known { All IsEdge (parts_in window edges.now) }
    ensures short { length (parts_in window edges.now) ≤ 2 ^ 64 }
{
    know_edges(edges);
    let _count = edges.len();
}

// Puts the two events of the edge after the others.
fn push_events(events: &mut Vec<Packed>, edge: &Edge) -> Result<(), NoMemory>
    ensures { OnOk result (events.new.items ≡ (events.old.items ++ begin_of edge.now ∷ []) ++ end_of edge.now ∷ []) }
{
    events.push(Packed::begin_of(edge))?;
    events.push(Packed::end_of(edge))?;
    Ok(())
}

// Puts those of the edge's part in the window after the others, where it has one.
fn push_part(events: &mut Vec<Packed>, edge: &Edge, window: Window) -> Result<(), NoMemory>
    ensures { OnOk result (events.new.items ≡ events.old.items ++ events_of (option_to_list (part_in window edge.now))) }
{
    if let Some(part) = part_in(edge, window) {
        push_events(events, &part)?;
    }
    Ok(())
}

// The events of all edges, edge by edge.
fn all_events(alloc: Global, edges: &[Edge]) -> Result<Vec<Packed>, NoMemory>
    ensures { IfOk result (λ events. events.items ≡ events_of edges.now) }
{
    let mut events = Vec::with_capacity(alloc, 2 * edges.len())?;
    for edge in edges {
        push_events(&mut events, edge)?;
    }
    Ok(events)
}

// The events of all parts of edges in the window, edge by edge.
fn events_in(alloc: Global, edges: &[Edge], window: Window) -> Result<Vec<Packed>, NoMemory>
    ensures { IfOk result (λ events. events.items ≡ events_of (parts_in window edges.now)) }
{
    let mut events = Vec::with_capacity(alloc, 2 * edges.len())?;
    let mut left = edges;
    while let Some((edge, rest)) = left.split_first() {
        push_part(&mut events, edge, window)?;
        left = rest;
    }
    Ok(events)
}

// The events in the order of a sweep.
fn in_order(events: Vec<Packed>) -> SortedEvents
    ensures permutation { IsPermutation events.items result }
    ensures ascend { EventsAscend result }
{
    let mut events = events;
    events.sort_unstable_by_key(|event| event.spot());
    SortedEvents { events, at: 0 }
}

impl SortedEvents {
    /// The events of the edges.
    pub fn of_edges(alloc: Global, edges: &[Edge]) -> Result<SortedEvents, NoMemory>
        ensures permutation { IfOk result (λ events. IsPermutation (events_of edges.now) events) }
        ensures ascend { IfOk result (λ events. EventsAscend events) }
    {
        let events = all_events(alloc, edges)?;
        Ok(in_order(events))
    }

    /// The events of the edges' parts in the rows of the window.
    pub fn of_parts(alloc: Global, edges: &[Edge], window: Window) -> Result<SortedEvents, NoMemory>
        ensures { IfOk result (λ events. AreEventsOf (parts_in window edges.now) events) }
    {
        know_parts(edges, window);
        let events = events_in(alloc, edges, window)?;
        Ok(in_order(events))
    }
}

impl EventSource for SortedEvents {
    ghost left = { λ events. events };

    fn first(&self) -> Option<Event> {
        if self.events.len() <= self.at {
            return None;
        }
        let event = &self.events[self.at];
        Some(event.event())
    }

    fn step(&mut self) -> Result<(), NoMemory> {
        if self.at < self.events.len() {
            self.at += 1;
        }
        Ok(())
    }
}

// Whether the event is at the point.
fn is_at(event: &Event, point: Point) -> bool
    ensures yes { IsTrue result → (event.now.y ≡ point.y) × (event.now.x ≡ point.x) }
    ensures no { result ≡ false → (event.now.y ≡ point.y) × (event.now.x ≡ point.x) → ⊥ }
{
    event.y == point.y && event.x == point.x
}

/// Goes over the events at the point, and adds them to the bundle of the lines through it.
pub(crate) fn take_events<E: EventSource>(
    events: &mut E,
    point: Point,
    bundle: Bundle,
) -> Result<Bundle, NoMemory>
    ensures { IfOk result (PassesEvents point.y point.x (E.left events.old) (E.left events.new) bundle) }
{
    let mut bundle = bundle;
    while let Some(event) = events.first() {
        if !is_at(&event, point) {
            break;
        }
        bundle = bundle.with(event.line, change_of(&event))?;
        events.step()?;
    }
    Ok(bundle)
}
