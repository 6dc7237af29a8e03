//! Where the weights of lines change.
ghost use Rattle.std.specs.Prelude.{◌≡◌, ◌++◌, ◌∷◌, [], IfOk, OnOk, IsPermutation};
ghost use Rattle.row_lists.specs.Events.{begin_of, end_of, events_of, spot_of, EventsAscend};

use geo_stream::NoMemory;
use half_grid::{Edge, Line, Operand, x_at};
use std::alloc::Global;

/// A change of a line's weight: from `y` upward it is greater by one for the operand where `up` holds, and else less by
/// one.
#[derive(Clone, Copy, Debug, PartialEq, Eq)]
pub struct Event {
    /// The Y from which on the weight is another.
    pub y: i64,
    /// The X of the line there.
    pub x: i64,
    /// The line.
    pub line: Line,
    /// Whether the weight is greater.
    pub up: bool,
    /// The operand whose weight changes.
    pub operand: Operand,
}

// Where an event is, in the order of a sweep.
#[derive(Clone, Copy, PartialEq, Eq, PartialOrd, Ord)]
struct Spot {
    y: i64,
    x: i64,
}

impl Event {
    /// The edge's begin, at its lower end.
    pub fn begin_of(edge: &Edge) -> Event
        ensures { result ≡ begin_of edge.now }
    {
        Event {
            y: edge.y0(),
            x: x_at(edge.line(), edge.y0()),
            line: edge.line(),
            up: edge.is_up(),
            operand: edge.operand(),
        }
    }

    /// Its end, at its upper one.
    pub fn end_of(edge: &Edge) -> Event
        ensures { result ≡ end_of edge.now }
    {
        Event {
            y: edge.y1(),
            x: x_at(edge.line(), edge.y1()),
            line: edge.line(),
            up: !edge.is_up(),
            operand: edge.operand(),
        }
    }
}

fn spot_of(event: &Event) -> Spot
    ensures { result ≡ spot_of event.now }
{
    Spot {
        y: event.y,
        x: event.x,
    }
}

// Puts the two events of the edge after the others.
fn push_events(events: &mut Vec<Event>, edge: &Edge) -> Result<(), NoMemory>
    ensures { OnOk result (events.new.items ≡ (events.old.items ++ begin_of edge.now ∷ []) ++ end_of edge.now ∷ []) }
{
    events.push(Event::begin_of(edge))?;
    events.push(Event::end_of(edge))?;
    Ok(())
}

// The events of all edges, edge by edge.
fn all_events(alloc: Global, edges: &[Edge]) -> Result<Vec<Event>, NoMemory>
    ensures { IfOk result (λ events. events.items ≡ events_of edges.now) }
{
    let mut events = Vec::new(alloc);
    for edge in edges {
        push_events(&mut events, edge)?;
    }
    Ok(events)
}

/// The begins and ends of edges in the order of a sweep: by ascending Y, and those of one Y from left to right.
pub fn sorted_events(alloc: Global, edges: &[Edge]) -> Result<Vec<Event>, NoMemory>
    ensures permutation { IfOk result (λ events. IsPermutation (events_of edges.now) events.items) }
    ensures ascend { IfOk result (λ events. EventsAscend events.items) }
{
    let mut events = all_events(alloc, edges)?;
    events.sort_unstable_by_key(|event| spot_of(event));
    Ok(events)
}
