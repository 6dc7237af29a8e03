//! Small events: a sweep keeps two for each edge.
ghost use Rattle.std.specs.Prelude.{◌≡◌, ◌≤◌, ◌^◌, ◌+ℤ◌, ◌-ℤ◌, pos};
ghost use Rattle.half_grid.specs.Halves.{half};
ghost use Rattle.half_grid.specs.Reach.{IsWithinReach};
ghost use Rattle.row_lists.specs.Events.{begin_of, end_of};
ghost use Rattle.plane_sweep.specs.PackedEvents.{IsPlaced, line_kind, operand_kind, way_kind, kind_of, line_at, operand_at, event_at, x_of};
ghost use Rattle.plane_sweep.specs.PackedSpots.{spot_of};

use half_grid::{Edge, Line, Operand, Point};
use row_lists::Event;
use std::marker::Model;

// Each X within reach is at least 0 once it is moved up by this.
const REACH: i64 = 17_592_186_044_416;

/// An event in 16 bytes, where an `Event` takes 40. Contracts see the event.
#[derive(Drop)]
pub(crate) struct Packed {
    y: i64,
    // 16 times the X, moved up, and the number of the kind.
    place: u64,
}

impl Model for Packed {
    ghost use Rattle.row_lists.specs.declared.event.Event.{Event as AnEvent};
    ghost use Rattle.plane_sweep.specs.PackedEvents.{unpacked};

    ghost Value = { AnEvent };

    ghost view = { λ packed. unpacked packed.y packed.place };
}

/// Where an event is, in the order of a sweep.
#[derive(Clone, Copy, PartialEq, Eq, PartialOrd, Ord)]
pub(crate) struct Spot {
    y: i64,
    x: i64,
}

fn line_kind(line: Line) -> u64
    ensures value { result ≡ line_kind line }
    ensures small { result ≤ 8 }
{
    match line {
        Line::Upright(_) => 0,
        Line::Rising(_) => 4,
        Line::Falling(_) => 8,
    }
}

fn operand_kind(operand: Operand) -> u64
    ensures value { result ≡ operand_kind operand }
    ensures small { result ≤ 2 }
{
    match operand {
        Operand::A => 0,
        Operand::B => 2,
    }
}

fn way_kind(up: bool) -> u64
    ensures value { result ≡ way_kind up }
    ensures small { result ≤ 1 }
{
    if up { 1 } else { 0 }
}

fn kind_of(event: &Event) -> u64
    ensures value { result ≡ kind_of event.now }
    ensures small { result ≤ 11 }
{
    line_kind(event.line) + operand_kind(event.operand) + way_kind(event.up)
}

// The event's X, moved up.
fn moved_up(event: &Event) -> u64
    requires { IsWithinReach event.now.x }
    ensures value { pos result ≡ event.now.x +ℤ pos (2 ^ 44) }
    ensures small { result ≤ 2 ^ 45 }
{
    (event.x + REACH) as u64
}

fn pack(event: &Event) -> Packed
    requires { IsPlaced event.now }
    ensures { result ≡ event.now }
{
    Packed {
        y: event.y,
        place: moved_up(event) * 16 + kind_of(event),
    }
}

fn x_of(place: u64) -> i64
    ensures { result ≡ x_of place }
{
    (place / 16) as i64 - REACH
}

// Half the difference, rounded down.
fn half_difference(point: Point) -> i64
    ensures { result ≡ half (point.x -ℤ point.y) }
{
    ((point.x as i128 - point.y as i128) >> 1) as i64
}

// Half the sum, rounded down.
fn half_sum(point: Point) -> i64
    ensures { result ≡ half (point.x +ℤ point.y) }
{
    ((point.x as i128 + point.y as i128) >> 1) as i64
}

// The line of the kind through the point.
fn line_at(kind: u64, point: Point) -> Line
    ensures { result ≡ line_at kind point.x point.y }
{
    if kind < 4 {
        return Line::Upright(point.x);
    }
    if kind < 8 {
        return Line::Rising(half_difference(point));
    }
    Line::Falling(half_sum(point))
}

fn operand_at(kind: u64) -> Operand
    ensures { result ≡ operand_at kind }
{
    if kind / 2 % 2 == 1 {
        return Operand::B;
    }
    Operand::A
}

// The event of the kind at the point.
fn event_at(kind: u64, point: Point) -> Event
    ensures { result ≡ event_at kind point.x point.y }
{
    Event {
        y: point.y,
        x: point.x,
        line: line_at(kind, point),
        up: kind % 2 == 1,
        operand: operand_at(kind),
    }
}

impl Packed {
    /// The edge's begin.
    pub(crate) fn begin_of(edge: &Edge) -> Packed
        ensures { result ≡ begin_of edge.now }
    {
        let _promised = edge.y0();
        pack(&Event::begin_of(edge))
    }

    /// Its end.
    pub(crate) fn end_of(edge: &Edge) -> Packed
        ensures { result ≡ end_of edge.now }
    {
        let _promised = edge.y0();
        pack(&Event::end_of(edge))
    }

    /// The event.
    pub(crate) fn event(&self) -> Event
        ensures { result ≡ self.now }
    {
        let point = Point {
            x: x_of(self.place),
            y: self.y,
        };
        event_at(self.place % 16, point)
    }

    /// Where it is.
    pub(crate) fn spot(&self) -> Spot
        ensures { result ≡ spot_of self.now }
    {
        Spot {
            y: self.y,
            x: x_of(self.place),
        }
    }
}
