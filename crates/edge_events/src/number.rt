//! An event as a number.
ghost use Rattle.std.specs.Prelude.{◌≡◌, ◌≤◌, ◌/◌, ◌%◌, ◌^◌, ◌+ℤ◌, ◌-ℤ◌, pos};
ghost use Rattle.half_grid.specs.Halves.{half};
ghost use Rattle.half_grid.specs.Reach.{IsWithinReach};
ghost use Rattle.edge_events.specs.EventNumbers.{rank_of, operand_kind, way_kind, kind_of, line_at, operand_at, event_at, x_of};

use half_grid::{Line, Operand, Point};
use row_lists::Event;

// Each X within reach is at least 0 once it is moved up by this.
const REACH: i64 = 17_592_186_044_416;

/// An event in 16 bytes. By Y and then by place, such numbers are in the order of a sweep.
#[derive(Clone, Copy, Debug, PartialEq, Eq)]
pub struct EventNumber {
    /// Its Y.
    pub y: i64,
    /// 16 times its X, moved up, and the number of its kind: four times the rank of its line among those through its point,
    /// twice its operand, and whether the weight falls.
    pub place: u64,
}

// Falling lines are first: above their point they stand left of the others.
#[inline]
fn rank_of(line: Line) -> u64
    ensures value { result ≡ rank_of line }
    ensures small { result ≤ 2 }
{
    match line {
        Line::Falling(_) => 0,
        Line::Upright(_) => 1,
        Line::Rising(_) => 2,
    }
}

#[inline]
fn operand_kind(operand: Operand) -> u64
    ensures value { result ≡ operand_kind operand }
    ensures small { result ≤ 2 }
{
    match operand {
        Operand::A => 0,
        Operand::B => 2,
    }
}

#[inline]
fn way_kind(up: bool) -> u64
    ensures value { result ≡ way_kind up }
    ensures small { result ≤ 1 }
{
    if up { 0 } else { 1 }
}

#[inline]
fn kind_of(event: &Event) -> u64
    ensures value { result ≡ kind_of event.now }
    ensures small { result ≤ 11 }
{
    rank_of(event.line) * 4 + operand_kind(event.operand) + way_kind(event.up)
}

// The event's X, moved up.
#[inline]
fn moved_up(event: &Event) -> u64
    requires { IsWithinReach event.now.x }
    ensures value { pos result ≡ event.now.x +ℤ pos (2 ^ 44) }
    ensures small { result ≤ 2 ^ 45 }
{
    (event.x + REACH) as u64
}

#[inline]
fn x_of(place: u64) -> i64
    ensures { result ≡ x_of place }
{
    (place / 16) as i64 - REACH
}

// A quarter of the place, moved back.
#[inline]
fn moved_back(place: u64) -> i64
    ensures { result ≡ pos (place / 4) -ℤ pos (2 ^ 46) }
{
    (place / 4) as i64 - 4 * REACH
}

// Half the difference, rounded down.
#[inline]
fn half_difference(point: Point) -> i64
    ensures { result ≡ half (point.x -ℤ point.y) }
{
    ((point.x as i128 - point.y as i128) >> 1) as i64
}

// Half the sum, rounded down.
#[inline]
fn half_sum(point: Point) -> i64
    ensures { result ≡ half (point.x +ℤ point.y) }
{
    ((point.x as i128 + point.y as i128) >> 1) as i64
}

// The line of the kind through the point.
#[inline]
fn line_at(kind: u64, point: Point) -> Line
    ensures { result ≡ line_at kind point.x point.y }
{
    if kind < 4 {
        return Line::Falling(half_sum(point));
    }
    if kind < 8 {
        return Line::Upright(point.x);
    }
    Line::Rising(half_difference(point))
}

#[inline]
fn operand_at(kind: u64) -> Operand
    ensures { result ≡ operand_at kind }
{
    if kind / 2 % 2 == 1 {
        return Operand::B;
    }
    Operand::A
}

// The event of the kind at the point.
#[inline]
fn event_at(kind: u64, point: Point) -> Event
    ensures { result ≡ event_at kind point.x point.y }
{
    Event {
        y: point.y,
        x: point.x,
        line: line_at(kind, point),
        up: kind % 2 == 0,
        operand: operand_at(kind),
    }
}

impl EventNumber {
    ghost use Rattle.edge_events.specs.EventNumbers.{IsPlaced, IsNumber, event_of, key_of};

    /// The number of an event that is on its line, within reach.
    #[inline]
    pub fn of(event: &Event) -> EventNumber
        requires { IsPlaced event.now }
        ensures event { event_of result ≡ event.now }
        ensures kind { result.place % 16 ≡ kind_of event.now }
    {
        EventNumber {
            y: event.y,
            place: moved_up(event) * 16 + kind_of(event),
        }
    }

    /// The event.
    #[inline]
    pub fn event(self) -> Event
        ensures { result ≡ event_of self }
    {
        let point = Point {
            x: x_of(self.place),
            y: self.y,
        };
        event_at(self.place % 16, point)
    }

    /// Four times its X, and the rank of its line: 0 where that falls, 1 where it is upright, 2 where it rises.
    #[inline]
    pub fn key(self) -> i64
        requires { IsNumber self }
        ensures { result ≡ key_of (event_of self) }
    {
        moved_back(self.place)
    }

    /// Whether the weight of the line is greater above it.
    #[inline]
    pub fn is_up(self) -> bool
        ensures { result ≡ (event_of self).up }
    {
        self.place % 2 == 0
    }

    /// The operand whose weight changes.
    #[inline]
    pub fn operand(self) -> Operand
        ensures { result ≡ (event_of self).operand }
    {
        operand_at(self.place % 16)
    }
}
