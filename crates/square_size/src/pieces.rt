//! The edges of one ring.
ghost use Rattle.std.specs.Prelude.{◌≡◌, ◌≢◌, ◌+◌, ◌<◌, ◌≤◌, ◌<ℤ◌, [], ◌++◌, None, Some, IfNone, IfSome, OnOk, vec_len, vec_capacity};
ghost use Rattle.std.specs.Option.{option_to_list};
ghost use Rattle.half_grid.specs.Lines.{line_of, Passes};
ghost use Rattle.half_grid.specs.Reach.{IsPointWithinReach};
ghost use Rattle.half_grid.specs.Trapezoids.{IsShot};
ghost use Rattle.half_grid.specs.declared.border.Operand.TheVariants.{A};
ghost use Rattle.square_size.specs.Edges.{edge_between, edges_of_grown};
ghost use Rattle.square_size.specs.Rings.{HasRingWithinReach, IsSizing, lower_left, upper_left, lower_right, upper_right, left_bend, right_bend};

use crate::rings::{
    HalfSides, left_bend, lower_left, lower_right, right_bend, upper_left, upper_right,
};
use geo_stream::NoMemory;
use half_grid::{Edge, Line, Operand, Point, Trap, line_through};
use std::marker::Model;

// The line through two points of different Y, where there is one. Upright lines, the most frequent, come first.
#[tactic(auto, unfolding(half_grid::specs::Lines::line_of))]
#[inline(always)]
fn line_between(a: Point, b: Point) -> Option<Line>
    ensures exact { result ≡ line_of a b }
    ensures through { IfSome result (λ line. Passes line a × Passes line b × (a.y ≢ b.y)) }
{
    if a.y == b.y {
        return None;
    }
    if a.x == b.x {
        return Some(Line::Upright(a.x));
    }
    line_through(a, b)
}

// The edge from a to b, where they have different Y and lie on a line of the half grid.
#[inline(always)]
fn edge_between(a: Point, b: Point) -> Option<Edge>
    requires first { IsPointWithinReach a }
    requires second { IsPointWithinReach b }
    ensures { result ≡ edge_between A a b }
{
    match line_between(a, b) {
        None => None,
        Some(line) => {
            if a.y < b.y {
                Some(Edge::of(a.y, b.y, line, true, Operand::A))
            } else {
                Some(Edge::of(b.y, a.y, line, false, Operand::A))
            }
        }
    }
}

// The upright edge from a up to b, which has the same X.
#[inline(always)]
fn up_between(a: Point, b: Point) -> Option<Edge>
    requires first { IsPointWithinReach a }
    requires second { IsPointWithinReach b }
    requires upright { a.x ≡ b.x }
    requires up { a.y <ℤ b.y }
    ensures { result ≡ edge_between A a b }
{
    Some(Edge::of(a.y, b.y, Line::Upright(a.x), true, Operand::A))
}

// The upright edge from a down to b, which has the same X.
#[inline(always)]
fn down_between(a: Point, b: Point) -> Option<Edge>
    requires first { IsPointWithinReach a }
    requires second { IsPointWithinReach b }
    requires upright { a.x ≡ b.x }
    requires down { b.y <ℤ a.y }
    ensures { result ≡ edge_between A a b }
{
    Some(Edge::of(b.y, a.y, Line::Upright(a.x), false, Operand::A))
}

// The ring's left side where it is upright, which is then one edge: its second piece is none.
#[inline(always)]
fn upright_left(trap: &Trap, by: HalfSides) -> Option<Edge>
    requires sizing { IsSizing by.dx by.dy }
    requires reach { HasRingWithinReach by.dx by.dy trap.now }
    ensures first { IfSome result (λ edge. Some edge ≡ edge_between A (lower_left by.dx by.dy trap.now) (left_bend by.dx by.dy trap.now.y0 trap.now.y1 trap.now.left)) }
    ensures second { IfSome result (λ edge. None ≡ edge_between A (left_bend by.dx by.dy trap.now.y0 trap.now.y1 trap.now.left) (upper_left by.dx by.dy trap.now)) }
    ensures shot { IsShot trap.now }
{
    if let Line::Upright(c) = trap.left() {
        let x = c - by.dx;
        let low = Point {
            x,
            y: trap.y0() - by.dy,
        };
        let high = Point {
            x,
            y: trap.y1() + by.dy,
        };
        return up_between(low, high);
    }
    None
}

// The ring's right side where it is upright, which is then one edge: its first piece is none.
#[inline(always)]
fn upright_right(trap: &Trap, by: HalfSides) -> Option<Edge>
    requires sizing { IsSizing by.dx by.dy }
    requires reach { HasRingWithinReach by.dx by.dy trap.now }
    ensures first { IfSome result (λ edge. None ≡ edge_between A (upper_right by.dx by.dy trap.now) (right_bend by.dx by.dy trap.now.y0 trap.now.y1 trap.now.right)) }
    ensures second { IfSome result (λ edge. Some edge ≡ edge_between A (right_bend by.dx by.dy trap.now.y0 trap.now.y1 trap.now.right) (lower_right by.dx by.dy trap.now)) }
    ensures shot { IsShot trap.now }
{
    if let Line::Upright(c) = trap.right() {
        let x = c + by.dx;
        let high = Point {
            x,
            y: trap.y1() + by.dy,
        };
        let low = Point {
            x,
            y: trap.y0() - by.dy,
        };
        return down_between(high, low);
    }
    None
}

// Puts the two pieces of the ring's left side in place. Where the side is upright the second is none.
fn put_left(first: &mut Option<Edge>, second: &mut Option<Edge>, trap: &Trap, by: HalfSides)
    requires sizing { IsSizing by.dx by.dy }
    requires reach { HasRingWithinReach by.dx by.dy trap.now }
    ensures first { first.new ≡ edge_between A (lower_left by.dx by.dy trap.now) (left_bend by.dx by.dy trap.now.y0 trap.now.y1 trap.now.left) }
    ensures second { second.new ≡ edge_between A (left_bend by.dx by.dy trap.now.y0 trap.now.y1 trap.now.left) (upper_left by.dx by.dy trap.now) }
{
    if let Some(edge) = upright_left(trap, by) {
        *first = Some(edge);
        *second = None;
        return;
    }
    let bend = left_bend(trap, by);
    *first = edge_between(lower_left(trap, by), bend);
    *second = edge_between(bend, upper_left(trap, by));
}

// Puts the two pieces of the ring's right side in place. Where the side is upright the first is none.
fn put_right(first: &mut Option<Edge>, second: &mut Option<Edge>, trap: &Trap, by: HalfSides)
    requires sizing { IsSizing by.dx by.dy }
    requires reach { HasRingWithinReach by.dx by.dy trap.now }
    ensures first { first.new ≡ edge_between A (upper_right by.dx by.dy trap.now) (right_bend by.dx by.dy trap.now.y0 trap.now.y1 trap.now.right) }
    ensures second { second.new ≡ edge_between A (right_bend by.dx by.dy trap.now.y0 trap.now.y1 trap.now.right) (lower_right by.dx by.dy trap.now) }
{
    if let Some(edge) = upright_right(trap, by) {
        *first = None;
        *second = Some(edge);
        return;
    }
    let bend = right_bend(trap, by);
    *first = edge_between(upper_right(trap, by), bend);
    *second = edge_between(bend, lower_right(trap, by));
}

// Puts an edge, where there is one, at the end.
#[inline(always)]
fn put_some(edges: &mut Vec<Edge>, piece: Option<Edge>)
    requires room { vec_len edges.old < vec_capacity edges.old }
    ensures items { edges.new.items ≡ edges.old.items ++ option_to_list piece }
    ensures len { vec_len edges.new ≤ vec_len edges.old + 1 }
    ensures room { vec_capacity edges.new ≡ vec_capacity edges.old }
{
    if let Some(edge) = piece {
        edges.push_reserved(edge);
    }
}

// Puts the edges of the ring's left side at the end, two at most.
fn add_left(edges: &mut Vec<Edge>, trap: &Trap, by: HalfSides)
    requires sizing { IsSizing by.dx by.dy }
    requires reach { HasRingWithinReach by.dx by.dy trap.now }
    requires room { vec_len edges.old + 2 ≤ vec_capacity edges.old }
    ensures items { edges.new.items ≡ edges.old.items ++ (option_to_list (edge_between A (lower_left by.dx by.dy trap.now) (left_bend by.dx by.dy trap.now.y0 trap.now.y1 trap.now.left)) ++ option_to_list (edge_between A (left_bend by.dx by.dy trap.now.y0 trap.now.y1 trap.now.left) (upper_left by.dx by.dy trap.now))) }
    ensures len { vec_len edges.new ≤ vec_len edges.old + 2 }
    ensures room { vec_capacity edges.new ≡ vec_capacity edges.old }
{
    if let Some(edge) = upright_left(trap, by) {
        edges.push_reserved(edge);
        return;
    }
    let bend = left_bend(trap, by);
    put_some(edges, edge_between(lower_left(trap, by), bend));
    put_some(edges, edge_between(bend, upper_left(trap, by)));
}

// Puts the edges of the ring's right side at the end, two at most.
fn add_right(edges: &mut Vec<Edge>, trap: &Trap, by: HalfSides)
    requires sizing { IsSizing by.dx by.dy }
    requires reach { HasRingWithinReach by.dx by.dy trap.now }
    requires room { vec_len edges.old + 2 ≤ vec_capacity edges.old }
    ensures items { edges.new.items ≡ edges.old.items ++ (option_to_list (edge_between A (upper_right by.dx by.dy trap.now) (right_bend by.dx by.dy trap.now.y0 trap.now.y1 trap.now.right)) ++ option_to_list (edge_between A (right_bend by.dx by.dy trap.now.y0 trap.now.y1 trap.now.right) (lower_right by.dx by.dy trap.now))) }
{
    if let Some(edge) = upright_right(trap, by) {
        edges.push_reserved(edge);
        return;
    }
    let bend = right_bend(trap, by);
    put_some(edges, edge_between(upper_right(trap, by), bend));
    put_some(edges, edge_between(bend, lower_right(trap, by)));
}

/// Puts the edges of the ring of a trapezoid that grows by the rectangle of half sides `dx` and `dy`, in half units, at
/// the end of a list of edges: those that the stream [`Grown`](crate::Grown) gives for it, in the same order. An upright
/// side takes one edge. Sizing, which sweeps the rings of a whole list, calls it trapezoid by trapezoid.
///
/// `dx` and `dy` are 0 to 65,536, their sum is even, and the ring is within reach.
pub fn put_grown(edges: &mut Vec<Edge>, trap: &Trap, dx: i64, dy: i64) -> Result<(), NoMemory>
    requires sizing { IsSizing dx dy }
    requires reach { HasRingWithinReach dx dy trap.now }
    ensures { OnOk result (edges.new.items ≡ edges.old.items ++ edges_of_grown dx dy trap.now) }
{
    let by = HalfSides { dx, dy };
    edges.reserve(4)?;
    add_left(edges, trap, by);
    add_right(edges, trap, by);
    Ok(())
}

/// What is still to come of the edges of a ring that aren't horizontal: two up at the left, two down at the right.
/// Where a side is upright one of its two is none. Contracts see the list.
#[derive(Drop)]
pub(crate) struct Pieces {
    first: Option<Edge>,
    second: Option<Edge>,
    third: Option<Edge>,
    fourth: Option<Edge>,
}

impl Model for Pieces {
    ghost use Rattle.std.specs.Prelude.{List};
    ghost use Rattle.half_grid.specs.Edges.{EdgeParts};
    ghost use Rattle.square_size.specs.Edges.{listed};

    ghost Value = { List EdgeParts };

    ghost view = { λ pieces. listed pieces.first pieces.second pieces.third pieces.fourth };
}

impl Pieces {
    /// No edges.
    pub(crate) fn none() -> Pieces
        ensures { result ≡ [] }
    {
        Pieces {
            first: None,
            second: None,
            third: None,
            fourth: None,
        }
    }

    /// The edges of the ring of the grown trapezoid come in the place of what was there.
    pub(crate) fn fill(&mut self, trap: &Trap, by: HalfSides)
        requires sizing { IsSizing by.dx by.dy }
        requires reach { HasRingWithinReach by.dx by.dy trap.now }
        ensures { self.new ≡ edges_of_grown by.dx by.dy trap.now }
    {
        put_left(&mut self.first, &mut self.second, trap, by);
        put_right(&mut self.third, &mut self.fourth, trap, by);
    }

    /// The next edge, which is removed. None exactly where there is none.
    pub(crate) fn take_first(&mut self) -> Option<Edge>
        ensures first { self.old ≡ option_to_list result ++ self.new }
        ensures none { IfNone result (self.old ≡ []) }
    {
        if let Some(edge) = self.first {
            self.first = None;
            return Some(edge);
        }
        if let Some(edge) = self.second {
            self.second = None;
            return Some(edge);
        }
        if let Some(edge) = self.third {
            self.third = None;
            return Some(edge);
        }
        self.fourth.take()
    }
}
