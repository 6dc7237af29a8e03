//! Edges split at an upright line.
ghost use Rattle.std.specs.Prelude.{◌≡◌, ◌≤ℤ◌, ◌-ℤ◌, ◌+ℤ◌, ℤ, List, ◌∷◌, ◌++◌, [], All, map, IfOk, OnOk};
ghost use Rattle.half_grid.specs.Edges.{EdgeParts};
ghost use Rattle.std.specs.Option.{option_to_list};
ghost use Rattle.std.specs.Int.{int_min, int_max};
ghost use Rattle.half_grid.specs.Lines.{first_strip};
ghost use Rattle.half_grid.specs.Reach.{IsWithinReach};
ghost use Rattle.half_grid.specs.declared.plane.Line.TheVariants.{Rising, Falling};
ghost use Rattle.column_sweep.specs.Parts.{LiesLeft, LiesRight, part_over, part_below, part_above, turned, AddUp, AreSplit, AreParts};

use crate::cuts::Cut;
use crate::sums::{Level, put, row_sums};
use geo_stream::NoMemory;
use half_grid::{Edge, Line};
use scan_line::Slab;
use std::alloc::Global;

/// Edges left of an upright line, and edges right of it.
#[derive(Drop)]
pub(crate) struct Parts {
    pub(crate) own: Vec<Edge>,
    pub(crate) beyond: Vec<Edge>,
}

/// The parts of one edge on both sides of an upright line.
#[derive(Clone, Copy)]
struct Halves {
    left: Option<Edge>,
    right: Option<Edge>,
}

// The rows of the edge below the level, and those from it on.
pub(crate) fn rows_below(edge: &Edge, level: Level) -> Slab
    ensures bottom { result.y0 ≡ edge.now.y0 }
    ensures top { result.y1 ≡ int_min edge.now.y1 level.y }
{
    Slab {
        y0: edge.y0(),
        y1: edge.y1().min(level.y),
    }
}

pub(crate) fn rows_above(edge: &Edge, level: Level) -> Slab
    ensures bottom { result.y0 ≡ int_max edge.now.y0 level.y }
    ensures top { result.y1 ≡ edge.now.y1 }
{
    Slab {
        y0: edge.y0().max(level.y),
        y1: edge.y1(),
    }
}

// The edge's part in these of its rows.
pub(crate) fn part_over(edge: &Edge, rows: Slab) -> Option<Edge>
    requires bottom { edge.now.y0 ≤ℤ rows.y0 }
    requires top { rows.y1 ≤ℤ edge.now.y1 }
    ensures { result ≡ part_over edge.now rows.y0 rows.y1 }
{
    if rows.y1 <= rows.y0 {
        return None;
    }
    Some(Edge::of(rows.y0, rows.y1, edge.line(), edge.is_up(), edge.operand()))
}

/// The edge's part below the level.
pub(crate) fn part_below(edge: &Edge, level: Level) -> Option<Edge>
    ensures { result ≡ part_below level.y edge.now }
{
    part_over(edge, rows_below(edge, level))
}

/// The edge's part above the level.
pub(crate) fn part_above(edge: &Edge, level: Level) -> Option<Edge>
    ensures { result ≡ part_above level.y edge.now }
{
    part_over(edge, rows_above(edge, level))
}

// The first row in which a line that goes up is on the other side of the cut.
fn passing(line: Line, cut: Cut) -> Level
    requires line { IsWithinReach (first_strip line) }
    requires cut { IsWithinReach cut.x }
    ensures rising { (c : ℤ) → line ≡ Rising c → result.y ≡ cut.x -ℤ (c +ℤ c) }
    ensures falling { (c : ℤ) → line ≡ Falling c → result.y ≡ (c +ℤ c) -ℤ cut.x }
{
    match line {
        Line::Upright(_) => Level { y: 0 },
        Line::Rising(c) => Level { y: cut.x - 2 * c },
        Line::Falling(c) => Level { y: 2 * c - cut.x },
    }
}

fn halves_of(edge: &Edge, cut: Cut) -> Halves
    requires cut { IsWithinReach cut.x }
    ensures add { AddUp (option_to_list result.left) (option_to_list result.right) (edge.now ∷ []) }
    ensures left { All (LiesLeft cut.x) (option_to_list result.left) }
    ensures right { All (LiesRight cut.x) (option_to_list result.right) }
{
    let level = passing(edge.line(), cut);
    match edge.line() {
        Line::Upright(c) => {
            if c < cut.x {
                return Halves {
                    left: Some(*edge),
                    right: None,
                };
            }
            Halves {
                left: None,
                right: Some(*edge),
            }
        }
        Line::Rising(_) => Halves {
            left: part_below(edge, level),
            right: part_above(edge, level),
        },
        Line::Falling(_) => Halves {
            left: part_above(edge, level),
            right: part_below(edge, level),
        },
    }
}

// Puts the parts of the edges left of the cut, and those right of it, after those of others.
fn split(parts: &mut Parts, edges: &[Edge], cut: Cut) -> Result<(), NoMemory>
    requires { IsWithinReach cut.x }
    ensures { (before : List EdgeParts) → AreSplit cut.x before parts.old.own.items parts.old.beyond.items → OnOk result (AreSplit cut.x (before ++ edges.now) parts.new.own.items parts.new.beyond.items) }
{
    for edge in edges {
        let halves = halves_of(edge, cut);
        put(&mut parts.own, halves.left)?;
        put(&mut parts.beyond, halves.right)?;
    }
    Ok(())
}

// The same edge the other way.
fn turned(edge: &Edge) -> Edge
    ensures { result ≡ turned edge.now }
{
    Edge::of(
        edge.y0(),
        edge.y1(),
        edge.line(),
        !edge.is_up(),
        edge.operand(),
    )
}

// Puts each edge into `beyond`, and the other way into `own`.
fn close(parts: &mut Parts, sums: &[Edge]) -> Result<(), NoMemory>
    ensures own { OnOk result (parts.new.own.items ≡ parts.old.own.items ++ map turned sums.now) }
    ensures beyond { OnOk result (parts.new.beyond.items ≡ parts.old.beyond.items ++ sums.now) }
{
    for edge in sums {
        parts.own.push(turned(edge))?;
        parts.beyond.push(*edge)?;
    }
    Ok(())
}

/// Edges for the tiles left of the cut, and edges for those right of it: on its own side each list winds as all of both
/// lists do, and on the other it winds round nothing.
pub(crate) fn parted(
    alloc: Global,
    edges: &[Edge],
    others: &[Edge],
    cut: Cut,
) -> Result<Parts, NoMemory>
    requires { IsWithinReach cut.x }
    ensures { IfOk result (λ parts. AreParts cut.x (edges.now ++ others.now) parts.own.items parts.beyond.items) }
{
    let mut parts = Parts {
        own: Vec::new(alloc),
        beyond: Vec::new(alloc),
    };
    split(&mut parts, edges, cut)?;
    split(&mut parts, others, cut)?;
    let sums = row_sums(alloc, parts.own.as_slice(), cut)?;
    close(&mut parts, sums.as_slice())?;
    Ok(parts)
}
