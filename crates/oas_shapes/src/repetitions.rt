//! The offsets of repetitions.
ghost use Rattle.std.specs.Prelude.{◌≡◌, ◌↔◌, ℕ, map, All, [], ◌∷◌, IsTrue, IsOk, IfOk, Err, option_copied, false};
ghost use Rattle.layout_model.specs.Layouts.{AreOffsets};
ghost use Rattle.oas_shapes.specs.Plane.{origin, east, north, doubled as in_halves, places_along};
ghost use Rattle.oas_shapes.specs.Ways.{way_of, towards as towards_of};
ghost use Rattle.oas_shapes.specs.Lattices.{IsLattice, places_of};
ghost use Rattle.layout_model.specs.Images.{enlarged};
ghost use Rattle.layout_model.specs.Grids.{grid_places};
ghost use Rattle.oas_shapes.specs.Repetitions.{IsDimension, HasDimensions, HasDimensionsIn, offsets_of as the_offsets_of, offsets_in as all_offsets};
ghost use Rattle.oas_shapes.specs.Rules.{AreNear, KeepsRepetition, IsLowest};
ghost use Rattle.oas_shapes.specs.Short.{AreFew, IsShort, IsShortIn};
ghost use Rattle.oas_shapes.specs.declared.drawing.Undrawn.TheVariants.{Rule};
ghost use Rattle.oas_shapes.specs.declared.drawing.Undrawn.TheVariants as undrawns;
ghost use Rattle.oas_shapes.specs.declared.trails.Unplaced.TheVariants.{Far, Many, Unkept, NoMemory as Wanting};

use crate::drawing::Undrawn;
use crate::lattices::Lattice;
use crate::sharing::Repetition;
use crate::trails::{
    Unplaced, along, along_grid, along_spaces, moves_stay_near, spaces_stay_near, towards,
};
use crate::wide::{ORIGIN, Wide, widened};
use half_grid::Point;
use layout_model::Offsets;
use oas_record::{Moves, Numbers, Rep};
use std::alloc::Global;

// No move.
const STILL: Wide = Wide { x: 0, y: 0 };

fn is_dimension(count: u64) -> bool
    ensures { IsTrue result ↔ IsDimension count }
{
    2 <= count && count <= 16777216
}

fn is_allowed(count: u64) -> bool
    ensures { IsTrue result ↔ All IsDimension (count ∷ []) }
{
    is_dimension(count)
}

fn are_allowed(columns: u64, rows: u64) -> bool
    ensures { IsTrue result ↔ All IsDimension (columns ∷ rows ∷ []) }
{
    is_dimension(columns) && is_dimension(rows)
}

/// Whether its dimensions are 2 to 16,777,216.
pub fn dimensions_are_allowed(repetition: &Rep<'_>) -> bool
    ensures { IsTrue result ↔ HasDimensions repetition.now }
{
    match repetition {
        Rep::Same => true,
        Rep::Grid { x_dim, y_dim, .. } => are_allowed(*x_dim, *y_dim),
        Rep::Row { dim, .. } => is_allowed(*dim),
        Rep::Column { dim, .. } => is_allowed(*dim),
        Rep::RowSpaces { dim, .. } => is_allowed(*dim),
        Rep::RowOnGrid { dim, .. } => is_allowed(*dim),
        Rep::ColumnSpaces { dim, .. } => is_allowed(*dim),
        Rep::ColumnOnGrid { dim, .. } => is_allowed(*dim),
        Rep::Lattice { n_dim, m_dim, .. } => are_allowed(*n_dim, *m_dim),
        Rep::Line { dim, .. } => is_allowed(*dim),
        Rep::Moves { dim, .. } => is_allowed(*dim),
        Rep::MovesOnGrid { dim, .. } => is_allowed(*dim),
    }
}

/// One place, which takes no memory.
#[inline(always)]
pub(crate) fn alone(alloc: Global) -> Result<Offsets, Unplaced>
    ensures some { IsOk result }
    ensures ok { IfOk result (λ offsets. (offsets ≡ origin ∷ []) × AreOffsets offsets) }
    ensures far { (result ≡ Err Far) → ⊥ }
    ensures many { (result ≡ Err Many) → ⊥ }
    ensures unkept { (result ≡ Err Unkept) → ⊥ }
    ensures wanting { (result ≡ Err Wanting) → ⊥ }
{
    match Offsets::list(alloc, &[ORIGIN]) {
        Ok(offsets) => Ok(offsets),
        Err(_) => Err(Unplaced::NoMemory),
    }
}

// These places, of which there may be so many.
fn listed(alloc: Global, places: &[Point]) -> Result<Offsets, Unplaced>
    requires { AreOffsets places.now }
    ensures ok { IfOk result (λ offsets. (offsets ≡ places.now) × AreOffsets offsets) }
    ensures far { (result ≡ Err Far) → ⊥ }
    ensures many { (result ≡ Err Many) → ⊥ }
    ensures wanting { (result ≡ Err Wanting) → ⊥ }
{
    match Offsets::list(alloc, places) {
        Ok(offsets) => Ok(offsets),
        Err(_) => Err(Unplaced::Unkept),
    }
}

// Why places of which there are too many can't be listed, where this says whether all of them are near.
fn refused(are_near: bool) -> Unplaced
    ensures far { result ≡ Far → are_near ≡ false }
    ensures many { result ≡ Many → IsTrue are_near }
    ensures unkept { (result ≡ Unkept) → ⊥ }
    ensures wanting { (result ≡ Wanting) → ⊥ }
{
    if are_near {
        Unplaced::Many
    } else {
        Unplaced::Far
    }
}

// A row, or a column where it is upright. Up to twelve places take no memory until all of them are known to be near, and
// too many of them take none.
fn by_spaces(
    alloc: Global,
    is_upright: bool,
    grid: u64,
    spaces: &Numbers<'_>,
    is_allowed: bool,
) -> Result<Offsets, Unplaced>
    ensures ok { IfOk result (λ offsets. (offsets ≡ map in_halves (places_along origin (map (λ space. enlarged grid (towards_of is_upright space)) spaces.now))) × AreOffsets offsets × IsTrue is_allowed) }
    ensures far { result ≡ Err Far → ¬ AreNear (map in_halves (places_along origin (map (λ space. enlarged grid (towards_of is_upright space)) spaces.now))) }
    ensures many { result ≡ Err Many → AreNear (map in_halves (places_along origin (map (λ space. enlarged grid (towards_of is_upright space)) spaces.now))) × (is_allowed ≡ false) }
    ensures unkept { result ≡ Err Unkept → AreNear (map in_halves (places_along origin (map (λ space. enlarged grid (towards_of is_upright space)) spaces.now))) × IsTrue is_allowed }
    ensures few { AreFew spaces.now → result ≡ Err Wanting → ⊥ }
{
    if !is_allowed {
        return Err(refused(spaces_stay_near(is_upright, grid, spaces)));
    }
    match along_spaces(alloc, is_upright, grid, spaces) {
        Ok(places) => listed(alloc, places.as_slice()),
        Err(Unplaced::Far) => Err(Unplaced::Far),
        Err(_) => Err(Unplaced::NoMemory),
    }
}

// A row or a column whose spaces are those that are written.
fn by_own_spaces(
    alloc: Global,
    is_upright: bool,
    spaces: &Numbers<'_>,
    is_allowed: bool,
) -> Result<Offsets, Unplaced>
    ensures ok { IfOk result (λ offsets. (offsets ≡ map in_halves (places_along origin (map (towards_of is_upright) spaces.now))) × AreOffsets offsets × IsTrue is_allowed) }
    ensures far { result ≡ Err Far → ¬ AreNear (map in_halves (places_along origin (map (towards_of is_upright) spaces.now))) }
    ensures many { result ≡ Err Many → AreNear (map in_halves (places_along origin (map (towards_of is_upright) spaces.now))) × (is_allowed ≡ false) }
    ensures unkept { result ≡ Err Unkept → AreNear (map in_halves (places_along origin (map (towards_of is_upright) spaces.now))) × IsTrue is_allowed }
    ensures few { AreFew spaces.now → result ≡ Err Wanting → ⊥ }
{
    by_spaces(alloc, is_upright, 1, spaces, is_allowed)
}

fn by_moves(alloc: Global, moves: &Moves<'_>, is_allowed: bool) -> Result<Offsets, Unplaced>
    ensures ok { IfOk result (λ offsets. (offsets ≡ map in_halves (places_along origin moves.now)) × AreOffsets offsets × IsTrue is_allowed) }
    ensures far { result ≡ Err Far → ¬ AreNear (map in_halves (places_along origin moves.now)) }
    ensures many { result ≡ Err Many → AreNear (map in_halves (places_along origin moves.now)) × (is_allowed ≡ false) }
    ensures unkept { result ≡ Err Unkept → AreNear (map in_halves (places_along origin moves.now)) × IsTrue is_allowed }
    ensures few { AreFew moves.now → result ≡ Err Wanting → ⊥ }
{
    if !is_allowed {
        return Err(refused(moves_stay_near(1, moves)));
    }
    match along(alloc, ORIGIN, moves) {
        Ok(places) => listed(alloc, places.as_slice()),
        Err(Unplaced::Far) => Err(Unplaced::Far),
        Err(_) => Err(Unplaced::NoMemory),
    }
}

fn by_moves_on_grid(
    alloc: Global,
    grid: u64,
    moves: &Moves<'_>,
    is_allowed: bool,
) -> Result<Offsets, Unplaced>
    ensures ok { IfOk result (λ offsets. (offsets ≡ map in_halves (places_along origin (map (enlarged grid) moves.now))) × AreOffsets offsets × IsTrue is_allowed) }
    ensures far { result ≡ Err Far → ¬ AreNear (map in_halves (places_along origin (map (enlarged grid) moves.now))) }
    ensures many { result ≡ Err Many → AreNear (map in_halves (places_along origin (map (enlarged grid) moves.now))) × (is_allowed ≡ false) }
    ensures unkept { result ≡ Err Unkept → AreNear (map in_halves (places_along origin (map (enlarged grid) moves.now))) × IsTrue is_allowed }
    ensures few { AreFew moves.now → result ≡ Err Wanting → ⊥ }
{
    if !is_allowed {
        return Err(refused(moves_stay_near(grid, moves)));
    }
    match along_grid(alloc, grid, moves) {
        Ok(places) => listed(alloc, places.as_slice()),
        Err(Unplaced::Far) => Err(Unplaced::Far),
        Err(_) => Err(Unplaced::NoMemory),
    }
}

// A regular repetition in one direction.
fn by_step(alloc: Global, dim: u64, step: Wide, is_allowed: bool) -> Result<Offsets, Unplaced>
    requires { IsTrue is_allowed → IsDimension dim }
    ensures ok { IfOk result (λ offsets. (offsets ≡ map in_halves (grid_places dim 1 (way_of step) origin)) × AreOffsets offsets × IsTrue is_allowed) }
    ensures far { result ≡ Err Far → ¬ AreNear (map in_halves (grid_places dim 1 (way_of step) origin)) }
    ensures many { result ≡ Err Many → AreNear (map in_halves (grid_places dim 1 (way_of step) origin)) × (is_allowed ≡ false) }
    ensures unkept { result ≡ Err Unkept → AreNear (map in_halves (grid_places dim 1 (way_of step) origin)) × IsTrue is_allowed }
    ensures wanting { (result ≡ Err Wanting) → ⊥ }
{
    let steps = Lattice {
        nu: dim,
        nv: 1,
        u: step,
        v: STILL,
    };
    steps.offsets(alloc, is_allowed)
}

// A regular repetition in columns and rows, which go right and up by these spaces.
fn by_grid(
    alloc: Global,
    columns: u64,
    rows: u64,
    x_space: u64,
    y_space: u64,
    is_allowed: bool,
) -> Result<Offsets, Unplaced>
    requires { IsTrue is_allowed → All IsDimension (columns ∷ rows ∷ []) }
    ensures ok { IfOk result (λ offsets. (offsets ≡ map in_halves (grid_places columns rows (east x_space) (north y_space))) × AreOffsets offsets × IsTrue is_allowed) }
    ensures far { result ≡ Err Far → ¬ AreNear (map in_halves (grid_places columns rows (east x_space) (north y_space))) }
    ensures many { result ≡ Err Many → AreNear (map in_halves (grid_places columns rows (east x_space) (north y_space))) × (is_allowed ≡ false) }
    ensures unkept { result ≡ Err Unkept → AreNear (map in_halves (grid_places columns rows (east x_space) (north y_space))) × IsTrue is_allowed }
    ensures wanting { (result ≡ Err Wanting) → ⊥ }
{
    let steps = Lattice {
        nu: columns,
        nv: rows,
        u: towards(false, x_space),
        v: towards(true, y_space),
    };
    steps.offsets(alloc, is_allowed)
}

// A regular repetition in two directions.
fn by_lattice(
    alloc: Global,
    nu: u64,
    nv: u64,
    u: Point,
    v: Point,
    is_allowed: bool,
) -> Result<Offsets, Unplaced>
    requires { IsTrue is_allowed → All IsDimension (nu ∷ nv ∷ []) }
    ensures ok { IfOk result (λ offsets. (offsets ≡ map in_halves (grid_places nu nv u v)) × AreOffsets offsets × IsTrue is_allowed) }
    ensures far { result ≡ Err Far → ¬ AreNear (map in_halves (grid_places nu nv u v)) }
    ensures many { result ≡ Err Many → AreNear (map in_halves (grid_places nu nv u v)) × (is_allowed ≡ false) }
    ensures unkept { result ≡ Err Unkept → AreNear (map in_halves (grid_places nu nv u v)) × IsTrue is_allowed }
    ensures wanting { (result ≡ Err Wanting) → ⊥ }
{
    let steps = Lattice {
        nu,
        nv,
        u: widened(u),
        v: widened(v),
    };
    steps.offsets(alloc, is_allowed)
}

/// The offsets of a repetition in half units.
pub(crate) fn spread(
    alloc: Global,
    repetition: &Rep<'_>,
    is_allowed: bool,
) -> Result<Offsets, Unplaced>
    requires { IsTrue is_allowed → HasDimensions repetition.now }
    ensures ok { IfOk result (λ offsets. (offsets ≡ the_offsets_of repetition.now) × AreOffsets offsets × HasDimensions repetition.now) }
    ensures far { result ≡ Err Far → ¬ AreNear (the_offsets_of repetition.now) }
    ensures many { result ≡ Err Many → AreNear (the_offsets_of repetition.now) × (is_allowed ≡ false) }
    ensures unkept { result ≡ Err Unkept → AreNear (the_offsets_of repetition.now) × IsTrue is_allowed }
    ensures few { IsShort repetition.now → result ≡ Err Wanting → ⊥ }
{
    match repetition {
        Rep::Same => alone(alloc),
        Rep::Grid {
            x_dim,
            y_dim,
            x_space,
            y_space,
        } => by_grid(alloc, *x_dim, *y_dim, *x_space, *y_space, is_allowed),
        Rep::Row { dim, space } => by_step(alloc, *dim, towards(false, *space), is_allowed),
        Rep::Column { dim, space } => by_step(alloc, *dim, towards(true, *space), is_allowed),
        Rep::RowSpaces { spaces, .. } => by_own_spaces(alloc, false, spaces, is_allowed),
        Rep::RowOnGrid { grid, spaces, .. } => by_spaces(alloc, false, *grid, spaces, is_allowed),
        Rep::ColumnSpaces { spaces, .. } => by_own_spaces(alloc, true, spaces, is_allowed),
        Rep::ColumnOnGrid { grid, spaces, .. } => by_spaces(alloc, true, *grid, spaces, is_allowed),
        Rep::Lattice { n_dim, m_dim, u, v } => by_lattice(
            alloc, *n_dim, *m_dim, *u, *v, is_allowed,
        ),
        Rep::Line { dim, u } => by_step(alloc, *dim, widened(*u), is_allowed),
        Rep::Moves { moves, .. } => by_moves(alloc, moves, is_allowed),
        Rep::MovesOnGrid { grid, moves, .. } => by_moves_on_grid(alloc, *grid, moves, is_allowed),
    }
}

/// The offsets of a record with this repetition, or none, in half units.
#[inline(always)]
pub(crate) fn offsets_in(
    alloc: Global,
    repetition: Option<&Repetition<'_>>,
) -> Result<Offsets, Unplaced>
    ensures offsets { IfOk result (λ offsets. offsets ≡ all_offsets (option_copied repetition.entry)) }
    ensures grid { IfOk result AreOffsets }
    ensures allowed { IfOk result (λ _. HasDimensionsIn (option_copied repetition.entry)) }
    ensures far { result ≡ Err Far → ¬ AreNear (all_offsets (option_copied repetition.entry)) }
    ensures many { result ≡ Err Many → AreNear (all_offsets (option_copied repetition.entry)) × ¬ HasDimensionsIn (option_copied repetition.entry) }
    ensures unkept { result ≡ Err Unkept → AreNear (all_offsets (option_copied repetition.entry)) × HasDimensionsIn (option_copied repetition.entry) }
    ensures few { IsShortIn (option_copied repetition.entry) → result ≡ Err Wanting → ⊥ }
{
    match repetition {
        Some(repetition) => repetition.offsets(alloc),
        None => alone(alloc),
    }
}

/// The offsets of a repetition in half units: those of a placement, say. One that is regular is kept as a grid.
/// Whatever rule one of at most twelve places or a regular one breaks is told, also where memory is wanting.
pub fn offsets_of(alloc: Global, repetition: &Repetition<'_>) -> Result<Offsets, Undrawn>
    ensures offsets { IfOk result (λ offsets. offsets ≡ the_offsets_of repetition.now) }
    ensures grid { IfOk result AreOffsets }
    ensures kept { IfOk result (λ _. (rule : ℕ) → KeepsRepetition repetition.now rule) }
    ensures broken { (rule : ℕ) → result ≡ Err (Rule rule) → IsLowest (KeepsRepetition repetition.now) rule }
    ensures memory { IsShort repetition.now → result ≡ Err undrawns.NoMemory → (rule : ℕ) → KeepsRepetition repetition.now rule }
{
    match repetition.offsets(alloc) {
        Ok(offsets) => Ok(offsets),
        Err(Unplaced::Far) => Err(Undrawn::Rule(1)),
        Err(Unplaced::Many) => Err(Undrawn::Rule(11)),
        Err(Unplaced::Unkept) => Err(Undrawn::NoMemory),
        Err(Unplaced::NoMemory) => Err(Undrawn::NoMemory),
    }
}
