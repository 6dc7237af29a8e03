//! What of a record is looked at beside its modal fields.
ghost use Rattle.std.specs.Prelude.{◌≡◌};
ghost use Rattle.oas_reader.specs.Bodies.{body_of, name_body, shape_body, turning_by};
ghost use Rattle.oas_reader.specs.Meaning.{delta_a, delta_b};

use oas_lex::Real;
use oas_record::{Called, NameKind, OasRecord, ShapeKind, TrapezoidDeltas, Turn};

/// How a placement turns and enlarges the placed cell.
#[derive(Clone, Copy)]
pub(crate) enum Turning {
    /// By this many quarter turns.
    Quarters(u8),
    /// By a magnification and an angle, 1 and 0 where they are absent.
    Reals {
        magnification: Option<Real>,
        angle: Option<Real>,
    },
}

/// What of a record is looked at beside its modal fields, its point list and its repetition.
#[derive(Clone, Copy)]
pub(crate) enum Body {
    Start {
        version: (usize, usize),
        unit: Real,
        offset_flag: u64,
    },
    End {
        scheme: u64,
    },
    /// CELLNAME, with its number where it writes one.
    CellName {
        name: (usize, usize),
        number: Option<u64>,
    },
    Cell(Called),
    Placement {
        called: Option<Called>,
        flips: bool,
        turning: Turning,
    },
    Text,
    Rectangle,
    Trapezoid {
        is_upright: bool,
        delta_a: i64,
        delta_b: i64,
    },
    Ctrapezoid,
    Polygon,
    Path,
    /// CIRCLE and XGEOMETRY.
    Undrawn,
    Property,
    /// Any other record.
    Other,
}

fn turning_by(info: u8, turn: Option<Turn>) -> Turning
    ensures { result ≡ turning_by info turn }
{
    match turn {
        None => Turning::Quarters(info / 2 % 4),
        Some(turn) => Turning::Reals {
            magnification: turn.magnification,
            angle: turn.angle,
        },
    }
}

fn name_body(kind: NameKind, text: (usize, usize), number: Option<u64>) -> Body
    ensures { result ≡ name_body kind text number }
{
    match kind {
        NameKind::Cell => Body::CellName { name: text, number },
        _ => Body::Other,
    }
}

fn delta_a(deltas: TrapezoidDeltas) -> i64
    ensures { result ≡ delta_a deltas }
{
    match deltas {
        TrapezoidDeltas::Both(a, _) => a,
        TrapezoidDeltas::A(a) => a,
        TrapezoidDeltas::B(_) => 0,
    }
}

fn delta_b(deltas: TrapezoidDeltas) -> i64
    ensures { result ≡ delta_b deltas }
{
    match deltas {
        TrapezoidDeltas::Both(_, b) => b,
        TrapezoidDeltas::A(_) => 0,
        TrapezoidDeltas::B(b) => b,
    }
}

fn shape_body(info: u8, kind: &ShapeKind<'_>) -> Body
    ensures { result ≡ shape_body info kind.now }
{
    match kind {
        ShapeKind::Rectangle { .. } => Body::Rectangle,
        ShapeKind::Polygon { .. } => Body::Polygon,
        ShapeKind::Path { .. } => Body::Path,
        ShapeKind::Trapezoid { deltas, .. } => Body::Trapezoid {
            is_upright: info >= 128,
            delta_a: delta_a(*deltas),
            delta_b: delta_b(*deltas),
        },
        ShapeKind::Ctrapezoid { .. } => Body::Ctrapezoid,
        ShapeKind::Circle { .. } => Body::Undrawn,
        ShapeKind::XGeometry { .. } => Body::Undrawn,
    }
}

impl Body {
    /// What of the record is looked at.
    pub(crate) fn of(current: &OasRecord<'_>) -> Body
        ensures { result ≡ body_of current.now }
    {
        match current {
            OasRecord::Start {
                version,
                unit,
                offset_flag,
                ..
            } => Body::Start {
                version: *version,
                unit: *unit,
                offset_flag: *offset_flag,
            },
            OasRecord::End { scheme, .. } => Body::End { scheme: *scheme },
            OasRecord::Name { kind, text, number } => name_body(*kind, *text, *number),
            OasRecord::Cell(name) => Body::Cell(*name),
            OasRecord::Placement {
                info,
                cell,
                turn,
                ..
            } => Body::Placement {
                called: *cell,
                flips: *info % 2 == 1,
                turning: turning_by(*info, *turn),
            },
            OasRecord::Text { .. } => Body::Text,
            OasRecord::Shape { head, kind } => shape_body(head.info, kind),
            OasRecord::Property { .. } => Body::Property,
            OasRecord::LastProperty => Body::Property,
            _ => Body::Other,
        }
    }
}

/// The body of a record, and how it is repeated.
#[derive(Clone, Copy)]
pub(crate) struct Outline {
    pub(crate) body: Body,
    /// A repetition is written.
    pub(crate) repeats: bool,
    /// The dimensions of the repetition that is written are allowed.
    pub(crate) has_dimensions: bool,
}
