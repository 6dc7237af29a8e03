//! Fields without a value.
ghost use Rattle.std.specs.Prelude.{◌≡◌, [], ◌∷◌};
ghost use Rattle.oas_reader.specs.Undefined.{dimensions};
ghost use Rattle.oas_reader.specs.Kept.{first_in, form_needs, has_a_pair, undefined_in};
ghost use Rattle.oas_fields.specs.declared.variables.Variable.TheVariants as variables;

use crate::bodies::Body;
use oas_fields::{Fields, Variable};
use oas_shapes::{uses_height, uses_width};

/// The first of a pair's variables that has no value.
#[inline(always)]
pub(crate) fn undefined_pair(fields: &Fields<'_>) -> Option<Variable>
    ensures { result ≡ first_in fields.now (variables.Layer ∷ variables.Datatype ∷ []) }
{
    if fields.layer.is_none() {
        return Some(Variable::Layer);
    }
    if fields.datatype.is_none() {
        return Some(Variable::Datatype);
    }
    None
}

/// That of a box.
#[inline(always)]
pub(crate) fn undefined_box(fields: &Fields<'_>) -> Option<Variable>
    ensures { result ≡ first_in fields.now (variables.GeometryW ∷ variables.GeometryH ∷ []) }
{
    if fields.width.is_none() {
        return Some(Variable::GeometryW);
    }
    if fields.height.is_none() {
        return Some(Variable::GeometryH);
    }
    None
}

// That of a path.
fn undefined_path(fields: &Fields<'_>) -> Option<Variable>
    ensures { result ≡ first_in fields.now (variables.PathHalfWidth ∷ variables.PathStart ∷ variables.PathEnd ∷ variables.PathPoints ∷ []) }
{
    if fields.half_width.is_none() {
        return Some(Variable::PathHalfWidth);
    }
    if fields.start.is_none() {
        return Some(Variable::PathStart);
    }
    if fields.end.is_none() {
        return Some(Variable::PathEnd);
    }
    if fields.path_points.is_none() {
        return Some(Variable::PathPoints);
    }
    None
}

// That of a compressed trapezoid: it needs the dimensions of its type.
fn undefined_ctrapezoid(fields: &Fields<'_>) -> Option<Variable>
    ensures { result ≡ first_in fields.now (variables.CtrapezoidType ∷ dimensions fields.now.kind) }
{
    let Some(kind) = fields.kind else {
        return Some(Variable::CtrapezoidType);
    };
    if uses_width(kind) && fields.width.is_none() {
        return Some(Variable::GeometryW);
    }
    if uses_height(kind) && fields.height.is_none() {
        return Some(Variable::GeometryH);
    }
    None
}

fn undefined_points(fields: &Fields<'_>) -> Option<Variable>
    ensures { result ≡ first_in fields.now (variables.PolygonPoints ∷ []) }
{
    if fields.polygon_points.is_none() {
        return Some(Variable::PolygonPoints);
    }
    None
}

fn undefined_cell(fields: &Fields<'_>) -> Option<Variable>
    ensures { result ≡ first_in fields.now (variables.PlacementCell ∷ []) }
{
    if fields.cell.is_none() {
        return Some(Variable::PlacementCell);
    }
    None
}

// The first variable without a value of those that the body needs after its pair.
#[inline(always)]
fn undefined_form(body: Body, fields: &Fields<'_>) -> Option<Variable>
    ensures { result ≡ first_in fields.now (form_needs body fields.now.kind) }
{
    match body {
        Body::Rectangle => undefined_box(fields),
        Body::Trapezoid { .. } => undefined_box(fields),
        Body::Ctrapezoid => undefined_ctrapezoid(fields),
        Body::Polygon => undefined_points(fields),
        Body::Path => undefined_path(fields),
        Body::Placement { .. } => undefined_cell(fields),
        _ => None,
    }
}

/// Whether a record with this body has a layer and a datatype that are looked at.
#[inline(always)]
pub(crate) fn has_pair(body: Body) -> bool
    ensures { result ≡ has_a_pair body }
{
    match body {
        Body::Rectangle => true,
        Body::Trapezoid { .. } => true,
        Body::Ctrapezoid => true,
        Body::Polygon => true,
        Body::Path => true,
        Body::Undrawn => true,
        _ => false,
    }
}

/// The first variable, in the order of the record's fields, that the record needs and that has no value. The fields
/// have taken the record.
#[inline(always)]
pub(crate) fn first_undefined(body: Body, repeats: bool, fields: &Fields<'_>) -> Option<Variable>
    ensures { result ≡ undefined_in body repeats fields.now }
{
    if has_pair(body) {
        if let Some(variable) = undefined_pair(fields) {
            return Some(variable);
        }
    }
    if let Some(variable) = undefined_form(body, fields) {
        return Some(variable);
    }
    if repeats && fields.repetition.is_none() {
        return Some(Variable::Repetition);
    }
    None
}
