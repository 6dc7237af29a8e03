//! The rules of a deck: what is wrong with a statement after those before it.
ghost use Rattle.std.specs.Prelude.{◌≡◌, None, List as Items, [], ◌∷◌, false, not, find, pos, ◌+ℤ◌};
ghost use Rattle.half_grid.specs.Halves.{is_even};
ghost use Rattle.deck_text.specs.Statements.{LimitsAre, FrameIs, Sets, Said as ASaid};
ghost use Rattle.deck_text.specs.Rules.{is_setting, is_output, is_unit, is_top, is_band, is_limits, is_frame};
ghost use Rattle.deck_text.specs.Rules.{any_before, is_misplaced, sets_again, repeated_line, is_defined};
ghost use Rattle.deck_text.specs.Rules.{unknown_operand, inverts, lacks_frame, out_of_range, has_odd_sum, takes_name};
ghost use Rattle.deck_text.specs.Rules.{is_too_many, bounds_of_setting, bounds_of_operation, first_outside, bound};
ghost use Rattle.deck_text.specs.Rules.{is_outside, narrow, operands_of_operation};
ghost use Rattle.deck_text.specs.Indexes.{IsIndexOf, HasRoom};
ghost use Rattle.deck_text.specs.Views.{statement_view, setting_view, operation_view, Gives};
ghost use Rattle.deck_text.specs.SaidViews.{said_views};

use crate::index::Index;
use crate::said::Said;
use crate::statement::{Operation, Setting, Statement};
use half_grid::{Frame, Limits};

/// At most this many definitions.
const DEFINITIONS: usize = 256;

/// At most this many outputs.
const OUTPUTS: usize = 64;

/// Frames and mirrors are so near to 0.
const REACH: i64 = 1 << 30;

/// The greatest layer or datatype.
const NARROW: i64 = 4_294_967_295;

// Whether it is a setting.
fn is_setting(statement: &Statement) -> bool
    ensures { result ≡ is_setting (statement_view statement.now) }
{
    match statement {
        Statement::Set(_) => true,
        Statement::Define(_, _) => false,
        Statement::Write(_) => false,
    }
}

// Whether it is an output.
fn is_output(statement: &Statement) -> bool
    ensures { result ≡ is_output (statement_view statement.now) }
{
    match statement {
        Statement::Set(_) => false,
        Statement::Define(_, _) => false,
        Statement::Write(_) => true,
    }
}

// Whether it is `unit`.
fn is_unit(statement: &Statement) -> bool
    ensures { result ≡ is_unit (statement_view statement.now) }
{
    match statement {
        Statement::Set(Setting::Unit(_)) => true,
        Statement::Set(Setting::Top(_)) => false,
        Statement::Set(Setting::Band(_)) => false,
        Statement::Set(Setting::Limits(_)) => false,
        Statement::Set(Setting::Frame(_)) => false,
        Statement::Define(_, _) => false,
        Statement::Write(_) => false,
    }
}

// Whether it is `top`.
fn is_top(statement: &Statement) -> bool
    ensures { result ≡ is_top (statement_view statement.now) }
{
    match statement {
        Statement::Set(Setting::Unit(_)) => false,
        Statement::Set(Setting::Top(_)) => true,
        Statement::Set(Setting::Band(_)) => false,
        Statement::Set(Setting::Limits(_)) => false,
        Statement::Set(Setting::Frame(_)) => false,
        Statement::Define(_, _) => false,
        Statement::Write(_) => false,
    }
}

// Whether it is `band`.
fn is_band(statement: &Statement) -> bool
    ensures { result ≡ is_band (statement_view statement.now) }
{
    match statement {
        Statement::Set(Setting::Unit(_)) => false,
        Statement::Set(Setting::Top(_)) => false,
        Statement::Set(Setting::Band(_)) => true,
        Statement::Set(Setting::Limits(_)) => false,
        Statement::Set(Setting::Frame(_)) => false,
        Statement::Define(_, _) => false,
        Statement::Write(_) => false,
    }
}

// Whether it is `limits`.
fn is_limits(statement: &Statement) -> bool
    ensures { result ≡ is_limits (statement_view statement.now) }
{
    match statement {
        Statement::Set(Setting::Unit(_)) => false,
        Statement::Set(Setting::Top(_)) => false,
        Statement::Set(Setting::Band(_)) => false,
        Statement::Set(Setting::Limits(_)) => true,
        Statement::Set(Setting::Frame(_)) => false,
        Statement::Define(_, _) => false,
        Statement::Write(_) => false,
    }
}

// Whether it is `frame`.
fn is_frame(statement: &Statement) -> bool
    ensures { result ≡ is_frame (statement_view statement.now) }
{
    match statement {
        Statement::Set(Setting::Unit(_)) => false,
        Statement::Set(Setting::Top(_)) => false,
        Statement::Set(Setting::Band(_)) => false,
        Statement::Set(Setting::Limits(_)) => false,
        Statement::Set(Setting::Frame(_)) => true,
        Statement::Define(_, _) => false,
        Statement::Write(_) => false,
    }
}

// Whether the statement is the same setting.
fn sets_again(setting: &Setting, other: &Statement) -> bool
    ensures { result ≡ sets_again (setting_view setting.now) (statement_view other.now) }
{
    match setting {
        Setting::Unit(_) => is_unit(other),
        Setting::Top(_) => is_top(other),
        Setting::Band(_) => is_band(other),
        Setting::Limits(_) => is_limits(other),
        Setting::Frame(_) => is_frame(other),
    }
}

// Whether `unit` was given.
fn has_unit(before: &[Said]) -> bool
    ensures { result ≡ any_before is_unit (said_views before.now) }
{
    for said in before {
        if is_unit(&said.says) {
            return true;
        }
    }
    false
}

// Whether `top` was given.
fn has_top(before: &[Said]) -> bool
    ensures { result ≡ any_before is_top (said_views before.now) }
{
    for said in before {
        if is_top(&said.says) {
            return true;
        }
    }
    false
}

// Whether `frame` was given.
fn has_frame(before: &[Said]) -> bool
    ensures { result ≡ any_before is_frame (said_views before.now) }
{
    for said in before {
        if is_frame(&said.says) {
            return true;
        }
    }
    false
}

// Whether a definition or an output was given.
fn has_begun(before: &[Said]) -> bool
    ensures { result ≡ any_before (λ t. not (is_setting t)) (said_views before.now) }
{
    for said in before {
        if !is_setting(&said.says) {
            return true;
        }
    }
    false
}

/// Whether an output was given.
pub(crate) fn has_output(before: &[Said]) -> bool
    ensures { result ≡ any_before is_output (said_views before.now) }
{
    for said in before {
        if is_output(&said.says) {
            return true;
        }
    }
    false
}

/// Whether the statement is a setting after a definition or an output, or one of these before both `unit` and `top`.
pub(crate) fn is_misplaced(before: &[Said], statement: &Statement) -> bool
    ensures { result ≡ is_misplaced (said_views before.now) (statement_view statement.now) }
{
    if is_setting(statement) {
        return has_begun(before);
    }
    if !has_unit(before) {
        return true;
    }
    !has_top(before)
}

// The line of the first statement that gives the setting.
fn repeated_setting(before: &[Said], setting: &Setting) -> Option<usize>
    ensures { result ≡ repeated_line (said_views before.now) (Sets (setting_view setting.now)) }
{
    for said in before {
        if sets_again(setting, &said.says) {
            return Some(said.line);
        }
    }
    None
}

/// The line of the first statement that this one repeats.
pub(crate) fn repeated_line(before: &[Said], index: &Index, statement: &Statement) -> Option<usize>
    requires { IsIndexOf (said_views before.now) index.now }
    ensures { result ≡ repeated_line (said_views before.now) (statement_view statement.now) }
{
    match statement {
        Statement::Set(setting) => repeated_setting(before, setting),
        Statement::Define(name, _) => index.line_of(name),
        Statement::Write(_) => None,
    }
}

// The name, where it isn't defined.
fn unknown_name<'a>(index: &Index, name: &'a str) -> Option<&'a str>
    ensures { (saids : Items ASaid) → IsIndexOf saids index.now → Gives (λ x. x.now) result (find (λ x. not (is_defined saids x)) (name.now ∷ [])) }
{
    if index.has(name) {
        return None;
    }
    Some(name)
}

// The first operand that isn't defined.
fn unknown_in<'a>(index: &Index, operation: &Operation<'a>) -> Option<&'a str>
    ensures { (saids : Items ASaid) → IsIndexOf saids index.now → Gives (λ x. x.now) result
        (find (λ x. not (is_defined saids x)) (operands_of_operation (operation_view operation.now))) }
{
    match operation {
        Operation::Layer(_, _) => None,
        Operation::Combine(_, a, b) => {
            if !index.has(a) {
                return Some(a);
            }
            unknown_name(index, b)
        }
        Operation::Resize(_, a, _, _) => unknown_name(index, a),
        Operation::Invert(a) => unknown_name(index, a),
        Operation::Mirror(a, _) => unknown_name(index, a),
    }
}

/// The first operand that isn't defined.
pub(crate) fn unknown_operand<'a>(index: &Index, statement: &Statement<'a>) -> Option<&'a str>
    ensures { (saids : Items ASaid) → IsIndexOf saids index.now → Gives (λ x. x.now) result (unknown_operand saids (statement_view statement.now)) }
{
    match statement {
        Statement::Set(_) => None,
        Statement::Define(_, operation) => unknown_in(index, operation),
        Statement::Write(writing) => unknown_name(index, writing.name),
    }
}

// Whether it is `invert`.
fn inverts(statement: &Statement) -> bool
    ensures { result ≡ inverts (statement_view statement.now) }
{
    match statement {
        Statement::Set(_) => false,
        Statement::Define(_, Operation::Layer(_, _)) => false,
        Statement::Define(_, Operation::Combine(_, _, _)) => false,
        Statement::Define(_, Operation::Resize(_, _, _, _)) => false,
        Statement::Define(_, Operation::Invert(_)) => true,
        Statement::Define(_, Operation::Mirror(_, _)) => false,
        Statement::Write(_) => false,
    }
}

/// Whether it is `invert` and no frame was given.
pub(crate) fn lacks_frame(before: &[Said], statement: &Statement) -> bool
    ensures { result ≡ lacks_frame (said_views before.now) (statement_view statement.now) }
{
    if !inverts(statement) {
        return false;
    }
    !has_frame(before)
}

// Whether the value is below `low` or above `high`.
fn is_outside(value: i64, low: i64, high: i64) -> bool
    ensures { result ≡ is_outside (bound value low high) }
{
    if value < low {
        return true;
    }
    high < value
}

// The value, where it is outside.
fn outside(value: i64, low: i64, high: i64) -> Option<i64>
    ensures { result ≡ first_outside (bound value low high ∷ []) }
{
    if is_outside(value, low, high) {
        return Some(value);
    }
    None
}

// The first of layer and datatype that hasn't 32 bits.
fn wide_of(layer: i64, datatype: i64) -> Option<i64>
    ensures { result ≡ first_outside (narrow layer ∷ narrow datatype ∷ []) }
{
    if is_outside(layer, 0, NARROW) {
        return Some(layer);
    }
    outside(datatype, 0, NARROW)
}

// The first number of the limits that is out of its range.
fn limits_out_of_range(limits: &Limits) -> Option<i64>
    ensures { result ≡ first_outside (bounds_of_setting (LimitsAre limits.now.height limits.now.width)) }
{
    if is_outside(limits.height, 1, 16_777_216) {
        return Some(limits.height);
    }
    outside(limits.width, 2 * limits.height, 33_554_432)
}

// The first number of the frame that is out of its range.
fn frame_out_of_range(frame: &Frame) -> Option<i64>
    ensures { result ≡ first_outside (bounds_of_setting (FrameIs frame.now.x0 frame.now.y0 frame.now.x1 frame.now.y1)) }
{
    if is_outside(frame.x0, -REACH, REACH) {
        return Some(frame.x0);
    }
    if is_outside(frame.y0, -REACH, REACH) {
        return Some(frame.y0);
    }
    if is_outside(frame.x1, frame.x0 + 1, REACH) {
        return Some(frame.x1);
    }
    outside(frame.y1, frame.y0 + 1, REACH)
}

// The first number of the setting that is out of its range.
fn setting_out_of_range(setting: &Setting) -> Option<i64>
    ensures { result ≡ first_outside (bounds_of_setting (setting_view setting.now)) }
{
    match setting {
        Setting::Unit(steps) => outside(*steps, 1, 1_000_000),
        Setting::Top(_) => None,
        Setting::Band(rows) => outside(*rows, 1024, 16_777_216),
        Setting::Limits(limits) => limits_out_of_range(limits),
        Setting::Frame(frame) => frame_out_of_range(frame),
    }
}

// The first of two half sides that is out of its range.
fn side_out_of_range(dx: i64, dy: i64) -> Option<i64>
    ensures { result ≡ first_outside (bound dx (pos 0) (pos 65536) ∷ bound dy (pos 0) (pos 65536) ∷ []) }
{
    if is_outside(dx, 0, 65536) {
        return Some(dx);
    }
    outside(dy, 0, 65536)
}

// The first number of the operation that is out of its range.
fn operation_out_of_range(operation: &Operation) -> Option<i64>
    ensures { result ≡ first_outside (bounds_of_operation (operation_view operation.now)) }
{
    match operation {
        Operation::Layer(layer, datatype) => wide_of(*layer, *datatype),
        Operation::Combine(_, _, _) => None,
        Operation::Resize(_, _, dx, dy) => side_out_of_range(*dx, *dy),
        Operation::Invert(_) => None,
        Operation::Mirror(_, m) => outside(*m, -REACH, REACH),
    }
}

/// The first number that is out of its range.
#[tactic(auto, unfolding(crate::specs::Rules::out_of_range))]
pub(crate) fn out_of_range(statement: &Statement) -> Option<i64>
    ensures { result ≡ out_of_range (statement_view statement.now) }
{
    match statement {
        Statement::Set(setting) => setting_out_of_range(setting),
        Statement::Define(_, operation) => operation_out_of_range(operation),
        Statement::Write(writing) => wide_of(writing.layer, writing.datatype),
    }
}

// Whether the sum is odd.
fn is_odd_sum(dx: i64, dy: i64) -> bool
    requires { first_outside (bound dx (pos 0) (pos 65536) ∷ bound dy (pos 0) (pos 65536) ∷ []) ≡ None }
    ensures { result ≡ not (is_even (dx +ℤ dy)) }
{
    (dx + dy) % 2 != 0
}

/// Whether the sum of its two half sides is odd.
#[tactic(auto, unfolding(crate::specs::Rules::out_of_range))]
pub(crate) fn has_odd_sum(statement: &Statement) -> bool
    requires { out_of_range (statement_view statement.now) ≡ None }
    ensures { result ≡ has_odd_sum (statement_view statement.now) }
{
    match statement {
        Statement::Set(_) => false,
        Statement::Define(_, Operation::Layer(_, _)) => false,
        Statement::Define(_, Operation::Combine(_, _, _)) => false,
        Statement::Define(_, Operation::Resize(_, _, dx, dy)) => is_odd_sum(*dx, *dy),
        Statement::Define(_, Operation::Invert(_)) => false,
        Statement::Define(_, Operation::Mirror(_, _)) => false,
        Statement::Write(_) => false,
    }
}

/// Whether the output goes to the layout, the deck, or the file of an earlier output.
pub(crate) fn takes_name(layout: &str, deck: &str, index: &Index, statement: &Statement) -> bool
    ensures { (saids : Items ASaid) → IsIndexOf saids index.now → result ≡ takes_name layout.now deck.now saids (statement_view statement.now) }
{
    match statement {
        Statement::Set(_) => false,
        Statement::Define(_, _) => false,
        Statement::Write(writing) => {
            if writing.file == layout {
                return true;
            }
            if writing.file == deck {
                return true;
            }
            index.is_taken(writing.file)
        }
    }
}

/// Whether it is the 257th definition or the 65th output.
pub(crate) fn is_too_many(index: &Index, statement: &Statement) -> bool
    ensures broken { (saids : Items ASaid) → IsIndexOf saids index.now → result ≡ is_too_many saids (statement_view statement.now) }
    ensures few { result ≡ false → HasRoom index.now (statement_view statement.now) }
{
    match statement {
        Statement::Set(_) => false,
        Statement::Define(_, _) => DEFINITIONS <= index.definitions(),
        Statement::Write(_) => OUTPUTS <= index.outputs(),
    }
}
