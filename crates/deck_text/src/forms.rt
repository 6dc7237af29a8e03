//! The forms of lines.
ghost use Rattle.std.specs.Prelude.{◌≡◌, ◌≤◌, length};
ghost use Rattle.deck_text.specs.Tokens.{pieces_at};
ghost use Rattle.deck_text.specs.Forms.{past, statement_of, reading, is_comment};
ghost use Rattle.deck_text.specs.Views.{Reads, statement_view, IsReading};
ghost use Rattle.deck_text.specs.declared.command.Command.TheVariants as commands;

use crate::command::{Command, command_of};
use crate::kinds::{cell, end, file, name, number, sides};
use crate::statement::{Operation, Operator, Setting, Sizing, Statement, Writing};
use crate::tokens::next_piece;
use half_grid::{Frame, Limits};

#[tactic(auto, unfolding(crate::specs::Forms::statement_of))]
fn unit_line(line: &[u8], at: usize) -> Result<Statement<'_>, usize>
    requires { at ≤ length line.now }
    ensures { Reads statement_view result (statement_of commands.Unit (past line.now) (pieces_at line.now at)) }
{
    let (steps, at) = number(line, at)?;
    end(line, at)?;
    Ok(Statement::Set(Setting::Unit(steps)))
}

#[tactic(auto, unfolding(crate::specs::Forms::statement_of))]
fn top_line(line: &[u8], at: usize) -> Result<Statement<'_>, usize>
    requires { at ≤ length line.now }
    ensures { Reads statement_view result (statement_of commands.Top (past line.now) (pieces_at line.now at)) }
{
    let (cell, at) = cell(line, at)?;
    end(line, at)?;
    Ok(Statement::Set(Setting::Top(cell)))
}

#[tactic(auto, unfolding(crate::specs::Forms::statement_of))]
fn band_line(line: &[u8], at: usize) -> Result<Statement<'_>, usize>
    requires { at ≤ length line.now }
    ensures { Reads statement_view result (statement_of commands.Band (past line.now) (pieces_at line.now at)) }
{
    let (rows, at) = number(line, at)?;
    end(line, at)?;
    Ok(Statement::Set(Setting::Band(rows)))
}

#[tactic(auto, unfolding(crate::specs::Forms::statement_of))]
fn limits_line(line: &[u8], at: usize) -> Result<Statement<'_>, usize>
    requires { at ≤ length line.now }
    ensures { Reads statement_view result (statement_of commands.Limits (past line.now) (pieces_at line.now at)) }
{
    let (height, at) = number(line, at)?;
    let (width, at) = number(line, at)?;
    end(line, at)?;
    Ok(Statement::Set(Setting::Limits(Limits { height, width })))
}

#[tactic(auto, unfolding(crate::specs::Forms::statement_of))]
fn frame_line(line: &[u8], at: usize) -> Result<Statement<'_>, usize>
    requires { at ≤ length line.now }
    ensures { Reads statement_view result (statement_of commands.Frame (past line.now) (pieces_at line.now at)) }
{
    let (x0, at) = number(line, at)?;
    let (y0, at) = number(line, at)?;
    let (x1, at) = number(line, at)?;
    let (y1, at) = number(line, at)?;
    end(line, at)?;
    Ok(Statement::Set(Setting::Frame(Frame { x0, y0, x1, y1 })))
}

#[tactic(auto, unfolding(crate::specs::Forms::statement_of))]
fn layer_line(line: &[u8], at: usize) -> Result<Statement<'_>, usize>
    requires { at ≤ length line.now }
    ensures { Reads statement_view result (statement_of commands.Layer (past line.now) (pieces_at line.now at)) }
{
    let (name, at) = name(line, at)?;
    let (layer, at) = number(line, at)?;
    let (datatype, at) = number(line, at)?;
    end(line, at)?;
    Ok(Statement::Define(name, Operation::Layer(layer, datatype)))
}

#[tactic(auto, unfolding(crate::specs::Forms::statement_of))]
fn or_line(line: &[u8], at: usize) -> Result<Statement<'_>, usize>
    requires { at ≤ length line.now }
    ensures { Reads statement_view result (statement_of commands.Or (past line.now) (pieces_at line.now at)) }
{
    let (defined, at) = name(line, at)?;
    let (a, at) = name(line, at)?;
    let (b, at) = name(line, at)?;
    end(line, at)?;
    Ok(Statement::Define(defined, Operation::Combine(Operator::Or, a, b)))
}

#[tactic(auto, unfolding(crate::specs::Forms::statement_of))]
fn and_line(line: &[u8], at: usize) -> Result<Statement<'_>, usize>
    requires { at ≤ length line.now }
    ensures { Reads statement_view result (statement_of commands.And (past line.now) (pieces_at line.now at)) }
{
    let (defined, at) = name(line, at)?;
    let (a, at) = name(line, at)?;
    let (b, at) = name(line, at)?;
    end(line, at)?;
    Ok(Statement::Define(defined, Operation::Combine(Operator::And, a, b)))
}

#[tactic(auto, unfolding(crate::specs::Forms::statement_of))]
fn sub_line(line: &[u8], at: usize) -> Result<Statement<'_>, usize>
    requires { at ≤ length line.now }
    ensures { Reads statement_view result (statement_of commands.Sub (past line.now) (pieces_at line.now at)) }
{
    let (defined, at) = name(line, at)?;
    let (a, at) = name(line, at)?;
    let (b, at) = name(line, at)?;
    end(line, at)?;
    Ok(Statement::Define(defined, Operation::Combine(Operator::Sub, a, b)))
}

#[tactic(auto, unfolding(crate::specs::Forms::statement_of))]
fn xor_line(line: &[u8], at: usize) -> Result<Statement<'_>, usize>
    requires { at ≤ length line.now }
    ensures { Reads statement_view result (statement_of commands.Xor (past line.now) (pieces_at line.now at)) }
{
    let (defined, at) = name(line, at)?;
    let (a, at) = name(line, at)?;
    let (b, at) = name(line, at)?;
    end(line, at)?;
    Ok(Statement::Define(defined, Operation::Combine(Operator::Xor, a, b)))
}

#[tactic(auto, unfolding(crate::specs::Forms::statement_of))]
fn grow_line(line: &[u8], at: usize) -> Result<Statement<'_>, usize>
    requires { at ≤ length line.now }
    ensures { Reads statement_view result (statement_of commands.Grow (past line.now) (pieces_at line.now at)) }
{
    let (defined, at) = name(line, at)?;
    let (a, at) = name(line, at)?;
    let ((dx, dy), at) = sides(line, at)?;
    end(line, at)?;
    Ok(Statement::Define(defined, Operation::Resize(Sizing::Grow, a, dx, dy)))
}

#[tactic(auto, unfolding(crate::specs::Forms::statement_of))]
fn shrink_line(line: &[u8], at: usize) -> Result<Statement<'_>, usize>
    requires { at ≤ length line.now }
    ensures { Reads statement_view result (statement_of commands.Shrink (past line.now) (pieces_at line.now at)) }
{
    let (defined, at) = name(line, at)?;
    let (a, at) = name(line, at)?;
    let ((dx, dy), at) = sides(line, at)?;
    end(line, at)?;
    Ok(Statement::Define(defined, Operation::Resize(Sizing::Shrink, a, dx, dy)))
}

#[tactic(auto, unfolding(crate::specs::Forms::statement_of))]
fn invert_line(line: &[u8], at: usize) -> Result<Statement<'_>, usize>
    requires { at ≤ length line.now }
    ensures { Reads statement_view result (statement_of commands.Invert (past line.now) (pieces_at line.now at)) }
{
    let (defined, at) = name(line, at)?;
    let (a, at) = name(line, at)?;
    end(line, at)?;
    Ok(Statement::Define(defined, Operation::Invert(a)))
}

#[tactic(auto, unfolding(crate::specs::Forms::statement_of))]
fn mirror_line(line: &[u8], at: usize) -> Result<Statement<'_>, usize>
    requires { at ≤ length line.now }
    ensures { Reads statement_view result (statement_of commands.Mirror (past line.now) (pieces_at line.now at)) }
{
    let (defined, at) = name(line, at)?;
    let (a, at) = name(line, at)?;
    let (x, at) = number(line, at)?;
    end(line, at)?;
    Ok(Statement::Define(defined, Operation::Mirror(a, x)))
}

#[tactic(auto, unfolding(crate::specs::Forms::statement_of))]
fn write_line(line: &[u8], at: usize) -> Result<Statement<'_>, usize>
    requires { at ≤ length line.now }
    ensures { Reads statement_view result (statement_of commands.Write (past line.now) (pieces_at line.now at)) }
{
    let (name, at) = name(line, at)?;
    let (file, at) = file(line, at)?;
    let (layer, at) = number(line, at)?;
    let (datatype, at) = number(line, at)?;
    end(line, at)?;
    Ok(Statement::Write(Writing {
        name,
        file,
        layer,
        datatype,
    }))
}

// What the line of a command says after its word.
fn statement(command: Command, line: &[u8], at: usize) -> Result<Statement<'_>, usize>
    requires { at ≤ length line.now }
    ensures { Reads statement_view result (statement_of command (past line.now) (pieces_at line.now at)) }
{
    match command {
        Command::Unit => unit_line(line, at),
        Command::Top => top_line(line, at),
        Command::Band => band_line(line, at),
        Command::Limits => limits_line(line, at),
        Command::Frame => frame_line(line, at),
        Command::Layer => layer_line(line, at),
        Command::Or => or_line(line, at),
        Command::And => and_line(line, at),
        Command::Sub => sub_line(line, at),
        Command::Xor => xor_line(line, at),
        Command::Grow => grow_line(line, at),
        Command::Shrink => shrink_line(line, at),
        Command::Invert => invert_line(line, at),
        Command::Mirror => mirror_line(line, at),
        Command::Write => write_line(line, at),
    }
}

// Whether the first byte is `#`.
fn is_comment(token: &[u8]) -> bool
    ensures { result ≡ is_comment token.now }
{
    match token {
        [] => false,
        [first, ..] => *first == b'#',
    }
}

/// What a line says: nothing where it is passed over, and the column of what doesn't fit where it has no form.
#[tactic(auto, unfolding(crate::specs::Forms::reading))]
pub(crate) fn reading(line: &[u8]) -> Result<Option<Statement<'_>>, usize>
    ensures { IsReading result (reading line.now) }
{
    let Some(word) = next_piece(line, 0) else {
        return Ok(None);
    };
    let token = &line[word.start..word.end];
    if is_comment(token) {
        return Ok(None);
    }
    match command_of(token) {
        None => Err(word.start + 1),
        Some(command) => {
            let statement = statement(command, line, word.end)?;
            Ok(Some(statement))
        }
    }
}
