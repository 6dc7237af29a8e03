//! Where the runs of lines begin and end, by a rule.
ghost use Rattle.std.specs.Prelude.{◌≡◌, ◌∷◌, if◌then◌else◌, Bool, Some, None, OnOk, option_map};
ghost use Rattle.scan_line.specs.Rules.{IsRule};
ghost use Rattle.active_lines.specs.declared.item.Windings.{Windings};
ghost use Rattle.plane_sweep.specs.StopRuns.{end_among, leaving_at, leaving_of, begins_at, opened_among, opened_new};
ghost use Rattle.plane_sweep.specs.RuleTests.{IsTest, growing_at};

use active_lines::{ActiveLine, Opened, Windings};
use geo_stream::NoMemory;
use half_grid::Line;
use scan_line::Rule;

/// The Y of a stop.
#[derive(Clone, Copy)]
pub(crate) struct Level {
    pub(crate) y: i64,
}

/// A trapezoid that is open after some lines and begins at one of them.
#[derive(Clone, Copy)]
pub(crate) struct Leaving {
    /// Its left line.
    pub(crate) left: Line,
    /// What is open there.
    pub(crate) opened: Opened,
}

/// Whether the rule takes the windings.
pub(crate) fn takes<F: Fn(i128, i128) -> bool>(rule: &Rule<F>, windings: Windings) -> bool
    requires { IsRule (F.pre rule.now) (F.post rule.now) }
    ensures { (test : Windings → Bool) → IsTest (F.post rule.now) test → result ≡ test windings }
{
    rule.asks(i128::from(windings.a), i128::from(windings.b))
}

/// The line at which the run ends that is open before the lines, if one of them ends it.
pub(crate) fn end_among<F: Fn(i128, i128) -> bool>(
    rule: &Rule<F>,
    lines: &[ActiveLine],
) -> Option<Line>
    requires { IsRule (F.pre rule.now) (F.post rule.now) }
    ensures { (test : Windings → Bool) → IsTest (F.post rule.now) test → result ≡ end_among test lines.now }
{
    let mut left = lines;
    while let Some((line, rest)) = left.split_first() {
        if !takes(rule, line.windings) {
            return Some(line.line);
        }
        left = rest;
    }
    None
}

// What is open after the line, where `found` is before it.
fn left_open(taken: bool, line: &ActiveLine, found: Option<Leaving>) -> Option<Leaving>
    ensures { option_map growing_at result ≡ (if taken then leaving_at line.now line.now.opened (option_map growing_at found) else None) }
{
    if !taken {
        return None;
    }
    match line.opened {
        Some(opened) => Some(Leaving {
            left: line.line,
            opened,
        }),
        None => found,
    }
}

/// The trapezoid that is open after the lines, if it begins at one of them.
pub(crate) fn leaving_of<F: Fn(i128, i128) -> bool>(
    rule: &Rule<F>,
    lines: &[ActiveLine],
) -> Option<Leaving>
    requires { IsRule (F.pre rule.now) (F.post rule.now) }
    ensures { (test : Windings → Bool) → IsTest (F.post rule.now) test → option_map growing_at result ≡ leaving_of test None lines.now }
{
    let mut found = None;
    let mut left = lines;
    while let Some((line, rest)) = left.split_first() {
        found = left_open(takes(rule, line.windings), line, found);
        left = rest;
    }
    found
}

// The line at which the run began that is open after the line, if it is this one or `found`.
fn begun_at(
    taken: bool,
    inside: bool,
    line: &ActiveLine,
    found: Option<ActiveLine>,
) -> Option<ActiveLine>
    ensures { result ≡ (if taken then (if inside then found else Some line.now) else None) }
{
    if !taken {
        return None;
    }
    if inside { found } else { Some(*line) }
}

/// The line at which the run begins that is open after the lines, if it is one of them. Before them the windings are taken,
/// where `inside`.
pub(crate) fn begins_at<F: Fn(i128, i128) -> bool>(
    rule: &Rule<F>,
    inside: bool,
    lines: &[ActiveLine],
) -> Option<ActiveLine>
    requires { IsRule (F.pre rule.now) (F.post rule.now) }
    ensures { (test : Windings → Bool) → IsTest (F.post rule.now) test → result ≡ begins_at test inside None lines.now }
{
    let mut inside = inside;
    let mut found = None;
    let mut left = lines;
    while let Some((line, rest)) = left.split_first() {
        let taken = takes(rule, line.windings);
        found = begun_at(taken, inside, line, found);
        inside = taken;
        left = rest;
    }
    found
}

// What is open at a line where a run begins, before the others.
fn opened_among<F: Fn(i128, i128) -> bool>(
    rule: &Rule<F>,
    level: Level,
    kept: Option<Opened>,
    line: Line,
    others: &[ActiveLine],
) -> Opened
    requires { IsRule (F.pre rule.now) (F.post rule.now) }
    ensures { (test : Windings → Bool) → IsTest (F.post rule.now) test → result ≡ opened_among test level.y kept line others.now }
{
    if let Some(right) = end_among(rule, others) {
        return Opened {
            right,
            since: level.y,
        };
    }
    match kept {
        Some(opened) => opened,
        None => Opened {
            right: line,
            since: level.y,
        },
    }
}

// The line with what is open there, before the others; before it the windings are taken, where `inside`.
fn with_opened<F: Fn(i128, i128) -> bool>(
    rule: &Rule<F>,
    inside: bool,
    level: Level,
    kept: Option<Opened>,
    line: &ActiveLine,
    others: &[ActiveLine],
) -> ActiveLine
    requires { IsRule (F.pre rule.now) (F.post rule.now) }
    ensures { (test : Windings → Bool) → IsTest (F.post rule.now) test → opened_new test inside level.y kept (line.now ∷ others.now) ≡ result ∷ opened_new test (test line.now.windings) level.y kept others.now }
{
    let opened = if takes(rule, line.windings) && !inside {
        Some(opened_among(rule, level, kept, line.line, others))
    } else {
        None
    };
    ActiveLine {
        line: line.line,
        windings: line.windings,
        opened,
    }
}

/// The new lines through a point, each with what is open there: where the last run doesn't end among them this is `kept`,
/// if there is one. Before the lines the windings are taken, where `inside`.
pub(crate) fn open_new<F: Fn(i128, i128) -> bool>(
    rule: &Rule<F>,
    inside: bool,
    level: Level,
    kept: Option<Opened>,
    lines: &[ActiveLine],
    opened: &mut Vec<ActiveLine>,
) -> Result<(), NoMemory>
    requires { IsRule (F.pre rule.now) (F.post rule.now) }
    ensures { (test : Windings → Bool) → IsTest (F.post rule.now) test → OnOk result (opened.new.items ≡ opened_new test inside level.y kept lines.now) }
{
    opened.clear();
    let mut inside = inside;
    let mut left = lines;
    while let Some((line, rest)) = left.split_first() {
        opened.push(with_opened(rule, inside, level, kept, line, rest))?;
        inside = takes(rule, line.windings);
        left = rest;
    }
    Ok(())
}
