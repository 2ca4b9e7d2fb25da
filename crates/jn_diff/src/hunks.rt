//! How many lines are shown together.
ghost use Rattle.std.specs.Prelude.{◌≡◌, ◌≤◌, ◌-◌, length, take};
ghost use Rattle.std.specs.List.{list_any};
ghost use Rattle.jn_diff.specs.Hunks as spec;

use crate::line::{Line, is_changed};

/// Whether a line differs.
fn has_change(lines: &[Line]) -> bool
    ensures { result ≡ list_any spec.is_changed lines.now }
{
    lines.iter().any(|line| is_changed(line))
}

/// The first four lines, or fewer where there are no more.
fn first_four(lines: &[Line]) -> &[Line]
    ensures { result.now ≡ take 4 lines.now }
{
    if lines.len() < 4 { lines } else { &lines[..4] }
}

fn is_shown(due: usize, lines: &[Line]) -> bool
    ensures { result ≡ spec.is_shown due lines.now }
{
    0 < due || has_change(first_four(lines))
}

fn due_behind(due: usize, line: &Line) -> usize
    ensures { result ≡ spec.due_behind due line.now }
{
    if is_changed(line) {
        3
    } else {
        due.saturating_sub(1)
    }
}

/// How many lines are shown from the first one on.
pub(crate) fn shown_count(lines: &[Line]) -> usize
    ensures is { result ≡ spec.shown_count 0 lines.now }
    ensures within { result ≤ length lines.now }
{
    let mut count = 0;
    let mut due = 0;
    while count < lines.len() && is_shown(due, &lines[count..]) {
        due = due_behind(due, &lines[count]);
        count += 1;
    }
    count
}
