//! The locks as they are seen along a script of `lockmon run`.
ghost use Rattle.std.specs.Prelude.{◌≡◌, ◌<◌, ◌≤◌, IfOk, IfErr, is_none, is_some, length};
ghost use Rattle.std.specs.Str.Lines.{lines};
ghost use Rattle.lock_bars.specs.Courses.{has_line};
ghost use Rattle.lock_bars.specs.declared.errors.TheConstants.{MOST_LINES};
ghost use Rattle.op_script.specs.RunScripts.{line_effect};
ghost use Rattle.lockview.specs.Faults.{IsLengthFault, IsLineFault, lines_done, script_lines_done};
ghost use Rattle.lockview.specs.Rounds.{passed};

use crate::run_lines::{Repeated, do_line, make_steps, make_tick, repeated_by};
use lock_bars::{Column, Course, Drawing, MOST_LINES, ScriptError, ScriptLines, drawing_of};
use lock_queue::LockTable;
use op_script::{Config, Machine, RunState};
use std::alloc::Global;
use uuo_calls::BlockRoom;

/// The most columns of a line: of a line of at most so many ticks each tick is one. Of a longer line those are in which the locks
/// have changed, and its end is one.
const MOST_TICKS: u32 = 200;

/// The most columns that ticks have. After them each line is one column.
const MOST_COLUMNS: usize = 20_000;

/// How many of the rounds that are left are made at once: of a short line each has its column.
fn most_at_once(is_short: bool, left: u32) -> u32
    requires { 1 ≤ left }
    ensures least { 1 ≤ result }
    ensures most { result ≤ left }
{
    if is_short { 1 } else { left }
}

/// Looks at what a tick or a line left, if that has a column.
fn look_if(
    alloc: Global,
    seen: &mut Course,
    has_column: bool,
    column: Column,
    machine: &Machine,
) -> Result<(), ScriptError>
    ensures lines { seen.new.lines ≡ seen.old.lines }
    ensures waits { seen.new.waits ≡ seen.old.waits }
    ensures fault { IfErr result (λ e. e ≡ ScriptError.Memory) }
{
    if has_column {
        seen.look(alloc, column, machine.locks())?;
    }
    Ok(())
}

/// Has a line happen, and looks at what each of its ticks left, or of many ticks those that changed something.
fn watch_ticks(
    alloc: Global,
    machine: &mut Machine,
    seen: &mut Course,
    number: usize,
    repeated: Repeated,
    count: u32,
) -> Result<(), ScriptError>
    requires { 0 < number }
    ensures lines { seen.new.lines ≡ seen.old.lines }
    ensures waits { seen.new.waits ≡ seen.old.waits }
    ensures state { IfOk result (λ _. machine.new ≡ passed repeated count machine.old) }
    ensures fault { IfErr result (λ e. e ≡ ScriptError.Memory) }
{
    let mut room = BlockRoom::new();
    let columns = seen.columns.len();
    let is_short = count <= MOST_TICKS && columns < MOST_COLUMNS;
    let limit = columns
        .saturating_add(MOST_TICKS as usize)
        .min(MOST_COLUMNS);
    let mut done = 0;
    'ticks: while done < count {
        let requests = machine.locks().len();
        let most = most_at_once(is_short, count - done);
        let rounds = make_steps(alloc, machine, &mut room, repeated, most)?;
        let facts = make_tick(alloc, machine, repeated)?;
        done += rounds.made;
        let has_facts = !rounds.facts.is_empty() || !facts.is_empty();
        let differs = has_facts || machine.locks().len() != requests;
        let has_column = is_short || (differs && seen.columns.len() < limit);
        let tick = done as usize;
        look_if(
            alloc,
            seen,
            has_column,
            Column { line: number, tick },
            machine,
        )?;
    }
    look_if(alloc, seen, !is_short, Column::of_line(number), machine)
}

/// Does a line, looks at what it left, and says whether the script goes on after it. The lines of sources have no column.
fn watch_line(
    alloc: Global,
    state: &mut RunState,
    seen: &mut Course,
    number: usize,
    line: &[u8],
) -> Result<bool, ScriptError>
    requires { 0 < number }
    ensures lines { seen.new.lines ≡ seen.old.lines }
    ensures waits { seen.new.waits ≡ seen.old.waits }
    ensures state { IfOk result (λ _. state.new ≡ (line_effect number state.old line.now).state) }
    ensures goes { IfOk result (λ goes. goes ≡ is_none (line_effect number state.old line.now).ending) }
    ensures fault { IfErr result (λ e. IsLineFault number e) }
{
    if let Some(repetition) = repeated_by(state, line) {
        let (repeated, count) = repetition;
        if count > 1 {
            watch_ticks(alloc, &mut state.machine, seen, number, repeated, count)?;
            return Ok(true);
        }
    }
    let was_in_source = state.source.is_some();
    let mut answers = Vec::new(alloc);
    let end = do_line(alloc, state, number, line, &mut answers)?;
    let goes = end.ending.is_none();
    if goes && !was_in_source && state.source.is_none() {
        seen.look(alloc, Column::of_line(number), state.machine.locks())?;
    }
    Ok(goes)
}

/// Does a script to its end, and looks at what each line left.
fn watch_run(
    alloc: Global,
    state: &mut RunState,
    script: &[u8],
    at: Option<usize>,
) -> Result<Course, ScriptError>
    ensures few { IfOk result (λ seen. seen.lines ≤ MOST_LINES) }
    ensures served { IfOk result (λ seen. seen.lines ≡ lines_done state.old 0 (lines script.now)) }
    ensures passed { IfOk result (λ seen. is_some seen.waits ≡ has_line seen.lines at) }
    ensures fault { IfErr result (λ e. IsLengthFault at (lines_done state.old 0 (lines script.now)) (length (lines script.now)) e) }
{
    let mut seen = Course::new(alloc);
    let mut lines = ScriptLines::of(script);
    let mut count = 0;
    while let Some(line) = lines.next() {
        if count >= MOST_LINES {
            return Err(ScriptError::TooLong);
        }
        count += 1;
        if !watch_line(alloc, state, &mut seen, count, line)? {
            return Ok(seen);
        }
        seen.end_line(alloc, count, at, state.machine.locks())?;
    }
    if state.source.is_some() {
        return Err(ScriptError::NoEnd(count));
    }
    Ok(seen)
}

/// Draws a script of `lockmon run`, on a machine of this size, with the waits after its last line or after the line `at`. The
/// script is refused at its first line that is at fault, and where it has more than 10,000 lines.
pub fn draw_run_script(
    alloc: Global,
    config: Config,
    script: &[u8],
    at: Option<usize>,
) -> Result<Drawing, ScriptError>
    ensures few { IfOk result (λ drawing. drawing.at ≤ MOST_LINES) }
    ensures length { IfErr result (λ e. IsLengthFault at (script_lines_done config script.now) (length (lines script.now)) e) }
{
    let mut state = RunState::fresh(alloc, config)?;
    let seen = watch_run(alloc, &mut state, script, at)?;
    drawing_of(alloc, seen, at, state.machine.locks())
}
