//! What is seen along a script of `lockmon queue`.
ghost use Rattle.std.specs.Prelude.{◌≡◌, ◌≤◌, [], Some, IfOk, IfErr, IfSome, length, map, is_some};
ghost use Rattle.std.specs.List.{All};
ghost use Rattle.std.specs.Str.Lines.{lines};
ghost use Rattle.script_io.specs.declared.endings.Ending.TheVariants as ending;
ghost use Rattle.lock_bars.specs.Arrows.{HasLock, wait_of, waits_in};
ghost use Rattle.lock_bars.specs.Courses.{course_of, has_line, line_columns, requests_after, IsFaultOf};
ghost use Rattle.wait_graph.specs.Graphs.{Shows};
ghost use Rattle.lock_bars.specs.declared.errors.TheConstants.{MOST_LINES};

use crate::columns::Column;
use crate::commands::do_command;
use crate::course::Course;
use crate::errors::{MOST_LINES, ScriptError};
use crate::script_lines::ScriptLines;
use lock_queue::LockTable;
use queue_script::{CallRoom, read_command};
use script_io::Ending;
use std::alloc::Global;

/// Does each line of a script on the table, and gathers the columns, the bars, and who waits for whom
/// after the line `at`, where that is asked for.
pub fn watch_queue<L: LockTable>(
    alloc: Global,
    table: &mut L,
    script: &[u8],
    at: Option<usize>,
) -> Result<Course, ScriptError>
    requires { L.requests table.old ≡ [] }
    ensures bars { IfOk result (λ seen. seen.bars.items ≡ (course_of L.REQS [] 0 (lines script.now) []).bars) }
    ensures lines { IfOk result (λ seen. seen.lines ≡ (course_of L.REQS [] 0 (lines script.now) []).lines) }
    ensures columns { IfOk result (λ seen. length seen.columns.items ≡ seen.lines) }
    ensures named { IfOk result (λ seen. seen.columns.items ≡ line_columns seen.lines) }
    ensures done { IfOk result (λ seen. (course_of L.REQS [] 0 (lines script.now) []).ending ≡ ending.Done) }
    ensures few { IfOk result (λ seen. seen.lines ≤ MOST_LINES) }
    ensures waits { IfOk result (λ seen. IfSome seen.waits (λ w. (at ≡ Some w.1)
        × Shows (requests_after L.REQS w.1 [] 0 (lines script.now)) w.0)) }
    ensures arrows { IfOk result (λ seen. IfSome seen.waits (λ w. map wait_of seen.arrows.items ≡ waits_in w.0)) }
    ensures locks { IfOk result (λ seen. IfSome seen.waits (λ w.
        All (HasLock (requests_after L.REQS w.1 [] 0 (lines script.now))) seen.arrows.items)) }
    ensures passed { IfOk result (λ seen. is_some seen.waits ≡ has_line seen.lines at) }
    ensures end { IfOk result (λ seen. L.requests table.new ≡ requests_after L.REQS seen.lines [] 0 (lines script.now)) }
    ensures fault { IfErr result (λ e.
        IsFaultOf at (length (lines script.now)) (course_of L.REQS [] 0 (lines script.now) []) e) }
{
    let mut room = CallRoom::new();
    let mut seen = Course::new(alloc);
    let mut lines = ScriptLines::of(script);
    while let Some(line) = lines.next() {
        if seen.lines >= MOST_LINES {
            return Err(ScriptError::TooLong);
        }
        let number = seen.lines + 1;
        let command = read_command(&mut room, line);
        match do_command(table, number, command) {
            Some(Ending::Done) => return Ok(seen),
            Some(Ending::Script(_) | Ending::Source(_)) => {
                return Err(ScriptError::Line(number));
            }
            None => {}
        }
        seen.look(alloc, Column::of_line(number), table)?;
        seen.end_line(alloc, number, at, table)?;
    }
    Ok(seen)
}
