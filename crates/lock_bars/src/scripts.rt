//! The pictures of scripts.
ghost use Rattle.std.specs.Prelude.{◌≡◌, ◌⊎◌, None, Err, IfOk, IfErr, IfSome, IsSome, length, map, unwrap_or, true};
ghost use Rattle.std.specs.List.{All};
ghost use Rattle.std.specs.Str.Lines.{lines};
ghost use Rattle.queue_script.specs.QueueScripts.{transcript};
ghost use Rattle.script_io.specs.declared.endings.Ending.TheVariants as ending;
ghost use Rattle.wait_graph.specs.Graphs.{Shows};
ghost use Rattle.lock_bars.specs.Arrows.{HasLock, wait_of, waits_in};
ghost use Rattle.lock_bars.specs.Courses.{course, has_line, line_columns, requests_behind, IsFaultOf, Lasts};
ghost use Rattle.lock_bars.specs.Lanes.{lanes_of, row_of};

use crate::arrows::waits_behind;
use crate::course::Course;
use crate::drawing::Drawing;
use crate::errors::ScriptError;
use crate::lanes::lanes_of;
use crate::queue_course::watch_queue;
use lock_queue::LockTable;
use lock_table::ProgramTable;
use std::alloc::Global;

/// The drawing of what was seen along a script. It shows who waits for whom after the line `at`, where that
/// was asked for, or else at the end, when the table is as given.
pub fn drawing_of<L: LockTable>(
    alloc: Global,
    seen: Course,
    at: Option<usize>,
    table: &L,
) -> Result<Drawing, ScriptError>
    ensures columns { IfOk result (λ drawing. drawing.columns ≡ seen.columns) }
    ensures bars { IfOk result (λ drawing. drawing.bars ≡ seen.bars) }
    ensures lanes { IfOk result (λ drawing. map row_of drawing.lanes.items ≡ lanes_of seen.bars.items) }
    ensures asked { IfOk result (λ drawing. IfSome seen.waits (λ w. (drawing.graph ≡ w.0) × (drawing.at_column ≡ w.1))) }
    ensures kept { IfOk result (λ drawing. IfSome seen.waits (λ _. drawing.arrows.items ≡ seen.arrows.items)) }
    ensures end { IfOk result (λ drawing. seen.waits ≡ None
        → Shows (L.requests table.now) drawing.graph × (drawing.at_column ≡ length seen.columns.items)) }
    ensures arrows { IfOk result (λ drawing. seen.waits ≡ None
        → map wait_of drawing.arrows.items ≡ waits_in drawing.graph) }
    ensures locks { IfOk result (λ drawing. seen.waits ≡ None → All (HasLock (L.requests table.now)) drawing.arrows.items) }
    ensures at { IfOk result (λ drawing. drawing.at ≡ unwrap_or at seen.lines) }
    ensures found { IfOk result (λ drawing. IsSome at → IsSome seen.waits) }
    ensures short { IfErr result (λ e. (e ≡ ScriptError.Memory)
        ⊎ ((e ≡ ScriptError.Short seen.lines) × IsSome at × (seen.waits ≡ None))) }
    ensures missed { IsSome at → seen.waits ≡ None → result ≡ Err (ScriptError.Short seen.lines) }
{
    let Course {
        lines,
        columns,
        bars,
        waits,
        arrows,
    } = seen;
    let (graph, at_column, arrows) = match waits {
        Some((graph, at_column)) => (graph, at_column, arrows),
        None if at.is_none() => {
            let (graph, arrows) = waits_behind(alloc, table)?;
            (graph, columns.len(), arrows)
        }
        None => return Err(ScriptError::Short(lines)),
    };
    let lanes = lanes_of(alloc, bars.as_slice())?;
    Ok(Drawing {
        columns,
        bars,
        lanes,
        at: at.unwrap_or(lines),
        at_column,
        graph,
        arrows,
    })
}

/// Draws a script of `lockmon queue`, with the waits after its last line or after the line `at`. It
/// is refused at its first line that is not in the grammar, and where it has more than 10,000 lines.
pub fn draw_script(alloc: Global, script: &[u8], at: Option<usize>) -> Result<Drawing, ScriptError>
    ensures bars { IfOk result (λ drawing. drawing.bars.items ≡ (course script.now).bars) }
    ensures columns { IfOk result (λ drawing. length drawing.columns.items ≡ (course script.now).lines) }
    ensures named { IfOk result (λ drawing. drawing.columns.items ≡ line_columns (course script.now).lines) }
    ensures lanes { IfOk result (λ drawing. map row_of drawing.lanes.items ≡ lanes_of (course script.now).bars) }
    ensures lasts { Lasts (course script.now) script.now }
    ensures done { IfOk result (λ drawing. (course script.now).ending ≡ ending.Done) }
    ensures waits { IfOk result (λ drawing. Shows (requests_behind drawing.at script.now) drawing.graph) }
    ensures arrows { IfOk result (λ drawing. map wait_of drawing.arrows.items ≡ waits_in drawing.graph) }
    ensures locks { IfOk result (λ drawing. All (HasLock (requests_behind drawing.at script.now)) drawing.arrows.items) }
    ensures at { IfOk result (λ drawing. drawing.at ≡ unwrap_or at (course script.now).lines) }
    ensures at_column { IfOk result (λ drawing. drawing.at_column ≡ drawing.at) }
    ensures found { IfOk result (λ drawing. IsSome at → has_line (course script.now).lines at ≡ true) }
    ensures fault { IfErr result (λ e. IsFaultOf at (length (lines script.now)) (course script.now) e) }
    ensures ends { (course script.now).ending ≡ (transcript script.now).ending }
{
    let mut table = ProgramTable::new(alloc)?;
    let seen = watch_queue(alloc, &mut table, script, at)?;
    drawing_of(alloc, seen, at, &table)
}
