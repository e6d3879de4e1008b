//! The picture as text for a terminal.

use crate::axis::{say_axis, say_spaces};
use lock_bars::{Arrow, Bar, Drawing, Lane, LockLabel, ScriptLines};
use program_shell::PendingText;
use shown_bytes::shown_text;

/// The width of `job 63` and of the blanks behind it.
const JOB_WIDTH: usize = 8;

/// The signs for a lock that is owned, one that is waited for, a grant, and none.
const OWNS: u8 = b'#';

const WAITS: u8 = b'/';

const GRANT: u8 = b'*';

const NONE: u8 = b'.';

/// The length of the longest name of a lock.
fn longest_label(lanes: &[Lane]) -> usize {
    let mut longest = 0;
    for lane in lanes {
        longest = longest.max(lane.label.len());
    }
    longest
}

/// The sign of a lane in a column.
fn sign_at(bars: &[Bar], lane: &Lane, column: usize) -> u8 {
    for bar in bars {
        if lane.has(bar) && bar.from <= column && column < bar.until {
            if !bar.hold.owns {
                return WAITS;
            }
            if bar.from == column && bar.is_granted(bars) {
                return GRANT;
            }
            return OWNS;
        }
    }
    NONE
}

fn say_lane(text: &mut PendingText, drawing: &Drawing, lane: &Lane, margin: usize) {
    let label = lane.label.as_str();
    text.say(label);
    let written = JOB_WIDTH.saturating_add(label.len());
    say_spaces(text, margin.saturating_sub(written));
    for column in 1..drawing.columns.len().saturating_add(1) {
        text.add(&[sign_at(drawing.bars.as_slice(), lane, column)]);
    }
    text.end_line();
}

/// Adds the lanes; the first of each job has the job's number before it.
fn say_lanes(text: &mut PendingText, drawing: &Drawing, margin: usize) {
    let mut last = 0;
    let alloc = text.alloc;
    for lane in drawing.lanes.as_slice() {
        let job = lane.job;
        if job == last {
            say_spaces(text, JOB_WIDTH);
        } else {
            text.say_made(format!(in alloc; "job {job:<4}"));
        }
        last = job;
        say_lane(text, drawing, lane, margin);
    }
}

/// Adds a wait, with its lock.
fn say_wait(text: &mut PendingText, arrow: &Arrow) {
    let alloc = text.alloc;
    let wait = arrow.wait;
    text.say_made(format!(in alloc; "  {wait}"));
    if let Some(key) = &arrow.lock {
        let label = LockLabel(key);
        text.say_made(format!(in alloc; ", for {label}"));
    }
    text.end_line();
}

/// Adds who waits for whom.
fn say_waits(text: &mut PendingText, drawing: &Drawing) {
    text.say_number("\nAfter line ", drawing.at as u64, ":\n");
    if drawing.arrows.is_empty() {
        text.say("  nobody waits\n");
    }
    for arrow in drawing.arrows.as_slice() {
        say_wait(text, arrow);
    }
}

/// Adds the lines of the script that have columns, each with its number, as a terminal shows them.
fn say_script(text: &mut PendingText, drawing: &Drawing, script: &[u8]) {
    let alloc = text.alloc;
    let mut lines = ScriptLines::of(script);
    let mut number = 0usize;
    let mut last = 0;
    for column in drawing.columns.as_slice() {
        if column.line == last {
            continue;
        }
        last = column.line;
        let mut line: &[u8] = b"";
        for _ in number..column.line {
            line = lines.next().unwrap_or(b"");
        }
        number = column.line;
        text.say_made(format!(in alloc; "{number:>5}  "));
        text.say_made(shown_text(alloc, line));
        text.end_line();
    }
}

/// Adds the picture of a script: a character for each column, the lines of the columns below them, and who waits for
/// whom.
pub fn say_picture(text: &mut PendingText, drawing: &Drawing, script: &[u8]) {
    let longest = longest_label(drawing.lanes.as_slice());
    let margin = JOB_WIDTH.saturating_add(longest).saturating_add(2);
    say_axis(text, drawing.columns.as_slice(), margin);
    say_lanes(text, drawing, margin);
    text.say("\n# owns  / waits  * is granted  . has no request\n\n");
    say_script(text, drawing, script);
    say_waits(text, drawing);
}
