//! Why the debugger does not obey a command that is well-formed.

use ddt_breakpoints::BREAKPOINTS;
use std::fmt;

/// Why the debugger does not obey a command that is well-formed. It is written as `?` and the reason, without a line end.
#[derive(Clone, Copy)]
pub enum CommandError {
    /// No address is open.
    NotOpen,
    /// There is no such lock.
    NoLock,
    /// The job has no word at the address.
    NoWord,
    /// There is no such job.
    NoJob,
    /// All breakpoints are set.
    NoBreakpointFree,
    /// There is no such breakpoint.
    NotSet,
    /// As many words are watched as can be.
    NoWatchFree,
    /// The open job is gone.
    Gone,
    /// Only so many steps were made.
    FewSteps(u64),
    /// No step has changed the word.
    NeverWritten,
    /// The job stood at the address before no step.
    NeverThere,
    /// The terminal line has no room.
    LineFull,
    /// No job is at the terminal line.
    NoJobAtLine,
    /// A backslash spells no character.
    NoCharacter,
    /// The first address is above the last.
    WrongOrder,
    /// The job has had no turn.
    NoTurns,
    /// A search found no word.
    NotFound,
    /// Words were deposited, of which a script can say nothing.
    Deposited,
    /// A job was started at an address, of which a script can say nothing.
    StartedAt,
    /// An instruction was executed by hand, of which a script can say nothing.
    Executed,
    /// The open job waits, so no instruction is executed for it.
    Waits,
    /// The instruction that was typed calls the monitor.
    CallsMonitor,
    /// The instruction that was typed stops the processor, for this reason.
    Stops(&'static str),
}

impl fmt::Display for CommandError {
    fn fmt<W: fmt::Write>(&self, f: &mut fmt::Formatter<W>) -> fmt::Result {
        let text = match *self {
            CommandError::Stops(reason) => return write!(f, "? not executed: {reason}"),
            CommandError::FewSteps(steps) => return write!(f, "? only {steps} steps were made"),
            CommandError::NoBreakpointFree => {
                return write!(f, "? all {BREAKPOINTS} breakpoints are set");
            }
            CommandError::NoWatchFree => {
                return write!(f, "? {BREAKPOINTS} words are watched already");
            }
            CommandError::NotOpen => "? no place is open: LOOP/ opens the place LOOP",
            CommandError::NoLock => "? a lock is named as in .BREAK LOCK A, or by its code as #17",
            CommandError::NoWord => "? the job has no word there",
            CommandError::NoJob => "? there is no such job: .JOBS lists them",
            CommandError::NotSet => "? that breakpoint is not set",
            CommandError::Gone => "? no job can be started: the open one is gone",
            CommandError::NeverWritten => "? no step has changed that word",
            CommandError::NeverThere => "? the job did not stand there before any step",
            CommandError::LineFull => "? the terminal line has no room for more",
            CommandError::NoJobAtLine => "? no job is at that terminal line: job 1 is at line 0",
            CommandError::NoCharacter => {
                "? a backslash stands before n, r, e, a backslash, or three octal digits up to 177"
            }
            CommandError::WrongOrder => "? the first place is behind the last",
            CommandError::NoTurns => "? the job has had no turn",
            CommandError::NotFound => "? no word was found",
            CommandError::Deposited => "? not recorded: words were deposited, which no script does",
            CommandError::StartedAt => {
                "? not recorded: a job was started at a place, which no script does"
            }
            CommandError::Executed => {
                "? not recorded: an instruction was executed by hand, which no script does"
            }
            CommandError::Waits => "? not executed: the job waits",
            CommandError::CallsMonitor => {
                "? not executed: the monitor is called by the program's own instructions alone"
            }
        };
        f.write_str(text)
    }
}
