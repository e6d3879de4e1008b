//! What happened in a run.

use tty_lines::Char7;

/// What happened in a run, as far as a script of `lockmon run` can say it.
#[derive(Clone, Copy)]
pub enum RunEvent {
    /// A job began at a terminal line, with the program of this number.
    Login(u8, u8),
    /// A job was started.
    Start(u8),
    /// A stopped job went on.
    Continue(u8),
    /// A job was removed.
    Kill(u8),
    /// All jobs were removed.
    Restart,
    /// A step was made.
    Step,
    /// A tick went by.
    Tick,
    /// A character was typed at a line, and was not refused.
    Typed(u8, Char7),
    /// All that was put out at a line was taken.
    Take(u8),
}
