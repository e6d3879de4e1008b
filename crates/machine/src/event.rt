//! Events, and the machine's answers to them.
ghost use Rattle.std.specs.Prelude.{◌≡◌};
ghost use Rattle.machine.specs.Refusals.{code_of};

use tty_lines::{Char7, TakenText};
use word36::Image;

/// What can happen to the machine (this project's profile). Nothing happens between two events.
#[derive(Clone, Copy, Debug)]
pub enum Event<'a> {
    /// The job that is next takes its turn: an interrupt is delivered to it, or it executes one instruction
    /// and the monitor call that this makes.
    Step,
    /// A sixtieth of a second passes. Where the limit of a job's wait for a grant ends, the job's call is
    /// refused; the requests of all such jobs leave together.
    Tick,
    /// A character is typed at a line, 0 to 63. CTRL-C, character 3, is never stored: it stops the
    /// line's job.
    Typed(u8, Char7),
    /// At most so many characters, and no more than 64, leave the front of a line's output.
    Take(u8, usize),
    /// A job begins at a line, with an image and the least free number. It is stopped.
    Login(u8, &'a Image),
    /// A job that is stopped begins at its start address and waits for nothing.
    Start(u8),
    /// A job that is stopped goes on where it is, and waits for what it waited for.
    Continue(u8),
    /// A job ends: its requests leave, and its core and its line are free.
    Kill(u8),
    /// All jobs end, and all requests and characters are gone. The data words and the time of day stay.
    Restart,
}

/// Why an event is refused (this project's profile). Where several reasons hold, the answer is the first in
/// the order of the event's row in `happens`.
#[derive(Clone, Copy, Debug, PartialEq, Eq)]
pub enum RefusedEvent {
    /// No line has that number.
    NoLine,
    /// A job has that line.
    LineBusy,
    /// All job numbers are taken.
    NoJobNumber,
    /// Fewer blocks are free than the image takes.
    NoCore,
    /// No job has that number.
    NoSuchJob,
    /// The job is not stopped.
    NotStopped,
    /// The input of that line is full.
    Full,
    /// The image has no words, or an address or a start of 1000000 octal or more, or its addresses do not
    /// rise.
    BadImage,
}

impl RefusedEvent {
    /// The number of the refusal in scripts, 1 to 8.
    pub fn code(self) -> u32
        ensures { result ≡ code_of self }
    {
        match self {
            RefusedEvent::NoLine => 1,
            RefusedEvent::LineBusy => 2,
            RefusedEvent::NoJobNumber => 3,
            RefusedEvent::NoCore => 4,
            RefusedEvent::NoSuchJob => 5,
            RefusedEvent::NotStopped => 6,
            RefusedEvent::Full => 7,
            RefusedEvent::BadImage => 8,
        }
    }
}

/// The machine's answer to an event.
#[derive(Debug, Drop)]
pub enum Answer {
    /// This job took its turn.
    Ran(u8),
    /// No job is ready. Nothing has changed.
    Idle,
    /// The event has happened.
    Done,
    /// The characters that left a line's output.
    Text(TakenText),
    /// The number of the job that began.
    JobNumber(u8),
    /// The event did not happen. Nothing has changed.
    Refused(RefusedEvent),
}
