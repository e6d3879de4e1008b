//! How a line ends, beside its output.
ghost use Rattle.std.specs.Prelude.{◌≡◌};
ghost use Rattle.op_script.specs.Undone.{behind, ended_by};

use monitor::RefusedEvent;
use script_io::Ending;
use std::fmt;

/// Why a command is not done, though it is in the grammar.
#[derive(Clone, Copy, PartialEq, Eq, Debug)]
pub enum Undone {
    /// The machine refuses its event.
    Refused(RefusedEvent),
    /// The job has no word at the address of an EXAMINE.
    NoWord,
}

/// The rule by which it is not done.
impl fmt::Display for Undone {
    fn fmt<W: fmt::Write>(&self, f: &mut fmt::Formatter<W>) -> fmt::Result {
        f.write_str(match self {
            Undone::NoWord => "the job has no word at that address",
            Undone::Refused(refusal) => match refusal {
                RefusedEvent::NoLine => "there is no such line: lines are 0 to 63",
                RefusedEvent::LineBusy => "a job has that line already",
                RefusedEvent::NoJobNumber => "all job numbers, 1 to 63, are taken",
                RefusedEvent::NoCore => "the image takes more blocks of core than are free",
                RefusedEvent::NoSuchJob => "no job has that number",
                RefusedEvent::NotStopped => "the job is not stopped",
                RefusedEvent::Full => "the input of that line is full",
                RefusedEvent::BadImage =>
                    "the image has no words, or an address that no job can have",
            },
        })
    }
}

/// How a line ends, beside its output.
#[derive(Clone, Copy)]
pub struct LineEnd {
    /// How the script ends there, if it does.
    pub ending: Option<Ending>,
    /// Why its command is not done, if it is not.
    pub undone: Option<Undone>,
}

impl LineEnd {
    /// The script ends there, if there is an ending.
    pub fn of(ending: Option<Ending>) -> Self
        ensures { result ≡ ended_by ending }
    {
        LineEnd {
            ending,
            undone: None,
        }
    }

    /// The script goes on, after an event that was refused or not.
    pub fn behind(refusal: Option<RefusedEvent>) -> Self
        ensures { result ≡ behind refusal }
    {
        LineEnd {
            ending: None,
            undone: match refusal {
                Some(refusal) => Some(Undone::Refused(refusal)),
                None => None,
            },
        }
    }
}
