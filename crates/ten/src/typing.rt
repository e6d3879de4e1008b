//! What is typed at the terminals of a run.
ghost use Rattle.std.specs.Prelude.{◌≡◌, ◌&&◌, false, length, min, not};
ghost use Rattle.word36.specs.declared.sizes.TheConstants.{JOBS};
ghost use Rattle.run_facts.specs.Typing.{line_for, text_for};
ghost use Rattle.ten.specs.Events.{IsFull, typed_at};

use crate::jobs::RunningJob;
use crate::recording::Recording;
use crate::waits::Waits;
use concrete_machine::Machine;
use monitor::{Answer, Event, RefusedEvent};
use run_facts::{Target, target_of};
use run_record::RunEvent;
use std::alloc::{AllocError, Global};
use tty_lines::Char7;
use word36::{Image, JOBS};

/// What a RETURN types behind a line.
#[derive(Clone, Copy, Debug, PartialEq, Eq)]
pub enum Return {
    /// CR and LF, as the monitor hands a RETURN to a job.
    CrLf,
    /// LF alone.
    Lf,
}

/// What is typed at the terminals of a run.
#[derive(Drop)]
pub struct Typing {
    /// What ends each line.
    ending: Return,
    /// The line of the input that is being typed.
    pub text: Vec<u8>,
    /// The position in it from which on it was not yet typed.
    typed: usize,
    /// The terminal line where it is typed.
    line: u8,
    /// Whether a job may wait for characters.
    pub is_awaited: bool,
    /// Whether no more lines of the input come.
    pub has_ended: bool,
}

/// Types a byte at a terminal line; false where there is no room for it. A byte that is no character is left out.
fn type_byte(machine: &mut Machine, line: u8, byte: u8, recording: &mut Recording) -> bool
    ensures state { machine.new ≡ typed_at line byte machine.old }
    ensures full { result ≡ false → IsFull line byte machine.old }
{
    // An event may hold an image, of which this one has none: the prover wants its type to be named.
    let _image: Option<&Image> = None;
    let Some(character) = Char7::try_new(byte) else {
        return true;
    };
    match machine.event(&Event::Typed(line, character)) {
        Answer::Refused(refusal) => refusal != RefusedEvent::Full,
        _ => {
            recording.add(RunEvent::Typed(line, character));
            true
        }
    }
}

/// The terminal line where a line of the input is typed, by the number of jobs: each has a terminal line.
fn target_among<'t>(jobs: &[RunningJob], text: &'t [u8]) -> Target<'t>
    ensures line { result.line ≡ line_for (min (length jobs.now) JOBS) text.now }
    ensures text { result.text.now ≡ text_for (min (length jobs.now) JOBS) text.now }
{
    target_of(jobs.len().min(usize::from(JOBS)) as u8, text)
}

impl Typing {
    /// Nothing was typed yet, and no job waits for it.
    pub fn new(alloc: Global, ending: Return) -> Self {
        Typing {
            ending,
            text: Vec::new(alloc),
            typed: 0,
            line: 0,
            is_awaited: false,
            has_ended: false,
        }
    }

    /// Types on at the line in hand, as far as there is room for it.
    pub fn type_on(&mut self, machine: &mut Machine, recording: &mut Recording) {
        let rest = self.text.len().saturating_sub(self.typed);
        for _ in 0..rest {
            let Some(byte) = self.text.as_slice().get(self.typed).copied() else {
                return;
            };
            if !type_byte(machine, self.line, byte, recording) {
                return;
            }
            self.typed = self.typed.saturating_add(1);
        }
    }

    /// Whether another line of the input is wanted: the line in hand is typed, and a job waits for
    /// characters of which more may come.
    pub fn wants_line(&mut self, machine: &Machine, jobs: &[RunningJob]) -> bool {
        if !self.is_awaited || self.typed < self.text.len() || self.has_ended {
            return false;
        }
        self.is_awaited = Waits::of_all(machine, jobs).input;
        self.is_awaited
    }

    /// Begins to type `text`, a line of the input without its end, and a RETURN, at the terminal line that it names.
    pub fn begin(
        &mut self,
        machine: &mut Machine,
        jobs: &[RunningJob],
        recording: &mut Recording,
    ) -> Result<(), AllocError> {
        if self.ending == Return::CrLf {
            self.text.push(b'\r')?;
        }
        self.text.push(b'\n')?;
        let target = target_among(jobs, self.text.as_slice());
        let (line, rest) = (target.line, target.text.len());
        self.line = line;
        self.typed = self.text.len().saturating_sub(rest);
        self.type_on(machine, recording);
        Ok(())
    }

    /// Whether more characters come, where no job is ready. `is_awaited` where some job waits for characters. The rest
    /// of a line that found no room elsewhere is lost.
    pub fn goes_on(&mut self, is_awaited: bool) -> bool
        ensures { result ≡ (is_awaited && not self.old.has_ended) }
    {
        self.typed = self.text.len();
        self.is_awaited = is_awaited;
        is_awaited && !self.has_ended
    }
}
