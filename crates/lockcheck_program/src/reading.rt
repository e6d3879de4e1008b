//! The programs of a script of `lockmon queue`.
ghost use Rattle.std.specs.Prelude.{◌≡◌, ◌≤◌, ◌++◌, ◌∷◌, [], length, IfErr, IfOk, IsTrue, Ok, OnOk, true};
ghost use Rattle.lockcheck_orders.specs.declared.lines.TheConstants.{MOST_LINES};
ghost use Rattle.lockcheck_orders.specs.Programs.{are_right_lines, is_right_line};
ghost use Rattle.queue_script.specs.Borrowed.{owned_command};
ghost use Rattle.queue_script.specs.QueueScripts.{transcript};
ghost use Rattle.queue_script.specs.WellFormed.{is_well_formed};
ghost use Rattle.lockcheck_program.specs.Reading.{EndsAlike, IsReason, is_by_job, is_right_taken, programs_of, taken_of};
ghost use Rattle.lockcheck_program.specs.declared.reading.ScriptError.TheVariants.{Memory};

use crate::copying::copied_call;
use lock_bars::ScriptLines;
use lockcheck_orders::{Line, MOST_LINES, Programs, Step};
use queue_script::{CallRoom, Command, read_command};
use std::alloc::{AllocError, Global};

/// Why a script is refused.
#[derive(Clone, Copy, PartialEq, Eq, Debug, Drop)]
pub enum ScriptError {
    /// There was no memory.
    Memory,
    /// The line of this number is refused.
    Line(usize),
    /// It has more than 10,000 lines.
    TooLong,
}

impl From<AllocError> for ScriptError {
    ghost from_gives = { λ _ e. e ≡ Memory };

    fn from(_: AllocError) -> Self {
        ScriptError::Memory
    }
}

/// What a line of the script is to the jobs' programs.
#[derive(Drop)]
pub enum Taken {
    /// No part of them: it is passed over.
    Nothing,
    /// The script ends there.
    End,
    /// It is a line of a job's program.
    Line(Line),
}

/// What the line of this number, which has this command, is to the jobs' programs.
fn taken_of(number: usize, command: Option<Command<'_>>) -> Result<Taken, ScriptError>
    requires number { number ≤ MOST_LINES }
    requires well { IsTrue (is_well_formed (owned_command command)) }
    requires job { IsTrue (is_by_job (owned_command command)) }
    ensures value { result ≡ taken_of number (owned_command command.entry) }
    ensures right { IfOk result (λ taken. is_right_taken taken ≡ true) }
{
    let Some(command) = command else {
        return Err(ScriptError::Line(number));
    };
    let (job, step) = match command {
        Command::Quit => return Ok(Taken::End),
        Command::Nothing | Command::Status(..) | Command::Show | Command::Waits => {
            return Ok(Taken::Nothing);
        }
        Command::Free(job) => (job, Step::Free),
        Command::Call(job, call) => (job, Step::Call(copied_call(call))),
        Command::Refused(job, refusal) => (job, Step::Refused(refusal)),
    };
    Ok(Taken::Line(Line { number, job, step }))
}

/// Adds a line.
fn keep_line(lines: &mut Vec<Line>, line: Line) -> Result<(), ScriptError>
    requires all { are_right_lines lines.old.items ≡ true }
    requires right { is_right_line line ≡ true }
    ensures right { are_right_lines lines.new.items ≡ true }
    ensures items { OnOk result (lines.new.items ≡ lines.old.items ++ line ∷ []) }
    ensures memory { IfErr result (λ e. e ≡ Memory) }
{
    match lines.push(line) {
        Ok(()) => Ok(()),
        Err(_) => Err(ScriptError::Memory),
    }
}

/// The lines of the jobs' programs, in the script's order.
fn read_lines(alloc: Global, script: &[u8]) -> Result<Vec<Line>, ScriptError>
    ensures read { IfOk result (λ lines. programs_of script.now ≡ Ok lines.items) }
    ensures refused { IfErr result (IsReason (programs_of script.now)) }
    ensures right { IfOk result (λ lines. are_right_lines lines.items ≡ true) }
    ensures few { IfOk result (λ lines. length lines.items ≤ MOST_LINES) }
{
    let mut room = CallRoom::new();
    let mut kept = Vec::new(alloc);
    let mut number = 0;
    let mut lines = ScriptLines::of(script);
    while let Some(line) = lines.next() {
        if number == MOST_LINES {
            return Err(ScriptError::TooLong);
        }
        number += 1;
        let command = read_command(&mut room, line);
        match taken_of(number, command) {
            Err(error) => return Err(error),
            Ok(Taken::Nothing) => {}
            Ok(Taken::End) => return Ok(kept),
            Ok(Taken::Line(line)) => keep_line(&mut kept, line)?,
        }
    }
    Ok(kept)
}

/// The programs of a script's jobs: each job's lines of ENQ, DEQ and FREE, in order, up to QUIT. How the lines of
/// different jobs stand among each other says nothing. A script is refused at its first line that is not in the grammar
/// of `lockmon queue`, and where it has more than 10,000 lines.
pub fn read_programs(alloc: Global, script: &[u8]) -> Result<Programs, ScriptError>
    ensures read { IfOk result (λ programs. programs_of script.now ≡ Ok programs) }
    ensures refused { IfErr result (IsReason (programs_of script.now)) }
    ensures alike { EndsAlike (programs_of script.now) (transcript script.now).ending }
{
    let lines = read_lines(alloc, script)?;
    let programs = Programs::new(alloc, lines)?;
    Ok(programs)
}
