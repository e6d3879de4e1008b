//! The whole program over any ports.
ghost use Rattle.std.specs.Prelude.{◌≡◌, ◌^◌, ◌≤◌, List, false, map, ◌≢◌, IfErr};
ghost use Rattle.clap.specs.Words.{Text};
ghost use Rattle.machine.specs.Setups.{IsSetup};
ghost use Rattle.script_io.specs.Endings.{served_as};
ghost use Rattle.script_io.specs.Serves.{Serves, Blames};
ghost use Rattle.script_io.specs.declared.failures.ServeFailure.TheVariants as failed;
ghost use Rattle.program_shell.specs.Reports.{Hands};
ghost use Rattle.command_line.specs.Arguments.{IsDue, IsRight};
ghost use Rattle.command_line.specs.Programs.{ReportsArguments, Runs, RunsReporting, ReportsAnswer, TellsHeadFor, TellsHeadOf, failure_line, language_of, status_of};

use crate::arguments::choice;
use crate::commands::Choice;
use crate::fault_reports::{report_fault, report_head};
use crate::kept::KeptIn;
use crate::lines::Lines;
use asm_script::serve_asm;
use machine::Config;
use op_script::serve;
use program_shell::{DONE, FAILED, REFUSED, Refusal, USAGE, report_to, usage_text};
use queue_script::serve_queue;
use script_io::{ByteIn, ByteOut, ServeError};
use std::alloc::Global;
use std::convert::AsStr;
use std::io::ErrorKind;

/// Serves what the arguments, which begin with the program's name, ask for, and gives the exit status. Where the
/// arguments are refused the reason goes to `errors`, and so does a line where the reader, the writer or memory failed;
/// a failure of `errors` changes nothing.
pub fn program<S: AsStr, R: ByteIn, W: ByteOut, E: ByteOut>(
    alloc: Global,
    arguments: &[S],
    reader: &mut R,
    writer: &mut W,
    errors: &mut E,
) -> u8
    requires reader_sound { R.has_failed reader.old ≡ false }
    requires writer_sound { W.has_failed writer.old ≡ false }
    requires errors_sound { E.has_failed errors.old ≡ false }
    requires few { R.reads_left reader.old ≤ 2 ^ 63 }
    ensures { Runs (map S.text arguments.now) (R.to_come reader.old) (R.to_come reader.new) (W.written writer.old) (W.written writer.new)
        (E.written errors.old) (E.written errors.new) (R.has_failed reader.new) (W.has_failed writer.new) (E.has_failed errors.new) result }
{
    match choice(alloc, arguments) {
        Ok(choice) => status_of(serve_choice(alloc, choice, reader, writer), errors),
        Err(refusal) => refuse_arguments(alloc, refusal, errors),
    }
}

/// The program over a reader that keeps what passes it. Where a line was refused, a line on standard error says what
/// is wrong with it: it goes to `reports`; and if a script is obeyed on another machine than its first line names, a line
/// to `notes` says so. These may be other ports on the same stream.
pub fn program_reporting<
    S: AsStr,
    R: ByteIn + Drop,
    W: ByteOut,
    E: ByteOut,
    T: ByteOut,
    N: ByteOut,
>(
    alloc: Global,
    arguments: &[S],
    reader: &mut KeptIn<R>,
    writer: &mut W,
    errors: &mut E,
    reports: &mut T,
    notes: &mut N,
) -> u8
    requires reader_sound { ⟦<KeptIn<R> as ByteIn>⟧.has_failed reader.old ≡ false }
    requires writer_sound { W.has_failed writer.old ≡ false }
    requires errors_sound { E.has_failed errors.old ≡ false }
    requires reports_sound { T.has_failed reports.old ≡ false }
    requires notes_sound { N.has_failed notes.old ≡ false }
    requires few { ⟦<KeptIn<R> as ByteIn>⟧.reads_left reader.old ≤ 2 ^ 63 }
    ensures runs { RunsReporting (map S.text arguments.now)
        (⟦<KeptIn<R> as ByteIn>⟧.to_come reader.old) (⟦<KeptIn<R> as ByteIn>⟧.to_come reader.new)
        (W.written writer.old) (W.written writer.new) (E.written errors.old) (E.written errors.new)
        (T.written reports.old) (T.written reports.new) (⟦<KeptIn<R> as ByteIn>⟧.has_failed reader.new)
        (W.has_failed writer.new) (E.has_failed errors.new) (T.has_failed reports.new) result }
    ensures notes { TellsHeadOf (map S.text arguments.now) (N.written notes.old) (N.written notes.new) (N.has_failed notes.new) }
{
    match choice(alloc, arguments) {
        Ok(choice) => {
            let answer = serve_choice(alloc, choice, reader, writer);
            report_machine(alloc, &reader.lines, choice, notes);
            report_fault(alloc, &reader.lines, answer, reports);
            status_of(answer, errors)
        }
        Err(refusal) => refuse_arguments(alloc, refusal, errors),
    }
}

/// Reports it if the script of this command is obeyed on another machine than its first line names.
fn report_machine<N: ByteOut>(alloc: Global, lines: &Lines, choice: Choice, notes: &mut N)
    requires range { IsRight choice }
    requires notes_sound { N.has_failed notes.old ≡ false }
    ensures { TellsHeadFor choice (N.written notes.old) (N.written notes.new) (N.has_failed notes.new) }
{
    match choice {
        Choice::Run { blocks, quantum } => {
            let taken = config_of(blocks, quantum);
            report_head(alloc, lines, taken, notes);
        }
        Choice::Queue => {}
        Choice::Asm => {}
    }
}

/// Serves the script or the source of a command.
fn serve_choice<R: ByteIn, W: ByteOut>(
    alloc: Global,
    choice: Choice,
    reader: &mut R,
    writer: &mut W,
) -> Result<(), ServeError>
    requires range { IsRight choice }
    requires reader_sound { R.has_failed reader.old ≡ false }
    requires writer_sound { W.has_failed writer.old ≡ false }
    requires few { R.reads_left reader.old ≤ 2 ^ 63 }
    ensures serves { Serves (language_of choice) (R.to_come reader.old) (R.to_come reader.new)
        (W.written writer.old) (W.written writer.new) (served_as result) }
    ensures blames { IfErr (served_as result) (λ e. Blames e (R.has_failed reader.new) (W.has_failed writer.new)) }
{
    match choice {
        Choice::Queue => serve_queue(alloc, reader, writer),
        Choice::Asm => serve_asm(alloc, reader, writer),
        Choice::Run { blocks, quantum } => {
            let config = config_of(blocks, quantum);
            serve(alloc, config, reader, writer)
        }
    }
}

/// Reports why the arguments were refused, and gives the exit status.
fn refuse_arguments<E: ByteOut>(alloc: Global, refusal: Refusal, errors: &mut E) -> u8
    requires { E.has_failed errors.old ≡ false }
    ensures { (arguments : List Text) → IsDue refusal arguments
        → ReportsArguments arguments (E.written errors.old) (E.written errors.new) (E.has_failed errors.new) result }
{
    match refusal {
        Refusal::Memory => out_of_memory(errors),
        Refusal::Usage(error) => match usage_text(alloc, &error) {
            Ok(text) => report_to(errors, text.as_str().as_bytes(), USAGE),
            Err(_) => out_of_memory(errors),
        },
    }
}

/// The size of a machine of so many blocks and this quantum.
fn config_of(blocks: u32, quantum: u32) -> Config
    requires { IsSetup blocks quantum }
    ensures blocks { result.blocks ≡ blocks }
    ensures quantum { result.quantum ≡ quantum }
{
    Config::new(blocks, quantum as u8).unwrap()
}

/// The exit status for the answer of a serving call. A line reports a port or memory that failed.
fn status_of<E: ByteOut>(answer: Result<(), ServeError>, errors: &mut E) -> u8
    requires { E.has_failed errors.old ≡ false }
    ensures status { result ≡ status_of (served_as answer) }
    ensures line { ReportsAnswer (served_as answer) (E.written errors.old) (E.written errors.new) (E.has_failed errors.new) }
{
    match answer {
        Ok(()) => DONE,
        Err(ServeError::Script(_) | ServeError::Source(_)) => REFUSED,
        Err(ServeError::Read) => report_to(errors, b"lockmon: read\n", FAILED),
        Err(ServeError::Write) => report_to(errors, b"lockmon: write\n", FAILED),
        Err(ServeError::Memory) => out_of_memory(errors),
    }
}

/// Reports that there was no memory, and gives the exit status.
pub fn out_of_memory<E: ByteOut>(errors: &mut E) -> u8
    requires { E.has_failed errors.old ≡ false }
    ensures status { result ≡ FAILED }
    ensures line { Hands (E.written errors.old) (E.written errors.new) (E.has_failed errors.new) (failure_line failed.Memory) }
{
    report_to(errors, b"lockmon: memory\n", FAILED)
}

/// Reports why the arguments could not be read, and gives the exit status: one of them is not UTF-8, which refuses
/// them, or there was no memory.
pub fn unread_arguments<E: ByteOut>(kind: ErrorKind, errors: &mut E) -> u8
    requires { E.has_failed errors.old ≡ false }
    ensures no_text { kind ≡ ErrorKind.InvalidData → result ≡ USAGE }
    ensures no_memory { kind ≢ ErrorKind.InvalidData → result ≡ FAILED }
    ensures line { kind ≢ ErrorKind.InvalidData
        → Hands (E.written errors.old) (E.written errors.new) (E.has_failed errors.new) (failure_line failed.Memory) }
{
    program_shell::unread_arguments(kind, b"lockmon: memory\n", errors)
}
