//! Logs a job in for each program.
ghost use Rattle.std.specs.Prelude.{◌≡◌, IfErr, IfOk};
ghost use Rattle.machine.specs.Machine.{happens};
ghost use Rattle.machine.specs.declared.event.Answer.TheVariants.{JobNumber};
ghost use Rattle.machine.specs.declared.event.Event.TheVariants.{Login, Start};

use crate::jobs::RunningJob;
use crate::recording::Recording;
use crate::terminal::Terminal;
use concrete_machine::Machine;
use monitor::{Answer, Event, RefusedEvent};
use program_shell::PendingText;
use run_notes::{TracedJob, login_refusal_text};
use run_record::RunEvent;
use source_labels::Program;
use word36::{Address, Image};

/// Logs a job in at a terminal line, and starts it: the first program at line 0, and so on. Gives its number, or why it is
/// refused.
fn log_in(
    machine: &mut Machine,
    line: u8,
    image: &Image,
    recording: &mut Recording,
) -> Result<u8, RefusedEvent>
    ensures number { IfOk result (λ n. (happens machine.old (Login line image.entry)).answer ≡ JobNumber n) }
    ensures started { IfOk result (λ n. machine.new ≡ (happens (happens machine.old (Login line image.entry)).state (Start n)).state) }
    ensures refused { IfErr result (λ _. machine.new ≡ (happens machine.old (Login line image.entry)).state) }
{
    match machine.event(&Event::Login(line, image)) {
        Answer::JobNumber(number) => {
            recording.add(RunEvent::Login(line, line.saturating_add(1)));
            machine.event(&Event::Start(number));
            recording.add(RunEvent::Start(number));
            Ok(number)
        }
        Answer::Refused(refusal) => Err(refusal),
        _ => Err(RefusedEvent::NoJobNumber),
    }
}

/// The job of a program: it has this number, and ran no step yet.
fn job_of(program: Program<'_>, number: u8, terminal: Terminal) -> RunningJob
    ensures number { result.traced.number ≡ number }
    ensures places { result.traced.places ≡ program.entry.places }
    ensures terminal { result.terminal ≡ terminal }
    ensures steps { result.steps ≡ 0 }
{
    let start = Address::try_new(program.image.start).unwrap_or(Address::new(0));
    RunningJob {
        traced: TracedJob {
            number,
            places: program.places,
            last: start,
        },
        terminal,
        steps: 0,
    }
}

/// Reports why a program cannot be logged in.
fn report_refusal(file: &str, refusal: RefusedEvent, errors: &mut PendingText) {
    errors.say(file);
    errors.say(": ");
    errors.say(login_refusal_text(refusal));
    errors.end_line();
}

/// Logs programs in, at the terminal lines from 0 on, and adds their jobs; false where one is refused, which is
/// reported.
pub fn log_in_all(
    machine: &mut Machine,
    programs: Vec<Program<'_>>,
    jobs: &mut Vec<RunningJob>,
    recording: &mut Recording,
    errors: &mut PendingText,
) -> bool {
    let is_numbered = programs.len() > 1;
    let mut line = 0u8;
    for program in programs {
        match log_in(machine, line, &program.image, recording) {
            Ok(number) => {
                let terminal = Terminal::new(line, is_numbered);
                if jobs.push(job_of(program, number, terminal)).is_err() {
                    errors.fail();
                }
            }
            Err(refusal) => {
                report_refusal(program.file, refusal, errors);
                return false;
            }
        }
        line = line.saturating_add(1);
    }
    true
}
