//! Commands that show jobs, locks and registers.

ghost use Rattle.std.specs.Prelude.{◌≡◌, ◌<◌, ◌≤◌, IfErr, IfOk, IfSome, codes, false, length};
ghost use Rattle.std.specs.List.{list_any};
ghost use Rattle.ddt_moves.specs.Edits.{is_deposit, is_execution};
ghost use Rattle.ddt_show.specs.Jobs.{registers_words};
ghost use Rattle.ddt_timeline.specs.Histories.{machine_of};
ghost use Rattle.ddt_timeline.specs.Views.{history, whole_entries};
ghost use Rattle.program_shell.specs.Texts.{Adds};
ghost use Rattle.queue_script.specs.QueueScripts.{show_text};
ghost use Rattle.queue_script.specs.WaitPairs.{waits_text};
ghost use Rattle.ddt.specs.Obeying.{job_of};
ghost use Rattle.ddt.specs.Showing.{edits_text, edits_words, lines_or};

use crate::session::Session;
use ddt_commands::CommandError;
use ddt_moves::{is_edited, is_executed};
use ddt_show::{lock_lines, refuse, register_lines, wait_lines};
use ddt_timeline::Timeline;
use program_shell::PendingText;
use std::alloc::AllocError;

/// `.JOB n`: opens a job, and shows how it stands.
pub fn open_job(session: &mut Session, timeline: &Timeline, number: u8)
    ensures opens { 1 ≤ number → number ≤ length session.old.jobs.items
        → (session.new.open ≡ number) × (session.new.is_open ≡ false) }
    ensures none { length session.old.jobs.items < number → session.new.open ≡ session.old.open }
{
    if usize::from(number) > session.jobs.len() || number == 0 {
        return refuse(&mut session.answer, CommandError::NoJob);
    }
    session.open = number;
    session.is_open = false;
    session.show_job(timeline, number);
}

/// The changes by hand: words were deposited, instructions were executed, or both.
fn edits_of(is_edited: bool, is_executed: bool) -> &'static str
    ensures { result.now ≡ edits_words is_edited is_executed }
{
    match (is_edited, is_executed) {
        (false, false) => "",
        (true, false) => "edited: words were deposited",
        (false, true) => "edited: instructions were executed",
        (true, true) => "edited: words were deposited, instructions were executed",
    }
}

/// Adds what was done by hand to all that has happened, between two texts; nothing if nothing was.
#[tactic(auto, using(std::proofs::Common::append_assoc))]
pub fn say_edits(answer: &mut PendingText, timeline: &Timeline, before: &str, behind: &str)
    ensures { Adds answer.old answer.new (edits_text (list_any is_deposit (whole_entries timeline.now))
        (list_any is_execution (whole_entries timeline.now)) before.now behind.now) }
{
    let (edited, executed) = (is_edited(timeline), is_executed(timeline));
    if edited || executed {
        answer.say(before);
        answer.say(edits_of(edited, executed));
        answer.say(behind);
    }
}

/// `.JOBS`: shows how all jobs stand, how many steps have been made, and whether words have been deposited.
pub fn show_jobs(session: &mut Session, timeline: &Timeline) {
    session.show_jobs(timeline);
    let (steps, ticks) = (timeline.steps(), timeline.ticks());
    session.answer.say_number("steps ", steps, ", ");
    session.answer.say_number("ticks ", ticks, "");
    say_edits(&mut session.answer, timeline, ", ", "");
    session.answer.end_line();
}

/// Adds lines that were made just now, or a text in place of none.
fn say_lines(answer: &mut PendingText, made: Result<Vec<u8>, AllocError>, none: &str)
    ensures made { IfOk made (λ lines. Adds answer.old answer.new (lines_or lines.items none.now)) }
    ensures lost { IfErr made (λ _. answer.new.is_whole ≡ false) }
{
    let Ok(lines) = made else {
        return answer.fail();
    };
    if lines.is_empty() {
        answer.say(none);
    } else {
        answer.add(lines.as_slice());
    }
}

/// `.LOCKS`: shows the requests for locks.
pub fn show_locks(answer: &mut PendingText, timeline: &Timeline)
    ensures { Adds answer.old answer.new
        (lines_or (show_text (machine_of (history timeline.now)).world.requests) (codes "no requests\n")) }
{
    let lines = lock_lines(answer.alloc, timeline.machine());
    say_lines(answer, lines, "no requests\n");
}

/// `.WAITS`: shows who waits for whom.
pub fn show_waits(answer: &mut PendingText, timeline: &Timeline)
    ensures { Adds answer.old answer.new
        (lines_or (waits_text (machine_of (history timeline.now)).world.requests) (codes "no job waits for another\n")) }
{
    let lines = wait_lines(answer.alloc, timeline.machine());
    say_lines(answer, lines, "no job waits for another\n");
}

/// `.REGS`: shows the registers of the open job.
pub fn show_registers(session: &mut Session, timeline: &Timeline)
    ensures says { IfSome (job_of session.old session.old.open) (λ job. Adds session.old.answer session.new.answer
        (registers_words (machine_of (history timeline.now)).world job.shown.places job.shown.number)) }
    ensures same { session.new ≡ record session.old { answer = session.new.answer } }
{
    if let Some(job) = session.open_job() {
        let lines = register_lines(session.alloc, timeline.machine(), &job.shown);
        session.answer.say_made(lines);
    }
}
