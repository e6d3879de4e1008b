//! A script of `lockmon run` with the answers to its lines, with the rule of each refusal, and with the lock calls of its
//! RUN and STEP lines that were refused or that wait, and the waits whose limits ended.
ghost use Rattle.std.specs.Prelude.{◌≡◌, ◌<◌, ◌≤◌, IfErr, IfOk, None, is_none, length};
ghost use Rattle.std.specs.Str.Lines.{lines};
ghost use Rattle.op_script.specs.RunScripts.{line_effect, with_machine};
ghost use Rattle.lockview.specs.Faults.{IsLengthFault, IsLineFault, script_lines_done};
ghost use Rattle.lockview.specs.Rounds.{passed};

use crate::called::{ExplainedCall, explained};
use crate::run_lines::{Repeated, do_line, make_steps, make_tick, repeated_by};
use lock_bars::{MOST_LINES, ScriptError, ScriptLines};
use lock_queue::{LockTable, Refusal};
use op_script::{Config, Machine, RunState, Undone};
use program_shell::PendingText;
use run_events::Fact;
use script_reasons::push_answers;
use shown_bytes::shown_text;
use std::alloc::{AllocError, Global};
use uuo_calls::{BlockRoom, LockService};

/// The most facts that are written of one line.
const MOST_NOTES: usize = 20;

/// The notes on the facts of a line.
#[derive(Drop)]
struct Notes {
    text: PendingText,
    /// How many there are.
    count: usize,
    /// The unit that is counted: steps or ticks.
    unit: &'static str,
}

/// What a call was answered: the code of a refusal, in octal too if that differs, as its AC is mostly shown; or WAIT.
fn say_answer(text: &mut PendingText, refusal: Option<Refusal>) {
    let Some(refusal) = refusal else {
        text.say(", WAIT");
        return;
    };
    let code = refusal.code();
    text.say_number(", CODE ", u64::from(code), "");
    if code > 7 {
        let alloc = text.alloc;
        text.say_made(format!(in alloc; " ({code:o} octal)"));
    }
}

/// Which call was made, what it was answered, and why.
fn say_call(text: &mut PendingText, made: &ExplainedCall) {
    let alloc = text.alloc;
    let function = made.asked.word.left();
    text.say(match made.asked.service {
        LockService::Enq => "ENQ. ",
        LockService::Deq => "DEQ. ",
        LockService::Enqc => "ENQC. ",
    });
    text.say_made(format!(in alloc; "{function:o}"));
    say_answer(text, made.refusal);
    let explanation = &made.explanation;
    text.say_made(format!(in alloc; ": {explanation}"));
}

impl Notes {
    /// No notes yet on what a line has happen.
    fn new(alloc: Global, repeated: Repeated) -> Self {
        Notes {
            text: PendingText::new(alloc),
            count: 0,
            unit: match repeated {
                Repeated::Tick => "tick",
                Repeated::Step | Repeated::Round => "step",
            },
        }
    }

    /// Takes note of a fact of a job; true if it is written.
    fn begin(&mut self, step: u32, job: u8) -> bool {
        self.count = self.count.saturating_add(1);
        if self.count > MOST_NOTES {
            return false;
        }
        self.text.say("    ");
        self.text.say(self.unit);
        self.text.say_number(" ", u64::from(step), "");
        self.text.say_number(", job ", u64::from(job), ": ");
        true
    }

    /// Takes note of the facts of a step or of a tick, which left these locks.
    fn add<L: LockTable>(
        &mut self,
        alloc: Global,
        step: u32,
        facts: Vec<Fact>,
        locks: &L,
    ) -> Result<(), AllocError> {
        for fact in facts {
            match fact {
                Fact::Called(called) => {
                    if let Some(made) = explained(alloc, locks, called)?
                        && self.begin(step, made.job)
                    {
                        say_call(&mut self.text, &made);
                        self.text.end_line();
                    }
                }
                Fact::LimitEnded(job, request) => {
                    if self.begin(step, job) {
                        self.text.say("time limit ended");
                        if let Some(id) = request {
                            self.text
                                .say_number(", request ", u64::from(id.number()), "");
                        }
                        say_answer(&mut self.text, Some(Refusal::TimedOut));
                        self.text.end_line();
                    }
                }
                _ => {}
            }
        }
        Ok(())
    }

    /// Writes them.
    fn say_to(&self, text: &mut PendingText) {
        text.add(self.text.as_bytes());
        if self.count > MOST_NOTES {
            text.say_number("    and ", (self.count - MOST_NOTES) as u64, " more\n");
        }
        if !self.text.is_whole() {
            text.fail();
        }
    }
}

/// Makes the steps or the ticks of a line, and takes note of their facts; gives in how many steps a job ran.
fn note_steps(
    alloc: Global,
    notes: &mut Notes,
    machine: &mut Machine,
    repeated: Repeated,
    count: u32,
) -> Result<u32, AllocError>
    ensures { IfOk result (λ _. machine.new ≡ passed repeated count machine.old) }
{
    let mut room = BlockRoom::new();
    let mut ran: u32 = 0;
    let mut done = 0;
    'steps: while done < count {
        let steps = make_steps(alloc, machine, &mut room, repeated, count - done)?;
        done += steps.made;
        if steps.job.is_some() {
            ran = ran.saturating_add(steps.made);
        }
        notes.add(alloc, done, steps.facts, machine.locks())?;
        let facts = make_tick(alloc, machine, repeated)?;
        notes.add(alloc, done, facts, machine.locks())?;
    }
    Ok(ran)
}

/// Has a line happen, and writes in how many of its steps a job ran, and its facts.
fn explain_steps(
    alloc: Global,
    text: &mut PendingText,
    state: &mut RunState,
    repeated: Repeated,
    count: u32,
) -> Result<(), ScriptError>
    ensures state { IfOk result (λ _. state.new ≡ with_machine state.old (passed repeated count state.old.machine)) }
    ensures fault { IfErr result (λ e. e ≡ ScriptError.Memory) }
{
    let mut notes = Notes::new(alloc, repeated);
    let ran = note_steps(alloc, &mut notes, &mut state.machine, repeated, count)?;
    if repeated == Repeated::Tick {
        text.say("    DONE\n");
    } else {
        text.say_number("    RAN ", u64::from(ran), "");
        text.say_number(" IDLE ", u64::from(count.saturating_sub(ran)), "\n");
    }
    notes.say_to(text);
    Ok(())
}

/// The answers to a line, each on a line of its own, with the rule by which its command is not done, if it is not.
fn answers_of(
    alloc: Global,
    answers: &[u8],
    undone: Option<Undone>,
) -> Result<Vec<u8>, AllocError> {
    let rule = match undone {
        Some(undone) => format!(in alloc; "{undone}")?,
        None => String::new(alloc),
    };
    let mut lines = Vec::new(alloc);
    push_answers(&mut lines, answers, rule.as_str().as_bytes())?;
    Ok(lines)
}

/// Does a line, writes it with its answers, and says whether the script goes on after it.
fn explain_line(
    alloc: Global,
    text: &mut PendingText,
    state: &mut RunState,
    number: usize,
    line: &[u8],
) -> Result<bool, ScriptError>
    requires { 0 < number }
    ensures state { IfOk result (λ _. state.new ≡ (line_effect number state.old line.now).state) }
    ensures goes { IfOk result (λ goes. goes ≡ is_none (line_effect number state.old line.now).ending) }
    ensures fault { IfErr result (λ e. IsLineFault number e) }
{
    text.say_made(shown_text(alloc, line));
    text.end_line();
    if let Some(repetition) = repeated_by(state, line) {
        let (repeated, count) = repetition;
        explain_steps(alloc, text, state, repeated, count)?;
        return Ok(true);
    }
    let mut answers = Vec::new(alloc);
    let end = do_line(alloc, state, number, line, &mut answers)?;
    let lines = answers_of(alloc, answers.as_slice(), end.undone)?;
    text.add(lines.as_slice());
    Ok(end.ending.is_none())
}

/// Adds a script of `lockmon run`, each line with the answers that `lockmon run` gives to it, on a machine of this size. Behind
/// `?REFUSED` stands the rule; below the answer to RUN and STEP stand the lock calls of the jobs' programs that were refused or
/// that wait, each with its reason, and the waits whose limits ended. The script is refused at its first line that is at fault,
/// and where it has more than 10,000 lines.
pub fn explain_run_script(
    alloc: Global,
    config: Config,
    text: &mut PendingText,
    script: &[u8],
) -> Result<(), ScriptError>
    ensures { IfErr result (λ e. IsLengthFault None (script_lines_done config script.now) (length (lines script.now)) e) }
{
    let mut state = RunState::fresh(alloc, config)?;
    let mut lines = ScriptLines::of(script);
    let mut count = 0;
    while let Some(line) = lines.next() {
        if count >= MOST_LINES {
            return Err(ScriptError::TooLong);
        }
        count += 1;
        if !explain_line(alloc, text, &mut state, count, line)? {
            return Ok(());
        }
    }
    if state.source.is_some() {
        return Err(ScriptError::NoEnd(count));
    }
    Ok(())
}
