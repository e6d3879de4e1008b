//! The lines of a script of `lockmon run`, each done as `lockmon run` does it.
ghost use Rattle.std.specs.Prelude.{◌≡◌, ◌<◌, ◌≤◌, ◌+◌, ℕ, [], IfErr, IfOk};
ghost use Rattle.op_script.specs.RunScripts.{end_of, line_effect};
ghost use Rattle.run_events.specs.Runs.{facts_of_round};
ghost use Rattle.lockview.specs.Faults.{IsLineFault};
ghost use Rattle.lockview.specs.Rounds.{passed, repeated_by, step_facts_of, stepped, tick_facts_of, tick_of};

use lock_bars::{ScriptError, SourceFault};
use op_script::{LineEnd, Machine, RunState, obey};
use run_commands::{Command, read_command};
use run_events::{Fact, RoundsMade, rounds_facts, tick_facts};
use script_io::{Ending, is_allowed};
use std::alloc::{AllocError, Global};
use uuo_calls::BlockRoom;
use word36::Address;

/// Does a line, and adds what `lockmon run` answers. A line that is not in the grammar is an error, and so is a source that is
/// not assembled.
pub fn do_line(
    alloc: Global,
    state: &mut RunState,
    number: usize,
    line: &[u8],
    answers: &mut Vec<u8>,
) -> Result<LineEnd, ScriptError>
    requires { 0 < number }
    ensures state { IfOk result (λ _. state.new ≡ (line_effect number state.old line.now).state) }
    ensures end { IfOk result (λ end. end ≡ end_of (line_effect number state.old line.now)) }
    ensures fault { IfErr result (λ e. IsLineFault number e) }
{
    let end = obey(alloc, state, number as u128, line, answers)?;
    match end.ending {
        Some(Ending::Script(_)) => Err(ScriptError::Line(number)),
        Some(Ending::Source(fault)) => Err(ScriptError::Source(SourceFault {
            begins: usize::try_from(fault.before).unwrap_or(usize::MAX),
            line: fault.line,
            code: fault.code,
        })),
        Some(Ending::Done) | None => Ok(end),
    }
}

/// What a line has happen many times.
#[derive(Clone, Copy, PartialEq, Eq)]
pub enum Repeated {
    /// STEP: a step.
    Step,
    /// RUN: a round, which is a step and a tick.
    Round,
    /// TICK: a tick.
    Tick,
}

/// What a line has happen many times, and how many, if it is no line of a source.
pub fn repeated_by(state: &RunState, line: &[u8]) -> Option<(Repeated, u32)>
    ensures { result ≡ repeated_by state.now.source line.now }
{
    if state.source.is_some() || !is_allowed(line) {
        return None;
    }
    match read_command(line)? {
        Command::Step(count) => Some((Repeated::Step, count)),
        Command::Run(count) => Some((Repeated::Round, count)),
        Command::Tick(count) => Some((Repeated::Tick, count)),
        _ => None,
    }
}

/// Makes the steps of 1 to `most` rounds at once, and the ticks between them: up to the first round that may have a fact. The
/// facts of the last step are with them.
pub fn make_steps(
    alloc: Global,
    machine: &mut Machine,
    room: &mut BlockRoom,
    repeated: Repeated,
    most: u32,
) -> Result<RoundsMade, AllocError>
    requires { 1 ≤ most }
    ensures least { IfOk result (λ r. 1 ≤ r.made) }
    ensures most { IfOk result (λ r. r.made ≤ most) }
    ensures state { IfOk result (λ r. machine.new ≡ stepped repeated r.made machine.old) }
    ensures facts { IfOk result (λ r. r.facts.items ≡ step_facts_of repeated r.made machine.old) }
    ensures quiet { IfOk result (λ r. (k : ℕ) → k + 1 < r.made → facts_of_round (passed repeated k machine.old) ≡ []) }
{
    match repeated {
        Repeated::Round => {
            let rounds = rounds_facts(alloc, machine, room, most)?;
            Ok(rounds)
        }
        Repeated::Step => {
            let step = rounds_facts(alloc, machine, room, 1)?;
            Ok(step)
        }
        Repeated::Tick => Ok(RoundsMade {
            made: 1,
            job: None,
            has_called: false,
            at: Address::new(0),
            facts: Vec::new(alloc),
        }),
    }
}

/// Makes the tick after these steps, if there is one, and gives its facts.
pub fn make_tick(
    alloc: Global,
    machine: &mut Machine,
    repeated: Repeated,
) -> Result<Vec<Fact>, AllocError>
    ensures state { IfOk result (λ _. machine.new ≡ tick_of repeated machine.old) }
    ensures facts { IfOk result (λ facts. facts.items ≡ tick_facts_of repeated machine.old) }
{
    match repeated {
        Repeated::Step => Ok(Vec::new(alloc)),
        Repeated::Round => tick_facts(alloc, machine),
        Repeated::Tick => tick_facts(alloc, machine),
    }
}
