//! A script of `lockmon queue` with the answers to its lines, and with the reason of each refusal and each wait.
ghost use Rattle.std.specs.Prelude.{◌≡◌, ◌<◌, ◌++◌, ◌∷◌, [], IfOk, OnOk, map, option_map};
ghost use Rattle.std.specs.Str.Lines.{lines};
ghost use Rattle.word36.specs.declared.sizes.TheConstants.{MOST_REQUESTS};
ghost use Rattle.queue_script.specs.Borrowed.{owned_command};
ghost use Rattle.script_reasons.specs.QueueLines.{explanation_in, line_explanations, explanation_of};
ghost use Rattle.script_reasons.specs.Explanations.{as_explanation, judged};

use crate::explanations::{Explanation, judge};
use lock_bars::{MOST_LINES, ScriptError, ScriptLines, do_command};
use lock_queue::{LockCall, LockTable};
use lock_table::ProgramTable;
use queue_script::{CallRoom, Command, QueueService, read_command};
use script_io::{Ending, LineService};
use std::alloc::{AllocError, Global};
use wait_graph::requests_in;

/// A line that was done.
#[derive(Drop)]
pub struct ExplainedLine {
    /// What `lockmon queue` answers to it.
    pub answers: Vec<u8>,
    /// Why what it asks for is refused, or waits.
    pub explanation: Option<Explanation>,
}

/// Why a table does not do a job's call, or does not grant it, at once.
fn explanation_of_call<L: LockTable>(
    alloc: Global,
    table: &L,
    job: u8,
    call: &LockCall,
) -> Result<Option<Explanation>, AllocError>
    ensures { IfOk result (λ explanation. option_map as_explanation explanation ≡ judged (L.requests table.now) job call.now) }
{
    let requests = requests_in(alloc, table)?;
    judge(alloc, requests.as_slice(), job, call)
}

/// Why a table does not do a command, or does not grant it, at once.
fn explanation_of<L: LockTable>(
    alloc: Global,
    table: &L,
    command: Option<Command<'_>>,
) -> Result<Option<Explanation>, AllocError>
    ensures { IfOk result (λ explanation. option_map as_explanation explanation
        ≡ explanation_of (L.requests table.now) (owned_command command.entry)) }
{
    let Some(command) = command else {
        return Ok(None);
    };
    match command {
        Command::Call(job, call) => {
            if table.is_waiting(job) {
                return Ok(Some(Explanation::Busy(job)));
            }
            explanation_of_call(alloc, table, job, call)
        }
        Command::Refused(job, refusal) => Ok(Some(if table.is_waiting(job) {
            Explanation::Busy(job)
        } else {
            Explanation::Wrong(refusal)
        })),
        Command::Status(_, Err(refusal)) => Ok(Some(Explanation::Wrong(refusal))),
        _ => Ok(None),
    }
}

/// Adds a line, with the explanation of its command on a table, and with what `lockmon queue` answers to it.
fn add_line<L: LockTable>(
    alloc: Global,
    all: &mut Vec<ExplainedLine>,
    table: &L,
    service: &mut QueueService<L>,
    number: usize,
    line: &[u8],
    command: Option<Command<'_>>,
) -> Result<(), AllocError>
    requires { 0 < number }
    ensures { OnOk result (map explanation_in all.new.items
        ≡ map explanation_in all.old.items ++ explanation_of (L.requests table.now) (owned_command command.entry) ∷ []) }
{
    let mut answers = Vec::new(alloc);
    let _ = service.take_line(number as u128, line, &mut answers)?;
    let explanation = explanation_of(alloc, table, command)?;
    all.push(ExplainedLine {
        answers,
        explanation,
    })?;
    Ok(())
}

/// Does the lines of a script on two tables: the service answers by one of them, and the other explains.
fn watch_lines<L: LockTable>(
    alloc: Global,
    table: &mut L,
    service: &mut QueueService<L>,
    script: &[u8],
) -> Result<Vec<ExplainedLine>, ScriptError>
    requires size { L.REQS ≡ MOST_REQUESTS }
    requires empty { L.requests table.old ≡ [] }
    ensures { IfOk result (λ all. map explanation_in all.items ≡ line_explanations script.now) }
{
    let mut room = CallRoom::new();
    let mut all = Vec::new(alloc);
    let mut lines = ScriptLines::of(script);
    let mut count = 0;
    while let Some(line) = lines.next() {
        if count >= MOST_LINES {
            return Err(ScriptError::TooLong);
        }
        count += 1;
        let command = read_command(&mut room, line);
        add_line(alloc, &mut all, table, service, count, line, command)?;
        match do_command(table, count, command) {
            None => {}
            Some(Ending::Done) => return Ok(all),
            Some(Ending::Script(_) | Ending::Source(_)) => return Err(ScriptError::Line(count)),
        }
    }
    Ok(all)
}

/// The lines of a script as `explain_lines` gives them, by tables of this kind.
fn explain_on<L: LockTable>(alloc: Global, script: &[u8]) -> Result<Vec<ExplainedLine>, ScriptError>
    requires { L.REQS ≡ MOST_REQUESTS }
    ensures { IfOk result (λ all. map explanation_in all.items ≡ line_explanations script.now) }
{
    let mut table = L::new(alloc)?;
    let mut service = QueueService::new(L::new(alloc)?);
    watch_lines(alloc, &mut table, &mut service, script)
}

/// The lines of a script of `lockmon queue`, up to its end, each with the answers that `lockmon queue` gives, and with the
/// explanation of a refusal or a wait, behind the requests that the lines before it have left. A script is refused at its
/// first line that is not in the grammar, and where it has more than 10,000 lines.
pub fn explain_lines(alloc: Global, script: &[u8]) -> Result<Vec<ExplainedLine>, ScriptError>
    ensures { IfOk result (λ all. map explanation_in all.items ≡ line_explanations script.now) }
{
    explain_on::<ProgramTable>(alloc, script)
}
