//! What the commands of a script do to a table.
ghost use Rattle.std.specs.Prelude.{◌≡◌, ℕ, Some, Ok, IsTrue, IfSome, true, false};
ghost use Rattle.queue_script.specs.WellFormed.{is_well_formed};
ghost use Rattle.queue_script.specs.Borrowed.{owned_command};
ghost use Rattle.queue_script.specs.QueueScripts.{effect_of, call_effect, unless_busy};
ghost use Rattle.script_io.specs.declared.endings.Ending.TheVariants as ending;
ghost use Rattle.script_io.specs.declared.endings.SourceFault.{SourceFault};
ghost use Rattle.lock_queue.specs.WellFormed.{is_call};

use lock_queue::{LockCall, LockTable};
use queue_script::Command;
use script_io::Ending;

/// Makes a job's call, unless the job waits.
fn call_unless_busy<L: LockTable>(table: &mut L, job: u8, call: &LockCall)
    requires { IsTrue (is_call job call.now) }
    ensures { L.requests table.new
        ≡ (unless_busy (L.requests table.old) job (call_effect L.REQS (L.requests table.old) job (Ok call.now))).requests }
{
    if !table.is_waiting(job) {
        let _ = table.call(job, call);
    }
}

/// Does to a table what the line of this number asks for, whose command this is. The answer is an ending where the script
/// ends there.
pub fn do_command<L: LockTable>(
    table: &mut L,
    number: usize,
    command: Option<Command<'_>>,
) -> Option<Ending>
    requires { IsTrue (is_well_formed (owned_command command)) }
    ensures requests { (n : ℕ) → L.requests table.new
        ≡ (effect_of L.REQS n (L.requests table.old) (owned_command command.entry)).requests }
    ensures ending { result ≡ (effect_of L.REQS number (L.requests table.old) (owned_command command.entry)).ending }
    ensures ended { IfSome result (λ _. L.requests table.new ≡ L.requests table.old) }
    ensures no_source { (fault : SourceFault) → result ≡ Some (ending.Source fault) → false ≡ true }
{
    let Some(command) = command else {
        return Some(Ending::Script(number as u128));
    };
    match command {
        Command::Quit => return Some(Ending::Done),
        Command::Call(job, call) => call_unless_busy(table, job, call),
        Command::Free(job) => table.release(job),
        Command::Nothing
        | Command::Refused(_, _)
        | Command::Status(_, _)
        | Command::Show
        | Command::Waits => {}
    }
    None
}
