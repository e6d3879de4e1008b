//! What has happened to a machine, as a list of entries.
ghost use Rattle.std.specs.Prelude.{◌≡◌};
ghost use Rattle.ddt_timeline.specs.Timelines.{answer_to, made, played, ticked_so_often};

use concrete_machine::Machine;
use monitor::{Answer, Event};
use tty_lines::Char7;
use word36::{Address, Image, TAKEN_AT_ONCE, Word};

/// What has happened to a machine: some steps, an event, or a change by a debugger that is no event.
#[derive(Drop)]
pub enum Entry {
    /// So many steps, each followed by a tick.
    Rounds(u32),
    /// A program was logged in at a line.
    Login(u8, Image),
    /// A job was started.
    Start(u8),
    /// A job was continued.
    Continue(u8),
    /// A job was killed.
    Kill(u8),
    /// A character was typed at a line.
    Typed(u8, Char7),
    /// At most 64 characters were taken from a line's output.
    Take(u8),
    /// So many ticks.
    Ticks(u32),
    /// A word was deposited at an address of a job, which is no event. Nothing changes where the job has no word there.
    Deposit(u8, u32, Word),
    /// A job was started at an address.
    StartAt(u8, Address),
    /// An instruction was executed for a job by hand, as if it stood before the one at the job's PC. Nothing changes where the
    /// job is not there, or the processor does not complete it.
    Execute(u8, Word),
}

/// Lets so many ticks go by.
fn tick(machine: &mut Machine, count: u32)
    ensures { machine.new ≡ ticked_so_often count machine.old }
{
    // An event may hold an image, of which these have none: the prover wants its type to be named.
    let _image: Option<&Image> = None;
    for i in 0..count {
        machine.event(&Event::Tick);
    }
}

/// Makes an entry happen, and gives the answer of the machine: `Done` to steps, ticks, a deposit and an instruction.
pub fn perform(machine: &mut Machine, entry: &Entry) -> Answer
    ensures state { machine.new ≡ made machine.old entry.now }
    ensures answer { result ≡ answer_to machine.old entry.now }
{
    let event = match entry {
        Entry::Rounds(count) => {
            machine.steps(*count, true);
            return Answer::Done;
        }
        Entry::Ticks(count) => {
            tick(machine, *count);
            return Answer::Done;
        }
        Entry::Deposit(number, address, word) => {
            machine.deposit(*number, *address, *word);
            return Answer::Done;
        }
        Entry::StartAt(number, address) => return machine.start_at(*number, *address),
        Entry::Execute(number, word) => {
            machine.execute(*number, *word);
            return Answer::Done;
        }
        Entry::Login(line, image) => Event::Login(*line, image),
        Entry::Start(number) => Event::Start(*number),
        Entry::Continue(number) => Event::Continue(*number),
        Entry::Kill(number) => Event::Kill(*number),
        Entry::Typed(line, character) => Event::Typed(*line, *character),
        Entry::Take(line) => Event::Take(*line, TAKEN_AT_ONCE),
    };
    machine.event(&event)
}

/// Makes entries happen one after the other.
pub fn play(machine: &mut Machine, entries: &[Entry])
    ensures { machine.new ≡ played entries.now machine.old }
{
    for i in 0..entries.len() {
        perform(machine, &entries[i]);
    }
}
