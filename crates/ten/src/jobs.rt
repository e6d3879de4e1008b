//! The jobs of a run.
ghost use Rattle.std.specs.Prelude.{◌≡◌, [], codes, if◌then◌else◌};
ghost use Rattle.machine.specs.Views.{job_view};
ghost use Rattle.ten.specs.Jobs.{IsEndLine, IsIllegalText, IsInBrackets, IsSpotText, StandsSo, is_waiting, place_of, standing_in};
ghost use Rattle.ten.specs.Reports.{AddsSome};

use crate::terminal::Terminal;
use concrete_machine::Machine;
use job_sched::{Stop, Wait};
use ka_state::StopReason;
use program_shell::PendingText;
use run_facts::Standing;
use run_notes::{IllegalText, TracedJob, snapshot_of, standing_text};
use word36::Address;

/// A job of a run.
#[derive(Drop)]
pub struct RunningJob {
    /// What is reported of its steps.
    pub traced: TracedJob,
    /// Its terminal line.
    pub terminal: Terminal,
    /// How many steps it has run.
    pub steps: u64,
}

/// What comes after the words on how a job ended: a comma, if it waits.
fn comma_after(standing: Standing) -> &'static str
    ensures { result.now ≡ if is_waiting standing then codes "," else [] }
{
    match standing {
        Standing::Goes(wait) if wait != Wait::None => ",",
        _ => "",
    }
}

/// Reports an address of a job's program.
fn report_spot(job: &TracedJob, place: Address, errors: &mut PendingText)
    ensures { AddsSome errors.old errors.new (IsSpotText job.now.places place) }
{
    let alloc = errors.alloc;
    let spot = job.spot(place);
    errors.say(" at ");
    errors.say_made(format!(in alloc; "{spot}"));
}

impl RunningJob {
    /// The address where it stands: of its next instruction where it still runs or was stopped by CTRL-C, and else of its last.
    fn place(&self, machine: &Machine, standing: Standing) -> Address
        ensures { result ≡ place_of self.now.traced.last (job_view machine.now.world self.now.traced.number) standing }
    {
        let last = self.traced.last;
        match standing {
            Standing::Goes(Wait::None) | Standing::Stopped(Stop::Typed) => {
                machine.job(self.traced.number).map_or(last, |view| view.pc)
            }
            _ => last,
        }
    }

    /// Reports how it stands, and at which address; where it was stopped at an illegal instruction, which that is.
    fn report_standing(&self, machine: &Machine, standing: Standing, errors: &mut PendingText)
        ensures { standing ≡ standing_in machine.now self.now
            → AddsSome errors.old errors.new (StandsSo machine.now self.now standing) }
    {
        errors.say_made(standing_text(errors.alloc, machine, self.traced.number));
        errors.say(comma_after(standing));
        let place = self.place(machine, standing);
        report_spot(&self.traced, place, errors);
        self.report_illegal(machine, standing, place, errors);
    }

    /// Reports which instruction it was, if the job was stopped at an illegal one.
    fn report_illegal(
        &self,
        machine: &Machine,
        standing: Standing,
        place: Address,
        errors: &mut PendingText,
    )
        ensures { AddsSome errors.old errors.new
            (IsIllegalText machine.now.world self.now.traced.places self.now.traced.number place standing) }
    {
        match standing {
            Standing::Stopped(Stop::Fault(StopReason::IllegalInstruction)) => {
                self.report_instruction(machine, place, errors);
            }
            _ => {}
        }
    }

    /// Reports the instruction at an address, between round brackets.
    fn report_instruction(&self, machine: &Machine, place: Address, errors: &mut PendingText)
        ensures { AddsSome errors.old errors.new
            (IsInBrackets machine.now.world self.now.traced.places self.now.traced.number place) }
    {
        let alloc = errors.alloc;
        let snapshot = snapshot_of(machine, self.traced.number, place);
        let illegal = IllegalText {
            places: &self.traced.places,
            word: snapshot.executed,
        };
        errors.say(" (");
        errors.say_made(format!(in alloc; "{illegal}"));
        errors.say(")");
    }

    /// Reports how it stands, in a line that begins with its number and its source's file: `job 1, FILE: HALT at
    /// LOOP+3, 12 steps`.
    pub fn report_end(
        &self,
        machine: &Machine,
        file: &str,
        standing: Standing,
        errors: &mut PendingText,
    )
        ensures { standing ≡ standing_in machine.now self.now
            → AddsSome errors.old errors.new (IsEndLine machine.now self.now file.now standing) }
    {
        errors.say_number("job ", u64::from(self.traced.number), ", ");
        errors.say(file);
        errors.say(": ");
        self.report_standing(machine, standing, errors);
        let unit = if self.steps == 1 {
            " step\n"
        } else {
            " steps\n"
        };
        errors.say_number(", ", self.steps, unit);
    }
}
