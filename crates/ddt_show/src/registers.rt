//! The registers of a job.
ghost use Rattle.std.specs.Prelude.{◌≡◌, IfOk, Some, string_bytes};
ghost use Rattle.ddt_show.specs.Jobs.{register_line, register_words, registers_words};

use crate::addresses::ShownJob;
use concrete_machine::Machine;
use run_notes::{FlagNames, Reference};
use std::alloc::{AllocError, Global};
use std::fmt;
use word36::Word;

/// An accumulator of a job: its number in octal, in two columns, and its word.
#[derive(Clone, Copy)]
struct Register<'a> {
    machine: &'a Machine,
    /// The number of the job.
    number: u8,
    register: u32,
}

impl fmt::Display for Register<'_> {
    ghost output = { λ r. Some (register_words r.machine.now.world r.number r.register) };

    fn fmt<W: fmt::Write>(&self, f: &mut fmt::Formatter<W>) -> fmt::Result {
        let register = self.register;
        let word = self.machine.peek(self.number, register);
        let word = word.unwrap_or(Word::new(0));
        let blank = if register < 8 { " " } else { "" };
        write!(f, "{blank}{register:o}/ {word}")
    }
}

/// Four accumulators of a job, from one on, in a line.
#[derive(Clone, Copy)]
struct RegisterLine<'a> {
    machine: &'a Machine,
    /// The number of the job.
    number: u8,
    /// The first of them, 12 at most.
    first: u8,
}

impl fmt::Display for RegisterLine<'_> {
    ghost output = { λ l. Some (register_line l.machine.now.world l.number l.first) };

    fn fmt<W: fmt::Write>(&self, f: &mut fmt::Formatter<W>) -> fmt::Result {
        let (machine, number, register) = (self.machine, self.number, u32::from(self.first));
        let one = Register {
            machine,
            number,
            register,
        };
        let two = Register {
            register: register + 1,
            ..one
        };
        let three = Register {
            register: register + 2,
            ..one
        };
        let four = Register {
            register: register + 3,
            ..one
        };
        write!(f, "{one}  {two}  {three}  {four}\n")
    }
}

/// The PC of a job, its flags and its accumulators, four in a line; or that the job is gone.
pub fn register_lines(
    alloc: Global,
    machine: &Machine,
    job: &ShownJob,
) -> Result<String, AllocError>
    ensures { IfOk result (λ text. string_bytes text ≡ registers_words machine.now.world job.now.places job.now.number) }
{
    let number = job.number;
    let Some(view) = machine.job(number) else {
        return format!(in alloc; "job {number} is gone\n");
    };
    let spot = Reference {
        places: &job.places,
        address: view.pc.number(),
    };
    let flags = FlagNames { flags: view.flags };
    let line = RegisterLine {
        machine,
        number,
        first: 0,
    };
    let four = RegisterLine { first: 4, ..line };
    let eight = RegisterLine { first: 8, ..line };
    let twelve = RegisterLine { first: 12, ..line };
    format!(in alloc; "job {number}, PC {spot}, flags {flags}\n{line}{four}{eight}{twelve}")
}
