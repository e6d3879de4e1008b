//! The table of monitor calls: which call is which.

ghost use Rattle.std.specs.Prelude.{◌≡◌};
ghost use Rattle.uuo_calls.specs.Services.{calli_of, exit_of, service_of, ttcall_of};

use ka_state::{Accumulator, CallKind};
use word36::Address;

/// What a program reads from its line.
#[derive(Clone, Copy, Debug, PartialEq, Eq)]
pub enum Awaited {
    /// Any character.
    Character,
    /// A character of a whole line.
    Line,
}

/// The monitor calls, by their names in the TOPS-10 Monitor Calls Manual; `Unlisted` for all others.
#[derive(Clone, Copy, Debug, PartialEq, Eq)]
pub enum Service {
    /// The job's requests for locks leave, and it has no interrupt vector.
    Reset,
    /// The job gets more blocks of core, or fewer.
    Core,
    /// EXIT with AC field 0.
    Exit,
    /// EXIT with AC field 1.
    Monrt,
    /// The job ends.
    Logout,
    /// The time of day in milliseconds.
    Mstime,
    /// The number of the job.
    Pjob,
    /// The job waits for so many seconds.
    Sleep,
    /// PIINI.: the job gets an interrupt vector.
    Piini,
    /// PISYS.: interrupts are put on or off.
    Pisys,
    /// DEBRK.: the end of an interrupt.
    Debrk,
    /// ENQ.
    Enq,
    /// DEQ.
    Deq,
    /// ENQC.
    Enqc,
    /// DATRD.: a shared word is read.
    Datrd,
    /// DATWR.: a shared word is written.
    Datwr,
    /// INCHRW, INCHRS, INCHWL and INCHSL: what is read, and whether the call skips where that is there and
    /// goes on where it is not, in place of a wait.
    Input(Awaited, bool),
    /// A character goes out.
    Outchr,
    /// A text goes out.
    Outstr,
    /// The input of the job's line is emptied.
    Clrbfi,
    /// The output of the job's line is emptied.
    Clrbfo,
    /// SKPINC and SKPINL.
    Skpin(Awaited),
    /// None of these.
    Unlisted,
}

/// The EXIT of this AC field.
fn exit_of(ac: Accumulator) -> Service
    ensures { result ≡ exit_of ac }
{
    match ac.number() {
        0 => Service::Exit,
        1 => Service::Monrt,
        _ => Service::Unlisted,
    }
}

/// The CALLI of this AC field and number.
fn calli_of(ac: Accumulator, e: Address) -> Service
    ensures { result ≡ calli_of ac e }
{
    match e.number() {
        0 => Service::Reset,
        0o11 => Service::Core,
        0o12 => exit_of(ac),
        0o17 => Service::Logout,
        0o23 => Service::Mstime,
        0o30 => Service::Pjob,
        0o31 => Service::Sleep,
        0o135 => Service::Piini,
        0o136 => Service::Pisys,
        0o137 => Service::Debrk,
        0o151 => Service::Enq,
        0o152 => Service::Deq,
        0o153 => Service::Enqc,
        0o777_776 => Service::Datrd,
        0o777_775 => Service::Datwr,
        _ => Service::Unlisted,
    }
}

/// The TTCALL of this function.
fn ttcall_of(ac: Accumulator) -> Service
    ensures { result ≡ ttcall_of ac }
{
    match ac.number() {
        0 => Service::Input(Awaited::Character, false),
        1 => Service::Outchr,
        2 => Service::Input(Awaited::Character, true),
        3 => Service::Outstr,
        4 => Service::Input(Awaited::Line, false),
        5 => Service::Input(Awaited::Line, true),
        0o11 => Service::Clrbfi,
        0o12 => Service::Clrbfo,
        0o13 => Service::Skpin(Awaited::Character),
        0o14 => Service::Skpin(Awaited::Line),
        _ => Service::Unlisted,
    }
}

/// The call of an operation with this AC field and this E: a CALLI is known by its E, a TTCALL by its AC field.
pub fn service_of(kind: CallKind, ac: Accumulator, e: Address) -> Service
    ensures { result ≡ service_of kind ac e }
{
    match kind {
        CallKind::Calli => calli_of(ac, e),
        CallKind::Ttcall => ttcall_of(ac),
    }
}
