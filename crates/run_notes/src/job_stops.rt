//! Why jobs are stopped, and why they are not logged in, in words.
ghost use Rattle.std.specs.Prelude.{◌≡◌};
ghost use Rattle.run_notes.specs.Standings.{login_refusal_words, stop_words};

use job_sched::Stop;
use ka_state::StopReason;
use monitor::RefusedEvent;

/// Why a job is stopped, in words for a person.
pub fn stop_text(stop: Stop) -> &'static str
    ensures { result.now ≡ stop_words stop }
{
    match stop {
        Stop::Loaded => "not started",
        Stop::Exit => "EXIT",
        Stop::Monitor => "EXIT 1",
        Stop::Typed => "stopped by CTRL-C",
        Stop::Fault(StopReason::IllegalAddress) => "illegal address",
        Stop::Fault(StopReason::IllegalInstruction) => "illegal instruction",
        Stop::Fault(StopReason::Halt) => "HALT",
        Stop::Fault(StopReason::Pushdown) => "pushdown list ran over",
        Stop::Fault(StopReason::AddressChain) => "address chain without end",
    }
}

/// Why a program cannot be logged in or started, in words for a person.
pub fn login_refusal_text(refusal: RefusedEvent) -> &'static str
    ensures { result.now ≡ login_refusal_words refusal }
{
    match refusal {
        RefusedEvent::NoCore => "it takes more blocks of core than are free",
        RefusedEvent::BadImage => "it has no words",
        RefusedEvent::NoLine => "there is no terminal line for it",
        RefusedEvent::LineBusy => "its terminal line is taken",
        RefusedEvent::NoJobNumber => "all job numbers are taken",
        RefusedEvent::NoSuchJob => "there is no such job",
        RefusedEvent::NotStopped => "it runs already",
        RefusedEvent::Full => "its terminal line is full",
    }
}
