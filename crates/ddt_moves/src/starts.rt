//! Jobs that are started or continued.

ghost use Rattle.std.specs.Prelude.{◌≡◌, ◌<◌, ◌∷◌, [], IfOk, IfSome, None, OnOk, false, length, position, true};
ghost use Rattle.machine.specs.Views.{job_view};
ghost use Rattle.ddt_timeline.specs.Histories.{done, machine_of};
ghost use Rattle.ddt_timeline.specs.Views.{history};
ghost use Rattle.ddt_timeline.specs.declared.entries.Entry.TheVariants.{Start};
ghost use Rattle.ddt_moves.specs.Starts.{begun, cause_in, gone_on, holds_at_start, interrupted, is_loaded, is_some_started, is_stopped};
ghost use Rattle.ddt_moves.specs.Starts.{is_there, jobs_started};
ghost use Rattle.ddt_moves.specs.Starts.{may_continue};
ghost use Rattle.ddt_moves.specs.OtherEnds.{counted_cause, ends_for, if_breakpoint};
ghost use Rattle.ddt_moves.specs.Visits.{counters, first_due_at_start};

use crate::lock_watch::first_standing;
use crate::run_stops::StopCause;
use crate::stop_lists::{Breakpoint, StopList};
use crate::visits::{counted_cause, counters_of, stands};
use concrete_machine::Machine;
use ddt_timeline::{Entry, Timeline};
use job_sched::Stop;
use machine::INTERRUPT_CHARACTER;
use std::alloc::AllocError;
use tty_lines::Char7;
use word36::Word;

/// Whether a job was not started yet.
fn is_loaded(machine: &Machine, number: u8) -> bool
    ensures { result ≡ is_loaded (job_view machine.now.world number) }
{
    match machine.job(number) {
        Some(view) => matches!(view.stop, Some(Stop::Loaded)),
        None => false,
    }
}

/// Whether a job is stopped.
pub fn is_stopped(machine: &Machine, number: u8) -> bool
    ensures { result ≡ is_stopped (job_view machine.now.world number) }
{
    match machine.job(number) {
        Some(view) => view.stop.is_some(),
        None => false,
    }
}

/// Whether CTRL-C or EXIT 1 stopped a job, so that it can go on.
fn may_continue(machine: &Machine, number: u8) -> bool
    ensures { result ≡ may_continue (job_view machine.now.world number) }
{
    match machine.job(number) {
        Some(view) => matches!(view.stop, Some(Stop::Typed | Stop::Monitor)),
        None => false,
    }
}

/// Starts a job.
fn start(timeline: &mut Timeline, number: u8) -> Result<(), AllocError>
    ensures { OnOk result (history timeline.new ≡ done (history timeline.old) (Start number ∷ [])) }
{
    timeline.make(Entry::Start(number))?;
    Ok(())
}

/// Stops a job that goes on or waits, by CTRL-C at its line. False where the job is not there.
pub fn interrupt(timeline: &mut Timeline, number: u8) -> Result<bool, AllocError>
    ensures there { IfOk result (λ there. there ≡ is_there (history timeline.old) number) }
    ensures happened { OnOk result (history timeline.new ≡ interrupted number (history timeline.old)) }
{
    let Some(view) = timeline.machine().job(number) else {
        return Ok(false);
    };
    if view.stop.is_none() {
        let control_c = Char7::new(INTERRUPT_CHARACTER);
        timeline.make(Entry::Typed(view.line.number(), control_c))?;
    }
    Ok(true)
}

/// Starts the jobs at the first `lines` terminal lines that were not started yet. Where there is none, it starts the open job
/// again, which CTRL-C stops before; false where that one is gone.
pub fn start_jobs(timeline: &mut Timeline, lines: u8, open: u8) -> Result<bool, AllocError>
    ensures happened { OnOk result (history timeline.new ≡ jobs_started lines «open» (history timeline.old)) }
    ensures any { IfOk result (λ any. any ≡ is_some_started lines «open» (history timeline.old)) }
{
    let mut any = false;
    for number in 1..lines.saturating_add(1) {
        if is_loaded(timeline.machine(), number) {
            start(timeline, number)?;
            any = true;
        }
    }
    if !any && interrupt(timeline, open)? {
        start(timeline, open)?;
        any = true;
    }
    Ok(any)
}

/// Continues a job that CTRL-C or EXIT 1 stopped; false where nothing is to be done.
pub fn go_on(timeline: &mut Timeline, number: u8) -> Result<bool, AllocError>
    ensures went { IfOk result (λ went. went ≡ may_continue (job_view (machine_of (history timeline.old)).world number)) }
    ensures happened { OnOk result (history timeline.new ≡ gone_on number (history timeline.old)) }
{
    if !may_continue(timeline.machine(), number) {
        return Ok(false);
    }
    timeline.make(Entry::Continue(number))?;
    Ok(true)
}

/// Starts a job that was not started yet, or continues one that CTRL-C or EXIT 1 stopped.
pub fn begin(timeline: &mut Timeline, number: u8) -> Result<(), AllocError>
    ensures { OnOk result (history timeline.new ≡ begun number (history timeline.old)) }
{
    if is_loaded(timeline.machine(), number) {
        return start(timeline, number);
    }
    go_on(timeline, number)?;
    Ok(())
}

/// Whether a breakpoint is set for one of the jobs from `first` to `last` and stops each time, and its job stands there.
fn holds_at_start(machine: &Machine, slot: &Option<Breakpoint>, first: u8, last: u8) -> bool
    ensures { result ≡ holds_at_start machine.now first last slot.now }
{
    match slot {
        Some(one) => {
            let is_begun = first <= one.job && one.job <= last && !one.counts();
            is_begun && stands(machine, one)
        }
        None => false,
    }
}

/// The slot of the first breakpoint at which a job from `first` to `last` stands.
fn first_at_start(
    machine: &Machine,
    slots: &[Option<Breakpoint>],
    first: u8,
    last: u8,
) -> Option<usize>
    ensures { result ≡ position (holds_at_start machine.now first last) slots.now }
{
    for (i, slot) in slots.iter().enumerate() {
        if holds_at_start(machine, slot, first, last) {
            return Some(i);
        }
    }
    None
}

/// Why a run ends at the breakpoint in a slot.
fn cause_in(slots: &[Option<Breakpoint>], slot: usize) -> Option<StopCause>
    requires { slot < length slots.now }
    ensures { result ≡ cause_in slots.now slot }
{
    // A cause may hold a word: the prover wants its type to be named.
    let _word: Option<Word> = None;
    match &slots[slot] {
        Some(one) => Some(StopCause::Breakpoint(slot + 1, one.job, one.address.number())),
        None => None,
    }
}

/// Why a run makes no step where the jobs from `first` to `last` were started or continued just now, and none of them stands at a
/// breakpoint that does not count: one stands at a breakpoint that counts, or before a call on the lock of `.BREAK LOCK`.
fn other_cause(
    timeline: &Timeline,
    first: u8,
    last: u8,
    list: &StopList,
) -> Result<Option<StopCause>, AllocError>
    ensures ends { IfOk result (λ cause. ends_for list.now (machine_of (history timeline.now)) [] cause ≡ true) }
    ensures counted { IfOk result (λ cause.
        IfSome (first_due_at_start first last (counters (history timeline.now) list.now))
        (λ slot. cause ≡ counted_cause list.now (machine_of (history timeline.now)) slot)) }
    ensures other { IfOk result (λ cause.
        first_due_at_start first last (counters (history timeline.now) list.now) ≡ None → if_breakpoint cause ≡ None) }
{
    let machine = timeline.machine();
    for counter in counters_of(timeline, list)?.as_slice() {
        if counter.ends_start(first, last) {
            return Ok(counted_cause(machine, list, counter.slot()));
        }
    }
    Ok(first_standing(machine, first, last, list))
}

/// Why a run makes no step where the jobs from `first` to `last` were started or continued just now: one of them stands at a
/// breakpoint, or before a call on the lock of `.BREAK LOCK`. The breakpoints that do not count come first, in their order.
pub fn cause_at_start(
    timeline: &Timeline,
    first: u8,
    last: u8,
    list: &StopList,
) -> Result<Option<StopCause>, AllocError>
    ensures breakpoint { IfOk result (λ cause.
        IfSome (position (holds_at_start (machine_of (history timeline.now)) first last) list.now.breakpoints)
        (λ slot. cause ≡ cause_in list.now.breakpoints slot)) }
    ensures besides { IfOk result (λ cause.
        position (holds_at_start (machine_of (history timeline.now)) first last) list.now.breakpoints ≡ None
        → ends_for list.now (machine_of (history timeline.now)) [] cause ≡ true) }
    ensures counted { IfOk result (λ cause.
        position (holds_at_start (machine_of (history timeline.now)) first last) list.now.breakpoints ≡ None
        → IfSome (first_due_at_start first last (counters (history timeline.now) list.now))
        (λ slot. cause ≡ counted_cause list.now (machine_of (history timeline.now)) slot)) }
    ensures other { IfOk result (λ cause.
        position (holds_at_start (machine_of (history timeline.now)) first last) list.now.breakpoints ≡ None
        → first_due_at_start first last (counters (history timeline.now) list.now) ≡ None → if_breakpoint cause ≡ None) }
{
    match first_at_start(timeline.machine(), &list.breakpoints, first, last) {
        Some(slot) => Ok(cause_in(&list.breakpoints, slot)),
        None => other_cause(timeline, first, last, list),
    }
}
