//! What is reported of a source.

ghost use Rattle.std.specs.Prelude.{◌≡◌, ◌↔◌, None, Some, IsSome, IsTrue, OnOk};
ghost use Rattle.macro_state.specs.Faults.{is_told_at, is_used_at};

use crate::state::{Assembly, OtherUse};
use left_out::Reason;
use macro_faults::{Failure, Fault, Report};
use macro_names::Name;
use macro_stream::{Limit, Place, Stop};
use std::alloc::AllocError;

/// Whether a fault of this place is reported already.
fn is_reported(faults: &[Report], place: Place) -> bool
    ensures { result ≡ is_told_at faults.now place }
{
    for report in faults {
        if report.place.line == place.line && report.place.column == place.column {
            return true;
        }
    }
    false
}

/// Whether a use of a name at this place is kept already.
fn is_used(others: &[OtherUse], place: Place, name: Name) -> bool
    ensures { result ≡ is_used_at others.now place name.sixbit }
{
    for other in others {
        if other.name.sixbit() == name.sixbit()
            && other.place.line == place.line
            && other.place.column == place.column
        {
            return true;
        }
    }
    false
}

impl Assembly {
    /// Whether the statement is not carried out.
    pub fn is_failed(&self) -> bool
        ensures { IsTrue result ↔ IsSome self.now.failure }
    {
        self.failure.is_some()
    }

    /// Keeps why the statement is not carried out. The first reason counts, but for memory.
    fn give_up(&mut self, failure: Failure)
        ensures first { IsSome self.old.failure → self.new.failure ≡ self.old.failure }
        ensures failed { self.new.failure ≡ None → ⊥ }
        ensures numbers { self.new.numbers ≡ self.old.numbers }
    {
        if self.failure.is_none() {
            self.failure = Some(failure);
        }
    }

    /// There is no memory for the statement, which goes before all other reasons.
    pub fn out_of_memory(&mut self)
        ensures failed { self.new.failure ≡ None → ⊥ }
        ensures numbers { self.new.numbers ≡ self.old.numbers }
        ensures faults { self.new.faults ≡ self.old.faults }
        ensures marked { self.new.told ≡ self.old.told }
        ensures others { self.new.others ≡ self.old.others }
    {
        self.failure = Some(Failure::Memory);
    }

    /// Takes note of whether there was memory.
    pub fn kept(&mut self, done: bool)
        ensures memory { self.new.failure ≡ None → IsTrue done × (self.old.failure ≡ None) }
        ensures marked { self.new.told ≡ self.old.told }
        ensures numbers { self.new.numbers ≡ self.old.numbers }
        ensures faults { self.new.faults ≡ self.old.faults }
        ensures others { self.new.others ≡ self.old.others }
    {
        if !done {
            self.out_of_memory()
        }
    }

    /// A fault at a place.
    pub fn fail(&mut self, place: Place, fault: Fault)
        ensures failed { self.new.failure ≡ None → ⊥ }
        ensures numbers { self.new.numbers ≡ self.old.numbers }
    {
        self.give_up(Failure::of(place, fault))
    }

    /// A fault at the statement.
    pub fn fail_statement(&mut self, fault: Fault)
        ensures failed { self.new.failure ≡ None → ⊥ }
        ensures numbers { self.new.numbers ≡ self.old.numbers }
    {
        self.give_up(Failure::of(self.statement, fault))
    }

    /// A fault at what is next.
    pub fn fail_here(&mut self, fault: Fault)
        ensures failed { self.new.failure ≡ None → ⊥ }
        ensures numbers { self.new.numbers ≡ self.old.numbers }
    {
        if self.failure.is_none() {
            self.failure = Some(Failure::of(self.stream.place(), fault));
        }
    }

    /// A stop of the stream.
    pub fn stop(&mut self, stop: Stop) {
        match Failure::of_stop(self.stream.place(), stop) {
            Failure::Memory => self.out_of_memory(),
            failure => self.give_up(failure),
        }
    }

    /// What the stream gave; else its stop at what is next.
    pub fn taken<T>(&mut self, outcome: Result<T, Stop>) -> Option<T> {
        match outcome {
            Ok(value) => Some(value),
            Err(stop) => {
                self.stop(stop);
                None
            }
        }
    }

    /// The statement is not carried out, for a fault of it that is told.
    pub fn fail_told(&mut self)
        ensures failed { self.new.failure ≡ None → ⊥ }
        ensures numbers { self.new.numbers ≡ self.old.numbers }
    {
        self.give_up(Failure::Told)
    }

    /// Tells of a fault behind which the statement is read on, so that what else is wrong with it is told too.
    pub fn tell(&mut self, place: Place, fault: Fault)
        ensures told { self.new.failure ≡ None → IsTrue (is_told_at self.new.faults.items place) }
        ensures marked { self.new.failure ≡ None → IsTrue self.new.told }
        ensures failed { self.new.failure ≡ None → self.old.failure ≡ None }
        ensures numbers { self.new.numbers ≡ self.old.numbers }
    {
        if self.is_failed() {
            return;
        }
        self.told = true;
        let done = self.report(Report { place, fault }).is_ok();
        self.kept(done);
    }

    /// A value that does not fit. In the first pass it is one that is not known, since names may still change.
    pub fn misfit(&mut self, place: Place, fault: Fault)
        ensures told { self.old.pass ≡ 2 → self.new.failure ≡ None → IsTrue (is_told_at self.new.faults.items place) }
        ensures marked { self.old.pass ≡ 2 → self.new.failure ≡ None → IsTrue self.new.told }
        ensures deferred { (self.old.pass ≡ 2 → ⊥) → self.new.failure ≡ None → self.new.deferred ≡ Some (record { place = place; fault = fault }) }
        ensures kept { (self.old.pass ≡ 2 → ⊥) → self.new.faults ≡ self.old.faults }
        ensures failed { self.new.failure ≡ None → self.old.failure ≡ None }
        ensures numbers { self.new.numbers ≡ self.old.numbers }
    {
        if self.pass == 2 {
            self.tell(place, fault)
        } else if self.failure.is_none() {
            self.deferred = Some(Report { place, fault });
        }
    }

    /// Keeps a report; one for a place.
    pub fn report(&mut self, report: Report) -> Result<(), AllocError>
        ensures told { OnOk result (IsTrue (is_told_at self.new.faults.items report.place)) }
        ensures marked { self.new.told ≡ self.old.told }
        ensures failure { self.new.failure ≡ self.old.failure }
        ensures numbers { self.new.numbers ≡ self.old.numbers }
    {
        if report.fault.is_limit() {
            self.stopped = true;
        }
        if is_reported(self.faults.as_slice(), report.place) {
            return Ok(());
        }
        let mut fault = report.fault;
        if self.faults.len() >= self.most_faults {
            self.stopped = true;
            fault = Fault::Limit(Limit::Errors);
        }
        self.faults.push(Report {
            place: report.place,
            fault,
        })?;
        Ok(())
    }

    /// Keeps that an operation or a call of another machine or another monitor is used, in the second pass; once for a place.
    pub fn note_other(&mut self, place: Place, name: Name, reason: Reason)
        ensures first { (self.old.pass ≡ 2 → ⊥) → self.new ≡ self.old }
        ensures noted { self.old.pass ≡ 2 → self.new.failure ≡ None → IsTrue (is_used_at self.new.others.items place name.sixbit) }
        ensures failed { self.new.failure ≡ None → self.old.failure ≡ None }
    {
        if self.pass != 2 || self.is_failed() || is_used(self.others.as_slice(), place, name) {
            return;
        }
        let done = self
            .others
            .push(OtherUse {
                place,
                name,
                reason,
            })
            .is_ok();
        self.kept(done);
    }

    /// Keeps that something has another place in the second pass.
    pub fn report_moved(&mut self, place: Place, fault: Fault) {
        if !self.is_failed() && !is_reported(self.moved.as_slice(), place) {
            let done = self.moved.push(Report { place, fault }).is_ok();
            self.kept(done);
        }
    }
}
