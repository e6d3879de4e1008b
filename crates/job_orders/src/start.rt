//! The state in which orders begin.
ghost use Rattle.std.specs.Prelude.{◌≡◌, IfOk, OnOk};
ghost use Rattle.job_orders.specs.Systems.{IsBegun, IsReady};
ghost use Rattle.job_orders.specs.Tables.{IsNumbered, Learns, form_of};
ghost use Rattle.job_orders.specs.Views.{form_in};

use crate::kept::KeptState;
use crate::machines::{Machine, bare_machine, pack};
use crate::tables::Tables;
use std::alloc::{AllocError, Global};
use std::marker::Model;

/// The machine with which all orders begin, which has jobs 1 to `count` that have settled, and no characters at its lines; and how many
/// turns a job may take that nobody can notice.
#[derive(Drop)]
pub struct Start {
    /// The machine.
    machine: Machine,
    /// How many jobs there are.
    count: u8,
    /// How many turns a job may take that nobody can notice.
    most: u32,
}

impl Model for Start {
    ghost use Rattle.job_orders.specs.Systems.{Begun, IsBegun};

    ghost Value = { Begun };

    ghost view = { λ s. record { state = s.machine; count = s.count; most = s.most } };

    ghost invariant = { λ s. IsBegun (record { state = s.machine; count = s.count; most = s.most }) };
}

impl Start {
    /// This machine, with this many jobs and turns.
    pub(crate) fn new(machine: Machine, count: u8, most: u32) -> Self
        requires { IsBegun (record { state = machine; count = count; most = most }) }
        ensures { result ≡ record { state = machine; count = count; most = most } }
    {
        Start {
            machine,
            count,
            most,
        }
    }

    /// The machine.
    pub fn machine(&self) -> &Machine
        ensures machine { result.now ≡ self.now.state }
        ensures begun { IsBegun self.now }
    {
        &self.machine
    }

    /// The state of the machine, as it is kept.
    pub(crate) fn pack(
        &mut self,
        alloc: Global,
        tables: &mut Tables,
    ) -> Result<KeptState, AllocError>
        ensures form { IfOk result (λ x. form_of tables.new x ≡ form_in self.new.count self.new.state) }
        ensures numbered { IfOk result (IsNumbered tables.new) }
        ensures learns { OnOk result (Learns tables.old tables.new) }
        ensures same { self.new ≡ self.old }
        ensures begun { IsBegun self.new }
    {
        pack(
            alloc,
            tables,
            &mut self.machine,
            self.count,
            &KeptState::NONE,
        )
    }

    /// A machine without jobs, of the same size.
    pub(crate) fn bare_machine(&self, alloc: Global) -> Result<Machine, AllocError>
        ensures { IfOk result (IsReady self.now.state.machine.quantum self.now.state.machine.blocks) }
    {
        let machine = bare_machine(alloc, self.machine.quantum, self.machine.blocks)?;
        Ok(machine)
    }

    /// How many jobs there are.
    pub fn count(&self) -> u8
        ensures count { result ≡ self.now.count }
        ensures begun { IsBegun self.now }
    {
        self.count
    }

    /// How many turns a job may take that nobody can notice.
    pub fn most(&self) -> u32
        ensures { result ≡ self.now.most }
    {
        self.most
    }
}
