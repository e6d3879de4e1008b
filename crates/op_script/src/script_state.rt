//! The state of a script on the machine.
ghost use Rattle.std.specs.Prelude.{◌≡◌, IfOk};
ghost use Rattle.op_script.specs.RunScripts.{fresh};

use crate::images::Images;
use crate::sources::Source;
use core_store::{BlockCore, CoreStore};
use lock_queue::LockTable;
use lock_table::ProgramTable;
use monitor::{Config, System};
use std::alloc::{AllocError, Global};
use std::marker::Model;

/// The machine of the programs, with the tables that it keeps its locks and its core in.
pub type Machine = System<ProgramTable, BlockCore>;

/// The state of a script: the machine, the images, and the source that is being read.
#[derive(Drop)]
pub struct ScriptState<L: LockTable, C: CoreStore> {
    /// The machine.
    pub machine: System<L, C>,
    /// The images that jobs may begin with.
    pub images: Images,
    /// The source that is being read, between ASSEMBLE and ENDASM.
    pub source: Option<Source>,
}

impl<L: LockTable, C: CoreStore> Model for ScriptState<L, C> {
    ghost use Rattle.op_script.specs.ScriptStates.{StateValue};

    ghost Value = { StateValue };

    ghost view = { λ d. record { machine = d.machine; images = d.images; source = d.source } };
}

/// The state of a script on the machine of the programs.
pub type RunState = ScriptState<ProgramTable, BlockCore>;

impl ScriptState<ProgramTable, BlockCore> {
    /// The state before the first line: a machine from a fresh boot, with the blocks and the quantum of a `Config`.
    pub fn fresh(alloc: Global, config: Config) -> Result<Self, AllocError>
        ensures { IfOk result (λ state. state ≡ fresh config.blocks config.quantum) }
    {
        let machine = Machine::boot(alloc, config)?;
        Ok(ScriptState {
            machine,
            images: Images::new(alloc),
            source: None,
        })
    }
}
