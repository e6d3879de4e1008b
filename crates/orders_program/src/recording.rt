//! An order as a script of `lockmon run`.
ghost use Rattle.std.specs.Prelude.{◌≡◌, ◌++◌, IfOk, OnOk};
ghost use Rattle.std.specs.List.{flat_map};
ghost use Rattle.orders_program.specs.Scripts.{data_text, script_text};
ghost use Rattle.orders_program.specs.Telling.{data_from};

use crate::ends::data_of;
use crate::following::Following;
use crate::loading::Work;
use job_orders::Machine;
use order_report::DataWord;
use program_files::{ProgramFile, push_programs};
use run_record::{push_end, push_head, push_pieces};
use script_io::push_decimal;
use std::alloc::{AllocError, Global};

/// Adds what shows words that all jobs share.
fn push_data(script: &mut Vec<u8>, words: &[DataWord]) -> Result<(), AllocError>
    ensures { OnOk result (script.new.items ≡ script.old.items ++ flat_map data_text words.now) }
{
    for word in words {
        script.extend_from_slice(b"DATA ")?;
        push_decimal(script, word.number)?;
        script.push(b'\n')?;
    }
    Ok(())
}

/// The words that all jobs of a machine share and that are not 0.
fn data_in(alloc: Global, machine: &Machine) -> Result<Vec<DataWord>, AllocError>
    ensures { IfOk result (λ words. words.items ≡ data_from 0 machine.now.machine.world.shared) }
{
    data_of(alloc, machine.world.shared.as_slice())
}

/// An order that was followed, as a script in which it happens again.
pub fn script_of(
    alloc: Global,
    work: &Work<'_>,
    files: &[ProgramFile<'_>],
    followed: &Following<'_>,
) -> Result<Vec<u8>, AllocError>
    ensures { IfOk result (λ script. script.items ≡ script_text work.now files.now followed.now) }
{
    let data = data_in(alloc, &followed.machine)?;
    let mut script = Vec::new(alloc);
    push_head(&mut script, work.config.blocks(), work.config.quantum())?;
    push_programs(&mut script, files, work.programs)?;
    push_pieces(&mut script, followed.events.pieces())?;
    push_end(&mut script)?;
    push_data(&mut script, data.as_slice())?;
    Ok(script)
}
