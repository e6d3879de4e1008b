//! The requests for locks, and who waits for whom, as `lockmon` writes them.
ghost use Rattle.std.specs.Prelude.{◌≡◌, IfOk};
ghost use Rattle.queue_script.specs.QueueScripts.{show_text};
ghost use Rattle.queue_script.specs.WaitPairs.{waits_text};

use concrete_machine::Machine;
use std::alloc::{AllocError, Global};

/// The lines on all requests, in order of arrival, as SHOW of `lockmon queue` writes them.
pub fn lock_lines(alloc: Global, machine: &Machine) -> Result<Vec<u8>, AllocError>
    ensures { IfOk result (λ lines. lines.items ≡ show_text machine.now.world.requests) }
{
    let mut lines = Vec::new(alloc);
    machine.push_requests(&mut lines)?;
    Ok(lines)
}

/// Who waits for whom, and who waits in a circle, as WAITS of `lockmon queue` writes it.
pub fn wait_lines(alloc: Global, machine: &Machine) -> Result<Vec<u8>, AllocError>
    ensures { IfOk result (λ lines. lines.items ≡ waits_text machine.now.world.requests) }
{
    let mut lines = Vec::new(alloc);
    machine.push_waits(&mut lines)?;
    Ok(lines)
}
