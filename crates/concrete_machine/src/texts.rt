//! The requests for locks, and who waits for whom, as `lockmon queue` writes them.
ghost use Rattle.std.specs.Prelude.{◌≡◌, ◌++◌, OnOk};
ghost use Rattle.queue_script.specs.QueueScripts.{show_text};
ghost use Rattle.queue_script.specs.WaitPairs.{waits_text};

use crate::whole_machine::Machine;
use queue_script::{push_requests, push_waits};
use std::alloc::AllocError;

impl Machine {
    /// Adds a line for each request, in order of arrival, and `END`.
    pub fn push_requests(&self, out: &mut Vec<u8>) -> Result<(), AllocError>
        ensures { OnOk result (out.new.items ≡ out.old.items ++ show_text self.now.world.requests) }
    {
        push_requests(out, self.locks())
    }

    /// Adds the lines on who waits for whom, and on who waits in a circle.
    pub fn push_waits(&self, out: &mut Vec<u8>) -> Result<(), AllocError>
        ensures { OnOk result (out.new.items ≡ out.old.items ++ waits_text self.now.world.requests) }
    {
        push_waits(out, self.locks())
    }
}
