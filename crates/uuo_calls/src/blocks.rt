//! Reads the block of a lock call from a memory that is lent as `&mut`: a caller that lends a window still
//! knows what it holds.

ghost use Rattle.std.specs.Prelude.{◌≡◌, ◌≤◌, OnOk};
ghost use Rattle.arrayvec.specs.ArrayVec.{array_vec_len};
ghost use Rattle.word36.specs.declared.sizes.TheConstants.{LOCKS_A_CALL};
ghost use Rattle.call_block.specs.Blocks.{block_at, read_as};
ghost use Rattle.uuo_calls.specs.LockRows.{AreAskable};

use call_block::{BlockHead, fill_block};
use ka_state::{JobMemory, Regs};
use lock_queue::{BlockUse, Refusal, Wants};
use word36::Address;

/// Fills in the wants of the block at an address and returns its id and its limit, or returns the first
/// refusal. The memory stays the same.
#[inline(always)]
pub(crate) fn block_kept<M: JobMemory>(
    regs: &Regs,
    memory: &mut M,
    address: Address,
    job: u8,
    block_use: BlockUse,
    wants: &mut Wants,
) -> Result<BlockHead, Refusal>
    ensures block { read_as result wants.new ≡ block_at regs.now.ac (M.words memory.old) address job block_use }
    ensures most { OnOk result (array_vec_len wants.new ≤ LOCKS_A_CALL) }
    ensures askable { OnOk result (AreAskable wants.new) }
    ensures same { memory.new ≡ memory.old }
{
    fill_block(regs, memory, address, job, block_use, wants)
}
