//! CORE.

ghost use Rattle.std.specs.Prelude.{◌≡◌, ◌≢◌, ◌<◌, ◌≤◌, ◌+◌, ◌*◌, [], Some, None, true, false, OnOk, OnErr, IsOk, IfSome, length};
ghost use Rattle.word36.specs.declared.sizes.TheConstants.{BLOCK_WORDS, MOST_BLOCKS};
ghost use Rattle.core_store.specs.Cores.{IsJob, core_of, blocks_of, resized};
ghost use Rattle.uuo_calls.specs.CallState.{ac_of, with_ac, skipping};
ghost use Rattle.uuo_calls.specs.CoreRow.{blocks_asked, with_highest, grown, core_called};

use crate::returns::skip;
use core_store::CoreStore;
use job_sched::Job;
use ka_state::Accumulator;
use word36::{BLOCK_WORDS, MOST_BLOCKS, Word};

/// .JBREL, location 44 octal of a job's core, which holds its highest legal address (TOPS-10
/// Monitor Calls Manual).
pub const JBREL: u32 = 0o44;

/// How many blocks a word asks for: `0,,highest address`. `None` where it asks for none.
fn blocks_asked(word: Word) -> Option<u32>
    ensures asks { result ≡ blocks_asked word }
    ensures some { IfSome result (λ n. (1 ≤ n) × (n ≤ MOST_BLOCKS)) }
{
    if word.left() == 0 && word.right() > 0 {
        Some(word.right() / BLOCK_WORDS as u32 + 1)
    } else {
        None
    }
}

/// Stores the highest legal address of a job with so many blocks in its .JBREL.
fn tell_highest<C: CoreStore>(number: u8, cores: &mut C, blocks: u32)
    requires number { IsJob number }
    requires some { 1 ≤ blocks }
    requires most { blocks ≤ MOST_BLOCKS }
    requires blocks { length (core_of (C.meaning cores.old) number) ≡ blocks * BLOCK_WORDS }
    ensures { C.meaning cores.new ≡ with_highest (C.meaning cores.old) number blocks }
{
    let highest = Word::new((blocks as usize * BLOCK_WORDS - 1) as u64);
    let words = cores.window(number);
    words[JBREL as usize] = highest;
}

/// Gives a job so many blocks. False where too few are free; then nothing changes.
fn grow<C: CoreStore>(number: u8, cores: &mut C, blocks: u32) -> bool
    requires number { IsJob number }
    requires some { 1 ≤ blocks }
    requires most { blocks ≤ MOST_BLOCKS }
    requires core { core_of (C.meaning cores.old) number ≢ [] }
    ensures yes { result ≡ true → grown (C.meaning cores.old) number (Some blocks) ≡ Some (C.meaning cores.new) }
    ensures no { result ≡ false → (grown (C.meaning cores.old) number (Some blocks) ≡ None) × (C.meaning cores.new ≡ C.meaning cores.old) }
{
    match cores.resize(number, blocks) {
        Ok(()) => {
            tell_highest(number, cores, blocks);
            true
        }
        Err(_) => false,
    }
}

/// CORE: gives the job the blocks that AC asks for, and skips, where enough are free. AC gets the number of
/// free blocks in each case.
pub(crate) fn resize_core<C: CoreStore>(number: u8, job: &mut Job, ac: Accumulator, cores: &mut C)
    requires number { IsJob number }
    requires core { core_of (C.meaning cores.old) number ≢ [] }
    ensures { record { job = job.new; cores = C.meaning cores.new } ≡ core_called number ac job.old (C.meaning cores.old) }
{
    if let Some(blocks) = blocks_asked(job.regs.ac[ac.index()]) {
        if grow(number, cores, blocks) {
            skip(job);
        }
    }
    job.regs.ac[ac.index()] = Word::new(cores.free() as u64);
}
