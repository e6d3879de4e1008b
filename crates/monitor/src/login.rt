//! The loading of a new job's image.
ghost use Rattle.std.specs.Prelude.{◌≡◌, ◌<◌, ◌≤◌, ◌^◌, [], Some, None, IfSome, OnOk, OnErr, IsOk, Ok, ◌↔◌};
ghost use Rattle.word36.specs.declared.sizes.TheConstants.{MOST_BLOCKS};
ghost use Rattle.core_store.specs.Cores.{IsJob, core_of, with_core, taken};
ghost use Rattle.uuo_calls.specs.StatusRow.{Memory};
ghost use Rattle.machine.specs.Images.{top_from, image_top, loaded, placed, fresh_regs, image_memory};

use core_store::{CoreStore, NoCore};
use job_sched::NO_FLAGS;
use ka_state::{CoreWords, JobMemory, Regs, store};
use machine::JBREL;
use word36::{ADDRESSES, Address, BLOCK_WORDS, Image, Word};

/// The last of the words' addresses, or `top` where there are no words. `None` where the addresses do not
/// rise from `top` on, or one is 2^18 or more.
fn top_from(top: u32, words: &[(u32, Word)]) -> Option<u32>
    requires { top < 2 ^ 18 }
    ensures top { result ≡ top_from top words.now }
    ensures below { IfSome result (λ t. t < 2 ^ 18) }
{
    let mut last = top;
    for entry in words {
        if entry.0 <= last || entry.0 >= ADDRESSES {
            return None;
        }
        last = entry.0;
    }
    Some(last)
}

/// The highest address of an image. `None` where it has no words, where an address or the start is 2^18 or
/// more, or where the addresses do not rise.
pub(crate) fn image_top(image: &Image) -> Option<u32>
    ensures top { result ≡ image_top image.now.words.items image.now.start }
    ensures below { IfSome result (λ t. t < 2 ^ 18) }
    ensures start { IfSome result (λ t. image.now.start < 2 ^ 18) }
{
    if image.start >= ADDRESSES {
        return None;
    }
    let (first, rest) = image.words.split_first()?;
    if first.0 >= ADDRESSES {
        return None;
    }
    top_from(first.0, rest)
}

/// Stores the words of an image at their addresses.
fn load_words<M: JobMemory>(regs: &mut Regs, memory: &mut M, words: &[(u32, Word)])
    ensures loaded { record { regs = regs.new; core = M.words memory.new }
        ≡ loaded (record { regs = regs.old; core = M.words memory.old }) words.now }
    ensures place { M.place memory.new ≡ M.place memory.old }
{
    for entry in words {
        store(regs, memory, entry.0, entry.1);
    }
}

/// Stores the words of an image, and then the highest legal address in .JBREL.
fn load_image<M: JobMemory>(regs: &mut Regs, memory: &mut M, words: &[(u32, Word)], blocks: u32)
    requires some { 1 ≤ blocks }
    requires most { blocks ≤ MOST_BLOCKS }
    ensures placed { record { regs = regs.new; core = M.words memory.new }
        ≡ placed (record { regs = regs.old; core = M.words memory.old }) words.now blocks }
    ensures place { M.place memory.new ≡ M.place memory.old }
{
    load_words(regs, memory, words);
    memory.write(JBREL, Word::new((blocks as usize * BLOCK_WORDS - 1) as u64));
}

/// Loads an image into a job's registers and core.
fn load_into<C: CoreStore>(
    n: u8,
    regs: &mut Regs,
    cores: &mut C,
    words: &[(u32, Word)],
    blocks: u32,
)
    requires number { IsJob n }
    requires some { 1 ≤ blocks }
    requires most { blocks ≤ MOST_BLOCKS }
    ensures regs { regs.new ≡ (placed (record { regs = regs.old; core = core_of (C.meaning cores.old) n }) words.now blocks).regs }
    ensures core { C.meaning cores.new
        ≡ with_core (C.meaning cores.old) n
        (placed (record { regs = regs.old; core = core_of (C.meaning cores.old) n }) words.now blocks).core }
{
    let lent = cores.window(n);
    let mut window = CoreWords { words: lent };
    load_image(regs, &mut window, words, blocks);
}

/// The registers of a new job: all 0, the PC at its start, and no flag but User.
fn fresh_regs(start: Address) -> Regs
    ensures { result ≡ fresh_regs start }
{
    Regs {
        ac: [Word::new(0); 16],
        pc: start,
        flags: NO_FLAGS,
    }
}

/// Gives a new job its blocks of core and loads its image there: its registers. `NoCore` where fewer blocks
/// are free; then nothing changes.
pub(crate) fn load_job<C: CoreStore>(
    n: u8,
    cores: &mut C,
    words: &[(u32, Word)],
    start: Address,
    blocks: u32,
) -> Result<Regs, NoCore>
    requires number { IsJob n }
    requires bare { core_of (C.meaning cores.old) n ≡ [] }
    requires some { 1 ≤ blocks }
    requires most { blocks ≤ MOST_BLOCKS }
    ensures cases { IsOk result ↔ (blocks ≤ (C.meaning cores.old).free) }
    ensures regs { OnOk result (result ≡ Ok (image_memory words.now start blocks).regs) }
    ensures core { OnOk result (C.meaning cores.new
        ≡ with_core (taken (C.meaning cores.old) n blocks) n (image_memory words.now start blocks).core) }
    ensures err { OnErr result (C.meaning cores.new ≡ C.meaning cores.old) }
{
    cores.take(n, blocks)?;
    let mut regs = fresh_regs(start);
    load_into(n, &mut regs, cores, words, blocks);
    Ok(regs)
}
