//! The core of all jobs.
ghost use Rattle.std.specs.Prelude.{◌≡◌, ◌*◌, ◌+◌, []};
ghost use Rattle.word36.specs.declared.sizes.TheConstants.{BLOCK_WORDS, JOBS};
ghost use Rattle.core_store.specs.Cores.{IsStore, core_of, all_free};
ghost use Rattle.machine.specs.Safe.{all_words};

use core_store::CoreStore;
use word36::JOBS;

/// Frees the core of all jobs.
pub(crate) fn free_all<C: CoreStore>(cores: &mut C, blocks: u32)
    requires words { all_words (C.meaning cores.old) ≡ blocks * BLOCK_WORDS }
    requires store { IsStore (C.meaning cores.old) }
    requires none_0 { core_of (C.meaning cores.old) 0 ≡ [] }
    ensures { C.meaning cores.new ≡ all_free blocks }
{
    for n in 1..JOBS + 1 {
        cores.give(n);
    }
}
