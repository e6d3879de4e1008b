//! Kept states, set out on the parts of a machine.
ghost use Rattle.std.specs.Prelude.{◌≡◌, ◌+◌, ◌*◌, ◌<◌, ◌≤◌, ◌++◌, ◌∷◌, [], None, OnOk, drop, length, map, replicate, slice_set, take, true};
ghost use Rattle.std.specs.List.{All};
ghost use Rattle.core_store.specs.Cores.{IsJob as IsJobNumber, IsStore, IsWhole, all_free, core_of};
ghost use Rattle.job_sched.specs.Changes.{with_job};
ghost use Rattle.job_sched.specs.Tables.{job_at};
ghost use Rattle.lock_queue.specs.WellFormed.{are_well_formed, is_well_formed};
ghost use Rattle.machine.specs.Safe.{all_words};
ghost use Rattle.state_search.specs.Parts.{AreNumbers};
ghost use Rattle.word36.specs.declared.sizes.TheConstants.{BLOCK_WORDS, DATA_WORDS, JOBS, MOST_REQUESTS};
ghost use Rattle.job_orders.specs.declared.tables.TheConstants.{PAGE_WORDS};
ghost use Rattle.job_orders.specs.Tables.{IsJob, IsPage, IsPages, job_of, numbers_at, page_at, requests_in, slot_at, words_at, words_in};
ghost use Rattle.job_orders.specs.Views.{padded};

use crate::pages::{Page, Slot, Text};
use crate::tables::{PAGE_WORDS, Tables};
use core_store::CoreStore;
use job_sched::JobTable;
use kept_parts::KeptRequest;
use lock_queue::{Asking, LockTable};
use plain_table::PlainTable;
use state_search::Parts;
use std::alloc::AllocError;
use tty_lines::Char7;
use word36::{Address, BLOCK_WORDS, DATA_WORDS, JOBS, MOST_REQUESTS, Word};

/// Puts the words of a page at their place.
fn set_page(page: &Page, words: &mut [Word], at: usize)
    requires page { length page.now ≡ PAGE_WORDS }
    requires within { at + PAGE_WORDS ≤ length words.old }
    ensures { words.new ≡ take at words.old ++ (page.now ++ drop (at + PAGE_WORDS) words.old) }
{
    words[at..at + PAGE_WORDS].copy_from_slice(page.words.as_slice());
}

/// Puts the words of some pages in their places.
fn set_words(pages: &Parts<Page>, numbers: &[u32], words: &mut [Word])
    requires pages { All (IsPage pages.now) numbers.now }
    requires length { length words.old ≡ length numbers.now * PAGE_WORDS }
    ensures { words.new ≡ words_in pages.now numbers.now }
{
    for i in 0..numbers.len() {
        set_page(pages.part(numbers[i]), words, i * PAGE_WORDS);
    }
}

/// The number of a job's slot, of its core, and of its text.
fn parts_of(lists: &Parts<Vec<u32>>, number: u32) -> (u32, u32, u32)
    requires there { number < length lists.now }
    requires three { length (numbers_at lists.now number) ≡ 3 }
    ensures { numbers_at lists.now number ≡ result.0 ∷ result.1 ∷ result.2 ∷ [] }
{
    let parts = lists.part(number);
    (parts[0], parts[1], parts[2])
}

/// Takes the core of all jobs away.
fn give_all<C: CoreStore>(cores: &mut C, blocks: u32)
    requires words { all_words (C.meaning cores.old) ≡ blocks * BLOCK_WORDS }
    requires store { IsStore (C.meaning cores.old) }
    requires none_0 { core_of (C.meaning cores.old) 0 ≡ [] }
    ensures { C.meaning cores.new ≡ all_free blocks }
{
    for n in 1..JOBS + 1 {
        cores.give(n);
    }
}

/// Gives job n, which has no core, the words of a list of pages. More words than there is core for are refused as memory is.
fn set_core<C: CoreStore>(
    tables: &Tables,
    core: u32,
    cores: &mut C,
    n: u8,
) -> Result<(), AllocError>
    requires number { IsJobNumber n }
    requires pages { IsPages tables.now core }
    requires whole { IsWhole (words_at tables.now core) }
    requires none_yet { core_of (C.meaning cores.old) n ≡ [] }
    ensures core { OnOk result ((C.meaning cores.new).cores ≡ slice_set (C.meaning cores.old).cores n (words_at tables.now core)) }
    ensures words { OnOk result (all_words (C.meaning cores.new) ≡ all_words (C.meaning cores.old)) }
{
    let numbers = tables.lists.part(core);
    let Ok(blocks) = u32::try_from(numbers.len() / (BLOCK_WORDS / PAGE_WORDS)) else {
        return Err(AllocError);
    };
    if blocks == 0 {
        return Ok(());
    }
    let Ok(()) = cores.take(n, blocks) else {
        return Err(AllocError);
    };
    set_words(&tables.pages, numbers.as_slice(), cores.window(n));
    Ok(())
}

/// Sets out the core of jobs 1, 2 and so on.
pub(crate) fn set_cores<C: CoreStore>(
    tables: &Tables,
    numbers: &[u32],
    cores: &mut C,
    blocks: u32,
) -> Result<(), AllocError>
    requires jobs { All (IsJob tables.now) numbers.now }
    requires few { length numbers.now ≤ JOBS }
    requires whole { All (λ n. IsWhole (job_of tables.now n).core) numbers.now }
    requires words { all_words (C.meaning cores.old) ≡ blocks * BLOCK_WORDS }
    requires store { IsStore (C.meaning cores.old) }
    requires none_0 { core_of (C.meaning cores.old) 0 ≡ [] }
    ensures cores { OnOk result ((C.meaning cores.new).cores ≡ padded [] (map (λ j. j.core) (map (job_of tables.now) numbers.now))) }
    ensures words { OnOk result (all_words (C.meaning cores.new) ≡ blocks * BLOCK_WORDS) }
{
    give_all(cores, blocks);
    for k in 0..numbers.len() {
        let (_, core, _) = parts_of(&tables.lists, numbers[k]);
        set_core(tables, core, cores, k as u8 + 1)?;
    }
    Ok(())
}

/// Sets out a slot, which is empty.
fn set_slot(table: &mut JobTable, kept: &Slot, n: u8)
    requires number { IsJobNumber n }
    requires empty { job_at table.old.jobs n ≡ None }
    ensures { table.new ≡ with_job table.old n kept.now.slot }
{
    if let Some(job) = kept.kept.slot {
        table.put(n, job);
    }
}

/// Sets out the slots of jobs 1, 2 and so on, and at which address each took its last turn.
pub(crate) fn set_slots(
    tables: &Tables,
    numbers: &[u32],
    table: &mut JobTable,
    last: &mut [Address],
)
    requires jobs { All (IsJob tables.now) numbers.now }
    requires few { length numbers.now ≤ JOBS }
    requires slots { length last.old ≡ JOBS + 1 }
    ensures table { table.new ≡ record { jobs = padded None (map (λ j. j.slot) (map (job_of tables.now) numbers.now)); current = 0; left = 0 } }
    ensures last { last.new ≡ padded 0 (map (λ j. j.last) (map (job_of tables.now) numbers.now)) }
{
    *table = JobTable::new();
    last.fill(Address::new(0));
    for k in 0..numbers.len() {
        let (slot, _, _) = parts_of(&tables.lists, numbers[k]);
        let kept = tables.slots.part(slot);
        set_slot(table, kept, k as u8 + 1);
        last[k + 1] = kept.kept.last;
    }
}

/// Empties all texts.
fn clear_all(texts: &mut [Vec<Char7>])
    ensures { map (λ text. text.items) texts.new ≡ replicate (length texts.old) [] }
{
    for n in 0..texts.len() {
        texts[n].clear();
    }
}

/// Sets out what a job has put out.
fn set_text(text: &mut Vec<Char7>, kept: &Text) -> Result<(), AllocError>
    ensures { OnOk result (text.new.items ≡ kept.now) }
{
    text.clear();
    text.extend_from_slice(kept.characters.as_slice())
}

/// Sets out what jobs 1, 2 and so on have put out.
pub(crate) fn set_texts(
    tables: &Tables,
    numbers: &[u32],
    texts: &mut [Vec<Char7>],
) -> Result<(), AllocError>
    requires jobs { All (IsJob tables.now) numbers.now }
    requires few { length numbers.now ≤ JOBS }
    requires slots { length texts.old ≡ JOBS + 1 }
    ensures { OnOk result (map (λ text. text.items) texts.new ≡ padded [] (map (λ j. j.text) (map (job_of tables.now) numbers.now))) }
{
    clear_all(texts);
    for k in 0..numbers.len() {
        let (_, _, number) = parts_of(&tables.lists, numbers[k]);
        let kept = tables.texts.part(number);
        set_text(&mut texts[k + 1], kept)?;
    }
    Ok(())
}

/// Adds a request after the others.
fn set_request(locks: &mut PlainTable<MOST_REQUESTS>, kept: &KeptRequest)
    requires room { length locks.old.rows.present < MOST_REQUESTS }
    requires well { is_well_formed kept.now ≡ true }
    ensures { locks.new.rows.present ≡ locks.old.rows.present ++ kept.now ∷ [] }
{
    let r = &kept.request;
    let asking = Asking {
        kind: r.kind,
        id: r.id,
        armed: false,
        quota: 0,
    };
    locks.append(r.job, &asking, r.notified, &r.wants);
}

/// Sets out the requests of some numbers, and drops those that the table had.
pub(crate) fn set_requests(
    requests: &Parts<KeptRequest>,
    numbers: &[u32],
    locks: &mut PlainTable<MOST_REQUESTS>,
)
    requires within { AreNumbers requests.now numbers.now }
    requires few { length numbers.now ≤ MOST_REQUESTS }
    requires well { are_well_formed (requests_in requests.now numbers.now) ≡ true }
    ensures { locks.new.rows.present ≡ requests_in requests.now numbers.now }
{
    locks.clear();
    for number in numbers {
        set_request(locks, requests.part(*number));
    }
}

/// Sets out the shared words of a list of pages.
pub(crate) fn set_shared(tables: &Tables, number: u32, shared: &mut [Word; DATA_WORDS])
    requires pages { IsPages tables.now number }
    requires size { length (words_at tables.now number) ≡ DATA_WORDS }
    ensures { shared.new ≡ words_at tables.now number }
{
    set_words(
        &tables.pages,
        tables.lists.part(number).as_slice(),
        shared.as_mut_slice(),
    );
}
