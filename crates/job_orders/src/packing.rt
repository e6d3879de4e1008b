//! Parts of states, as they are kept.
ghost use Rattle.std.specs.Prelude.{◌≡◌, ◌+◌, ◌*◌, ◌/◌, ◌<◌, ◌≤◌, ◌∷◌, [], IfOk, OnOk, length, map, slice_range, true};
ghost use Rattle.std.specs.List.{All, IsDistinct};
ghost use Rattle.core_store.specs.Cores.{IsJob as IsJobNumber, core_of};
ghost use Rattle.kept_parts.specs.SameRequests.{same_request};
ghost use Rattle.kept_parts.specs.SameSlots.{same_kept};
ghost use Rattle.state_search.specs.Parts.{AreGrown, AreNumbers};
ghost use Rattle.job_orders.specs.declared.tables.TheConstants.{PAGE_WORDS};
ghost use Rattle.job_orders.specs.Pages.{same_numbers};
ghost use Rattle.job_orders.specs.Tables.{IsJob, IsNumbered, IsPage, IsPages, Learns, form_of, job_of, numbers_at, page_at, requests_in, same_list, slot_at, words_at, words_in};

use crate::ends::are_same_words;
use crate::kept::KeptState;
use crate::pages::{Page, Slot, Text};
use crate::tables::{PAGE_WORDS, Tables};
use core_store::CoreStore;
use job_sched::Job;
use kept_parts::{KeptRequest, KeptSlot};
use lock_queue::steps::write_like;
use lock_queue::{LockTable, Request};
use state_search::Parts;
use std::alloc::{AllocError, Global};
use tty_lines::Char7;
use word36::{Address, DATA_WORDS, Word};

/// The number at a position of a list, 0 if there is none. It is a guess: what has that number is compared before it is taken.
pub(crate) fn guessed(lists: &Parts<Vec<u32>>, list: u32, at: usize) -> u32 {
    if list as usize >= lists.len() {
        return 0;
    }
    match lists.part(list).as_slice().get(at) {
        Some(number) => *number,
        None => 0,
    }
}

/// Whether there is a page with this number, and it has the words at a position.
fn has_words(pages: &Parts<Page>, number: u32, words: &[Word], at: usize) -> bool
    requires { at + PAGE_WORDS ≤ length words.now }
    ensures there { result ≡ true → number < length pages.now }
    ensures words { result ≡ true → page_at pages.now number ≡ slice_range words.now at (at + PAGE_WORDS) }
{
    if number as usize >= pages.len() {
        return false;
    }
    let page = pages.part(number).words.as_slice();
    are_same_words(page, &words[at..at + PAGE_WORDS])
}

/// The number of the page at a position among the words, which is looked up.
fn look_up_page(
    alloc: Global,
    pages: &mut Parts<Page>,
    words: &[Word],
    at: usize,
) -> Result<u32, AllocError>
    requires { at + PAGE_WORDS ≤ length words.now }
    ensures page { IfOk result (λ n. page_at pages.new n ≡ slice_range words.now at (at + PAGE_WORDS)) }
    ensures there { IfOk result (IsPage pages.new) }
    ensures grown { OnOk result (AreGrown pages.old pages.new) }
    ensures unique { OnOk result (IsDistinct same_numbers pages.new) }
{
    let words = words[at..at + PAGE_WORDS].to_vec(alloc)?;
    let number = pages.number_of(Page { words })?;
    Ok(number)
}

/// The number of the page at a position among the words. The guess is tried first.
fn pack_page(
    alloc: Global,
    pages: &mut Parts<Page>,
    words: &[Word],
    at: usize,
    guess: u32,
) -> Result<u32, AllocError>
    requires { at + PAGE_WORDS ≤ length words.now }
    ensures page { IfOk result (λ n. page_at pages.new n ≡ slice_range words.now at (at + PAGE_WORDS)) }
    ensures there { IfOk result (IsPage pages.new) }
    ensures grown { OnOk result (AreGrown pages.old pages.new) }
    ensures unique { OnOk result (IsDistinct same_numbers pages.old → IsDistinct same_numbers pages.new) }
{
    if has_words(pages, guess, words, at) {
        return Ok(guess);
    }
    look_up_page(alloc, pages, words, at)
}

/// The numbers of the pages of some words. Those of a list of pages are tried first.
fn pack_pages(
    alloc: Global,
    pages: &mut Parts<Page>,
    lists: &Parts<Vec<u32>>,
    guess: u32,
    words: &[Word],
) -> Result<Vec<u32>, AllocError>
    requires { length words.now / PAGE_WORDS * PAGE_WORDS ≡ length words.now }
    ensures words { IfOk result (λ numbers. words_in pages.new numbers.items ≡ words.now) }
    ensures pages { IfOk result (λ numbers. All (IsPage pages.new) numbers.items) }
    ensures grown { OnOk result (AreGrown pages.old pages.new) }
    ensures unique { OnOk result (IsDistinct same_numbers pages.old → IsDistinct same_numbers pages.new) }
{
    let count = words.len() / PAGE_WORDS;
    let mut numbers = Vec::with_capacity(alloc, count)?;
    for i in 0..count {
        let page = guessed(lists, guess, i);
        let number = pack_page(alloc, pages, words, i * PAGE_WORDS, page)?;
        numbers.push(number)?;
    }
    Ok(numbers)
}

/// The number of the list of the pages of some words. The pages of a list are tried first.
pub(crate) fn pack_words(
    alloc: Global,
    tables: &mut Tables,
    words: &[Word],
    guess: u32,
) -> Result<u32, AllocError>
    requires { length words.now / PAGE_WORDS * PAGE_WORDS ≡ length words.now }
    ensures words { IfOk result (λ n. words_at tables.new n ≡ words.now) }
    ensures pages { IfOk result (IsPages tables.new) }
    ensures learns { OnOk result (Learns tables.old tables.new) }
{
    let numbers = pack_pages(alloc, &mut tables.pages, &tables.lists, guess, words)?;
    let number = tables.lists.number_of(numbers)?;
    Ok(number)
}

/// The number of the list of the pages of a job's core, which stays as it is. The pages of a list are tried first.
pub(crate) fn pack_core<C: CoreStore>(
    alloc: Global,
    tables: &mut Tables,
    cores: &mut C,
    n: u8,
    guess: u32,
) -> Result<u32, AllocError>
    requires { IsJobNumber n }
    ensures words { IfOk result (λ m. words_at tables.new m ≡ core_of (C.meaning cores.old) n) }
    ensures pages { IfOk result (IsPages tables.new) }
    ensures learns { OnOk result (Learns tables.old tables.new) }
    ensures same { C.meaning cores.new ≡ C.meaning cores.old }
{
    cores.blocks(n);
    let words = cores.window(n);
    pack_words(alloc, tables, words, guess)
}

/// The number of a slot, with the address of its job's last turn.
pub(crate) fn pack_slot(
    slots: &mut Parts<Slot>,
    slot: &Option<Job>,
    last: Address,
) -> Result<u32, AllocError>
    ensures slot { IfOk result (λ n. slot_at slots.new n ≡ record { slot = slot.now; last = last }) }
    ensures there { IfOk result (λ n. n < length slots.new) }
    ensures grown { OnOk result (AreGrown slots.old slots.new) }
    ensures unique { OnOk result (IsDistinct same_kept slots.new) }
{
    let kept = KeptSlot { slot: *slot, last };
    let number = slots.number_of(Slot { kept })?;
    Ok(number)
}

/// The number of a text.
pub(crate) fn pack_text(
    alloc: Global,
    texts: &mut Parts<Text>,
    text: &[Char7],
) -> Result<u32, AllocError>
    ensures text { IfOk result (λ n. page_at texts.new n ≡ text.now) }
    ensures there { IfOk result (λ n. n < length texts.new) }
    ensures grown { OnOk result (AreGrown texts.old texts.new) }
    ensures unique { OnOk result (IsDistinct same_numbers texts.new) }
{
    let characters = text.to_vec(alloc)?;
    let number = texts.number_of(Text { characters })?;
    Ok(number)
}

/// The number of a list of three numbers.
pub(crate) fn pack_three(
    alloc: Global,
    lists: &mut Parts<Vec<u32>>,
    a: u32,
    b: u32,
    c: u32,
) -> Result<u32, AllocError>
    ensures list { IfOk result (λ n. numbers_at lists.new n ≡ a ∷ b ∷ c ∷ []) }
    ensures there { IfOk result (λ n. n < length lists.new) }
    ensures grown { OnOk result (AreGrown lists.old lists.new) }
    ensures unique { OnOk result (IsDistinct same_list lists.new) }
{
    let mut parts = Vec::with_capacity(alloc, 3)?;
    parts.push(a)?;
    parts.push(b)?;
    parts.push(c)?;
    let number = lists.number_of(parts)?;
    Ok(number)
}

/// A copy of a request, which its table only lends.
fn copied(r: &Request) -> Request
    ensures { result ≡ r.now }
{
    let mut copy = Request::default();
    write_like(&mut copy, r, &r.wants);
    copy
}

/// The numbers of the requests of a lock table, in order of arrival.
fn number_requests<L: LockTable>(
    alloc: Global,
    table: &mut Parts<KeptRequest>,
    locks: &L,
) -> Result<Vec<u32>, AllocError>
    ensures requests { IfOk result (λ numbers. requests_in table.new numbers.items ≡ L.requests locks.now) }
    ensures there { IfOk result (λ numbers. AreNumbers table.new numbers.items) }
    ensures grown { OnOk result (AreGrown table.old table.new) }
    ensures unique { OnOk result (IsDistinct same_request table.old → IsDistinct same_request table.new) }
{
    let mut numbers = Vec::with_capacity(alloc, locks.len())?;
    for i in 0..locks.len() {
        let request = copied(locks.request(i));
        let number = table.number_of(KeptRequest { request })?;
        numbers.push(number)?;
    }
    Ok(numbers)
}

/// The number of the list of the requests of a lock table, in order of arrival.
pub(crate) fn pack_requests<L: LockTable>(
    alloc: Global,
    tables: &mut Tables,
    locks: &L,
) -> Result<u32, AllocError>
    ensures requests { IfOk result (λ n. requests_in tables.new.requests (numbers_at tables.new.lists n) ≡ L.requests locks.now) }
    ensures there { IfOk result (λ n. n < length tables.new.lists) }
    ensures asked { IfOk result (λ n. AreNumbers tables.new.requests (numbers_at tables.new.lists n)) }
    ensures learns { OnOk result (Learns tables.old tables.new) }
{
    let numbers = number_requests(alloc, &mut tables.requests, locks)?;
    let number = tables.lists.number_of(numbers)?;
    Ok(number)
}

/// A state of which the number of the list of jobs is known. For the shared words the pages of a list are tried first.
pub(crate) fn pack_rest<L: LockTable, C: CoreStore>(
    alloc: Global,
    tables: &mut Tables,
    jobs: u32,
    locks: &L,
    cores: &C,
    shared: &[Word; DATA_WORDS],
    guess: u32,
) -> Result<KeptState, AllocError>
    requires there { jobs < length tables.old.lists }
    requires each { All (IsJob tables.old) (numbers_at tables.old.lists jobs) }
    ensures form { IfOk result (λ x. form_of tables.new x ≡ record {
      jobs = map (job_of tables.old) (numbers_at tables.old.lists jobs);
      requests = L.requests locks.now;
      shared = shared.now;
      free = (C.meaning cores.now).free;
    }) }
    ensures numbered { IfOk result (IsNumbered tables.new) }
    ensures learns { OnOk result (Learns tables.old tables.new) }
{
    let requests = pack_requests(alloc, tables, locks)?;
    let shared = pack_words(alloc, tables, shared.as_slice(), guess)?;
    Ok(KeptState {
        jobs,
        requests,
        shared,
        free: cores.free(),
    })
}
