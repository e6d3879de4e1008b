//! The stops that the user sets.

ghost use Rattle.std.specs.Prelude.{◌≡◌, ◌-◌, ◌≤◌, ◌||◌, [], None, false, is_none, is_some, length, nat_lt, position, replicate};
ghost use Rattle.std.specs.Prelude.{slice_index_or, slice_set};
ghost use Rattle.std.specs.List.{filter, list_any};
ghost use Rattle.ddt_breakpoints.specs.declared.TheConstants.{BREAKPOINTS};
ghost use Rattle.ddt_moves.specs.StopLists.{counts, is_there, number_at, slot_by, slot_for, with_breakpoint};
ghost use Rattle.ddt_moves.specs.StopLists.{is_other, is_same, is_watched_then, words_with};

use arrayvec::ArrayVec;
use ddt_breakpoints::{BREAKPOINTS, Condition};
use ddt_timeline::StopCondition;
use lock_queue::Name;
use word36::{Address, Word};

/// An address where runs stop when a job comes to it.
#[derive(Clone, Copy)]
pub struct Breakpoint {
    /// The number of the job.
    pub job: u8,
    /// The address.
    pub address: Address,
    /// What has to hold of the job's words there, if anything.
    pub condition: Option<Condition>,
    /// From which time on it stops the job that comes there: 1 for each time.
    pub times: u32,
}

impl Breakpoint {
    /// Whether it counts how often its job comes to it.
    pub fn counts(&self) -> bool
        ensures { result ≡ nat_lt 1 self.now.times }
    {
        1 < self.times
    }

    /// Where it stops a run, if each time counts.
    pub fn stop(&self) -> StopCondition
        ensures { result ≡ StopCondition.At self.now.job self.now.address self.now.condition }
    {
        // A stop may hold a word, of which this has none: the prover wants its type to be named.
        let _word: Option<Word> = None;
        StopCondition::At(self.job, self.address, self.condition)
    }
}

/// Whether a breakpoint is set, and counts.
fn counts(slot: &Option<Breakpoint>) -> bool
    ensures { result ≡ counts slot.now }
{
    match slot {
        Some(breakpoint) => breakpoint.counts(),
        None => false,
    }
}

/// Whether one of some breakpoints counts.
fn some_count(slots: &[Option<Breakpoint>]) -> bool
    ensures { result ≡ list_any counts slots.now }
{
    for slot in slots {
        if counts(slot) {
            return true;
        }
    }
    false
}

/// Whether a breakpoint is set at an address of a job.
fn is_there(slot: &Option<Breakpoint>, job: u8, address: Address) -> bool
    ensures { result ≡ is_there job address slot.now }
{
    match slot {
        Some(breakpoint) => breakpoint.job == job && breakpoint.address == address,
        None => false,
    }
}

/// The slot of the breakpoint that is set at an address of a job.
fn slot_of(slots: &[Option<Breakpoint>], job: u8, address: Address) -> Option<usize>
    ensures { result ≡ position (is_there job address) slots.now }
{
    for (i, slot) in slots.iter().enumerate() {
        if is_there(slot, job, address) {
            return Some(i);
        }
    }
    None
}

/// The first slot that is free.
fn free_slot(slots: &[Option<Breakpoint>]) -> Option<usize>
    ensures { result ≡ position is_none slots.now }
{
    for (i, slot) in slots.iter().enumerate() {
        if slot.is_none() {
            return Some(i);
        }
    }
    None
}

/// Sets a breakpoint in a slot, and gives its number; `None`, and nothing changes, where there is no such slot.
fn put(
    slots: &mut [Option<Breakpoint>],
    slot: Option<usize>,
    breakpoint: &Breakpoint,
) -> Option<usize>
    ensures number { result ≡ number_at slots.old slot }
    ensures set { slots.new ≡ with_breakpoint breakpoint.now slot slots.old }
{
    let slot = slot?;
    if slot >= slots.len() {
        return None;
    }
    slots[slot] = Some(*breakpoint);
    Some(slot + 1)
}

/// A word that is watched: runs stop where it changes.
#[derive(Clone, Copy, PartialEq, Eq, Default)]
pub struct WatchedWord {
    /// The number of the job.
    pub job: u8,
    /// The address.
    pub address: u32,
}

impl WatchedWord {
    /// Whether another word is this one: the same address of the same job.
    fn is_same(&self, other: &WatchedWord) -> bool
        ensures { result ≡ is_same self.now other.now }
    {
        self.job == other.job && self.address == other.address
    }
}

/// Whether a word is watched.
fn is_watched(words: &[WatchedWord], word: &WatchedWord) -> bool
    ensures { result ≡ list_any (is_same word.now) words.now }
{
    for one in words {
        if word.is_same(one) {
            return true;
        }
    }
    false
}

/// The words that are watched but for one.
fn other_words(words: &[WatchedWord], word: &WatchedWord) -> ArrayVec<WatchedWord, BREAKPOINTS>
    requires { length words.now ≤ BREAKPOINTS }
    ensures { result.items ≡ filter (is_other word.now) words.now }
{
    let mut others = ArrayVec::new();
    for one in words {
        if !word.is_same(one) {
            others.push(*one);
        }
    }
    others
}

/// The stops that the user sets.
#[derive(Drop)]
pub struct StopList {
    /// The breakpoints 1 to 8, those that are set.
    pub breakpoints: [Option<Breakpoint>; BREAKPOINTS],
    /// The words that are watched.
    pub words: ArrayVec<WatchedWord, BREAKPOINTS>,
    /// Whether runs stop where a circle of waits closes: `.BREAK CIRCLE`.
    pub circles: bool,
    /// The lock before whose calls runs stop, if there is one: `.BREAK LOCK`.
    pub lock: Option<Name>,
    /// Whether runs stop where a request is granted: `.BREAK GRANT`.
    pub grants: bool,
}

impl StopList {
    /// No stops.
    pub fn new() -> Self
        ensures breakpoints { result.breakpoints ≡ replicate BREAKPOINTS None }
        ensures words { result.words.items ≡ [] }
        ensures others { (result.circles ≡ false) × (result.lock ≡ None) × (result.grants ≡ false) }
    {
        StopList {
            breakpoints: [None; BREAKPOINTS],
            words: ArrayVec::new(),
            circles: false,
            lock: None,
            grants: false,
        }
    }

    /// The slot of the breakpoint that is set at an address of a job, or else the first that is free.
    fn slot_for(&self, job: u8, address: Address) -> Option<usize>
        ensures { result ≡ slot_for job address self.now.breakpoints }
    {
        match slot_of(&self.breakpoints, job, address) {
            Some(slot) => Some(slot),
            None => free_slot(&self.breakpoints),
        }
    }

    /// The slot of a breakpoint: that of its number, if it has one, or else the slot for it.
    fn slot_by(&self, breakpoint: &Breakpoint, number: Option<u8>) -> Option<usize>
        ensures { result ≡ slot_by number breakpoint.now self.now.breakpoints }
    {
        match number {
            Some(number) => Some(usize::from(number).saturating_sub(1)),
            None => self.slot_for(breakpoint.job, breakpoint.address),
        }
    }

    /// Sets a breakpoint: the one of a number from 1 to 8, or else the one at the same address of its job, or a free one. Gives
    /// its number; `None`, and nothing changes, where all are set.
    pub fn set(&mut self, breakpoint: &Breakpoint, number: Option<u8>) -> Option<usize>
        ensures number { result ≡ number_at self.old.breakpoints (slot_by number breakpoint.now self.old.breakpoints) }
        ensures set { self.new.breakpoints
            ≡ with_breakpoint breakpoint.now (slot_by number breakpoint.now self.old.breakpoints) self.old.breakpoints }
        ensures words { self.new.words ≡ self.old.words }
        ensures others { (self.new.circles ≡ self.old.circles) × (self.new.lock ≡ self.old.lock) × (self.new.grants ≡ self.old.grants) }
    {
        let slot = self.slot_by(breakpoint, number);
        put(&mut self.breakpoints, slot, breakpoint)
    }

    /// Whether one of the breakpoints counts how often its job comes to it.
    pub fn counts(&self) -> bool
        ensures { result ≡ list_any counts self.now.breakpoints }
    {
        some_count(&self.breakpoints)
    }

    /// Whether runs end at more than stops: at circles of waits, at grants, before calls on a lock, or at breakpoints that count.
    pub(crate) fn needs_watch(&self) -> bool
        ensures { result ≡ (((self.now.circles || self.now.grants) || is_some self.now.lock) || list_any counts self.now.breakpoints) }
    {
        self.circles || self.grants || self.lock.is_some() || self.counts()
    }

    /// Clears the breakpoint of a number from 1 to 8; false where it was not set.
    pub fn unset(&mut self, number: u8) -> bool
        ensures was_set { result ≡ is_some (slice_index_or self.old.breakpoints (number - 1) None) }
        ensures unset { self.new.breakpoints ≡ slice_set self.old.breakpoints (number - 1) None }
        ensures words { self.new.words ≡ self.old.words }
        ensures others { (self.new.circles ≡ self.old.circles) × (self.new.lock ≡ self.old.lock) × (self.new.grants ≡ self.old.grants) }
    {
        let slot = usize::from(number).saturating_sub(1);
        if slot >= self.breakpoints.len() {
            return false;
        }
        let was_set = self.breakpoints[slot].is_some();
        self.breakpoints[slot] = None;
        was_set
    }

    /// Watches a word, or no longer where it is watched, and says whether it is now. `None`, and nothing changes, where 8 words are
    /// watched already.
    pub fn watch(&mut self, word: WatchedWord) -> Option<bool>
        ensures is_watched { result ≡ is_watched_then word self.old.words.items }
        ensures words { self.new.words.items ≡ words_with word self.old.words.items }
        ensures breakpoints { self.new.breakpoints ≡ self.old.breakpoints }
        ensures others { (self.new.circles ≡ self.old.circles) × (self.new.lock ≡ self.old.lock) × (self.new.grants ≡ self.old.grants) }
    {
        if is_watched(self.words.as_slice(), &word) {
            self.words = other_words(self.words.as_slice(), &word);
            return Some(false);
        }
        if self.words.is_full() {
            return None;
        }
        self.words.push(word);
        Some(true)
    }
}
