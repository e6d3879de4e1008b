//! The wants of a call.
ghost use Rattle.std.specs.Prelude.{◌≡◌, ◌<◌, ◌≤◌, true, length, take, option_map};
ghost use Rattle.std.specs.List.{list_all};
ghost use Rattle.std.specs.Option.{option_map_or};
ghost use Rattle.queue_script.specs.Borrowed.{filled};
ghost use Rattle.script_io.specs.Numbers.{parts};
ghost use Rattle.queue_script.specs.Locks.{is_name_character, IsNameFront, locks_of, call_wants, refused_with};
ghost use Rattle.queue_script.specs.declared.locks.StoreOutcome.TheVariants.{NoLock};

use crate::locks::{StoreOutcome, name_front, read_lock, spelled, store_plain, take_first};
use lock_queue::{BlockUse, Refusal, Wants};
use script_io::Parts;
use word36::LOCKS_A_CALL;

/// Why a call is refused that names `first` locks and those of some items, if `why` is wrong with one of them: too many locks
/// come first.
#[inline(never)]
fn refuse(mut items: Parts<'_>, first: usize, why: Refusal) -> StoreOutcome
    ensures { result ≡ option_map_or (refused_with first why) (locks_of items.entry) NoLock }
{
    let mut count = first;
    while let Some(item) = items.next() {
        match read_lock(item) {
            None => return StoreOutcome::NoLock,
            Some(_) => {}
        }
        count = LOCKS_A_CALL.min(count) + 1;
    }
    if count > LOCKS_A_CALL {
        StoreOutcome::Refused(Refusal::BadCount)
    } else {
        StoreOutcome::Refused(why)
    }
}

/// Fills in the want of the one lock that a text spells, a name in characters and nothing else; or returns why the call is
/// refused.
#[inline(always)]
fn read_one(text: &[u8], job: u8, block_use: BlockUse, wants: &mut Wants) -> StoreOutcome
    requires some { 0 < length text.now }
    requires named { list_all is_name_character text.now ≡ true }
    ensures { filled result wants.new ≡ option_map (call_wants job block_use) (locks_of (parts 32 text.now)) }
{
    let outcome = store_plain(spelled(text), wants, 0);
    wants.truncate(1);
    outcome
}

/// Fills in the wants that the items of a line spell, over those before, or returns why the call is refused. `first_text` and
/// `first_count` are what `name_front` tells of the items.
#[inline(always)]
fn read_all<'a>(
    mut items: Parts<'a>,
    first_text: Option<&'a [u8]>,
    first_count: usize,
    job: u8,
    block_use: BlockUse,
    wants: &mut Wants,
) -> StoreOutcome
    requires { IsNameFront items first_text first_count }
    ensures { filled result wants.new ≡ option_map (call_wants job block_use) (locks_of items.entry) }
{
    let mut text = first_text;
    let mut named = first_count;
    let mut count = 0;
    'items: while !items.is_empty() {
        if count == LOCKS_A_CALL {
            return refuse(items, LOCKS_A_CALL, Refusal::BadCount);
        }
        match take_first(&mut items, text, named, job, block_use, wants, count) {
            StoreOutcome::Stored => count += 1,
            StoreOutcome::NoLock => return StoreOutcome::NoLock,
            StoreOutcome::Refused(why) => return refuse(items, count + 1, why),
        }
        let front = name_front(&items);
        text = front.0;
        named = front.1;
    }
    if count == 0 {
        return StoreOutcome::Refused(Refusal::BadCount);
    }
    wants.truncate(count);
    StoreOutcome::Stored
}

/// The same for the items that are the parts of a text.
#[inline(never)]
fn read_text(
    text: &[u8],
    count: usize,
    job: u8,
    block_use: BlockUse,
    wants: &mut Wants,
) -> StoreOutcome
    requires within { count ≤ length text.now }
    requires named { list_all is_name_character (take count text.now) ≡ true }
    ensures { filled result wants.new ≡ option_map (call_wants job block_use) (locks_of (parts 32 text.now)) }
{
    let items = Parts::between_blanks(Some(text));
    read_all(items, Some(text), count, job, block_use, wants)
}

/// The same for any items.
#[inline(never)]
fn read_items(items: Parts<'_>, job: u8, block_use: BlockUse, wants: &mut Wants) -> StoreOutcome
    ensures { filled result wants.new ≡ option_map (call_wants job block_use) (locks_of items.entry) }
{
    read_all(items, None, 0, job, block_use, wants)
}

/// Fills in the wants that the items of a line spell, over those before, or returns why the call is refused. Many calls name one
/// lock, and nothing else of it.
#[inline(always)]
pub fn read_wants(items: Parts<'_>, job: u8, block_use: BlockUse, wants: &mut Wants) -> StoreOutcome
    ensures { filled result wants.new ≡ option_map (call_wants job block_use) (locks_of items.entry) }
{
    let (front, count) = name_front(&items);
    let Some(text) = front else {
        return read_items(items, job, block_use, wants);
    };
    if count > 0 && count == text.len() {
        return read_one(text, job, block_use, wants);
    }
    read_text(text, count, job, block_use, wants)
}
