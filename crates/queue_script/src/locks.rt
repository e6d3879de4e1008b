//! The locks of a command.
ghost use Rattle.std.specs.Prelude.{◌≡◌, ◌≢◌, ◌<◌, ◌≤◌, ◌+◌, ◌++◌, ◌∷◌};
ghost use Rattle.std.specs.Prelude.{true, [], length, take, ◌^◌, None, Some, Ok, IfSome};
ghost use Rattle.std.specs.List.{list_all};
ghost use Rattle.script_io.specs.Numbers.{is_digit, parts, texts_in};
ghost use Rattle.queue_script.specs.Locks.{is_name_character, user_code, name_of_characters, name_of, lock_of, want_of_name};
ghost use Rattle.queue_script.specs.Locks.{IsFirstLock, IsNameFront, plain_want, key_of, terms_of, StoresWant, Stores, StoresFirst};
ghost use Rattle.queue_script.specs.Options.{is_option_character};
ghost use Rattle.queue_script.specs.declared.locks.LockName.{LockName};
ghost use Rattle.queue_script.specs.declared.locks.LockName.TheVariants.{Spelled, Coded};
ghost use Rattle.arrayvec.specs.ArrayVec.{array_vec_len};
ghost use Rattle.lock_queue.specs.Uses.{want_on};
ghost use Rattle.word36.specs.declared.sizes.TheConstants.{LOCKS_A_CALL};

use crate::options::{Options, front_options, read_options};
use lock_queue::{
    BlockUse, Group, Key, Level, Name, NameText, Refusal, Scope, UserCode, Want, Wants,
};
use script_io::{Parts, number};
use std::marker::Model;
use std::str;

/// The largest user code, a number of 33 bits.
pub const MOST_CODE: u64 = 0o77_777_777_777;

/// The most digits of a user code.
pub const CODE_DIGITS: usize = 11;

/// A name in characters where it stands in a line: one character or more. It may be too long for a
/// lock.
#[derive(Drop)]
pub struct Characters<'a> {
    text: &'a str,
}

impl<'a> Model for Characters<'a> {
    ghost use Rattle.std.specs.Prelude.{ℕ, List, ◌<◌, length};

    ghost Value = { List ℕ };

    ghost view = { λ c. c.text.now };

    ghost invariant = { λ c. 0 < length c.text.now };
}

/// A lock's name as a line spells it.
#[derive(Drop)]
pub enum LockName<'a> {
    /// A name in characters. It is not copied yet.
    Spelled(Characters<'a>),
    /// A name in bits.
    Coded(UserCode),
}

/// A lock as a line spells it.
#[derive(Drop)]
pub struct Lock<'a> {
    /// Its name.
    pub name: LockName<'a>,
    /// Its options.
    pub options: Options,
}

/// 1 for each character that a name may have, and 0 for the others.
static NAME_CHARACTERS: [u8; 256] = [
    0, 0, 0, 0, 0, 0, 0, 0, 0, 0, 0, 0, 0, 0, 0, 0, 0, 0, 0, 0, 0, 0, 0, 0, 0, 0, 0, 0, 0, 0, 0, 0,
    0, 0, 0, 0, 0, 0, 0, 0, 0, 0, 0, 0, 0, 1, 1, 0, 1, 1, 1, 1, 1, 1, 1, 1, 1, 1, 0, 0, 0, 0, 0, 0,
    0, 1, 1, 1, 1, 1, 1, 1, 1, 1, 1, 1, 1, 1, 1, 1, 1, 1, 1, 1, 1, 1, 1, 1, 1, 1, 1, 0, 0, 0, 0, 1,
    0, 1, 1, 1, 1, 1, 1, 1, 1, 1, 1, 1, 1, 1, 1, 1, 1, 1, 1, 1, 1, 1, 1, 1, 1, 1, 1, 0, 0, 0, 0, 0,
    0, 0, 0, 0, 0, 0, 0, 0, 0, 0, 0, 0, 0, 0, 0, 0, 0, 0, 0, 0, 0, 0, 0, 0, 0, 0, 0, 0, 0, 0, 0, 0,
    0, 0, 0, 0, 0, 0, 0, 0, 0, 0, 0, 0, 0, 0, 0, 0, 0, 0, 0, 0, 0, 0, 0, 0, 0, 0, 0, 0, 0, 0, 0, 0,
    0, 0, 0, 0, 0, 0, 0, 0, 0, 0, 0, 0, 0, 0, 0, 0, 0, 0, 0, 0, 0, 0, 0, 0, 0, 0, 0, 0, 0, 0, 0, 0,
    0, 0, 0, 0, 0, 0, 0, 0, 0, 0, 0, 0, 0, 0, 0, 0, 0, 0, 0, 0, 0, 0, 0, 0, 0, 0, 0, 0, 0, 0, 0, 0,
];

/// Whether a name may have this character.
#[tactic(auto, using(crate::proofs::LockLemmas::name_characters_are))]
pub fn is_name_character(character: u8) -> bool
    ensures { result ≡ is_name_character character }
{
    NAME_CHARACTERS[usize::from(character)] == 1
}

/// How many characters at the front of a text can belong to a name. They are tested four at a time, while there are four.
#[inline(always)]
#[tactic(auto, using(crate::proofs::LockLemmas::names_given))]
fn name_length(text: &[u8]) -> usize
    ensures within { result ≤ length text.now }
    ensures named { list_all is_name_character (take result text.now) ≡ true }
{
    let mut count = 0;
    'fours: while text.len() - count >= 4 {
        if !is_name_character(text[count]) {
            return count;
        }
        if !is_name_character(text[count + 1]) {
            return count + 1;
        }
        if !is_name_character(text[count + 2]) {
            return count + 2;
        }
        if !is_name_character(text[count + 3]) {
            return count + 3;
        }
        count += 4;
    }
    'ones: while count < text.len() {
        if !is_name_character(text[count]) {
            return count;
        }
        count += 1;
    }
    count
}

/// Whether a name may have these characters.
fn has_name_characters(text: &[u8]) -> bool
    ensures { result ≡ list_all is_name_character text.now }
{
    text.iter().all(|character| is_name_character(*character))
}

/// The user code that 1 to 11 octal digits spell.
fn read_code(digits: &[u8]) -> Option<u64>
    ensures value { result ≡ user_code digits.now }
    ensures small { IfSome result (λ code. code < 2 ^ 33) }
{
    if digits.len() > CODE_DIGITS {
        return None;
    }
    number(8, MOST_CODE, digits)
}

/// The name of these characters, which may be too long for a lock.
#[inline(always)]
pub fn spelled(text: &[u8]) -> Characters<'_>
    requires named { list_all is_name_character text.now ≡ true }
    requires some { 0 < length text.now }
    ensures { result ≡ text.now }
{
    // What is read is ASCII, and so it is UTF-8.
    let text = unsafe { str::from_utf8_unchecked(text) };
    Characters { text }
}

/// The name of these characters, if a name may have them.
fn read_text(text: &[u8]) -> Option<LockName<'_>>
    requires { 0 < length text.now }
    ensures { result ≡ name_of_characters text.now }
{
    if has_name_characters(text) {
        Some(LockName::Spelled(spelled(text)))
    } else {
        None
    }
}

/// The name that a text spells.
#[inline(always)]
fn read_name(text: &[u8]) -> Option<LockName<'_>>
    ensures { result ≡ name_of text.now }
{
    match text.split_first() {
        None => None,
        Some((b'#', digits)) => {
            let code = UserCode::new(read_code(digits)?);
            Some(LockName::Coded(code))
        }
        Some(_) => read_text(text),
    }
}

/// The lock that an item of a line spells.
#[inline(always)]
pub fn read_lock(item: &[u8]) -> Option<Lock<'_>>
    ensures { result ≡ lock_of item.now }
{
    let mut texts = Parts::of(item, b'/');
    let text = texts.next()?;
    let options = read_options(texts)?;
    let name = read_name(text)?;
    Some(Lock { name, options })
}

/// What was done with a lock, or the locks, of a call.
#[derive(Clone, Copy)]
pub enum StoreOutcome {
    /// Nothing: an item is no lock.
    NoLock,
    /// The wants were stored.
    Stored,
    /// A want is refused.
    Refused(Refusal),
}

/// The key of a name.
#[inline(always)]
fn key_of(job: u8, name: Name, own: bool) -> Key
    ensures { result ≡ key_of job name own }
{
    let scope = if own { Scope::Job(job) } else { Scope::All };
    Key { scope, name }
}

/// Puts a want at a position of the list: over the one there, or last.
#[inline(always)]
fn put(wants: &mut Wants, position: usize, want: Want)
    requires within { position ≤ array_vec_len wants.old }
    requires room { position < LOCKS_A_CALL }
    ensures items { take (position + 1) wants.new.items ≡ take position wants.old.items ++ want ∷ [] }
    ensures long { position + 1 ≤ array_vec_len wants.new }
{
    if position < wants.len() {
        wants[position] = want;
    } else {
        wants.push(want);
    }
}

/// What a call wants of a lock with neither a group nor a pool: nothing can be wrong with it.
#[inline(always)]
fn simple_want(block_use: BlockUse, key: Key, options: Options) -> Want
    requires group { options.group ≡ None }
    requires pool { options.pool ≡ None }
    ensures { want_on block_use key (terms_of options) ≡ Ok result }
{
    let named = matches!(block_use, BlockUse::Named);
    Want {
        key,
        shared: options.shared,
        group: Group::new(0),
        bypass: if named { false } else { options.bypass },
        level: if named {
            Level::new(0)
        } else {
            options.level.unwrap_or(Level::new(0))
        },
        pool: None,
    }
}

/// Stores what a call wants of the lock of this name, or refuses it.
#[inline(always)]
fn store_or_refuse(
    name: Name,
    options: Options,
    job: u8,
    block_use: BlockUse,
    wants: &mut Wants,
    position: usize,
) -> StoreOutcome
    requires within { position ≤ array_vec_len wants.old }
    requires room { position < LOCKS_A_CALL }
    ensures { StoresWant (want_on block_use (key_of job name options.own) (terms_of options)) position
        wants.old.items wants.new.items result }
{
    let key = key_of(job, name, options.own);
    if options.group.is_none() && options.pool.is_none() {
        put(wants, position, simple_want(block_use, key, options));
        return StoreOutcome::Stored;
    }
    match Want::on(block_use, key, options.terms()) {
        Ok(want) => {
            put(wants, position, want);
            StoreOutcome::Stored
        }
        Err(refusal) => StoreOutcome::Refused(refusal),
    }
}

/// Stores the want of a lock whose name is spelled in characters, which are copied here; or tells why it is refused.
#[inline(always)]
fn store_spelled(
    name: Characters<'_>,
    options: Options,
    job: u8,
    block_use: BlockUse,
    wants: &mut Wants,
    position: usize,
) -> StoreOutcome
    requires within { position ≤ array_vec_len wants.old }
    requires room { position < LOCKS_A_CALL }
    ensures { StoresWant (want_of_name job block_use (Spelled name.entry) options) position wants.old.items wants.new.items result }
{
    match NameText::new(name.text) {
        Some(text) => store_or_refuse(Name::Text(text), options, job, block_use, wants, position),
        None => StoreOutcome::Refused(Refusal::BadName),
    }
}

/// Stores the want of a lock whose name is spelled in characters and has no options, of any call; or tells why it is
/// refused.
#[inline(always)]
pub fn store_plain(name: Characters<'_>, wants: &mut Wants, position: usize) -> StoreOutcome
    requires within { position ≤ array_vec_len wants.old }
    requires room { position < LOCKS_A_CALL }
    ensures { StoresWant (plain_want name.entry) position wants.old.items wants.new.items result }
{
    match NameText::new(name.text) {
        Some(text) => {
            let want = Want {
                key: Key {
                    scope: Scope::All,
                    name: Name::Text(text),
                },
                shared: false,
                group: Group::new(0),
                bypass: false,
                level: Level::new(0),
                pool: None,
            };
            put(wants, position, want);
            StoreOutcome::Stored
        }
        None => StoreOutcome::Refused(Refusal::BadName),
    }
}

/// Stores what a call wants of the lock that an item spells, whatever its form.
#[inline(never)]
fn store_item(
    item: &[u8],
    job: u8,
    block_use: BlockUse,
    wants: &mut Wants,
    position: usize,
) -> StoreOutcome
    requires within { position ≤ array_vec_len wants.old }
    requires room { position < LOCKS_A_CALL }
    ensures { Stores job block_use (lock_of item.now) position wants.old.items wants.new.items result }
{
    match read_lock(item) {
        None => StoreOutcome::NoLock,
        Some(Lock { name, options }) => match name {
            LockName::Coded(code) => {
                store_or_refuse(Name::Code(code), options, job, block_use, wants, position)
            }
            LockName::Spelled(name) => store_spelled(
                name, options, job, block_use, wants, position,
            ),
        },
    }
}

/// Takes the first of some items, and stores what a call wants of its lock, whatever its form.
#[inline(always)]
fn take_next(
    items: &mut Parts<'_>,
    job: u8,
    block_use: BlockUse,
    wants: &mut Wants,
    position: usize,
) -> StoreOutcome
    requires some { items.old ≢ [] }
    requires within { position ≤ array_vec_len wants.old }
    requires room { position < LOCKS_A_CALL }
    ensures { StoresFirst job block_use items.old items.new position wants.old.items wants.new.items result }
{
    match items.next() {
        Some(item) => store_item(item, job, block_use, wants, position),
        None => StoreOutcome::NoLock,
    }
}

/// Whether a character is an octal digit.
#[inline(always)]
fn is_octal_digit(character: u8) -> bool
    ensures { result ≡ is_digit 8 character }
{
    character >= b'0' && character <= b'7'
}

/// The name in bits at the front of a text, and its length. Anything may follow it.
#[inline(always)]
fn front_code(text: &[u8]) -> Option<(UserCode, usize)>
    ensures within { IfSome result (λ r. r.1 ≤ length text.now) }
    ensures name { IfSome result (λ r. name_of (take r.1 text.now) ≡ Some (Coded r.0)) }
    ensures apart { IfSome result (λ r. list_all is_option_character (take r.1 text.now) ≡ true) }
{
    if text.is_empty() || text[0] != b'#' {
        return None;
    }
    let mut number = 0;
    let mut count = 1;
    'digits: while count < text.len() && is_octal_digit(text[count]) {
        number = 8 * number + u64::from(text[count] - b'0');
        if number > MOST_CODE {
            return None;
        }
        count += 1;
    }
    if count == 1 || count > CODE_DIGITS + 1 {
        return None;
    }
    Some((UserCode::new(number), count))
}

/// The options behind a name of `count` characters at the front of some items, and the items behind them. None if an option is
/// wrong.
#[inline(always)]
fn options_behind(text: &[u8], count: usize) -> Option<(Options, Option<&[u8]>)>
    requires within { count ≤ length text.now }
    requires apart { list_all is_option_character (take count text.now) ≡ true }
    ensures { IfSome result (λ r. (name : LockName) → name_of (take count text.now) ≡ Some name
        → IsFirstLock (parts 32 text.now) (Some (record { name = name; options = r.0 })) (texts_in 32 r.1)) }
{
    if count == text.len() {
        return Some((Options::none(), None));
    }
    let behind = &text[count + 1..];
    if text[count] == b' ' {
        return Some((Options::none(), Some(behind)));
    }
    if text[count] != b'/' {
        return None;
    }
    front_options(behind)
}

/// Takes the first of some items, and stores what a call wants of its lock, which is more than a name in characters: it has
/// options, or it is a name in bits. `count` is how many characters at the front can belong to a name.
#[inline(always)]
fn take_with_options<'a>(
    items: &mut Parts<'a>,
    text: &'a [u8],
    count: usize,
    job: u8,
    block_use: BlockUse,
    wants: &mut Wants,
    position: usize,
) -> StoreOutcome
    requires text { items.old ≡ parts 32 text.now }
    requires count { 0 < count → count < length text.now }
    requires named { list_all is_name_character (take count text.now) ≡ true }
    requires within { position ≤ array_vec_len wants.old }
    requires room { position < LOCKS_A_CALL }
    ensures { StoresFirst job block_use items.old items.new position wants.old.items wants.new.items result }
{
    if count > 0 {
        if text[count] == b'/' {
            if let Some((options, others)) = front_options(&text[count + 1..]) {
                *items = Parts::between_blanks(others);
                let name = spelled(&text[..count]);
                return store_spelled(name, options, job, block_use, wants, position);
            }
        }
    } else if let Some((code, count)) = front_code(text) {
        if let Some((options, others)) = options_behind(text, count) {
            *items = Parts::between_blanks(others);
            return store_or_refuse(Name::Code(code), options, job, block_use, wants, position);
        }
    }
    take_next(items, job, block_use, wants, position)
}

/// The text whose parts some items are, and how many characters at its front can belong to a name.
#[inline(always)]
pub fn name_front<'a>(items: &Parts<'a>) -> (Option<&'a [u8]>, usize)
    ensures { IsNameFront items.now result.0 result.1 }
{
    match items.left() {
        Some(text) => (Some(text), name_length(text)),
        None => (None, 0),
    }
}

/// Takes the first of the items of a text, and stores what a call wants of its lock; most locks are read in one pass. `count`
/// is how many characters at the front can belong to a name.
#[inline(always)]
fn take_in_text<'a>(
    items: &mut Parts<'a>,
    text: &'a [u8],
    count: usize,
    job: u8,
    block_use: BlockUse,
    wants: &mut Wants,
    position: usize,
) -> StoreOutcome
    requires text { items.old ≡ parts 32 text.now }
    requires front { count ≤ length text.now }
    requires named { list_all is_name_character (take count text.now) ≡ true }
    requires within { position ≤ array_vec_len wants.old }
    requires room { position < LOCKS_A_CALL }
    ensures { StoresFirst job block_use items.old items.new position wants.old.items wants.new.items result }
{
    if count > 0 {
        let name = &text[..count];
        if count == text.len() {
            *items = Parts::between_blanks(None);
            return store_plain(spelled(name), wants, position);
        }
        if text[count] == b' ' {
            *items = Parts::between_blanks(Some(&text[count + 1..]));
            return store_plain(spelled(name), wants, position);
        }
    }
    take_with_options(items, text, count, job, block_use, wants, position)
}

/// Takes the first of some items, and stores what a call wants of its lock. `text` and `count` are what `name_front` tells.
#[inline(always)]
pub fn take_first<'a>(
    items: &mut Parts<'a>,
    text: Option<&'a [u8]>,
    count: usize,
    job: u8,
    block_use: BlockUse,
    wants: &mut Wants,
    position: usize,
) -> StoreOutcome
    requires some { items.old ≢ [] }
    requires front { IsNameFront items.old text count }
    requires within { position ≤ array_vec_len wants.old }
    requires room { position < LOCKS_A_CALL }
    ensures { StoresFirst job block_use items.old items.new position wants.old.items wants.new.items result }
{
    match text {
        Some(text) => take_in_text(items, text, count, job, block_use, wants, position),
        None => take_next(items, job, block_use, wants, position),
    }
}
