//! The options of a lock.
ghost use Rattle.std.specs.Prelude.{◌≡◌, ◌^◌, ◌<◌, ◌≤◌, true, false, length, take, IfSome, Some, MatchOption, None};
ghost use Rattle.std.specs.List.{list_all};
ghost use Rattle.script_io.specs.Numbers.{front, IsFront, parts, texts_in};
ghost use Rattle.queue_script.specs.Locks.{terms_of};
ghost use Rattle.queue_script.specs.Options.{half_of, option_of, pool_of, with_option, options_from};
ghost use Rattle.queue_script.specs.Options.{no_options, is_option_character, SpellsOptions};

use lock_queue::{Group, Level, Terms};
use script_io::{Parts, number};

/// The largest level.
pub const MOST_LEVEL: u64 = 0o777;

/// The largest number of 18 bits, as of a pool's size.
pub const MOST_HALF: u64 = 0o777_777;

/// The two numbers of a pool's option, which need not make sense.
#[derive(Clone, Copy)]
pub struct PoolOption {
    /// The pool's size.
    pub size: u32,
    /// How much of it is wanted.
    pub amount: u32,
}

/// An option of a lock.
#[derive(Clone, Copy)]
pub enum LockOption {
    /// `/S`: others may share the lock.
    Shared,
    /// `/Gn`: those of this group share the lock.
    Group(Group),
    /// `/B`: the rule of rising levels does not apply to it.
    Bypass,
    /// `/Ln`: its level.
    Level(Level),
    /// `/Ps:a`: so much of a pool.
    Pool(PoolOption),
    /// `/J`: the name is this job's own.
    Own,
}

/// The options of a lock, each at most once.
#[derive(Clone, Copy)]
pub struct Options {
    /// Whether others may share the lock.
    pub shared: bool,
    /// Its group among those who share, if it is given.
    pub group: Option<Group>,
    /// Whether the rule of rising levels does not apply to it.
    pub bypass: bool,
    /// Its level, if it is given.
    pub level: Option<Level>,
    /// So much of a pool, if it is given.
    pub pool: Option<PoolOption>,
    /// Whether the name is this job's own.
    pub own: bool,
}

/// A number of 18 bits in decimal.
#[inline(always)]
pub fn read_half(text: &[u8]) -> Option<u32>
    ensures value { result ≡ half_of text.now }
    ensures small { IfSome result (λ n. n < 2 ^ 18) }
{
    match number(10, MOST_HALF, text) {
        Some(number) => Some(number as u32),
        None => None,
    }
}

/// Takes a number of 18 bits in decimal from the front of the items.
#[inline(always)]
pub fn next_half(items: &mut Parts<'_>) -> Option<u32>
    ensures value { MatchOption result (front half_of items.old ≡ None) (λ n. IsFront half_of n items.old items.new) }
    ensures small { IfSome result (λ n. n < 2 ^ 18) }
{
    let number = items.next_number(MOST_HALF)?;
    Some(number as u32)
}

/// The pool that `s:a` spells.
fn read_pool(text: &[u8]) -> Option<PoolOption>
    ensures { result ≡ pool_of (parts 58 text.now) }
{
    let mut numbers = Parts::of(text, b':');
    let size = numbers.next()?;
    let amount = numbers.next()?;
    if !numbers.is_empty() {
        return None;
    }
    let size = read_half(size)?;
    let amount = read_half(amount)?;
    Some(PoolOption { size, amount })
}

/// The option that a text behind a `/` spells.
#[inline(always)]
fn read_option(text: &[u8]) -> Option<LockOption>
    ensures { result ≡ option_of text.now }
{
    let (letter, rest) = text.split_first()?;
    match *letter {
        b'S' if rest.is_empty() => Some(LockOption::Shared),
        b'B' if rest.is_empty() => Some(LockOption::Bypass),
        b'J' if rest.is_empty() => Some(LockOption::Own),
        b'L' => Some(LockOption::Level(Level::new(number(10, MOST_LEVEL, rest)? as u16))),
        b'P' => Some(LockOption::Pool(read_pool(rest)?)),
        b'G' => Some(LockOption::Group(Group::new(read_half(rest)?))),
        _ => None,
    }
}

impl Options {
    /// No option.
    pub fn none() -> Self
        ensures { result ≡ no_options }
    {
        Options {
            shared: false,
            group: None,
            bypass: false,
            level: None,
            pool: None,
            own: false,
        }
    }

    /// The terms that they spell: a group, a level or a pool that is not given is 0.
    pub fn terms(self) -> Terms
        ensures { result ≡ terms_of self }
    {
        let (pool_size, pool_amount) = match self.pool {
            None => (0, 0),
            Some(pool) => (pool.size, pool.amount),
        };
        Terms {
            shared: self.shared,
            group: self.group.unwrap_or(Group::new(0)),
            bypass: self.bypass,
            level: self.level.unwrap_or(Level::new(0)),
            pool_size,
            pool_amount,
        }
    }

    /// Adds one more; false if one of its kind is among them.
    #[inline(always)]
    fn add(&mut self, option: LockOption) -> bool
        ensures added { result ≡ true → with_option self.old option ≡ Some self.new }
        ensures refused { result ≡ false → with_option self.old option ≡ None }
    {
        match option {
            LockOption::Shared if !self.shared => self.shared = true,
            LockOption::Group(group) if self.group.is_none() => self.group = Some(group),
            LockOption::Bypass if !self.bypass => self.bypass = true,
            LockOption::Level(level) if self.level.is_none() => self.level = Some(level),
            LockOption::Pool(pool) if self.pool.is_none() => self.pool = Some(pool),
            LockOption::Own if !self.own => self.own = true,
            _ => return false,
        }
        true
    }
}

/// The options that all texts spell, each behind a `/`.
#[inline(always)]
pub fn read_options(mut texts: Parts<'_>) -> Option<Options>
    ensures { result ≡ options_from no_options texts.entry }
{
    let mut options = Options::none();
    while let Some(text) = texts.next() {
        if !options.add(read_option(text)?) {
            return None;
        }
    }
    Some(options)
}

/// Whether an option may have this character: it ends no option.
#[inline(always)]
fn is_option_character(character: u8) -> bool
    ensures { result ≡ is_option_character character }
{
    character != b'/' && character != b' '
}

/// The length of the option at the front of some items.
#[inline(always)]
fn option_length(text: &[u8]) -> usize
    ensures within { result ≤ length text.now }
    ensures within_option { list_all is_option_character (take result text.now) ≡ true }
{
    for (i, character) in text.iter().enumerate() {
        if !is_option_character(*character) {
            return i;
        }
    }
    text.len()
}

/// Whether an option ends before this text.
#[inline(always)]
fn is_at_end(text: &[u8]) -> bool {
    text.is_empty() || !is_option_character(text[0])
}

/// The option at the front of a text, and its length. Anything may follow it. A level of one digit and a letter alone are tried
/// first.
#[inline(always)]
#[tactic(auto, using(crate::proofs::OptionLemmas::level_apart))]
fn front_option(text: &[u8]) -> Option<(LockOption, usize)>
    ensures within { IfSome result (λ r. r.1 ≤ length text.now) }
    ensures option { IfSome result (λ r. option_of (take r.1 text.now) ≡ Some r.0) }
    ensures characters { IfSome result (λ r. list_all is_option_character (take r.1 text.now) ≡ true) }
{
    match text {
        [b'L', digit, rest @ ..] if *digit >= b'0' && *digit <= b'9' && is_at_end(rest) => {
            let level = Level::new(u16::from(*digit - b'0'));
            return Some((LockOption::Level(level), 2));
        }
        _ => {}
    }
    match text {
        [b'B', ..] => return Some((LockOption::Bypass, 1)),
        [b'S', ..] => return Some((LockOption::Shared, 1)),
        [b'J', ..] => return Some((LockOption::Own, 1)),
        _ => {}
    }
    let length = option_length(text);
    Some((read_option(&text[..length])?, length))
}

/// The options at the front of some items, each but the first behind a `/`, and the items behind them, read in one pass. None
/// if an option is wrong.
#[inline(always)]
pub fn front_options(text: &[u8]) -> Option<(Options, Option<&[u8]>)>
    ensures { IfSome result (λ r. SpellsOptions no_options text.now r.0 (texts_in 32 r.1)) }
{
    let mut options = Options::none();
    let mut rest = text;
    loop {
        let (option, length) = front_option(rest)?;
        if !options.add(option) {
            return None;
        }
        if length == rest.len() {
            return Some((options, None));
        }
        let behind = &rest[length + 1..];
        if rest[length] == b' ' {
            return Some((options, Some(behind)));
        }
        if rest[length] != b'/' {
            return None;
        }
        rest = behind;
    }
}
