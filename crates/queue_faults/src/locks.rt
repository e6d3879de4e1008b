//! Locks as a script spells them.

use crate::fault::{Fault, Reason};
use crate::items::{Item, Items, is_number};
use queue_script::{CODE_DIGITS, MOST_CODE, MOST_HALF, MOST_LEVEL};
use script_io::LINE_LENGTH;

fn is_name_character(c: u8) -> bool {
    c.is_ascii_alphanumeric() || c == b'.' || c == b'-' || c == b'_'
}

fn is_name(text: &[u8]) -> bool {
    match text {
        [] => false,
        [b'#', digits @ ..] => digits.len() <= CODE_DIGITS && is_number(digits, 8, 0, MOST_CODE),
        _ => text.iter().all(|c| is_name_character(*c)),
    }
}

/// Whether a text is the size and the amount of a pool.
fn is_pool(text: Item<'_>) -> bool {
    match text.cut(b':') {
        (size, Some(amount)) => {
            is_number(size.text, 10, 0, MOST_HALF) && is_number(amount.text, 10, 0, MOST_HALF)
        }
        _ => false,
    }
}

fn is_option(item: Item<'_>) -> bool {
    match item.text {
        [b'S' | b'B' | b'J'] => true,
        [b'G', group @ ..] => is_number(group, 10, 0, MOST_HALF),
        [b'L', level @ ..] => is_number(level, 10, 0, MOST_LEVEL),
        [b'P', pool @ ..] => is_pool(Item {
            text: pool,
            column: item.column,
        }),
        _ => false,
    }
}

/// Checks a lock: its name and its options, each at most once.
pub fn check_lock(item: Item<'_>) -> Result<(), Fault<'_>> {
    let mut parts = Items::of(item, b'/');
    let name = parts.next_or_end();
    if !is_name(name.text) {
        return Err(name.fault(Reason::LockName(name.text)));
    }
    let mut seen = Seen::default();
    for _ in 0..=LINE_LENGTH {
        let Some(option) = parts.next() else {
            return Ok(());
        };
        if !is_option(option) {
            return Err(option.fault(Reason::NoOption(option.text)));
        }
        if !seen.is_new(option.text) {
            return Err(option.is("stands here twice"));
        }
    }
    Ok(())
}

/// The options that were seen.
#[derive(Clone, Copy, Default)]
struct Seen {
    shared: bool,
    group: bool,
    bypass: bool,
    own: bool,
    level: bool,
    pool: bool,
}

impl Seen {
    /// Notes an option; true if it is the first of its kind.
    fn is_new(&mut self, option: &[u8]) -> bool {
        let kind = match option.first() {
            Some(b'S') => &mut self.shared,
            Some(b'G') => &mut self.group,
            Some(b'B') => &mut self.bypass,
            Some(b'J') => &mut self.own,
            Some(b'L') => &mut self.level,
            _ => &mut self.pool,
        };
        let is_new = !*kind;
        *kind = true;
        is_new
    }
}
