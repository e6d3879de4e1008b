//! Searches for words.

use crate::session::Session;
use concrete_machine::Machine;
use ddt_commands::{CommandError, Search, SearchKind};
use ddt_show::refuse;
use ddt_timeline::Timeline;
use word36::{BLOCK_WORDS, Word};

/// Whether a search finds a word of a job.
fn is_found(machine: &Machine, number: u8, search: &Search, mask: Word, word: Word) -> bool {
    let mask = mask.number();
    let is_equal = word.number() & mask == search.value.number() & mask;
    match search.kind {
        SearchKind::Equal => is_equal,
        SearchKind::NotEqual => !is_equal,
        SearchKind::Address => match machine.effective_address(number, word) {
            Some(address) => address.number() == search.value.right(),
            None => false,
        },
    }
}

/// The addresses that a search looks at, of a job that has so many words of core: the first, and that behind the last.
fn range_of(search: &Search, words: u32) -> (u32, u32) {
    match search.range {
        Some((first, last)) => (first, words.min(last.saturating_add(1))),
        None => (0, words),
    }
}

/// `value<mask>$W` and the like: shows the words in the core of the open job that a search finds, or that it finds none.
pub fn search(session: &mut Session, timeline: &Timeline, search: &Search) {
    let number = session.open;
    let Some(view) = timeline.machine().job(number) else {
        return session.show_job(timeline, number);
    };
    let mut is_any = false;
    let mask = search.mask.unwrap_or(session.mask);
    let (first, end) = range_of(search, view.blocks.saturating_mul(BLOCK_WORDS as u32));
    for address in first..end {
        let Some(word) = timeline.machine().peek(number, address) else {
            break;
        };
        if is_found(timeline.machine(), number, search, mask, word) {
            session.show_address(timeline, address);
            session.here = address;
            is_any = true;
        }
    }
    if !is_any {
        refuse(&mut session.answer, CommandError::NotFound);
    }
}
