//! A job's memory, and what a call finds of a block there.

use call_block::{Block, read_block};
use ka_state::{Flags, ReadMemory, Regs};
use lock_queue::{BlockUse, Name, Pool, Refusal, Scope, Want};
use std::alloc::{AllocError, Global};
use word36::{Address, Word};

/// The halves of a word.
pub type Halves = (u32, u32);

/// The job that asks.
pub const JOB: u8 = 9;

/// Core that owns its words.
#[derive(Drop)]
struct Core {
    words: Vec<Word>,
}

impl ReadMemory for Core {
    ghost words = { λ core. core.words.items };

    fn size(&self) -> usize {
        self.words.len()
    }

    fn read(&self, a: u32) -> Option<Word> {
        self.words.get(a as usize).copied()
    }
}

/// A job's registers and core.
#[derive(Drop)]
pub struct Job {
    regs: Regs,
    core: Core,
}

/// What a call finds of a block.
#[derive(Clone, Copy)]
pub enum Fact {
    /// The block is refused so, or is not refused.
    Refused(Option<Refusal>),
    /// The id of the request.
    Id(u32),
    /// The limit of time.
    Limit(u32),
    /// How many locks there are.
    Locks(usize),
    /// The text that is the name of the first lock.
    Text(&'static str),
    /// The user code that is the name of the first lock.
    Code(u64),
    /// Whose name that of the first lock is.
    NameOf(Scope),
    /// Whether the first lock is shared, whether it bypasses the order of levels, and its level.
    Terms(bool, bool, u16),
    /// The size of the first lock's pool and how much of it is wanted, if there is a pool.
    Share(Option<(u32, u32)>),
    /// The group of the first lock.
    InGroup(u32),
}

/// Whether a pool has this size and this amount of it is wanted; whether there is none.
fn is_share(pool: Option<Pool>, share: Option<(u32, u32)>) -> bool {
    match (pool, share) {
        (Some(pool), Some((size, amount))) => pool.size() == size && pool.amount() == amount,
        (None, None) => true,
        _ => false,
    }
}

impl Fact {
    /// Whether it is a fact of the first lock.
    fn is_of_want(&self, want: &Want) -> bool {
        match (self, &want.key.name) {
            (Fact::Text(wanted), Name::Text(text)) => text.as_str() == *wanted,
            (Fact::Code(wanted), Name::Code(code)) => code.number() == *wanted,
            (Fact::NameOf(scope), _) => want.key.scope == *scope,
            (Fact::Terms(shared, bypass, level), _) => {
                want.shared == *shared && want.bypass == *bypass && want.level.number() == *level
            }
            (Fact::Share(share), _) => is_share(want.pool, *share),
            (Fact::InGroup(group), _) => want.group.number() == *group,
            _ => false,
        }
    }

    /// Whether it is a fact of a block that is read.
    fn is_of(&self, block: &Block) -> bool {
        match self {
            Fact::Refused(refusal) => refusal.is_none(),
            Fact::Id(id) => block.id.number() == *id,
            Fact::Limit(limit) => block.limit == *limit,
            Fact::Locks(count) => block.wants.len() == *count,
            _ => match block.wants.first() {
                Some(want) => self.is_of_want(want),
                None => false,
            },
        }
    }

    /// Whether it is that a block is refused so.
    fn is_refusal(&self, refusal: Refusal) -> bool {
        match self {
            Fact::Refused(Some(wanted)) => *wanted == refusal,
            _ => false,
        }
    }
}

impl Job {
    /// A job with so many words of core, all zero, as are its registers.
    pub fn new(alloc: Global, size: usize) -> Result<Self, AllocError> {
        let regs = Regs {
            ac: [Word::new(0); 16],
            pc: Address::new(0),
            flags: Flags {
                overflow: false,
                carry0: false,
                carry1: false,
                no_divide: false,
            },
        };
        let words = vec![in alloc; Word::new(0); size]?;
        Ok(Job {
            regs,
            core: Core { words },
        })
    }

    /// Stores a word at an address, where it is legal.
    fn store(&mut self, address: u32, word: Word) {
        if address < 16 {
            self.regs.ac[address as usize] = word;
        } else if let Some(place) = self.core.words.get_mut(address as usize) {
            *place = word;
        }
    }

    /// Stores words, given as halves, from an address on.
    pub fn put(&mut self, address: u32, words: &[Halves]) {
        for (address, (left, right)) in (address..u32::MAX).zip(words) {
            self.store(address, Word::join(*left & 0o777_777, *right & 0o777_777));
        }
    }

    /// Stores a text as ASCIZ does: five characters a word from the left, bit 35 zero.
    pub fn put_text(&mut self, address: u32, text: &str) {
        for (address, five) in (address..u32::MAX).zip(text.as_bytes().chunks(5)) {
            let mut number: u64 = 0;
            for k in 0..5 {
                let character = five.get(k).copied().unwrap_or(0);
                number = (number << 7 | u64::from(character)) & 0o377_777_777_777;
            }
            self.store(address, Word::low_bits(number << 1));
        }
    }

    /// Whether a call of this use finds this of the block at an address.
    pub fn finds(&self, address: u32, block_use: BlockUse, fact: Fact) -> bool {
        let at = Address::new(address & 0o777_777);
        match read_block(&self.regs, &self.core, at, JOB, block_use) {
            Ok(block) => fact.is_of(&block),
            Err(refusal) => fact.is_refusal(refusal),
        }
    }
}
