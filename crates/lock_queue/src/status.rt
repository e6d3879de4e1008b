//! The status of a key.
ghost use Rattle.std.specs.Prelude.{◌≡◌, ◌≤◌};
ghost use Rattle.lock_queue.specs.StatusWords.{left_bit, words_of};

use crate::Level;
use word36::Word;

/// The status of a key, for the job that asks (ENQC. function 0).
#[derive(Clone, Copy, Debug, PartialEq, Eq)]
pub struct Status {
    /// Whether the asking job owns it.
    pub owns: bool,
    /// Whether the asking job waits for it.
    pub waits: bool,
    /// Whether an owner has it exclusively, without a pool.
    pub exclusive: bool,
    /// The level that all present wants of it have, 0 where there are none.
    pub level: Level,
    /// The job of its first owner.
    pub first_owner: Option<u8>,
    /// How many requests own it.
    pub owner_count: u16,
    /// How many requests wait for it.
    pub waiter_count: u16,
    /// How much of its pool the owners have.
    pub amount: u32,
}

impl Status {
    /// The three words of ENQC. (this project's profile). In the first, bit 1 says that the caller
    /// owns the key, bit 2 that the caller waits for it and bit 3 that it is owned exclusively
    /// without a pool; bits 9 to 17 are the level, and the right half is the first owner's job, or 0.
    /// The second is the number of owners and, in the right half, of waiters. The third is the
    /// amount. A key without requests has three zero words.
    pub fn words(&self) -> [Word; 3]
        ensures { result ≡ words_of self.now }
    {
        let flags = left_bit(1, self.owns) + left_bit(2, self.waits) + left_bit(3, self.exclusive);
        let first_owner = self.first_owner.unwrap_or(0) as u32;
        [
            Word::join(flags + self.level.number() as u32, first_owner),
            Word::join(self.owner_count as u32, self.waiter_count as u32),
            Word::new(self.amount as u64),
        ]
    }
}

/// A flag in a bit of a word's left half, from 1 to 3.
fn left_bit(bit: u32, flag: bool) -> u32
    requires { bit ≤ 17 }
    ensures { result ≡ left_bit bit flag }
{
    if flag { 1 << (17 - bit) } else { 0 }
}
