//! What a call wants of a lock, as its block or its line in a script spells it.
ghost use Rattle.std.specs.Prelude.{◌≡◌, IsTrue, IfOk};
ghost use Rattle.lock_queue.specs.Uses.{pool_on, want_on};
ghost use Rattle.lock_queue.specs.WellFormed.{shares_rightly};

use crate::{Group, Key, Level, Pool, Refusal, Want};

/// What a call does with the locks of its block, or of its line in a script.
#[derive(Clone, Copy, Debug, PartialEq, Eq)]
pub enum BlockUse {
    /// It asks for them and waits for its grant: all of their terms count, and its block may have a time
    /// limit (ENQ. function 0).
    Blocking,
    /// It asks for them and does not wait: all of their terms count (ENQ. functions 1 and 2).
    Full,
    /// It names them: of their terms the bit for sharing alone counts (the other lock calls).
    Named,
}

/// The terms of a lock, as they are spelled. The pool may be wrong: `Want::on` refuses it then.
#[derive(Clone, Copy, Debug, PartialEq, Eq)]
pub struct Terms {
    /// Whether others who share may own it at the same time.
    pub shared: bool,
    /// Its group, where it is shared.
    pub group: Group,
    /// Whether it is exempt from the rule of rising levels.
    pub bypass: bool,
    /// Its level.
    pub level: Level,
    /// The size of its pool, or 0.
    pub pool_size: u32,
    /// How much of the pool is wanted, or 0.
    pub pool_amount: u32,
}

impl Terms {
    /// The pool, if there is one: size 0 with amount 0 is none. `BadPool` where a lock that is not shared
    /// has a group other than 0, where a pool is shared, and where its size is 0 or has more than 18 bits,
    /// or its amount is 0 or above the size.
    fn pool(self) -> Result<Option<Pool>, Refusal>
        ensures { result ≡ pool_on self.shared self.group self.pool_size self.pool_amount }
    {
        let group = self.group.number();
        if !self.shared && group != 0 {
            return Err(Refusal::BadPool);
        }
        if self.pool_size == 0 && self.pool_amount == 0 {
            return Ok(None);
        }
        if self.shared {
            return Err(Refusal::BadPool);
        }
        let pool = Pool::new(self.pool_size, self.pool_amount).ok_or(Refusal::BadPool)?;
        Ok(Some(pool))
    }
}

impl Want {
    /// What a call wants of the lock of this key on these terms: all of them where it asks for the lock,
    /// and sharing alone where it names the lock. `BadPool` where it asks for a pool of size 0, an amount
    /// of 0 or above the size, a pool that is shared, or a group other than 0 of a lock that is not shared
    /// (this project's profile).
    pub fn on(block_use: BlockUse, key: Key, terms: Terms) -> Result<Want, Refusal>
        ensures value { result ≡ want_on block_use key terms }
        ensures unshared { IfOk result (λ w. IsTrue (shares_rightly w)) }
    {
        match block_use {
            BlockUse::Blocking | BlockUse::Full => {
                let Terms {
                    shared,
                    group,
                    bypass,
                    level,
                    ..
                } = terms;
                let pool = terms.pool()?;
                Ok(Want {
                    key,
                    shared,
                    group,
                    bypass,
                    level,
                    pool,
                })
            }
            BlockUse::Named => {
                Ok(Want {
                    key,
                    shared: terms.shared,
                    group: Group::new(0),
                    bypass: false,
                    level: Level::new(0),
                    pool: None,
                })
            }
        }
    }
}
