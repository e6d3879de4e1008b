//! Wants: the locks of a request.
ghost use Rattle.std.specs.Prelude.{◌≡◌, ◌<◌, ◌^◌, IsTrue};
ghost use Rattle.lock_queue.specs.WellFormed.{is_in_range};

use crate::{Key, Name, Pool, Scope, UserCode};
use arrayvec::ArrayVec;
use std::marker::Model;
use word36::LOCKS_A_CALL;

/// The level of a lock, 0 to 511: a job asks for its locks by rising levels, unless it bypasses
/// that rule.
#[derive(Clone, Copy, Debug, PartialEq, Eq)]
pub struct Level {
    number: u16,
}

impl Model for Level {
    ghost use Rattle.std.specs.Prelude.{ℕ, ◌<◌, ◌^◌};

    ghost Value = { ℕ };

    ghost view = { λ l. l.number };

    ghost inverse = { λ n. record { number = n } };

    ghost invariant = { λ l. l.number < 2 ^ 9 };
}

impl Level {
    /// The level of this number.
    pub fn new(number: u16) -> Self
        requires { number < 2 ^ 9 }
        ensures { result ≡ number }
    {
        Level { number }
    }

    /// The number.
    pub fn number(self) -> u16
        ensures value { result ≡ self }
        ensures below { result < 2 ^ 9 }
    {
        self.number
    }

    /// A copy of the level.
    pub fn copied(&self) -> Self
        ensures value { result ≡ self.now }
        ensures below { self.now < 2 ^ 9 }
    {
        Level {
            number: self.number,
        }
    }
}

/// A group of those who share a lock: a number of 18 bits.
#[derive(Clone, Copy, Debug, PartialEq, Eq)]
pub struct Group {
    number: u32,
}

impl Model for Group {
    ghost use Rattle.std.specs.Prelude.{ℕ, ◌<◌, ◌^◌};

    ghost Value = { ℕ };

    ghost view = { λ g. g.number };

    ghost inverse = { λ n. record { number = n } };

    ghost invariant = { λ g. g.number < 2 ^ 18 };
}

impl Group {
    /// The group of this number.
    pub fn new(number: u32) -> Self
        requires { number < 2 ^ 18 }
        ensures { result ≡ number }
    {
        Group { number }
    }

    /// The number.
    pub fn number(self) -> u32
        ensures value { result ≡ self }
        ensures below { result < 2 ^ 18 }
    {
        self.number
    }

    /// A copy of the group.
    pub fn copied(&self) -> Self
        ensures value { result ≡ self.now }
        ensures below { self.now < 2 ^ 18 }
    {
        Group {
            number: self.number,
        }
    }
}

/// One lock of a request.
#[derive(Clone, Copy)]
pub struct Want {
    /// What is locked.
    pub key: Key,
    /// Whether others who share may own it at the same time.
    pub shared: bool,
    /// The group whose members share it; 0 where it is not shared.
    pub group: Group,
    /// Whether it is exempt from the rule of rising levels.
    pub bypass: bool,
    /// Its level.
    pub level: Level,
    /// How much of which pool is wanted, where it is a pool.
    pub pool: Option<Pool>,
}

/// The wants of a call or a request, at most 16.
pub type Wants = ArrayVec<Want, LOCKS_A_CALL>;

impl Want {
    /// A copy of the want.
    pub fn copied(&self) -> Want
        ensures value { result ≡ self.now }
        ensures range { IsTrue (is_in_range self.now) }
    {
        let pool = match &self.pool {
            Some(pool) => Some(pool.copied()),
            None => None,
        };
        Want {
            level: self.level.copied(),
            pool,
            ..*self
        }
    }
}

/// An exclusive want of the user code 0: what the unused elements of `Wants` hold.
impl Default for Want {
    ghost use Rattle.std.specs.Prelude.{◌≡◌};
    ghost use Rattle.lock_queue.specs.Unused.{unused_want};

    ghost is_default = { λ w. w ≡ unused_want };

    fn default() -> Self {
        Want {
            key: Key {
                scope: Scope::All,
                name: Name::Code(UserCode::new(0)),
            },
            shared: false,
            group: Group::new(0),
            bypass: false,
            level: Level::new(0),
            pool: None,
        }
    }
}
