//! Pools of things that are alike.
ghost use Rattle.std.specs.Prelude.{◌≡◌, ◌≤◌, ◌<◌, ◌^◌, ◌↔◌, IsSome, IfSome, IsTrue};
ghost use Rattle.lock_queue.specs.Pools.{is_right_share};

use std::marker::Model;

/// A pool of things that are alike, as tape drives: how many there are, and how many of them a want
/// takes, at least 1 and at most all. Sizes are numbers of 18 bits (this project's profile).
#[derive(Clone, Copy, Debug, PartialEq, Eq)]
pub struct Pool {
    size: u32,
    amount: u32,
}

impl Model for Pool {
    ghost use Rattle.std.specs.Prelude.{◌≤◌, ◌<◌, ◌^◌};
    ghost use Rattle.lock_queue.specs.Pools.{PoolShare};

    ghost Value = { PoolShare };

    ghost view = { λ p. record { size = p.size; amount = p.amount } };

    ghost inverse = { λ s. record { size = s.size; amount = s.amount } };

    ghost invariant = { λ p. (1 ≤ p.amount) × (p.amount ≤ p.size) × (p.size < 2 ^ 18) };
}

impl Pool {
    /// An amount of a pool of this size; `None` unless the amount is from 1 to the size and the size has
    /// 18 bits.
    pub fn new(size: u32, amount: u32) -> Option<Self>
        ensures variant { IsSome result ↔ (1 ≤ amount) × (amount ≤ size) × (size < 2 ^ 18) }
        ensures value { IfSome result (λ p. p ≡ record { size = size; amount = amount }) }
    {
        if 1 <= amount && amount <= size && size < 0o1_000_000 {
            Some(Pool { size, amount })
        } else {
            None
        }
    }

    /// How much there is in all.
    pub fn size(self) -> u32
        ensures value { result ≡ self.size }
        ensures below { result < 2 ^ 18 }
    {
        self.size
    }

    /// How much of it is wanted.
    pub fn amount(self) -> u32
        ensures value { result ≡ self.amount }
        ensures least { 1 ≤ result }
        ensures most { result ≤ self.size }
        ensures below { result < 2 ^ 18 }
    {
        self.amount
    }

    /// A copy of the amount and the size.
    pub fn copied(&self) -> Self
        ensures value { result ≡ self.now }
        ensures right { IsTrue (is_right_share self.now) }
    {
        Pool {
            size: self.size,
            amount: self.amount,
        }
    }
}
