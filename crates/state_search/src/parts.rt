//! Numbers for parts of states, so that a state can be kept as a few of them.
ghost use Rattle.std.specs.Prelude.{◌≡◌, ◌<◌, [], Some, IfOk, OnOk, length, slice_get, true};
ghost use Rattle.std.specs.List.{IsDistinct};
ghost use Rattle.state_search.specs.Parts.{AreGrown};

use indexmap::IndexSet;
use std::alloc::{AllocError, Global};
use std::hash::Hash;
use std::marker::Model;

/// Parts of states. Each has a number, which it keeps.
#[derive(Drop)]
pub struct Parts<T: Eq + Hash> {
    table: IndexSet<T>,
}

impl<T: Eq + Hash> Model for Parts<T> {
    ghost use Rattle.std.specs.Prelude.{List};

    ghost Value = { List T };

    ghost view = { λ p. p.table.keys };
}

impl<T: Eq + Hash + Drop> Parts<T> {
    /// No parts.
    pub fn new(alloc: Global) -> Self
        ensures parts { result ≡ [] }
        ensures unique { IsDistinct T.eq result }
    {
        Parts {
            table: IndexSet::new(alloc),
        }
    }

    /// The number of a part, which is kept unless it is known. A number that does not fit 4 bytes is refused as memory is.
    pub fn number_of(&mut self, part: T) -> Result<u32, AllocError>
        ensures stored { IfOk result (λ n. (k : T) × (slice_get self.new n ≡ Some k) × (T.eq part k ≡ true)) }
        ensures within { IfOk result (λ n. n < length self.new) }
        ensures grown { OnOk result (AreGrown self.old self.new) }
        ensures unique { OnOk result (IsDistinct T.eq self.new) }
    {
        let (n, _) = self.table.insert_full(part)?;
        let Ok(n) = u32::try_from(n) else {
            return Err(AllocError);
        };
        Ok(n)
    }

    /// How many parts there are.
    pub fn len(&self) -> usize
        ensures value { result ≡ length self.now }
        ensures unique { IsDistinct T.eq self.now }
    {
        self.table.len()
    }

    /// The part with a number.
    pub fn part(&self, n: u32) -> &T
        requires { n < length self.now }
        ensures { slice_get self.now n ≡ Some result.now }
    {
        &self.table[n as usize]
    }
}
