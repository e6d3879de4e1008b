//! The table of waits by lock. Times are in ticks.
ghost use Rattle.std.specs.Prelude.{◌≡◌, ◌++◌, OnOk, string_bytes};
ghost use Rattle.run_notes.specs.Waits.{counted, mean_tenths, row_words, with_count, with_counts};

use crate::locks::push_name;
use lock_queue::{Key, Name, Want};
use std::alloc::{AllocError, Global};

/// A row of the table: the waits for a lock.
#[derive(Clone, Copy)]
pub struct LockRow {
    /// The lock.
    pub key: Key,
    /// How many requests asked for it.
    pub requests: u64,
    /// How many of them were not granted at once.
    pub waited: u64,
    /// The longest of their waits.
    pub longest: u64,
    /// All of their waits together.
    pub total: u64,
}

/// What is counted in the row of a lock.
#[derive(Clone, Copy)]
pub enum Count {
    /// A request asked for it; whether it waits.
    Asked(bool),
    /// A wait took so many ticks, or has taken them up to now.
    Waited(u64),
}

impl LockRow {
    /// Counts in the row.
    fn count(&mut self, count: Count)
        ensures { self.new ≡ counted count self.old }
    {
        match count {
            Count::Asked(waits) => {
                self.requests = self.requests.saturating_add(1);
                if waits {
                    self.waited = self.waited.saturating_add(1);
                }
            }
            Count::Waited(ticks) => {
                self.longest = self.longest.max(ticks);
                self.total = self.total.saturating_add(ticks);
            }
        }
    }

    /// The mean of the waits, in tenths of ticks; 0 where there were none.
    fn mean_tenths(&self) -> u64
        ensures { result ≡ mean_tenths self.now }
    {
        if self.waited == 0 {
            return 0;
        }
        self.total.saturating_mul(10) / self.waited
    }

    /// Adds its line of the table, where so many requests still wait for the lock.
    #[tactic(auto, using(std::proofs::Common::append_assoc))]
    pub fn push_line(
        &self,
        alloc: Global,
        text: &mut String,
        waiting: usize,
    ) -> Result<(), AllocError>
        ensures { OnOk result (string_bytes text.new ≡ string_bytes text.old ++ row_words waiting self.now) }
    {
        let mut name = String::new(alloc);
        push_name(&mut name, &self.key.name)?;
        let (requests, waited, longest) = (self.requests, self.waited, self.longest);
        let tenths = self.mean_tenths();
        let (whole, tenth) = (tenths / 10, tenths % 10);
        write!(
            text,
            "{name:<20}{requests:>9}{waited:>9}{longest:>9}{whole:>7}.{tenth}{waiting:>15}\n"
        )
    }
}

/// Counts in the row of a lock, which is added where there is none.
fn count_lock(rows: &mut Vec<LockRow>, count: Count, key: &Key) -> Result<(), AllocError>
    ensures { OnOk result (rows.new.items ≡ with_count count key.now rows.old.items) }
{
    // A key holds a name: the prover wants its type to be named.
    let _name: Option<&Name> = None;
    for i in 0..rows.len() {
        if rows[i].key.is_same(key) {
            let row = &mut rows[i];
            row.count(count);
            return Ok(());
        }
    }
    let mut row = LockRow {
        key: *key,
        requests: 0,
        waited: 0,
        longest: 0,
        total: 0,
    };
    row.count(count);
    rows.push(row)?;
    Ok(())
}

/// Counts in the rows of some locks.
pub fn count_locks(rows: &mut Vec<LockRow>, count: Count, wants: &[Want]) -> Result<(), AllocError>
    ensures { OnOk result (rows.new.items ≡ with_counts count wants.now rows.old.items) }
{
    for want in wants {
        count_lock(rows, count, &want.key)?;
    }
    Ok(())
}
