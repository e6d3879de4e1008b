//! The rows of a test: a block in a job's memory, and what calls find of it.

use crate::block_job::Fact::{Code, Id, Limit, Locks, NameOf, Refused, Share, Terms};
use crate::block_job::{Fact, Halves, JOB, Job};
use lock_queue::BlockUse::{Blocking, Full, Named};
use lock_queue::{BlockUse, Refusal, Scope};
use std::alloc::{AllocError, Global};
use std::process::Abort;

/// Where the blocks of most rows stand.
pub const BLOCK: u32 = 0o100;

/// Where their names stand.
pub const NAME: u32 = 0o300;

/// A lock of all jobs that is not shared.
pub const PLAIN: Halves = (0, 0o777_777);

/// The user code 1 of all jobs.
pub const CODE: Halves = (0o500_000, 1);

/// No pool, and the group 0.
pub const NO_POOL: Halves = (0, 0);

/// The qualifier, the name, and the pool or the group of a lock.
pub type Lock = [Halves; 3];

/// A block in a new job of one block of core, and what calls find of it. An optional refusal says that it is refused so,
/// or is not refused.
pub enum Row {
    /// Words are stored, each list from its address on; what calls of these uses find of the block at an address.
    Stored(&'static [(u32, &'static [Halves])], u32, &'static [(BlockUse, Fact)]),
    /// In a core of so many words a block of a lock of two of a pool of six stands at an address.
    Ends(usize, u32, Option<Refusal>),
    /// The name of a lock is a text at an address.
    Text(u32, &'static str, Option<Refusal>),
    /// The name of a lock is this pointer; the fact that calls find of the block.
    Pointer(Halves, Fact),
    /// The left half of a lock's qualifier, all bits of whose id, name and right half are set but the last:
    /// whether it is shared, whether it bypasses the order of levels, and its level.
    Words(u32, bool, bool, u16),
    /// A lock, shared or not, of this pool.
    Pool(bool, Halves, Option<Refusal>),
    /// A lock, shared or not, of this group; the fact that calls find of the block.
    Group(bool, Halves, Fact),
    /// A limit of time.
    Limited(u32),
    /// The two first words of a block at an address, behind which there are twenty locks where it stands at `BLOCK`.
    Heads(u32, Halves, Halves, Option<Refusal>),
    /// A lock, alone and before others.
    First(Lock, Option<Refusal>),
}

/// The name of a lock, and what refuses it.
static NAMES: [(Halves, Option<Refusal>); 3] = [
    (CODE, None),
    ((0, 0), Some(Refusal::BadPointer)),
    ((0o440_700, NAME), Some(Refusal::BadName)),
];

/// The block of `Ends`.
static OF_POOL: [Halves; 5] = [(1, 5), (0, 7), PLAIN, (0o500_000, 3), (6, 2)];

/// What calls find of the pool of this block.
const SIX_AND_TWO: Fact = Share(Some((6, 2)));

/// A lock of `Heads`.
static LOCK: Lock = [PLAIN, CODE, NO_POOL];

/// The qualifier of a lock that is shared, or is not.
fn qualifier(shared: bool) -> Halves {
    let left = if shared { 0o400_000 } else { 0 };
    (left, 0o777_777)
}

impl Job {
    /// Stores a block of one lock with the id 7.
    fn put_lock(&mut self, qualifier: Halves, name: Halves, share: Halves) {
        self.put(BLOCK, &[(1, 5), (0, 7), qualifier, name, share]);
    }

    /// Stores two words at an address.
    fn put_head(&mut self, address: u32, first: Halves, second: Halves) {
        self.put(address, &[first, second]);
    }

    /// Whether a call that enters a request and does not wait finds this of the block.
    fn finds_full(&self, fact: Fact) -> bool {
        self.finds(BLOCK, Full, fact)
    }

    /// Stores words, and gives whether the calls find these facts.
    fn finds_all(
        &mut self,
        stores: &[(u32, &[Halves])],
        address: u32,
        facts: &[(BlockUse, Fact)],
    ) -> bool {
        for (address, words) in stores {
            self.put(*address, words);
        }
        for (block_use, fact) in facts {
            if !self.finds(address, *block_use, *fact) {
                return false;
            }
        }
        true
    }

    /// Whether the block of a pool is refused so at an address, or its pool is read.
    fn finds_at_ends(&mut self, address: u32, refusal: Option<Refusal>) -> bool {
        self.put(address, &OF_POOL);
        self.finds(address, Full, Refused(refusal))
            && (refusal.is_some() || self.finds(address, Full, SIX_AND_TWO))
    }

    /// Whether the name that is a text at an address is refused so, or is read.
    fn finds_text(&mut self, address: u32, text: &'static str, refusal: Option<Refusal>) -> bool {
        self.put_text(address, text);
        self.put_lock(PLAIN, (0o440_700, address), NO_POOL);
        self.finds_full(Refused(refusal))
            && (refusal.is_some() || self.finds_full(Fact::Text(text)))
    }

    /// Whether calls find this where a pointer is a lock's name. X stands at `NAME`, A behind it from bit 1 on, and Z in
    /// register 0.
    fn finds_pointer(&mut self, pointer: Halves, fact: Fact) -> bool {
        self.put_head(NAME, (0o540_000, 0), (0o202_000, 0));
        self.put(0, &[(0o550_000, 0)]);
        self.put_lock(PLAIN, pointer, NO_POOL);
        self.finds_full(fact)
    }

    /// Whether a call of this use finds this of a lock of all bits.
    fn finds_words(&self, block_use: BlockUse, terms: Fact) -> bool {
        self.finds(BLOCK, block_use, Id(0o777_777))
            && self.finds(BLOCK, block_use, NameOf(Scope::Job(JOB)))
            && self.finds(BLOCK, block_use, Code(0o77_777_777_777))
            && self.finds(BLOCK, block_use, terms)
    }

    /// Whether the terms of a lock are read, by a call that only names it but for whether it is shared.
    fn finds_terms(&mut self, left: u32, shared: bool, bypass: bool, level: u16) -> bool {
        self.put_lock((left, 0o777_776), (0o577_777, 0o777_777), NO_POOL);
        self.put(BLOCK + 1, &[(0, 0o777_777)]);
        self.finds_words(Full, Terms(shared, bypass, level))
            && self.finds_words(Named, Terms(shared, false, 0))
    }

    /// Whether a pool is refused so; a call that only names its lock reads none.
    fn finds_pool(&mut self, shared: bool, pool: Halves, refusal: Option<Refusal>) -> bool {
        self.put_lock(qualifier(shared), CODE, pool);
        self.finds_full(Refused(refusal)) && self.finds(BLOCK, Named, Share(None))
    }

    /// Whether calls find this of a group; a call that only names its lock reads none.
    fn finds_group(&mut self, shared: bool, group: Halves, fact: Fact) -> bool {
        self.put_lock(qualifier(shared), CODE, group);
        self.finds(BLOCK, Blocking, fact)
            && self.finds_full(fact)
            && self.finds(BLOCK, Named, Fact::InGroup(0))
    }

    /// Whether a limit is read by a call that waits, and refused by any other.
    fn finds_limit(&mut self, limit: u32) -> bool {
        self.put_lock(PLAIN, CODE, NO_POOL);
        self.put(BLOCK + 1, &[(limit, 7)]);
        let other = if limit == 0 {
            Limit(0)
        } else {
            Refused(Some(Refusal::BadBlock))
        };
        self.finds(BLOCK, Blocking, Id(7))
            && self.finds(BLOCK, Blocking, Limit(limit))
            && self.finds_full(other)
            && self.finds(BLOCK, Named, other)
    }

    /// Whether a block that begins so is refused so, or all its locks are read.
    fn finds_heads(
        &mut self,
        address: u32,
        head: Halves,
        second: Halves,
        refusal: Option<Refusal>,
    ) -> bool {
        for n in 0..20 {
            self.put(BLOCK + 2 + 3 * n, &LOCK);
        }
        self.put_head(address, head, second);
        self.finds(address, Full, Refused(refusal))
            && (refusal.is_some() || self.finds(address, Full, Locks(head.0 as usize)))
    }

    /// Whether a lock is refused so before one that is refused by its name, or not refused; and whether the number of
    /// the locks is looked at before them, and before that the length of the block.
    fn finds_first(&mut self, lock: &Lock, refusal: Option<Refusal>) -> bool {
        self.put_lock(lock[0], lock[1], lock[2]);
        let mut holds = self.finds_full(Refused(refusal));
        self.put_head(BLOCK, (2, 8), (0, 7));
        for (name, later) in &NAMES {
            self.put(BLOCK + 5, &[PLAIN, *name, NO_POOL]);
            holds = holds && self.finds_full(Refused(refusal.or(*later)));
        }
        self.put(BLOCK, &[(17, 53)]);
        holds = holds && self.finds_full(Refused(Some(Refusal::BadCount)));
        self.put(BLOCK, &[(1, 6)]);
        holds && self.finds_full(Refused(Some(Refusal::BadBlock)))
    }
}

impl Row {
    /// How many words of core the job has.
    fn size(&self) -> usize {
        match self {
            Row::Ends(size, _, _) => *size,
            _ => 1024,
        }
    }

    /// Whether the row holds in the memory of a new job.
    fn holds(&self, job: &mut Job) -> bool {
        match self {
            Row::Stored(stores, address, facts) => job.finds_all(stores, *address, facts),
            Row::Ends(_, address, refusal) => job.finds_at_ends(*address, *refusal),
            Row::Text(address, text, refusal) => job.finds_text(*address, text, *refusal),
            Row::Pointer(pointer, fact) => job.finds_pointer(*pointer, *fact),
            Row::Words(left, shared, bypass, level) => {
                job.finds_terms(*left, *shared, *bypass, *level)
            }
            Row::Pool(shared, pool, refusal) => job.finds_pool(*shared, *pool, *refusal),
            Row::Group(shared, group, fact) => job.finds_group(*shared, *group, *fact),
            Row::Limited(limit) => job.finds_limit(*limit),
            Row::Heads(address, head, second, refusal) => {
                job.finds_heads(*address, *head, *second, *refusal)
            }
            Row::First(lock, refusal) => job.finds_first(lock, *refusal),
        }
    }

    /// Whether the row holds of a new job.
    fn holds_of_new(&self, alloc: Global) -> Result<bool, AllocError> {
        let mut job = Job::new(alloc, self.size())?;
        Ok(self.holds(&mut job))
    }
}

/// The rows of a test, and its name.
pub struct Table {
    pub name: &'static str,
    pub rows: &'static [Row],
}

/// Walks the rows of each table: each must hold of a new job.
pub fn walk_all(rt: &impl Abort, alloc: Global, tables: &[Table]) {
    for table in tables {
        for (i, row) in table.rows.iter().enumerate() {
            assert!(rt;
                row.holds_of_new(alloc) == Ok(true),
                "{}, row {i}",
                table.name
            );
        }
    }
}

/// Walks rows: each must hold of a new job.
pub fn walk(rt: &impl Abort, alloc: Global, rows: &[Row]) {
    for (i, row) in rows.iter().enumerate() {
        assert!(rt; row.holds_of_new(alloc) == Ok(true), "row {i}");
    }
}
