//! One lock of a block.
ghost use Rattle.std.specs.Prelude.{◌≡◌, IsTrue, IfOk};
ghost use Rattle.lock_queue.specs.WellFormed.{shares_rightly};
ghost use Rattle.call_block.specs.Locks.{scope_of, terms_of, want_of};

use crate::bits::bits;
use crate::name::read_name;
use ka_state::{ReadMemory, Regs};
use lock_queue::{BlockUse, Group, Key, Level, Refusal, Scope, Terms, Want};
use word36::Word;

/// The jobs among which a lock's name is unique, from the lock's first word; or its refusal.
fn scope_of(job: u8, qualifier: Word) -> Result<Scope, Refusal>
    ensures { result ≡ scope_of job qualifier }
{
    match qualifier.right() {
        0o777_777 => Ok(Scope::All),
        0o777_776 => Ok(Scope::Job(job)),
        _ => Err(Refusal::BadQualifier),
    }
}

/// The three words of a lock.
#[derive(Clone, Copy)]
pub struct Lock {
    /// How it is wanted, and the jobs among which its name is unique.
    pub qualifier: Word,
    /// A user code, or a pointer to a name.
    pub name: Word,
    /// A pool and how much of it is wanted, the group of a lock that may be shared, or 0.
    pub share: Word,
}

/// The terms of a lock, from its first and third words.
fn terms_of(lock: Lock) -> Terms
    ensures { result ≡ terms_of lock }
{
    let shared = bits(lock.qualifier, 0, 0) == 1;
    let right = lock.share.right();
    Terms {
        shared,
        group: Group::new(if shared { right } else { 0 }),
        bypass: bits(lock.qualifier, 1, 1) == 1,
        level: Level::new(bits(lock.qualifier, 9, 17) as u16),
        pool_size: lock.share.left(),
        pool_amount: if shared { 0 } else { right },
    }
}

/// A job's want of a lock, or the refusal of the lock.
#[inline(always)]
pub fn want_of<M: ReadMemory>(
    regs: &Regs,
    memory: &M,
    job: u8,
    block_use: BlockUse,
    lock: Lock,
) -> Result<Want, Refusal>
    ensures value { result ≡ want_of regs.now.ac (M.words memory.now) job block_use lock }
    ensures unshared { IfOk result (λ w. IsTrue (shares_rightly w)) }
{
    let name = read_name(regs, memory, lock.name)?;
    let scope = scope_of(job, lock.qualifier)?;
    Want::on(block_use, Key { scope, name }, terms_of(lock))
}
