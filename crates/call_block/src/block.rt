//! The block of a lock call, as a whole.
ghost use Rattle.std.specs.Prelude.{◌≡◌, ◌+◌, ◌-◌, ◌*◌, ◌^◌, ◌<◌, ◌≤◌, [], ◌∷◌, ◌++◌, IsTrue, IfOk, OnOk, take};
ghost use Rattle.std.specs.List.{list_all};
ghost use Rattle.arrayvec.specs.ArrayVec.{array_vec_len};
ghost use Rattle.ka_state.specs.Memory.{is_legal};
ghost use Rattle.lock_queue.specs.WellFormed.{shares_rightly};
ghost use Rattle.call_block.specs.Blocks.{word, lock_at, wants_at, block_at, may_have_limit, read_as, wants_read_as};

use crate::want::{Lock, want_of};
use ka_state::{ReadMemory, Regs, are_legal, fetch};
use lock_queue::{BlockUse, Refusal, RequestId, Want, Wants};
use word36::{Address, LOCKS_A_CALL, Word};

/// The number of words of one lock.
const LOCK_WORDS: u32 = 3;

/// The addresses below this one are registers.
const REGISTERS: u32 = 0o20;

/// What the block of a lock call asks for.
#[derive(Drop)]
pub struct Block {
    /// The id that the job gives the request.
    pub id: RequestId,
    /// How many ticks the job waits for the grant at most, 0 for no limit.
    pub limit: u32,
    /// The wanted locks, 1 to 16, in the block's order.
    pub wants: Wants,
}

/// What the two words of a block before its locks say.
#[derive(Clone, Copy, Debug, PartialEq, Eq)]
pub struct BlockHead {
    /// The id that the job gives the request.
    pub id: RequestId,
    /// How many ticks the job waits for the grant at most, 0 for no limit.
    pub limit: u32,
}

/// Whether the block of a call may have a limit of time.
fn may_have_limit(block_use: BlockUse) -> bool
    ensures { result ≡ may_have_limit block_use }
{
    matches!(block_use, BlockUse::Blocking)
}

/// The word at a legal address.
fn word<M: ReadMemory>(regs: &Regs, memory: &M, address: u32) -> Word
    requires { IsTrue (is_legal (M.words memory.now) address) }
    ensures { result ≡ word regs.now.ac (M.words memory.now) address }
{
    if address < REGISTERS {
        regs.ac[address as usize]
    } else {
        memory.read(address).unwrap()
    }
}

/// The lock whose three words, at legal addresses, begin at an address.
fn lock_at<M: ReadMemory>(regs: &Regs, memory: &M, address: u32) -> Lock
    requires fits { address < 2 ^ 20 }
    requires legal { IsTrue (is_legal (M.words memory.now) (address + 2)) }
    ensures { result ≡ lock_at regs.now.ac (M.words memory.now) address }
{
    Lock {
        qualifier: word(regs, memory, address),
        name: word(regs, memory, address + 1),
        share: word(regs, memory, address + 2),
    }
}

/// Puts a want at a position of the list: over the one there, or at the end.
fn put(wants: &mut Wants, position: usize, want: Want)
    requires within { position ≤ array_vec_len wants.old }
    requires room { position < LOCKS_A_CALL }
    ensures items { take (position + 1) wants.new.items ≡ take position wants.old.items ++ want ∷ [] }
    ensures long { position + 1 ≤ array_vec_len wants.new }
{
    if position < wants.len() {
        wants[position] = want;
    } else {
        wants.push(want);
    }
}

/// Fills in the wants of `count` locks, whose words begin at `first` and are all legal, or returns the first
/// refusal; then the contents of `wants` mean nothing.
#[inline(always)]
fn read_wants<M: ReadMemory>(
    regs: &Regs,
    memory: &M,
    first: u32,
    count: u32,
    job: u8,
    block_use: BlockUse,
    wants: &mut Wants,
) -> Result<(), Refusal>
    requires some { 1 ≤ count }
    requires few { count ≤ LOCKS_A_CALL }
    requires fits { first < 2 ^ 19 }
    requires legal { IsTrue (is_legal (M.words memory.now) (first + 3 * count - 1)) }
    ensures wants { wants_read_as result wants.new ≡ wants_at regs.now.ac (M.words memory.now) job block_use first count }
    ensures counted { OnOk result (array_vec_len wants.new ≡ count) }
    ensures unshared { OnOk result (IsTrue (list_all shares_rightly wants.new.items)) }
{
    for position in 0..count {
        let lock = lock_at(regs, memory, first + LOCK_WORDS * position);
        put(
            wants,
            position as usize,
            want_of(regs, memory, job, block_use, lock)?,
        );
    }
    wants.truncate(count as usize);
    Ok(())
}

/// Reads the block of a job's call at an address, from the job's registers and core: fills in its wants and
/// returns its id and its limit, or returns the first refusal; then the contents of `wants` mean nothing.
///
/// The refusals, in this order: `BadBlock` where a word of the block is not legal, its size is not that of
/// its locks, or it has a limit and may have none; `BadCount` where it has no lock or more than 16; then, for
/// each lock in turn, `BadPointer` where it has neither a user code nor a pointer to a name, or the name runs
/// past the end of memory, `BadName` where the name is empty or longer than 30 characters, `BadQualifier`
/// where the name is neither for all jobs nor for this job alone, and `BadPool` where its pool or its group
/// is wrong.
///
/// The limit is the left half of the second word. Only a call that waits for its grant (`Blocking`) may have
/// one. A call that does not wait (`Full`) asks for its locks all the same. A call that only names locks
/// (`Named`) reads no levels, bypass, groups or pools: its wants have level 0, no bypass, group 0 and no pool.
/// The addresses of a block do not wrap; those of a name do, as in ILDB. Nothing is changed. (ENQ/DEQ of the
/// TOPS-10 Monitor Calls Manual; the layout and the refusals are this project's profile.)
#[inline(always)]
#[tactic(auto, unfolding(crate::specs::Blocks::block_at))]
pub fn fill_block<M: ReadMemory>(
    regs: &Regs,
    memory: &M,
    address: Address,
    job: u8,
    block_use: BlockUse,
    wants: &mut Wants,
) -> Result<BlockHead, Refusal>
    ensures block { read_as result wants.new ≡ block_at regs.now.ac (M.words memory.now) address job block_use }
    ensures least { OnOk result (1 ≤ array_vec_len wants.new) }
    ensures most { OnOk result (array_vec_len wants.new ≤ LOCKS_A_CALL) }
    ensures unshared { OnOk result (IsTrue (list_all shares_rightly wants.new.items)) }
{
    let address = address.number();
    let head = fetch(regs, memory, address).ok_or(Refusal::BadBlock)?;
    let count = head.left();
    let size = 2 + LOCK_WORDS * count;
    if head.right() != size || !are_legal(memory, address, size) {
        return Err(Refusal::BadBlock);
    }
    let second = word(regs, memory, address + 1);
    let limit = second.left();
    if limit != 0 && !may_have_limit(block_use) {
        return Err(Refusal::BadBlock);
    }
    if count == 0 || count as usize > LOCKS_A_CALL {
        return Err(Refusal::BadCount);
    }
    read_wants(regs, memory, address + 2, count, job, block_use, wants)?;
    Ok(BlockHead {
        id: RequestId::new(second.right()),
        limit,
    })
}

/// The block of a job's call at an address, or the first refusal, as of `fill_block`.
pub fn read_block<M: ReadMemory>(
    regs: &Regs,
    memory: &M,
    address: Address,
    job: u8,
    block_use: BlockUse,
) -> Result<Block, Refusal>
    ensures block { result ≡ block_at regs.now.ac (M.words memory.now) address job block_use }
    ensures least { IfOk result (λ block. 1 ≤ array_vec_len block.wants) }
    ensures most { IfOk result (λ block. array_vec_len block.wants ≤ LOCKS_A_CALL) }
    ensures unshared { IfOk result (λ block. IsTrue (list_all shares_rightly block.wants.items)) }
{
    let mut wants = Wants::new();
    let head = fill_block(regs, memory, address, job, block_use, &mut wants)?;
    let BlockHead { id, limit } = head;
    Ok(Block { id, limit, wants })
}
