//! IBP, ILDB, LDB, IDPB and DPB.

ghost use Rattle.std.specs.Prelude.{◌≡◌, true, false, nat_eq, IfOk, ◌<◌};
ghost use Rattle.ka_state.specs.Memory.{is_legal};
ghost use Rattle.ka_cpu.specs.Effects.{applied};
ghost use Rattle.ka_cpu.specs.Bytes.{byte_after, byte_effect, located_byte, increments, loads};

use crate::address::find_address;
use crate::instruction::{ILLEGAL, Instruction};
use ka_state::{JobMemory, Outcome, Regs, StopReason, fetch, store};
use ka_word::{deposit_byte, increment, load_byte};
use word36::{Address, Word};

/// The address of the byte that a pointer names, and the word there.
#[inline(always)]
#[tactic(auto, using(crate::proofs::ByteAddresses::byte_addresses))]
fn locate_byte<M: JobMemory>(
    regs: &Regs,
    memory: &M,
    pointer: Word,
) -> Result<(Address, Word), StopReason>
    ensures value { result ≡ located_byte regs.now.ac (M.words memory.now) pointer }
    ensures legal { IfOk result (λ b. is_legal (M.words memory.now) b.0 ≡ true) }
{
    let e = find_address(regs, memory, pointer)?;
    match fetch(regs, memory, e.number()) {
        None => Err(StopReason::IllegalAddress),
        Some(word) => Ok((e, word)),
    }
}

/// Loads or deposits a byte of the word at a known address.
#[inline(always)]
fn move_byte<M: JobMemory>(
    is_load: bool,
    regs: &mut Regs,
    memory: &mut M,
    n: Instruction,
    pointer: Word,
    e: Address,
    word: Word,
) -> Outcome
    requires load { loads n.op ≡ is_load }
    requires legal { is_legal (M.words memory.old) e ≡ true }
    ensures after { record { regs = regs.new; core = M.words memory.new; outcome = result }
        ≡ applied regs.old (M.words memory.old) n (byte_effect regs.old n pointer e word) }
    ensures place { M.place memory.new ≡ M.place memory.old }
{
    let next = regs.pc.plus(1);
    let a = regs.ac[n.ac()];
    if is_load {
        regs.ac[n.ac()] = load_byte(pointer, word);
    } else {
        store(regs, memory, e.number(), deposit_byte(pointer, a, word));
    }
    regs.pc = next;
    Outcome::Done
}

/// IBP
#[inline(always)]
#[tactic(auto, unfolding(crate::specs::Bytes::byte_after))]
pub fn do_ibp<M: JobMemory>(regs: &mut Regs, memory: &mut M, n: Instruction) -> Outcome
    requires op { n.op ≡ 0o133 }
    ensures after { record { regs = regs.new; core = M.words memory.new; outcome = result } ≡ byte_after regs.old (M.words memory.old) n }
    ensures place { M.place memory.new ≡ M.place memory.old }
{
    let Some(old) = fetch(regs, memory, n.e().number()) else {
        return ILLEGAL;
    };
    store(regs, memory, n.e().number(), increment(old));
    regs.pc = regs.pc.plus(1);
    Outcome::Done
}

/// LDB, DPB
#[inline(always)]
#[tactic(auto, unfolding(crate::specs::Bytes::byte_after))]
pub fn use_byte<M: JobMemory>(
    is_load: bool,
    regs: &mut Regs,
    memory: &mut M,
    n: Instruction,
) -> Outcome
    requires load { loads n.op ≡ is_load }
    requires increment { increments n.op ≡ false }
    ensures after { record { regs = regs.new; core = M.words memory.new; outcome = result } ≡ byte_after regs.old (M.words memory.old) n }
    ensures place { M.place memory.new ≡ M.place memory.old }
{
    let Some(pointer) = fetch(regs, memory, n.e().number()) else {
        return ILLEGAL;
    };
    match locate_byte(regs, memory, pointer) {
        Err(reason) => Outcome::Stop(reason),
        Ok((e, word)) => move_byte(is_load, regs, memory, n, pointer, e, word),
    }
}

/// ILDB, IDPB. Where the byte's address is refused the old pointer is stored back.
#[inline(always)]
#[tactic(auto, using(crate::proofs::ByteAddresses::restore_steps), unfolding(crate::specs::Bytes::byte_after))]
pub fn use_next_byte<M: JobMemory>(
    is_load: bool,
    regs: &mut Regs,
    memory: &mut M,
    n: Instruction,
) -> Outcome
    requires load { loads n.op ≡ is_load }
    requires increment { increments n.op ≡ true }
    requires op { nat_eq n.op 0o133 ≡ false }
    ensures after { record { regs = regs.new; core = M.words memory.new; outcome = result } ≡ byte_after regs.old (M.words memory.old) n }
    ensures place { M.place memory.new ≡ M.place memory.old }
{
    let Some(old) = fetch(regs, memory, n.e().number()) else {
        return ILLEGAL;
    };
    let new = increment(old);
    store(regs, memory, n.e().number(), new);
    match locate_byte(regs, memory, new) {
        Err(reason) => {
            store(regs, memory, n.e().number(), old);
            Outcome::Stop(reason)
        }
        Ok((e, word)) => move_byte(is_load, regs, memory, n, new, e, word),
    }
}
