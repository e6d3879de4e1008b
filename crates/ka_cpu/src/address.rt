//! The address of an instruction or of a byte pointer.

ghost use Rattle.std.specs.Prelude.{◌≡◌, ◌^◌, nat_eq, ◌/◌, ◌%◌};
ghost use Rattle.ka_cpu.specs.Addresses.{address_in, pair_in, direct_address, is_indirect, target_of, used_after, used_in};

use crate::MOST_LINKS;
use ka_state::{ReadMemory, Regs, StopReason, fetch};
use word36::{Address, Word};

/// Y, plus the right half of the index register where there is one.
#[inline(always)]
fn find_direct(regs: &Regs, word: Word) -> Address
    ensures { result ≡ direct_address regs.now.ac word }
{
    let number = word.number();
    let index = (number >> 18 & 0o17) as usize;
    let y = Address::new((number & 0o777_777) as u32);
    if index == 0 {
        y
    } else {
        y.plus(regs.ac[index].right())
    }
}

/// What was used last on the way to an address, once the index register of a word is added.
fn used_with_index(regs: &Regs, word: Word, used: Option<Word>) -> Option<Word>
    ensures { result ≡ used_after regs.now.ac word used }
{
    let index = (word.number() >> 18 & 0o17) as usize;
    if index == 0 {
        used
    } else {
        Some(regs.ac[index])
    }
}

#[inline(always)]
fn is_indirect_word(word: Word) -> bool
    ensures { result ≡ is_indirect word }
{
    word.number() >> 22 & 1 == 1
}

/// Whether a word has neither I nor X.
#[inline(always)]
fn is_plain(word: Word) -> bool
    ensures { result ≡ nat_eq (word / 2 ^ 18 % 2 ^ 5) 0 }
{
    word.number() >> 18 & 0o37 == 0
}

/// The address to which a word leads and what was used last on the way, over at most `MOST_LINKS` indirect words.
#[cold]
#[inline(never)]
#[tactic(auto, using(crate::proofs::Chain::chain_steps))]
fn follow_chain<M: ReadMemory>(
    regs: &Regs,
    memory: &M,
    word: Word,
) -> Result<(Address, Option<Word>), StopReason>
    ensures { result ≡ pair_in (target_of regs.now.ac (M.words memory.now) word) }
{
    let mut word = word;
    let mut used = None;
    for turn in 0..MOST_LINKS {
        let e = find_direct(regs, word);
        if !is_indirect_word(word) {
            return Ok((e, used_with_index(regs, word, used)));
        }
        match fetch(regs, memory, e.number()) {
            None => return Err(StopReason::IllegalAddress),
            Some(next) => {
                word = next;
                used = Some(next);
            }
        }
    }
    if is_indirect_word(word) {
        Err(StopReason::AddressChain)
    } else {
        Ok((find_direct(regs, word), used_with_index(regs, word, used)))
    }
}

/// The address to which an indirect word leads.
#[inline(always)]
#[tactic(auto, using(crate::proofs::Chain::chain_parts))]
fn find_by_chain<M: ReadMemory>(regs: &Regs, memory: &M, word: Word) -> Result<Address, StopReason>
    ensures { result ≡ address_in (target_of regs.now.ac (M.words memory.now) word) }
{
    match follow_chain(regs, memory, word) {
        Ok((e, _)) => Ok(e),
        Err(reason) => Err(reason),
    }
}

/// The address of an instruction or of a byte pointer. Most words have neither I nor X.
#[inline(always)]
#[tactic(auto, using(crate::proofs::Chain::chain_parts))]
pub fn find_address<M: ReadMemory>(
    regs: &Regs,
    memory: &M,
    word: Word,
) -> Result<Address, StopReason>
    ensures { result ≡ address_in (target_of regs.now.ac (M.words memory.now) word) }
{
    if is_plain(word) {
        Ok(Address::new(word.right()))
    } else if is_indirect_word(word) {
        find_by_chain(regs, memory, word)
    } else {
        Ok(find_direct(regs, word))
    }
}

/// The index register or indirect word that was used last to find the address of an instruction.
#[tactic(auto, using(crate::proofs::Chain::chain_parts))]
pub fn find_used<M: ReadMemory>(regs: &Regs, memory: &M, word: Word) -> Option<Word>
    ensures { result ≡ used_in (target_of regs.now.ac (M.words memory.now) word) }
{
    match follow_chain(regs, memory, word) {
        Ok((_, used)) => used,
        Err(_) => None,
    }
}
