//! What the next instruction comes to, found without executing it.

ghost use Rattle.std.specs.Prelude.{◌≡◌};
ghost use Rattle.ka_cpu.specs.declared.limits.TheConstants.{MOST_EXECUTES};
ghost use Rattle.ka_cpu.specs.Exec.{performed, word_behind};
ghost use Rattle.ka_cpu.specs.Next.{call_in, next_call};

use crate::address::find_address;
use crate::processor::{accumulator_field, follow_executes, is_execute_word, operation};
use ka_isa::{Family, classify};
use ka_state::{Accumulator, CallKind, ReadMemory, Regs, StopReason, fetch};
use word36::{Address, Word};

/// The word that is executed where this one is to be, over at most `MOST_EXECUTES` XCTs: itself, unless it is XCT.
/// Refused where the processor refuses the address or the word of an XCT, or as too long a chain.
#[tactic(auto, using(crate::proofs::Executes::executed_words))]
pub fn executed_word<M: ReadMemory>(regs: &Regs, memory: &M, word: Word) -> Result<Word, StopReason>
    ensures { result ≡ word_behind MOST_EXECUTES regs.now.ac (M.words memory.now) word }
{
    if !is_execute_word(word) {
        return Ok(word);
    }
    match find_address(regs, memory, word) {
        Ok(e) => follow_executes(regs, memory, e),
        Err(reason) => Err(reason),
    }
}

/// The call of the monitor that a word makes which is no XCT, if it makes one.
#[tactic(auto, using(crate::proofs::Calls::word_calls))]
fn call_of<M: ReadMemory>(
    regs: &Regs,
    memory: &M,
    word: Word,
) -> Option<(CallKind, Accumulator, Address)>
    ensures { result ≡ call_in (performed regs.now (M.words memory.now) word).outcome }
{
    let kind = match classify(operation(word) as u16) {
        Family::Calli => CallKind::Calli,
        Family::Ttcall => CallKind::Ttcall,
        _ => return None,
    };
    match find_address(regs, memory, word) {
        Ok(e) => {
            let ac = Accumulator::new(accumulator_field(word) as u8);
            Some((kind, ac, e))
        }
        Err(_) => None,
    }
}

/// The call of the monitor that the instruction at the PC makes, if it makes one: its kind, its AC field and its E.
/// Nothing is executed, so a call is found before it is made. `None` where `step` comes to another outcome.
#[tactic(auto, using(crate::proofs::Calls::next_calls))]
pub fn next_call<M: ReadMemory>(regs: &Regs, memory: &M) -> Option<(CallKind, Accumulator, Address)>
    ensures { result ≡ next_call regs.now (M.words memory.now) }
{
    match fetch(regs, memory, regs.pc.number()) {
        None => None,
        Some(word) => match executed_word(regs, memory, word) {
            Ok(executed) => call_of(regs, memory, executed),
            Err(_) => None,
        },
    }
}
