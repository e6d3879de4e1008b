//! Laws of addresses and of every instruction, as contracts of functions that do nothing.

ghost use Rattle.std.specs.Prelude.{◌≡◌, ◌≢◌, ◌<◌, ◌≤◌, ◌^◌, ◌+◌, ◌↔◌, ◌⊎◌, List, Some, ℕ, length, true};
ghost use Rattle.word36.specs.Words.{left_half, right_half};
ghost use Rattle.ka_word.specs.Pushdown.{counted_up};
ghost use Rattle.ka_cpu.specs.Addresses.{LeadsOutside, LeadsTo, LeadsTooFar, Target, target_of};
ghost use Rattle.ka_cpu.specs.Blocks.{IsCopied, blt_after, word_count};
ghost use Rattle.ka_cpu.specs.Effects.{EndsAs, a_of};
ghost use Rattle.ka_state.specs.Registers.{next_pc};
ghost use Rattle.ka_cpu.specs.Exec.{ComesTo, ExecutesTooFar, RefusedOnTheWay, exec, word_behind};
ghost use Rattle.ka_state.specs.Memory.{is_legal, word_at};
ghost use Rattle.ka_cpu.specs.Runs.{ran, ran_then};
ghost use Rattle.ka_cpu.specs.Stacks.{popped, pushed};
ghost use Rattle.ka_cpu.specs.Instructions.{Instruction};
ghost use Rattle.ka_cpu.specs.declared.limits.TheConstants.{MOST_EXECUTES, MOST_LINKS};
ghost use Rattle.ka_state.specs.declared.outcome.Outcome.TheVariants.{Done};
ghost use Rattle.ka_state.specs.declared.outcome.StopReason.TheVariants.{AddressChain, IllegalAddress};

use ka_state::{Regs, StopReason};

/// An address is what a chain of at most `MOST_LINKS` links leads to, and there is no other.
#[tactic(auto, using(crate::proofs::ChainLaw::chain_laws))]
pub fn address_laws()
    ensures found { (ac core vs : List ℕ) (w : ℕ) (t : Target) → length vs ≤ MOST_LINKS → LeadsTo ac core w None vs t
        → target_of ac core w ≡ Ok t }
    ensures only { (ac core : List ℕ) (w : ℕ) (t : Target) → target_of ac core w ≡ Ok t
        → ((vs : List ℕ) × (length vs ≤ MOST_LINKS) × LeadsTo ac core w None vs t) }
{}

/// An address is refused as illegal exactly where a link before the limit names an illegal address, and
/// as too long a chain exactly where `MOST_LINKS` links lead to one more.
#[tactic(auto, using(crate::proofs::ChainRefusals::refusal_laws))]
pub fn refusal_laws()
    ensures illegal { (ac core : List ℕ) (w : ℕ) → (target_of ac core w ≡ Err IllegalAddress) ↔ LeadsOutside ac core w }
    ensures too_long { (ac core : List ℕ) (w : ℕ) → (target_of ac core w ≡ Err AddressChain) ↔ LeadsTooFar ac core w }
{}

/// The word that is executed is the one that at most `MOST_EXECUTES` XCTs lead to. It is refused exactly where
/// the word of one of these XCTs is refused, or, as too long a chain, where so many lead to one more.
pub fn xct_laws()
    ensures found { (ac core : List ℕ) (w v : ℕ) → (word_behind MOST_EXECUTES ac core w ≡ Ok v) ↔ ComesTo ac core w v }
    ensures refused { (ac core : List ℕ) (w : ℕ) (r : StopReason)
        → (word_behind MOST_EXECUTES ac core w ≡ Err r)
        ↔ (RefusedOnTheWay ac core w r ⊎ ((r ≡ AddressChain) × ExecutesTooFar ac core w)) }
{}

/// An instruction leaves as many registers and words of core as there were, and a PC below 1000000
/// octal, and each outcome says what has changed: at a call of the monitor the PC alone has moved, to the
/// next instruction.
#[tactic(auto, using(crate::proofs::ExecLaws::exec_laws))]
pub fn exec_laws()
    ensures core { (g : Regs) (core : List ℕ) → length (exec g core).core ≡ length core }
    ensures registers { (g : Regs) (core : List ℕ) → length (exec g core).regs.ac ≡ length g.ac }
    ensures pc { (g : Regs) (core : List ℕ) → g.pc < 2 ^ 18 → (exec g core).regs.pc < 2 ^ 18 }
    ensures ends { (g : Regs) (core : List ℕ) → EndsAs (exec g core).outcome g core (exec g core).regs (exec g core).core }
{}

/// One instruction of a run is `exec`; a run of j + k instructions is one of j, and then, where that ended
/// in neither a call nor a stop, one of k.
pub fn run_laws()
    ensures one { (g : Regs) (core : List ℕ) → ran 1 g core ≡ record { steps = 1; after = exec g core } }
    ensures split { (j k : ℕ) (g : Regs) (core : List ℕ) → ran (j + k) g core ≡ ran_then k (ran j g core) }
{}

/// BLT copies a block of core to another with which it shares no address: the words from d on are those
/// that were from s on, and nothing else changes but the PC.
pub fn block_laws()
    ensures { (g : Regs) (core : List ℕ) (n : Instruction) (s d k : ℕ) → left_half (a_of g n) ≡ s → right_half (a_of g n) ≡ d
        → word_count d n.e ≡ k → 16 ≤ s → 16 ≤ d → s + k ≤ 2 ^ 18 → s + k ≤ length core → d + k ≤ length core
        → (s + k ≤ d) ⊎ (d + k ≤ s)
        → ((blt_after g core n).outcome ≡ Done) × ((blt_after g core n).regs ≡ record g { pc = next_pc g })
        × IsCopied core (blt_after g core n).core s d k }
{}

/// POP by the pointer that PUSH left finds the word that was pushed, and leaves the pointer as it was
/// before, where the addresses are legal and the pointer's register is not among them.
pub fn stack_laws()
    ensures { (g : Regs) (core : List ℕ) (n m : Instruction) (w : ℕ) → length g.ac ≡ 16 → n.ac < 16 → m.ac ≡ n.ac
        → a_of g n < 2 ^ 36 → word_at g.ac core n.e ≡ Some w → is_legal core (right_half (counted_up (a_of g n))) ≡ true
        → right_half (counted_up (a_of g n)) ≢ n.ac → is_legal core m.e ≡ true → m.e ≢ n.ac
        → (a_of (popped (pushed g core n) m).regs m ≡ a_of g n)
        × (word_at (popped (pushed g core n) m).regs.ac (popped (pushed g core n) m).core m.e ≡ Some w) }
{}
