//! One instruction, and instructions one after another.

ghost use Rattle.std.specs.Prelude.{◌≡◌, ◌<◌, ◌^◌, ◌-◌, false, IfOk};
ghost use Rattle.ka_cpu.specs.declared.limits.TheConstants.{MOST_EXECUTES};
ghost use Rattle.ka_cpu.specs.Addresses.{reading};
ghost use Rattle.ka_cpu.specs.Effects.{EndsAs};
ghost use Rattle.ka_cpu.specs.Exec.{ac_field, exec, exec_word, is_xct, op_of, word_behind, word_performed};
ghost use Rattle.ka_state.specs.Memory.{word_at};
ghost use Rattle.ka_cpu.specs.Runs.{ran};

use crate::MOST_EXECUTES;
use crate::address::find_address;
use crate::dispatch::{HERE, LOOP, RUN, STEP, WORD, carry_out, refusal};
use crate::instruction::{ILLEGAL, Instruction};
use ka_state::{CoreWords, JobMemory, Outcome, ReadMemory, Regs, StopReason, fetch, fetch_code};
use word36::{Address, Word};

/// The operation of a word.
#[inline(always)]
pub(crate) fn operation(word: Word) -> u32
    ensures value { result ≡ op_of word }
    ensures below { result < 2 ^ 9 }
{
    (word.number() >> 27) as u32
}

/// The AC field of a word.
#[inline(always)]
pub(crate) fn accumulator_field(word: Word) -> usize
    ensures value { result ≡ ac_field word }
    ensures below { result < 16 }
{
    (word.number() >> 23 & 0o17) as usize
}

/// Whether a word is an XCT.
#[tactic(auto, unfolding(crate::specs::Exec::is_xct))]
pub(crate) fn is_execute_word(word: Word) -> bool
    ensures { result ≡ is_xct word }
{
    operation(word) == 0o256
}

/// The word that an XCT with this E executes, over at most `MOST_EXECUTES` - 1 XCTs more. It is no XCT.
#[inline(never)]
#[tactic(auto, using(crate::proofs::Executes::xct_steps))]
pub(crate) fn follow_executes<M: ReadMemory>(
    regs: &Regs,
    memory: &M,
    e: Address,
) -> Result<Word, StopReason>
    ensures value { result
        ≡ reading (word_at regs.now.ac (M.words memory.now) e) (λ v. word_behind (MOST_EXECUTES - 1) regs.now.ac (M.words memory.now) v) }
    ensures plain { IfOk result (λ w. is_xct w ≡ false) }
{
    let Some(first) = fetch(regs, memory, e.number()) else {
        return Err(StopReason::IllegalAddress);
    };
    let mut word = first;
    for turn in 1..MOST_EXECUTES {
        if !is_execute_word(word) {
            return Ok(word);
        }
        let address = find_address(regs, memory, word)?;
        match fetch(regs, memory, address.number()) {
            None => return Err(StopReason::IllegalAddress),
            Some(next) => word = next,
        }
    }
    if is_execute_word(word) {
        Err(StopReason::AddressChain)
    } else {
        Ok(word)
    }
}

/// The word that an XCT with this E executes. It is inlined, so that its caller, which is inlined too,
/// keeps no room for what the call of `follow_executes` returns.
#[inline(always)]
fn find_executed<M: ReadMemory>(regs: &Regs, memory: &M, e: Address) -> Result<Word, StopReason>
    ensures value { result
        ≡ reading (word_at regs.now.ac (M.words memory.now) e) (λ v. word_behind (MOST_EXECUTES - 1) regs.now.ac (M.words memory.now) v) }
    ensures plain { IfOk result (λ w. is_xct w ≡ false) }
{
    match follow_executes(regs, memory, e) {
        Ok(next) => Ok(next),
        Err(reason) => Err(reason),
    }
}

/// Executes a word; where it is an XCT, the word that it leads to. `CALLER` is that of `carry_out`.
#[inline(always)]
#[tactic(auto, using(crate::proofs::Executes::executions))]
fn execute<M: JobMemory, const CALLER: u8>(regs: &mut Regs, memory: &mut M, word: Word) -> Outcome
    ensures after { record { regs = regs.new; core = M.words memory.new; outcome = result }
        ≡ word_performed regs.old (M.words memory.old) (word_behind MOST_EXECUTES regs.old.ac (M.words memory.old) word) }
    ensures place { M.place memory.new ≡ M.place memory.old }
{
    let mut word = word;
    'words: loop {
        let op = operation(word);
        let ac = accumulator_field(word);
        let e = match find_address(regs, memory, word) {
            Err(reason) => return Outcome::Stop(refusal(op, ac, reason)),
            Ok(e) => e,
        };
        let instruction = Instruction::new(op, ac, e);
        if let Some(outcome) = carry_out::<M, CALLER>(regs, memory, instruction, word) {
            return outcome;
        }
        match find_executed(regs, memory, e) {
            Err(reason) => return Outcome::Stop(reason),
            Ok(next) => word = next,
        }
    }
}

/// Executes the instruction at the PC. `CALLER` is that of `carry_out`.
#[inline(always)]
#[tactic(auto, unfolding(crate::specs::Exec::exec))]
fn execute_next<M: JobMemory, const CALLER: u8>(regs: &mut Regs, memory: &mut M) -> Outcome
    ensures exec { record { regs = regs.new; core = M.words memory.new; outcome = result } ≡ exec regs.old (M.words memory.old) }
    ensures place { M.place memory.new ≡ M.place memory.old }
{
    let Some(word) = fetch_code(regs, memory, regs.pc.number()) else {
        return ILLEGAL;
    };
    execute::<M, CALLER>(regs, memory, word)
}

/// Executes the instruction at the PC, in user mode (DECsystem-10 Processor Reference Manual, KA10).
///
/// At an illegal address, an illegal instruction or an address chain that is too long nothing has
/// changed; at a halt the PC alone is E; at a pushdown overflow the instruction is complete; before
/// a call of the monitor memory is unchanged and the PC is that of the next instruction.
#[inline(never)]
#[tactic(auto, using(crate::proofs::ExecLaws::ends_by))]
pub fn step<M: JobMemory>(regs: &mut Regs, memory: &mut M) -> Outcome
    ensures exec { record { regs = regs.new; core = M.words memory.new; outcome = result } ≡ exec regs.old (M.words memory.old) }
    ensures place { M.place memory.new ≡ M.place memory.old }
    ensures ends { EndsAs result regs.old (M.words memory.old) regs.new (M.words memory.new) }
{
    execute_next::<M, STEP>(regs, memory)
}

/// As `step`, inlined into its caller: for a loop that looks at the registers after each instruction. A program
/// has one such caller.
#[inline(always)]
pub fn step_in_loop<M: JobMemory>(regs: &mut Regs, memory: &mut M) -> Outcome
    ensures exec { record { regs = regs.new; core = M.words memory.new; outcome = result } ≡ exec regs.old (M.words memory.old) }
    ensures place { M.place memory.new ≡ M.place memory.old }
{
    execute_next::<M, LOOP>(regs, memory)
}

/// Executes a word that stands nowhere, as an XCT at the PC would execute it. It ends as an instruction does that `step`
/// executes. A debugger carries out by this what a person types.
#[inline(never)]
#[tactic(auto, using(crate::proofs::ExecLaws::word_ends_by))]
pub fn execute_word<M: JobMemory>(regs: &mut Regs, memory: &mut M, word: Word) -> Outcome
    ensures exec { record { regs = regs.new; core = M.words memory.new; outcome = result } ≡ exec_word regs.old (M.words memory.old) word }
    ensures place { M.place memory.new ≡ M.place memory.old }
    ensures ends { EndsAs result regs.old (M.words memory.old) regs.new (M.words memory.new) }
{
    execute::<M, WORD>(regs, memory, word)
}

/// Executes at most `most` instructions, one after another, until one calls the monitor or stops. The answer
/// is how many were executed, that one included, and how the last one ended. `words` is the core of the job.
#[inline(never)]
#[tactic(auto, using(crate::proofs::RunSteps::run_turns))]
pub fn run_steps(regs: &mut Regs, words: &mut [Word], most: u64) -> (u64, Outcome)
    ensures { record { steps = result.0; after = record { regs = regs.new; core = words.new; outcome = result.1 } }
        ≡ ran most regs.old words.old }
{
    let mut memory = CoreWords { words };
    for left in (0..most).rev() {
        match execute_next::<CoreWords, RUN>(regs, &mut memory) {
            Outcome::Done => {}
            ended => return (most - left, ended),
        }
    }
    (most, Outcome::Done)
}

/// Executes one instruction, inlined into its caller.
#[inline(always)]
fn run_one(regs: &mut Regs, words: &mut [Word]) -> (u64, Outcome)
    ensures { record { steps = result.0; after = record { regs = regs.new; core = words.new; outcome = result.1 } }
        ≡ ran 1 regs.old words.old }
{
    let mut memory = CoreWords { words };
    let outcome = execute_next::<CoreWords, HERE>(regs, &mut memory);
    (1, outcome)
}

/// Executes several instructions, by `run_steps`. It is inlined, so that its caller, which is inlined too, keeps no
/// room for what the call of `run_steps` returns.
#[inline(always)]
fn run_several(regs: &mut Regs, words: &mut [Word], most: u64) -> (u64, Outcome)
    ensures { record { steps = result.0; after = record { regs = regs.new; core = words.new; outcome = result.1 } }
        ≡ ran most regs.old words.old }
{
    run_steps(regs, words, most)
}

/// As `run_steps`. Where `IN_PLACE` is true, a single instruction is executed by code that is inlined into the
/// caller, which saves a third of its time. A program has one such caller: a body of this size is inlined
/// only where there is one.
#[inline(always)]
pub fn run_steps_from<const IN_PLACE: bool>(
    regs: &mut Regs,
    words: &mut [Word],
    most: u64,
) -> (u64, Outcome)
    ensures { record { steps = result.0; after = record { regs = regs.new; core = words.new; outcome = result.1 } }
        ≡ ran most regs.old words.old }
{
    if IN_PLACE && most == 1 {
        run_one(regs, words)
    } else {
        run_several(regs, words, most)
    }
}
