//! The table of operations: what each one does, in the order of the codes.

ghost use Rattle.std.specs.Prelude.{◌⊎◌, ◌≤◌, ◌≡◌, ◌<◌, ◌^◌, if◌then◌else◌, IfSome, IsNone, ◌↔◌};
ghost use Rattle.ka_cpu.specs.Addresses.{target_of, used_in};
ghost use Rattle.ka_isa.specs.Families.{family_of};
ghost use Rattle.ka_isa.specs.declared.Family.TheVariants.{Xct};
ghost use Rattle.ka_cpu.specs.Effects.{stopped};
ghost use Rattle.ka_cpu.specs.Exec.{carried_out, is_listed};
ghost use Rattle.ka_cpu.specs.Turns.{refusal_of};
ghost use Rattle.ka_state.specs.declared.outcome.StopReason.TheVariants.{IllegalInstruction};

use crate::arithmetic::{do_add, do_idiv, do_imul, do_mul};
use crate::blocks::do_blt;
use crate::bytes::{do_ibp, use_byte, use_next_byte};
use crate::conditions::{do_compare, do_jump, do_skip};
use crate::halves::do_half;
use crate::instruction::Instruction;
use crate::jumps::{do_aobj, do_call, do_jfcl, do_jffo, do_jra, do_jrst, do_jsa, do_jsp, do_jsr};
use crate::logic::{do_boolean, do_test};
use crate::moves::{Transfer, do_exch, do_move};
use crate::shifts::do_shift;
use crate::stacks::{do_pop, do_popj, do_push, do_pushj};
use ka_isa::{Change, Family, classify};
use ka_state::{CallKind, JobMemory, Outcome, Regs, StopReason};
use word36::Word;

/// The caller is `step`.
pub const STEP: u8 = 0;

/// The caller is `run_steps`.
pub const RUN: u8 = 1;

/// The caller has the instruction's code inlined: `run_steps_from` with `IN_PLACE`.
pub const HERE: u8 = 2;

/// The caller is `step_in_loop`.
pub const LOOP: u8 = 3;

/// The caller is `execute_word`.
pub const WORD: u8 = 4;

/// Calls the body of a common family in the mode of the instruction, each mode with a copy of its
/// own, in which the mode is not looked at again.
macro_rules! in_mode {
    ($body:ident, $op:ident, $regs:ident, $memory:ident, $n:ident) => {
        match $op % 4 {
            0 => $body(0, $regs, $memory, $n),
            1 => $body(1, $regs, $memory, $n),
            2 => $body(2, $regs, $memory, $n),
            _ => $body(3, $regs, $memory, $n),
        }
    };
}

/// Whether the operations of a family are listed, and not left out.
fn is_listed_family(family: Family, ac: usize) -> bool
    ensures { result ≡ is_listed family ac }
{
    match family {
        Family::Other => false,
        Family::Jrst => ac == 0 || ac == 2 || ac == 4,
        _ => true,
    }
}

/// Carries out an operation from 250 to 377 octal, jumps, pushdown instructions, sums and comparisons,
/// whose address is known, or, where it is XCT, does nothing.
#[inline(always)]
fn carry_out_common<M: JobMemory, const CALLER: u8>(
    op: u32,
    regs: &mut Regs,
    memory: &mut M,
    n: Instruction,
    word: Word,
) -> Option<Outcome>
    requires op { op ≡ n.op }
    requires range { (0o250 ≤ op) × (op < 0o400) }
    ensures none { IsNone result ↔ (family_of op ≡ Xct) }
    ensures kept { IsNone result → (regs.new ≡ regs.old) × (M.words memory.new ≡ M.words memory.old) }
    ensures after { IfSome result
        (λ o. record { regs = regs.new; core = M.words memory.new; outcome = o }
        ≡ (if is_listed (family_of op) n.ac
        then carried_out (family_of op) regs.old (M.words memory.old) n
        (used_in (target_of regs.old.ac (M.words memory.old) word))
        else stopped regs.old (M.words memory.old) IllegalInstruction)) }
    ensures place { M.place memory.new ≡ M.place memory.old }
{
    let outcome = match op {
        0o250 => do_exch(regs, memory, n),
        0o251 => do_blt(regs, memory, n),
        0o252 => do_aobj(regs, memory, n),
        0o253 => do_aobj(regs, memory, n),
        0o254 => do_jrst(regs, memory, n, word),
        0o255 => do_jfcl(regs, memory, n),
        0o256 => return None,
        0o257 => Outcome::Stop(refusal(op, n.ac(), StopReason::IllegalInstruction)),
        0o260 => do_pushj(regs, memory, n),
        0o261 => do_push(regs, memory, n),
        0o262 => do_pop(regs, memory, n),
        0o263 => do_popj(regs, memory, n),
        0o264 => do_jsr(regs, memory, n),
        0o265 => do_jsp(regs, memory, n),
        0o266 => do_jsa(regs, memory, n),
        0o267 => do_jra(regs, memory, n),
        0o270 => do_add(false, 0, regs, memory, n),
        0o271 => do_add(false, 1, regs, memory, n),
        0o272 => do_add(false, 2, regs, memory, n),
        0o273 => do_add(false, 3, regs, memory, n),
        0o274 => do_add(true, 0, regs, memory, n),
        0o275 => do_add(true, 1, regs, memory, n),
        0o276 => do_add(true, 2, regs, memory, n),
        0o277 => do_add(true, 3, regs, memory, n),
        0o300 => do_compare(0, true, regs, memory, n),
        0o301 => do_compare(1, true, regs, memory, n),
        0o302 => do_compare(2, true, regs, memory, n),
        0o303 => do_compare(3, true, regs, memory, n),
        0o304 => do_compare(4, true, regs, memory, n),
        0o305 => do_compare(5, true, regs, memory, n),
        0o306 => do_compare(6, true, regs, memory, n),
        0o307 => do_compare(7, true, regs, memory, n),
        0o310 => do_compare(0, false, regs, memory, n),
        0o311 => do_compare(1, false, regs, memory, n),
        0o312 => do_compare(2, false, regs, memory, n),
        0o313 => do_compare(3, false, regs, memory, n),
        0o314 => do_compare(4, false, regs, memory, n),
        0o315 => do_compare(5, false, regs, memory, n),
        0o316 => do_compare(6, false, regs, memory, n),
        0o317 => do_compare(7, false, regs, memory, n),
        0o320 => do_jump(0, Change::Keep, regs, memory, n),
        0o321 => do_jump(1, Change::Keep, regs, memory, n),
        0o322 => do_jump(2, Change::Keep, regs, memory, n),
        0o323 => do_jump(3, Change::Keep, regs, memory, n),
        0o324 => do_jump(4, Change::Keep, regs, memory, n),
        0o325 => do_jump(5, Change::Keep, regs, memory, n),
        0o326 => do_jump(6, Change::Keep, regs, memory, n),
        0o327 => do_jump(7, Change::Keep, regs, memory, n),
        0o330 => do_skip(0, Change::Keep, regs, memory, n),
        0o331 => do_skip(1, Change::Keep, regs, memory, n),
        0o332 => do_skip(2, Change::Keep, regs, memory, n),
        0o333 => do_skip(3, Change::Keep, regs, memory, n),
        0o334 => do_skip(4, Change::Keep, regs, memory, n),
        0o335 => do_skip(5, Change::Keep, regs, memory, n),
        0o336 => do_skip(6, Change::Keep, regs, memory, n),
        0o337 => do_skip(7, Change::Keep, regs, memory, n),
        0o340 => do_jump(0, Change::Up, regs, memory, n),
        0o341 => do_jump(1, Change::Up, regs, memory, n),
        0o342 => do_jump(2, Change::Up, regs, memory, n),
        0o343 => do_jump(3, Change::Up, regs, memory, n),
        0o344 => do_jump(4, Change::Up, regs, memory, n),
        0o345 => do_jump(5, Change::Up, regs, memory, n),
        0o346 => do_jump(6, Change::Up, regs, memory, n),
        0o347 => do_jump(7, Change::Up, regs, memory, n),
        0o350 => do_skip(0, Change::Up, regs, memory, n),
        0o351 => do_skip(1, Change::Up, regs, memory, n),
        0o352 => do_skip(2, Change::Up, regs, memory, n),
        0o353 => do_skip(3, Change::Up, regs, memory, n),
        0o354 => do_skip(4, Change::Up, regs, memory, n),
        0o355 => do_skip(5, Change::Up, regs, memory, n),
        0o356 => do_skip(6, Change::Up, regs, memory, n),
        0o357 => do_skip(7, Change::Up, regs, memory, n),
        0o360 => do_jump(0, Change::Down, regs, memory, n),
        0o361 => do_jump(1, Change::Down, regs, memory, n),
        0o362 => do_jump(2, Change::Down, regs, memory, n),
        0o363 => do_jump(3, Change::Down, regs, memory, n),
        0o364 => do_jump(4, Change::Down, regs, memory, n),
        0o365 => do_jump(5, Change::Down, regs, memory, n),
        0o366 => do_jump(6, Change::Down, regs, memory, n),
        0o367 => do_jump(7, Change::Down, regs, memory, n),
        0o370 => do_skip(0, Change::Down, regs, memory, n),
        0o371 => do_skip(1, Change::Down, regs, memory, n),
        0o372 => do_skip(2, Change::Down, regs, memory, n),
        0o373 => do_skip(3, Change::Down, regs, memory, n),
        0o374 => do_skip(4, Change::Down, regs, memory, n),
        0o375 => do_skip(5, Change::Down, regs, memory, n),
        0o376 => do_skip(6, Change::Down, regs, memory, n),
        0o377 => do_skip(7, Change::Down, regs, memory, n),
        _ => unreachable!(),
    };
    Some(outcome)
}

/// Carries out another operation whose address is known.
#[inline(always)]
fn carry_out_rest<M: JobMemory, const CALLER: u8>(
    op: u32,
    regs: &mut Regs,
    memory: &mut M,
    n: Instruction,
    word: Word,
) -> Option<Outcome>
    requires op { op ≡ n.op }
    requires range { (op < 0o250) ⊎ (0o400 ≤ op) × (op < 0o1000) }
    ensures none { IsNone result ↔ (family_of op ≡ Xct) }
    ensures kept { IsNone result → (regs.new ≡ regs.old) × (M.words memory.new ≡ M.words memory.old) }
    ensures after { IfSome result
        (λ o. record { regs = regs.new; core = M.words memory.new; outcome = o }
        ≡ (if is_listed (family_of op) n.ac
        then carried_out (family_of op) regs.old (M.words memory.old) n
        (used_in (target_of regs.old.ac (M.words memory.old) word))
        else stopped regs.old (M.words memory.old) IllegalInstruction)) }
    ensures place { M.place memory.new ≡ M.place memory.old }
{
    let outcome = match op {
        0o47 => do_call(CallKind::Calli, regs, memory, n),
        0o51 => do_call(CallKind::Ttcall, regs, memory, n),
        0o133 => do_ibp(regs, memory, n),
        0o134 => use_next_byte(true, regs, memory, n),
        0o135 => use_byte(true, regs, memory, n),
        0o136 => use_next_byte(false, regs, memory, n),
        0o137 => use_byte(false, regs, memory, n),
        0o200 => do_move(Transfer::Plain, 0, regs, memory, n),
        0o201 => do_move(Transfer::Plain, 1, regs, memory, n),
        0o202 => do_move(Transfer::Plain, 2, regs, memory, n),
        0o203 => do_move(Transfer::Plain, 3, regs, memory, n),
        0o204..=0o207 => do_move(Transfer::Swapped, op % 4, regs, memory, n),
        0o210..=0o213 => do_move(Transfer::Negated, op % 4, regs, memory, n),
        0o214..=0o217 => do_move(Transfer::Magnitude, op % 4, regs, memory, n),
        0o220..=0o223 => do_imul(op % 4, regs, memory, n),
        0o224..=0o227 => do_mul(op % 4, regs, memory, n),
        0o230..=0o233 => do_idiv(op % 4, regs, memory, n),
        0o240..=0o242 | 0o245..=0o246 => do_shift(regs, memory, n),
        0o243 => do_jffo(regs, memory, n),
        0o400..=0o407
        | 0o410..=0o417
        | 0o420..=0o427
        | 0o430..=0o437
        | 0o440..=0o447
        | 0o450..=0o457
        | 0o460..=0o467
        | 0o470..=0o477 => in_mode!(do_boolean, op, regs, memory, n),
        0o500..=0o507
        | 0o510..=0o517
        | 0o520..=0o527
        | 0o530..=0o537
        | 0o540..=0o547
        | 0o550..=0o557
        | 0o560..=0o567
        | 0o570..=0o577 => in_mode!(do_half, op, regs, memory, n),
        0o600..=0o607 | 0o610..=0o617 => do_test(0, regs, memory, n),
        0o620..=0o627 | 0o630..=0o637 => do_test(1, regs, memory, n),
        0o640..=0o647 | 0o650..=0o657 => do_test(2, regs, memory, n),
        0o660..=0o667 | 0o670..=0o677 => do_test(3, regs, memory, n),
        _ => Outcome::Stop(refusal(op, n.ac(), StopReason::IllegalInstruction)),
    };
    Some(outcome)
}

/// Carries out an instruction whose address is known, or, where it is an XCT, does nothing.
///
/// `CALLER` is `STEP`, `RUN`, `HERE`, `LOOP` or `WORD`. It changes nothing of what is done: it gives each of these callers
/// a copy of this body, also where they have the same memory, since a body of this size is inlined only where
/// it has one caller.
#[inline(always)]
pub fn carry_out<M: JobMemory, const CALLER: u8>(
    regs: &mut Regs,
    memory: &mut M,
    n: Instruction,
    word: Word,
) -> Option<Outcome>
    ensures none { IsNone result ↔ (family_of n.op ≡ Xct) }
    ensures kept { IsNone result → (regs.new ≡ regs.old) × (M.words memory.new ≡ M.words memory.old) }
    ensures after { IfSome result
        (λ o. record { regs = regs.new; core = M.words memory.new; outcome = o }
        ≡ (if is_listed (family_of n.op) n.ac
        then carried_out (family_of n.op) regs.old (M.words memory.old) n
        (used_in (target_of regs.old.ac (M.words memory.old) word))
        else stopped regs.old (M.words memory.old) IllegalInstruction)) }
    ensures place { M.place memory.new ≡ M.place memory.old }
{
    let op = n.op();
    if op.wrapping_sub(0o250) < 0o130 {
        carry_out_common::<M, CALLER>(op, regs, memory, n, word)
    } else {
        carry_out_rest::<M, CALLER>(op, regs, memory, n, word)
    }
}

/// Why an instruction is refused whose address is not found: an operation that is left out is refused as
/// such first. It is not inlined, so that the operations that are left out have a block of code of their own.
#[inline(never)]
pub fn refusal(op: u32, ac: usize, reason: StopReason) -> StopReason
    requires { op < 2 ^ 9 }
    ensures { result ≡ refusal_of (family_of op) ac reason }
{
    if is_listed_family(classify(op as u16), ac) {
        reason
    } else {
        StopReason::IllegalInstruction
    }
}
