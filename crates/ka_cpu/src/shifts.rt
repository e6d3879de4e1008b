//! ASH, ROT, LSH, ROTC and LSHC.

ghost use Rattle.std.specs.Prelude.{◌≡◌, ◌<◌, ◌^◌, ◌/◌, ◌%◌, Ok, slice_set};
ghost use Rattle.ka_cpu.specs.Effects.{finished, next_ac};
ghost use Rattle.ka_cpu.specs.Shifts.{pair_of, shift_row};

use crate::instruction::Instruction;
use ka_state::{JobMemory, Outcome, Regs};
use ka_word::{shift_pair, shift_signed, shift_word, turn_pair, turn_word};
use word36::Word;

/// AC and AC+1 as one number of 72 bits.
fn read_pair(regs: &Regs, n: Instruction) -> u128
    ensures value { result ≡ pair_of regs.now n }
    ensures below { result < 2 ^ 72 }
{
    let high = regs.ac[n.ac()].number() as u128;
    let low = regs.ac[(n.ac() + 1) % 16].number() as u128;
    (high << 36) + low
}

/// Stores a pair in AC and AC+1.
fn write_pair(regs: &mut Regs, n: Instruction, pair: u128)
    requires pair { pair < 2 ^ 72 }
    ensures { regs.new ≡ record regs.old { ac = slice_set (slice_set regs.old.ac n.ac (pair / 2 ^ 36)) (next_ac n) (pair % 2 ^ 36) } }
{
    regs.ac[n.ac()] = Word::new((pair >> 36) as u64);
    regs.ac[(n.ac() + 1) % 16] = Word::new((pair % (1u128 << 36)) as u64);
}

/// ASH, ROT, LSH, ROTC, LSHC
#[inline(always)]
#[tactic(auto, unfolding(crate::specs::Shifts::shift_row))]
pub fn do_shift<M: JobMemory>(regs: &mut Regs, memory: &mut M, n: Instruction) -> Outcome
    ensures after { record { regs = regs.new; core = M.words memory.new; outcome = result }
        ≡ finished regs.old (M.words memory.old) n (Ok (shift_row regs.old n)) }
    ensures place { M.place memory.new ≡ M.place memory.old }
{
    let a = regs.ac[n.ac()];
    match n.op() {
        0o240 => {
            let (word, overflow) = shift_signed(n.e().number(), a);
            regs.ac[n.ac()] = word;
            if overflow {
                regs.flags.overflow = true;
            }
        }
        0o241 => regs.ac[n.ac()] = turn_word(n.e().number(), a),
        0o242 => regs.ac[n.ac()] = shift_word(n.e().number(), a),
        0o245 => {
            let pair = read_pair(regs, n);
            write_pair(regs, n, turn_pair(n.e().number(), pair));
        }
        _ => {
            let pair = read_pair(regs, n);
            write_pair(regs, n, shift_pair(n.e().number(), pair));
        }
    }
    regs.pc = regs.pc.plus(1);
    Outcome::Done
}
