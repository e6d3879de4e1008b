//! The loops that execute the instructions of a turn.
ghost use Rattle.std.specs.Prelude.{◌≡◌, ◌≤◌, ◌+◌, ℕ, Bool, false};
ghost use Rattle.ka_cpu.specs.Runs.{ran};
ghost use Rattle.machine.specs.Between.{NoneOver, is_among};

use ka_cpu::{run_steps_from, step_in_loop};
use ka_state::{CoreWords, Outcome, Regs};
use word36::{Address, Word};

/// A loop that executes the instructions of a turn, and ends it early after some of them.
pub(crate) trait Runner {
    /// Whether the loop ends after an instruction that leaves the PC at an address.
    ghost ends: { Self → ℕ → Bool };

    /// Executes 1 to `most` instructions: until one calls the monitor or stops, or `ends` holds of the
    /// address at which it leaves the PC. Returns how many were executed, how the last one ended, and, from a loop
    /// that keeps it, the address of the last one; no clause speaks of that.
    fn run(&self, regs: &mut Regs, words: &mut [Word], most: u64) -> (u64, Outcome, Address)
        ensures ran { record { steps = result.0; after = record { regs = regs.new; core = words.new; outcome = result.1 } }
            ≡ ran result.0 regs.old words.old }
        ensures most { result.0 ≤ most }
        ensures least { 1 ≤ most → 1 ≤ result.0 }
        ensures none_over { NoneOver (ends self.now) regs.old words.old result.0 };
}

/// The processor's own loop, which never ends early. Where `IN_PLACE`, a single instruction is inlined into
/// the caller.
#[derive(Clone, Copy, Debug)]
pub(crate) struct Loop<const IN_PLACE: bool>;

impl<const IN_PLACE: bool> Runner for Loop<IN_PLACE> {
    ghost ends = { λ r a. false };

    #[inline(always)]
    fn run(&self, regs: &mut Regs, words: &mut [Word], most: u64) -> (u64, Outcome, Address) {
        let (steps, outcome) = run_steps_from::<IN_PLACE>(regs, words, most);
        (steps, outcome, regs.pc)
    }
}

/// A loop that ends after the first instruction that leaves the PC at one of some addresses, and keeps the address of
/// each instruction.
#[derive(Clone, Copy, Debug)]
pub(crate) struct UpTo<'a> {
    /// The addresses.
    pub addresses: &'a [Address],
}

impl<'a> Runner for UpTo<'a> {
    ghost ends = { λ r a. is_among r.addresses.now a };

    #[inline(never)]
    fn run(&self, regs: &mut Regs, words: &mut [Word], most: u64) -> (u64, Outcome, Address) {
        let mut memory = CoreWords { words };
        let mut at = regs.pc;
        for done in 0..most {
            at = regs.pc;
            match step_in_loop(regs, &mut memory) {
                Outcome::Done => {
                    if is_among(self.addresses, regs.pc) {
                        return (done + 1, Outcome::Done, at);
                    }
                }
                ended => return (done + 1, ended, at),
            }
        }
        (most, Outcome::Done, at)
    }
}

/// Whether an address is one of some.
#[inline(always)]
fn is_among(addresses: &[Address], address: Address) -> bool
    ensures { result ≡ is_among addresses.now address }
{
    addresses.iter().any(|one| *one == address)
}
