//! PIINI., PISYS. and DEBRK.

ghost use Rattle.std.specs.Prelude.{◌≡◌, ◌<◌, ◌^◌, Some, None};
ghost use Rattle.core_store.specs.Cores.{IsJob, core_of};
ghost use Rattle.uuo_calls.specs.InterruptRows.{debrk, dismissed, piini, pisys};

use crate::returns::{refuse, skip, stop_at};
use core_store::CoreStore;
use job_sched::{Interrupts, Job};
use ka_state::{Accumulator, CoreWords, StopReason, are_legal_kept, flags_of, word_kept};
use word36::{Address, Word};

/// How many words a vector has.
const VECTOR_WORDS: u32 = 4;

/// The code of PIINI. where an address of the vector is not legal.
const ILLEGAL_VECTOR: u8 = 1;

/// The code of PISYS. for a value that is neither 0 nor 1.
const NEITHER_ON_NOR_OFF: u8 = 1;

/// The code of PISYS. where no vector is set.
const NO_VECTOR: u8 = 2;

/// PIINI.: sets the job's vector to the address in AC, with interrupts off.
pub(crate) fn piini<C: CoreStore>(number: u8, job: &mut Job, ac: Accumulator, cores: &mut C)
    requires number { IsJob number }
    ensures job { job.new ≡ piini (core_of (C.meaning cores.old) number) ac job.old }
    ensures cores { C.meaning cores.new ≡ C.meaning cores.old }
{
    let address = job.regs.ac[ac.index()].right();
    let words = cores.window(number);
    let mut window = CoreWords { words };
    if are_legal_kept(&mut window, address, VECTOR_WORDS) {
        job.interrupts = Interrupts {
            vector: Some(Address::new(address)),
            on: false,
            in_progress: false,
        };
        skip(job);
    } else {
        refuse(job, ac, ILLEGAL_VECTOR);
    }
}

/// PISYS.: turns the job's interrupts off or on, as AC says.
pub(crate) fn pisys(job: &mut Job, ac: Accumulator)
    ensures { job.new ≡ pisys ac job.old }
{
    let asks = job.regs.ac[ac.index()].number();
    if asks > 1 {
        refuse(job, ac, NEITHER_ON_NOR_OFF);
    } else if job.interrupts.vector.is_none() {
        refuse(job, ac, NO_VECTOR);
    } else {
        job.interrupts.on = asks == 1;
        skip(job);
    }
}

/// Goes on at the PC, and with the flags, of the word that the delivery of the interrupt stored; stops the
/// job where the word's address is not legal.
fn dismiss(job: &mut Job, word: Option<Word>)
    ensures { job.new ≡ dismissed job.old word }
{
    match word {
        Some(word) => {
            job.regs.pc = Address::new(word.right());
            job.regs.flags = flags_of(word);
            job.interrupts.in_progress = false;
        }
        None => stop_at(job, StopReason::IllegalAddress),
    }
}

/// DEBRK.: ends the interrupt that is in progress, if one is.
pub(crate) fn debrk<C: CoreStore>(number: u8, job: &mut Job, cores: &mut C)
    requires number { IsJob number }
    ensures job { job.new ≡ debrk (core_of (C.meaning cores.old) number) job.old }
    ensures cores { C.meaning cores.new ≡ C.meaning cores.old }
{
    if !job.interrupts.in_progress {
        return;
    }
    if let Some(vector) = job.interrupts.vector {
        let words = cores.window(number);
        let mut window = CoreWords { words };
        let word = word_kept(&job.regs, &mut window, vector.number() + 1);
        dismiss(job, word);
    }
}
