//! DATRD. and DATWR.

ghost use Rattle.std.specs.Prelude.{◌≡◌, ◌<◌, length};
ghost use Rattle.word36.specs.declared.sizes.TheConstants.{DATA_WORDS};
ghost use Rattle.uuo_calls.specs.DataRows.{datrd, datwr};

use crate::returns::{refuse, skip};
use job_sched::Job;
use ka_state::Accumulator;
use word36::{DATA_WORDS, Word};

/// The code for an index that no shared word has.
const NO_SUCH_WORD: u8 = 1;

/// DATRD.: AC gets the shared word whose number AC has.
pub(crate) fn datrd(job: &mut Job, ac: Accumulator, shared: &[Word; DATA_WORDS])
    ensures { job.new ≡ datrd shared.now ac job.old }
{
    let at = job.regs.ac[ac.index()].right() as usize;
    if at < DATA_WORDS {
        job.regs.ac[ac.index()] = shared[at];
        skip(job);
    } else {
        refuse(job, ac, NO_SUCH_WORD);
    }
}

/// DATWR.: the shared word whose number AC has becomes the word in AC+1.
pub(crate) fn datwr(job: &mut Job, ac: Accumulator, shared: &mut [Word; DATA_WORDS])
    ensures { record { job = job.new; shared = shared.new } ≡ datwr ac job.old shared.old }
{
    let at = job.regs.ac[ac.index()].right() as usize;
    if at < DATA_WORDS {
        shared[at] = job.regs.ac[ac.next().index()];
        skip(job);
    } else {
        refuse(job, ac, NO_SUCH_WORD);
    }
}
