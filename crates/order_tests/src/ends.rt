//! The ends of small programs, and how their jobs are left.

use crate::begun::{begun, images_of};
use job_orders::{End, Left, Looked, Standing, look};
use job_sched::{Stop, Wait};
use state_search::Unwatched;
use std::test::Fail;
use word36::Word;

/// Adds one to data word 0, without a lock.
const LOSSY: &str = " MOVEI 1,0
 DATRD. 1,
 HALT
 MOVE 2,1
 ADDI 2,1
 MOVEI 1,0
 DATWR. 1,
 HALT
 EXIT
 END 140
";

/// Takes a lock, writes a letter and keeps the lock.
const TAKES: &str = " MOVE 1,[BLK]
 ENQ. 1,
 HALT
 OUTCHR [101]
 EXIT 1,
BLK: 1,,5
 0,,7
 777777
 POINT 7,[ASCIZ /X/]
 0
 END 140
";

/// How the job at a position is left at an end.
fn left_at(end: &End, position: usize) -> Result<&Left, Fail> {
    match end.jobs.as_slice().get(position) {
        Some(left) => Ok(left),
        None => Err(Fail::new("there are fewer jobs")),
    }
}

#[test]
fn a_count_can_be_lost(rt: HostRuntime) -> Result<(), Fail> {
    let alloc = rt.alloc();
    let images = images_of(&rt, alloc, &[LOSSY, LOSSY])?;
    let system = begun(alloc, 64, images.as_slice())?;
    let Looked::All(report) = look(alloc, system, 64, 1000, 100, &mut Unwatched)? else {
        return Err(Fail::new("not all orders were looked at"));
    };
    assert_eq!(rt; report.states, 13);
    assert_eq!(rt; report.ends.len(), 2);
    let (first, second) = (&report.ends[0], &report.ends[1]);
    assert_eq!(rt; first.moves.as_slice(), [0, 0, 1, 1].as_slice());
    assert_eq!(rt;
        first.shared.as_slice().first().copied(),
        Some(Word::new(2))
    );
    assert_eq!(rt; second.moves.as_slice(), [0, 1, 0, 1].as_slice());
    assert_eq!(rt;
        second.shared.as_slice().first().copied(),
        Some(Word::new(1))
    );
    let left = left_at(first, 0)?;
    assert_eq!(rt; left.standing, Standing::Stopped(Stop::Exit));
    Ok(())
}

#[test]
fn a_job_waits_for_ever(rt: HostRuntime) -> Result<(), Fail> {
    let alloc = rt.alloc();
    let images = images_of(&rt, alloc, &[TAKES, TAKES])?;
    let system = begun(alloc, 64, images.as_slice())?;
    let Looked::All(report) = look(alloc, system, 64, 1000, 100, &mut Unwatched)? else {
        return Err(Fail::new("not all orders were looked at"));
    };
    assert_eq!(rt; report.ends.len(), 2);
    let end = &report.ends[0];
    let (owner, other) = (left_at(end, 0)?, left_at(end, 1)?);
    assert_eq!(rt; owner.standing, Standing::Stopped(Stop::Monitor));
    assert_eq!(rt; owner.text.len(), 1);
    assert_eq!(rt; other.standing, Standing::Waits(Wait::Queue(0, 1)));
    assert_eq!(rt; other.text.len(), 0);
    Ok(())
}
