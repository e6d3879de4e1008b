//! How many states small programs have.

use crate::begun::{begun, images_of};
use job_orders::{Looked, look};
use state_search::Unwatched;
use std::alloc::{AllocError, Global};
use std::process::Abort;
use std::test::Fail;

/// Counts in data word 0 under a lock, once.
const LOCKED: &str = " MOVEI 5,1
LOOP: MOVE 1,[BLK]
 ENQ. 1,
 HALT
 MOVEI 1,0
 DATRD. 1,
 HALT
 MOVE 2,1
 ADDI 2,1
 MOVEI 1,0
 DATWR. 1,
 HALT
 MOVE 1,[BLK]
 DEQ. 1,
 HALT
 SOJG 5,LOOP
 EXIT
BLK: 1,,5
 0,,7
 777777
 POINT 7,[ASCIZ /COUNT/]
 0
 END 140
";

const LOCKED_2: &str = " MOVEI 5,2
LOOP: MOVE 1,[BLK]
 ENQ. 1,
 HALT
 MOVEI 1,0
 DATRD. 1,
 HALT
 MOVE 2,1
 ADDI 2,1
 MOVEI 1,0
 DATWR. 1,
 HALT
 MOVE 1,[BLK]
 DEQ. 1,
 HALT
 SOJG 5,LOOP
 EXIT
BLK: 1,,5
 0,,7
 777777
 POINT 7,[ASCIZ /COUNT/]
 0
 END 140
";

const LOCKED_3: &str = " MOVEI 5,3
LOOP: MOVE 1,[BLK]
 ENQ. 1,
 HALT
 MOVEI 1,0
 DATRD. 1,
 HALT
 MOVE 2,1
 ADDI 2,1
 MOVEI 1,0
 DATWR. 1,
 HALT
 MOVE 1,[BLK]
 DEQ. 1,
 HALT
 SOJG 5,LOOP
 EXIT
BLK: 1,,5
 0,,7
 777777
 POINT 7,[ASCIZ /COUNT/]
 0
 END 140
";

const UNLOCKED: &str = " MOVEI 5,1
LOOP: MOVEI 1,0
 DATRD. 1,
 HALT
 MOVE 2,1
 ADDI 2,1
 MOVEI 1,0
 DATWR. 1,
 HALT
 SOJG 5,LOOP
 EXIT
 END 140
";

const UNLOCKED_2: &str = " MOVEI 5,2
LOOP: MOVEI 1,0
 DATRD. 1,
 HALT
 MOVE 2,1
 ADDI 2,1
 MOVEI 1,0
 DATWR. 1,
 HALT
 SOJG 5,LOOP
 EXIT
 END 140
";

const UNLOCKED_3: &str = " MOVEI 5,3
LOOP: MOVEI 1,0
 DATRD. 1,
 HALT
 MOVE 2,1
 ADDI 2,1
 MOVEI 1,0
 DATWR. 1,
 HALT
 SOJG 5,LOOP
 EXIT
 END 140
";

/// How many states there are, how many ends, and whether jobs can wait in a circle.
fn counts(
    rt: &impl Abort,
    alloc: Global,
    sources: &[&str],
    most: usize,
) -> Result<(usize, usize, bool), AllocError> {
    let images = images_of(rt, alloc, sources)?;
    let system = begun(alloc, 64, images.as_slice())?;
    match look(alloc, system, 64, 1000, most, &mut Unwatched)? {
        Looked::All(report) => Ok((report.states, report.ends.len(), report.circle.is_some())),
        Looked::GaveUp(_) => Ok((0, 0, false)),
    }
}

#[test]
fn counts_with_lock(rt: HostRuntime) -> Result<(), Fail> {
    assert_eq!(rt;
        counts(&rt, rt.alloc(), &[LOCKED, LOCKED], 10000)?,
        (23, 1, false)
    );
    assert_eq!(rt;
        counts(&rt, rt.alloc(), &[LOCKED_2, LOCKED_2], 10000)?,
        (97, 1, false)
    );
    assert_eq!(rt;
        counts(&rt, rt.alloc(), &[LOCKED_3, LOCKED_3], 10000)?,
        (275, 1, false)
    );
    Ok(())
}

#[test]
fn counts_without_lock(rt: HostRuntime) -> Result<(), Fail> {
    assert_eq!(rt;
        counts(&rt, rt.alloc(), &[UNLOCKED, UNLOCKED], 10000)?,
        (13, 2, false)
    );
    assert_eq!(rt;
        counts(&rt, rt.alloc(), &[UNLOCKED_2, UNLOCKED_2], 10000)?,
        (75, 3, false)
    );
    assert_eq!(rt;
        counts(&rt, rt.alloc(), &[UNLOCKED_3, UNLOCKED_3], 10000)?,
        (305, 5, false)
    );
    Ok(())
}

/// Two locks, in this order.
const A_THEN_B: &str = " MOVE 1,[A]
 ENQ. 1,
 HALT
 MOVE 1,[B]
 ENQ. 1,
 HALT
 EXIT
A: 1,,5
 0,,1
 777777
 POINT 7,[ASCIZ /A/]
 0
B: 1,,5
 0,,2
 200000,,777777
 POINT 7,[ASCIZ /B/]
 0
 END 140
";

/// And in the other.
const B_THEN_A: &str = " MOVE 1,[B]
 ENQ. 1,
 HALT
 MOVE 1,[A]
 ENQ. 1,
 HALT
 EXIT
A: 1,,5
 0,,1
 200000,,777777
 POINT 7,[ASCIZ /A/]
 0
B: 1,,5
 0,,2
 777777
 POINT 7,[ASCIZ /B/]
 0
 END 140
";

#[test]
fn counts_a_circle(rt: HostRuntime) -> Result<(), Fail> {
    assert_eq!(rt;
        counts(&rt, rt.alloc(), &[A_THEN_B, B_THEN_A], 10000)?,
        (24, 2, true)
    );
    Ok(())
}
