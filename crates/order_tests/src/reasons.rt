//! Why not all orders of some programs are looked at.

use crate::begun::{begun, images_of};
use job_orders::{GivenUp, Looked, Reason, look};
use monitor::Event;
use state_search::Unwatched;
use std::alloc::{AllocError, Global};
use std::process::Abort;
use std::test::Fail;
use tty_lines::Char7;

/// Keeps a lock.
const KEEPS: &str = " MOVE 1,[BLK]
 ENQ. 1,
 HALT
 EXIT 1,
BLK: 1,,5
 0,,7
 777777
 POINT 7,[ASCIZ /X/]
 0
 END 140
";

/// Waits for it for five ticks at most.
const LIMITED: &str = " MOVE 1,[BLK]
 ENQ. 1,
 EXIT
 EXIT
BLK: 1,,5
 5,,7
 777777
 POINT 7,[ASCIZ /X/]
 0
 END 140
";

/// Reads the time of day after a call that others can notice.
const CLOCK: &str = " MOVEI 1,0
 DATRD. 1,
 HALT
 MSTIME 1,
 EXIT
 END 140
";

/// Never makes a call.
const FOR_EVER: &str = "LOOP: JRST LOOP
 END 140
";

/// Why the orders are given up, and how many moves lead there.
fn reason(
    rt: &impl Abort,
    alloc: Global,
    sources: &[&str],
    most: usize,
) -> Result<Option<(Reason, usize)>, AllocError> {
    let images = images_of(rt, alloc, sources)?;
    let system = begun(alloc, 64, images.as_slice())?;
    match look(alloc, system, 64, 1000, most, &mut Unwatched)? {
        Looked::All(_) => Ok(None),
        Looked::GaveUp(GivenUp { reason, moves }) => Ok(Some((reason, moves.len()))),
    }
}

#[test]
fn a_limit_counts(rt: HostRuntime) -> Result<(), Fail> {
    assert_eq!(rt;
        reason(&rt, rt.alloc(), &[KEEPS, LIMITED], 100)?,
        Some((Reason::Limit(2), 2))
    );
    Ok(())
}

#[test]
fn the_time_of_day_is_read(rt: HostRuntime) -> Result<(), Fail> {
    assert_eq!(rt;
        reason(&rt, rt.alloc(), &[KEEPS, CLOCK], 100)?,
        Some((Reason::Clock(2), 1))
    );
    Ok(())
}

#[test]
fn a_job_makes_no_call(rt: HostRuntime) -> Result<(), Fail> {
    assert_eq!(rt;
        reason(&rt, rt.alloc(), &[KEEPS, FOR_EVER], 100)?,
        Some((Reason::Turns(2), 0))
    );
    Ok(())
}

#[test]
fn there_are_too_many_states(rt: HostRuntime) -> Result<(), Fail> {
    assert_eq!(rt;
        reason(&rt, rt.alloc(), &[KEEPS, KEEPS], 2)?,
        Some((Reason::States(2), 0))
    );
    Ok(())
}

#[test]
fn characters_wait_at_a_line(rt: HostRuntime) -> Result<(), Fail> {
    let alloc = rt.alloc();
    let images = images_of(&rt, alloc, &[KEEPS])?;
    let mut system = begun(alloc, 64, images.as_slice())?;
    system.event(&Event::Typed(3, Char7::new(65)));
    let Looked::GaveUp(GivenUp { reason, .. }) = look(alloc, system, 64, 1000, 100, &mut Unwatched)?
    else {
        return Err(Fail::new("all orders were looked at"));
    };
    assert_eq!(rt; reason, Reason::Typed(3));
    Ok(())
}
