//! What moves lead to, in every order.
ghost use Rattle.std.specs.Prelude.{◌≡◌, ◌≤◌, IfOk};
ghost use Rattle.job_moves.specs.Moves.{IsAwake};
ghost use Rattle.word36.specs.declared.sizes.TheConstants.{JOBS};

use crate::begun::{Machine, begun, images_of, machine_of};
use crate::sources::{CAREFUL, CLOCK, HOLDER, LIMITED, LOOP, LOSSY, SLEEPER};
use std::alloc::{AllocError, Global};
use std::process::Abort;
use std::test::Fail;
use word36::JOBS;

/// How many turns a job may take that nobody can notice.
const MOST: u32 = 100;

/// The blocks of the machine.
const BLOCKS: u32 = 8;

/// How many jobs some sources have, at most as many as there can be.
fn count_of(sources: &[&str]) -> u8
    ensures { result ≤ JOBS }
{
    sources.len().min(usize::from(JOBS)) as u8
}

/// Jobs with the images of some sources, logged in, started and settled.
fn settled(rt: &impl Abort, alloc: Global, sources: &[&str]) -> Result<Machine, AllocError>
    ensures { IfOk result IsAwake }
{
    let images = images_of(rt, alloc, sources)?;
    let system = begun(alloc, BLOCKS, images.as_slice())?;
    let mut machine = machine_of(alloc, system, BLOCKS)?;
    machine.settle(count_of(sources), MOST)?;
    Ok(machine)
}

/// Data word 0 after these moves, or `None` if one of them may not be made or another may.
fn left_by(
    rt: &impl Abort,
    alloc: Global,
    sources: &[&str],
    moves: &[u8],
) -> Result<Option<u64>, AllocError> {
    let count = count_of(sources);
    let mut machine = settled(rt, alloc, sources)?;
    for k in moves {
        if *k >= count || !machine.make_move(count, MOST, *k)? {
            return Ok(None);
        }
    }
    for k in 0..count {
        if machine.make_move(count, MOST, k)? {
            return Ok(None);
        }
    }
    Ok(Some(machine.world.shared[0].number()))
}

/// A list of moves of two jobs: the binary digits of a number, the last first.
fn moves_of(alloc: Global, list: u32, length: usize) -> Result<Vec<u8>, AllocError> {
    let mut moves = Vec::new(alloc);
    let mut rest = list;
    for _ in 0..length {
        moves.push((rest % 2) as u8)?;
        rest /= 2;
    }
    Ok(moves)
}

/// The ends of the first `lists` lists of `length` moves of two jobs: how many lead to an end with 1 in data word 0, and with 2.
fn ends(
    rt: &impl Abort,
    alloc: Global,
    source: &str,
    lists: u32,
    length: usize,
) -> Result<(u32, u32), AllocError> {
    let (mut ones, mut twos) = (0u32, 0u32);
    for list in 0..lists {
        let moves = moves_of(alloc, list, length)?;
        match left_by(rt, alloc, &[source, source], moves.as_slice())? {
            Some(1) => ones = ones.saturating_add(1),
            Some(2) => twos = twos.saturating_add(1),
            _ => {}
        }
    }
    Ok((ones, twos))
}

#[test]
fn counts_get_lost(rt: HostRuntime) -> Result<(), Fail> {
    // Each job reads and writes: of six orders the two in which one job does both first keep both counts.
    assert_eq!(rt; ends(&rt, rt.alloc(), LOSSY, 16, 4)?, (4, 2));
    Ok(())
}

#[test]
fn a_lock_keeps_counts(rt: HostRuntime) -> Result<(), Fail> {
    // Each job makes four calls that the other can notice. In all orders both counts are kept: the other asks for the lock
    // before the first three of them or after the last, so there are four orders for each job that is first.
    assert_eq!(rt; ends(&rt, rt.alloc(), CAREFUL, 256, 8)?, (0, 8));
    Ok(())
}

#[test]
fn sleeps_end_at_once(rt: HostRuntime) -> Result<(), Fail> {
    assert_eq!(rt; left_by(&rt, rt.alloc(), &[SLEEPER], &[0])?, Some(5));
    Ok(())
}

#[test]
fn texts_are_kept(rt: HostRuntime) -> Result<(), Fail> {
    let mut machine = settled(&rt, rt.alloc(), &[LOSSY])?;
    assert!(rt; machine.make_move(1, MOST, 0)?);
    assert!(rt; machine.make_move(1, MOST, 0)?);
    assert_eq!(rt; machine.texts[1].len(), 1);
    assert_eq!(rt; machine.texts[1][0].number(), 0o101);
    assert_eq!(rt; machine.last[1].number(), 0o151);
    Ok(())
}

#[test]
fn is_not_clear(rt: HostRuntime) -> Result<(), Fail> {
    // A job reads the time of day, or goes on for ever.
    assert!(rt; !settled(&rt, rt.alloc(), &[CLOCK])?.is_clear(1));
    assert!(rt; !settled(&rt, rt.alloc(), &[LOOP])?.is_clear(1));
    // A limit counts.
    let mut machine = settled(&rt, rt.alloc(), &[HOLDER, LIMITED])?;
    assert!(rt; machine.is_clear(2));
    assert!(rt; machine.make_move(2, MOST, 0)?);
    assert!(rt; machine.is_clear(2));
    assert!(rt; machine.make_move(2, MOST, 1)?);
    assert!(rt; !machine.is_clear(2));
    assert!(rt; !machine.make_move(2, MOST, 0)?);
    Ok(())
}
