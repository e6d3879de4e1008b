//! Both stores, at their limits, in holes and after moves.

ghost use Rattle.std.specs.Prelude.{◌<◌, ◌^◌};

use crate::core_acts::{Act, answer, walk};
use crate::core_tables::{ALL_IN_ONE, GROWN, MOVED_TOGETHER, NEW_CORE};
use crate::{come_and_go, copy_word, fetch_in, hand_over, log_in, step_beside, step_in, write_in};
use core_store::{BlockCore, CoreStore, NoCore, PlainCore};
use ka_state::{CoreWords, Flags, JobMemory, Outcome, ReadMemory, Regs};
use std::alloc::{AllocError, Global};
use std::process::Abort;
use std::test::Fail;
use word36::{Address, JOBS, Word};

/// Walks each table on a store, which the message of a wrong row names.
fn walk_tables<C: CoreStore>(rt: &impl Abort, alloc: Global, store: &str) {
    walk::<C>(rt, alloc, 256, &ALL_IN_ONE, store, "ALL_IN_ONE");
    walk::<C>(rt, alloc, 4, &MOVED_TOGETHER, store, "MOVED_TOGETHER");
    walk::<C>(rt, alloc, 8, &GROWN, store, "GROWN");
    walk::<C>(rt, alloc, 4, &NEW_CORE, store, "NEW_CORE");
}

#[test]
fn rows_are_answered(rt: HostRuntime) {
    walk_tables::<PlainCore>(&rt, rt.alloc(), "PlainCore");
    walk_tables::<BlockCore>(&rt, rt.alloc(), "BlockCore");
}

/// All jobs with 4 blocks each, of which one then grows to 8: the first that has not its words.
fn first_disturbed<C: CoreStore>(alloc: Global, grows: u8) -> Result<Option<u8>, AllocError> {
    let mut cores = C::new(alloc, 256)?;
    for job in 1..=JOBS {
        answer(&mut cores, Act::Blocks(job, 4));
        answer(&mut cores, Act::Write(job, 4095, u32::from(job)));
    }
    answer(&mut cores, Act::Blocks(grows, 9));
    answer(&mut cores, Act::Blocks(grows, 8));
    for job in 1..=JOBS {
        let last = answer(&mut cores, Act::Read(job, 4095));
        let before = answer(&mut cores, Act::Read(job, 4094));
        if (last, before) != (Some(u64::from(job)), Some(0)) {
            return Ok(Some(job));
        }
    }
    let grown = answer(&mut cores, Act::Read(grows, 4096));
    Ok((cores.free() != 0 || grown != Some(0)).then_some(0))
}

/// The jobs that grow.
static GROW: [u8; 3] = [1, 5, JOBS];

/// Expects that no job is disturbed where one of them grows.
fn expect_undisturbed<C: CoreStore>(rt: &impl Abort, alloc: Global, store: &str) {
    for grows in &GROW {
        let disturbed = first_disturbed::<C>(alloc, *grows);
        assert!(rt; disturbed == Ok(None), "{store}: job {grows} grows");
    }
}

#[test]
fn all_jobs_share_256_blocks(rt: HostRuntime) {
    expect_undisturbed::<PlainCore>(&rt, rt.alloc(), "PlainCore");
    expect_undisturbed::<BlockCore>(&rt, rt.alloc(), "BlockCore");
}

/// Whether the callers of this crate leave jobs 1, 2 and 3 of a store of 14 blocks one, one and two of them, and a
/// word each at two addresses of job 2.
fn callers_run<C: CoreStore>(alloc: Global) -> Result<bool, Fail> {
    let mut cores = C::new(alloc, 14)?;
    let word = Word::new(0o254_020_000_144);
    log_in(&mut cores, 2, 1, word)?;
    come_and_go(&mut cores, 1, 3, 2, word)?;
    write_in(&mut cores, 1, 5, Word::new(5));
    copy_word(&mut cores, 1, 2, 5);
    copy_word(&mut cores, 1, 2, 1024);
    if cores.blocks(3) == 0 && cores.blocks(1) > 1 {
        hand_over(&mut cores, 1, 3, 1)?;
    }
    let blocks = cores.blocks(1) == 1 && cores.blocks(2) == 1 && cores.blocks(3) == 2;
    let words = cores.read(2, 0) == Some(word) && cores.read(2, 5) == Some(Word::new(5));
    Ok(blocks && words && cores.free() == 10)
}

#[test]
fn generic_callers_run(rt: HostRuntime) -> Result<(), Fail> {
    assert!(rt; callers_run::<PlainCore>(rt.alloc())?, "PlainCore");
    assert!(rt; callers_run::<BlockCore>(rt.alloc())?, "BlockCore");
    assert!(rt; NoCore.code() == 1);
    Ok(())
}

/// Registers of zeros, with the program counter at this address.
fn regs_at(address: u32) -> Regs
    requires { address < 2 ^ 18 }
{
    let flags = Flags {
        overflow: false,
        carry0: false,
        carry1: false,
        no_divide: false,
    };
    Regs {
        ac: [Word::new(0); 16],
        pc: Address::new(address),
        flags,
    }
}

/// Job 2 executes MOVEI 1,5 and MOVEM 1,100 with a move of its core in between, beside jobs 1 and 3,
/// where a zero is no instruction. Whether all was executed, and the word at 100 is 0 of job 1 and 5 of
/// job 2, which finds 5 at addresses 1 and 100.
fn steps_run<C: CoreStore>(alloc: Global) -> Result<bool, AllocError> {
    let mut cores = C::new(alloc, 4)?;
    for job in 1..=3 {
        answer(&mut cores, Act::Blocks(job, 1));
    }
    write_in(&mut cores, 2, 0o140, Word::join(0o201_040, 5));
    write_in(&mut cores, 2, 0o141, Word::join(0o202_040, 0o100));
    let mut regs = regs_at(0o140);
    let first = step_in(&mut cores, 2, &mut regs);
    answer(&mut cores, Act::Blocks(1, 0));
    answer(&mut cores, Act::Blocks(1, 2));
    let second = step_in(&mut cores, 2, &mut regs);
    let third = step_beside(&mut cores, 1, 2, &mut regs);
    let done = matches!(first, Outcome::Done)
        && matches!(second, Outcome::Done)
        && matches!(third, Outcome::Stop(_));
    let five = Some(Word::new(5));
    let read = cores.read(1, 0o100) == Some(Word::new(0)) && cores.read(2, 0o100) == five;
    let fetched = fetch_in(&mut cores, 2, &regs, 1) == five
        && fetch_in(&mut cores, 2, &regs, 0o100) == five;
    Ok(done && read && fetched)
}

#[test]
fn moved_core(rt: HostRuntime) -> Result<(), Fail> {
    assert!(rt; steps_run::<PlainCore>(rt.alloc())?, "PlainCore");
    assert!(rt; steps_run::<BlockCore>(rt.alloc())?, "BlockCore");
    Ok(())
}

#[test]
fn window_is_a_memory(rt: HostRuntime) {
    let mut words = [Word::new(3), Word::new(4)];
    let mut window = CoreWords { words: &mut words };
    assert!(rt;
        window.size() == 2 && window.write(1, Word::new(5)) && !window.write(2, Word::new(6))
    );
    assert!(rt;
        window.read(0) == Some(Word::new(3))
            && window.read(1) == Some(Word::new(5))
            && window.read(2).is_none()
    );
}
