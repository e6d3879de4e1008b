//! Tables of what is done with a store and what it answers.

ghost use Rattle.std.specs.Prelude.{◌≤◌};
ghost use Rattle.word36.specs.declared.sizes.TheConstants.{MOST_BLOCKS};

use crate::{set_blocks, write_in};
use core_store::CoreStore;
use std::alloc::{AllocError, Global};
use std::process::Abort;
use word36::{JOBS, MOST_BLOCKS, Word};

/// What is done with a store, or asked of it.
#[derive(Clone, Copy)]
pub enum Act {
    /// A job has so many blocks from now on, and no core where that is 0.
    Blocks(u8, u32),
    /// A number is stored at an address of a job's core.
    Write(u8, u32, u32),
    /// The word at an address of a job's core.
    Read(u8, u32),
    /// How many blocks a job has.
    Has(u8),
    /// How many blocks are free.
    Free,
}

/// An act and the number that answers it. None is a refusal, or an address that is not there.
pub type Row = (Act, Option<u64>);

/// The number that answers an act: the free blocks after `Blocks`, and what is stored by `Write`.
pub fn answer<C: CoreStore>(cores: &mut C, act: Act) -> Option<u64> {
    match act {
        Act::Blocks(job, blocks) => have_blocks(cores, job, blocks),
        Act::Write(job, a, number) => write(cores, job, a, number),
        Act::Read(job, a) => read(cores, job, a),
        Act::Has(job) => has(cores, job),
        Act::Free => Some(u64::from(cores.free())),
    }
}

/// Makes a job's core so many blocks, and answers how many are free then.
fn have_blocks<C: CoreStore>(cores: &mut C, job: u8, blocks: u32) -> Option<u64> {
    if job == 0 || job > JOBS {
        return None;
    }
    if blocks == 0 {
        cores.give(job);
    } else if set_blocks(cores, job, blocks).is_err() {
        return None;
    }
    Some(u64::from(cores.free()))
}

/// Stores a number, and answers it.
fn write<C: CoreStore>(cores: &mut C, job: u8, a: u32, number: u32) -> Option<u64> {
    if job == 0 || job > JOBS {
        return None;
    }
    let stored = write_in(cores, job, a, Word::new(u64::from(number)));
    stored.then_some(u64::from(number))
}

/// Reads a word.
fn read<C: CoreStore>(cores: &C, job: u8, a: u32) -> Option<u64> {
    if job == 0 || job > JOBS {
        return None;
    }
    let word = cores.read(job, a)?;
    Some(word.number())
}

/// How many blocks a job has.
fn has<C: CoreStore>(cores: &C, job: u8) -> Option<u64> {
    if job == 0 || job > JOBS {
        return None;
    }
    Some(u64::from(cores.blocks(job)))
}

/// The first row that a new store of so many blocks answers otherwise.
fn first_wrong<C: CoreStore>(
    alloc: Global,
    blocks: u32,
    rows: &[Row],
) -> Result<Option<usize>, AllocError>
    requires least { 1 ≤ blocks }
    requires most { blocks ≤ MOST_BLOCKS }
{
    let mut cores = C::new(alloc, blocks)?;
    for (i, row) in rows.iter().enumerate() {
        if answer(&mut cores, row.0) != row.1 {
            return Ok(Some(i));
        }
    }
    Ok(None)
}

/// Walks the rows of a table on a new store of so many blocks: it answers each so.
pub fn walk<C: CoreStore>(
    rt: &impl Abort,
    alloc: Global,
    blocks: u32,
    rows: &[Row],
    store: &str,
    table: &str,
)
    requires least { 1 ≤ blocks }
    requires most { blocks ≤ MOST_BLOCKS }
{
    let wrong = first_wrong::<C>(alloc, blocks, rows).expect(rt, "memory for the store");
    if let Some(i) = wrong {
        panic!(rt; "{store}, {table}, row {i}");
    }
}
