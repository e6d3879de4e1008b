//! Machines on which states are set out, and from which they are packed.
ghost use Rattle.std.specs.Prelude.{◌≡◌, ◌<◌, ◌≤◌, [], IfOk, None, OnOk, Some, false, if◌then◌else◌, length, map, slice_index_or};
ghost use Rattle.std.specs.List.{All, IsDistinct};
ghost use Rattle.core_store.specs.Cores.{core_of};
ghost use Rattle.job_sched.specs.Tables.{job_at};
ghost use Rattle.kept_parts.specs.SameSlots.{same_kept};
ghost use Rattle.state_search.specs.Parts.{AreGrown};
ghost use Rattle.word36.specs.declared.sizes.TheConstants.{JOBS, MOST_BLOCKS};
ghost use Rattle.job_moves.specs.Moves.{IsAwake, next};
ghost use Rattle.job_orders.specs.Pages.{same_numbers};
ghost use Rattle.job_orders.specs.Systems.{IsReady};
ghost use Rattle.job_orders.specs.Tables.{IsJob, IsNumbered, IsPages, Learns, form_of, job_of, numbers_at, page_at, slot_at, words_at};
ghost use Rattle.job_orders.specs.Views.{IsFramed, form_in, job_in, jobs_in, view_of};

use crate::kept::KeptState;
use crate::packing::{guessed, pack_core, pack_rest, pack_slot, pack_text, pack_three};
use crate::pages::{Slot, Text};
use crate::tables::Tables;
use crate::unpacking::{set_cores, set_requests, set_shared, set_slots, set_texts};
use core_store::{CoreStore, PlainCore};
use job_sched::{Job, JobTable};
use job_turns::Turns;
use lock_queue::LockTable;
use plain_table::PlainTable;
use state_search::Parts;
use std::alloc::{AllocError, Global};
use tty_lines::Lines;
use uuo_calls::{CallRoom, World};
use word36::{DATA_WORDS, MOST_REQUESTS, Word};

/// A machine on which states are set out.
pub type Machine = Turns<PlainTable<MOST_REQUESTS>, PlainCore>;

/// A machine without jobs.
pub(crate) fn bare_machine(alloc: Global, quantum: u8, blocks: u32) -> Result<Machine, AllocError>
    requires some { 1 ≤ blocks }
    requires most { blocks ≤ MOST_BLOCKS }
    ensures { IfOk result (IsReady quantum blocks) }
{
    let world = World {
        table: JobTable::new(),
        lines: Lines::new(alloc)?,
        locks: PlainTable::new(alloc)?,
        cores: PlainCore::new(alloc, blocks)?,
        shared: [Word::new(0); DATA_WORDS],
        room: CallRoom::new(),
    };
    let machine = Turns::new(alloc, world, quantum, blocks)?;
    Ok(machine)
}

/// Lets job k + 1 take its turn and all jobs settle, if that move can be made. Whether it was made.
#[tactic(auto, using(crate::proofs::Moving::not_clear, crate::proofs::Moving::no_turn, crate::proofs::Moving::move_made))]
pub(crate) fn take_move(
    machine: &mut Machine,
    count: u8,
    most: u32,
    k: u8,
) -> Result<bool, AllocError>
    requires count { count ≤ JOBS }
    requires job { k < count }
    requires awake { IsAwake machine.old }
    ensures made { IfOk result (λ made. next most count machine.old k ≡ if made then Some machine.new else None) }
    ensures same { IfOk result (λ made. made ≡ false → machine.new ≡ machine.old) }
{
    if !machine.is_clear(count) || !machine.can_run(k + 1) {
        return Ok(false);
    }
    machine.take_turn_at_once(k + 1)?;
    machine.settle(count, most)?;
    Ok(true)
}

/// The slot of job n of a machine.
fn slot_of(machine: &Machine, n: u8) -> Option<Job>
    ensures { result ≡ job_at machine.now.machine.world.table.jobs n }
{
    machine.world.table.job(n).copied()
}

/// The number of the slot of job n of a machine.
fn pack_slot_of(slots: &mut Parts<Slot>, machine: &Machine, n: u8) -> Result<u32, AllocError>
    requires { n ≤ JOBS }
    ensures slot { IfOk result (λ m. slot_at slots.new m
        ≡ record { slot = job_at machine.now.machine.world.table.jobs n; last = slice_index_or machine.now.last n 0 }) }
    ensures there { IfOk result (λ m. m < length slots.new) }
    ensures grown { OnOk result (AreGrown slots.old slots.new) }
    ensures unique { OnOk result (IsDistinct same_kept slots.new) }
{
    let slot = slot_of(machine, n);
    let last = machine.last[n as usize];
    pack_slot(slots, &slot, last)
}

/// The number of the text that job n of a machine has put out.
fn pack_text_of(
    alloc: Global,
    texts: &mut Parts<Text>,
    machine: &Machine,
    n: u8,
) -> Result<u32, AllocError>
    requires { n ≤ JOBS }
    ensures text { IfOk result (λ m. page_at texts.new m ≡ slice_index_or machine.now.texts n []) }
    ensures there { IfOk result (λ m. m < length texts.new) }
    ensures grown { OnOk result (AreGrown texts.old texts.new) }
    ensures unique { OnOk result (IsDistinct same_numbers texts.new) }
{
    let number = pack_text(alloc, texts, machine.texts[n as usize].as_slice())?;
    Ok(number)
}

/// The number of the core of job n of a machine, which stays as it is. The pages of a list are tried first.
fn pack_core_of(
    alloc: Global,
    tables: &mut Tables,
    machine: &mut Machine,
    n: u8,
    guess: u32,
) -> Result<u32, AllocError>
    requires some { 1 ≤ n }
    requires most { n ≤ JOBS }
    ensures words { IfOk result (λ m. words_at tables.new m ≡ core_of machine.old.machine.world.cores n) }
    ensures pages { IfOk result (IsPages tables.new) }
    ensures learns { OnOk result (Learns tables.old tables.new) }
    ensures same { machine.new ≡ machine.old }
{
    pack_core(alloc, tables, &mut machine.world.cores, n, guess)
}

/// The number of job n of a machine, which stays as it is. The pages of a list are tried first for its core.
fn pack_job_of(
    alloc: Global,
    tables: &mut Tables,
    machine: &mut Machine,
    n: u8,
    guess: u32,
) -> Result<u32, AllocError>
    requires some { 1 ≤ n }
    requires most { n ≤ JOBS }
    ensures job { IfOk result (λ number. job_of tables.new number ≡ job_in machine.old n) }
    ensures there { IfOk result (IsJob tables.new) }
    ensures learns { OnOk result (Learns tables.old tables.new) }
    ensures same { machine.new ≡ machine.old }
{
    let slot = pack_slot_of(&mut tables.slots, machine, n)?;
    let core = pack_core_of(alloc, tables, machine, n, guess)?;
    let text = pack_text_of(alloc, &mut tables.texts, machine, n)?;
    let number = pack_three(alloc, &mut tables.lists, slot, core, text)?;
    Ok(number)
}

/// The number of the list of jobs 1 to `count` of a machine, which stays as it is. The parts of a list of jobs are tried first.
fn pack_jobs(
    alloc: Global,
    tables: &mut Tables,
    machine: &mut Machine,
    count: u8,
    like: u32,
) -> Result<u32, AllocError>
    requires { count ≤ JOBS }
    ensures jobs { IfOk result (λ n. map (job_of tables.new) (numbers_at tables.new.lists n) ≡ jobs_in machine.old count) }
    ensures each { IfOk result (λ n. All (IsJob tables.new) (numbers_at tables.new.lists n)) }
    ensures there { IfOk result (λ n. n < length tables.new.lists) }
    ensures learns { OnOk result (Learns tables.old tables.new) }
    ensures same { machine.new ≡ machine.old }
{
    let mut numbers = Vec::with_capacity(alloc, count as usize)?;
    for k in 0..count {
        let job = guessed(&tables.lists, like, k as usize);
        let core = guessed(&tables.lists, job, 1);
        let number = pack_job_of(alloc, tables, machine, k + 1, core)?;
        numbers.push(number)?;
    }
    let number = tables.lists.number_of(numbers)?;
    Ok(number)
}

/// The state of a machine that has jobs 1 to `count`, as it is kept. The machine stays as it is. The parts of the state `like` are
/// tried first: it is mostly the one from which a move was made.
pub(crate) fn pack(
    alloc: Global,
    tables: &mut Tables,
    machine: &mut Machine,
    count: u8,
    like: &KeptState,
) -> Result<KeptState, AllocError>
    requires { count ≤ JOBS }
    ensures form { IfOk result (λ x. form_of tables.new x ≡ form_in count machine.old) }
    ensures numbered { IfOk result (IsNumbered tables.new) }
    ensures learns { OnOk result (Learns tables.old tables.new) }
    ensures same { machine.new ≡ machine.old }
{
    let jobs = pack_jobs(alloc, tables, machine, count, like.jobs)?;
    let world = &machine.world;
    let packed = pack_rest(
        alloc,
        tables,
        jobs,
        &world.locks,
        &world.cores,
        &world.shared,
        like.shared,
    )?;
    Ok(packed)
}

/// Sets out a state. What the machine held before does not matter.
pub(crate) fn set_out(
    tables: &Tables,
    machine: &mut Machine,
    state: KeptState,
) -> Result<(), AllocError>
    requires numbered { IsNumbered tables.now state }
    requires few { length (numbers_at tables.now.lists state.jobs) ≤ JOBS }
    requires framed { IsFramed machine.old.machine.quantum machine.old.machine.blocks (length (numbers_at tables.now.lists state.jobs))
        (view_of machine.old.machine.quantum machine.old.machine.blocks (form_of tables.now state)) }
    requires ready { IsReady machine.old.machine.quantum machine.old.machine.blocks machine.old }
    ensures { OnOk result (machine.new ≡ view_of machine.old.machine.quantum machine.old.machine.blocks (form_of tables.now state)) }
{
    let blocks = machine.blocks;
    let numbers = tables.lists.part(state.jobs).as_slice();
    let world = &mut machine.world;
    set_slots(tables, numbers, &mut world.table, &mut machine.last);
    world.cores.free();
    set_cores(tables, numbers, &mut world.cores, blocks)?;
    set_texts(tables, numbers, machine.texts.as_mut_slice())?;
    world.lines.clear();
    let requests = tables.lists.part(state.requests).as_slice();
    set_requests(&tables.requests, requests, &mut world.locks);
    set_shared(tables, state.shared, &mut world.shared);
    Ok(())
}
