//! The rows of a test, and how they are walked on a table.

use crate::build::Call::{Asks, AsksWithin, GivesUpId};
use crate::build::Lock::Bypassing;
use crate::build::Locks::One;
use crate::build::{ANY_QUOTA, Call, key, lock_call};
use lock_queue::EnqueueKind::AtOnce;
use lock_queue::LockReply::{Done, Granted, Queued};
use lock_queue::{LockReply, LockTable, Woken, run_calls};
use std::process::Abort;
use word36::JOBS;

/// A call and its answer, something else that is done, or something that must be seen. The number of a
/// job comes first.
#[derive(Clone, Copy)]
pub enum Row<'a> {
    /// A call, and its answer.
    Calls(u8, Call, LockReply),
    /// A call, and the code of the refusal that answers it, 0 for another answer.
    Code(u8, Call, u8),
    /// A call, its answer, and the jobs and ids of the grants that it makes, in order of arrival.
    Grants(u8, Call, LockReply, &'a [(u8, u32)]),
    /// A job fills the table with requests for locks of their own, which are granted. Their ids count from 1.
    Fills(u8),
    /// A job makes as many such requests as this, which is its quota, and they are granted.
    FillsQuota(u8, u16),
    /// A list of three calls, each of which is answered: one job asks for a lock and gives it up, and then another asks
    /// for it.
    Lists,
    /// A job's requests are taken out.
    Releases(u8),
    /// A job's requests are taken out, and the grants that this makes.
    ReleaseGrants(u8, &'a [(u8, u32)]),
    /// The requests by which a job waits are taken out.
    Withdraws(u8),
    /// The requests by which the jobs of a set wait are taken out: job j where the bit of value 2^j is set.
    WithdrawsAll(u64),
    /// They are taken out, and the grants that this makes.
    WithdrawalGrants(u64, &'a [(u8, u32)]),
    /// A job is notified of its pending grant.
    Tells(u8),
    /// All requests are taken out.
    Clears,
    /// The ids of the requests that are granted, in order of arrival.
    Granted(&'a [u32]),
    /// How many requests there are.
    Requests(usize),
    /// There are as many requests as the table has room for.
    IsFull,
    /// Whether a job waits.
    Waits(u8, bool),
    /// Whether a job waits for another.
    WaitsFor(u8, u8, bool),
    /// The id of the grant that a job is yet to be notified of.
    Pending(u8, Option<u32>),
    /// The three words that a job is given on a user code.
    Status(u8, u32, [u64; 3]),
}

/// The rows of a test, and its name.
pub struct Table {
    pub name: &'static str,
    pub rows: &'static [Row<'static>],
}

/// What a call of a job answers; nothing where there is no such job.
fn reply<L: LockTable>(table: &mut L, job: u8, call: Call) -> Option<LockReply> {
    if job == 0 || job > JOBS {
        return None;
    }
    Some(table.call(job, &lock_call(call)))
}

/// The code of the refusal that answers a call of a job, 0 for another answer.
fn code<L: LockTable>(table: &mut L, job: u8, call: Call) -> Option<u8> {
    match reply(table, job, call)? {
        LockReply::Refused(refusal) => Some(refusal.code()),
        LockReply::Granted | LockReply::Queued | LockReply::Done => Some(0),
    }
}

/// Makes so many requests of a job that has this quota, with ids from 1 on, each for a lock of its own. Whether
/// all are granted.
fn fills<L: LockTable>(table: &mut L, job: u8, quota: u16, count: u16) -> bool {
    for i in 1..=count {
        let ask = AsksWithin(quota, AtOnce, i, One(Bypassing(u32::from(i), 0)));
        if reply(table, job, ask) != Some(Granted) {
            return false;
        }
    }
    true
}

/// Whether a list of calls is answered: a job asks for a lock and gives it up, and then another asks for it.
fn lists<L: LockTable>(table: &mut L) -> bool {
    let calls = [
        (1, lock_call(Asks(AtOnce, 1, One(Bypassing(1, 0))))),
        (1, lock_call(GivesUpId(1))),
        (2, lock_call(Asks(AtOnce, 2, One(Bypassing(1, 0))))),
    ];
    let mut replies = [Queued; 3];
    run_calls(table, &calls, &mut replies);
    replies == [Granted, Done, Granted]
}

/// Whether the grants are of these jobs and ids.
fn are_grants(woken: &Woken, pairs: &[(u8, u32)]) -> bool {
    let grants = woken.as_slice();
    if grants.len() != pairs.len() {
        return false;
    }
    for (i, (job, id)) in pairs.iter().enumerate() {
        if grants[i].job != *job || grants[i].id.number() != *id {
            return false;
        }
    }
    true
}

/// Whether a call of a job answers so and makes these grants.
fn grants<L: LockTable>(
    table: &mut L,
    job: u8,
    call: Call,
    answer: LockReply,
    pairs: &[(u8, u32)],
) -> bool {
    if job == 0 || job > JOBS {
        return false;
    }
    let mut woken = Woken::new();
    table.call_waking(job, &lock_call(call), &mut woken) == answer && are_grants(&woken, pairs)
}

/// Whether these grants are made where a job's requests are taken out.
fn release_grants<L: LockTable>(table: &mut L, job: u8, pairs: &[(u8, u32)]) -> bool {
    let mut woken = Woken::new();
    table.release_waking(job, &mut woken);
    are_grants(&woken, pairs)
}

/// Whether these grants are made where the requests by which the jobs of a set wait are taken out.
fn withdrawal_grants<L: LockTable>(table: &mut L, jobs: u64, pairs: &[(u8, u32)]) -> bool {
    let mut woken = Woken::new();
    table.withdraw_all_waking(jobs, &mut woken);
    are_grants(&woken, pairs)
}

/// Whether the requests that are granted have these ids.
fn are_granted<L: LockTable>(table: &L, ids: &[u32]) -> bool {
    let mut next = 0;
    for i in 0..table.len() {
        if table.granted(i) {
            if next >= ids.len() || table.request(i).id.number() != ids[next] {
                return false;
            }
            next += 1;
        }
    }
    next == ids.len()
}

/// The three words that a job is given on a user code.
fn words<L: LockTable>(table: &L, job: u8, code: u32) -> [u64; 3] {
    table
        .status(&key(code), job)
        .words()
        .map(|word| word.number())
}

impl Row<'_> {
    /// Does to a table what the row does. Whether the table answers so; whether the row sees what it looks for, where
    /// it only looks.
    pub fn holds<L: LockTable>(&self, table: &mut L) -> bool {
        match self {
            Row::Calls(job, call, answer) => reply(table, *job, *call) == Some(*answer),
            Row::Code(job, call, number) => code(table, *job, *call) == Some(*number),
            Row::Grants(job, call, answer, pairs) => grants(table, *job, *call, *answer, pairs),
            Row::ReleaseGrants(job, pairs) => release_grants(table, *job, pairs),
            Row::Fills(job) => fills(table, *job, ANY_QUOTA, L::REQS as u16),
            Row::FillsQuota(job, quota) => fills(table, *job, *quota, *quota),
            Row::Lists => lists(table),
            Row::Releases(job) => {
                table.release(*job);
                true
            }
            Row::Withdraws(job) => {
                table.withdraw(*job);
                true
            }
            Row::WithdrawsAll(jobs) => {
                table.withdraw_all(*jobs);
                true
            }
            Row::WithdrawalGrants(jobs, pairs) => withdrawal_grants(table, *jobs, pairs),
            Row::Tells(job) => {
                table.mark_notified(*job);
                true
            }
            Row::Clears => {
                table.clear();
                true
            }
            Row::Granted(ids) => are_granted(table, ids),
            Row::Requests(count) => table.len() == *count,
            Row::IsFull => table.len() == L::REQS,
            Row::Waits(job, waits) => table.is_waiting(*job) == *waits,
            Row::WaitsFor(job, other, waits) => table.waits_for(*job, *other) == *waits,
            Row::Pending(job, id) => table.pending(*job).map(|id| id.number()) == *id,
            Row::Status(job, code, numbers) => words(table, *job, *code) == *numbers,
        }
    }
}

/// Walks rows on a table: each must hold of it.
pub fn walk_one<L: LockTable>(rt: &impl Abort, table: &mut L, rows: &[Row]) {
    for (i, row) in rows.iter().enumerate() {
        assert!(rt; row.holds(table), "row {i}");
    }
}
