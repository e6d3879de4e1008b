//! Why a lock call of a program is refused, or waits.
ghost use Rattle.std.specs.Prelude.{◌≡◌, true, IfOk, option_map};
ghost use Rattle.script_reasons.specs.Explanations.{as_explanation};
ghost use Rattle.uuo_calls.specs.LockRows.{entering};
ghost use Rattle.lockview.specs.Called.{as_explained, before_call, call_told, call_with, call_without, explained_by, explained_by_call};
ghost use Rattle.lockview.specs.Called.{explained_call, explanation_told, quota_at, stays};

use call_block::Block;
use lock_queue::{
    Asking, EnqueueKind, LockCall, LockReply, LockTable, Refusal, Request, RequestId,
};
use lock_reasons::{Cause, Reason, count_of};
use run_events::Called;
use script_reasons::{Explanation, judge};
use std::alloc::{AllocError, Global};
use uuo_calls::{Asked, LockService};
use wait_graph::requests_in;
use word36::Word;

/// More requests than a job can have.
const MOST_QUOTA: u16 = u16::MAX;

/// A lock call that is refused or that waits, and why.
#[derive(Drop)]
pub struct ExplainedCall {
    /// The number of the job.
    pub job: u8,
    /// What it asks by its AC.
    pub asked: Asked,
    /// Why it is refused; `None` if its job waits.
    pub refusal: Option<Refusal>,
    /// The reason, by the requests before the call.
    pub explanation: Explanation,
}

/// A request for the locks of a block.
fn entering(kind: EnqueueKind, block: Result<Block, Refusal>) -> Result<LockCall, Refusal>
    ensures { result ≡ entering kind true MOST_QUOTA block }
{
    let block = block?;
    let asking = Asking {
        kind,
        id: block.id,
        armed: true,
        quota: MOST_QUOTA,
    };
    Ok(LockCall::Enqueue {
        asking,
        wants: block.wants,
    })
}

/// The call on the queue that a lock call with a block asks for.
fn call_with(
    service: LockService,
    function: u32,
    block: Result<Block, Refusal>,
) -> Result<LockCall, Refusal>
    ensures { result ≡ call_with service function block }
{
    match service {
        LockService::Enq => match function {
            0 => entering(EnqueueKind::Blocking, block),
            1 => entering(EnqueueKind::AtOnce, block),
            2 => entering(EnqueueKind::Interrupt, block),
            _ => Ok(LockCall::Modify(block?.wants)),
        },
        LockService::Deq => Ok(LockCall::DequeueNamed(block?.wants)),
        LockService::Enqc => Err(Refusal::NoFunction),
    }
}

/// The call on the queue that a lock call without a block asks for.
fn call_without(service: LockService, word: Word) -> Result<LockCall, Refusal>
    ensures { result ≡ call_without service word }
{
    match service {
        LockService::Deq => match word.left() {
            1 => Ok(LockCall::DequeueAll),
            2 => Ok(LockCall::DequeueId(RequestId::new(word.right()))),
            _ => Err(Refusal::NoFunction),
        },
        LockService::Enq | LockService::Enqc => Err(Refusal::NoFunction),
    }
}

/// The call on the queue that a lock call asks for, as of a job that has a vector and may have as many requests as there can be;
/// or why it is refused before it is judged.
fn call_told(asked: &Asked, block: Option<Result<Block, Refusal>>) -> Result<LockCall, Refusal>
    ensures { result ≡ call_told asked.now block }
{
    match block {
        Some(block) => call_with(asked.service, asked.word.left(), block),
        None => call_without(asked.service, asked.word),
    }
}

/// Whether the call's own request is the last of those that it left: if it waits, and if an interrupt is to notify the job of its
/// grant.
fn stays(refusal: Option<Refusal>, function: u32) -> bool
    ensures { result ≡ stays refusal function }
{
    match refusal {
        None => true,
        Some(Refusal::NotGranted) => function == 2,
        Some(_) => false,
    }
}

/// Of the requests that a call left, those before it.
fn before_call(own: bool, requests: &[Request]) -> &[Request]
    ensures { result.now ≡ before_call own requests.now }
{
    if own {
        &requests[..requests.len().saturating_sub(1)]
    } else {
        requests
    }
}

/// A number of requests as a quota.
fn quota_at(count: usize) -> u16
    ensures { result ≡ quota_at count }
{
    if count < usize::from(MOST_QUOTA) {
        count as u16
    } else {
        MOST_QUOTA
    }
}

/// Why a job's call was refused for this reason, or waits, after these requests.
fn explanation_told(
    alloc: Global,
    requests: &[Request],
    job: u8,
    refusal: Option<Refusal>,
    call: Result<LockCall, Refusal>,
) -> Result<Option<Explanation>, AllocError>
    ensures { IfOk result (λ explanation.
        option_map as_explanation explanation ≡ explanation_told requests.now job refusal call) }
{
    let call = match call {
        Ok(call) => call,
        Err(refusal) => return Ok(Some(Explanation::Wrong(refusal))),
    };
    let reason = match refusal {
        Some(Refusal::NoVector) => Reason::NoVector,
        Some(Refusal::OverQuota) => Reason::OverQuota(quota_at(count_of(requests, job))),
        _ => return judge(alloc, requests, job, &call),
    };
    Ok(Some(Explanation::Judged(job, Cause::Refused(reason))))
}

/// Why a lock call, which asks for a lock or gives one up, was refused for this reason or waits, on the table that it left.
fn explained_by_call<L: LockTable>(
    alloc: Global,
    locks: &L,
    called: Called,
    refusal: Option<Refusal>,
) -> Result<Option<ExplainedCall>, AllocError>
    ensures { IfOk result (λ made. option_map as_explained made ≡ explained_by_call (L.requests locks.now) called refusal) }
{
    let Called {
        job,
        asked,
        block,
        ..
    } = called;
    let own = stays(refusal, asked.word.left());
    let call = call_told(&asked, block);
    let requests = requests_in(alloc, locks)?;
    let before = before_call(own, requests.as_slice());
    match explanation_told(alloc, before, job, refusal, call)? {
        None => Ok(None),
        Some(explanation) => Ok(Some(ExplainedCall {
            job,
            asked,
            refusal,
            explanation,
        })),
    }
}

/// The same of a call of any of the three: ENQC. is not explained.
fn explained_by<L: LockTable>(
    alloc: Global,
    locks: &L,
    called: Called,
    refusal: Option<Refusal>,
) -> Result<Option<ExplainedCall>, AllocError>
    ensures { IfOk result (λ made.
        option_map as_explained made ≡ explained_by called.asked.service (L.requests locks.now) called refusal) }
{
    match called.asked.service {
        LockService::Enqc => Ok(None),
        LockService::Enq => explained_by_call(alloc, locks, called, refusal),
        LockService::Deq => explained_by_call(alloc, locks, called, refusal),
    }
}

/// Why a call of ENQ. or DEQ. is refused or waits, if it is or does, on the table that it left.
pub fn explained<L: LockTable>(
    alloc: Global,
    locks: &L,
    called: Called,
) -> Result<Option<ExplainedCall>, AllocError>
    ensures { IfOk result (λ made. option_map as_explained made ≡ explained_call (L.requests locks.now) called) }
{
    match called.reply {
        LockReply::Queued => explained_by(alloc, locks, called, None),
        LockReply::Refused(refusal) => explained_by(alloc, locks, called, Some(refusal)),
        LockReply::Granted => Ok(None),
        LockReply::Done => Ok(None),
    }
}
