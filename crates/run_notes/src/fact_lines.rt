//! The facts of a run, reported as they come.
ghost use Rattle.std.specs.Prelude.{◌≡◌, ◌++◌, IfOk, OnOk, if◌then◌else◌, decimal, string_bytes};
ghost use Rattle.std.specs.List.{flat_map};
ghost use Rattle.word36.specs.Words.{left_half, right_half};
ghost use Rattle.run_notes.specs.FactWords.{answer_words, asks_for_locks, block_words, called_words, code_words, done_words, fact_text, facts_text, function_words, grants_text, id_words, limit_asked_words, locks_words, meaning_of, named_words, quota_words, refusal_words, refused_with, refused_words, service_words, status_words, stays, what_words};
ghost use Rattle.run_notes.specs.Words.{grant_words, limit_words, wants_words};

use crate::locks::push_lock;
use call_block::Block;
use concrete_machine::Machine;
use lock_queue::{LockReply, Refusal, Request, RequestId, Want};
use run_events::{Called, Fact};
use std::alloc::{AllocError, Global};
use uuo_calls::LockService;
use word36::Word;

/// The name of a lock call.
fn name_of(service: LockService) -> &'static str
    ensures { result.now ≡ service_words service }
{
    match service {
        LockService::Enq => "ENQ.",
        LockService::Deq => "DEQ.",
        LockService::Enqc => "ENQC.",
    }
}

/// What the function of a lock call asks for.
fn function_meaning(service: LockService, function: u32) -> &'static str
    ensures { result.now ≡ function_words service function }
{
    match (service, function) {
        (LockService::Enq, 0) => "wait",
        (LockService::Enq, 1) => "at once",
        (LockService::Enq, 2) => "by interrupt",
        (LockService::Enq, 3) => "change",
        (LockService::Deq, 0) => "locks",
        (LockService::Deq, 1) => "all",
        (LockService::Deq, 2) => "by request",
        (LockService::Enqc, 0) => "status",
        (LockService::Enqc, 1) => "quota",
        (LockService::Enqc, 2) => "lower the quota",
        _ => "no such function",
    }
}

/// What a refusal means.
fn meaning_of(refusal: Refusal) -> &'static str
    ensures { result.now ≡ meaning_of refusal }
{
    match refusal {
        Refusal::NotGranted => "not granted at once",
        Refusal::NoFunction => "no such function",
        Refusal::BadBlock => "the block is not in memory, or its head is wrong",
        Refusal::BadCount => "no lock, or more than 16",
        Refusal::BadPointer => "neither a user code nor a pointer to a name",
        Refusal::BadName => "an empty name, or one of more than 30 characters",
        Refusal::BadQualifier => "no such qualifier",
        Refusal::BadPool => "a pool or a group that makes no sense",
        Refusal::Differs => "another level, or another pool, than those present have",
        Refusal::LevelOrder => "the level is not above those before it",
        Refusal::NamedAlready => "named already",
        Refusal::NotPresent => "not present",
        Refusal::WouldLose => "the change would take a grant away",
        Refusal::QueueFull => "the queue is full",
        Refusal::NoVector => "there is no interrupt vector",
        Refusal::OverQuota => "the job has as many requests as it may have",
        Refusal::TimedOut => "its time limit ended",
        Refusal::NoSuchQuota => "no such job, or the quota would be greater",
    }
}

/// Adds the id of a request: a decimal number with a point behind it, since sources mostly write ids in octal.
fn push_id(text: &mut String, id: u32) -> Result<(), AllocError>
    ensures { OnOk result (string_bytes text.new ≡ string_bytes text.old ++ id_words id) }
{
    write!(text, ", request {id}.")
}

/// Adds the time limit of a request, where it has one.
fn push_limit_asked(text: &mut String, limit: u32) -> Result<(), AllocError>
    ensures { OnOk result (string_bytes text.new ≡ string_bytes text.old ++ limit_asked_words limit) }
{
    if limit == 0 {
        return Ok(());
    }
    write!(text, ", limit {limit} ticks")
}

/// Adds the locks of these wants.
#[tactic(auto, using(std::proofs::Common::append_assoc))]
pub fn push_wants(text: &mut String, wants: &[Want]) -> Result<(), AllocError>
    ensures { OnOk result (string_bytes text.new ≡ string_bytes text.old ++ wants_words wants.now) }
{
    for want in wants {
        text.push_str(", ")?;
        push_lock(text, want)?;
    }
    Ok(())
}

/// Adds a lock, with the numbers of its owners and its waiters.
#[tactic(auto, using(std::proofs::Common::append_assoc))]
fn push_status(text: &mut String, machine: &Machine, job: u8, want: &Want) -> Result<(), AllocError>
    ensures { OnOk result
        (string_bytes text.new ≡ string_bytes text.old ++ status_words machine.now.world.requests job want.now) }
{
    let status = machine.status(&want.key, job);
    let (owners, waiters) = (status.owner_count, status.waiter_count);
    text.push_str(", ")?;
    push_lock(text, want)?;
    write!(text, " (owners {owners}, waiters {waiters})")
}

/// Adds the locks that a call names, and for ENQC. who has them and waits for them.
#[tactic(auto, using(std::proofs::Common::append_assoc))]
fn push_locks(
    text: &mut String,
    machine: &Machine,
    job: u8,
    service: LockService,
    wants: &[Want],
) -> Result<(), AllocError>
    ensures { OnOk result
        (string_bytes text.new ≡ string_bytes text.old ++ locks_words machine.now.world.requests job service wants.now) }
{
    match service {
        LockService::Enq | LockService::Deq => push_wants(text, wants),
        LockService::Enqc => {
            for want in wants {
                push_status(text, machine, job, want)?;
            }
            Ok(())
        }
    }
}

/// Whether a call asks for the locks of its block, by a request with an id.
fn asks_for_locks(service: LockService, function: u32) -> bool
    ensures { result ≡ asks_for_locks service function }
{
    match service {
        LockService::Enq => function <= 2,
        LockService::Deq | LockService::Enqc => false,
    }
}

/// Adds what a block names: `, request 7., limit 5 ticks, X/S, Y`.
#[tactic(auto, using(std::proofs::Common::append_assoc))]
fn push_block(
    text: &mut String,
    machine: &Machine,
    called: &Called,
    block: &Block,
) -> Result<(), AllocError>
    ensures { OnOk result
        (string_bytes text.new ≡ string_bytes text.old ++ block_words machine.now.world.requests called.now block.now) }
{
    let asked = called.asked;
    if asks_for_locks(asked.service, asked.word.left()) {
        push_id(text, block.id.number())?;
    }
    push_limit_asked(text, block.limit)?;
    push_locks(
        text,
        machine,
        called.job,
        asked.service,
        block.wants.as_slice(),
    )
}

/// Adds what a call without a block names: `, request 7.`, `, job 3` or `, to 5`.
fn push_named(
    text: &mut String,
    job: u8,
    service: LockService,
    function: u32,
    named: u32,
) -> Result<(), AllocError>
    ensures { OnOk result (string_bytes text.new ≡ string_bytes text.old ++ named_words job service function named) }
{
    match (service, function) {
        (LockService::Deq, 2) => push_id(text, named),
        (LockService::Enqc, 1) => {
            let of = if named == 0 { u32::from(job) } else { named };
            write!(text, ", job {of}")
        }
        (LockService::Enqc, 2) => write!(text, ", to {named}"),
        _ => Ok(()),
    }
}

/// Adds what a call names. Where its block is refused, no locks are named.
fn push_what(text: &mut String, machine: &Machine, called: &Called) -> Result<(), AllocError>
    ensures { OnOk result
        (string_bytes text.new ≡ string_bytes text.old ++ what_words machine.now.world.requests called.now called.now.block) }
{
    let asked = called.asked;
    match &called.block {
        Some(Ok(block)) => push_block(text, machine, called, block),
        _ => push_named(
            text,
            called.job,
            asked.service,
            asked.word.left(),
            asked.word.right(),
        ),
    }
}

/// Adds a code in decimal and, where that differs, in octal, as its accumulator is mostly shown.
fn push_code(text: &mut String, code: u8) -> Result<(), AllocError>
    ensures { OnOk result (string_bytes text.new ≡ string_bytes text.old ++ code_words code) }
{
    if code < 8 {
        write!(text, "{code}")
    } else {
        write!(text, "{code} ({code:o} octal)")
    }
}

/// Adds that a call is refused with a code that means this.
#[tactic(auto, using(std::proofs::Common::append_assoc))]
fn push_refused_with(text: &mut String, code: u8, meaning: &str) -> Result<(), AllocError>
    ensures { OnOk result (string_bytes text.new ≡ string_bytes text.old ++ refused_with code meaning.now) }
{
    text.push_str("refused, code ")?;
    push_code(text, code)?;
    write!(text, ": {meaning}")
}

/// Adds that a call is refused: the code, and what it means.
fn push_refused(text: &mut String, refusal: Refusal) -> Result<(), AllocError>
    ensures { OnOk result (string_bytes text.new ≡ string_bytes text.old ++ refused_words refusal) }
{
    push_refused_with(text, refusal.code(), meaning_of(refusal))
}

/// Whether a request that is refused at once stays in the queue, and an interrupt will tell of its grant.
pub fn stays(service: LockService, function: u32, refusal: Refusal) -> bool
    ensures { result ≡ stays service function refusal }
{
    match service {
        LockService::Enq => function == 2 && refusal.code() == 1,
        LockService::Deq | LockService::Enqc => false,
    }
}

/// Adds what a refused call was answered.
fn push_refusal(
    text: &mut String,
    service: LockService,
    function: u32,
    refusal: Refusal,
) -> Result<(), AllocError>
    ensures { OnOk result (string_bytes text.new ≡ string_bytes text.old ++ refusal_words service function refusal) }
{
    if stays(service, function, refusal) {
        text.push_str("queued, it will be told (code 1)")
    } else {
        push_refused(text, refusal)
    }
}

/// Adds a quota and a number of requests, as ENQC. 1 leaves them in its accumulator.
fn push_quota(text: &mut String, word: Word) -> Result<(), AllocError>
    ensures { OnOk result (string_bytes text.new ≡ string_bytes text.old ++ quota_words word) }
{
    let (quota, requests) = (word.left(), word.right());
    write!(text, "done, quota {quota}, requests {requests}")
}

/// Adds what a call was answered that is done.
fn push_done(
    text: &mut String,
    machine: &Machine,
    called: &Called,
    service: LockService,
) -> Result<(), AllocError>
    ensures { OnOk result (string_bytes text.new ≡ string_bytes text.old ++ done_words machine.now called.now service) }
{
    let asked = called.asked;
    match service {
        LockService::Enq | LockService::Deq => text.push_str("done"),
        LockService::Enqc => {
            if asked.word.left() != 1 {
                return text.push_str("done");
            }
            let word = machine.peek(called.job, u32::from(asked.ac));
            push_quota(text, word.unwrap_or(Word::new(0)))
        }
    }
}

/// Adds what a call was answered.
fn push_answer(text: &mut String, machine: &Machine, called: &Called) -> Result<(), AllocError>
    ensures { OnOk result (string_bytes text.new ≡ string_bytes text.old ++ answer_words machine.now called.now called.now.reply) }
{
    let asked = called.asked;
    match called.reply {
        LockReply::Granted => text.push_str("granted"),
        LockReply::Queued => text.push_str("queued, the job waits"),
        LockReply::Refused(refusal) => push_refusal(
            text,
            asked.service,
            asked.word.left(),
            refusal,
        ),
        LockReply::Done => push_done(text, machine, called, asked.service),
    }
}

/// Adds the line on a lock call that a job has made. `machine` is as the call left it.
#[tactic(auto, using(std::proofs::Common::append_assoc))]
fn push_call(
    text: &mut String,
    machine: &Machine,
    tick: u64,
    called: &Called,
) -> Result<(), AllocError>
    ensures { OnOk result (string_bytes text.new ≡ string_bytes text.old ++ called_words machine.now tick called.now) }
{
    let (job, asked) = (called.job, called.asked);
    let function = asked.word.left();
    let name = name_of(asked.service);
    let meaning = function_meaning(asked.service, function);
    write!(
        text,
        "tick {tick}, job {job}: {name} {function:o} ({meaning})"
    )?;
    push_what(text, machine, called)?;
    text.push_str(": ")?;
    push_answer(text, machine, called)?;
    text.push_str("\n")
}

/// Adds the line on a request that is granted.
#[tactic(auto, using(std::proofs::Common::append_assoc))]
fn push_grant(text: &mut String, tick: u64, request: &Request) -> Result<(), AllocError>
    ensures { OnOk result (string_bytes text.new ≡ string_bytes text.old ++ grant_words tick request.now) }
{
    let (job, id) = (request.job, request.id.number());
    write!(text, "tick {tick}, job {job}: granted request {id}.")?;
    push_wants(text, request.wants.as_slice())?;
    text.push_str("\n")
}

/// Adds the line on a job whose time limit ended, and with it this request.
fn push_limit(
    text: &mut String,
    tick: u64,
    job: u8,
    request: Option<RequestId>,
) -> Result<(), AllocError>
    ensures { OnOk result (string_bytes text.new ≡ string_bytes text.old ++ limit_words tick job request) }
{
    match request {
        Some(id) => {
            let id = id.number();
            write!(
                text,
                "tick {tick}, job {job}: time limit ended, request {id}., code 17 (21 octal)\n"
            )
        }
        None => write!(
            text,
            "tick {tick}, job {job}: time limit ended, code 17 (21 octal)\n"
        ),
    }
}

/// Adds the line on a fact of a tick, on the machine as the fact left it: a lock call with its answer, a grant, or a time
/// limit that ended. A circle has a line of its own, and the other facts have none.
fn push_fact(text: &mut String, machine: &Machine, tick: u64, fact: &Fact) -> Result<(), AllocError>
    ensures { OnOk result (string_bytes text.new ≡ string_bytes text.old ++ fact_text machine.now tick fact.now) }
{
    match fact {
        Fact::Called(called) => push_call(text, machine, tick, called),
        Fact::Granted(request) => push_grant(text, tick, request),
        Fact::LimitEnded(job, id) => push_limit(text, tick, *job, *id),
        _ => Ok(()),
    }
}

/// The lines on the facts of a tick, on the machine as they left it. `--locks` of `ten` writes these and no other line.
#[tactic(auto, using(std::proofs::Common::append_assoc))]
pub fn facts_text(
    alloc: Global,
    machine: &Machine,
    tick: u64,
    facts: &[Fact],
) -> Result<String, AllocError>
    ensures { IfOk result (λ text. string_bytes text ≡ facts_text machine.now tick facts.now) }
{
    let mut text = String::new(alloc);
    for fact in facts {
        push_fact(&mut text, machine, tick, fact)?;
    }
    Ok(text)
}

/// The lines on the grants among the facts of a tick, in order of arrival.
#[tactic(auto, using(std::proofs::Common::append_assoc))]
pub fn grant_lines(alloc: Global, tick: u64, facts: &[Fact]) -> Result<String, AllocError>
    ensures { IfOk result (λ text. string_bytes text ≡ grants_text tick facts.now) }
{
    let mut text = String::new(alloc);
    for fact in facts {
        if let Fact::Granted(request) = fact {
            push_grant(&mut text, tick, request)?;
        }
    }
    Ok(text)
}
