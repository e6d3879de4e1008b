//! Which want of a call is at fault, and what it meets.
ghost use Rattle.std.specs.Prelude.{◌≡◌, ◌∷◌, []};
ghost use Rattle.lock_queue.specs.Queue.{names, requests_of, wants_of};
ghost use Rattle.lock_reasons.specs.Reasons.{by_earlier, by_present, change_fault, fault, first_fault, level_fault};
ghost use Rattle.lock_reasons.specs.Reasons.{release_fault, request_fault};

use crate::meetings::{Present, Rule, first_met};
use crate::reasons::{Met, Reason};
use lock_queue::steps::names_key;
use lock_queue::{Key, Request, Want};

/// What each want of a call is checked for.
#[derive(Clone, Copy)]
pub enum Check {
    /// What one in the queue, or before it, has against a want that is asked for.
    Request,
    /// The rule of rising levels.
    Levels,
    /// What is against a want that is given up.
    Release,
    /// What is against a want that is made shared or exclusive.
    Change,
}

/// The earlier want of the call that a want meets so.
fn by_earlier(earlier: &[Want], rule: Rule, w: &Want) -> Option<Reason>
    ensures { result ≡ by_earlier rule w.now earlier.now }
{
    match first_met(earlier, rule, w) {
        Some(v) => Some(Reason::Meets(rule, w.copied(), Met::Earlier(v))),
        None => None,
    }
}

/// The first want of a request that a want meets so.
fn by_request(r: &Request, rule: Rule, w: &Want) -> Option<Reason>
    ensures { result ≡ by_present rule w.now (r.now ∷ []) }
{
    match first_met(r.wants.as_slice(), rule, w) {
        Some(want) => {
            let present = Present {
                job: r.job,
                id: r.id,
                want,
            };
            Some(Reason::Meets(rule, w.copied(), Met::InQueue(present)))
        }
        None => None,
    }
}

/// The first want in the queue that a want meets so.
fn by_present(requests: &[Request], rule: Rule, w: &Want) -> Option<Reason>
    ensures { result ≡ by_present rule w.now requests.now }
{
    for r in requests {
        if let Some(reason) = by_request(r, rule, w) {
            return Some(reason);
        }
    }
    None
}

/// The first want of the job in the queue that a want meets so.
fn by_own(requests: &[Request], job: u8, rule: Rule, w: &Want) -> Option<Reason>
    ensures { result ≡ by_present rule w.now (requests_of requests.now job) }
{
    for r in requests {
        if r.job == job
            && let Some(reason) = by_request(r, rule, w)
        {
            return Some(reason);
        }
    }
    None
}

fn request_fault(requests: &[Request], job: u8, earlier: &[Want], w: &Want) -> Option<Reason>
    ensures { result ≡ request_fault requests.now job earlier.now w.now }
{
    match by_present(requests, Rule::Differs, w) {
        None => match by_earlier(earlier, Rule::Names, w) {
            None => by_own(requests, job, Rule::Names, w),
            found => found,
        },
        found => found,
    }
}

fn level_fault(requests: &[Request], job: u8, earlier: &[Want], w: &Want) -> Option<Reason>
    ensures { result ≡ level_fault requests.now job earlier.now w.now }
{
    if w.bypass {
        return None;
    }
    match by_own(requests, job, Rule::Reaches, w) {
        None => by_earlier(earlier, Rule::Reaches, w),
        found => found,
    }
}

/// Whether the job has a want of a key.
fn has_want(requests: &[Request], job: u8, key: &Key) -> bool
    ensures { result ≡ names (wants_of requests.now job) key.now }
{
    for r in requests {
        if r.job == job && names_key(r.wants.as_slice(), key) {
            return true;
        }
    }
    false
}

fn release_fault(requests: &[Request], job: u8, earlier: &[Want], w: &Want) -> Option<Reason>
    ensures { result ≡ release_fault requests.now job earlier.now w.now }
{
    match by_earlier(earlier, Rule::Names, w) {
        None if has_want(requests, job, &w.key) => None,
        None => Some(Reason::NotPresent(w.copied())),
        found => found,
    }
}

fn change_fault(requests: &[Request], job: u8, earlier: &[Want], w: &Want) -> Option<Reason>
    ensures { result ≡ change_fault requests.now job earlier.now w.now }
{
    match release_fault(requests, job, earlier, w) {
        None if w.shared => by_own(requests, job, Rule::Pools, w),
        found => found,
    }
}

fn fault(check: Check, requests: &[Request], job: u8, earlier: &[Want], w: &Want) -> Option<Reason>
    ensures { result ≡ fault check requests.now job earlier.now w.now }
{
    match check {
        Check::Request => request_fault(requests, job, earlier, w),
        Check::Levels => level_fault(requests, job, earlier, w),
        Check::Release => release_fault(requests, job, earlier, w),
        Check::Change => change_fault(requests, job, earlier, w),
    }
}

/// Why the first want at fault is so, each judged after the call's wants before it.
pub fn first_fault(check: Check, requests: &[Request], job: u8, wants: &[Want]) -> Option<Reason>
    ensures { result ≡ first_fault (fault check requests.now job) [] wants.now }
{
    for (i, w) in wants.iter().enumerate() {
        if let Some(reason) = fault(check, requests, job, &wants[..i], w) {
            return Some(reason);
        }
    }
    None
}
