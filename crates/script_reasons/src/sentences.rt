//! Why the lock queue refuses a call, or lets it wait, in sentences.
ghost use Rattle.std.specs.Prelude.{◌≡◌, Some};
ghost use Rattle.std.specs.List.{flat_map};
ghost use Rattle.lock_reasons.specs.Causes.{as_cause};
ghost use Rattle.script_reasons.specs.Explanations.{as_explanation};
ghost use Rattle.script_reasons.specs.Sentences.{all_text, also_text, cause_text, explanation_text, level_text, meeting_text};
ghost use Rattle.script_reasons.specs.Sentences.{present_text, reason_text, refusal_text, share_text, terms_text, want_of, way_text, who_text};

use crate::explanations::Explanation;
use lock_bars::LockLabel;
use lock_queue::{Refusal, Want};
use lock_reasons::{Cause, Met, Present, Reason, Rule};
use std::fmt;

/// What a call is refused for before it is judged.
fn refusal_text(refusal: Refusal) -> &'static str
    ensures { result.now ≡ refusal_text refusal }
{
    match refusal {
        Refusal::NoFunction => "there is no such function: ENQ has 0 to 3, DEQ 0 to 2",
        Refusal::BadBlock => {
            "the block's head is not n,,2+3n, or it has a limit and the call does not wait, or the job has no such memory"
        }
        Refusal::BadCount => "a call names 1 to 16 locks",
        Refusal::BadPointer =>
            "a lock has neither a user code nor a byte pointer to a name that the job has",
        Refusal::BadName => "a name has 1 to 30 characters",
        Refusal::BadQualifier => "a name is one of all jobs (777777) or of the job's own (777776)",
        Refusal::BadPool => {
            "an amount is from 1 to the size of its pool, a pool is not shared, and only what is shared has a group"
        }
        Refusal::NotGranted
        | Refusal::Differs
        | Refusal::LevelOrder
        | Refusal::NamedAlready
        | Refusal::NotPresent
        | Refusal::WouldLose
        | Refusal::QueueFull
        | Refusal::NoVector
        | Refusal::OverQuota
        | Refusal::TimedOut
        | Refusal::NoSuchQuota => "the call is wrong in itself",
    }
}

/// How a want has its lock: so much of a pool, shared, or alone.
#[derive(Clone, Copy)]
struct ShareText<'a>(&'a Want);

impl fmt::Display for ShareText<'_> {
    ghost output = { λ s. Some (share_text s.0.now) };

    fn fmt<W: fmt::Write>(&self, f: &mut fmt::Formatter<W>) -> fmt::Result {
        if let Some(pool) = self.0.pool {
            let (amount, size) = (pool.amount(), pool.size());
            return write!(f, "{amount} of {size}");
        }
        let group = self.0.group.number();
        if !self.0.shared {
            f.write_str("exclusive")
        } else if group == 0 {
            f.write_str("shared")
        } else {
            write!(f, "shared in group {group}")
        }
    }
}

/// The level of a want, and the size of its pool.
#[derive(Clone, Copy)]
struct TermsText<'a>(&'a Want);

impl fmt::Display for TermsText<'_> {
    ghost output = { λ t. Some (terms_text t.0.now) };

    fn fmt<W: fmt::Write>(&self, f: &mut fmt::Formatter<W>) -> fmt::Result {
        let level = self.0.level.number();
        match self.0.pool {
            Some(pool) => {
                let size = pool.size();
                write!(f, "level {level} and a pool of {size}")
            }
            None => write!(f, "level {level} and no pool"),
        }
    }
}

/// Who wants the lock that is met.
#[derive(Clone, Copy)]
struct WhoText<'a>(&'a Met);

impl fmt::Display for WhoText<'_> {
    ghost output = { λ w. Some (who_text w.0.now) };

    fn fmt<W: fmt::Write>(&self, f: &mut fmt::Formatter<W>) -> fmt::Result {
        match self.0 {
            Met::Earlier(_) => f.write_str("the call names before it"),
            Met::InQueue(present) => {
                let (job, id) = (present.job, present.id.number());
                write!(f, "job {job} wants by request {id}")
            }
        }
    }
}

/// The level of a want, and its lock.
#[derive(Clone, Copy)]
struct LevelText<'a>(&'a Want);

impl fmt::Display for LevelText<'_> {
    ghost output = { λ l. Some (level_text l.0.now) };

    fn fmt<W: fmt::Write>(&self, f: &mut fmt::Formatter<W>) -> fmt::Result {
        let (level, lock) = (self.0.level.number(), LockLabel(&self.0.key));
        write!(f, "level {level} of {lock}")
    }
}

fn want_of(met: &Met) -> &Want
    ensures { result.now ≡ want_of met.now }
{
    match met {
        Met::Earlier(want) => want,
        Met::InQueue(present) => &present.want,
    }
}

/// Why a want is at fault that meets another one so.
#[derive(Clone, Copy)]
struct MeetingText<'a> {
    rule: Rule,
    want: &'a Want,
    other: &'a Want,
    who: WhoText<'a>,
}

impl fmt::Display for MeetingText<'_> {
    ghost output = { λ m. Some (meeting_text m.rule m.want.now m.other.now (who_text m.who.0.now)) };

    fn fmt<W: fmt::Write>(&self, f: &mut fmt::Formatter<W>) -> fmt::Result {
        let (lock, who) = (LockLabel(&self.want.key), self.who);
        match self.rule {
            Rule::Reaches => {
                let (low, high) = (LevelText(self.want), LevelText(self.other));
                write!(f, "{low} is not above {high}, which {who}")
            }
            Rule::Differs => {
                let (terms, others) = (TermsText(self.want), TermsText(self.other));
                write!(f, "{lock} has {terms} here, and {others} in what {who}")
            }
            Rule::Names => write!(f, "{lock}, which {who}, is named again"),
            Rule::Pools => write!(
                f,
                "{lock} can't be shared, for it is of a pool, which {who}"
            ),
        }
    }
}

/// Which request of which job wants a lock, and how.
#[derive(Clone, Copy)]
struct PresentText<'a>(&'a Present);

impl fmt::Display for PresentText<'_> {
    ghost output = { λ p. Some (present_text p.0.now) };

    fn fmt<W: fmt::Write>(&self, f: &mut fmt::Formatter<W>) -> fmt::Result {
        let (id, job) = (self.0.id.number(), self.0.job);
        let share = ShareText(&self.0.want);
        write!(f, "request {id} of job {job} ({share})")
    }
}

/// The same after another one.
#[derive(Clone, Copy)]
struct AlsoText<'a>(PresentText<'a>);

impl fmt::Display for AlsoText<'_> {
    ghost output = { λ a. Some (also_text a.0.0.now) };

    fn fmt<W: fmt::Write>(&self, f: &mut fmt::Formatter<W>) -> fmt::Result {
        let present = self.0;
        write!(f, ", {present}")
    }
}

/// The others in the way of a want.
#[derive(Clone, Copy)]
struct OthersText<'a>(&'a [Present]);

impl fmt::Display for OthersText<'_> {
    ghost output = { λ o. Some (flat_map also_text o.0.now) };

    fn fmt<W: fmt::Write>(&self, f: &mut fmt::Formatter<W>) -> fmt::Result {
        for present in self.0 {
            let present = AlsoText(PresentText(present));
            write!(f, "{present}")?;
        }
        Ok(())
    }
}

/// Those in the way of a want.
#[derive(Clone, Copy)]
struct AllText<'a>(&'a [Present]);

impl fmt::Display for AllText<'_> {
    ghost output = { λ a. Some (all_text a.0.now) };

    fn fmt<W: fmt::Write>(&self, f: &mut fmt::Formatter<W>) -> fmt::Result {
        let Some((first, more)) = self.0.split_first() else {
            return Ok(());
        };
        let (first, more) = (PresentText(first), OthersText(more));
        write!(f, ": {first}{more}")
    }
}

/// Which want does not fit, and who stands in its way.
#[derive(Clone, Copy)]
struct WayText<'a> {
    want: &'a Want,
    way: &'a [Present],
}

impl fmt::Display for WayText<'_> {
    ghost output = { λ w. Some (way_text w.want.now w.way.now) };

    fn fmt<W: fmt::Write>(&self, f: &mut fmt::Formatter<W>) -> fmt::Result {
        let (lock, all) = (LockLabel(&self.want.key), AllText(self.way));
        write!(f, "in the way of {lock}{all}")
    }
}

/// Why a job's call is refused.
#[derive(Clone, Copy)]
struct ReasonText<'a> {
    job: u8,
    reason: &'a Reason,
}

impl fmt::Display for ReasonText<'_> {
    ghost output = { λ r. Some (reason_text r.job r.reason.now) };

    fn fmt<W: fmt::Write>(&self, f: &mut fmt::Formatter<W>) -> fmt::Result {
        let job = self.job;
        match self.reason {
            Reason::Meets(rule, want, met) => {
                let meeting = MeetingText {
                    rule: *rule,
                    want,
                    other: want_of(met),
                    who: WhoText(met),
                };
                write!(f, "{meeting}")
            }
            Reason::NotPresent(want) => {
                let lock = LockLabel(&want.key);
                write!(f, "job {job} has no request for {lock}")
            }
            Reason::NoRequest => write!(f, "job {job} has no request"),
            Reason::NoRequestOf(id) => {
                let id = id.number();
                write!(f, "job {job} has no request {id}")
            }
            Reason::NoVector => write!(f, "job {job} has no interrupt vector"),
            Reason::OverQuota(quota) => {
                let quota = *quota;
                write!(f, "job {job} may have no more requests than {quota}")
            }
            Reason::QueueFull(size) => {
                let size = *size;
                write!(f, "the queue is full: it has {size} requests")
            }
            Reason::NotGranted(want) => {
                let way = WayText { want, way: &[] };
                write!(f, "{way}")
            }
            Reason::WouldLose(other, id) => {
                let (other, id) = (*other, id.number());
                write!(f, "job {other} would lose what it owns by request {id}")
            }
        }
    }
}

/// Why a job's call is refused, or waits.
#[derive(Clone, Copy)]
struct CauseText<'a> {
    job: u8,
    cause: &'a Cause,
}

impl fmt::Display for CauseText<'_> {
    ghost output = { λ c. Some (cause_text c.job (as_cause c.cause.now)) };

    fn fmt<W: fmt::Write>(&self, f: &mut fmt::Formatter<W>) -> fmt::Result {
        match self.cause {
            Cause::Refused(reason) => {
                let reason = ReasonText {
                    job: self.job,
                    reason,
                };
                write!(f, "{reason}")
            }
            Cause::InTheWay(want, way) => {
                let way = WayText {
                    want,
                    way: way.as_slice(),
                };
                write!(f, "{way}")
            }
        }
    }
}

impl fmt::Display for Explanation {
    ghost output = { λ e. Some (explanation_text (as_explanation e)) };

    fn fmt<W: fmt::Write>(&self, f: &mut fmt::Formatter<W>) -> fmt::Result {
        match self {
            Explanation::Busy(job) => {
                let job = *job;
                write!(f, "job {job} waits, and makes no call")
            }
            Explanation::Wrong(refusal) => f.write_str(refusal_text(*refusal)),
            Explanation::Judged(job, cause) => {
                let cause = CauseText { job: *job, cause };
                write!(f, "{cause}")
            }
        }
    }
}
