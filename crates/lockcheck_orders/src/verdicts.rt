//! What holds of all orders.
ghost use Rattle.std.specs.Prelude.{◌≡◌, ℕ, ◌↔◌, IfOk, IsTrue, length};
ghost use Rattle.std.specs.BTreeSet as bag;
ghost use Rattle.std.specs.Ordering.{nat_cmp};
ghost use Rattle.lockcheck_orders.specs.Circles.{circle_jobs, has_circle};
ghost use Rattle.lockcheck_orders.specs.Stuck.{is_stuck, waiting_jobs};
ghost use Rattle.lockcheck_orders.specs.Tables.{HasEvery};
ghost use Rattle.lockcheck_orders.specs.Verdicts.{AreAnswers, IsFollowed, IsGiven, IsLooked, IsReport, IsVerdict};

use crate::answers::Answers;
use crate::circles::{Circle, circle_jobs};
use crate::desk::Desk;
use crate::kept::KeptState;
use crate::orders::{Orders, set_state_out};
use crate::programs::Programs;
use crate::stuck::{Stuck, waiting_jobs};
use state_search::{Kept, Outcome, Watch, all_labels, find_witness, search};
use std::alloc::{AllocError, Global};
use std::collections::BTreeSet;

/// A shortest order that leads to a state that was looked for, and the jobs that this is about.
#[derive(Drop)]
pub struct Verdict {
    /// For each call in turn, the position of its job among the jobs.
    pub moves: Vec<usize>,
    /// The jobs, rising.
    pub jobs: Vec<u8>,
}

/// A shortest order that leads to a circle of waits, with its members, if one does.
pub fn find_circle(
    alloc: Global,
    orders: &Orders<'_>,
    kept: &Kept<KeptState>,
) -> Result<Option<Verdict>, AllocError>
    requires { HasEvery orders.now.programs.now orders.now.tables kept.now.states.keys kept.now.origins.items }
    ensures { IfOk result (IsVerdict orders.now.programs.now (has_circle orders.now.programs.now) (circle_jobs orders.now.programs.now)) }
{
    let found = find_witness(alloc, orders, kept, &Circle)?;
    let Some(witness) = found else {
        return Ok(None);
    };
    let mut desk = Desk::new(alloc)?;
    set_state_out(
        orders.programs,
        &orders.tables,
        &mut desk,
        *kept.state(witness.position),
    );
    let jobs = circle_jobs(alloc, orders.programs, &desk)?;
    Ok(Some(Verdict {
        moves: witness.moves,
        jobs,
    }))
}

/// A shortest order after which no job can make a call though some wait, with those that wait, if there
/// is one.
pub fn find_stuck(
    alloc: Global,
    orders: &Orders<'_>,
    kept: &Kept<KeptState>,
) -> Result<Option<Verdict>, AllocError>
    requires { HasEvery orders.now.programs.now orders.now.tables kept.now.states.keys kept.now.origins.items }
    ensures { IfOk result (IsVerdict orders.now.programs.now (is_stuck orders.now.programs.now) (waiting_jobs orders.now.programs.now)) }
{
    let found = find_witness(alloc, orders, kept, &Stuck)?;
    let Some(witness) = found else {
        return Ok(None);
    };
    let mut desk = Desk::new(alloc)?;
    set_state_out(
        orders.programs,
        &orders.tables,
        &mut desk,
        *kept.state(witness.position),
    );
    let jobs = waiting_jobs(alloc, &desk, orders.programs.jobs())?;
    Ok(Some(Verdict {
        moves: witness.moves,
        jobs,
    }))
}

/// The answers that some order gives. Each is the number of a line, times `ANSWERS`, plus the number of
/// its answer.
pub fn all_answers(
    alloc: Global,
    orders: &Orders<'_>,
    kept: &Kept<KeptState>,
) -> Result<BTreeSet<usize>, AllocError>
    requires { HasEvery orders.now.programs.now orders.now.tables kept.now.states.keys kept.now.origins.items }
    ensures { IfOk result (λ all. (a : ℕ) → (IsTrue (bag.contains nat_cmp all a) ↔ IsGiven orders.now.programs.now a)) }
{
    let all = all_labels(alloc, orders, kept, &Answers)?;
    Ok(all)
}

/// The answers, if they are asked for.
fn answers_if(
    alloc: Global,
    orders: &Orders<'_>,
    kept: &Kept<KeptState>,
    wanted: bool,
) -> Result<Option<BTreeSet<usize>>, AllocError>
    requires { HasEvery orders.now.programs.now orders.now.tables kept.now.states.keys kept.now.origins.items }
    ensures { IfOk result (AreAnswers orders.now.programs.now wanted) }
{
    if !wanted {
        return Ok(None);
    }
    let all = all_answers(alloc, orders, kept)?;
    Ok(Some(all))
}

/// The findings, if every state was looked at.
#[derive(Drop)]
pub struct Report {
    /// How many normal forms the states have.
    pub states: usize,
    /// A shortest order that leads to a circle of waits.
    pub circle: Option<Verdict>,
    /// A shortest order that leaves jobs waiting.
    pub stuck: Option<Verdict>,
    /// The answers that some order gives, if these were asked for: each is the number of a line, times
    /// `ANSWERS`, plus the number of its answer.
    pub answers: Option<BTreeSet<usize>>,
}

/// The result of a look at all orders.
#[derive(Drop)]
pub enum Looked {
    /// Every state was looked at.
    All(Report),
    /// There are more states than this many; nothing is reported of them.
    GaveUp(usize),
}

/// Reports on all orders, from all their states.
fn report_on(
    alloc: Global,
    orders: &Orders<'_>,
    kept: &Kept<KeptState>,
    with_answers: bool,
) -> Result<Report, AllocError>
    requires { HasEvery orders.now.programs.now orders.now.tables kept.now.states.keys kept.now.origins.items }
    ensures report { IfOk result (IsReport orders.now.programs.now with_answers) }
    ensures states { IfOk result (λ r. r.states ≡ length kept.now.states.keys) }
{
    let circle = find_circle(alloc, orders, kept)?;
    let stuck = find_stuck(alloc, orders, kept)?;
    let answers = answers_if(alloc, orders, kept, with_answers)?;
    Ok(Report {
        states: kept.len(),
        circle,
        stuck,
        answers,
    })
}

/// Looks at every state that some order leads to, or gives up where there are more than `most`. It gives the answers where
/// they are asked for. `watch` is shown how far the search is.
pub fn look<W: Watch>(
    alloc: Global,
    programs: &Programs,
    most: usize,
    with_answers: bool,
    watch: &mut W,
) -> Result<Looked, AllocError>
    ensures looked { IfOk result (IsLooked programs.now most with_answers) }
    ensures followed { IfOk result (IsFollowed programs.now W.Looks watch.old watch.new) }
{
    let mut orders = Orders::new(alloc, programs);
    let outcome = search(alloc, &mut orders, most, watch)?;
    match outcome {
        Outcome::GaveUp(states) => Ok(Looked::GaveUp(states)),
        Outcome::All(kept) => {
            let report = report_on(alloc, &orders, &kept, with_answers)?;
            Ok(Looked::All(report))
        }
    }
}
