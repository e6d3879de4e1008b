//! What a search of every order finds, in words.
ghost use Rattle.std.specs.Prelude.{◌≡◌, ◌++◌, ◌∷◌, [], IfOk, IfSome, MatchOption, None, OnOk, Some, length, map};
ghost use Rattle.std.specs.List.{All};
ghost use Rattle.job_orders.specs.Reports.{IsLooked};
ghost use Rattle.orders_program.specs.Begun.{start_of};
ghost use Rattle.orders_program.specs.Followed.{HasOrder, HasOrderTo};
ghost use Rattle.orders_program.specs.Scripts.{moves_recorded};
ghost use Rattle.orders_program.specs.Telling.{IsTold, IsToldGiveUp, IsToldReason, circle_jobs, facts_of, facts_told, waiting_jobs};

use crate::ends::end_of;
use crate::following::follow;
use crate::loading::{LoadError, Work, begun};
use crate::options::Options;
use crate::spots::spot_in;
use job_orders::{End as FoundEnd, GivenUp, Looked, Reason, Waiting, look};
use order_report::{Circle, End, Found, GiveUp, Obstacle, Report};
use state_search::Watch;
use std::alloc::{AllocError, Global};

/// The report on a search that cannot go on from a state to which these moves lead, because of what a job does there.
fn obstacle_at(
    alloc: Global,
    work: &Work<'_>,
    turns: u32,
    moves: &[usize],
    job: u8,
    obstacle: Obstacle,
) -> Result<Found, LoadError>
    requires { HasOrder turns (start_of work.now) moves.now }
    ensures { IfOk result (IsToldGiveUp job obstacle) }
{
    let followed = follow(alloc, work, turns, moves)?;
    let spot = spot_in(work.programs, job, followed.place_of(job));
    let place = format!(in alloc; "{spot}")?;
    Ok(Found::GaveUp(GiveUp {
        job,
        obstacle,
        place,
        order: followed.parts,
    }))
}

/// The report on a search that gave up.
fn gave_up(
    alloc: Global,
    work: &Work<'_>,
    turns: u32,
    given_up: &GivenUp,
) -> Result<Found, LoadError>
    requires { HasOrderTo turns (start_of work.now) given_up.now.reason given_up.now.moves.items }
    ensures { IfOk result (IsToldReason given_up.now.reason) }
{
    let moves = given_up.moves.as_slice();
    match given_up.reason {
        Reason::States(states) => Ok(Found::TooMany(states as u64)),
        Reason::Typed(line) => {
            let job = line.saturating_add(1);
            obstacle_at(alloc, work, turns, &[], job, Obstacle::Characters)
        }
        Reason::Limit(job) => obstacle_at(alloc, work, turns, moves, job, Obstacle::TimeLimit),
        Reason::Clock(job) => obstacle_at(alloc, work, turns, moves, job, Obstacle::TimeOfDay),
        Reason::Turns(job) => obstacle_at(alloc, work, turns, moves, job, Obstacle::Computes),
    }
}

/// The circle, if there is one.
fn circle_of(
    alloc: Global,
    work: &Work<'_>,
    turns: u32,
    circle: &Option<Waiting>,
) -> Result<Option<Circle>, LoadError>
    requires { IfSome circle.now (λ c. HasOrder turns (start_of work.now) c.moves.items) }
    ensures { IfOk result (λ told. circle_jobs told ≡ waiting_jobs circle.now) }
{
    let Some(found) = circle else {
        return Ok(None);
    };
    let jobs = found.jobs.as_slice().to_vec(alloc)?;
    let followed = follow(alloc, work, turns, found.moves.as_slice())?;
    let order = followed.parts;
    Ok(Some(Circle { jobs, order }))
}

/// Adds an end in words.
fn push_end(ends: &mut Vec<End>, end: End) -> Result<(), AllocError>
    ensures { OnOk result (ends.new.items ≡ ends.old.items ++ end ∷ []) }
{
    ends.push(end)?;
    Ok(())
}

/// The ends.
fn ends_of(
    alloc: Global,
    work: &Work<'_>,
    turns: u32,
    found: &[FoundEnd],
) -> Result<Vec<End>, LoadError>
    requires { All (λ e. HasOrder turns (start_of work.now) e.moves.items) found.now }
    ensures { IfOk result (λ ends. map facts_told ends.items ≡ map facts_of found.now) }
{
    let mut ends = Vec::new(alloc);
    for end in found {
        let followed = follow(alloc, work, turns, end.moves.as_slice())?;
        push_end(&mut ends, end_of(alloc, work, end, followed)?)?;
    }
    Ok(ends)
}

/// The report on a search.
pub fn told(
    alloc: Global,
    work: &Work<'_>,
    options: &Options<'_>,
    looked: &Looked,
) -> Result<Found, LoadError>
    requires { IsLooked options.now.turns options.now.states (start_of work.now) looked.now }
    ensures { IfOk result (IsTold (length work.now.programs.now) looked.now) }
{
    match looked {
        Looked::GaveUp(given_up) => gave_up(alloc, work, options.turns, given_up),
        Looked::All(report) => {
            let circle = circle_of(alloc, work, options.turns, &report.circle)?;
            let ends = ends_of(alloc, work, options.turns, report.ends.as_slice())?;
            Ok(Found::All(Report {
                jobs: work.programs.len() as u64,
                states: report.states as u64,
                circle,
                ends,
            }))
        }
    }
}

/// Looks at every order of some programs.
pub fn look_at<T: Watch>(
    alloc: Global,
    work: &Work<'_>,
    options: &Options<'_>,
    watch: &mut T,
) -> Result<Looked, LoadError>
    ensures { IfOk result (IsLooked options.now.turns options.now.states (start_of work.now)) }
{
    let system = begun(alloc, work)?;
    let blocks = work.config.blocks();
    let looked = look(alloc, system, blocks, options.turns, options.states, watch)?;
    Ok(looked)
}

/// The moves of the order that is recorded: to the end that is asked for, if there is such an end; else, if none is asked for, to
/// the circle, or to the first end, or to the state at which the search gave up.
pub fn moves_recorded(looked: &Looked, end: Option<usize>) -> Option<&[usize]>
    ensures { MatchOption result (moves_recorded looked.now end ≡ None) (λ moves. moves_recorded looked.now end ≡ Some moves.now) }
{
    match looked {
        Looked::GaveUp(given_up) => match (end, given_up.reason) {
            (Some(_), _) | (_, Reason::States(_) | Reason::Typed(_)) => None,
            _ => Some(given_up.moves.as_slice()),
        },
        Looked::All(report) => match (end, &report.circle) {
            (None, Some(circle)) => Some(circle.moves.as_slice()),
            _ => {
                let number = end.unwrap_or(1);
                let found = report.ends.as_slice().get(number.wrapping_sub(1))?;
                Some(found.moves.as_slice())
            }
        },
    }
}
