//! Runs up to the first stop.
ghost use Rattle.std.specs.Prelude.{◌≡◌, ◌&&◌, IfOk, None, OnOk, false, is_none, min, nat_le, not, replicate, string_bytes, true};
ghost use Rattle.run_notes.specs.FactWords.{grants_text};
ghost use Rattle.ddt_timeline.specs.Histories.{done, machine_of, one_step};
ghost use Rattle.ddt_timeline.specs.Stops.{stops_of};
ghost use Rattle.ddt_timeline.specs.Timelines.{ticks_in};
ghost use Rattle.ddt_timeline.specs.Views.{history};
ghost use Rattle.ddt_moves.specs.OtherEnds.{facts_behind, facts_of, is_grant};
ghost use Rattle.ddt_moves.specs.RunEnds.{IsCountedEnd, IsEnd, IsWatchEnd, stop_behind};
ghost use Rattle.ddt_moves.specs.RunStops.{cause_at};
ghost use Rattle.ddt_moves.specs.Visits.{counters};

use crate::lock_watch::LockWatch;
use crate::run_stops::{RunStops, StopCause};
use crate::stop_lists::StopList;
use ddt_timeline::{NoWatch, Run, Timeline};
use run_notes::grant_lines;
use std::alloc::AllocError;

/// Why a run ended.
#[derive(Clone, Copy)]
pub struct RunEnd {
    /// How many steps it made, each followed by a tick.
    pub made: u32,
    /// What ended it, if a stop did.
    pub cause: Option<StopCause>,
    /// Whether it made as many steps as it may.
    pub is_cut: bool,
}

impl RunEnd {
    /// The end of a run to some stops that could make `most` steps.
    fn of(stops: &RunStops, ran: Run, most: u32) -> Self
        ensures made { result.made ≡ ran.made }
        ensures cause { result.cause ≡ cause_at stops.now.causes.items ran.stop }
        ensures cut { result.is_cut ≡ ((is_none ran.stop && not ran.by_watch) && nat_le most ran.made) }
    {
        RunEnd {
            made: ran.made,
            cause: stops.cause(ran.stop),
            is_cut: ran.stop.is_none() && !ran.by_watch && ran.made >= most,
        }
    }

    /// The end of a run that makes no step.
    pub fn at_once(cause: Option<StopCause>) -> Self
        ensures made { result.made ≡ 0 }
        ensures cause { result.cause ≡ cause }
        ensures cut { result.is_cut ≡ false }
    {
        RunEnd {
            made: 0,
            cause,
            is_cut: false,
        }
    }
}

/// Makes steps until a stop holds, no job can go on, or `most` are made, and says which stop held: of several the first. Where a
/// grant ends the run, the lines on it replace `grants`.
pub fn run_to(
    timeline: &mut Timeline,
    stops: &mut RunStops,
    list: &StopList,
    most: u32,
    grants: &mut String,
) -> Result<RunEnd, AllocError>
    ensures happened { IfOk result (λ end. history timeline.new ≡ done (history timeline.old) (replicate end.made one_step)) }
    ensures end { IfOk result (λ end. IsEnd (machine_of (history timeline.old)) stops.old list.now most end) }
    ensures counted { IfOk result (λ end.
        IsCountedEnd (machine_of (history timeline.old)) (counters (history timeline.old) list.now) stops.old list.now end) }
    ensures lines { IfOk result (λ end. is_grant end.cause ≡ true
        → stop_behind stops.old.stops.items (machine_of (history timeline.old)) end.made ≡ None
        → string_bytes grants.new
        ≡ grants_text (min u64.MAX (ticks_in (history timeline.new).past)) (facts_behind (machine_of (history timeline.old)) end.made)) }
    ensures stops { stops_of stops.new.stops.items ≡ stops_of stops.old.stops.items }
    ensures causes { stops.new.causes ≡ stops.old.causes }
{
    if list.needs_watch() {
        return run_watched(timeline, stops, list, most, grants);
    }
    let ran = timeline.run(
        stops.stops.as_mut_slice(),
        stops.addresses.as_slice(),
        most,
        &mut NoWatch,
    )?;
    Ok(RunEnd::of(stops, ran, most))
}

/// Makes steps as `run_to` does, and stops at breakpoints that count, where a circle of waits closes, at grants, and before calls
/// on a lock.
fn run_watched(
    timeline: &mut Timeline,
    stops: &mut RunStops,
    list: &StopList,
    most: u32,
    grants: &mut String,
) -> Result<RunEnd, AllocError>
    ensures happened { IfOk result (λ end. history timeline.new ≡ done (history timeline.old) (replicate end.made one_step)) }
    ensures end { IfOk result (λ end. IsEnd (machine_of (history timeline.old)) stops.old list.now most end) }
    ensures counted { IfOk result (λ end.
        IsCountedEnd (machine_of (history timeline.old)) (counters (history timeline.old) list.now) stops.old list.now end) }
    ensures lines { IfOk result (λ end. is_grant end.cause ≡ true
        → stop_behind stops.old.stops.items (machine_of (history timeline.old)) end.made ≡ None
        → string_bytes grants.new
        ≡ grants_text (min u64.MAX (ticks_in (history timeline.new).past)) (facts_behind (machine_of (history timeline.old)) end.made)) }
    ensures stops { stops_of stops.new.stops.items ≡ stops_of stops.old.stops.items }
    ensures causes { stops.new.causes ≡ stops.old.causes }
{
    let mut watch = LockWatch::new(timeline, list)?;
    let ran = timeline.run(
        stops.stops.as_mut_slice(),
        stops.addresses.as_slice(),
        most,
        &mut watch,
    )?;
    if ran.by_watch {
        ended_by(timeline, &watch, ran.made, grants)
    } else {
        Ok(RunEnd::of(stops, ran, most))
    }
}

/// The end of a run of so many steps that its watch ended; the lines on what was granted replace `grants`.
fn ended_by(
    timeline: &Timeline,
    watch: &LockWatch<'_>,
    made: u32,
    grants: &mut String,
) -> Result<RunEnd, AllocError>
    ensures end { IfOk result (λ end. IsWatchEnd watch.now made end) }
    ensures lines { OnOk result (string_bytes grants.new
        ≡ grants_text (min u64.MAX (ticks_in (history timeline.now).past)) (facts_of watch.now)) }
{
    // A watch makes a round before it ends a run.
    if watch.has_failed || made == 0 {
        return Err(AllocError);
    }
    *grants = grant_lines(timeline.alloc(), timeline.ticks(), watch.facts.as_slice())?;
    Ok(RunEnd {
        made,
        cause: watch.cause,
        is_cut: false,
    })
}
