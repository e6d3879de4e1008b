//! Generated programs, and a plain walk over all sequences of their jobs, which keeps the requests in order of arrival.

use lock_queue::LockReply;
use lockcheck_orders::{ANSWERS, Desk, Looked, Programs, Report, WAITS, look};
use lockcheck_program::read_programs;
use state_search::Unwatched;
use std::alloc::{AllocError, Global};
use std::collections::BTreeSet;
use std::test::Fail;

/// What stands before a job's number in a line, and behind it.
static LINES: [(&str, &str); 16] = [
    ("ENQ", " 0 1 A"),
    ("ENQ", " 0 2 B/B"),
    ("ENQ", " 0 3 A/B"),
    ("ENQ", " 0 4 B/S/B"),
    ("ENQ", " 1 5 A/S/B"),
    ("ENQ", " 2 6 A B/B"),
    ("ENQ", " 3 0 A"),
    ("ENQ", " 3 0 B/S"),
    ("ENQ", " 0 7 C/G7/S/B"),
    ("ENQ", " 0 8 A/B C/S/B"),
    ("ENQ", " 0 9 D/P3:2/B"),
    ("DEQ", " 0 A"),
    ("DEQ", " 0 C"),
    ("DEQ", " 1"),
    ("DEQ", " 2 2"),
    ("FREE", ""),
];

/// A number that looks random behind another.
fn next_number(seed: u64) -> u64 {
    seed.wrapping_mul(6_364_136_223_846_793_005)
        .wrapping_add(1_442_695_040_888_963_407)
}

/// The number of each job in a line.
static JOBS: [&str; 3] = [" 1", " 2", " 3"];

/// A script of some jobs with so many calls each.
fn script_of(alloc: Global, seed: u64, jobs: usize, calls: usize) -> Result<String, AllocError> {
    let mut script = String::new(alloc);
    let mut number = seed;
    for job in JOBS.iter().take(jobs) {
        for _ in 0..calls {
            number = next_number(number);
            let (head, tail) = LINES[((number >> 33) % 16) as usize];
            for part in [head, *job, tail, "\n"] {
                script.push_str(part)?;
            }
        }
    }
    Ok(script)
}

/// What a walk saw: the shortest way to a circle and to jobs left waiting, and the answers.
#[derive(Drop)]
struct Saw {
    circle: Option<usize>,
    stuck: Option<usize>,
    answers: BTreeSet<usize>,
}

fn least(sofar: Option<usize>, new: usize) -> Option<usize> {
    match sofar {
        Some(old) if old <= new => Some(old),
        _ => Some(new),
    }
}

/// Whether some of three jobs wait in a circle.
fn has_circle(desk: &Desk) -> bool {
    for a in 1..4u8 {
        for b in 1..4u8 {
            let back = desk.waits_for(a, b) && desk.waits_for(b, a);
            if back {
                return true;
            }
        }
    }
    let forth = desk.waits_for(1, 2) && desk.waits_for(2, 3) && desk.waits_for(3, 1);
    let round = desk.waits_for(1, 3) && desk.waits_for(3, 2) && desk.waits_for(2, 1);
    forth || round
}

fn answer_number(reply: LockReply) -> usize {
    match reply {
        LockReply::Granted | LockReply::Done => 0,
        LockReply::Queued => WAITS,
        LockReply::Refused(refusal) => refusal.code() as usize,
    }
}

/// Whether no job can make a call, though one waits. Each has so many calls.
fn is_stuck(desk: &Desk, programs: &Programs, made: &[u32]) -> bool {
    let mut is_one_waiting = false;
    for (k, job) in programs.jobs().iter().enumerate() {
        if desk.is_waiting(*job) {
            is_one_waiting = true;
        } else if programs
            .due(*job, made.get(k).copied().unwrap_or(0))
            .is_some()
        {
            return false;
        }
    }
    is_one_waiting
}

/// Tries one sequence of jobs, as far as it is an order.
fn try_order(
    alloc: Global,
    desk: &mut Desk,
    programs: &Programs,
    order: &[usize],
    saw: &mut Saw,
) -> Result<(), AllocError> {
    desk.clear();
    let mut made = Vec::from_elem(alloc, 0u32, programs.jobs().len())?;
    for (length, by) in order.iter().enumerate() {
        let Some(job) = programs.jobs().get(*by) else {
            return Ok(());
        };
        let Some(count) = made.get_mut(*by) else {
            return Ok(());
        };
        let Some(i) = programs.due(*job, *count) else {
            return Ok(());
        };
        if desk.is_waiting(*job) {
            return Ok(());
        }
        *count = count.saturating_add(1);
        let line = &programs.lines()[i];
        let reply = desk.perform(line.job, &line.step);
        let number = programs.number(i);
        let answer = answer_number(reply);
        saw.answers
            .insert((number * ANSWERS).saturating_add(answer))?;
        if has_circle(desk) {
            saw.circle = least(saw.circle, length.saturating_add(1));
        }
        if is_stuck(desk, programs, made.as_slice()) {
            saw.stuck = least(saw.stuck, length.saturating_add(1));
        }
    }
    Ok(())
}

/// Makes the next sequence of the same numbers, if there is one.
fn next_order(order: &mut [usize]) -> bool {
    let count = order.len();
    let mut pivot = count;
    for i in 1..count {
        if order[i - 1] < order[i] {
            pivot = i - 1;
        }
    }
    if pivot >= count {
        return false;
    }
    let mut other = count;
    for i in pivot..count {
        if order[i] > order[pivot] {
            other = i;
        }
    }
    if other >= count {
        return false;
    }
    order.swap(pivot, other);
    order[pivot + 1..].reverse();
    true
}

/// Walks over all sequences.
fn walk(alloc: Global, programs: &Programs, calls: usize) -> Result<Saw, AllocError> {
    let mut saw = Saw {
        circle: None,
        stuck: None,
        answers: BTreeSet::new(alloc),
    };
    let mut desk = Desk::new(alloc)?;
    let mut order = Vec::new(alloc);
    for by in 0..programs.jobs().len() {
        for _ in 0..calls {
            order.push(by)?;
        }
    }
    for _ in 0..40_000 {
        try_order(alloc, &mut desk, programs, order.as_slice(), &mut saw)?;
        if !next_order(order.as_mut_slice()) {
            return Ok(saw);
        }
    }
    Ok(saw)
}

fn report_of(alloc: Global, programs: &Programs) -> Result<Option<Report>, AllocError> {
    match look(alloc, programs, 100_000, true, &mut Unwatched)? {
        Looked::All(report) => Ok(Some(report)),
        Looked::GaveUp(_) => Ok(None),
    }
}

/// Whether a report says what a walk saw.
fn agrees(alloc: Global, seed: u64, jobs: usize, calls: usize) -> Result<bool, AllocError> {
    let script = script_of(alloc, seed, jobs, calls)?;
    let Ok(programs) = read_programs(alloc, script.as_str().as_bytes()) else {
        return Ok(false);
    };
    let saw = walk(alloc, &programs, calls)?;
    let Some(report) = report_of(alloc, &programs)? else {
        return Ok(false);
    };
    let circle = report.circle.as_ref().map(|v| v.moves.len());
    let stuck = report.stuck.as_ref().map(|v| v.moves.len());
    let Some(answers) = &report.answers else {
        return Ok(false);
    };
    Ok(circle == saw.circle && stuck == saw.stuck && *answers == saw.answers)
}

#[test]
fn two_jobs(rt: HostRuntime) -> Result<(), Fail> {
    for seed in 0..60 {
        assert!(rt; agrees(rt.alloc(), seed, 2, 4)?);
    }
    Ok(())
}

#[test]
fn three_jobs(rt: HostRuntime) -> Result<(), Fail> {
    for seed in 0..340 {
        assert!(rt; agrees(rt.alloc(), seed, 3, 2)?);
    }
    for seed in 0..49 {
        assert!(rt; agrees(rt.alloc(), seed, 3, 3)?);
    }
    assert!(rt; agrees(rt.alloc(), 100, 3, 4)?);
    Ok(())
}
