//! How orders end, in words.
ghost use Rattle.std.specs.Prelude.{◌≡◌, IfOk, map};
ghost use Rattle.orders_program.specs.Telling.{data_from, facts_of, facts_told, standing_told, texts_from};

use crate::following::Following;
use crate::loading::{Work, name_at};
use crate::spots::spot_in;
use job_orders::{End as FoundEnd, Left, Machine, Standing as FoundStanding};
use lock_queue::Request;
use order_report::{DataWord, End, EndedJob, Typed};
use run_commands::push_text;
use run_facts::Standing;
use run_notes::standing_text_on;
use std::alloc::{AllocError, Global};
use wait_graph::requests_in;
use word36::Word;

/// How a job has ended.
fn standing_told(standing: FoundStanding) -> Standing
    ensures { result ≡ standing_told standing }
{
    match standing {
        FoundStanding::Gone => Standing::Gone,
        FoundStanding::Stopped(stop) => Standing::Stopped(stop),
        FoundStanding::Waits(wait) => Standing::Goes(wait),
    }
}

/// The text between how a job has ended and its address.
fn comma_for(standing: Standing) -> &'static str {
    match standing {
        Standing::Goes(_) => ",",
        Standing::Gone | Standing::Stopped(_) => "",
    }
}

/// How job n has ended at an end to which an order led: `job 1, FILE: HALT at LOOP+3`.
fn job_of(
    alloc: Global,
    requests: &[Request],
    work: &Work<'_>,
    n: u8,
    left: &Left,
) -> Result<EndedJob, AllocError>
    ensures { IfOk result (λ job. job.standing ≡ standing_told left.now.standing) }
{
    let standing = standing_told(left.standing);
    let words = standing_text_on(alloc, requests, n, standing)?;
    let (name, comma) = (
        name_at(work.names, usize::from(n).wrapping_sub(1)),
        comma_for(standing),
    );
    let spot = spot_in(work.programs, n, left.last);
    let line = format!(in alloc; "job {n}, {name}: {words}{comma} at {spot}")?;
    Ok(EndedJob { standing, line })
}

/// How all jobs have ended.
fn jobs_of(
    alloc: Global,
    machine: &Machine,
    work: &Work<'_>,
    all: &[Left],
) -> Result<Vec<EndedJob>, AllocError>
    ensures { IfOk result (λ jobs. map (λ j. j.standing) jobs.items ≡ map (λ l. standing_told l.standing) all.now) }
{
    let requests = requests_in(alloc, &machine.world.locks)?;
    let mut jobs = Vec::new(alloc);
    let mut n = 1u8;
    for left in all {
        jobs.push(job_of(alloc, requests.as_slice(), work, n, left)?)?;
        n = n.saturating_add(1);
    }
    Ok(jobs)
}

/// The words that all jobs share and that are not 0.
pub fn data_of(alloc: Global, shared: &[Word]) -> Result<Vec<DataWord>, AllocError>
    ensures { IfOk result (λ words. words.items ≡ data_from 0 shared.now) }
{
    let mut data = Vec::new(alloc);
    let mut number = 0u32;
    for word in shared {
        if word.number() != 0 {
            data.push(DataWord {
                number,
                word: *word,
            })?;
        }
        number = number.saturating_add(1);
    }
    Ok(data)
}

/// What the jobs typed out.
fn texts_of(alloc: Global, jobs: &[Left]) -> Result<Vec<Typed>, AllocError>
    ensures { IfOk result (λ texts. map (λ t. (t.line, t.text.items)) texts.items ≡ texts_from 0 jobs.now) }
{
    let mut texts = Vec::new(alloc);
    let mut line = 0u8;
    for left in jobs {
        if !left.text.is_empty() {
            let mut text = Vec::new(alloc);
            push_text(&mut text, left.text.as_slice())?;
            texts.push(Typed { line, text })?;
        }
        line = line.saturating_add(1);
    }
    Ok(texts)
}

/// An end to which an order led, in words.
pub fn end_of(
    alloc: Global,
    work: &Work<'_>,
    found: &FoundEnd,
    followed: Following<'_>,
) -> Result<End, AllocError>
    ensures { IfOk result (λ e. facts_told e ≡ facts_of found.now) }
{
    let jobs = jobs_of(alloc, &followed.machine, work, found.jobs.as_slice())?;
    let shared = data_of(alloc, found.shared.as_slice())?;
    let texts = texts_of(alloc, found.jobs.as_slice())?;
    Ok(End {
        calls: followed.calls,
        jobs,
        shared,
        texts,
        order: followed.parts,
    })
}
