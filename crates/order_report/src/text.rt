//! The text of a report.
ghost use Rattle.std.specs.Prelude.{◌≡◌, ◌<◌, ◌++◌, ◌+◌, IfOk, OnOk, codes, length, nat_lt, take};
ghost use Rattle.std.specs.List.{flat_map};
ghost use Rattle.order_report.specs.Texts.{all_ends_text, circle_text, counts_text, data_line, end_text, ends_head, ends_text, found_text, give_up_text, job_line, jobs_text, more_text, order_if, place_text, report_text, too_many_text, typed_line, what_text};

use crate::findings::{Circle, DataWord, End, EndedJob, Found, GiveUp, Report, Typed};
use crate::orders::{push_counted, push_order};
use script_io::{push_decimal, push_word};
use std::alloc::{AllocError, Global};

/// Adds how many jobs and states there are.
#[tactic(auto, using(std::proofs::Common::append_assoc))]
fn push_counts(out: &mut Vec<u8>, report: &Report) -> Result<(), AllocError>
    ensures { OnOk result (out.new.items ≡ out.old.items ++ counts_text report.now) }
{
    push_counted(out, report.jobs, b"job")?;
    out.extend_from_slice(b", ")?;
    push_counted(out, report.states, b"state")?;
    out.extend_from_slice(b", all looked at\n")
}

/// Adds jobs, each after a space.
#[tactic(auto, using(std::proofs::Common::append_assoc))]
fn push_jobs(out: &mut Vec<u8>, jobs: &[u8]) -> Result<(), AllocError>
    ensures { OnOk result (out.new.items ≡ out.old.items ++ jobs_text jobs.now) }
{
    for job in jobs {
        out.push(b' ')?;
        push_decimal(out, *job)?;
    }
    Ok(())
}

/// Adds the circle, and an order that leads there; or that there is none.
#[tactic(auto, using(std::proofs::Common::append_assoc))]
fn push_circle(out: &mut Vec<u8>, circle: &Option<Circle>) -> Result<(), AllocError>
    ensures { OnOk result (out.new.items ≡ out.old.items ++ circle_text circle.now) }
{
    match circle {
        None => out.extend_from_slice(b"NO CIRCLE\n"),
        Some(circle) => {
            out.extend_from_slice(b"CIRCLE")?;
            push_jobs(out, circle.jobs.as_slice())?;
            out.extend_from_slice(b"\n")?;
            push_order(out, circle.order.as_slice())
        }
    }
}

/// Adds the lines on the jobs at an end.
#[tactic(auto, using(std::proofs::Common::append_assoc))]
fn push_job_lines(out: &mut Vec<u8>, jobs: &[EndedJob]) -> Result<(), AllocError>
    ensures { OnOk result (out.new.items ≡ out.old.items ++ flat_map job_line jobs.now) }
{
    for job in jobs {
        out.extend_from_slice(job.line.as_str().as_bytes())?;
        out.extend_from_slice(b"\n")?;
    }
    Ok(())
}

/// Adds the line on a word that all jobs share.
#[tactic(auto, using(std::proofs::Common::append_assoc))]
fn push_data_line(out: &mut Vec<u8>, word: DataWord) -> Result<(), AllocError>
    ensures { OnOk result (out.new.items ≡ out.old.items ++ data_line word) }
{
    out.extend_from_slice(b"DATA ")?;
    push_decimal(out, word.number)?;
    out.extend_from_slice(b" ")?;
    push_word(out, word.word)?;
    out.extend_from_slice(b"\n")
}

/// Adds the lines on words that all jobs share.
fn push_data(out: &mut Vec<u8>, words: &[DataWord]) -> Result<(), AllocError>
    ensures { OnOk result (out.new.items ≡ out.old.items ++ flat_map data_line words.now) }
{
    for word in words {
        push_data_line(out, *word)?;
    }
    Ok(())
}

/// Adds the line on what a job typed out.
#[tactic(auto, using(std::proofs::Common::append_assoc))]
fn push_typed_line(out: &mut Vec<u8>, typed: &Typed) -> Result<(), AllocError>
    ensures { OnOk result (out.new.items ≡ out.old.items ++ typed_line typed.now) }
{
    out.extend_from_slice(b"TEXT ")?;
    push_decimal(out, typed.line)?;
    out.extend_from_slice(b" ")?;
    out.extend_from_slice(typed.text.as_slice())?;
    out.extend_from_slice(b"\n")
}

/// Adds the lines on what jobs typed out.
fn push_texts(out: &mut Vec<u8>, texts: &[Typed]) -> Result<(), AllocError>
    ensures { OnOk result (out.new.items ≡ out.old.items ++ flat_map typed_line texts.now) }
{
    for typed in texts {
        push_typed_line(out, typed)?;
    }
    Ok(())
}

/// Adds the order of an end, if it is wanted.

fn push_order_if(out: &mut Vec<u8>, with_order: bool, end: &End) -> Result<(), AllocError>
    ensures { OnOk result (out.new.items ≡ out.old.items ++ order_if with_order end.now.order.items) }
{
    if with_order {
        push_order(out, end.order.as_slice())
    } else {
        Ok(())
    }
}

/// Adds the lines on an end.
#[tactic(auto, using(std::proofs::Common::append_assoc))]
fn push_end(out: &mut Vec<u8>, number: u64, with_order: bool, end: &End) -> Result<(), AllocError>
    ensures { OnOk result (out.new.items ≡ out.old.items ++ end_text number with_order end.now) }
{
    out.extend_from_slice(b"END ")?;
    push_decimal(out, number)?;
    out.extend_from_slice(b", ")?;
    push_counted(out, end.calls, b"call")?;
    out.extend_from_slice(b"\n")?;
    push_job_lines(out, end.jobs.as_slice())?;
    push_data(out, end.shared.as_slice())?;
    push_texts(out, end.texts.as_slice())?;
    push_order_if(out, with_order, end)
}

/// Adds ends, which are numbered from 1 on.
fn push_ends(out: &mut Vec<u8>, with_order: bool, ends: &[End]) -> Result<(), AllocError>
    ensures { OnOk result (out.new.items ≡ out.old.items ++ ends_text 1 with_order ends.now) }
{
    for (position, end) in ends.iter().enumerate() {
        push_end(out, position as u64 + 1, with_order, end)?;
    }
    Ok(())
}

/// Adds how many ends are left out, if some are.
#[tactic(auto, using(std::proofs::Common::append_assoc))]
fn push_more(out: &mut Vec<u8>, count: usize, most: usize) -> Result<(), AllocError>
    ensures { OnOk result (out.new.items ≡ out.old.items ++ more_text count most) }
{
    if count <= most {
        return Ok(());
    }
    out.extend_from_slice(b"AND ")?;
    push_decimal(out, count - most)?;
    out.extend_from_slice(b" MORE\n")
}

/// Adds how many ends there are.
#[tactic(auto, using(std::proofs::Common::append_assoc))]
fn push_head(out: &mut Vec<u8>, count: usize) -> Result<(), AllocError>
    ensures { OnOk result (out.new.items ≡ out.old.items ++ ends_head count) }
{
    push_decimal(out, count)?;
    out.extend_from_slice(if count == 1 { b" END\n" } else { b" ENDS\n" })
}

/// Adds the first `most` ends, each with its order where there are two or more.
#[tactic(auto, using(std::proofs::Common::append_assoc))]
fn push_all_ends(out: &mut Vec<u8>, ends: &[End], most: usize) -> Result<(), AllocError>
    ensures { OnOk result (out.new.items ≡ out.old.items ++ all_ends_text most ends.now) }
{
    push_head(out, ends.len())?;
    push_ends(out, ends.len() > 1, &ends[..ends.len().min(most)])?;
    push_more(out, ends.len(), most)
}

/// Adds a report, with `most` ends at most.
#[tactic(auto, using(std::proofs::Common::append_assoc))]
fn push_report(out: &mut Vec<u8>, report: &Report, most: usize) -> Result<(), AllocError>
    ensures { OnOk result (out.new.items ≡ out.old.items ++ report_text most report.now) }
{
    push_counts(out, report)?;
    push_circle(out, &report.circle)?;
    push_all_ends(out, report.ends.as_slice(), most)
}

/// Adds that the search gave up, as there are too many states.
fn push_too_many(out: &mut Vec<u8>, states: u64) -> Result<(), AllocError>
    ensures { OnOk result (out.new.items ≡ out.old.items ++ too_many_text states) }
{
    out.extend_from_slice(b"GAVE UP after ")?;
    push_counted(out, states, b"state")?;
    out.extend_from_slice(b"\n")?;
    Ok(())
}

/// Adds which job the search gave up at, and what it does.
#[tactic(auto, using(std::proofs::Common::append_assoc))]
fn push_what(out: &mut Vec<u8>, give_up: &GiveUp) -> Result<(), AllocError>
    ensures { OnOk result (out.new.items ≡ out.old.items ++ what_text give_up.now) }
{
    push_decimal(out, give_up.job)?;
    out.extend_from_slice(b" ")?;
    out.extend_from_slice(give_up.obstacle.words().as_bytes())
}

/// Adds where it does that.
#[tactic(auto, using(std::proofs::Common::append_assoc))]
fn push_place(out: &mut Vec<u8>, give_up: &GiveUp) -> Result<(), AllocError>
    ensures { OnOk result (out.new.items ≡ out.old.items ++ place_text give_up.now) }
{
    out.extend_from_slice(b" at ")?;
    out.extend_from_slice(give_up.place.as_str().as_bytes())?;
    out.extend_from_slice(b"\n")
}

/// Adds where the search gave up, and an order that leads there.
fn push_give_up(out: &mut Vec<u8>, give_up: &GiveUp) -> Result<(), AllocError>
    ensures { OnOk result (out.new.items ≡ out.old.items ++ give_up_text give_up.now) }
{
    out.extend_from_slice(b"GAVE UP: job ")?;
    push_what(out, give_up)?;
    push_place(out, give_up)?;
    push_order(out, give_up.order.as_slice())?;
    Ok(())
}

/// The text of what was found, with `most` ends at most.
pub fn found_text(alloc: Global, found: &Found, most: usize) -> Result<Vec<u8>, AllocError>
    ensures { IfOk result (λ text. text.items ≡ found_text most found.now) }
{
    let mut out = Vec::new(alloc);
    match found {
        Found::All(report) => push_report(&mut out, report, most)?,
        Found::TooMany(states) => push_too_many(&mut out, *states)?,
        Found::GaveUp(give_up) => push_give_up(&mut out, give_up)?,
    }
    Ok(out)
}
