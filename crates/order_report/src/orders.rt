//! Orders of the turns of jobs, as they are told.
ghost use Rattle.std.specs.Prelude.{◌≡◌, ◌++◌, OnOk};
ghost use Rattle.std.specs.List.{flat_map};
ghost use Rattle.order_report.specs.Texts.{calls_text, counted, more_calls, order_text, part_text, steps_text};

use script_io::push_decimal;
use std::alloc::AllocError;

/// Steps that one job takes in a row.
#[derive(Drop)]
pub struct JobSteps {
    /// The number of the job.
    pub job: u8,
    /// How many steps it takes.
    pub steps: u32,
    /// The calls and the interrupts among them that others can notice, in words.
    pub calls: Vec<String>,
}

/// A part of an order.
#[derive(Drop)]
pub enum OrderPart {
    /// A job takes steps.
    Steps(JobSteps),
    /// So many ticks go by.
    Ticks(u32),
}

/// Adds a number of things, by the word for one of them.
#[tactic(auto, using(std::proofs::Common::append_assoc))]
pub(crate) fn push_counted(out: &mut Vec<u8>, count: u64, word: &[u8]) -> Result<(), AllocError>
    ensures { OnOk result (out.new.items ≡ out.old.items ++ counted count word.now) }
{
    push_decimal(out, count)?;
    out.extend_from_slice(b" ")?;
    out.extend_from_slice(word)?;
    if count == 1 {
        return Ok(());
    }
    out.extend_from_slice(b"s")
}

/// Adds words of calls, each after a semicolon.
#[tactic(auto, using(std::proofs::Common::append_assoc))]
fn push_more_calls(out: &mut Vec<u8>, calls: &[String]) -> Result<(), AllocError>
    ensures { OnOk result (out.new.items ≡ out.old.items ++ flat_map more_calls calls.now) }
{
    for call in calls {
        out.extend_from_slice(b"; ")?;
        out.extend_from_slice(call.as_str().as_bytes())?;
    }
    Ok(())
}

/// Adds words of calls: the first after a colon, each other after a semicolon.
#[tactic(auto, using(std::proofs::Common::append_assoc))]
fn push_calls(out: &mut Vec<u8>, calls: &[String]) -> Result<(), AllocError>
    ensures { OnOk result (out.new.items ≡ out.old.items ++ calls_text calls.now) }
{
    let Some((first, more)) = calls.split_first() else {
        return Ok(());
    };
    out.extend_from_slice(b": ")?;
    out.extend_from_slice(first.as_str().as_bytes())?;
    push_more_calls(out, more)
}

/// Adds the line on steps of a job.
#[tactic(auto, using(std::proofs::Common::append_assoc))]
fn push_steps(out: &mut Vec<u8>, steps: &JobSteps) -> Result<(), AllocError>
    ensures { OnOk result (out.new.items ≡ out.old.items ++ steps_text steps.now) }
{
    out.extend_from_slice(b"  job ")?;
    push_decimal(out, steps.job)?;
    out.extend_from_slice(b", ")?;
    push_counted(out, u64::from(steps.steps), b"step")?;
    push_calls(out, steps.calls.as_slice())?;
    out.extend_from_slice(b"\n")
}

/// Adds the line on ticks.
#[tactic(auto, using(std::proofs::Common::append_assoc))]
fn push_ticks(out: &mut Vec<u8>, ticks: u32) -> Result<(), AllocError>
    ensures { OnOk result (out.new.items ≡ out.old.items ++ part_text (OrderPart.Ticks ticks)) }
{
    out.extend_from_slice(b"  ")?;
    push_counted(out, u64::from(ticks), b"tick")?;
    out.extend_from_slice(b"\n")
}

fn push_part(out: &mut Vec<u8>, part: &OrderPart) -> Result<(), AllocError>
    ensures { OnOk result (out.new.items ≡ out.old.items ++ part_text part.now) }
{
    match part {
        OrderPart::Steps(steps) => push_steps(out, steps),
        OrderPart::Ticks(ticks) => push_ticks(out, *ticks),
    }
}

/// Adds the lines of an order.
pub(crate) fn push_order(out: &mut Vec<u8>, order: &[OrderPart]) -> Result<(), AllocError>
    ensures { OnOk result (out.new.items ≡ out.old.items ++ order_text order.now) }
{
    for part in order {
        push_part(out, part)?;
    }
    Ok(())
}
