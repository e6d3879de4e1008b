//! The lines that a script on the machine writes.
ghost use Rattle.std.specs.Prelude.{◌≡◌, ◌++◌, ◌<◌, ◌^◌, OnOk};
ghost use Rattle.word36.specs.Octal.{octal};
ghost use Rattle.op_script.specs.Printing.{refused_line, number_line, text_line, answer_line, ran_line, done_line, taken_line, image_line};
ghost use Rattle.op_script.specs.Printing.{limit_text, wait_text, standing_text, job_line, address_line, word_line};

use job_sched::{Stop, Wait};
use ka_isa::text_of;
use machine::{Answer, JobView, RefusedEvent};
use run_commands::{ImageName, push_text};
use script_io::{push_decimal, push_word};
use std::alloc::AllocError;
use tty_lines::Char7;
use word36::{Word, octal_digits};

/// Adds `?REFUSED code`.
#[tactic(auto, using(std::proofs::Common::append_assoc))]
pub fn push_refused(out: &mut Vec<u8>, refusal: RefusedEvent) -> Result<(), AllocError>
    ensures { OnOk result (out.new.items ≡ out.old.items ++ refused_line refusal) }
{
    out.extend_from_slice(b"?REFUSED ")?;
    push_decimal(out, refusal.code())?;
    out.push(b'\n')?;
    Ok(())
}

/// Adds `JOB n`.
#[tactic(auto, using(std::proofs::Common::append_assoc))]
fn push_number(out: &mut Vec<u8>, job: u8) -> Result<(), AllocError>
    ensures { OnOk result (out.new.items ≡ out.old.items ++ number_line job) }
{
    out.extend_from_slice(b"JOB ")?;
    push_decimal(out, job)?;
    out.push(b'\n')?;
    Ok(())
}

/// Adds `TEXT` and the characters.
#[tactic(auto, using(std::proofs::Common::append_assoc))]
fn push_text_line(out: &mut Vec<u8>, text: &[Char7]) -> Result<(), AllocError>
    ensures { OnOk result (out.new.items ≡ out.old.items ++ text_line text.now) }
{
    out.extend_from_slice(b"TEXT")?;
    if !text.is_empty() {
        out.push(b' ')?;
        push_text(out, text)?;
    }
    out.push(b'\n')?;
    Ok(())
}

/// Adds `DONE`, or the refusal.
pub fn push_done(out: &mut Vec<u8>, refusal: Option<RefusedEvent>) -> Result<(), AllocError>
    ensures { OnOk result (out.new.items ≡ out.old.items ++ done_line refusal) }
{
    match refusal {
        None => {
            out.extend_from_slice(b"DONE\n")?;
            Ok(())
        }
        Some(refusal) => push_refused(out, refusal),
    }
}

/// Adds what was taken, or the refusal.
pub fn push_taken(
    out: &mut Vec<u8>,
    refusal: Option<RefusedEvent>,
    text: &[Char7],
) -> Result<(), AllocError>
    ensures { OnOk result (out.new.items ≡ out.old.items ++ taken_line refusal text.now) }
{
    match refusal {
        None => push_text_line(out, text),
        Some(refusal) => push_refused(out, refusal),
    }
}

/// Adds the line of an answer; steps have none.
pub fn push_answer(out: &mut Vec<u8>, answer: &Answer) -> Result<(), AllocError>
    ensures { OnOk result (out.new.items ≡ out.old.items ++ answer_line answer.now) }
{
    match answer {
        Answer::Ran(_) | Answer::Idle => Ok(()),
        Answer::Done => push_done(out, None),
        Answer::Text(text) => push_text_line(out, text.as_slice()),
        Answer::JobNumber(job) => push_number(out, *job),
        Answer::Refused(refusal) => push_refused(out, *refusal),
    }
}

/// Adds `RAN r IDLE i`.
#[tactic(auto, using(std::proofs::Common::append_assoc))]
pub fn push_ran(out: &mut Vec<u8>, ran: u32, idle: u32) -> Result<(), AllocError>
    ensures { OnOk result (out.new.items ≡ out.old.items ++ ran_line ran idle) }
{
    out.extend_from_slice(b"RAN ")?;
    push_decimal(out, ran)?;
    out.extend_from_slice(b" IDLE ")?;
    push_decimal(out, idle)?;
    out.push(b'\n')?;
    Ok(())
}

/// Adds `IMAGE name w`.
#[tactic(auto, using(std::proofs::Common::append_assoc))]
pub fn push_image(out: &mut Vec<u8>, name: &ImageName, words: usize) -> Result<(), AllocError>
    ensures { OnOk result (out.new.items ≡ out.old.items ++ image_line name.now words) }
{
    out.extend_from_slice(b"IMAGE ")?;
    out.extend_from_slice(name.as_bytes())?;
    out.push(b' ')?;
    push_decimal(out, words)?;
    out.push(b'\n')?;
    Ok(())
}

/// Adds that a job waits for its request, and the ticks that are left of its limit, if it has one.
#[tactic(auto, using(std::proofs::Common::append_assoc))]
fn push_limit(out: &mut Vec<u8>, limit: u32) -> Result<(), AllocError>
    ensures { OnOk result (out.new.items ≡ out.old.items ++ limit_text limit) }
{
    out.extend_from_slice(b"QUEUE")?;
    if limit != 0 {
        out.push(b' ')?;
        push_decimal(out, limit)?;
    }
    Ok(())
}

/// Adds what a job waits for.
#[tactic(auto, using(std::proofs::Common::append_assoc))]
fn push_wait(out: &mut Vec<u8>, wait: Wait) -> Result<(), AllocError>
    ensures { OnOk result (out.new.items ≡ out.old.items ++ wait_text wait) }
{
    match wait {
        Wait::None => out.extend_from_slice(b"RUN")?,
        Wait::Sleep(ticks) => {
            out.extend_from_slice(b"SLEEP ")?;
            push_decimal(out, ticks)?;
        }
        Wait::Char => out.extend_from_slice(b"CHAR")?,
        Wait::Line => out.extend_from_slice(b"LINE")?,
        Wait::Room(_) => out.extend_from_slice(b"ROOM")?,
        Wait::Queue(limit, _) => push_limit(out, limit)?,
    }
    Ok(())
}

/// Adds why a job stands still, or what it waits for.
#[tactic(auto, using(std::proofs::Common::append_assoc))]
fn push_standing(out: &mut Vec<u8>, stop: Option<Stop>, wait: Wait) -> Result<(), AllocError>
    ensures { OnOk result (out.new.items ≡ out.old.items ++ standing_text stop wait) }
{
    match stop {
        Some(stop) => {
            out.extend_from_slice(b"STOP ")?;
            push_decimal(out, stop.code())?;
            Ok(())
        }
        None => push_wait(out, wait),
    }
}

/// Adds the line of a job.
#[tactic(auto, using(std::proofs::Common::append_assoc))]
pub fn push_job(out: &mut Vec<u8>, n: u8, job: &JobView) -> Result<(), AllocError>
    ensures { OnOk result (out.new.items ≡ out.old.items ++ job_line n (Some job.now)) }
{
    out.extend_from_slice(b"JOB ")?;
    push_decimal(out, n)?;
    out.extend_from_slice(b" LINE ")?;
    push_decimal(out, job.line.number())?;
    out.extend_from_slice(b" BLOCKS ")?;
    push_decimal(out, job.blocks)?;
    out.extend_from_slice(b" PC ")?;
    out.extend_from_slice(&octal_digits::<6>(u64::from(job.pc.number())))?;
    out.push(b' ')?;
    push_standing(out, job.stop, job.wait)?;
    out.push(b'\n')?;
    Ok(())
}

/// Adds an address and its word, or `?ADDRESS`.
#[tactic(auto, using(std::proofs::Common::append_assoc))]
pub fn push_address(out: &mut Vec<u8>, address: u32, word: Option<Word>) -> Result<(), AllocError>
    ensures { OnOk result (out.new.items ≡ out.old.items ++ address_line address word) }
{
    match word {
        None => out.extend_from_slice(b"?ADDRESS\n")?,
        Some(word) => {
            out.extend_from_slice(&octal_digits::<6>(u64::from(address)))?;
            out.extend_from_slice(b"/ ")?;
            push_word(out, word)?;
            out.push(b' ')?;
            out.extend_from_slice(text_of(word).as_str().as_bytes())?;
            out.push(b'\n')?;
        }
    }
    Ok(())
}

/// Adds a word.
#[tactic(auto, using(std::proofs::Common::append_assoc))]
pub fn push_word_line(out: &mut Vec<u8>, word: Word) -> Result<(), AllocError>
    ensures { OnOk result (out.new.items ≡ out.old.items ++ word_line word) }
{
    push_word(out, word)?;
    out.push(b'\n')?;
    Ok(())
}
