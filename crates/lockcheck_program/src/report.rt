//! The text of a report on all orders.
ghost use Rattle.std.specs.Prelude.{◌≡◌, ◌≤◌, ◌<◌, ◌++◌, ◌∷◌, [], None, IfOk, MatchOption, OnOk, OnSome, Some, length, replicate};
ghost use Rattle.std.specs.Prelude.{slice_index, codes, decimal};
ghost use Rattle.std.specs.List.{flat_map};
ghost use Rattle.std.specs.Str.Lines.{lines};
ghost use Rattle.lockcheck_orders.specs.Programs.{jobs_of};
ghost use Rattle.lockcheck_orders.specs.declared.lines.TheConstants.{MOST_LINES};
ghost use Rattle.lockcheck_program.specs.Reports.{answer_word, answer_words, answered, answers_text, answers_to, counted, counts_text};
ghost use Rattle.lockcheck_program.specs.Reports.{jobs_text, line_in, line_made, order_text, report_text, verdict_text};

use crate::script_lines::line_at;
use lockcheck_orders::{ANSWERS, Line, Programs, Report, Verdict, WAITS};
use script_io::push_decimal;
use std::alloc::{AllocError, Global};
use std::collections::BTreeSet;

/// The line that the job at a position of the list makes next, where each job has made so many.
fn line_made<'a>(programs: &'a Programs, made: &[u32], by: usize) -> Option<&'a Line>
    requires { length made.now ≡ length (jobs_of programs.now) }
    ensures line { MatchOption result (line_made programs.now made.now by ≡ None)
        (λ l. line_made programs.now made.now by ≡ Some l.now) }
    ensures there { OnSome result (by < length made.now) }
    ensures few { OnSome result (slice_index made.now by < MOST_LINES) }
{
    let jobs = programs.jobs();
    if by >= jobs.len() {
        return None;
    }
    let i = programs.due(jobs[by], made[by])?;
    Some(&programs.lines()[i])
}

/// Adds a line of the script.
#[tactic(auto, using(std::proofs::Common::append_assoc))]
fn push_line(out: &mut Vec<u8>, script: &[u8], number: usize) -> Result<(), AllocError>
    ensures { OnOk result (out.new.items ≡ out.old.items ++ (line_in (lines script.now) number ++ 10 ∷ [])) }
{
    out.extend_from_slice(line_at(script, number))?;
    out.push(b'\n')?;
    Ok(())
}

/// Adds the lines of the script in the order in which the moves make them.
fn push_order(
    out: &mut Vec<u8>,
    alloc: Global,
    programs: &Programs,
    script: &[u8],
    moves: &[usize],
) -> Result<(), AllocError>
    ensures { OnOk result (out.new.items ≡ out.old.items
        ++ order_text (lines script.now) programs.now (replicate (length (jobs_of programs.now)) 0) moves.now) }
{
    let mut made = Vec::from_elem(alloc, 0u32, programs.jobs().len())?;
    for by in moves {
        let Some(line) = line_made(programs, made.as_slice(), *by) else {
            return Ok(());
        };
        made[*by] += 1;
        push_line(out, script, line.number)?;
    }
    Ok(())
}

/// Adds jobs, each behind a space.
#[tactic(auto, using(std::proofs::Common::append_assoc))]
fn push_jobs(out: &mut Vec<u8>, jobs: &[u8]) -> Result<(), AllocError>
    ensures { OnOk result (out.new.items ≡ out.old.items ++ jobs_text jobs.now) }
{
    for job in jobs {
        out.push(b' ')?;
        push_decimal(out, *job)?;
    }
    Ok(())
}

/// Adds a verdict: its word, its jobs and the lines of its order; or, where there is none, the words for that.
#[tactic(auto, using(std::proofs::Common::append_assoc))]
fn push_verdict(
    out: &mut Vec<u8>,
    alloc: Global,
    programs: &Programs,
    script: &[u8],
    found: &[u8],
    none: &[u8],
    verdict: &Option<Verdict>,
) -> Result<(), AllocError>
    ensures { OnOk result (out.new.items ≡ out.old.items
        ++ verdict_text (lines script.now) programs.now found.now none.now verdict.now) }
{
    match verdict {
        None => out.extend_from_slice(none),
        Some(verdict) => {
            out.extend_from_slice(found)?;
            push_jobs(out, verdict.jobs.as_slice())?;
            out.push(b'\n')?;
            push_order(out, alloc, programs, script, verdict.moves.as_slice())
        }
    }
}

/// The answers that some order gives to the line of this number, in the order of their words.
fn answers_to(alloc: Global, all: &BTreeSet<usize>, number: usize) -> Result<Vec<u8>, AllocError>
    requires { number ≤ MOST_LINES }
    ensures { IfOk result (λ answers. answers.items ≡ answers_to all.now number) }
{
    let in_order: [u8; 20] = [
        1, 10, 11, 12, 13, 14, 15, 16, 17, 18, 2, 3, 4, 5, 6, 7, 8, 9, 0, 31,
    ];
    let mut answers = Vec::new(alloc);
    for answer in in_order.as_slice() {
        if all.contains(&(number * ANSWERS + usize::from(*answer))) {
            answers.push(*answer)?;
        }
    }
    Ok(answers)
}

/// Adds an answer.
#[tactic(auto, using(std::proofs::Common::append_assoc))]
fn push_answer(out: &mut Vec<u8>, answer: u8) -> Result<(), AllocError>
    ensures { OnOk result (out.new.items ≡ out.old.items ++ answer_word answer) }
{
    if answer == 0 {
        return out.extend_from_slice(b"OK");
    }
    if usize::from(answer) == WAITS {
        return out.extend_from_slice(b"WAIT");
    }
    out.extend_from_slice(b"CODE ")?;
    push_decimal(out, answer)
}

/// Adds answers, each behind a comma.
#[tactic(auto, using(std::proofs::Common::append_assoc))]
fn push_more_answers(out: &mut Vec<u8>, answers: &[u8]) -> Result<(), AllocError>
    ensures { OnOk result (out.new.items ≡ out.old.items
        ++ flat_map (λ b. codes ", " ++ answer_word b) answers.now) }
{
    for answer in answers {
        out.extend_from_slice(b", ")?;
        push_answer(out, *answer)?;
    }
    Ok(())
}

/// Adds a line that has answers: its number, its text and these.
#[tactic(auto, using(std::proofs::Common::append_assoc))]
fn push_answered(
    out: &mut Vec<u8>,
    script: &[u8],
    number: usize,
    answers: &[u8],
) -> Result<(), AllocError>
    ensures { OnOk result (out.new.items ≡ out.old.items ++ answered (lines script.now) number answers.now) }
{
    let Some((first, more)) = answers.split_first() else {
        return Ok(());
    };
    push_decimal(out, number)?;
    out.push(b' ')?;
    out.extend_from_slice(line_at(script, number))?;
    out.extend_from_slice(b": ")?;
    push_answer(out, *first)?;
    push_more_answers(out, more)?;
    out.push(b'\n')?;
    Ok(())
}

/// Adds each line that some order reaches, with its answers, where these were asked for.
#[tactic(auto, using(std::proofs::Common::append_assoc))]
fn push_answers(
    out: &mut Vec<u8>,
    alloc: Global,
    programs: &Programs,
    script: &[u8],
    answers: &Option<BTreeSet<usize>>,
) -> Result<(), AllocError>
    ensures { OnOk result (out.new.items ≡ out.old.items
        ++ answers_text (lines script.now) programs.now answers.now) }
{
    let Some(all) = answers else {
        return Ok(());
    };
    for i in 0..programs.lines().len() {
        let number = programs.number(i);
        let answers = answers_to(alloc, all, number)?;
        push_answered(out, script, number, answers.as_slice())?;
    }
    Ok(())
}

/// Adds a number of things, by the word for one of them.
#[tactic(auto, using(std::proofs::Common::append_assoc))]
pub fn push_counted(out: &mut Vec<u8>, count: usize, word: &[u8]) -> Result<(), AllocError>
    ensures { OnOk result (out.new.items ≡ out.old.items ++ counted count word.now) }
{
    push_decimal(out, count)?;
    out.extend_from_slice(b" ")?;
    out.extend_from_slice(word)?;
    if count == 1 {
        return Ok(());
    }
    out.extend_from_slice(b"s")
}

/// Adds how many jobs, calls and states there are.
fn push_counts(out: &mut Vec<u8>, programs: &Programs, states: usize) -> Result<(), AllocError>
    ensures { OnOk result (out.new.items ≡ out.old.items ++ counts_text programs.now states) }
{
    push_counted(out, programs.jobs().len(), b"job")?;
    out.extend_from_slice(b", ")?;
    push_counted(out, programs.lines().len(), b"call")?;
    out.extend_from_slice(b", ")?;
    push_counted(out, states, b"state")?;
    out.extend_from_slice(b", all looked at\n")?;
    Ok(())
}

/// The text of a report on the programs of a script: how many jobs, calls and states there are, the circle, the jobs that are
/// left waiting, each with the lines of a least order that leads there, and the answers, where they were asked for.
#[tactic(auto, using(std::proofs::Common::append_assoc))]
pub fn report_text(
    alloc: Global,
    programs: &Programs,
    script: &[u8],
    report: &Report,
) -> Result<Vec<u8>, AllocError>
    ensures { IfOk result (λ text. text.items ≡ report_text (lines script.now) programs.now report.now) }
{
    let mut out = Vec::new(alloc);
    push_counts(&mut out, programs, report.states)?;
    let (circle, no_circle) = (b"CIRCLE", b"NO CIRCLE\n");
    push_verdict(
        &mut out,
        alloc,
        programs,
        script,
        circle,
        no_circle,
        &report.circle,
    )?;
    let (stuck, all_end) = (b"STUCK", b"ALL CAN END\n");
    push_verdict(
        &mut out,
        alloc,
        programs,
        script,
        stuck,
        all_end,
        &report.stuck,
    )?;
    push_answers(&mut out, alloc, programs, script, &report.answers)?;
    Ok(out)
}
