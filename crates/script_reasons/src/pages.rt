//! A script of `lockmon queue` as a page: each line with its answers, and the reason of a refusal or a wait.
ghost use Rattle.std.specs.Prelude.{◌≡◌, ◌++◌, [], IfOk, OnOk, option_map, string_bytes};
ghost use Rattle.std.specs.List.{flat_map};
ghost use Rattle.std.specs.Str.Lines.{lines};
ghost use Rattle.script_reasons.specs.Explanations.{as_explanation};
ghost use Rattle.script_reasons.specs.Pages.{IsExplained, answer_text, answers_text, behind, line_text, reason_in, told_in};

use crate::explanations::Explanation;
use crate::queue_lines::{ExplainedLine, explain_lines};
use lock_bars::{ScriptError, ScriptLines};
use shown_bytes::shown_text;
use std::alloc::{AllocError, Global};

/// Adds a reason after an answer, if there is one.
#[tactic(auto, using(std::proofs::Common::append_assoc))]
fn push_reason(out: &mut Vec<u8>, reason: &[u8]) -> Result<(), AllocError>
    ensures { OnOk result (out.new.items ≡ out.old.items ++ behind reason.now) }
{
    if reason.is_empty() {
        return Ok(());
    }
    out.extend_from_slice(b": ")?;
    out.extend_from_slice(reason)?;
    Ok(())
}

/// Adds an answer on a line of its own, and a reason after it, if there is one.
#[tactic(auto, using(std::proofs::Common::append_assoc))]
fn push_answer(out: &mut Vec<u8>, reason: &[u8], answer: &[u8]) -> Result<(), AllocError>
    ensures { OnOk result (out.new.items ≡ out.old.items ++ answer_text reason.now answer.now) }
{
    out.extend_from_slice(b"    ")?;
    out.extend_from_slice(answer)?;
    push_reason(out, reason)?;
    out.push(b'\n')?;
    Ok(())
}

/// Adds answers, each on a line of its own.
fn push_later_answers(out: &mut Vec<u8>, lines: &mut ScriptLines<'_>) -> Result<(), AllocError>
    ensures { OnOk result (out.new.items ≡ out.old.items ++ flat_map (answer_text []) lines.old) }
{
    while let Some(line) = lines.next() {
        push_answer(out, b"", line)?;
    }
    Ok(())
}

/// Adds the answers to a line, each on a line of its own; after the first comes the reason, if there is one.
#[tactic(auto, using(std::proofs::Common::append_assoc))]
pub fn push_answers(out: &mut Vec<u8>, answers: &[u8], reason: &[u8]) -> Result<(), AllocError>
    ensures { OnOk result (out.new.items ≡ out.old.items ++ answers_text reason.now (lines answers.now)) }
{
    let mut lines = ScriptLines::of(answers);
    let Some(first) = lines.next() else {
        return Ok(());
    };
    push_answer(out, reason, first)?;
    push_later_answers(out, &mut lines)
}

/// The words of an explanation, if there is one.
fn reason_of(alloc: Global, explanation: &Option<Explanation>) -> Result<String, AllocError>
    ensures { IfOk result (λ reason. string_bytes reason ≡ reason_in (option_map as_explanation explanation.now)) }
{
    match explanation {
        Some(explanation) => format!(in alloc; "{explanation}"),
        None => Ok(String::new(alloc)),
    }
}

/// Adds a line that was done, with its answers and their reason.
#[tactic(auto, using(std::proofs::Common::append_assoc))]
fn push_line(
    alloc: Global,
    out: &mut Vec<u8>,
    line: &[u8],
    done: &ExplainedLine,
) -> Result<(), AllocError>
    ensures { OnOk result (out.new.items ≡ out.old.items ++ line_text line.now (told_in done.now)) }
{
    let shown = shown_text(alloc, line)?;
    let reason = reason_of(alloc, &done.explanation)?;
    out.extend_from_slice(shown.as_str().as_bytes())?;
    out.push(b'\n')?;
    push_answers(out, done.answers.as_slice(), reason.as_str().as_bytes())
}

/// A script of `lockmon queue`, each line with the answers that `lockmon queue` gives to it, and after each code and each
/// WAIT the reason: which request, which lock and which rule. It is refused as by `explain_lines`.
pub fn explain_script(alloc: Global, script: &[u8]) -> Result<Vec<u8>, ScriptError>
    ensures { IfOk result (λ page. IsExplained script.now page.items) }
{
    let explained = explain_lines(alloc, script)?;
    let mut page = Vec::new(alloc);
    let mut lines = ScriptLines::of(script);
    for done in explained.as_slice() {
        let Some(line) = lines.next() else {
            return Ok(page);
        };
        push_line(alloc, &mut page, line, done)?;
    }
    Ok(page)
}
