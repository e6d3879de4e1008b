//! The two passes.

use crate::dispatch::carry_out;
use crate::steps::Work;
use macro_faults::{Failure, Fault, Report};
use macro_names::{Name, NameReader, is_blank, is_digit, is_name_character, text_of};
use macro_operations::{of_dialect, of_others, of_subset};
use macro_state::Assembly;
use macro_stream::Limit;
use search_files::has_macro;
use std::alloc::{AllocError, Global};

/// Assembles a source in two passes. `faults` of the assembly has what is wrong with the source; it is empty where the
/// image is that of the source. If `takes_others`, operations and calls of other machines and other monitors are taken for their
/// words if the source gives their names no meaning, and `others` of the assembly has each use.
pub fn assemble(alloc: Global, source: &[u8], takes_others: bool) -> Result<Assembly, AllocError> {
    let most = Limit::Errors.most() as usize;
    assemble_up_to(alloc, source, takes_others, most)
}

/// Assembles a source as `assemble` does, and ends where there are more faults than so many.
pub fn assemble_up_to(
    alloc: Global,
    source: &[u8],
    takes_others: bool,
    most: usize,
) -> Result<Assembly, AllocError> {
    let mut state = Assembly::new(alloc, source)?;
    state.takes_others = takes_others;
    state.most_faults = most;
    match run_passes(&mut state, &mut Work::new(alloc)) {
        Ok(()) => Ok(state),
        Err(error) => {
            let_go(state);
            Err(error)
        }
    }
}

/// Lets an assembly go for which there was no memory.
fn let_go(_state: Assembly) {}

/// Reads the source twice, unless a limit ends it.
fn run_passes(state: &mut Assembly, work: &mut Work) -> Result<(), AllocError> {
    find_soft_names(state)?;
    run_pass(state, work, 1)?;
    if state.stopped {
        return Ok(());
    }
    run_pass(state, work, 2)?;
    report_absent(state)?;
    report_moved(state)
}

/// Whether a fault says that a name stands for nothing here.
fn is_of_missing(fault: Fault) -> bool {
    match fault {
        Fault::NotDefined(_) | Fault::NotSearched(_) | Fault::LeftOut(_, _, _) => true,
        Fault::Refused(_) => true,
        _ => false,
    }
}

/// Reports the files of SEARCH that are not here, where names are missing that they may have.
fn report_absent(state: &mut Assembly) -> Result<(), AllocError> {
    if !state
        .faults
        .as_slice()
        .iter()
        .any(|report| is_of_missing(report.fault))
    {
        return Ok(());
    }
    for at in 0..state.absent_files.len() {
        if let Some(report) = state.absent_files.as_slice().get(at).copied() {
            state.report(report)?;
        }
    }
    Ok(())
}

/// Reports what has another place in the second pass, where nothing else is wrong.
fn report_moved(state: &mut Assembly) -> Result<(), AllocError> {
    if !state.faults.is_empty() {
        return Ok(());
    }
    for at in 0..state.moved.len() {
        if let Some(report) = state.moved.as_slice().get(at).copied() {
            state.faults.push(report)?;
        }
    }
    Ok(())
}

/// Reads on to the next label or statement, and carries it out. False at the end of the source.
fn top_item(state: &mut Assembly, work: &mut Work) -> bool {
    match state.blanks() {
        None => return false,
        Some(b'\n') => state.advance(b'\n'),
        Some(b';') => state.skip_to(false),
        Some(_) => {
            state.forget_words();
            carry_out(state, work);
            state.emit_words();
        }
    }
    true
}

/// Reports why a statement is not carried out.
fn report_failure(state: &mut Assembly, failure: Failure) -> Result<(), AllocError> {
    match failure {
        Failure::Memory => Err(AllocError),
        Failure::Reported(report) => state.report(report),
        Failure::Told => Ok(()),
    }
}

/// Goes on behind a statement that was not carried out.
fn recover(state: &mut Assembly, failure: Failure) -> Result<(), AllocError> {
    report_failure(state, failure)?;
    state.forget_statement();
    if !state.stopped {
        state.skip_line();
        if let Some(failure) = state.failure {
            report_failure(state, failure)?;
            state.forget_statement();
        }
    }
    state.text_due = false;
    Ok(())
}

/// The source is at its end, with no END.
fn end_source(state: &mut Assembly) -> Result<(), AllocError> {
    let place = state.stream.place();
    state.report(Report {
        place,
        fault: Fault::NoEnd,
    })
}

/// Reads the source once.
fn run_pass(state: &mut Assembly, work: &mut Work, pass: u8) -> Result<(), AllocError> {
    state.begin_pass(pass);
    let mut is_clean = true;
    for _ in 0..u64::MAX {
        if state.ended || state.stopped {
            break;
        }
        let goes_on = top_item(state, work);
        if let Some(failure) = state.failure {
            recover(state, failure)?;
            is_clean = false;
        } else if goes_on {
            is_clean = true;
        } else {
            if is_clean && !state.end_begun {
                end_source(state)?;
            }
            state.ended = true;
        }
    }
    Ok(())
}

/// What a run of name characters at a place of the source is.
#[derive(Clone, Copy)]
struct Run {
    name: Name,
    end: usize,
    is_name: bool,
}

/// The character at a place of the source, a line end behind it.
fn source_character(state: &Assembly, at: usize) -> u8 {
    if at >= state.stream.source_len() {
        return b'\n';
    }
    match state.stream.items().get(at) {
        Some(item) if *item < 256 => *item as u8,
        Some(_) | None => b'\n',
    }
}

/// The run of name characters behind blanks from a place on.
fn run_at(state: &Assembly, from: usize) -> Run {
    let mut name = NameReader::new();
    let mut count = 0usize;
    let mut first = b' ';
    let mut end = from;
    for at in from..state.stream.source_len() {
        let character = source_character(state, at);
        end = at;
        if is_name_character(character) {
            if count == 0 {
                first = character;
            }
            count = count.saturating_add(1);
            name.push(character);
        } else if !is_blank(character) || count > 0 {
            break;
        }
        end = at.saturating_add(1);
    }
    Run {
        name: name.name(),
        end,
        is_name: count > 0 && !is_digit(first),
    }
}

/// Whether a name, as a label, takes the place of a statement of this dialect; in a source with SEARCH, of a macro that SEARCH
/// defines; or, if these are taken, of an operation or a call of another machine or another monitor.
fn takes_place(name: Name, searches: bool, takes_others: bool) -> bool {
    of_dialect(name).is_some() && of_subset(name).is_none()
        || searches && has_macro(text_of(name).as_slice())
        || takes_others && of_others(text_of(name).as_slice()).is_some()
}

/// Finds the names that stand as labels in the source, up to the line with END, and that only the dialect has as
/// operations, or SEARCH as macros.
fn find_soft_names(state: &mut Assembly) -> Result<(), AllocError> {
    let mut at = 0usize;
    let mut in_line = false;
    let mut searches = false;
    for _ in 0..state.stream.source_len() {
        if at >= state.stream.source_len() {
            break;
        }
        if in_line {
            in_line = source_character(state, at) != b'\n';
            at = at.saturating_add(1);
            continue;
        }
        let run = run_at(state, at);
        at = run.end;
        if run.is_name && source_character(state, at) == b':' {
            at = at.saturating_add(1);
            if takes_place(run.name, searches, state.takes_others) && !state.is_soft(run.name) {
                state.assumed_labels.push(run.name)?;
            }
        } else {
            if run.is_name && run.name == Name::of(b"END") {
                break;
            }
            searches = searches || run.is_name && run.name == Name::of(b"SEARCH");
            in_line = true;
        }
    }
    Ok(())
}
