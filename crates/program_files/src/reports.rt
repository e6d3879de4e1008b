//! What MACRO-10 reports of a source, in the form in which the faults of the subset are reported.

use crate::files::ProgramFile;
use joined_files::part_of;
use macro_faults::{Fault as MacroFault, Report, push_around_place, push_words};
use macro_names::{Name, text_of};
use macro_state::Assembly;
use script_io::Parts;
use shown_bytes::push_shown;
use source_labels::{
    ErrorPlace, Source, advice_on_label, advice_on_word, are_near, push_error, push_more,
};
use std::alloc::{AllocError, Global};
use std::str;

const DECIMAL: &str = "write ^D before a number in decimal, as in ^D19, or a point behind it";

/// Whether a fault stands behind another.
fn is_behind(report: &Report, other: &Report) -> bool {
    let (place, before) = (report.place, other.place);
    place.line > before.line || place.line == before.line && place.column > before.column
}

/// The faults by their places.
fn by_place(alloc: Global, faults: &[Report]) -> Result<Vec<Report>, AllocError> {
    let mut sorted: Vec<Report> = Vec::new(alloc);
    for report in faults {
        let position = sorted
            .as_slice()
            .iter()
            .position(|other| is_behind(other, report))
            .unwrap_or(sorted.len());
        sorted.insert(position.min(sorted.len()), *report)?;
    }
    Ok(sorted)
}

/// The letter that MACRO-10 has for a fault, or nothing where it has none.
fn mark_of(alloc: Global, fault: MacroFault) -> Result<String, AllocError> {
    let mut mark = String::new(alloc);
    let letter = fault.letter();
    if letter != b'-' {
        mark.push(char::from(letter))?;
    }
    Ok(mark)
}

/// The symbol of a source that may have been meant by a name.
fn near_symbol(state: &Assembly, name: Name) -> Option<Name> {
    let wanted = text_of(name);
    for at in 0..state.symbols.len() {
        let Some((symbol, _)) = state.symbols.at(at) else {
            break;
        };
        let symbol = Name::of_sixbit(symbol);
        if are_near(text_of(symbol).as_slice(), wanted.as_slice()) {
            return Some(symbol);
        }
    }
    None
}

/// Advice on a name that stands for nothing, or is no operation, if there is any.
fn advice_on_name(state: &Assembly, name: Name) -> Result<Option<String>, AllocError> {
    let alloc = state.alloc;
    if let Some(symbol) = near_symbol(state, name) {
        let characters = text_of(symbol);
        let text = str::from_utf8(characters.as_slice()).unwrap_or("another name");
        return Ok(Some(format!(in alloc; "did you mean {text}?")?));
    }
    advice_on_word(alloc, text_of(name).as_slice())
}

/// The line where the outermost literal begins that is not closed before a line of a source, if there is one.
fn open_literal(source: &[u8], before: usize) -> Option<usize> {
    let (mut line, mut depth, mut first) = (1usize, 0usize, 0usize);
    let mut in_comment = false;
    for byte in source {
        if line >= before {
            break;
        }
        match *byte {
            b'\n' => {
                line = line.saturating_add(1);
                in_comment = false;
            }
            _ if in_comment => {}
            b';' => in_comment = true,
            b'[' => {
                first = if depth == 0 { line } else { first };
                depth = depth.saturating_add(1);
            }
            b']' => depth = depth.saturating_sub(1),
            _ => {}
        }
    }
    if depth > 0 { Some(first) } else { None }
}

/// Advice on what stands in a literal that should have ended before this line, if it should.
fn advice_on_literal(
    alloc: Global,
    file: &ProgramFile<'_>,
    before: usize,
) -> Result<Option<String>, AllocError> {
    let Some(first) = open_literal(file.source.text.as_slice(), before) else {
        return Ok(None);
    };
    let (name, line) = file.spot(first);
    let text = if file.parts.is_empty() {
        format!(in alloc; "the literal that begins in line {line} has no \"]\"")?
    } else {
        format!(in alloc; "the literal that begins in {name}:{line} has no \"]\"")?
    };
    Ok(Some(text))
}

/// Advice on a label of a line that is defined twice, if there is any.
fn advice_on_twice(
    state: &Assembly,
    file: &ProgramFile<'_>,
    name: Name,
    line: usize,
) -> Result<Option<String>, AllocError> {
    let alloc = state.alloc;
    if file.parts.is_empty() {
        return advice_on_label(alloc, file.source.text.as_slice(), line);
    }
    for used in &state.listing.uses {
        if used.defined && used.name == name.sixbit() && (used.line as usize) < line {
            let (other, first) = file.spot(used.line as usize);
            let characters = text_of(name);
            let text = str::from_utf8(characters.as_slice()).unwrap_or("it");
            return Ok(Some(format!(in alloc;
                "{other}:{first} has the label {text} already. Of a name the first six characters count."
            )?));
        }
    }
    Ok(None)
}

/// Advice on a fault, if there is any.
fn advice_on(
    state: &Assembly,
    file: &ProgramFile<'_>,
    report: &Report,
) -> Result<Option<String>, AllocError> {
    let (alloc, line) = (state.alloc, report.place.line as usize);
    let is_in_source = report.place.texts == 0;
    match report.fault {
        MacroFault::NotDefined(name) => advice_on_name(state, name),
        MacroFault::Refused(name) => advice_on_word(alloc, text_of(name).as_slice()),
        MacroFault::Digits(_, 8) | MacroFault::LongDigits(_) => Ok(Some(String::from_str(
            alloc, DECIMAL,
        )?)),
        MacroFault::Duplicate(name) if is_in_source => advice_on_twice(state, file, name, line),
        MacroFault::NotInLiteral(_) if is_in_source => advice_on_literal(alloc, file, line),
        MacroFault::NoEnd => advice_on_literal(alloc, file, usize::MAX),
        _ => Ok(None),
    }
}

/// Adds the lines of the macros, conditions and rounds around a fault, the innermost first.
fn push_around(
    text: &mut String,
    state: &Assembly,
    source: &[u8],
    report: &Report,
) -> Result<(), AllocError> {
    let mut around = Vec::new(state.alloc);
    push_around_place(&mut around, report.place, state.stream.around(), source)?;
    let mut lines = Parts::of(around.as_slice(), b'\n');
    for _ in 0..around.len() {
        let Some(line) = lines.next() else {
            break;
        };
        if !line.is_empty() {
            text.push_str("   ")?;
            push_shown(text, line)?;
            text.push('\n')?;
        }
    }
    Ok(())
}

/// Adds the line on what is wrong at a column of a line of a source, with its own file's name and number, and the line itself.
fn push_at(
    text: &mut String,
    alloc: Global,
    file: &ProgramFile<'_>,
    place: ErrorPlace,
    (reason, mark): (&str, &str),
) -> Result<(), AllocError> {
    let Some(part) = part_of(file.parts.as_slice(), place.line) else {
        return push_error(text, &file.source, place, reason, mark);
    };
    let own = file.source.text.as_slice().get(part.start..).unwrap_or(&[]);
    let source = Source {
        file: part.file.as_str(),
        text: Vec::from_slice(alloc, own)?,
    };
    let line = place.line.saturating_sub(part.before);
    push_error(text, &source, ErrorPlace { line, ..place }, reason, mark)
}

/// Adds the lines on a fault: that of `push_error`, with the letter of MACRO-10; the macros, conditions and rounds around it,
/// the innermost first, a line each; and advice, if there is any.
fn push_fault(
    text: &mut String,
    state: &Assembly,
    file: &ProgramFile<'_>,
    report: &Report,
) -> Result<(), AllocError> {
    let alloc = state.alloc;
    let mut words = Vec::new(alloc);
    let bytes = file.source.text.as_slice();
    push_words(&mut words, report.fault, bytes, report.place.line)?;
    let mut reason = String::new(alloc);
    push_shown(&mut reason, words.as_slice())?;
    let place = ErrorPlace {
        line: report.place.line as usize,
        column: report.place.column as usize,
    };
    let mark = mark_of(alloc, report.fault)?;
    push_at(text, alloc, file, place, (reason.as_str(), mark.as_str()))?;
    push_around(text, state, bytes, report)?;
    match advice_on(state, file, report)? {
        Some(advice) => write!(text, "    {}\n", advice.as_str()),
        None => Ok(()),
    }
}

/// What is wrong with a source by its assembly, in whole lines by their places: `most` of the faults, and how many more there
/// are.
pub fn report_text(
    state: &Assembly,
    file: &ProgramFile<'_>,
    most: usize,
) -> Result<String, AllocError> {
    let mut text = String::new(state.alloc);
    let faults = by_place(state.alloc, state.faults.as_slice())?;
    for report in faults.as_slice().iter().take(most) {
        push_fault(&mut text, state, file, report)?;
    }
    push_more(&mut text, file.source.file, faults.len(), most)?;
    Ok(text)
}
