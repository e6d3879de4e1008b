//! The whole program over any ports.
ghost use Rattle.std.specs.Prelude.{◌≡◌, ◌<◌, false, IfOk};
ghost use Rattle.std.specs.Io.KnownBytes.{Appends};
ghost use Rattle.program_shell.specs.Reports.{WritesOnlyWhenDone};
ghost use Rattle.program_shell.specs.declared.statuses.TheConstants.{DONE};
ghost use Rattle.lockview.specs.Pages.{IsDrawingOf, IsDrawn, IsExplainedOn, IsPage, IsSvg, WritesPage};

use crate::arguments::{Form, Options, read_arguments};
use crate::run_course::draw_run_script;
use crate::run_reasons::explain_run_script;
use crate::text::say_picture;
use fault_text::{NO_ENDASM, Refused, explain};
use lock_bars::{Drawing, MOST_LINES, ScriptError, ScriptLines, SourceFault, draw_script};
use lock_svg::{Along, svg_of};
use op_script::{Config, OtherMachine, head_of};
use program_shell::{
    DONE, FAILED, Failure, FailureLines, PendingText, REFUSED, USAGE, read_file, read_input,
    refuse_arguments, report_failure, report_to,
};
use script_io::{ByteIn, ByteOut, LINE_LENGTH, write_all};
use script_reasons::explain_script;
use std::alloc::Global;
use std::convert::AsStr;
use std::rt::Files;

/// The lines by which the program reports a failure.
pub const FAILURE_LINES: FailureLines = FailureLines {
    read: b"lockview: read\n",
    write: b"lockview: write\n",
    memory: b"lockview: memory\n",
};

/// How many bytes of a script are read, at least: more than 10,000 lines of 256 characters have, with CR and LF, so
/// that a longer script has a line too many, or one that is too long, among these.
const MOST_BYTES: usize = (MOST_LINES + 1) * (LINE_LENGTH + 2);

/// The drawing of a script of `lockmon queue`.
fn queue_drawing(alloc: Global, script: &[u8], at: Option<usize>) -> Result<Drawing, ScriptError>
    ensures { IfOk result (λ drawing. IsDrawingOf at script.now drawing) }
{
    let drawing = draw_script(alloc, script, at)?;
    Ok(drawing)
}

/// The drawing of a script.
fn drawing_for(alloc: Global, options: &Options, script: &[u8]) -> Result<Drawing, ScriptError>
    ensures { IfOk result (λ drawing. IsDrawn options.now.machine options.now.at script.now drawing) }
{
    match options.machine {
        Some(config) => draw_run_script(alloc, config, script, options.at),
        None => queue_drawing(alloc, script, options.at),
    }
}

/// The picture of a script as SVG.
fn svg_page(alloc: Global, options: &Options, script: &[u8]) -> Result<Vec<u8>, ScriptError>
    ensures { IfOk result (λ page. IsSvg options.now.machine options.now.at script.now page.items) }
{
    let drawing = drawing_for(alloc, options, script)?;
    let svg = svg_of(alloc, &drawing, Along::Script, script)?;
    let page = Vec::from_slice(alloc, svg.as_str().as_bytes())?;
    Ok(page)
}

/// All of a text, if there was memory for it.
fn whole_of(alloc: Global, text: &PendingText) -> Result<Vec<u8>, ScriptError> {
    if !text.is_whole() {
        return Err(ScriptError::Memory);
    }
    let page = Vec::from_slice(alloc, text.as_bytes())?;
    Ok(page)
}

/// The picture of a script as text.
fn text_page(alloc: Global, options: &Options, script: &[u8]) -> Result<Vec<u8>, ScriptError> {
    let drawing = drawing_for(alloc, options, script)?;
    let mut text = PendingText::new(alloc);
    say_picture(&mut text, &drawing, script);
    whole_of(alloc, &text)
}

/// A script of `lockmon run` with its answers and their reasons.
fn explained_run(alloc: Global, config: Config, script: &[u8]) -> Result<Vec<u8>, ScriptError> {
    let mut text = PendingText::new(alloc);
    explain_run_script(alloc, config, &mut text, script)?;
    whole_of(alloc, &text)
}

/// A script with its answers and their reasons.
fn explained_page(
    alloc: Global,
    machine: Option<Config>,
    script: &[u8],
) -> Result<Vec<u8>, ScriptError>
    ensures { IfOk result (λ page. IsExplainedOn machine script.now page.items) }
{
    match machine {
        Some(config) => explained_run(alloc, config, script),
        None => explain_script(alloc, script),
    }
}

/// What the options ask for of a script.
fn page_of(alloc: Global, options: &Options, script: &[u8]) -> Result<Vec<u8>, ScriptError>
    ensures { IfOk result (λ page. IsPage options.now.form options.now.machine options.now.at script.now page.items) }
{
    match options.form {
        Form::Svg => svg_page(alloc, options, script),
        Form::Text => text_page(alloc, options, script),
        Form::Explained => explained_page(alloc, options.machine, script),
    }
}

/// The line of this number, counted from 1, without its line end: a CR belongs to that only before an LF. An empty
/// one where there are fewer.
fn line_at(script: &[u8], number: usize) -> &[u8] {
    let mut lines = ScriptLines::of(script);
    for _ in 1..number {
        let _ = lines.next();
    }
    match lines.next() {
        Some(line) => line,
        None => b"",
    }
}

/// Adds what is wrong with a line of a script.
fn say_line(text: &mut PendingText, options: &Options, script: &[u8], number: usize) {
    let language = match options.machine {
        Some(_) => Refused::Run,
        None => Refused::Queue,
    };
    text.say_number("line ", number as u64, ": ");
    text.say_made(explain(text.alloc, language, line_at(script, number)));
}

/// Adds what is wrong with a line of a source.
fn say_source(text: &mut PendingText, script: &[u8], fault: SourceFault) {
    let whole = fault.begins.saturating_add(fault.line);
    text.say_number("line ", whole as u64, "");
    text.say_number(", line ", fault.line as u64, " of its source: ");
    text.say_made(source_faults::explain(
        text.alloc,
        fault.code,
        fault.begins as u128,
        fault.line,
        script,
    ));
}

/// Adds a line if a script of `lockmon run` is obeyed on another machine than its head says.
fn say_head(text: &mut PendingText, options: &Options, script: &[u8]) {
    let alloc = text.alloc;
    if let Some(taken) = options.machine
        && let Some(said) = head_of(line_at(script, 1))
        && let Some(other) = OtherMachine::of(said, taken)
    {
        text.say_made(format!(in alloc; "lockview: {other}"));
        text.end_line();
    }
}

/// Adds why a script is not drawn, in a line.
fn say_fault(text: &mut PendingText, options: &Options, script: &[u8], error: ScriptError) {
    text.say("lockview: ");
    match error {
        ScriptError::Memory => text.fail(),
        ScriptError::Line(number) => say_line(text, options, script, number),
        ScriptError::Source(fault) => say_source(text, script, fault),
        ScriptError::NoEnd(lines) => {
            text.say_number("line ", lines.saturating_add(1) as u64, ": ");
            text.say(NO_ENDASM);
        }
        ScriptError::TooLong => {
            text.say_number("the script has more than ", MOST_LINES as u64, " lines");
        }
        ScriptError::Short(lines) => {
            text.say_number("the script ends at line ", lines as u64, "");
            text.say(", before the line of --at");
        }
    }
    text.end_line();
}

/// The exit status of a script that is refused.
fn status_of(error: ScriptError) -> u8
    ensures { 0 < result }
{
    match error {
        ScriptError::Memory => FAILED,
        ScriptError::Line(_)
        | ScriptError::Source(_)
        | ScriptError::NoEnd(_)
        | ScriptError::TooLong => REFUSED,
        ScriptError::Short(_) => USAGE,
    }
}

/// The script of the file, if one is named, or of the reader; or the exit status where it cannot be read, which is
/// reported.
fn read_script<F: Files + AllocGlobal, R: ByteIn, E: ByteOut>(
    rt: &F,
    file: &Option<String>,
    reader: &mut R,
    errors: &mut E,
) -> Result<Vec<u8>, u8>
    requires reader_sound { R.has_failed reader.old ≡ false }
    requires errors_sound { E.has_failed errors.old ≡ false }
    ensures { IfOk result (λ _. E.has_failed errors.new ≡ false) }
{
    match file {
        Some(file) => read_file(rt, "lockview: ", file.as_str(), &FAILURE_LINES, errors),
        None => read_input(rt.alloc(), reader, MOST_BYTES, &FAILURE_LINES, errors),
    }
}

/// Writes a page, and then a report; gives the exit status.
fn write_page<W: ByteOut, E: ByteOut>(
    page: &[u8],
    report: &[u8],
    writer: &mut W,
    errors: &mut E,
) -> u8
    requires writer_sound { W.has_failed writer.old ≡ false }
    requires errors_sound { E.has_failed errors.old ≡ false }
    ensures silent { WritesOnlyWhenDone (W.has_failed writer.new) (W.written writer.old) (W.written writer.new) result }
    ensures page { result ≡ DONE → Appends (W.written writer.old) (W.written writer.new) page.now }
{
    match write_all(writer, page) {
        Ok(()) => report_to(errors, report, DONE),
        Err(_) => report_failure(errors, &FAILURE_LINES, Failure::Write),
    }
}

/// Writes what the options ask for of a script; gives the exit status.
fn answer<W: ByteOut, E: ByteOut>(
    alloc: Global,
    options: &Options,
    script: &[u8],
    writer: &mut W,
    errors: &mut E,
) -> u8
    requires writer_sound { W.has_failed writer.old ≡ false }
    requires errors_sound { E.has_failed errors.old ≡ false }
    ensures silent { WritesOnlyWhenDone (W.has_failed writer.new) (W.written writer.old) (W.written writer.new) result }
    ensures page { result ≡ DONE → WritesPage options.now.form options.now.machine options.now.at script.now
        (W.written writer.old) (W.written writer.new) }
{
    let mut report = PendingText::new(alloc);
    say_head(&mut report, options, script);
    let page = match page_of(alloc, options, script) {
        Ok(page) => page,
        Err(error) => {
            say_fault(&mut report, options, script, error);
            if !report.is_whole() {
                return report_failure(errors, &FAILURE_LINES, Failure::Memory);
            }
            return report_to(errors, report.as_bytes(), status_of(error));
        }
    };
    if !report.is_whole() {
        return report_failure(errors, &FAILURE_LINES, Failure::Memory);
    }
    write_page(page.as_slice(), report.as_bytes(), writer, errors)
}

/// Reads the script of the file that the arguments name, or of the reader, and writes what the arguments ask for: a
/// picture of a script of `lockmon queue`, or with `--run` of `lockmon run`, or the script with its answers and their
/// reasons. They begin with the program's name. Where they ask for the help or the version, it writes that, and reads
/// nothing. It gives the exit status: 0 where all was written; 1 where the script is refused, and 2 where the
/// arguments are, which is reported to `errors`; 3 where the file, the reader, the writer or memory failed. Where it is
/// not 0 nothing was written, but for a beginning where the writer failed.
pub fn program<F: Files + AllocGlobal, S: AsStr, R: ByteIn, W: ByteOut, E: ByteOut>(
    rt: &F,
    arguments: &[S],
    reader: &mut R,
    writer: &mut W,
    errors: &mut E,
) -> u8
    requires reader_sound { R.has_failed reader.old ≡ false }
    requires writer_sound { W.has_failed writer.old ≡ false }
    requires errors_sound { E.has_failed errors.old ≡ false }
    ensures silent { WritesOnlyWhenDone (W.has_failed writer.new) (W.written writer.old) (W.written writer.new) result }
{
    let alloc = rt.alloc();
    let options = match read_arguments(alloc, arguments) {
        Ok(options) => options,
        Err(refusal) => return refuse_arguments(alloc, refusal, &FAILURE_LINES, writer, errors),
    };
    match read_script(rt, &options.file, reader, errors) {
        Ok(script) => answer(alloc, &options, script.as_slice(), writer, errors),
        Err(status) => status,
    }
}
