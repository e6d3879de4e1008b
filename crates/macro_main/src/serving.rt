//! The whole program over any ports.
ghost use Rattle.std.specs.Prelude.{◌≡◌, ◌⊎◌, ℕ, false, List, IfErr, IfOk, IsErr, IsTrue};
ghost use Rattle.std.specs.Io.KnownBytes.{Appends};
ghost use Rattle.mac_asm.specs.Outcome.{outcome_of};
ghost use Rattle.macro_output.specs.Plain.{IsPlain};
ghost use Rattle.program_shell.specs.declared.statuses.TheConstants.{DONE, FAILED, REFUSED};
ghost use Rattle.macro_main.specs.Answers.{Answers, HasWords, IsRefusal, HasAnswer, text_bytes};

use crate::arguments::{Options, read_arguments};
use crate::survey::survey;
use joined_files::{Joined, end_line, unread_text};
use macro_assembly::assemble;
use macro_output::{
    Plain, Written, plain_source, push_cross, push_faults, push_listing, push_warnings, source_of,
};
use macro_state::Assembly;
use program_shell::{
    DONE, FAILED, Failure, FailureLines, REFUSED, file_error_text, read_file, read_input,
    refuse_arguments, report_failure, report_to, write_whole,
};
use script_io::{ByteIn, ByteOut, write_all};
use shown_bytes::shown_text;
use std::alloc::{AllocError, Global};
use std::convert::AsStr;
use std::io;
use std::rt::Files;

/// The lines by which the program reports a failure.
pub const FAILURE_LINES: FailureLines = FailureLines {
    read: b"macro: read\n",
    write: b"macro: write\n",
    memory: b"macro: memory\n",
};

/// The line where the words of a source are not those that are read back, or not those that its listing shows, or both
/// assemblers take it and write other texts.
const NOT_READ_BACK: &[u8] =
    b"macro: a fault of this program: what it wrote or listed is not the words of the source\n";

/// The line where a listing or a cross-reference is wanted of a source of the subset that MACRO-10 refuses, as where a place goes
/// above all addresses and comes back.
const NOT_LISTED: &[u8] =
    b"macro: MACRO-10 refuses this source, which is one of the subset: leave out --list and --cross\n";

/// What is written of a source.
#[derive(Drop)]
struct Output {
    /// For standard output.
    text: Text,
    /// The listing, if it is wanted.
    listing: Option<Vec<u8>>,
    /// The cross-reference, if it is wanted and the source is not refused.
    cross: Option<Vec<u8>>,
}

/// What goes to standard output for a source.
#[derive(Drop)]
enum Text {
    /// The source of its words, which assembles to them.
    Words(Written),
    /// What is wrong with its source.
    Errors(Vec<u8>),
    /// The source that was written for its words assembles to other ones, or is not the one that is written for it as a source
    /// of the subset.
    NotReadBack,
    /// The source is one of the subset, and MACRO-10 refuses it, so that there is nothing to list.
    NotListed,
}

impl Text {
    fn as_bytes(&self) -> &[u8]
        ensures { result.now ≡ text_bytes self.now }
    {
        match self {
            Text::Words(written) => written.text.as_slice(),
            Text::Errors(text) => text.as_slice(),
            Text::NotReadBack | Text::NotListed => b"",
        }
    }
}

/// The source of the words of an assembly, or what is wrong with it.
fn assembled_text(alloc: Global, state: &Assembly, source: &Joined) -> Result<Text, AllocError> {
    if !state.faults.is_empty() {
        let mut text = Vec::new(alloc);
        push_faults(&mut text, state, source.text.as_slice(), source.several())?;
        return Ok(Text::Errors(text));
    }
    match source_of(state, source.text.as_slice())? {
        Some(written) => Ok(Text::Words(written)),
        None => Ok(Text::NotReadBack),
    }
}

/// Whether the source of the words of the assembly of a source is this text.
fn is_text_of(state: &Assembly, source: &[u8], text: &[u8]) -> Result<bool, AllocError> {
    match source_of(state, source)? {
        Some(written) => Ok(written.text.as_slice() == text),
        None => Ok(false),
    }
}

/// What goes to standard output for a source that is assembled. `plain` is what the subset assembler made of the same source.
fn text_of(
    alloc: Global,
    state: &Assembly,
    source: &Joined,
    plain: Plain,
) -> Result<Text, AllocError>
    ensures { IfOk result (λ text. IsPlain source.now.text.items plain → Answers source.now.text.items text) }
{
    match plain {
        Plain::NotInSubset => assembled_text(alloc, state, source),
        Plain::Written(_) if !state.faults.is_empty() => Ok(Text::NotListed),
        Plain::Written(written) => {
            if is_text_of(state, source.text.as_slice(), written.text.as_slice())? {
                Ok(Text::Words(written))
            } else {
                Ok(Text::NotReadBack)
            }
        }
        Plain::NotReadBack => Ok(Text::NotReadBack),
    }
}

/// The listing of a source.
fn listing_of(alloc: Global, state: &Assembly, source: &Joined) -> Result<Vec<u8>, AllocError> {
    let mut text = Vec::new(alloc);
    push_listing(&mut text, state, source.text.as_slice(), source.several())?;
    Ok(text)
}

/// The cross-reference of an assembly.
fn cross_of(alloc: Global, state: &Assembly, source: &Joined) -> Result<Vec<u8>, AllocError> {
    let mut text = Vec::new(alloc);
    push_cross(&mut text, state, source.several())?;
    Ok(text)
}

/// What is written of a source that is assembled. `plain` is what the subset assembler made of the same source.
fn output_of(
    alloc: Global,
    options: &Options<'_>,
    state: &Assembly,
    source: &Joined,
    plain: Plain,
) -> Result<Output, AllocError>
    requires { IsPlain source.now.text.items plain }
    ensures { IfOk result (λ output. Answers source.now.text.items output.text) }
{
    let text = text_of(alloc, state, source, plain)?;
    let is_refused = !state.faults.is_empty();
    let listing = if options.list.is_some() {
        Some(listing_of(alloc, state, source)?)
    } else {
        None
    };
    let cross = if options.cross.is_some() && !is_refused {
        Some(cross_of(alloc, state, source)?)
    } else {
        None
    };
    Ok(Output {
        text,
        listing,
        cross,
    })
}

/// Reports why a file cannot be written, and gives the exit status.
fn report_file<E: ByteOut>(alloc: Global, file: &str, error: io::Error, errors: &mut E) -> u8
    requires { E.has_failed errors.old ≡ false }
    ensures { result ≡ FAILED }
{
    match file_error_text(alloc, "macro: ", file, error) {
        Ok(text) => report_to(errors, text.as_str().as_bytes(), FAILED),
        Err(_) => report_failure(errors, &FAILURE_LINES, Failure::Memory),
    }
}

/// Adds a file to a source, as lines for a person show its name; or gives the exit status where there is no memory, which is
/// reported.
fn add_file<E: ByteOut>(
    alloc: Global,
    source: &mut Joined,
    file: &str,
    text: &[u8],
    errors: &mut E,
) -> Result<(), u8>
    requires { E.has_failed errors.old ≡ false }
    ensures sound { IfOk result (λ _. E.has_failed errors.new ≡ false) }
{
    let added = match shown_text(alloc, file.as_bytes()) {
        Ok(name) => source.add(alloc, name.as_str(), text),
        Err(error) => Err(error),
    };
    match added {
        Ok(()) => Ok(()),
        Err(_) => Err(report_failure(errors, &FAILURE_LINES, Failure::Memory)),
    }
}

/// Adds files to a source; or gives the exit status where one cannot be read, which is reported.
pub fn add_files<F: Files + AllocGlobal, E: ByteOut>(
    rt: &F,
    files: &[&str],
    source: &mut Joined,
    errors: &mut E,
) -> Result<(), u8>
    requires { E.has_failed errors.old ≡ false }
    ensures sound { IfOk result (λ _. E.has_failed errors.new ≡ false) }
{
    for file in files {
        let text = read_file(rt, "macro: ", file, &FAILURE_LINES, errors)?;
        add_file(rt.alloc(), source, file, text.as_slice(), errors)?;
    }
    Ok(())
}

/// The source of the files, if any are named, or of the reader; or the exit status where it cannot be read, which is
/// reported.
fn read_source<F: Files + AllocGlobal, R: ByteIn, E: ByteOut>(
    rt: &F,
    files: &[&str],
    reader: &mut R,
    errors: &mut E,
) -> Result<Joined, u8>
    requires reader_sound { R.has_failed reader.old ≡ false }
    requires errors_sound { E.has_failed errors.old ≡ false }
    ensures { IfOk result (λ _. E.has_failed errors.new ≡ false) }
{
    let mut source = Joined::new(rt.alloc());
    if files.is_empty() {
        source.text = read_input(rt.alloc(), reader, usize::MAX, &FAILURE_LINES, errors)?;
    } else {
        add_files(rt, files, &mut source, errors)?;
    }
    Ok(source)
}

/// Reports which files of a source are not read, whose END is on this line, if it has one.
fn report_unread<E: ByteOut>(alloc: Global, source: &Joined, end: usize, errors: &mut E) -> bool
    requires { E.has_failed errors.old ≡ false }
    ensures { IsTrue result → E.has_failed errors.new ≡ false }
{
    match unread_text(alloc, source.several(), end) {
        Ok(text) => write_all(errors, text.as_str().as_bytes()).is_ok(),
        Err(_) => false,
    }
}

/// Reports each use of an operation or a call of another machine or another monitor, if the source is not refused.
fn report_others<E: ByteOut>(state: &Assembly, source: &Joined, errors: &mut E) -> bool
    requires { E.has_failed errors.old ≡ false }
    ensures { IsTrue result → E.has_failed errors.new ≡ false }
{
    if !state.faults.is_empty() {
        return true;
    }
    let mut text = Vec::new(state.alloc);
    let (lines, parts) = (source.text.as_slice(), source.parts.as_slice());
    match push_warnings(&mut text, state, lines, parts) {
        Ok(()) => write_all(errors, text.as_slice()).is_ok(),
        Err(_) => {
            let _status = report_failure(errors, &FAILURE_LINES, Failure::Memory);
            false
        }
    }
}

/// Writes a text to a file, where there is one and it is wanted; or gives the exit status where that fails, which is
/// reported.
fn write_file<F: Files + AllocGlobal, E: ByteOut>(
    rt: &F,
    file: Option<&str>,
    text: &Option<Vec<u8>>,
    errors: &mut E,
) -> Result<(), u8>
    requires { E.has_failed errors.old ≡ false }
    ensures sound { IfOk result (λ _. E.has_failed errors.new ≡ false) }
    ensures unwritten { IfErr result (λ status. status ≡ FAILED) }
{
    let (Some(file), Some(text)) = (file, text) else {
        return Ok(());
    };
    match write_whole(rt, file, text.as_slice()) {
        Ok(()) => Ok(()),
        Err(error) => Err(report_file(rt.alloc(), file, error, errors)),
    }
}

/// Writes a text to the output. Gives `DONE`, or `FAILED` where the output failed, which is reported.
pub fn write_text<W: ByteOut, E: ByteOut>(writer: &mut W, text: &[u8], errors: &mut E) -> u8
    requires writer_sound { W.has_failed writer.old ≡ false }
    requires errors_sound { E.has_failed errors.old ≡ false }
    ensures status { (result ≡ DONE) ⊎ (result ≡ FAILED) }
    ensures written { result ≡ DONE → Appends (W.written writer.old) (W.written writer.new) text.now }
{
    match write_all(writer, text) {
        Ok(()) => DONE,
        Err(_) => report_failure(errors, &FAILURE_LINES, Failure::Write),
    }
}

/// Writes the listing and the cross-reference to their files, and then what goes to the output; gives the exit status.
fn write_all_of<F: Files + AllocGlobal, W: ByteOut, E: ByteOut>(
    rt: &F,
    options: &Options<'_>,
    output: &Output,
    writer: &mut W,
    errors: &mut E,
) -> u8
    requires writer_sound { W.has_failed writer.old ≡ false }
    requires errors_sound { E.has_failed errors.old ≡ false }
    ensures written { result ≡ DONE → HasWords output.now.text (W.written writer.old) (W.written writer.new) }
    ensures refused { result ≡ REFUSED → IsRefusal output.now.text }
{
    match &output.text {
        Text::Words(_) | Text::Errors(_) => (),
        Text::NotReadBack => return report_to(errors, NOT_READ_BACK, FAILED),
        Text::NotListed => return report_to(errors, NOT_LISTED, FAILED),
    }
    if let Err(status) = write_file(rt, options.list, &output.listing, errors) {
        return status;
    }
    if let Err(status) = write_file(rt, options.cross, &output.cross, errors) {
        return status;
    }
    let status = write_text(writer, output.text.as_bytes(), errors);
    match output.text {
        Text::Errors(_) if status == DONE => REFUSED,
        _ => status,
    }
}

/// Writes what the options ask for of a source that is assembled; gives the exit status. `plain` is what the subset assembler made
/// of the same source.
/// The lines of PRINTX go to `errors` first.
#[tactic(auto, using(crate::proofs::Words::has_answer, crate::proofs::Words::has_no_image))]
fn answer_with<F: Files + AllocGlobal, W: ByteOut, E: ByteOut>(
    rt: &F,
    options: &Options<'_>,
    state: &Assembly,
    source: &Joined,
    plain: Plain,
    writer: &mut W,
    errors: &mut E,
) -> u8
    requires plain { IsPlain source.now.text.items plain }
    requires writer_sound { W.has_failed writer.old ≡ false }
    requires errors_sound { E.has_failed errors.old ≡ false }
    ensures written { result ≡ DONE → HasAnswer source.now.text.items (W.written writer.old) (W.written writer.new) }
    ensures refused { result ≡ REFUSED → IsErr (outcome_of source.now.text.items) }
{
    let Ok(output) = output_of(rt.alloc(), options, state, source, plain) else {
        return report_failure(errors, &FAILURE_LINES, Failure::Memory);
    };
    if write_all(errors, state.typed.as_slice()).is_err() {
        return FAILED;
    }
    if !report_unread(rt.alloc(), source, state.listing.last as usize, errors) {
        return FAILED;
    }
    if !report_others(state, source, errors) {
        return FAILED;
    }
    write_all_of(rt, options, &output, writer, errors)
}

/// Lets an assembly go.
fn let_go(_state: Assembly) {}

/// Assembles a source, and writes what the options ask for; gives the exit status. `plain` is what the subset assembler made of the
/// same source.
fn answer_assembled<F: Files + AllocGlobal, W: ByteOut, E: ByteOut>(
    rt: &F,
    options: &Options<'_>,
    source: &Joined,
    plain: Plain,
    writer: &mut W,
    errors: &mut E,
) -> u8
    requires plain { IsPlain source.now.text.items plain }
    requires writer_sound { W.has_failed writer.old ≡ false }
    requires errors_sound { E.has_failed errors.old ≡ false }
    ensures written { result ≡ DONE → HasAnswer source.now.text.items (W.written writer.old) (W.written writer.new) }
    ensures refused { result ≡ REFUSED → IsErr (outcome_of source.now.text.items) }
{
    let Ok(state) = assemble(rt.alloc(), source.text.as_slice(), options.takes_others) else {
        return report_failure(errors, &FAILURE_LINES, Failure::Memory);
    };
    let status = answer_with(rt, options, &state, source, plain, writer, errors);
    let_go(state);
    status
}

/// Writes what the options ask for of a source; gives the exit status. It is assembled by MACRO-10 where it is not in the
/// subset, or more than its words is wanted.
fn answer<F: Files + AllocGlobal, W: ByteOut, E: ByteOut>(
    rt: &F,
    options: &Options<'_>,
    source: &Joined,
    writer: &mut W,
    errors: &mut E,
) -> u8
    requires writer_sound { W.has_failed writer.old ≡ false }
    requires errors_sound { E.has_failed errors.old ≡ false }
    ensures written { result ≡ DONE → HasAnswer source.now.text.items (W.written writer.old) (W.written writer.new) }
    ensures refused { result ≡ REFUSED → IsErr (outcome_of source.now.text.items) }
{
    match plain_source(rt.alloc(), source.text.as_slice()) {
        Ok(Plain::Written(written)) if options.list.is_none() && options.cross.is_none() => {
            if !report_unread(rt.alloc(), source, end_line(source.text.as_slice()), errors) {
                return FAILED;
            }
            write_text(writer, written.text.as_slice(), errors)
        }
        Ok(plain) => answer_assembled(rt, options, source, plain, writer, errors),
        Err(_) => report_failure(errors, &FAILURE_LINES, Failure::Memory),
    }
}

/// Reads the source of the files that the arguments name, or of the reader, and assembles it. The source of its words, or
/// what is wrong with it, goes to `writer`; the listing and the cross-reference go to the files that the arguments name for
/// them; the lines of PRINTX go to `errors`, and which files are not read. If a survey is asked for, that of the files goes to
/// `writer`, and nothing else is done. The arguments begin with the program's name. Where they ask for the help or
/// the version, it writes that, and reads nothing. It gives the exit status: 0 where all was written; 1 where the source is
/// refused, and 2 where the arguments are, which is reported to `errors`; 3 where a file, the reader, an output or memory
/// failed.
pub fn program<F: Files + AllocGlobal, S: AsStr, R: ByteIn, W: ByteOut, E: ByteOut>(
    rt: &F,
    arguments: &[S],
    reader: &mut R,
    writer: &mut W,
    errors: &mut E,
) -> u8
    requires reader_sound { R.has_failed reader.old ≡ false }
    requires writer_sound { W.has_failed writer.old ≡ false }
    requires errors_sound { E.has_failed errors.old ≡ false }
{
    let alloc = rt.alloc();
    let options = match read_arguments(alloc, arguments) {
        Ok(options) => options,
        Err(refusal) => return refuse_arguments(alloc, refusal, &FAILURE_LINES, writer, errors),
    };
    if options.survey {
        return survey(rt, &options, reader, writer, errors);
    }
    match read_source(rt, options.files.as_slice(), reader, errors) {
        Ok(source) => answer(rt, &options, &source, writer, errors),
        Err(status) => status,
    }
}
