//! What sources have that is not here.
ghost use Rattle.std.specs.Prelude.{◌≡◌, false, IfOk};

use crate::arguments::Options;
use crate::serving::{FAILURE_LINES, add_files, write_text};
use joined_files::{Joined, push_names};
use macro_assembly::assemble_up_to;
use macro_faults::{Fault, push_words};
use macro_names::{Name, text_of};
use macro_operations::of_others;
use program_shell::{Failure, read_input, report_failure};
use script_io::{ByteIn, ByteOut, push_decimal};
use std::alloc::{AllocError, Global};
use std::rt::Files;

/// How many faults of a source are counted.
const MOST_COUNTED: usize = 20_000;

/// Something that is not here.
#[derive(Drop)]
struct Construct {
    /// Its name; that of no name for what has none.
    name: Name,
    /// How often sources have it.
    count: u32,
    /// What is said of it.
    words: Vec<u8>,
}

/// What is counted.
#[derive(Drop)]
pub struct Counts {
    alloc: Global,
    constructs: Vec<Construct>,
    /// Whether operations and calls of other machines and other monitors are assembled.
    takes_others: bool,
    /// Faults that say that something is wrong, and not that it is not here.
    others: u32,
}

/// The order in which constructs are written: the most frequent first, and then by name.
#[derive(Clone, Copy, PartialEq, Eq, PartialOrd, Ord)]
struct Rank {
    rarity: u32,
    name: u64,
    index: usize,
}

/// The name of what a fault says is not here; None for a fault that says something else.
fn absent_name(fault: Fault) -> Option<Name> {
    match fault {
        Fault::NotDefined(name) | Fault::NotSearched(name) | Fault::LeftOut(name, _, _) => Some(
            name,
        ),
        Fault::Refused(name) | Fault::Linking(name, _) | Fault::Segments(name) => Some(name),
        Fault::Universal(name) | Fault::NoFile(name) => Some(name),
        Fault::Scaled => Some(Name::of(b"^F")),
        _ => None,
    }
}

/// The words after a name that `--all-operations` takes.
const TAKEN: &[u8] = b" (--all-operations takes it)";

impl Counts {
    /// Nothing yet. If `takes_others`, operations and calls of other machines and other monitors are not counted.
    pub fn new(alloc: Global, takes_others: bool) -> Counts {
        Counts {
            alloc,
            constructs: Vec::new(alloc),
            takes_others,
            others: 0,
        }
    }

    /// Counts a fault of a line of a source.
    fn add(&mut self, fault: Fault, source: &[u8], line: u32) -> Result<(), AllocError> {
        let Some(name) = absent_name(fault) else {
            self.others = self.others.saturating_add(1);
            return Ok(());
        };
        for construct in self.constructs.as_mut_slice() {
            if construct.name == name {
                construct.count = construct.count.saturating_add(1);
                return Ok(());
            }
        }
        let mut words = Vec::new(self.alloc);
        push_words(&mut words, fault, source, line)?;
        if matches!(&fault, Fault::LeftOut(_, _, _))
            && of_others(text_of(name).as_slice()).is_some()
        {
            words.extend_from_slice(TAKEN)?;
        }
        self.constructs.push(Construct {
            name,
            count: 1,
            words,
        })?;
        Ok(())
    }

    /// Counts what a source has.
    pub fn add_source(&mut self, source: &[u8]) -> Result<(), AllocError> {
        let state = assemble_up_to(self.alloc, source, self.takes_others, MOST_COUNTED)?;
        for report in &state.faults {
            self.add(report.fault, source, report.place.line)?;
        }
        Ok(())
    }

    /// The constructs in the order in which they are written.
    fn ranks(&self) -> Result<Vec<Rank>, AllocError> {
        let mut ranks = Vec::new(self.alloc);
        for (index, construct) in self.constructs.as_slice().iter().enumerate() {
            ranks.push(Rank {
                rarity: u32::MAX - construct.count,
                name: construct.name.sixbit(),
                index,
            })?;
        }
        ranks.sort()?;
        Ok(ranks)
    }

    /// The lines of the survey.
    pub fn text(&self) -> Result<Vec<u8>, AllocError> {
        let mut out = Vec::new(self.alloc);
        for rank in &self.ranks()? {
            if let Some(construct) = self.constructs.as_slice().get(rank.index) {
                push_count(&mut out, construct.count)?;
                out.extend_from_slice(construct.words.as_slice())?;
                out.push(b'\n')?;
            }
        }
        if self.others > 0 {
            push_count(&mut out, self.others)?;
            out.extend_from_slice(b"of other kinds, which macro FILE lists\n")?;
        } else if self.constructs.is_empty() {
            out.extend_from_slice(b"nothing is missing\n")?;
        }
        Ok(out)
    }
}

/// Adds a number in five columns or more, and a blank.
fn push_count(out: &mut Vec<u8>, count: u32) -> Result<(), AllocError> {
    for worth in [10_000u32, 1_000, 100, 10] {
        if count < worth {
            out.push(b' ')?;
        }
    }
    push_decimal(out, count)?;
    out.push(b' ')?;
    Ok(())
}

/// Counts what the source of an argument has; or gives the exit status where it cannot be read, which is reported.
fn count_argument<F: Files + AllocGlobal, E: ByteOut>(
    rt: &F,
    argument: &str,
    counts: &mut Counts,
    errors: &mut E,
) -> Result<(), u8>
    requires { E.has_failed errors.old ≡ false }
    ensures sound { IfOk result (λ _. E.has_failed errors.new ≡ false) }
{
    let mut names = Vec::new(rt.alloc());
    let mut source = Joined::new(rt.alloc());
    if push_names(&mut names, argument).is_err() {
        return Err(report_failure(errors, &FAILURE_LINES, Failure::Memory));
    }
    add_files(rt, names.as_slice(), &mut source, errors)?;
    match counts.add_source(source.text.as_slice()) {
        Ok(()) => Ok(()),
        Err(_) => Err(report_failure(errors, &FAILURE_LINES, Failure::Memory)),
    }
}

/// Counts what sources have, one of each argument, or that of the reader where there is no argument; or gives the exit status
/// where one cannot be read, which is reported.
fn count_all<F: Files + AllocGlobal, R: ByteIn, E: ByteOut>(
    rt: &F,
    arguments: &[&str],
    counts: &mut Counts,
    reader: &mut R,
    errors: &mut E,
) -> Result<(), u8>
    requires reader_sound { R.has_failed reader.old ≡ false }
    requires errors_sound { E.has_failed errors.old ≡ false }
    ensures sound { IfOk result (λ _. E.has_failed errors.new ≡ false) }
{
    if arguments.is_empty() {
        let text = read_input(rt.alloc(), reader, usize::MAX, &FAILURE_LINES, errors)?;
        if counts.add_source(text.as_slice()).is_err() {
            return Err(report_failure(errors, &FAILURE_LINES, Failure::Memory));
        }
    }
    for argument in arguments {
        count_argument(rt, argument, counts, errors)?;
    }
    Ok(())
}

/// Writes what sources have that is not here, the most frequent first, and how often; gives the exit status. Each argument is a
/// source, of one file or several; without arguments the reader has it.
pub fn survey<F: Files + AllocGlobal, R: ByteIn, W: ByteOut, E: ByteOut>(
    rt: &F,
    options: &Options<'_>,
    reader: &mut R,
    writer: &mut W,
    errors: &mut E,
) -> u8
    requires reader_sound { R.has_failed reader.old ≡ false }
    requires writer_sound { W.has_failed writer.old ≡ false }
    requires errors_sound { E.has_failed errors.old ≡ false }
{
    let mut counts = Counts::new(rt.alloc(), options.takes_others);
    let arguments = options.arguments.as_slice();
    if let Err(status) = count_all(rt, arguments, &mut counts, reader, errors) {
        return status;
    }
    match counts.text() {
        Ok(text) => write_text(writer, text.as_slice(), errors),
        Err(_) => report_failure(errors, &FAILURE_LINES, Failure::Memory),
    }
}
