//! Programs in a recorded script.
ghost use Rattle.std.specs.Prelude.{◌≡◌, ◌++◌, OnOk};
ghost use Rattle.program_files.specs.Recorded.{programs_text};

use crate::files::ProgramFile;
use crate::names::is_image_name;
use program_shell::PendingText;
use run_record::{Unquotable, push_program, unquotable_line};
use source_labels::Program;
use std::alloc::AllocError;
use std::fmt;

/// Why a program cannot be in a script of `lockmon run`.
#[derive(Clone, Copy)]
pub enum NotRecorded<'a> {
    /// This file is a core image.
    Image(&'a str),
    /// The line of this file and number cannot.
    Line(&'a str, usize, Unquotable),
}

impl fmt::Display for NotRecorded<'_> {
    fn fmt<W: fmt::Write>(&self, f: &mut fmt::Formatter<W>) -> fmt::Result {
        match self {
            NotRecorded::Image(file) => write!(
                f,
                "{file}: not recorded: a script has no core images, but `image source` writes a source from one"
            ),
            NotRecorded::Line(file, number, reason) => {
                write!(f, "{file}:{number}: not recorded: the line {reason}")
            }
        }
    }
}

/// Why a program cannot be in a script, if it cannot: by its file, and by the source that was written in place of the file's, if one
/// was.
pub fn not_recorded<'a>(
    file: &'a ProgramFile<'_>,
    written: &Option<Vec<u8>>,
) -> Option<NotRecorded<'a>> {
    let name = file.source.file;
    if is_image_name(name) {
        return Some(NotRecorded::Image(name));
    }
    let text = match written {
        Some(written) => written.as_slice(),
        None => file.source.text.as_slice(),
    };
    let line = unquotable_line(text)?;
    let (file, number) = match written {
        Some(_) => (name, line.number),
        None => file.spot(line.number),
    };
    Some(NotRecorded::Line(file, number, line.reason))
}

/// Whether programs can all be in a script; reports of each that cannot why.
pub fn are_recordable(
    files: &[ProgramFile<'_>],
    programs: &[Program<'_>],
    report: &mut PendingText,
) -> bool {
    let alloc = report.alloc;
    let mut are_recordable = true;
    for (file, program) in files.iter().zip(programs) {
        if let Some(refusal) = not_recorded(file, &program.written) {
            report.say_made(format!(in alloc; "{refusal}\n"));
            are_recordable = false;
        }
    }
    are_recordable
}

/// Adds the sources that programs stand for, numbered from 1.
pub fn push_programs(
    script: &mut Vec<u8>,
    files: &[ProgramFile<'_>],
    programs: &[Program<'_>],
) -> Result<(), AllocError>
    ensures { OnOk result (script.new.items ≡ script.old.items ++ programs_text 1 files.now programs.now) }
{
    let mut number = 1u8;
    for i in 0..files.len().min(programs.len()) {
        let file = &files[i].source;
        let text = programs[i].source_for(file.text.as_slice());
        push_program(script, number, file.file, text)?;
        number = number.saturating_add(1);
    }
    Ok(())
}
