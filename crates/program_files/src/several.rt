//! Several files, each with a program.
ghost use Rattle.std.specs.Prelude.{◌≡◌, IfSome, length};
ghost use Rattle.program_files.specs.Reads.{AreProgramsOf, IsKept, IsProgramOf};

use crate::files::ProgramFile;
use crate::programs::read_program;
use image_files::Packing;
use joined_files::{end_line, unread_text};
use program_shell::PendingText;
use source_labels::{Assembled, Program, warnings_of};
use std::alloc::{AllocError, Global};

/// Whether a file is among others, by its name.
fn is_among(file: &str, others: &[ProgramFile<'_>]) -> bool {
    others.iter().any(|other| other.source.file == file)
}

/// The lines on the files of a source of the subset that are not read. (Those of one in MACRO-10 are in what it had typed out.)
fn unread_of(
    alloc: Global,
    file: &ProgramFile<'_>,
    program: &Program<'_>,
) -> Result<String, AllocError> {
    let parts = file.parts.as_slice();
    if parts.is_empty() || program.written.is_some() {
        return Ok(String::new(alloc));
    }
    unread_text(alloc, parts, end_line(file.source.text.as_slice()))
}

/// The program of a file, or none if it is refused. Unless that was reported before, reports what its source has typed out, its
/// warnings, and what is wrong with it.
fn read_one<'a>(
    file: &ProgramFile<'a>,
    is_told: bool,
    from: Packing,
    most: usize,
    report: &mut PendingText,
) -> Option<Program<'a>>
    ensures { IfSome result (IsProgramOf from file.now) }
{
    let alloc = report.alloc;
    match read_program(alloc, file, from, most) {
        Ok(Assembled::Program(program)) => {
            if !is_told {
                report.say_made(unread_of(alloc, file, &program));
                report.add(program.typed.as_slice());
                let (image, places) = (&program.image, &program.places);
                report.say_made(warnings_of(alloc, program.file, image, places));
            }
            Some(program)
        }
        Ok(Assembled::Refused(text)) => {
            if !is_told {
                report.add(text.as_slice());
            }
            None
        }
        Err(_) => {
            report.fail();
            None
        }
    }
}

/// Adds a program, if there is one, after the others; `report` remembers it if memory runs out.
fn keep<'a>(programs: &mut Vec<Program<'a>>, program: Option<Program<'a>>, report: &mut PendingText)
    ensures { IsKept program.entry programs.old.items programs.new.items }
{
    let Some(program) = program else {
        return;
    };
    if programs.push(program).is_err() {
        report.fail();
    }
}

/// Gives the programs of files, sources and core images whose words are packed so; or none if a file is refused. Reports what
/// sources have typed out by PRINTX, warnings, and what is wrong with each file that is refused, `most` faults of each source.
/// Of a file that is named more than once this is reported once.
pub fn read_programs<'a>(
    files: &[ProgramFile<'a>],
    from: Packing,
    most: usize,
    report: &mut PendingText,
) -> Option<Vec<Program<'a>>>
    ensures length { IfSome result (λ programs. length programs.items ≡ length files.now) }
    ensures programs { IfSome result (λ programs. AreProgramsOf from files.now programs.items) }
{
    let mut programs = Vec::new(report.alloc);
    for at in 0..files.len() {
        let file = &files[at];
        let is_told = is_among(file.source.file, &files[..at]);
        let program = read_one(file, is_told, from, most, report);
        keep(&mut programs, program, report);
    }
    if programs.len() < files.len() {
        return None;
    }
    Some(programs)
}
