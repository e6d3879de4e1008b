//! A run as a script.
ghost use Rattle.std.specs.Prelude.{◌≡◌, ◌<◌, ◌++◌, codes, take, OnOk};
ghost use Rattle.std.specs.List.{flat_map};
ghost use Rattle.script_io.specs.Printing.{printed, printed_character};
ghost use Rattle.run_record.specs.Scripts.{end_text, ended, counted, head_text, last_end, program_name, program_text, remark, run_lines, step_lines, text_of, text_in};

use crate::pieces::Piece;
use script_io::{push_decimal, push_escaped};
use std::alloc::AllocError;
use tty_lines::Char7;

/// The most bytes of a file's name that are written in a remark.
const MOST_NAMED: usize = 200;

/// Adds some words and a number.
fn push_number(out: &mut Vec<u8>, words: &[u8], number: u32) -> Result<(), AllocError>
    ensures { OnOk result (out.new.items ≡ out.old.items ++ counted words.now number) }
{
    out.extend_from_slice(words)?;
    push_decimal(out, number)
}

/// Adds a command with a number, and the end of its line.
fn push_counted(out: &mut Vec<u8>, name: &[u8], number: u32) -> Result<(), AllocError>
    ensures { OnOk result (out.new.items ≡ out.old.items ++ ended (counted name.now number)) }
{
    push_number(out, name, number)?;
    out.push(b'\n')?;
    Ok(())
}

/// Adds LOGIN.
fn push_login(out: &mut Vec<u8>, line: u8, program: u8) -> Result<(), AllocError>
    ensures { OnOk result
        (out.new.items ≡ out.old.items ++ ended (counted (codes "LOGIN ") line ++ codes " " ++ program_name program)) }
{
    out.extend_from_slice(b"LOGIN ")?;
    push_decimal(out, line)?;
    out.extend_from_slice(b" P")?;
    push_decimal(out, program)?;
    out.push(b'\n')?;
    Ok(())
}

/// Adds a character as TYPE spells it.
fn push_character(out: &mut Vec<u8>, character: u8) -> Result<(), AllocError>
    requires { character < 128 }
    ensures { OnOk result (out.new.items ≡ out.old.items ++ printed_character character) }
{
    match character {
        b'\n' => out.extend_from_slice(b"\\n")?,
        b'\r' => out.extend_from_slice(b"\\r")?,
        0o33 => out.extend_from_slice(b"\\e")?,
        b'\\' => out.extend_from_slice(b"\\\\")?,
        0..=0o37 | 0o177 => return push_escaped(out, character),
        _ => out.push(character)?,
    }
    Ok(())
}

/// Adds characters as TYPE spells them.
fn push_text(out: &mut Vec<u8>, text: &[Char7]) -> Result<(), AllocError>
    ensures { OnOk result (out.new.items ≡ out.old.items ++ printed text.now) }
{
    for character in text {
        push_character(out, character.number())?;
    }
    Ok(())
}

/// Adds TYPE.
fn push_typed(out: &mut Vec<u8>, line: u8, text: &[Char7]) -> Result<(), AllocError>
    ensures { OnOk result
        (out.new.items ≡ out.old.items ++ ended (counted (codes "TYPE ") line ++ codes " " ++ printed text.now)) }
{
    out.extend_from_slice(b"TYPE ")?;
    push_decimal(out, line)?;
    out.push(b' ')?;
    push_text(out, text)?;
    out.push(b'\n')?;
    Ok(())
}

/// Adds RUN, where there are rounds, and STEP, where there is one step more.
fn push_rounds(out: &mut Vec<u8>, rounds: u32, stepped: bool) -> Result<(), AllocError>
    ensures { OnOk result
        (out.new.items ≡ out.old.items ++ flat_map ended (run_lines rounds ++ step_lines stepped)) }
{
    if rounds > 0 {
        push_counted(out, b"RUN ", rounds)?;
    }
    if stepped {
        out.extend_from_slice(b"STEP 1\n")?;
    }
    Ok(())
}

/// Adds the lines of a piece of a run.
fn push_piece(out: &mut Vec<u8>, piece: &Piece) -> Result<(), AllocError>
    ensures { OnOk result (out.new.items ≡ out.old.items ++ text_of piece.now) }
{
    match piece {
        Piece::Login(line, program) => push_login(out, *line, *program),
        Piece::Start(job) => push_counted(out, b"START ", u32::from(*job)),
        Piece::Continue(job) => push_counted(out, b"CONTINUE ", u32::from(*job)),
        Piece::Kill(job) => push_counted(out, b"KILL ", u32::from(*job)),
        Piece::Restart => {
            out.extend_from_slice(b"RESTART\n")?;
            Ok(())
        }
        Piece::Rounds(rounds, stepped) => push_rounds(out, *rounds, *stepped),
        Piece::Ticks(ticks) => push_counted(out, b"TICK ", *ticks),
        Piece::Typed(line, text) => push_typed(out, *line, text.as_slice()),
        Piece::Take(line) => push_counted(out, b"TAKE ", u32::from(*line)),
    }
}

/// Adds the lines of pieces of a run, in order. It fails only where there is no memory, as all of these do.
pub fn push_pieces(out: &mut Vec<u8>, pieces: &[Piece]) -> Result<(), AllocError>
    ensures { OnOk result (out.new.items ≡ out.old.items ++ text_in pieces.now) }
{
    for piece in pieces {
        push_piece(out, piece)?;
    }
    Ok(())
}

/// Adds a remark with the command that obeys the script: a machine of so many blocks and a quantum of so many ticks.
pub fn push_head(out: &mut Vec<u8>, blocks: u32, quantum: u8) -> Result<(), AllocError>
    ensures { OnOk result (out.new.items ≡ out.old.items ++ head_text blocks quantum) }
{
    push_number(out, b"; lockmon run --blocks ", blocks)?;
    push_number(out, b" --quantum ", u32::from(quantum))?;
    out.push(b'\n')?;
    Ok(())
}

/// As much of a file's name as is written in a remark.
#[tactic(auto, using(std::proofs::lemmas::List::take_min))]
fn named(name: &[u8]) -> &[u8]
    ensures { result.now ≡ take 200 name.now }
{
    &name[..MOST_NAMED.min(name.len())]
}

/// Adds a remark with the name of a file.
fn push_remark(out: &mut Vec<u8>, name: &[u8]) -> Result<(), AllocError>
    ensures { OnOk result (out.new.items ≡ out.old.items ++ remark name.now) }
{
    let name = named(name);
    out.extend_from_slice(b"; ")?;
    out.extend_from_slice(name)?;
    out.push(b'\n')?;
    Ok(())
}

/// Adds a line end, where a text does not end with one.
fn push_last_end(out: &mut Vec<u8>, text: &[u8]) -> Result<(), AllocError>
    ensures { OnOk result (out.new.items ≡ out.old.items ++ last_end text.now) }
{
    if !text.ends_with(b"\n") {
        out.push(b'\n')?;
    }
    Ok(())
}

/// Adds a source, whose lines can stand in a script, as the program of this number; a remark has the name of its file, as a
/// line for a person shows it.
#[tactic(auto, using(std::proofs::Common::append_assoc))]
pub fn push_program(
    out: &mut Vec<u8>,
    program: u8,
    file: &str,
    text: &[u8],
) -> Result<(), AllocError>
    ensures { OnOk result (out.new.items ≡ out.old.items ++ program_text program file.now text.now) }
{
    push_remark(out, file.as_bytes())?;
    push_counted(out, b"ASSEMBLE P", u32::from(program))?;
    out.extend_from_slice(text)?;
    push_last_end(out, text)?;
    out.extend_from_slice(b"ENDASM\n")?;
    Ok(())
}

/// Adds what shows how the jobs and the locks stand at the end.
pub fn push_end(out: &mut Vec<u8>) -> Result<(), AllocError>
    ensures { OnOk result (out.new.items ≡ out.old.items ++ end_text) }
{
    out.extend_from_slice(b"SHOW JOBS\nSHOW LOCKS\nSHOW WAITS\n")?;
    Ok(())
}
