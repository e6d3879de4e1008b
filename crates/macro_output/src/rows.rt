//! The rows of a listing as text.
ghost use Rattle.std.specs.Prelude.{◌≡◌, ◌++◌, ◌≤◌, OnOk, take, drop, length, replicate, codes};
ghost use Rattle.std.specs.List.{flat_map};
ghost use Rattle.macro_output.specs.Rows.{blank_before, number_text, row_text, columns, is_end_blank, without_end, line_text};
ghost use Rattle.macro_output.specs.Rows.{own_line, rows_text};

use macro_state::Row;
use script_io::{push_decimal, push_word};
use std::alloc::AllocError;
use word36::{Word, octal_digits};

/// Adds a blank where a number has no digit of this worth.
fn push_blank(out: &mut Vec<u8>, number: u32, worth: u32) -> Result<(), AllocError>
    ensures { OnOk result (out.new.items ≡ out.old.items ++ blank_before number worth) }
{
    if number < worth {
        out.push(b' ')?;
    }
    Ok(())
}

/// Adds a blank for each of these worths of which a number has no digit.
fn push_blanks(out: &mut Vec<u8>, number: u32, worths: &[u32]) -> Result<(), AllocError>
    ensures { OnOk result (out.new.items ≡ out.old.items ++ flat_map (blank_before number) worths.now) }
{
    for worth in worths {
        push_blank(out, number, *worth)?;
    }
    Ok(())
}

/// Adds a number in decimal, in five columns or more.
#[tactic(auto, using(std::proofs::Common::append_assoc))]
fn push_number(out: &mut Vec<u8>, number: u32) -> Result<(), AllocError>
    ensures { OnOk result (out.new.items ≡ out.old.items ++ number_text number) }
{
    push_blanks(out, number, &[10_000, 1_000, 100, 10])?;
    push_decimal(out, number)
}

/// Adds the columns before the text of a line, with a mark behind its number.
#[tactic(auto, using(std::proofs::Common::append_assoc))]
fn push_columns(
    out: &mut Vec<u8>,
    number: Option<u32>,
    mark: u8,
    row: Option<Row>,
) -> Result<(), AllocError>
    ensures { OnOk result (out.new.items ≡ out.old.items ++ columns number mark row) }
{
    match number {
        Some(number) => push_number(out, number)?,
        None => out.extend_from_slice(b"     ")?,
    }
    out.push(mark)?;
    match row {
        Some(row) => push_row(out, row.place, row.word)?,
        None => push_row(out, None, None)?,
    }
    out.extend_from_slice(b"  ")?;
    Ok(())
}

/// Adds a place and a word, or blanks for what is not there.
#[tactic(auto, using(std::proofs::Common::append_assoc))]
fn push_row(out: &mut Vec<u8>, place: Option<u32>, word: Option<Word>) -> Result<(), AllocError>
    ensures { OnOk result (out.new.items ≡ out.old.items ++ row_text place word) }
{
    match place {
        Some(place) => out.extend_from_slice(&octal_digits::<6>(u64::from(place)))?,
        None => out.extend_from_slice(b"      ")?,
    }
    out.push(b' ')?;
    match word {
        Some(word) => push_word(out, word)?,
        None => out.extend_from_slice(b"              ")?,
    }
    Ok(())
}

/// Whether a character is left out at the end of a line.
fn is_end_blank(character: u8) -> bool
    ensures { result ≡ is_end_blank character }
{
    character == b' ' || character == b'\t' || character == b'\r'
}

/// Where a line ends without the blanks at its end.
fn end_of(line: &[u8]) -> usize
    ensures within { result ≤ length line.now }
    ensures text { take result line.now ≡ without_end line.now }
{
    let mut end = 0;
    for (index, character) in line.iter().enumerate() {
        if !is_end_blank(*character) {
            end = index + 1;
        }
    }
    end
}

/// Ends the line that begins at this index, without the blanks at its end.
fn end_line(out: &mut Vec<u8>, start: usize) -> Result<(), AllocError>
    requires { start ≤ length out.old.items }
    ensures { OnOk result (out.new.items ≡ take start out.old.items ++ (without_end (drop start out.old.items) ++ codes "\n")) }
{
    let (_, line) = out.as_slice().split_at(start);
    let end = start + end_of(line);
    out.truncate(end);
    out.push(b'\n')?;
    Ok(())
}

/// Adds a `+` for each text that a line is in.
fn push_depth(out: &mut Vec<u8>, depth: u32) -> Result<(), AllocError>
    ensures { OnOk result (out.new.items ≡ out.old.items ++ replicate depth 43) }
{
    for _ in 0..depth {
        out.push(b'+')?;
    }
    Ok(())
}

/// Adds a line of the listing: its columns, a `+` for each text that it is in, and its text.
fn push_line(
    out: &mut Vec<u8>,
    number: Option<u32>,
    mark: u8,
    row: Option<Row>,
    depth: u32,
    text: &[u8],
) -> Result<(), AllocError>
    ensures { OnOk result (out.new.items ≡ out.old.items ++ line_text number mark row depth text.now) }
{
    let start = out.len();
    push_columns(out, number, mark, row)?;
    push_depth(out, depth)?;
    out.extend_from_slice(text)?;
    end_line(out, start)
}

/// Adds rows, each alone on a line.
fn push_other_rows(out: &mut Vec<u8>, rows: &[Row]) -> Result<(), AllocError>
    ensures { OnOk result (out.new.items ≡ out.old.items ++ flat_map own_line rows.now) }
{
    for row in rows {
        push_line(out, None, b' ', Some(*row), 0, b"")?;
    }
    Ok(())
}

/// Adds a line: the first row with its number, the mark behind that, and its text, and the rows behind it, each alone.
#[tactic(auto, using(std::proofs::Common::append_assoc))]
pub fn push_rows(
    out: &mut Vec<u8>,
    number: Option<u32>,
    mark: u8,
    rows: &[Row],
    depth: u32,
    text: &[u8],
) -> Result<(), AllocError>
    ensures { OnOk result (out.new.items ≡ out.old.items ++ rows_text number mark rows.now depth text.now) }
{
    match rows {
        [] => push_line(out, number, mark, None, depth, text),
        [first, others @ ..] => {
            push_line(out, number, mark, Some(*first), depth, text)?;
            push_other_rows(out, others)
        }
    }
}
