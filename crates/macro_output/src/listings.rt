//! The listing.
ghost use Rattle.std.specs.Prelude.{◌≡◌, ◌++◌, ℕ, nat_eq, List, [], Some, take, drop, map, OnOk, IfOk, if◌then◌else◌};
ghost use Rattle.std.specs.List.{list_any};
ghost use Rattle.macro_output.specs.Listings.{is_hidden, rows_to, part_of, have_place, is_listed, expanded_text, expanded_from};
ghost use Rattle.macro_output.specs.Listings.{texts_to, texts_behind, all_texts, lines_text, remark_text, source_rows};
ghost use Rattle.macro_output.specs.Listings.{expanded_rows, without_last_end, listing_text, AreRemarks};
ghost use Rattle.macro_output.specs.Listings.{mark_of, file_text, files_text, lines_of};
ghost use Rattle.macro_output.specs.Rows.{rows_text};

use crate::reports::{sorted_faults, spot_of};
use crate::rows::push_rows;
use joined_files::Part;
use macro_faults::push_report;
use macro_state::{Assembly, Expanded, Listing, Row};
use script_io::Parts;
use std::alloc::{AllocError, Global};

/// What is wrong with a line, as text.
#[derive(Drop)]
struct Remark {
    line: u32,
    text: Vec<u8>,
}

/// The expanded lines that are not listed yet.
#[derive(Drop)]
struct Unlisted<'a> {
    /// The number of the first.
    number: usize,
    /// Their rows, in the order of the lines.
    rows: &'a [Row],
}

/// Whether a line is not listed.
fn is_hidden(hidden: &[(u32, u32)], line: u32) -> bool
    ensures { result ≡ is_hidden hidden.now line }
{
    hidden
        .iter()
        .any(|range| range.0 <= line && line <= range.1)
}

/// Parts rows into those of this line or an earlier one, which stand first, and the others.
fn part_rows(rows: &[Row], line: usize) -> (&[Row], &[Row])
    ensures own { result.0.now ≡ take (rows_to line rows.now) rows.now }
    ensures later { result.1.now ≡ drop (rows_to line rows.now) rows.now }
{
    for (index, row) in rows.iter().enumerate() {
        if row.of > line {
            return rows.split_at(index);
        }
    }
    (rows, &[])
}

/// Whether one of these rows has a place.
fn have_place(rows: &[Row]) -> bool
    ensures { result ≡ have_place rows.now }
{
    rows.iter().any(|row| row.place.is_some())
}

/// Whether an expanded line is listed.
fn is_listed(line: Expanded, rows: &[Row], text: &[u8]) -> bool
    ensures { result ≡ is_listed line rows.now text.now }
{
    line.is_shown && (have_place(rows) || line.is_all && !text.is_empty())
}

/// Adds an expanded line, if it is listed.
fn push_expanded_line(
    out: &mut Vec<u8>,
    characters: &[u8],
    line: Expanded,
    rows: &[Row],
) -> Result<(), AllocError>
    ensures { OnOk result (out.new.items ≡ out.old.items ++ expanded_text line rows.now (part_of characters.now line.start line.end)) }
{
    let text = characters.get(line.start..line.end).unwrap_or(&[]);
    if !is_listed(line, rows, text) {
        return Ok(());
    }
    push_rows(out, None, b' ', rows, line.depth, text)
}

/// Adds the expanded lines of a line of the source, or passes over them where that is hidden.
fn push_expanded(
    out: &mut Vec<u8>,
    listing: &Listing,
    unlisted: &mut Unlisted<'_>,
    line: u32,
    is_hidden: bool,
) -> Result<(), AllocError>
    ensures text { OnOk result (out.new.items ≡ out.old.items
        ++ (if is_hidden then [] else texts_to line (expanded_from listing.now unlisted.old.number unlisted.old.rows.now))) }
    ensures left { OnOk result (expanded_from listing.now unlisted.new.number unlisted.new.rows.now
        ≡ texts_behind line (expanded_from listing.now unlisted.old.number unlisted.old.rows.now)) }
{
    for number in unlisted.number..listing.expanded.len() {
        let expanded = listing.expanded[number];
        if expanded.line > line {
            break;
        }
        let (rows, later) = part_rows(unlisted.rows, number);
        if !is_hidden {
            push_expanded_line(out, listing.characters.as_slice(), expanded, rows)?;
        }
        unlisted.number = number + 1;
        unlisted.rows = later;
    }
    Ok(())
}

/// Adds what is wrong with this line and with earlier ones, and returns what is left.
fn push_remarks<'a>(
    out: &mut Vec<u8>,
    remarks: &'a [Remark],
    line: u32,
) -> Result<&'a [Remark], AllocError>
    ensures text { OnOk result (out.new.items ≡ out.old.items ++ texts_to line (map remark_text remarks.now)) }
    ensures left { IfOk result (λ left. map remark_text left.now ≡ texts_behind line (map remark_text remarks.now)) }
{
    for (index, remark) in remarks.iter().enumerate() {
        if remark.line > line {
            return Ok(&remarks[index..]);
        }
        out.extend_from_slice(remark.text.as_slice())?;
    }
    Ok(&[])
}

/// Adds what is wrong with the lines behind the last.
fn push_left(out: &mut Vec<u8>, remarks: &[Remark]) -> Result<(), AllocError>
    ensures { OnOk result (out.new.items ≡ out.old.items ++ all_texts (map remark_text remarks.now)) }
{
    for remark in remarks {
        out.extend_from_slice(remark.text.as_slice())?;
    }
    Ok(())
}

/// Whether a line has a constant of floating point.
fn is_float(floats: &[u32], line: u32) -> bool
    ensures { result ≡ list_any (λ other. nat_eq other line) floats.now }
{
    floats.iter().any(|other| *other == line)
}

/// The mark after the number of a line: F if it has a constant of floating point.
fn mark_of(floats: &[u32], line: u32) -> u8
    ensures { result ≡ mark_of floats.now line }
{
    if is_float(floats, line) { b'F' } else { b' ' }
}

/// Adds a line for a file, if it begins with this line of the source.
#[tactic(auto, using(std::proofs::Common::append_assoc))]
fn push_file(out: &mut Vec<u8>, part: &Part, number: u32) -> Result<(), AllocError>
    ensures { OnOk result (out.new.items ≡ out.old.items ++ file_text number part.now) }
{
    if part.before != number.saturating_sub(1) as usize {
        return Ok(());
    }
    out.extend_from_slice(b";file ")?;
    out.extend_from_slice(part.file.as_str().as_bytes())?;
    out.push(b'\n')?;
    Ok(())
}

/// Adds a line for each file that begins with this line of the source.
fn push_files(out: &mut Vec<u8>, parts: &[Part], number: u32) -> Result<(), AllocError>
    ensures { OnOk result (out.new.items ≡ out.old.items ++ files_text parts.now number) }
{
    for part in parts {
        push_file(out, part, number)?;
    }
    Ok(())
}

/// Adds the line of each file that begins with this line of the source, and this line with its rows, unless it is hidden.
#[tactic(auto, using(std::proofs::Common::append_assoc))]
fn push_own_line(
    out: &mut Vec<u8>,
    listing: &Listing,
    parts: &[Part],
    number: u32,
    is_hidden: bool,
    rows: &[Row],
    text: &[u8],
) -> Result<(), AllocError>
    ensures { OnOk result (out.new.items ≡ out.old.items ++ (files_text parts.now number
        ++ (if is_hidden then [] else rows_text (Some number) (mark_of listing.now.floats.items number) rows.now 0 text.now))) }
{
    push_files(out, parts, number)?;
    if !is_hidden {
        let mark = mark_of(listing.floats.as_slice(), number);
        push_rows(out, Some(number), mark, rows, 0, text)?;
    }
    Ok(())
}

/// Adds the lines of the source up to END, and all where it is not there, each with its rows, what it expands to, and what
/// is wrong with it, and the line of each file before its first.
fn push_lines(
    out: &mut Vec<u8>,
    listing: &Listing,
    parts: &[Part],
    mut rows: &[Row],
    expanded_rows: &[Row],
    mut remarks: &[Remark],
    source: &[u8],
) -> Result<(), AllocError>
    ensures { OnOk result (out.new.items ≡ out.old.items ++ lines_text listing.now parts.now 1 (take 4294967294 (lines_of source.now)) rows.now
        (expanded_from listing.now 0 expanded_rows.now) (map remark_text remarks.now)) }
{
    let mut lines = Parts::of(source, b'\n');
    let mut unlisted = Unlisted {
        number: 0,
        rows: expanded_rows,
    };
    for number in 1..u32::MAX {
        let Some(text) = lines.next() else {
            break;
        };
        let is_hidden = is_hidden(listing.hidden.as_slice(), number);
        let (own, later) = part_rows(rows, number as usize);
        push_own_line(out, listing, parts, number, is_hidden, own, text)?;
        rows = later;
        push_expanded(out, listing, &mut unlisted, number, is_hidden)?;
        remarks = push_remarks(out, remarks, number)?;
        if number == listing.last {
            break;
        }
    }
    push_left(out, remarks)
}

/// The rows of lines of the source, and those of expanded lines.
fn parted_rows(listing: &Listing, alloc: Global) -> Result<(Vec<Row>, Vec<Row>), AllocError>
    ensures own { IfOk result (λ rows. rows.0.items ≡ source_rows listing.now.rows.items) }
    ensures expanded { IfOk result (λ rows. rows.1.items ≡ expanded_rows listing.now.rows.items) }
{
    let mut rows = Vec::new(alloc);
    let mut expanded_rows = Vec::new(alloc);
    for row in &listing.rows {
        if row.expanded {
            expanded_rows.push(*row)?;
        } else {
            rows.push(*row)?;
        }
    }
    Ok((rows, expanded_rows))
}

/// What is wrong, in the order of its places.
fn remarks_of(state: &Assembly, source: &[u8], parts: &[Part]) -> Result<Vec<Remark>, AllocError>
    ensures { IfOk result (λ remarks. AreRemarks state.now.faults.items (map remark_text remarks.items)) }
{
    let faults = sorted_faults(state.alloc, state.faults.as_slice())?;
    let mut remarks = Vec::new(state.alloc);
    for report in &faults {
        let mut text = Vec::new(state.alloc);
        let spot = spot_of(parts, report.place.line);
        push_report(&mut text, report, spot, state.stream.around(), source)?;
        remarks.push(Remark {
            line: report.place.line,
            text,
        })?;
    }
    Ok(remarks)
}

/// A source without the end of its last line.
fn without_last_end(source: &[u8]) -> &[u8]
    ensures { result.now ≡ without_last_end source.now }
{
    match source {
        [lines @ .., b'\n'] => lines,
        _ => source,
    }
}

/// Adds the listing of a source. What is wrong with a line stands below it. `parts` are the files of the source, where there are
/// several: each has a line before its first.
pub fn push_listing(
    out: &mut Vec<u8>,
    state: &Assembly,
    source: &[u8],
    parts: &[Part],
) -> Result<(), AllocError>
    ensures { OnOk result ((remarks : List (ℕ × List ℕ)) × AreRemarks state.now.faults.items remarks
        × (out.new.items ≡ out.old.items ++ listing_text state.now.listing parts.now source.now remarks)) }
{
    let (rows, expanded_rows) = parted_rows(&state.listing, state.alloc)?;
    let remarks = remarks_of(state, source, parts)?;
    push_lines(
        out,
        &state.listing,
        parts,
        rows.as_slice(),
        expanded_rows.as_slice(),
        remarks.as_slice(),
        without_last_end(source),
    )
}
