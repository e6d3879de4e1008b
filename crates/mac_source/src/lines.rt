//! The lines of a source.
ghost use Rattle.std.specs.Prelude.{◌≡◌, ◌<◌, ◌^◌, ◌++◌, ◌==◌, OnOk, length, if◌then◌else◌, []};
ghost use Rattle.mac_source.specs.Sources.{asciz_text, block_text, contains, delimiter_of, loc_text, mark_text};
ghost use Rattle.mac_source.specs.Sources.{behind_text, comment_if, piece_text, style_with, piece_line, end_line};
ghost use Rattle.mac_source.specs.Pieces.{address_of, first};
ghost use Rattle.mac_source.specs.Marks.{marked_by};

use crate::characters::Characters;
use crate::notes::push_note;
use crate::pieces::{Piece, first};
use crate::shown::Shown;
use crate::texts::{push_address, push_label, push_octal, push_statement};
use std::alloc::{AllocError, Global};
use word36::Word;

/// Adds ` LOC` with an address, where `here`, the address reached, is another.
#[tactic(auto, using(std::proofs::Common::append_assoc))]
pub fn push_loc(out: &mut Vec<u8>, address: u32, here: u32) -> Result<(), AllocError>
    ensures { OnOk result (out.new.items ≡ out.old.items ++ (if address == here then [] else loc_text address)) }
{
    if address != here {
        out.extend_from_slice(b" LOC ")?;
        push_octal(out, address)?;
        out.push(b'\n')?;
    }
    Ok(())
}

/// Adds a label with its colon, where the address has one.
#[tactic(auto, using(std::proofs::Common::append_assoc))]
fn push_mark(out: &mut Vec<u8>, marks: &[bool], address: u32) -> Result<(), AllocError>
    requires { address < length marks.now }
    ensures { OnOk result (out.new.items ≡ out.old.items ++ mark_text (marked_by marks.now address) address) }
{
    if marks[address as usize] {
        push_label(out, address)?;
        out.push(b':')?;
    }
    Ok(())
}

/// Adds the comment behind a line, where comments are wanted: of its first word.
#[tactic(auto, using(std::proofs::Common::append_assoc))]
fn push_comment(
    out: &mut Vec<u8>,
    comments: bool,
    address: u32,
    word: Word,
) -> Result<(), AllocError>
    ensures { OnOk result (out.new.items ≡ out.old.items ++ behind_text (comment_if comments (address, word))) }
{
    if comments {
        out.extend_from_slice(b" ;")?;
        push_note(out, address, word)?;
    }
    Ok(())
}

/// Adds the statement of so many words of 0.
#[tactic(auto, using(std::proofs::Common::append_assoc))]
fn push_block(out: &mut Vec<u8>, count: u32) -> Result<(), AllocError>
    ensures { OnOk result (out.new.items ≡ out.old.items ++ block_text count) }
{
    out.extend_from_slice(b"BLOCK ")?;
    push_octal(out, count)
}

/// Whether a text has a character.
fn contains(text: &[u8], character: u8) -> bool
    ensures { result ≡ contains character text.now }
{
    text.iter().any(|one| *one == character)
}

/// A character that is not in a text, to stand before it and behind it. `~` is in no text.
fn delimiter_of(text: &[u8]) -> u8
    ensures { result ≡ delimiter_of text.now }
{
    if !contains(text, b'/') {
        return b'/';
    }
    if contains(text, b'"') { b'~' } else { b'"' }
}

/// Adds the statement of a text.
#[tactic(auto, using(std::proofs::Common::append_assoc))]
fn push_text(alloc: Global, out: &mut Vec<u8>, characters: &Characters) -> Result<(), AllocError>
    ensures { OnOk result (out.new.items ≡ out.old.items ++ asciz_text characters.now) }
{
    let text = characters.in_order(alloc)?;
    let delimiter = delimiter_of(text.as_slice());
    out.extend_from_slice(b"ASCIZ ")?;
    out.push(delimiter)?;
    out.extend_from_slice(text.as_slice())?;
    out.push(delimiter)?;
    Ok(())
}

/// Adds the statement of a piece.
fn push_piece(
    alloc: Global,
    out: &mut Vec<u8>,
    marks: &[bool],
    shown: Shown,
    piece: &Piece,
) -> Result<(), AllocError>
    requires { length marks.now ≡ 2 ^ 18 }
    ensures { OnOk result (out.new.items ≡ out.old.items ++ piece_text (style_with (marked_by marks.now) shown) piece.now) }
{
    match piece {
        Piece::Word(_, word) => push_statement(out, marks, *word),
        Piece::Zeros(_, count) => push_block(out, *count),
        Piece::Text(_, characters) => push_text(alloc, out, characters),
    }
}

/// Adds the line of a piece.
pub fn push_piece_line(
    alloc: Global,
    out: &mut Vec<u8>,
    marks: &[bool],
    shown: Shown,
    piece: &Piece,
) -> Result<(), AllocError>
    requires marks { length marks.now ≡ 2 ^ 18 }
    requires address { address_of piece.now < 2 ^ 18 }
    ensures { OnOk result (out.new.items ≡ out.old.items ++ piece_line (style_with (marked_by marks.now) shown) piece.now) }
{
    let head = first(alloc, piece)?;
    push_mark(out, marks, head.0)?;
    out.push(b' ')?;
    push_piece(alloc, out, marks, shown, piece)?;
    push_comment(out, shown.comments, head.0, head.1)?;
    out.push(b'\n')?;
    Ok(())
}

/// Adds the line with END.
#[tactic(auto, using(std::proofs::Common::append_assoc))]
pub fn push_end(out: &mut Vec<u8>, marks: &[bool], start: u32) -> Result<(), AllocError>
    requires { start < length marks.now }
    ensures { OnOk result (out.new.items ≡ out.old.items ++ end_line (marked_by marks.now) start) }
{
    out.extend_from_slice(b" END ")?;
    push_address(out, marks, true, start)?;
    out.push(b'\n')?;
    Ok(())
}
