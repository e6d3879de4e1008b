//! The source of an image.
ghost use Rattle.std.specs.Prelude.{◌≡◌, ◌<◌, ◌^◌, ◌++◌, IfOk, OnOk, Ok, length};
ghost use Rattle.mac_layout.specs.Addresses.{first_address};
ghost use Rattle.mac_asm.specs.Outcome.{outcome_of};
ghost use Rattle.image_files.specs.Images.{IsImage, WordsFit};
ghost use Rattle.mac_source.specs.Sources.{lines_text, source_of, style_with};
ghost use Rattle.mac_source.specs.Pieces.{ArePlaced};
ghost use Rattle.mac_source.specs.Marks.{assembled, marked_by};

use crate::lines::{push_end, push_loc, push_piece_line};
use crate::marks::marks_of;
use crate::pieces::{Piece, address_of, count, pieces_of};
use crate::shown::Shown;
use mac_layout::FIRST;
use std::alloc::{AllocError, Global};
use word36::Image;

/// Adds the lines of pieces, and END.
fn push_lines(
    alloc: Global,
    out: &mut Vec<u8>,
    marks: &[bool],
    shown: Shown,
    pieces: &[Piece],
    start: u32,
) -> Result<(), AllocError>
    requires marks { length marks.now ≡ 2 ^ 18 }
    requires placed { ArePlaced pieces.now }
    requires start { start < 2 ^ 18 }
    ensures { OnOk result (out.new.items ≡
        out.old.items ++ lines_text (style_with (marked_by marks.now) shown) start first_address pieces.now) }
{
    let mut here = FIRST;
    for piece in pieces {
        let address = address_of(piece);
        push_loc(out, address, here)?;
        push_piece_line(alloc, out, marks, shown, piece)?;
        here = address + count(piece);
    }
    push_end(out, marks, start)
}

/// The source of an image, with labels, comments, blocks and texts as wanted. It assembles to exactly that
/// image.
pub fn source_of(alloc: Global, image: &Image, shown: Shown) -> Result<Vec<u8>, AllocError>
    requires image { IsImage image.now.words.items image.now.start }
    requires fit { WordsFit image.now.words.items }
    ensures text { IfOk result (λ text. text.items ≡ source_of shown (assembled image.now)) }
    ensures assembles { IfOk result (λ text. outcome_of text.items ≡ Ok (assembled image.now)) }
{
    let marks = marks_of(alloc, image, shown.labels)?;
    let pieces = pieces_of(alloc, marks.as_slice(), shown, image.words.as_slice())?;
    let mut text = Vec::new(alloc);
    push_lines(
        alloc,
        &mut text,
        marks.as_slice(),
        shown,
        pieces.as_slice(),
        image.start,
    )?;
    Ok(text)
}
