//! The pieces of an image that stand on a line each: words, and words of 0 one behind the other.
ghost use Rattle.std.specs.Prelude.{◌≡◌, ◌<◌, ◌≤◌, ◌^◌, ◌+◌, ◌∷◌, ◌==◌, ◌&&◌, IfOk, OnOk, length, not, reverse};
ghost use Rattle.image_files.specs.Images.{Rises};
ghost use Rattle.mac_source.specs.Pieces.{IsPlaced, alone, count, ends_text, first, is_next};
ghost use Rattle.mac_source.specs.Pieces.{address_of, is_zeros, joins_text, joins_zeros, pieces_of, rest_before};
ghost use Rattle.mac_source.specs.Pieces.{text_of, with_word, zeros_at};
ghost use Rattle.mac_source.specs.Marks.{marked_by};

use crate::characters::{Characters, characters_in, is_end, is_full, is_text_alone, packed};
use crate::shown::Shown;
use std::alloc::{AllocError, Global};
use word36::Word;

/// What stands on a line.
#[derive(Debug, Drop)]
pub enum Piece {
    /// A word at its address.
    Word(u32, Word),
    /// So many words of 0 from an address on: the address and the number.
    Zeros(u32, u32),
    /// A text from an address on, with a zero character behind it.
    Text(u32, Characters),
}

/// The first word of a piece, with its address.
pub fn first(alloc: Global, piece: &Piece) -> Result<(u32, Word), AllocError>
    ensures { IfOk result (λ x. x ≡ first piece.now) }
{
    match piece {
        Piece::Word(address, word) => Ok((*address, *word)),
        Piece::Zeros(address, _) => Ok((*address, Word::join(0, 0))),
        Piece::Text(address, characters) => {
            let text = characters.in_order(alloc)?;
            Ok((*address, Word::new(packed(text.as_slice()))))
        }
    }
}

/// The address of a piece.
pub fn address_of(piece: &Piece) -> u32
    ensures { result ≡ address_of piece.now }
{
    match piece {
        Piece::Word(address, _) | Piece::Zeros(address, _) | Piece::Text(address, _) => *address,
    }
}

/// The number of words of a piece.
pub fn count(piece: &Piece) -> u32
    requires { IsPlaced piece.now }
    ensures { result ≡ count piece.now }
{
    match piece {
        Piece::Word(_, _) => 1,
        Piece::Zeros(_, count) => *count,
        Piece::Text(_, characters) => (characters.len() / 5 + 1) as u32,
    }
}

/// Whether all words of a piece are 0.
fn is_zeros(piece: &Piece) -> bool
    ensures { result ≡ is_zeros piece.now }
{
    match piece {
        Piece::Word(_, word) => word.number() == 0,
        Piece::Zeros(_, _) => true,
        Piece::Text(_, _) => false,
    }
}

/// Whether a piece stands right behind an address, with no label.
fn is_next(marks: &[bool], address: u32, piece: &Piece) -> bool
    requires marks { length marks.now ≡ 2 ^ 18 }
    requires address { address < 2 ^ 18 }
    requires piece { IsPlaced piece.now }
    ensures { result ≡ (address_of piece.now == address + 1 && not (marked_by marks.now (address_of piece.now))) }
{
    address_of(piece) == address + 1 && !marks[address_of(piece) as usize]
}

/// The piece of a word alone.
fn alone(alloc: Global, texts: bool, address: u32, word: Word) -> Result<Piece, AllocError>
    ensures { IfOk result (λ piece. piece ≡ alone texts (address, word)) }
{
    if texts && is_text_alone(word) {
        Ok(Piece::Text(address, characters_in(alloc, word)?))
    } else {
        Ok(Piece::Word(address, word))
    }
}

/// Whether five characters can stand before a piece as the beginning of its text.
fn ends_text(piece: &Piece) -> bool
    ensures { result ≡ ends_text piece.now }
{
    match piece {
        Piece::Word(_, word) => is_end(*word),
        Piece::Zeros(_, count) => *count > 0,
        Piece::Text(_, _) => true,
    }
}

/// Whether a word of 0 goes with the words of 0 of the piece behind it.
fn goes_with_zeros(marks: &[bool], blocks: bool, piece: &Piece, address: u32, word: Word) -> bool
    requires marks { length marks.now ≡ 2 ^ 18 }
    requires address { address < 2 ^ 18 }
    requires piece { IsPlaced piece.now }
    ensures { result ≡ (is_next (marked_by marks.now) (address, word) piece.now && joins_zeros blocks (address, word) piece.now) }
{
    is_next(marks, address, piece) && blocks && word.number() == 0 && is_zeros(piece)
}

/// Whether the characters of a word go with the text of the piece behind it.
fn goes_with_text(marks: &[bool], texts: bool, piece: &Piece, address: u32, word: Word) -> bool
    requires marks { length marks.now ≡ 2 ^ 18 }
    requires address { address < 2 ^ 18 }
    requires piece { IsPlaced piece.now }
    ensures { result ≡ (is_next (marked_by marks.now) (address, word) piece.now && joins_text texts (address, word) piece.now) }
{
    is_next(marks, address, piece) && texts && is_full(word) && ends_text(piece)
}

/// The text of a piece.
fn text_of(alloc: Global, piece: Piece) -> Result<Characters, AllocError>
    ensures { IfOk result (λ text. text ≡ text_of piece) }
{
    match piece {
        Piece::Word(_, word) => characters_in(alloc, word),
        Piece::Zeros(_, _) => Characters::of(alloc, b""),
        Piece::Text(_, characters) => Ok(characters),
    }
}

/// The piece of so many words of 0.
fn zeros_at(address: u32, count: u32) -> Piece
    ensures { result ≡ zeros_at address count }
{
    if count == 1 {
        Piece::Word(address, Word::join(0, 0))
    } else {
        Piece::Zeros(address, count)
    }
}

/// Adds the words of 0 behind the one that ends a text.
fn push_rest(pieces: &mut Vec<Piece>, piece: &Piece) -> Result<(), AllocError>
    requires { IsPlaced piece.now }
    ensures { OnOk result (reverse pieces.new.items ≡ rest_before piece.now (reverse pieces.old.items)) }
{
    if let Piece::Zeros(address, count) = piece {
        if *count > 1 {
            pieces.push(zeros_at(*address + 1, *count - 1))?;
        }
    }
    Ok(())
}

/// Goes from the piece in hand to a word before it: adds the piece, unless the word joins it, and
/// gives the piece of the word.
fn step(
    alloc: Global,
    pieces: &mut Vec<Piece>,
    marks: &[bool],
    shown: Shown,
    hand: Piece,
    address: u32,
    word: Word,
) -> Result<Piece, AllocError>
    requires marks { length marks.now ≡ 2 ^ 18 }
    requires address { address < 2 ^ 18 }
    requires hand { IsPlaced hand }
    ensures { IfOk result (λ next. next ∷ reverse pieces.new.items
        ≡ with_word shown.blocks shown.texts (marked_by marks.now) (address, word) (hand ∷ reverse pieces.old.items)) }
{
    if goes_with_zeros(marks, shown.blocks, &hand, address, word) {
        return Ok(Piece::Zeros(address, count(&hand) + 1));
    }
    if goes_with_text(marks, shown.texts, &hand, address, word) {
        push_rest(pieces, &hand)?;
        let mut text = text_of(alloc, hand)?;
        text.put_before(word)?;
        return Ok(Piece::Text(address, text));
    }
    pieces.push(hand)?;
    alone(alloc, shown.texts, address, word)
}

/// The pieces of words, from the last to the first.
fn backwards(
    alloc: Global,
    marks: &[bool],
    shown: Shown,
    words: &[(u32, Word)],
) -> Result<Vec<Piece>, AllocError>
    requires marks { length marks.now ≡ 2 ^ 18 }
    requires rises { Rises 0 words.now }
    ensures { IfOk result (λ pieces. reverse pieces.items
        ≡ pieces_of shown.blocks shown.texts (marked_by marks.now) words.now) }
{
    let mut pieces = Vec::new(alloc);
    if words.is_empty() {
        return Ok(pieces);
    }
    let last = words[words.len() - 1];
    let mut hand = alone(alloc, shown.texts, last.0, last.1)?;
    for i in (0..words.len() - 1).rev() {
        let word = words[i];
        let next = step(alloc, &mut pieces, marks, shown, hand, word.0, word.1)?;
        hand = next;
    }
    pieces.push(hand)?;
    Ok(pieces)
}

/// The pieces of words by rising address. Where that is wanted, words of 0 that stand one behind the
/// other are one piece, and so are the words of a text, unless a label stands between them.
pub fn pieces_of(
    alloc: Global,
    marks: &[bool],
    shown: Shown,
    words: &[(u32, Word)],
) -> Result<Vec<Piece>, AllocError>
    requires marks { length marks.now ≡ 2 ^ 18 }
    requires rises { Rises 0 words.now }
    ensures { IfOk result (λ pieces. pieces.items
        ≡ pieces_of shown.blocks shown.texts (marked_by marks.now) words.now) }
{
    let mut pieces = backwards(alloc, marks, shown, words)?;
    pieces.reverse();
    Ok(pieces)
}
