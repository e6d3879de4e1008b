//! Texts packed into words.

ghost use Rattle.std.specs.Prelude.{◌≡◌, ◌<◌, ◌≤◌, ◌==◌, ◌%◌, ◌^◌, ◌+◌, IfSome, IfOk, ◌++◌, ◌∷◌, [], length, position, slice_index, nat_eq};
ghost use Rattle.std.specs.List.{list_any};
ghost use Rattle.std.specs.Option.{option_map};
ghost use Rattle.mac_text.specs.Texts.{text_from, up_to_next};
ghost use Rattle.mac_asm.specs.Packing.{ascii_word, sixbit_word};
ghost use Rattle.macro_expressions.specs.Reading.{Gives};
ghost use Rattle.macro_expansion.specs.Marked.{has_marks, ends_text, marked_text, text_word, packed, text_words_of, text_at};

use mac_layout::text_words;
use mac_text::{TextForm, folded};
use macro_expressions::{BEYOND, Fault, Reading, WRONG, begins_with};
use std::alloc::{AllocError, Global};
use word36::{Word, sixbit};

/// How many words of a text are judged.
const MOST_WORDS: usize = 1000;

/// The position of a character.
fn position_of(c: u8, text: &[u8]) -> Option<usize>
    ensures value { result ≡ position (λ d. d == c) text.now }
    ensures within { IfSome result (λ i. i < length text.now) }
{
    text.iter().position(|d| *d == c)
}

/// Whether a text has a mark, which is no character of a source.
pub fn has_marks(text: &[u8]) -> bool
    ensures { result ≡ has_marks text.now }
{
    text.iter().any(|c| 128 <= *c)
}

/// Whether a text goes over a line, or has a mark.
fn is_ended(text: &[u8]) -> bool
    ensures { result ≡ list_any ends_text text.now }
{
    text.iter().any(|c| *c == 10 || 128 <= *c)
}

/// The text up to a mark, and what comes after the mark.
pub fn up_to_next(mark: u8, body: &[u8]) -> Option<(&[u8], &[u8])>
    ensures { option_map (λ x. (x.0.now, x.1.now)) result ≡ up_to_next mark body.now }
{
    match position_of(mark, body) {
        Some(end) => Some((&body[..end], &body[end + 1..])),
        None => None,
    }
}

/// The text between two equal marks, of which the first is next, and what comes after.
fn between_marks(text: &[u8]) -> Option<(&[u8], &[u8])>
    ensures { option_map (λ x. (x.0.now, x.1.now)) result ≡ text_from text.now }
{
    match text {
        [] => None,
        [mark, body @ ..] => up_to_next(*mark, body),
    }
}

/// The text between two equal marks, of which the first is next, and what comes after. A text of several lines is not judged.
pub fn marked_text(text: &[u8]) -> Result<(&[u8], &[u8]), Fault>
    ensures { Gives (λ x. (x.0.now, x.1.now)) result (marked_text text.now) }
{
    if begins_with(b'\n', text) {
        return Err(BEYOND);
    }
    let Some((inner, behind)) = between_marks(text) else {
        return Err(BEYOND);
    };
    if is_ended(inner) {
        return Err(BEYOND);
    }
    Ok((inner, behind))
}

/// Character `at` of a text, 0 if there is none.
fn character(text: &[u8], at: usize) -> u64
    ensures value { result ≡ slice_index text.now at % 128 }
    ensures below { result < 128 }
{
    if at < text.len() {
        u64::from(text[at]) % 128
    } else {
        0
    }
}

/// Five characters of seven bits from the left; the last bit is 0.
#[tactic(auto, unfolding(mac_asm::specs::Packing::ascii_word))]
fn ascii_word(text: &[u8], from: usize) -> Word
    requires { from < 2 ^ 63 }
    ensures { result ≡ ascii_word text.now from }
{
    Word::new(
        character(text, from) * (1 << 29)
            + character(text, from + 1) * (1 << 22)
            + character(text, from + 2) * (1 << 15)
            + character(text, from + 3) * (1 << 8)
            + character(text, from + 4) * (1 << 1),
    )
}

/// Six characters of six bits, if each has a code; letters are folded to upper case, and spaces come after the last.
#[tactic(auto, unfolding(mac_asm::specs::Packing::sixbit_word))]
fn sixbit_word(text: &[u8], from: usize) -> Option<Word>
    ensures { result ≡ sixbit_word text.now from }
{
    let rest = &text[from.min(text.len())..];
    sixbit(folded(rest).as_slice())
}

/// Words with one more.
pub fn with_word(words: Vec<Word>, word: Word) -> Result<Vec<Word>, AllocError>
    ensures { IfOk result (λ all. all.items ≡ words.items ++ word ∷ []) }
{
    let mut words = words;
    words.push(word)?;
    Ok(words)
}

/// A word of a text, by its number.
fn text_word(form: TextForm, text: &[u8], at: usize) -> Result<Word, Fault>
    requires { at ≤ 1000 }
    ensures { Gives (λ w. w) result (text_word form text.now at) }
{
    match form {
        TextForm::Ascii | TextForm::Asciz => Ok(ascii_word(text, at * 5)),
        TextForm::Sixbit => match sixbit_word(text, at * 6) {
            Some(word) => Ok(word),
            None => Err(WRONG),
        },
    }
}

/// `count` words of a text, from one on, after others.
#[tactic(auto, unfolding(crate::specs::Marked::packed))]
fn packed(
    form: TextForm,
    text: &[u8],
    count: usize,
    from: usize,
    words: Vec<Word>,
) -> Result<Vec<Word>, Fault>
    requires { count + from ≤ 1000 }
    ensures { Gives (λ all. all.items) result (packed form text.now count from words.items) }
{
    if count == 0 {
        return Ok(words);
    }
    let word = text_word(form, text, from)?;
    let words = with_word(words, word)?;
    packed(form, text, count - 1, from + 1, words)
}

/// The words of a text. One of more than 1000 words is not judged.
fn text_words_of(alloc: Global, form: TextForm, text: &[u8]) -> Result<Vec<Word>, Fault>
    ensures { Gives (λ all. all.items) result (text_words_of form text.now) }
{
    let count = text_words(form, text.len());
    if count > MOST_WORDS {
        return Err(BEYOND);
    }
    packed(form, text, count, 0, Vec::new(alloc))
}

/// ASCII, ASCIZ and SIXBIT: the words of a text.
#[tactic(auto, unfolding(crate::specs::Marked::text_at))]
pub fn text(form: TextForm, front: &mut Reading<'_>) -> Result<Vec<Word>, Fault>
    ensures { Gives (λ words. (words.items, front.new)) result (text_at form front.old) }
{
    let (text, behind) = marked_text(front.behind_blanks())?;
    let words = text_words_of(front.alloc(), form, text)?;
    front.set_rest(behind);
    Ok(words)
}
