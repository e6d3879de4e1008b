//! The words that the rows of a listing show, beside those of the image.
ghost use Rattle.std.specs.Prelude.{◌≡◌, true, IfOk, IsTrue, MatchOption, Some, None};
ghost use Rattle.macro_output.specs.Shown.{shown_by, behind, has_all_but_zeros, Shows};

use macro_state::Row;
use std::alloc::{AllocError, Global};
use word36::Word;

/// The places and the numbers of the words that rows show, in the order of the rows.
fn shown_words(alloc: Global, rows: &[Row]) -> Result<Vec<(u32, u64)>, AllocError>
    ensures { IfOk result (λ shown. shown.items ≡ shown_by rows.now) }
{
    let mut shown = Vec::new(alloc);
    for row in rows {
        match row.place {
            Some(place) => match row.word {
                Some(word) => shown.push((place, word.number()))?,
                None => (),
            },
            None => (),
        }
    }
    Ok(shown)
}

/// The words behind this one, if it is the first of them.
fn behind<'a>(shown: &'a [(u32, u64)], place: u32, number: u64) -> Option<&'a [(u32, u64)]>
    ensures { MatchOption result (behind shown.now (place, number) ≡ None) (λ others. behind shown.now (place, number) ≡ Some others.now) }
{
    match shown {
        [first, others @ ..] => {
            if first.0 == place && first.1 == number {
                Some(others)
            } else {
                None
            }
        }
        [] => None,
    }
}

/// Whether words are all of these, in this order, and beside them words of zero alone.
fn are_all_but_zeros(shown: &[(u32, u64)], words: &[(u32, Word)]) -> bool
    ensures { IsTrue result → has_all_but_zeros shown.now words.now ≡ true }
{
    let mut left = shown;
    for word in words {
        let number = word.1.number();
        match behind(left, word.0, number) {
            Some(others) => left = others,
            None => {
                if number != 0 {
                    return false;
                }
            }
        }
    }
    left.is_empty()
}

/// Whether rows show each word of an image once, at its place, and nothing else; words of zero may be left out.
pub fn rows_show(alloc: Global, rows: &[Row], words: &[(u32, Word)]) -> Result<bool, AllocError>
    ensures { IfOk result (λ holds. IsTrue holds → Shows rows.now words.now) }
{
    let mut shown = shown_words(alloc, rows)?;
    shown.sort()?;
    Ok(are_all_but_zeros(shown.as_slice(), words))
}
