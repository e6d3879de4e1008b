//! Macros as they are kept, and their calls.

ghost use Rattle.std.specs.Prelude.{◌≡◌, ◌++◌, ◌∷◌, [], OnOk, IfOk, false};
ghost use Rattle.macro_expressions.specs.Reading.{Gives, between};
ghost use Rattle.macro_expansion.specs.Macros.{head_in, uncommented, kept_text, definition_at, call_at};

use crate::arguments::{Given, read_given};
use crate::bodies::filled;
use crate::brackets::{behind_blanks, bracketed, past_comma};
use crate::dummies::{Bound, Dummies, less_rest, read_dummies};
use crate::texts::{has_marks, up_to_next};
use macro_expressions::{BEYOND, Fault, Reading, begins_with};
use std::alloc::{AllocError, Global};

/// The dummies with `)`, or only `)`, and what comes after.
fn head(alloc: Global, text: &[u8]) -> Result<(&[u8], &[u8]), Fault>
    ensures { Gives (λ x. (x.0.now, x.1.now)) result (head_in text.now) }
{
    match text {
        [] => Err(BEYOND),
        [b'(', inner @ ..] => {
            let mut found = Dummies::new(alloc);
            let rest = read_dummies(100, &mut found, inner)?;
            Ok((less_rest(inner, rest), rest))
        }
        _ => Ok((b")".as_slice(), text)),
    }
}

/// A text after blanks, ends of lines and comments.
fn across_lines(alloc: Global, text: &[u8]) -> &[u8]
    ensures { result.now ≡ between false text.now }
{
    let mut front = Reading::new(alloc, 8, text);
    front.cross_lines();
    front.rest()
}

/// A body without its comments from `;;` on, after what is kept of it.
#[tactic(auto, unfolding(crate::specs::Macros::uncommented))]
fn uncommented(kept: Vec<u8>, body: &[u8]) -> Result<Vec<u8>, AllocError>
    ensures { IfOk result (λ all. all.items ≡ uncommented false kept.items body.now) }
{
    let mut kept = kept;
    let mut in_comment = false;
    for (i, c) in body.iter().enumerate() {
        if in_comment {
            in_comment = *c != b'\n';
        } else {
            in_comment = *c == b';' && begins_with(b';', &body[i + 1..]);
        }
        if !in_comment {
            kept.push(*c)?;
        }
    }
    Ok(kept)
}

/// A text with 254 after it; one that has marks is not kept.
fn kept_text(text: Vec<u8>) -> Result<Vec<u8>, Fault>
    ensures { Gives (λ all. all.items) result (kept_text text.items) }
{
    if has_marks(text.as_slice()) {
        return Err(BEYOND);
    }
    let mut text = text;
    text.extend_from_slice([254].as_slice())?;
    Ok(text)
}

/// The definition of a macro, whose name is read, as it is kept; and what comes after.
#[tactic(auto, unfolding(crate::specs::Macros::definition_at))]
pub fn definition(alloc: Global, text: &[u8]) -> Result<(Vec<u8>, &[u8]), Fault>
    ensures { Gives (λ x. (x.0.items, x.1.now)) result (definition_at text.now) }
{
    let (head, behind) = head(alloc, behind_blanks(text))?;
    let Some((body, rest)) = bracketed(across_lines(alloc, past_comma(behind))) else {
        return Err(BEYOND);
    };
    let all = uncommented(Vec::from_slice(alloc, head)?, body)?;
    Ok((kept_text(all)?, rest))
}

/// Calls a macro that was defined so, whose name is read: its body with its arguments, and what comes after. `made` is how many
/// names were made.
#[tactic(auto, unfolding(crate::specs::Macros::call_at))]
pub fn call<'a>(
    alloc: Global,
    definition: &[u8],
    made: &mut u32,
    text: &'a [u8],
) -> Result<(Vec<u8>, &'a [u8]), Fault>
    ensures { Gives (λ x. ((x.0.items, made.new), x.1.now)) result (call_at definition.now made.old text.now) }
{
    let mut found = Dummies::new(alloc);
    let behind = read_dummies(100, &mut found, definition)?;
    let Some((body, _)) = up_to_next(254, behind) else {
        return Err(BEYOND);
    };
    let mut given = Given {
        text: Vec::new(alloc),
        defaults: found.defaults.as_slice(),
        made: *made,
    };
    let rest = read_given(alloc, &mut given, text)?;
    *made = given.made;
    let bound = Bound {
        head: less_rest(definition, behind),
        names: found.names.as_slice(),
        given: given.text.as_slice(),
    };
    Ok((filled(alloc, &bound, body)?, rest))
}
