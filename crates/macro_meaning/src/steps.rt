//! The statements of a source.

ghost use Rattle.std.specs.Prelude.{◌≡◌, pos, unwrap_or};
ghost use Rattle.std.specs.Option.{option_map};
ghost use Rattle.mac_text.specs.Scan.{after_blanks};
ghost use Rattle.macro_expressions.specs.Reading.{Gives, ends_line};
ghost use Rattle.macro_statements.specs.Mentions.{behind_word};
ghost use Rattle.macro_meaning.specs.Meaning.{first_place, scope_of, less, is_label, is_assignment, assigned_text};
ghost use Rattle.macro_meaning.specs.Meaning.{pool_step, place_step, block_step, radix_step, end_step, is_plain_line, line_step, stop_step};
ghost use Rattle.macro_statements.specs.Words.{words_by};
ghost use Rattle.macro_meaning.specs.Meaning.{words_step, round_step, form_step, meant_step};
ghost use Rattle.macro_meaning.specs.Meaning.{label_step, assignment_step, plain, ended, named_step, unlabelled_step, step};

use crate::early::{early_natural, is_early};
use crate::openings::{call, is_call, opening, opens};
use crate::scopes::{Table, data_next, inside_next, value_next, words_next};
use crate::walk::Walk;
use mac_text::Symbol;
use macro_expressions::{
    BEYOND, Fault, Reading, WRONG, as_natural, as_word, begins_name, begins_with, blanks_len,
    ends_line,
};
use macro_statements::{Form, Meant, behind_word, meant, zeros};
use macro_values::Whole;

/// The greatest place that LOC sets.
const MOST_PLACE: u32 = 1 << 27;

/// The greatest number of words that BLOCK gives.
const MOST_WORDS: u32 = 1 << 18;

/// The greatest start.
const MOST_START: u32 = 0o777_777;

/// The start if END names none.
const FIRST: i64 = 0o140;

/// LIT: places the literals so far.
#[tactic(auto, unfolding(crate::specs::Meaning::pool_step))]
fn place_pool(walk: &mut Walk<'_>, front: &mut Reading<'_>) -> Result<(), Fault>
    ensures { Gives (λ _. (walk.new, front.new)) result (pool_step walk.old front.old) }
{
    let pool = front.take_pool();
    walk.put_pool(pool.as_slice())
}

/// LOC: sets the place.
#[tactic(auto, unfolding(crate::specs::Meaning::place_step))]
fn set_place(walk: &mut Walk<'_>, front: &mut Reading<'_>) -> Result<(), Fault>
    ensures { Gives (λ _. (walk.new, front.new)) result (place_step walk.old front.old) }
{
    let (place, rest) = early_natural(MOST_PLACE, walk, front)?;
    walk.set_place(place);
    front.set_rest(rest);
    Ok(())
}

/// BLOCK: n words of 0.
#[tactic(auto, unfolding(crate::specs::Meaning::block_step))]
fn put_block(walk: &mut Walk<'_>, front: &mut Reading<'_>) -> Result<(), Fault>
    ensures { Gives (λ _. (walk.new, front.new)) result (block_step walk.old front.old) }
{
    let (count, rest) = early_natural(MOST_WORDS, walk, front)?;
    let words = zeros(front.alloc(), count)?;
    walk.put(words.as_slice())?;
    front.set_rest(rest);
    Ok(())
}

/// RADIX: sets the radix of numbers.
#[tactic(auto, unfolding(crate::specs::Meaning::radix_step))]
fn set_radix(walk: &Walk<'_>, front: &mut Reading<'_>) -> Result<(), Fault>
    ensures { Gives (λ _. (walk.now, front.new)) result (radix_step walk.now front.old) }
{
    front.swap_radix(10);
    let (radix, rest) = early_natural(10, walk, front)?;
    if radix < 2 {
        return Err(WRONG);
    }
    front.swap_radix(radix as u8);
    front.set_rest(rest);
    Ok(())
}

/// A start, the first place if there is none.
fn or_first(start: Option<Whole>) -> Whole
    ensures { result ≡ unwrap_or start (pos first_place) }
{
    match start {
        Some(start) => start,
        None => Whole::from_small(FIRST),
    }
}

/// END: sets the start, and places the literals so far.
#[tactic(auto, unfolding(crate::specs::Meaning::end_step))]
fn end(table: &Table, walk: &mut Walk<'_>, front: &mut Reading<'_>) -> Result<(), Fault>
    ensures { Gives (λ _. (walk.new, front.new)) result (end_step (scope_of table.now.entries walk.old) walk.old front.old) }
{
    let value = value_next(table, walk, front)?;
    let start = as_natural(front.alloc(), MOST_START, &or_first(value))?;
    let pool = front.take_pool();
    walk.put_pool(pool.as_slice())?;
    walk.set_start(start);
    Ok(())
}

/// Whether the rest of a line has no mark.
#[tactic(auto, unfolding(crate::specs::Meaning::is_plain_line))]
fn is_plain_line(text: &[u8]) -> bool
    ensures { result ≡ is_plain_line text.now }
{
    for c in text {
        if *c == b'\n' || *c >= 128 {
            return *c == b'\n';
        }
    }
    true
}

/// What says nothing, to the end of the line.
fn skip_line(walk: &Walk<'_>, front: &mut Reading<'_>) -> Result<(), Fault>
    ensures { Gives (λ _. (walk.now, front.new)) result (line_step walk.now front.old) }
{
    if !is_plain_line(front.rest()) {
        return Err(BEYOND);
    }
    front.skip_line();
    Ok(())
}

/// STOPI: the round that is read is the last.
fn stop(walk: &mut Walk<'_>, front: &Reading<'_>) -> Result<(), Fault>
    ensures { Gives (λ _. (walk.new, front.now)) result (stop_step walk.old front.now) }
{
    if walk.is_last().is_none() {
        return Err(WRONG);
    }
    walk.set_last(Some(true));
    Ok(())
}

/// Before a round: it is read, or nothing more is.
fn round(walk: &Walk<'_>, front: &mut Reading<'_>) -> Result<(), Fault>
    ensures { Gives (λ _. (walk.now, front.new)) result (round_step walk.now.is_last walk.now front.old) }
{
    match walk.is_last() {
        None => Err(BEYOND),
        Some(true) => {
            front.set_rest(b"".as_slice());
            Ok(())
        }
        Some(false) => {
            front.step();
            Ok(())
        }
    }
}

/// What a pseudo-operation leaves, whose name is read.
fn form_step(
    table: &Table,
    form: Form,
    walk: &mut Walk<'_>,
    front: &mut Reading<'_>,
) -> Result<(), Fault>
    ensures { Gives (λ _. (walk.new, front.new)) result (form_step (scope_of table.now.entries walk.old) form walk.old front.old) }
{
    match form {
        Form::Loc => set_place(walk, front),
        Form::Radix => set_radix(walk, front),
        Form::Block => put_block(walk, front),
        Form::Lit => place_pool(walk, front),
        Form::End => end(table, walk, front),
        Form::Title | Form::Remark => skip_line(walk, front),
        Form::Stopi => stop(walk, front),
        form => {
            let words = data_next(table, form, walk, front)?;
            walk.put(words.as_slice())
        }
    }
}

/// Puts the words of a statement that gives words.
fn put_words(
    table: &Table,
    meant: Option<Meant>,
    walk: &mut Walk<'_>,
    front: &mut Reading<'_>,
) -> Result<(), Fault>
    ensures { Gives (λ _. (walk.new, front.new)) result (words_step walk.old (words_by (scope_of table.now.entries walk.old) meant front.old)) }
{
    let words = words_next(table, meant, walk, front)?;
    walk.put(words.as_slice())
}

/// What a statement leaves by what its first name is.
fn meant_step(
    table: &Table,
    meant: Option<Meant>,
    walk: &mut Walk<'_>,
    front: &mut Reading<'_>,
) -> Result<(), Fault>
    ensures { Gives (λ _. (walk.new, front.new)) result (meant_step (scope_of table.now.entries walk.old) meant walk.old front.old) }
{
    match meant {
        Some(Meant::Pseudo(form)) => {
            let len = front.word().len();
            front.advance(len);
            form_step(table, form, walk, front)
        }
        Some(Meant::Operation(named)) => {
            put_words(table, Some(Meant::Operation(named)), walk, front)
        }
        None => {
            if begins_with(253, front.rest()) {
                round(walk, front)
            } else {
                put_words(table, None, walk, front)
            }
        }
    }
}

/// A text after a character, if it begins with it.
fn less(c: u8, text: &[u8]) -> &[u8]
    ensures { result.now ≡ less c text.now }
{
    match text {
        [first, behind @ ..] if *first == c => behind,
        _ => text,
    }
}

/// Whether a text begins with a label.
fn is_label(text: &[u8]) -> bool
    ensures { result ≡ is_label text.now }
{
    begins_name(text) && begins_with(b':', behind_word(text))
}

/// What a label leaves, which is next.
#[tactic(auto, unfolding(crate::specs::Meaning::label_step))]
fn label(walk: &mut Walk<'_>, front: &mut Reading<'_>) -> Result<(), Fault>
    ensures { Gives (λ _. (walk.new, front.new)) result (label_step walk.old front.old) }
{
    let name = Symbol::of(front.word()).sixbit();
    if walk.is_barred(name) {
        return Err(BEYOND);
    }
    if !walk.takes_label(name) {
        return Err(WRONG);
    }
    let place = walk.place();
    walk.define(name, i64::from(place), true)?;
    let behind = behind_word(front.rest());
    front.set_rest(less(b'!', less(b':', less(b':', behind))));
    Ok(())
}

/// A text after a name and blanks.
fn behind_name(text: &[u8]) -> &[u8]
    ensures { result.now ≡ after_blanks (behind_word text.now) }
{
    let behind = behind_word(text);
    &behind[blanks_len(behind)..]
}

/// Whether a text begins with an assignment.
fn is_assignment(text: &[u8]) -> bool
    ensures { result ≡ is_assignment text.now }
{
    begins_name(text) && begins_with(b'=', behind_name(text))
}

/// What is assigned, after the name and its `=`.
fn assigned_text(text: &[u8]) -> &[u8]
    ensures { result.now ≡ assigned_text text.now }
{
    less(b'!', less(b':', less(b'=', less(b'=', behind_name(text)))))
}

/// What an assignment leaves, which is next.
#[tactic(auto, unfolding(crate::specs::Meaning::assignment_step))]
fn assignment(table: &Table, walk: &mut Walk<'_>, front: &mut Reading<'_>) -> Result<(), Fault>
    ensures { Gives (λ _. (walk.new, front.new)) result (assignment_step (scope_of table.now.entries walk.old) walk.old front.old) }
{
    let name = Symbol::of(front.word()).sixbit();
    let text = assigned_text(front.rest());
    front.set_rest(text);
    let known = is_early(walk, front)?;
    let Some(value) = inside_next(table, walk, front)? else {
        return Err(BEYOND);
    };
    let word = as_word(front.alloc(), &value)?;
    if walk.is_barred(name) {
        return Err(BEYOND);
    }
    if walk.is_label(name) {
        return Err(WRONG);
    }
    walk.trust(known);
    walk.define(name, word.signed(), false)?;
    Ok(())
}

/// Whether the end of a line, or a comment, is next.
fn is_at_end(front: &Reading<'_>) -> bool
    ensures { result ≡ ends_line (after_blanks front.now.rest) }
{
    ends_line(front.behind_blanks())
}

/// What a statement leaves by its first name; and the text that it puts in front.
#[tactic(auto, unfolding(crate::specs::Meaning::named_step))]
fn named(
    table: &Table,
    meant: Option<Meant>,
    walk: &mut Walk<'_>,
    front: &mut Reading<'_>,
) -> Result<Option<Vec<u8>>, Fault>
    ensures { Gives (λ text. (option_map (λ t. t.items) text, (walk.new, front.new))) result (named_step table.now.entries meant walk.old front.old) }
{
    if opens(&meant) {
        return opening(meant, walk, front);
    }
    meant_step(table, meant, walk, front)?;
    if is_at_end(front) {
        Ok(None)
    } else {
        Err(BEYOND)
    }
}

/// What an assignment leaves, which is next, with the end of its statement.
fn assigned(
    table: &Table,
    walk: &mut Walk<'_>,
    front: &mut Reading<'_>,
) -> Result<Option<Vec<u8>>, Fault>
    ensures { Gives (λ text. (option_map (λ t. t.items) text, (walk.new, front.new))) result (plain (ended (assignment_step (scope_of table.now.entries walk.old) walk.old front.old))) }
{
    assignment(table, walk, front)?;
    if is_at_end(front) {
        Ok(None)
    } else {
        Err(BEYOND)
    }
}

/// What an assignment or a statement leaves, which is next; and the text that it puts in front.
#[tactic(auto, unfolding(crate::specs::Meaning::unlabelled_step))]
fn unlabelled(
    table: &Table,
    walk: &mut Walk<'_>,
    front: &mut Reading<'_>,
) -> Result<Option<Vec<u8>>, Fault>
    ensures { Gives (λ text. (option_map (λ t. t.items) text, (walk.new, front.new))) result (unlabelled_step table.now.entries walk.old front.old) }
{
    if is_assignment(front.rest()) {
        return assigned(table, walk, front);
    }
    if is_call(walk, front.rest()) {
        return call(walk, front);
    }
    let meant = meant(front);
    named(table, meant, walk, front)
}

/// What a label or a statement leaves, which is next; and the text that it puts in front.
#[tactic(auto, unfolding(crate::specs::Meaning::step))]
pub fn step(
    table: &Table,
    walk: &mut Walk<'_>,
    front: &mut Reading<'_>,
) -> Result<Option<Vec<u8>>, Fault>
    ensures { Gives (λ text. (option_map (λ t. t.items) text, (walk.new, front.new))) result (step table.now.entries walk.old front.old) }
{
    if !is_label(front.rest()) {
        return unlabelled(table, walk, front);
    }
    label(walk, front)?;
    Ok(None)
}
