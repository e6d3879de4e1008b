//! Conditions, repetitions and macros: what puts a text before the rest.

ghost use Rattle.std.specs.Prelude.{◌≡◌};
ghost use Rattle.std.specs.Option.{option_map};
ghost use Rattle.macro_expressions.specs.Reading.{Gives};
ghost use Rattle.macro_expansion.specs.Brackets.{times};
ghost use Rattle.macro_meaning.specs.Meaning.{text_if, as_wanted, holds, number_step, repeat_step, blank_step, same_step, is_asked, defined_step};
ghost use Rattle.macro_meaning.specs.Meaning.{takes_macro, define_step, comment_text, comment_step, irp_step, is_call, call_step};
ghost use Rattle.macro_meaning.specs.Meaning.{opens, is_opening, opening_step, opening_of};

use crate::early::sure_number;
use crate::walk::Walk;
use mac_text::Symbol;
use macro_expansion::{
    call as call_text, compared, definition, elements, has_marks, is_spaces, lined, past_comma,
    rounds, text_next, up_to_next,
};
use macro_expressions::{BEYOND, Fault, Reading, begins_name};
use macro_statements::{Form, Meant, Test, behind_word, built_in, first_word};

/// How many names are too many.
const MOST_MADE: u32 = 10_000;

/// The text of a condition if it holds, which comes next in what is left after what it asks; goes on after the text.
#[tactic(auto, unfolding(crate::specs::Meaning::text_if))]
fn text_if<'a>(
    is_true: bool,
    front: &mut Reading<'a>,
    rest: &'a [u8],
) -> Result<Option<Vec<u8>>, Fault>
    ensures { Gives (λ text. (option_map (λ t. t.items) text, front.new)) result (text_if is_true front.old rest.now) }
{
    let (text, behind) = text_next(rest)?;
    front.set_rest(behind);
    if !is_true {
        return Ok(None);
    }
    Ok(Some(lined(front.alloc(), text)?))
}

/// Whether what is asked for is as it is wanted.
fn as_wanted(wanted: bool, is: bool) -> bool
    ensures { result ≡ as_wanted wanted is }
{
    if wanted { is } else { !is }
}

/// Whether a number is as a condition asks.
fn holds(test: Test, number: i64) -> bool
    ensures { result ≡ holds test number }
{
    match test {
        Test::Equal => number == 0,
        Test::Unequal => number != 0,
        Test::Greater => number > 0,
        Test::NotLess => number >= 0,
        Test::Less => number < 0,
        Test::NotGreater => number <= 0,
    }
}

/// IFE and its like.
#[tactic(auto, unfolding(crate::specs::Meaning::number_step))]
fn number(test: Test, walk: &Walk<'_>, front: &mut Reading<'_>) -> Result<Option<Vec<u8>>, Fault>
    ensures { Gives (λ text. (option_map (λ t. t.items) text, front.new)) result (number_step test walk.now front.old) }
{
    let (number, rest) = sure_number(walk, front)?;
    text_if(holds(test, number), front, rest)
}

/// A number of times; one that is not positive is 0.
fn times(number: i64) -> usize
    ensures { result ≡ times number }
{
    if number <= 0 { 0 } else { number as usize }
}

/// REPEAT.
#[tactic(auto, unfolding(crate::specs::Meaning::repeat_step))]
fn repeat(walk: &Walk<'_>, front: &mut Reading<'_>) -> Result<Option<Vec<u8>>, Fault>
    ensures { Gives (λ text. (option_map (λ t. t.items) text, front.new)) result (repeat_step walk.now front.old) }
{
    let (number, rest) = sure_number(walk, front)?;
    let (text, behind) = text_next(rest)?;
    let round = lined(front.alloc(), text)?;
    let all = rounds(front.alloc(), times(number), round.as_slice())?;
    front.set_rest(behind);
    Ok(Some(all))
}

/// IFB and IFNB.
#[tactic(auto, unfolding(crate::specs::Meaning::blank_step))]
fn blank(wanted: bool, front: &mut Reading<'_>) -> Result<Option<Vec<u8>>, Fault>
    ensures { Gives (λ text. (option_map (λ t. t.items) text, front.new)) result (blank_step wanted front.old) }
{
    let (text, rest) = compared(front.rest())?;
    text_if(as_wanted(wanted, is_spaces(text)), front, rest)
}

/// IFIDN and IFDIF.
#[tactic(auto, unfolding(crate::specs::Meaning::same_step))]
fn same(wanted: bool, front: &mut Reading<'_>) -> Result<Option<Vec<u8>>, Fault>
    ensures { Gives (λ text. (option_map (λ t. t.items) text, front.new)) result (same_step wanted front.old) }
{
    let (one, behind) = compared(front.rest())?;
    let (other, rest) = compared(past_comma(behind))?;
    text_if(as_wanted(wanted, one == other), front, rest)
}

/// Whether the name that a text begins with can be asked for.
fn is_asked(walk: &Walk<'_>, text: &[u8]) -> bool
    ensures { result ≡ is_asked walk.now text.now }
{
    walk.is_sure() && begins_name(text) && !walk.is_callable(first_word(text))
}

/// IFDEF and IFNDEF.
#[tactic(auto, unfolding(crate::specs::Meaning::defined_step))]
fn defined(
    wanted: bool,
    walk: &mut Walk<'_>,
    front: &mut Reading<'_>,
) -> Result<Option<Vec<u8>>, Fault>
    ensures { Gives (λ text. (option_map (λ t. t.items) text, (walk.new, front.new))) result (defined_step wanted walk.old front.old) }
{
    let text = front.behind_blanks();
    if !is_asked(walk, text) {
        return Err(BEYOND);
    }
    let word = first_word(text);
    let is_known = walk.is_known(word);
    walk.ask(word)?;
    let text = text_if(as_wanted(wanted, is_known), front, behind_word(text))?;
    Ok(text)
}

/// Whether the name that a text begins with can be that of a macro.
fn takes_macro(walk: &Walk<'_>, text: &[u8]) -> bool
    ensures { result ≡ takes_macro walk.now text.now }
{
    let word = first_word(text);
    begins_name(text) && walk.is_callable(word) && built_in(word).is_none()
}

/// DEFINE.
#[tactic(auto, unfolding(crate::specs::Meaning::define_step))]
fn define(walk: &mut Walk<'_>, front: &mut Reading<'_>) -> Result<Option<Vec<u8>>, Fault>
    ensures { Gives (λ text. (option_map (λ t. t.items) text, (walk.new, front.new))) result (define_step walk.old front.old) }
{
    let text = front.behind_blanks();
    if !takes_macro(walk, text) {
        return Err(BEYOND);
    }
    let (kept, rest) = definition(front.alloc(), behind_word(text))?;
    walk.keep(Symbol::of(first_word(text)).sixbit(), kept.as_slice())?;
    front.set_rest(rest);
    Ok(None)
}

/// The text of COMMENT between two equal marks, of which the first is next, and what comes after.
fn comment_text(text: &[u8]) -> Option<(&[u8], &[u8])>
    ensures { option_map (λ x. (x.0.now, x.1.now)) result ≡ comment_text text.now }
{
    match text {
        [] | [b'\n' | b'\r', ..] => None,
        [mark, body @ ..] => up_to_next(*mark, body),
    }
}

/// COMMENT.
#[tactic(auto, unfolding(crate::specs::Meaning::comment_step))]
fn comment(front: &mut Reading<'_>) -> Result<Option<Vec<u8>>, Fault>
    ensures { Gives (λ text. (option_map (λ t. t.items) text, front.new)) result (comment_step front.old) }
{
    let Some((text, rest)) = comment_text(front.behind_blanks()) else {
        return Err(BEYOND);
    };
    if has_marks(text) {
        return Err(BEYOND);
    }
    front.set_rest(rest);
    Ok(None)
}

/// IRP, and by characters IRPC.
#[tactic(auto, unfolding(crate::specs::Meaning::irp_step))]
fn irp(by_character: bool, front: &mut Reading<'_>) -> Result<Option<Vec<u8>>, Fault>
    ensures { Gives (λ text. (option_map (λ t. t.items) text, front.new)) result (irp_step by_character front.old) }
{
    let (rounds, rest) = elements(front.alloc(), by_character, front.rest())?;
    front.set_rest(rest);
    Ok(Some(rounds))
}

/// Whether a name that may be a macro is next.
pub fn is_call(walk: &Walk<'_>, text: &[u8]) -> bool
    ensures { result ≡ is_call walk.now text.now }
{
    begins_name(text) && walk.is_callable(first_word(text))
}

/// The call of a macro, whose name is next: its body with its arguments.
#[tactic(auto, unfolding(crate::specs::Meaning::call_step))]
pub fn call(walk: &mut Walk<'_>, front: &mut Reading<'_>) -> Result<Option<Vec<u8>>, Fault>
    ensures { Gives (λ text. (option_map (λ t. t.items) text, (walk.new, front.new))) result (call_step walk.old front.old) }
{
    let Some(at) = walk.macro_at(Symbol::of(front.word()).sixbit()) else {
        return Err(BEYOND);
    };
    let mut made = walk.made();
    let behind = behind_word(front.rest());
    let (text, rest) = call_text(front.alloc(), walk.kept_from(at), &mut made, behind)?;
    if made >= MOST_MADE {
        return Err(BEYOND);
    }
    walk.set_made(made);
    front.set_rest(rest);
    Ok(Some(text))
}

/// Whether a pseudo-operation is a condition, a repetition, DEFINE or COMMENT.
fn form_opens(form: Form) -> bool
    ensures { result ≡ opens form }
{
    match form {
        Form::Repeat | Form::If(_) | Form::IfDefined(_) | Form::IfSame(_) => true,
        Form::IfBlank(_) | Form::Define | Form::Comment | Form::Irp(_) => true,
        _ => false,
    }
}

/// Whether a name is a condition, a repetition, DEFINE or COMMENT.
pub fn opens(meant: &Option<Meant>) -> bool
    ensures { result ≡ is_opening meant.now }
{
    match meant {
        Some(Meant::Pseudo(form)) => form_opens(*form),
        _ => false,
    }
}

/// What a condition, a repetition, DEFINE or COMMENT leaves, whose name is read; and the text that it puts in front.
fn form_opening(
    form: Form,
    walk: &mut Walk<'_>,
    front: &mut Reading<'_>,
) -> Result<Option<Vec<u8>>, Fault>
    ensures { Gives (λ text. (option_map (λ t. t.items) text, (walk.new, front.new))) result (opening_step form walk.old front.old) }
{
    match form {
        Form::Repeat => Ok(repeat(walk, front)?),
        Form::If(test) => Ok(number(test, walk, front)?),
        Form::IfDefined(wanted) => defined(wanted, walk, front),
        Form::IfSame(wanted) => Ok(same(wanted, front)?),
        Form::IfBlank(wanted) => Ok(blank(wanted, front)?),
        Form::Define => define(walk, front),
        Form::Comment => Ok(comment(front)?),
        Form::Irp(by_character) => Ok(irp(by_character, front)?),
        _ => Err(BEYOND),
    }
}

/// What a condition, a repetition, DEFINE or COMMENT leaves, whose name is next; and the text that it puts in front.
#[tactic(auto, unfolding(crate::specs::Meaning::opening_of))]
pub fn opening(
    meant: Option<Meant>,
    walk: &mut Walk<'_>,
    front: &mut Reading<'_>,
) -> Result<Option<Vec<u8>>, Fault>
    ensures { Gives (λ text. (option_map (λ t. t.items) text, (walk.new, front.new))) result (opening_of meant walk.old front.old) }
{
    match meant {
        Some(Meant::Pseudo(form)) => {
            let len = front.word().len();
            front.advance(len);
            form_opening(form, walk, front)
        }
        _ => Err(BEYOND),
    }
}
