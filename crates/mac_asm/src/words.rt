//! The words of statements.

ghost use Rattle.std.specs.Prelude.{◌≡◌, ◌<◌, ◌≤◌, ◌^◌, ◌++◌, [], ◌∷◌};
ghost use Rattle.std.specs.Prelude.{Some, None, IfOk, IfSome, length, true, false};
ghost use Rattle.mac_layout.specs.Values.{names_of, is_known};
ghost use Rattle.mac_layout.specs.TextSizes.{words_in};
ghost use Rattle.mac_asm.specs.Words.{fitted, word_of, half_of, register_of, start_of, operand_of};
ghost use Rattle.mac_asm.specs.Words.{or_zero, AreFields, pointer_word, text_word};
ghost use Rattle.mac_asm.specs.Words.{is_missing, with_accumulator, with_operand, instruction_of};
ghost use Rattle.mac_asm.specs.Words.{at_most, position_of, pointer_of, halves_of, iowd_of};
ghost use Rattle.mac_asm.specs.Words.{words_of_all, text_words_from, is_known_if, is_operand_known, are_known, Adds};
ghost use Rattle.std.specs.List.{list_all};

use crate::texts::{ascii_word, sixbit_word};
use ka_isa::{Fields, decode, encode};
use mac_layout::{Scope, is_known, short_above, short_residue, short_value, text_words, value};
use mac_text::{Data, Expression, Instruction, Operand, Parts, TextForm};
use std::alloc::{AllocError, Global};
use whole_numbers::Natural;
use word36::Word;

/// The value of an `Option`; with None the function returns None.
macro_rules! known {
    ($value:expr) => {
        match $value {
            Some(value) => value,
            None => return Ok(None),
        }
    };
}

/// How many values a half of a word has.
const HALVES: u64 = 1 << 18;

/// The value of an expression modulo a size; None if a name is not known, or the value is below `-least` or above `most`.
#[tactic(auto, unfolding(crate::specs::Words::fitted, mac_layout::specs::Values::value_of, mac_layout::specs::Values::residue_of))]
#[inline(always)]
fn fitted<'a>(
    alloc: Global,
    expression: &'a Expression,
    scope: &Scope<'a>,
    least: u64,
    most: u64,
    size: u64,
) -> Result<Option<u64>, AllocError>
    requires least { least ≤ size }
    requires size { 0 < size }
    requires most { most < 2 ^ 63 }
    ensures value { IfOk result (λ r. r ≡ fitted (names_of scope.now) least most size expression.now) }
    ensures below { IfOk result (λ r. IfSome r (λ n. n < size)) }
{
    if let Parts::Number(number) = expression.parts() {
        return Ok(short_above(number, most, size));
    }
    match short_value(expression, scope) {
        Some(value) => Ok(short_residue(value, least, most, size)),
        None => long_fitted(alloc, expression, scope, least, most, size),
    }
}

/// The value of an expression that does not fit 64 bits, modulo a size; None if a name is not known, or the value is below
/// `-least` or above `most`.
#[tactic(auto, unfolding(crate::specs::Words::fitted))]
#[inline(never)]
fn long_fitted<'a>(
    alloc: Global,
    expression: &'a Expression,
    scope: &Scope<'a>,
    least: u64,
    most: u64,
    size: u64,
) -> Result<Option<u64>, AllocError>
    requires least { least ≤ size }
    requires size { 0 < size }
    requires most { most < 2 ^ 63 }
    ensures value { IfOk result (λ r. r ≡ fitted (names_of scope.now) least most size expression.now) }
    ensures below { IfOk result (λ r. IfSome r (λ n. n < size)) }
{
    let sum = known!(value(alloc, expression, scope)?);
    sum.residue(alloc, least, most, size)
}

/// The word of a value from -2^35 to 2^36-1.
pub fn word<'a>(
    alloc: Global,
    expression: &'a Expression,
    scope: &Scope<'a>,
) -> Result<Option<Word>, AllocError>
    ensures { IfOk result (λ r. r ≡ word_of (names_of scope.now) expression.now) }
{
    let number = known!(fitted(alloc, expression, scope, 1 << 35, (1 << 36) - 1, 1 << 36)?);
    Ok(Some(Word::new(number)))
}

/// A half of a value from -262143 to 262143.
fn half<'a>(
    alloc: Global,
    expression: &'a Expression,
    scope: &Scope<'a>,
) -> Result<Option<u32>, AllocError>
    ensures value { IfOk result (λ r. r ≡ half_of (names_of scope.now) expression.now) }
    ensures below { IfOk result (λ r. IfSome r (λ half. half < 2 ^ 18)) }
{
    let number = known!(fitted(alloc, expression, scope, 0o777_777, 0o777_777, HALVES)?);
    Ok(Some(number as u32))
}

/// A register of a value from 0 to 17 octal.
fn register<'a>(
    alloc: Global,
    expression: &'a Expression,
    scope: &Scope<'a>,
) -> Result<Option<u8>, AllocError>
    ensures value { IfOk result (λ r. r ≡ register_of (names_of scope.now) expression.now) }
    ensures below { IfOk result (λ r. IfSome r (λ register. register < 2 ^ 4)) }
{
    let number = known!(fitted(alloc, expression, scope, 0, 0o17, 0o20)?);
    Ok(Some(number as u8))
}

/// A start of a value from 0 to 777777 octal.
pub fn start<'a>(
    alloc: Global,
    expression: &'a Expression,
    scope: &Scope<'a>,
) -> Result<Option<u32>, AllocError>
    ensures value { IfOk result (λ r. r ≡ start_of (names_of scope.now) expression.now) }
    ensures below { IfOk result (λ r. IfSome r (λ address. address < 2 ^ 18)) }
{
    let number = known!(fitted(alloc, expression, scope, 0, 0o777_777, HALVES)?);
    Ok(Some(number as u32))
}

/// An index register, 0 where none is written.
fn index<'a>(
    alloc: Global,
    expression: &'a Option<Expression>,
    scope: &Scope<'a>,
) -> Result<Option<u8>, AllocError>
    ensures value { IfOk result (λ r. r ≡ or_zero (register_of (names_of scope.now)) expression.now) }
    ensures below { IfOk result (λ r. IfSome r (λ register. register < 2 ^ 4)) }
{
    match expression {
        None => Ok(Some(0)),
        Some(expression) => register(alloc, expression, scope),
    }
}

/// An address, 0 where none is written.
fn address<'a>(
    alloc: Global,
    expression: &'a Option<Expression>,
    scope: &Scope<'a>,
) -> Result<Option<u32>, AllocError>
    ensures value { IfOk result (λ r. r ≡ or_zero (half_of (names_of scope.now)) expression.now) }
    ensures below { IfOk result (λ r. IfSome r (λ half. half < 2 ^ 18)) }
{
    match expression {
        None => Ok(Some(0)),
        Some(expression) => half(alloc, expression, scope),
    }
}

/// The fields of an address part: indirect bit, index register and address, a missing part being 0.
#[tactic(auto, unfolding(crate::specs::Words::operand_of))]
#[inline(always)]
fn operand<'a>(
    alloc: Global,
    operand: &'a Operand,
    scope: &Scope<'a>,
) -> Result<Option<(bool, u8, u32)>, AllocError>
    ensures value { IfOk result (λ r. r ≡ operand_of (names_of scope.now) operand.now) }
    ensures below { IfOk result (λ r. IfSome r (λ p. (p.1 < 2 ^ 4) × (p.2 < 2 ^ 18))) }
{
    let x = known!(index(alloc, &operand.index, scope)?);
    let y = known!(address(alloc, &operand.address, scope)?);
    Ok(Some((operand.indirect, x, y)))
}

/// Whether nothing is written for an address part.
fn is_missing(operand: &Operand) -> bool
    ensures { result ≡ is_missing operand.now }
{
    !operand.indirect && operand.address.is_none() && operand.index.is_none()
}

/// The fields with the accumulator that is written.
#[tactic(auto, unfolding(crate::specs::Words::with_accumulator))]
fn with_accumulator<'a>(
    alloc: Global,
    mut fields: Fields,
    accumulator: &'a Option<Expression>,
    scope: &Scope<'a>,
) -> Result<Option<Fields>, AllocError>
    requires { AreFields fields }
    ensures value { IfOk result (λ r. r ≡ with_accumulator (names_of scope.now) fields accumulator.now) }
    ensures fields { IfOk result (λ r. IfSome r AreFields) }
{
    match accumulator {
        None => Ok(Some(fields)),
        Some(expression) => {
            fields.ac = known!(register(alloc, expression, scope)?);
            Ok(Some(fields))
        }
    }
}

/// The fields with the address part that is written.
#[tactic(auto, unfolding(crate::specs::Words::with_operand))]
fn with_operand<'a>(
    alloc: Global,
    mut fields: Fields,
    given: &'a Operand,
    scope: &Scope<'a>,
) -> Result<Option<Fields>, AllocError>
    requires { AreFields fields }
    ensures value { IfOk result (λ r. r ≡ with_operand (names_of scope.now) fields given.now) }
    ensures fields { IfOk result (λ r. IfSome r AreFields) }
{
    if is_missing(given) {
        return Ok(Some(fields));
    }
    let (i, x, y) = known!(operand(alloc, given, scope)?);
    fields.i = i;
    fields.x = x;
    fields.y = y;
    Ok(Some(fields))
}

/// The word of an instruction: that of its name, with the fields that are written.
#[tactic(auto, unfolding(crate::specs::Words::instruction_of))]
pub fn instruction<'a>(
    alloc: Global,
    given: &'a Instruction,
    scope: &Scope<'a>,
) -> Result<Option<Word>, AllocError>
    ensures { IfOk result (λ r. r ≡ instruction_of (names_of scope.now) given.now) }
{
    let fields = decode(given.word);
    let fields = known!(with_accumulator(alloc, fields, &given.accumulator, scope)?);
    let fields = known!(with_operand(alloc, fields, &given.operand, scope)?);
    Ok(Some(encode(fields)))
}

/// A number, where it is no larger.
fn at_most(most: u64, number: &Natural) -> Option<u64>
    requires { most < 2 ^ 63 }
    ensures value { result ≡ at_most most number.now }
    ensures below { IfSome result (λ n. n ≤ most) }
{
    match number.to_u64() {
        Some(number) => { if number <= most { Some(number) } else { None } }
        None => None,
    }
}

/// How many bits stand to the right of a byte; a byte of no position stands before the first bit.
#[tactic(auto, unfolding(crate::specs::Words::position_of))]
fn position(position: &Option<Natural>) -> Option<u64>
    ensures value { result ≡ position_of position.now }
    ensures below { IfSome result (λ p. p ≤ 36) }
{
    match position {
        None => Some(36),
        Some(position) => {
            let last = at_most(35, position)?;
            Some(35 - last)
        }
    }
}

/// The pointer to a byte of `size` bits, of which bit `last` of the word is the last.
#[tactic(auto, unfolding(crate::specs::Words::pointer_of))]
pub fn pointer<'a>(
    alloc: Global,
    size: &Natural,
    given: &'a Operand,
    last: &Option<Natural>,
    scope: &Scope<'a>,
) -> Result<Option<Word>, AllocError>
    ensures { IfOk result (λ r. r ≡ pointer_of (names_of scope.now) size.now given.now last.now) }
{
    let s = known!(at_most(36, size));
    let p = known!(position(last));
    let (i, x, y) = known!(operand(alloc, given, scope)?);
    Ok(Some(pointer_word(p, s, i, x, y)))
}

/// The word of a byte pointer.
fn pointer_word(p: u64, s: u64, i: bool, x: u8, y: u32) -> Word
    requires p { p ≤ 36 }
    requires s { s ≤ 36 }
    requires x { x < 2 ^ 4 }
    requires y { y < 2 ^ 18 }
    ensures { result ≡ pointer_word p s (i, x, y) }
{
    let indirect = if i { 1 << 22 } else { 0 };
    Word::new(p * (1 << 30) + s * (1 << 24) + indirect + u64::from(x) * (1 << 18) + u64::from(y))
}

/// `left,,right`.
#[tactic(auto, unfolding(crate::specs::Words::halves_of))]
pub fn halves<'a>(
    alloc: Global,
    left: &'a Expression,
    right: &'a Expression,
    scope: &Scope<'a>,
) -> Result<Option<Word>, AllocError>
    ensures { IfOk result (λ r. r ≡ halves_of (names_of scope.now) left.now right.now) }
{
    let left = known!(half(alloc, left, scope)?);
    let right = known!(half(alloc, right, scope)?);
    Ok(Some(Word::join(left, right)))
}

/// `-count,,address-1`.
#[tactic(auto, unfolding(crate::specs::Words::iowd_of))]
pub fn iowd<'a>(
    alloc: Global,
    count: &'a Expression,
    address: &'a Expression,
    scope: &Scope<'a>,
) -> Result<Option<Word>, AllocError>
    ensures { IfOk result (λ r. r ≡ iowd_of (names_of scope.now) count.now address.now) }
{
    let count = known!(value(alloc, count, scope)?);
    let address = known!(value(alloc, address, scope)?);
    let count = count.negated();
    let left = known!(count.residue(alloc, 0o777_777, 0o777_777, HALVES)?);
    let address = address.less_one(alloc)?;
    let right = known!(address.residue(alloc, 0o777_777, 0o777_777, HALVES)?);
    Ok(Some(Word::join(left as u32, right as u32)))
}

/// Word i of a text.
#[tactic(auto, unfolding(crate::specs::Words::text_word))]
fn text_word(form: TextForm, text: &[u8], i: usize) -> Option<Word>
    requires { i < words_in form (length text.now) }
    ensures { result ≡ text_word form text.now i }
{
    match form {
        TextForm::Ascii | TextForm::Asciz => Some(ascii_word(text, 5 * i)),
        TextForm::Sixbit => sixbit_word(text, 6 * i),
    }
}

/// Adds the words of a text; false where a character has no code.
pub fn push_text(words: &mut Vec<Word>, form: TextForm, text: &[u8]) -> Result<bool, AllocError>
    ensures { IfOk result (λ added. Adds added words.old.items words.new.items
        (text_words_from form text.now 0 (words_in form (length text.now)))) }
{
    for i in 0..text_words(form, text.len()) {
        match text_word(form, text, i) {
            None => return Ok(false),
            Some(word) => words.push(word)?,
        }
    }
    Ok(true)
}

/// Adds the words of values; false where one is not known or does not fit.
pub fn push_all<'a>(
    alloc: Global,
    words: &mut Vec<Word>,
    expressions: &'a [Expression],
    scope: &Scope<'a>,
) -> Result<bool, AllocError>
    ensures { IfOk result (λ added. Adds added words.old.items words.new.items
        (words_of_all (word_of (names_of scope.now)) expressions.now)) }
{
    for expression in expressions {
        match word(alloc, expression, scope)? {
            None => return Ok(false),
            Some(word) => words.push(word)?,
        }
    }
    Ok(true)
}

fn is_operand_known<'a>(operand: &'a Operand, scope: &Scope<'a>) -> bool
    ensures { result ≡ is_operand_known (names_of scope.now) operand.now }
{
    is_known_if(&operand.address, scope) && is_known_if(&operand.index, scope)
}

/// Whether all names of an expression are known, where there is one.
pub fn is_known_if<'a>(expression: &'a Option<Expression>, scope: &Scope<'a>) -> bool
    ensures { result ≡ is_known_if (names_of scope.now) expression.now }
{
    match expression {
        None => true,
        Some(expression) => is_known(expression, scope),
    }
}

/// Whether all names of expressions are known.
fn are_all_known<'a>(expressions: &'a [Expression], scope: &Scope<'a>) -> bool
    ensures { result ≡ list_all (is_known (names_of scope.now)) expressions.now }
{
    for expression in expressions {
        if !is_known(expression, scope) {
            return false;
        }
    }
    true
}

/// Whether all names of a statement are known. Those of BLOCK are: the layout has found its count.
#[tactic(auto, unfolding(crate::specs::Words::are_known))]
pub fn are_known<'a>(data: &'a Data, scope: &Scope<'a>) -> bool
    ensures { result ≡ are_known (names_of scope.now) data.now }
{
    match data {
        Data::Value(expression) => is_known(expression, scope),
        Data::Halves(left, right) | Data::Iowd(left, right) => {
            is_known(left, scope) && is_known(right, scope)
        }
        Data::Exp(expressions) => are_all_known(expressions.as_slice(), scope),
        Data::Point(_, address, _) => is_operand_known(address, scope),
        Data::Text(_, _) | Data::Block(_) => true,
        Data::Instruction(given) => {
            is_known_if(&given.accumulator, scope) && is_operand_known(&given.operand, scope)
        }
    }
}
