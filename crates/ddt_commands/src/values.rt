//! Values: sums of numbers, texts and symbols, two halves, and instructions.

ghost use Rattle.std.specs.Prelude.{◌≡◌, ◌≤◌, ◌<◌, ◌^◌, true, length, take};
ghost use Rattle.std.specs.List.{list_all};
ghost use Rattle.word36.specs.Words.{signed_value};
ghost use Rattle.ddt_commands.specs.Values.{Gives, address_of, addressed, beside, defined, factor, halves, index_at, indexed, indirect, instruction_in};
ghost use Rattle.ddt_commands.specs.Values.{is_inside, name_of, operand, operands, product_of, quotient, radix_value, repeated, signed_at, sum_of};
ghost use Rattle.ddt_commands.specs.Values.{escaped_at, summand, term_at, term_of, typed, upper_name, value_in, value_of, word_value};

use crate::limits::Limit;
use crate::line_errors::LineError;
use crate::numbers::number;
use crate::reader::{Reader, begins, begins_escape, behind, is_second};
use crate::typed_texts::{ascii_text, sixbit_text};
use arrayvec::ArrayString;
use ka_isa::{Named, named};
use word36::{Word, sixbit};

/// A symbol and what it stands for.
#[derive(Clone, Copy)]
pub struct Symbol {
    /// Its six characters in SIXBIT, the first in the highest bits; blanks, of code 0, stand after a
    /// shorter name.
    pub name: u64,
    /// What it stands for.
    pub value: Word,
}

/// What the symbols of a line, `.` and `$Q` stand for.
#[derive(Clone, Copy)]
pub struct Scope<'a> {
    /// The symbols of the program.
    pub symbols: &'a [Symbol],
    /// The address that is open, or was open last: `.`.
    pub here: Word,
    /// The last quantity: `$Q`.
    pub last: Word,
}

/// The largest number of a word.
const MOST_WORD: u64 = (1 << 36) - 1;

/// How many characters of a name count.
const NAME_CHARACTERS: usize = 6;

/// The bit of an instruction that makes its address indirect.
const INDIRECT: u64 = 1 << 22;

/// The lowest bit of the left half of a word.
const HALF: u64 = 1 << 18;

/// The lowest bit of the accumulator of an instruction.
const ACCUMULATOR: u64 = 1 << 23;

/// The first six characters of a word, in upper case.
fn upper(word: &[u8]) -> ArrayString<NAME_CHARACTERS>
    requires { list_all is_inside word.now ≡ true }
    ensures { result.bytes ≡ upper_name word.now }
{
    let mut upper = ArrayString::new();
    let first = &word[..word.len().min(NAME_CHARACTERS)];
    for byte in first {
        upper.push(char::from(byte.to_ascii_uppercase()));
    }
    upper
}

/// The name of a word, of which the first six characters count.
fn name_of(word: &[u8]) -> u64
    requires { list_all is_inside word.now ≡ true }
    ensures { result ≡ name_of word.now }
{
    match sixbit(upper(word).as_str().as_bytes()) {
        Some(name) => name.number(),
        None => 0,
    }
}

impl Scope<'_> {
    /// The value of a symbol, if it is defined.
    fn value_of(&self, name: u64) -> Option<Word>
        ensures { result ≡ value_in self.now.symbols.now name }
    {
        for symbol in self.symbols {
            if symbol.name == name {
                return Some(symbol.value);
            }
        }
        None
    }
}

/// A word as a signed number of 36 bits.
fn signed(word: Word) -> i64
    ensures { result ≡ signed_value word }
{
    let number = word.number() as i64;
    if number < 1 << 35 {
        number
    } else {
        number - (1 << 36)
    }
}

/// The value of some digits of a radix, which is no larger than a word.
fn typed(radix: u8, digits: &[u8], fault: LineError) -> Result<i64, LineError>
    requires { (2 ≤ radix) × (radix ≤ 10) }
    ensures { result ≡ typed radix digits.now fault }
{
    match number(radix, digits) {
        Some(number) if number <= MOST_WORD => Ok(number as i64),
        Some(_) => Err(LineError::Beyond(Limit::Word)),
        None => Err(fault),
    }
}

/// What a name stands for, as a signed number.
fn defined(word: &[u8], scope: &Scope<'_>) -> Result<i64, LineError>
    requires { list_all is_inside word.now ≡ true }
    ensures { result ≡ defined (name_of word.now) (value_in scope.now.symbols.now (name_of word.now)) }
{
    let name = name_of(word);
    match scope.value_of(name) {
        Some(value) => Ok(signed(value)),
        None => Err(LineError::Undefined(name)),
    }
}

/// The value of a number or a name: digits are octal, or decimal with a point after them. What a name stands for is a signed
/// number.
fn word_value(word: &[u8], scope: &Scope<'_>) -> Result<i64, LineError>
    requires { list_all is_inside word.now ≡ true }
    ensures { result ≡ word_value scope.now word.now }
{
    match word {
        [] => Err(LineError::NoValue),
        [b'.'] => Ok(signed(scope.here)),
        [first, ..] if !first.is_ascii_digit() => defined(word, scope),
        [digits @ .., b'.'] => typed(10, digits, LineError::NoDecimal),
        _ => typed(8, word, LineError::NoOctal),
    }
}

/// The value of digits after `^` and a letter: decimal after `^D`, octal after `^O`, binary after `^B`.
fn radix_value(letter: u8, digits: &[u8]) -> Result<i64, LineError>
    ensures { result ≡ radix_value letter digits.now }
{
    match letter.to_ascii_uppercase() {
        b'D' => typed(10, digits, LineError::NoDecimal),
        b'O' => typed(8, digits, LineError::NoOctal),
        b'B' => typed(2, digits, LineError::NoBinary),
        _ => Err(LineError::NoRadixLetter),
    }
}

/// Reads a term, before which no blanks are: a number, a name, `.`, `$Q`, a text as in `"/ABCDE/` or `$"/ABCDEF/`, or digits of
/// another radix as in `^D10`.
fn term_here(reader: &mut Reader<'_>, scope: &Scope<'_>) -> Result<i64, LineError>
    ensures { Gives (λ z. (z, reader.new.rest.now)) result (term_at scope.now reader.old.rest.now) }
{
    let text = reader.rest;
    if begins(b'"', text) {
        return match ascii_text(behind(text, 1)) {
            Ok((value, after)) => {
                reader.rest = after;
                Ok(value)
            }
            Err(error) => Err(error),
        };
    }
    if begins_escape(text) {
        return escaped_term(reader, scope);
    }
    if begins(b'^', text) && text.len() > 1 {
        reader.rest = behind(text, 2);
        let digits = reader.word();
        return radix_value(text[1], digits);
    }
    let word = reader.word();
    word_value(word, scope)
}

/// Reads a term that begins with `$`: `$Q`, or a text as in `$"/ABCDEF/`.
fn escaped_term(reader: &mut Reader<'_>, scope: &Scope<'_>) -> Result<i64, LineError>
    ensures { Gives (λ z. (z, reader.new.rest.now)) result (escaped_at scope.now reader.old.rest.now) }
{
    let text = reader.rest;
    if is_second(b'"', text) {
        return match sixbit_text(behind(text, 2)) {
            Ok((value, after)) => {
                reader.rest = after;
                Ok(value)
            }
            Err(error) => Err(error),
        };
    }
    if is_second(b'Q', text) || is_second(b'q', text) {
        reader.rest = behind(text, 2);
        return Ok(signed(scope.last));
    }
    Err(LineError::NoEscape)
}

/// Reads a term, as a product has them.
#[tactic(auto, unfolding(crate::specs::Values::term_of))]
fn term(reader: &mut Reader<'_>, scope: &Scope<'_>) -> Result<i64, LineError>
    ensures { Gives (λ z. (z, reader.new.rest.now)) result (term_of scope.now reader.old.rest.now) }
{
    reader.skip();
    term_here(reader, scope)
}

/// The quotient of two numbers, cut towards 0.
fn quotient(value: i64, divisor: i64) -> Result<i64, LineError>
    ensures { result ≡ quotient value divisor }
{
    if divisor == 0 {
        return Err(LineError::NoQuotient);
    }
    Ok(value.saturating_div(divisor))
}

/// Reads one more term of a product, if one comes: after `*`, or after `'`, which divides as in DDT.
fn factor(value: i64, reader: &mut Reader<'_>, scope: &Scope<'_>) -> Result<Option<i64>, LineError>
    ensures { Gives (λ more. (more, reader.new.rest.now)) result (factor scope.now value reader.old.rest.now) }
{
    reader.skip();
    if reader.eat(b'*') {
        let other = term(reader, scope)?;
        return Ok(Some(value.saturating_mul(other)));
    }
    if reader.eat(b'\'') {
        let other = term(reader, scope)?;
        return match quotient(value, other) {
            Ok(cut) => Ok(Some(cut)),
            Err(error) => Err(error),
        };
    }
    Ok(None)
}

/// Reads a product of terms.
#[tactic(auto, unfolding(crate::specs::Values::product_of))]
fn product(reader: &mut Reader<'_>, scope: &Scope<'_>) -> Result<i64, LineError>
    ensures { Gives (λ z. (z, reader.new.rest.now)) result (product_of scope.now reader.old.rest.now) }
{
    let mut value = term(reader, scope)?;
    let most = reader.rest.len();
    'factors: for _ in 0..most {
        match factor(value, reader, scope) {
            Ok(step) => match step {
                Some(more) => value = more,
                None => return Ok(value),
            },
            Err(error) => return Err(error),
        }
    }
    Ok(value)
}

/// Reads one more product of a sum, if one comes: after `+` or `-`.
fn summand(value: i64, reader: &mut Reader<'_>, scope: &Scope<'_>) -> Result<Option<i64>, LineError>
    ensures { Gives (λ more. (more, reader.new.rest.now)) result (summand scope.now value reader.old.rest.now) }
{
    if reader.eat(b'-') {
        let other = product(reader, scope)?;
        return Ok(Some(value.saturating_sub(other)));
    }
    if reader.eat(b'+') {
        let other = product(reader, scope)?;
        return Ok(Some(value.saturating_add(other)));
    }
    Ok(None)
}

/// Reads the first product of a sum, which a `-` before it negates.
fn signed_product(reader: &mut Reader<'_>, scope: &Scope<'_>) -> Result<i64, LineError>
    ensures { Gives (λ z. (z, reader.new.rest.now)) result (signed_at scope.now reader.old.rest.now) }
{
    if reader.eat(b'-') {
        let value = product(reader, scope)?;
        return Ok(0i64.saturating_sub(value));
    }
    product(reader, scope)
}

/// Reads a sum of products. It has as many bits as it takes.
#[tactic(auto, unfolding(crate::specs::Values::sum_of))]
fn sum(reader: &mut Reader<'_>, scope: &Scope<'_>) -> Result<i64, LineError>
    ensures { Gives (λ z. (z, reader.new.rest.now)) result (sum_of scope.now reader.old.rest.now) }
{
    reader.skip();
    let mut value = signed_product(reader, scope)?;
    let most = reader.rest.len();
    'summands: for _ in 0..most {
        match summand(value, reader, scope) {
            Ok(step) => match step {
                Some(more) => value = more,
                None => return Ok(value),
            },
            Err(error) => return Err(error),
        }
    }
    Ok(value)
}

/// Reads an index register in parentheses, as bits of an instruction; 0 if there is none.
#[tactic(auto, unfolding(crate::specs::Values::index_at))]
fn index_register(reader: &mut Reader<'_>, scope: &Scope<'_>) -> Result<u64, LineError>
    ensures value { Gives (λ n. (n, reader.new.rest.now)) result (index_at scope.now reader.old.rest.now) }
{
    if !reader.eat(b'(') {
        return Ok(0);
    }
    let index = sum(reader, scope)?;
    if !reader.eat(b')') {
        return Err(LineError::NoParenthesis);
    }
    match Limit::Index.bits(index) {
        Ok(index) => Ok(index * HALF),
        Err(error) => Err(error),
    }
}

/// Reads the index register after an address, if there is one, and puts both together with these bits.
#[tactic(auto, unfolding(crate::specs::Values::indexed))]
fn with_index(
    address: i64,
    bits: u64,
    reader: &mut Reader<'_>,
    scope: &Scope<'_>,
) -> Result<Word, LineError>
    ensures { Gives (λ w. (w, reader.new.rest.now)) result (indexed scope.now address bits reader.old.rest.now) }
{
    let address = match Limit::Address.bits(address) {
        Ok(address) => address,
        Err(error) => return Err(error),
    };
    let index = index_register(reader, scope)?;
    Ok(Word::low_bits(bits | index | address))
}

/// Reads the address of an instruction, whose `@` is passed already. It is 0 if it is left out before an index register, or at
/// the end if that is allowed.
#[tactic(auto, unfolding(crate::specs::Values::operand))]
fn read_operand(
    may_be_empty: bool,
    reader: &mut Reader<'_>,
    scope: &Scope<'_>,
) -> Result<i64, LineError>
    ensures { Gives (λ z. (z, reader.new.rest.now)) result (operand scope.now may_be_empty reader.old.rest.now) }
{
    reader.skip();
    match reader.rest {
        [] if may_be_empty => Ok(0),
        [b'(', ..] => Ok(0),
        _ => sum(reader, scope),
    }
}

/// Reads the text after a sum: an index register, `,,` and another sum, or nothing.
#[tactic(auto, unfolding(crate::specs::Values::beside))]
fn behind_sum(first: i64, reader: &mut Reader<'_>, scope: &Scope<'_>) -> Result<Word, LineError>
    ensures { Gives (λ w. (w, reader.new.rest.now)) result (beside scope.now first reader.old.rest.now) }
{
    match reader.rest {
        [b'(', ..] => with_index(first, 0, reader, scope),
        [b',', b',', rest @ ..] => {
            reader.rest = rest;
            let second = sum(reader, scope)?;
            match (Limit::Half.bits(first), Limit::Half.bits(second)) {
                (Ok(left), Ok(right)) => Ok(Word::new(left * HALF + right)),
                (Err(error), _) => Err(error),
                (_, Err(error)) => Err(error),
            }
        }
        _ => match Limit::Word.bits(first) {
            Ok(word) => Ok(Word::new(word)),
            Err(error) => Err(error),
        },
    }
}

/// Reads a sum, two with `,,` between them for the halves of a word, or an address as in `@5(3)`.
#[tactic(auto, unfolding(crate::specs::Values::halves))]
fn halves(reader: &mut Reader<'_>, scope: &Scope<'_>) -> Result<Word, LineError>
    ensures { Gives (λ w. (w, reader.new.rest.now)) result (halves scope.now reader.old.rest.now) }
{
    reader.skip();
    if reader.eat(b'@') {
        let address = read_operand(false, reader, scope)?;
        return with_index(address, INDIRECT, reader, scope);
    }
    let first = sum(reader, scope)?;
    behind_sum(first, reader, scope)
}

/// The bit of an instruction that makes its address indirect, if it is.
fn indirect(is_indirect: bool) -> u64
    ensures { result ≡ indirect is_indirect }
{
    if is_indirect { INDIRECT } else { 0 }
}

/// Reads the address and the index register after an accumulator and its comma, and adds them to bits of an instruction.
#[tactic(auto, unfolding(crate::specs::Values::addressed))]
fn with_address(bits: u64, reader: &mut Reader<'_>, scope: &Scope<'_>) -> Result<Word, LineError>
    ensures { Gives (λ w. (w, reader.new.rest.now)) result (addressed scope.now bits reader.old.rest.now) }
{
    reader.skip();
    let is_indirect = reader.eat(b'@');
    let address = read_operand(true, reader, scope)?;
    with_index(address, bits | indirect(is_indirect), reader, scope)
}

/// Reads the accumulator, the address and the index register of an instruction, and adds them to its word.
#[tactic(auto, unfolding(crate::specs::Values::operands))]
fn with_operands(word: Word, reader: &mut Reader<'_>, scope: &Scope<'_>) -> Result<Word, LineError>
    ensures { Gives (λ w. (w, reader.new.rest.now)) result (operands scope.now word reader.old.rest.now) }
{
    reader.skip();
    if reader.rest.is_empty() {
        return Ok(word);
    }
    let is_indirect = reader.eat(b'@');
    let first = read_operand(false, reader, scope)?;
    if !is_indirect && reader.eat(b',') {
        return match Limit::Accumulator.bits(first) {
            Ok(accumulator) => with_address(
                word.number() | (accumulator * ACCUMULATOR),
                reader,
                scope,
            ),
            Err(error) => Err(error),
        };
    }
    with_index(first, word.number() | indirect(is_indirect), reader, scope)
}

/// The instruction that a word names. A symbol hides the instruction of its name, and a word of more than six characters names
/// no instruction.
fn instruction_of(word: &[u8], scope: &Scope<'_>) -> Option<Named>
    requires { list_all is_inside word.now ≡ true }
    ensures { result ≡ instruction_in scope.now word.now }
{
    if word.len() > NAME_CHARACTERS || scope.value_of(name_of(word)).is_some() {
        return None;
    }
    named(upper(word).as_str())
}

/// Reads a text as a value: a sum, two halves, an address with `@` or an index register, or an instruction.
#[tactic(auto, unfolding(crate::specs::Values::value_of))]
pub fn read_value(text: &[u8], scope: &Scope<'_>) -> Result<Word, LineError>
    ensures { result ≡ value_of scope.now text.now }
{
    let mut reader = Reader { rest: text };
    reader.skip();
    let mut ahead = reader;
    let word = ahead.word();
    let value = match instruction_of(word, scope) {
        Some(instruction) => with_operands(instruction.word, &mut ahead, scope),
        None => {
            ahead = reader;
            halves(&mut ahead, scope)
        }
    };
    ahead.skip();
    match value {
        Ok(_) if !ahead.rest.is_empty() => Err(LineError::BehindValue),
        value => value,
    }
}

/// Reads a text as an address: a value of at most 777777 octal.
#[tactic(auto, unfolding(crate::specs::Values::address_of))]
pub fn read_address(text: &[u8], scope: &Scope<'_>) -> Result<u32, LineError>
    ensures { result ≡ address_of scope.now text.now }
{
    match read_value(text, scope) {
        Ok(value) if value.left() == 0 => Ok(value.right()),
        Ok(_) => Err(LineError::LargeAddress),
        Err(error) => Err(error),
    }
}
