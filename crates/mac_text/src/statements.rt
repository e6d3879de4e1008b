//! Statements.

ghost use Rattle.std.specs.Prelude.{◌≡◌, ◌≤◌, length};
ghost use Rattle.std.specs.Str.{IsAscii};
ghost use Rattle.mac_text.specs.Scan.{Gives, after_blanks, word_of, present, with_front, items_at};
ghost use Rattle.mac_text.specs.declared.syntax.Data.TheVariants as data_of;
ghost use Rattle.mac_text.specs.Statements.{with_data, index_at, operand_at, operands_at, is_allowed};
ghost use Rattle.mac_text.specs.Statements.{instruction_at, pair_at, next_expression_at};
ghost use Rattle.mac_text.specs.Statements.{expressions_at, decimal_at, number_at, point_at, value_at};
ghost use Rattle.mac_text.specs.Statements.{form_at, formed_at, operation_of, statement_at};
ghost use Rattle.mac_text.specs.Names.{folded};
ghost use Rattle.mac_text.specs.Keywords.{form_of};

use crate::expressions::{expression, is_name, marked_number, optional_expression};
use crate::fault::{Fault, Wanted};
use crate::keyword::{Form, form_of};
use crate::numbers::number;
use crate::operations::operation;
use crate::optional::{clear, fill};
use crate::scanner::Scanner;
use crate::sequence::Sequence;
use crate::sum::Expression;
use crate::symbol::folded;
use crate::syntax::{Data, Instruction, Operand, Statement};
use ka_isa::{Named, named};
use whole_numbers::Natural;

/// The register of an address part: an expression in parentheses, or nothing.
#[inline(always)]
#[tactic(auto, unfolding(crate::specs::Statements::index_at))]
fn index(scan: &mut Scanner<'_>, out: &mut Option<Expression>) -> Result<(), Fault>
    ensures { Gives (λ _. (out.new, scan.new)) result (index_at scan.old) }
{
    if !scan.eat(b'(') {
        clear(out);
        return Ok(());
    }
    fill(out, expression(scan)?);
    if !scan.eat(b')') {
        return Err(Fault::Syntax(Wanted::IndexEnd));
    }
    Ok(())
}

/// An address part, of which each piece may be missing.
#[inline(always)]
#[tactic(auto, unfolding(crate::specs::Statements::operand_at))]
fn operand(scan: &mut Scanner<'_>, out: &mut Operand) -> Result<(), Fault>
    ensures { Gives (λ _. (out.new, scan.new)) result (operand_at scan.old) }
{
    out.indirect = scan.eat(b'@');
    optional_expression(scan, &mut out.address)?;
    index(scan, &mut out.index)?;
    Ok(())
}

/// The accumulator and the address part of an instruction.
#[tactic(auto, unfolding(crate::specs::Statements::operands_at))]
fn operands(
    scan: &mut Scanner<'_>,
    accumulator: &mut Option<Expression>,
    out: &mut Operand,
) -> Result<(), Fault>
    ensures { Gives (λ _. ((accumulator.new, out.new), scan.new)) result (operands_at scan.old) }
{
    optional_expression(scan, accumulator)?;
    if accumulator.is_none() || scan.eat(b',') {
        operand(scan, out)?;
        return Ok(());
    }
    out.indirect = false;
    out.address = accumulator.take();
    index(scan, &mut out.index)?;
    Ok(())
}

/// Whether the name may have what was written behind it.
fn is_allowed(named: Named, accumulator: &Option<Expression>, operand: &Operand) -> bool
    ensures { result ≡ is_allowed named accumulator.now operand.now }
{
    (named.ac || accumulator.is_none())
        && (named.addr || !operand.indirect && operand.address.is_none() && operand.index.is_none())
}

/// Reads what follows the name of an instruction into `out`.
#[inline(always)]
#[tactic(auto, unfolding(crate::specs::Statements::instruction_at))]
fn instruction(
    named: Named,
    scan: &mut Scanner<'_>,
    out: &mut Option<Statement>,
) -> Result<(), Fault>
    ensures { Gives (λ _. (out.new, scan.new)) result (present (with_data data_of.Instruction (instruction_at named scan.old))) }
{
    let bare = Instruction {
        word: named.word,
        accumulator: None,
        operand: Operand {
            indirect: false,
            address: None,
            index: None,
        },
    };
    fill(out, Statement::Data(Data::Instruction(bare)));
    if let Some(Statement::Data(Data::Instruction(given))) = out {
        operands(scan, &mut given.accumulator, &mut given.operand)?;
        if is_allowed(named, &given.accumulator, &given.operand) {
            return Ok(());
        }
    }
    Err(Fault::Syntax(Wanted::Allowed))
}

/// Two expressions with a comma between them.
#[tactic(auto, unfolding(crate::specs::Statements::pair_at))]
fn pair(scan: &mut Scanner<'_>) -> Result<(Expression, Expression), Fault>
    ensures { Gives (λ x. (x, scan.new)) result (pair_at scan.old) }
{
    let left = expression(scan)?;
    if !scan.eat(b',') {
        return Err(Fault::Syntax(Wanted::SecondValue));
    }
    let right = expression(scan)?;
    Ok((left, right))
}

/// The next expression behind its comma, if a comma comes next.
#[tactic(auto, unfolding(crate::specs::Statements::next_expression_at))]
fn next_expression(scan: &mut Scanner<'_>) -> Result<Option<Expression>, Fault>
    ensures { Gives (λ x. (x, scan.new)) result (next_expression_at scan.old) }
{
    if scan.eat(b',') {
        Ok(Some(expression(scan)?))
    } else {
        Ok(None)
    }
}

/// Expressions, each behind its comma.
fn more_expressions(
    scan: &mut Scanner<'_>,
    expressions: &mut Sequence<Expression>,
) -> Result<(), Fault>
    ensures { Gives (λ _. (expressions.new, scan.new)) result
        (with_front expressions.old (items_at next_expression_at (length scan.old.rest) scan.old)) }
{
    let most = scan.len();
    for _ in 0..most {
        match next_expression(scan)? {
            None => return Ok(()),
            Some(expression) => expressions.push(expression)?,
        }
    }
    Ok(())
}

/// Expressions with commas between them.
#[tactic(auto, unfolding(crate::specs::Statements::expressions_at))]
fn expressions(scan: &mut Scanner<'_>) -> Result<Sequence<Expression>, Fault>
    ensures { Gives (λ x. (x, scan.new)) result (expressions_at scan.old) }
{
    let first = expression(scan)?;
    let mut expressions = Sequence::new(scan.alloc());
    expressions.push(first)?;
    more_expressions(scan, &mut expressions)?;
    Ok(expressions)
}

/// Digits in decimal.
#[tactic(auto, unfolding(crate::specs::Statements::decimal_at))]
fn decimal(scan: &mut Scanner<'_>) -> Result<Natural, Fault>
    ensures { Gives (λ x. (x, scan.new)) result (decimal_at scan.old) }
{
    let digits = scan.word();
    let value = number(scan.alloc(), 10, digits, Wanted::Decimal)?;
    scan.advance(digits.len());
    Ok(value)
}

/// A number whose digits are decimal, or that `^D` or `^O` marks.
#[tactic(auto, unfolding(crate::specs::Statements::number_at))]
fn lone_number(scan: &mut Scanner<'_>) -> Result<Natural, Fault>
    ensures { Gives (λ x. (x, scan.new)) result (number_at scan.old) }
{
    if scan.eat(b'^') {
        marked_number(scan)
    } else {
        decimal(scan)
    }
}

/// What follows POINT.
#[tactic(auto, unfolding(crate::specs::Statements::point_at))]
fn point(scan: &mut Scanner<'_>) -> Result<Data, Fault>
    ensures { Gives (λ x. (x, scan.new)) result (point_at scan.old) }
{
    let size = lone_number(scan)?;
    if !scan.eat(b',') {
        return Err(Fault::Syntax(Wanted::Address));
    }
    let mut out = Operand {
        indirect: false,
        address: None,
        index: None,
    };
    operand(scan, &mut out)?;
    if !scan.eat(b',') {
        return Ok(Data::Point(size, out, None));
    }
    let position = lone_number(scan)?;
    Ok(Data::Point(size, out, Some(position)))
}

/// An expression, or two halves.
#[tactic(auto, unfolding(crate::specs::Statements::value_at))]
fn value(scan: &mut Scanner<'_>) -> Result<Data, Fault>
    ensures { Gives (λ x. (x, scan.new)) result (value_at scan.old) }
{
    let left = expression(scan)?;
    if !scan.eat_commas() {
        return Ok(Data::Value(left));
    }
    let right = expression(scan)?;
    Ok(Data::Halves(left, right))
}

/// What follows the name of a form.
#[tactic(auto, unfolding(crate::specs::Statements::form_at))]
fn form_statement(form: Form, scan: &mut Scanner<'_>) -> Result<Statement, Fault>
    ensures { Gives (λ x. (x, scan.new)) result (form_at form scan.old) }
{
    match form {
        Form::Loc => Ok(Statement::Loc(expression(scan)?)),
        Form::End => {
            let mut start = None;
            optional_expression(scan, &mut start)?;
            Ok(Statement::End(start))
        }
        Form::Radix => Ok(Statement::Radix(lone_number(scan)?)),
        Form::Title => {
            scan.skip_to_comment();
            Ok(Statement::Title)
        }
        Form::Xwd => {
            let (left, right) = pair(scan)?;
            Ok(Statement::Data(Data::Halves(left, right)))
        }
        Form::Iowd => {
            let (count, address) = pair(scan)?;
            Ok(Statement::Data(Data::Iowd(count, address)))
        }
        Form::Exp => Ok(Statement::Data(Data::Exp(expressions(scan)?))),
        Form::Point => Ok(Statement::Data(point(scan)?)),
        Form::Text(form) => {
            let text = scan.text()?;
            let characters = Sequence::from_slice(scan.alloc(), text)?;
            Ok(Statement::Data(Data::Text(form, characters)))
        }
        Form::Block => Ok(Statement::Data(Data::Block(expression(scan)?))),
    }
}

/// What a name stands for, of an operation or a call.
#[tactic(auto, using(crate::proofs::AsciiLemmas::is_text))]
fn meaning(name: &[u8]) -> Option<Named>
    requires { IsAscii name.now }
    ensures { result ≡ operation_of name.now }
{
    match std::str::from_utf8(name) {
        Ok(name) => named(name),
        Err(_) => None,
    }
}

/// Reads an expression or two halves into `out`.
#[inline(never)]
fn value_statement(scan: &mut Scanner<'_>, out: &mut Option<Statement>) -> Result<(), Fault>
    ensures { Gives (λ _. (out.new, scan.new)) result (present (with_data (λ d. d) (value_at scan.old))) }
{
    fill(out, Statement::Data(value(scan)?));
    Ok(())
}

/// Reads what follows the name of a form into `out`.
#[inline(never)]
fn formed_statement(
    form: Form,
    scan: &mut Scanner<'_>,
    out: &mut Option<Statement>,
) -> Result<(), Fault>
    ensures { Gives (λ _. (out.new, scan.new)) result (present (form_at form scan.old)) }
{
    fill(out, form_statement(form, scan)?);
    Ok(())
}

/// Reads a statement that begins with this name into `out`. The name is that of a form or an operation; if it is neither, the
/// statement is a value.
#[inline(never)]
fn named_statement(
    word: &[u8],
    scan: &mut Scanner<'_>,
    out: &mut Option<Statement>,
) -> Result<(), Fault>
    requires ascii { IsAscii word.now }
    requires within { length word.now ≤ length scan.old.rest }
    ensures { Gives (λ _. (out.new, scan.new)) result (present (formed_at (form_of (folded word.now)) word.now scan.old)) }
{
    let name = folded(word);
    if let Some(form) = form_of(name.as_slice()) {
        scan.advance(word.len());
        return formed_statement(form, scan, out);
    }
    if let Some(named) = meaning(name.as_slice()) {
        scan.advance(word.len());
        return instruction(named, scan, out);
    }
    value_statement(scan, out)
}

/// Reads a statement that begins with this word into `out`. Most begin with the name of an operation.
#[tactic(auto, unfolding(crate::specs::Statements::statement_at), using(crate::proofs::AsciiLemmas::ascii_words))]
pub fn statement(
    scan: &mut Scanner<'_>,
    word: &[u8],
    out: &mut Option<Statement>,
) -> Result<(), Fault>
    requires skipped { after_blanks scan.old.rest ≡ scan.old.rest }
    requires word { word.now ≡ word_of scan.old.rest }
    ensures { Gives (λ _. (out.new, scan.new)) result (present (statement_at scan.old)) }
{
    if !is_name(word) {
        return value_statement(scan, out);
    }
    match operation(word) {
        None => named_statement(word, scan, out),
        Some(named) => {
            scan.advance(word.len());
            instruction(named, scan, out)
        }
    }
}
