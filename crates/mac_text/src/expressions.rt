//! Numbers, terms and expressions.

ghost use Rattle.std.specs.Prelude.{◌≡◌, ℕ, [], Some, option_map, IfSome};
ghost use Rattle.std.specs.Option.{IfNone};
ghost use Rattle.mac_text.specs.Scan.{Gives, after_blanks, with_front, items_at};
ghost use Rattle.mac_text.specs.Names.{is_name};
ghost use Rattle.mac_text.specs.Expressions.{word_term_at, marked_at, literal_at, term_at, sign_at, signed_at, term_of_word};
ghost use Rattle.mac_text.specs.Expressions.{first_at, next_term_at, expression_at, optional_at};
ghost use Rattle.mac_text.specs.Terms.{alone};
ghost use Rattle.mac_text.specs.declared.syntax.Sign.TheVariants.{Plus};

use crate::characters::is_digit;
use crate::fault::{Fault, Wanted};
use crate::numbers::{leading_number, number};
use crate::optional::{clear, fill};
use crate::scanner::Scanner;
use crate::sum::Expression;
use crate::symbol::Symbol;
use crate::syntax::{Sign, SignedTerm, Term};
use crate::texts::literal_len;
use whole_numbers::Natural;

/// Whether a run of letters, digits and the like is a name: it begins with no digit and is not the point alone.
pub fn is_name(word: &[u8]) -> bool
    ensures { result ≡ is_name word.now }
{
    match word {
        [] => false,
        [only] => !is_digit(*only) && *only != b'.',
        [first, ..] => !is_digit(*first),
    }
}

/// A label, the point or a number.
#[tactic(auto, unfolding(crate::specs::Expressions::word_term_at))]
fn word_term(scan: &mut Scanner<'_>) -> Result<Term, Fault>
    ensures { Gives (λ x. (x, scan.new)) result (word_term_at scan.old) }
{
    let word = scan.word();
    let term = if is_name(word) {
        Term::Label(Symbol::of(word))
    } else if word == b".".as_slice() {
        Term::Here
    } else {
        Term::Number(number(scan.alloc(), scan.radix(), word, Wanted::Term)?)
    };
    scan.advance(word.len());
    Ok(term)
}

/// What follows `^`: `D` or `O` and a number of that radix.
#[tactic(auto, unfolding(crate::specs::Expressions::marked_at))]
pub fn marked_number(scan: &mut Scanner<'_>) -> Result<Natural, Fault>
    ensures { Gives (λ x. (x, scan.new)) result (marked_at scan.old) }
{
    let radix = match scan.head() {
        Some(b'D' | b'd') => 10,
        Some(b'O' | b'o') => 8,
        _ => return Err(Fault::Syntax(Wanted::Mark)),
    };
    scan.advance(1);
    let digits = scan.word();
    let value = number(scan.alloc(), radix, digits, Wanted::Marked)?;
    scan.advance(digits.len());
    Ok(value)
}

/// What follows `[`: a literal's text, which is cut out, and its bracket. A literal holds none itself. A literal that is at
/// fault is one from its bracket on.
#[tactic(auto, unfolding(crate::specs::Expressions::literal_at))]
fn literal<'a>(scan: &mut Scanner<'a>, bracket: &'a [u8]) -> Result<Term, Fault>
    ensures { Gives (λ x. (x, scan.new)) result (literal_at scan.old) }
{
    if scan.is_in_literal() {
        scan.go_back(bracket);
        return Err(Fault::Syntax(Wanted::NoLiteral));
    }
    match literal_len(scan.rest()) {
        None => {
            scan.go_back(bracket);
            Err(Fault::Syntax(Wanted::LiteralEnd))
        }
        Some(len) => Ok(Term::Literal(scan.cut(len)?)),
    }
}

#[tactic(auto, unfolding(crate::specs::Expressions::term_at), using(crate::proofs::WordLemmas::skip_twice))]
fn term(scan: &mut Scanner<'_>) -> Result<Term, Fault>
    ensures { Gives (λ x. (x, scan.new)) result (term_at scan.old) }
{
    scan.skip();
    match scan.head() {
        Some(b'[') => {
            let bracket = scan.rest();
            scan.advance(1);
            literal(scan, bracket)
        }
        Some(b'^') => {
            scan.advance(1);
            Ok(Term::Number(marked_number(scan)?))
        }
        _ => word_term(scan),
    }
}

/// Reads a sign; None if none comes next.
#[tactic(auto, unfolding(crate::specs::Expressions::sign_at), using(crate::proofs::WordLemmas::skip_twice))]
fn sign(scan: &mut Scanner<'_>) -> Option<Sign>
    ensures value { result ≡ (sign_at scan.old).0 }
    ensures rest { scan.new ≡ (sign_at scan.old).1 }
    ensures skipped { IfNone result (after_blanks scan.new.rest ≡ scan.new.rest) }
{
    scan.skip();
    match scan.head() {
        Some(b'+') => {
            scan.advance(1);
            Some(Sign::Plus)
        }
        Some(b'-') => {
            scan.advance(1);
            Some(Sign::Minus)
        }
        _ => None,
    }
}

#[inline(never)]
#[tactic(auto, unfolding(crate::specs::Expressions::signed_at))]
fn signed_term(sign: Sign, scan: &mut Scanner<'_>) -> Result<SignedTerm, Fault>
    ensures { Gives (λ x. (x, scan.new)) result (signed_at sign scan.old) }
{
    let term = term(scan)?;
    Ok(SignedTerm { sign, term })
}

/// A label or the point alone.
fn lone_name(word: &[u8]) -> Option<Expression>
    ensures { IfSome result (λ e. (radix : ℕ) → option_map (alone Plus) (term_of_word radix word.now) ≡ Some e) }
{
    if is_name(word) {
        Some(Expression::label(Symbol::of(word)))
    } else if word == b".".as_slice() {
        Some(Expression::here())
    } else {
        None
    }
}

/// The expression of the next term, whose sign came before it, where it takes no memory.
fn lone_term(sign: Sign, scan: &mut Scanner<'_>) -> Option<Expression>
    requires { after_blanks scan.old.rest ≡ scan.old.rest }
    ensures read { IfSome result (λ e. first_at sign scan.old ≡ Some (e, scan.new)) }
    ensures unread { IfNone result (scan.new ≡ scan.old) }
{
    if let Some((number, len)) = leading_number(scan.radix(), scan.rest()) {
        scan.advance(len);
        return Some(Expression::number(sign, number));
    }
    match sign {
        Sign::Minus => None,
        Sign::Plus => {
            let word = scan.word();
            let expression = lone_name(word)?;
            scan.advance(word.len());
            Some(expression)
        }
    }
}

/// The expression of the next term, whose sign came before it.
fn first_term(sign: Sign, scan: &mut Scanner<'_>) -> Result<Expression, Fault>
    requires { after_blanks scan.old.rest ≡ scan.old.rest }
    ensures { Gives (λ e. (e, scan.new)) result (first_at sign scan.old) }
{
    if let Some(expression) = lone_term(sign, scan) {
        return Ok(expression);
    }
    let term = signed_term(sign, scan)?;
    Ok(Expression::of(scan.alloc(), term)?)
}

/// Reads a sign and its term; None if no sign comes next.
#[tactic(auto, unfolding(crate::specs::Expressions::next_term_at))]
fn next_term(scan: &mut Scanner<'_>) -> Result<Option<SignedTerm>, Fault>
    ensures { Gives (λ x. (x, scan.new)) result (next_term_at scan.old) }
{
    match sign(scan) {
        None => Ok(None),
        Some(sign) => Ok(Some(signed_term(sign, scan)?)),
    }
}

/// Reads terms, each behind its sign, and adds them to the expression; at most `most`.
#[inline(never)]
fn more_terms(scan: &mut Scanner<'_>, most: usize, expression: &mut Expression) -> Result<(), Fault>
    ensures { Gives (λ _. (expression.new, scan.new)) result (with_front expression.old (items_at next_term_at most scan.old)) }
{
    for _ in 0..most {
        match next_term(scan)? {
            None => return Ok(()),
            Some(term) => expression.push(scan.alloc(), term)?,
        }
    }
    Ok(())
}

/// An expression: a sign or none, and terms joined by signs.
#[inline(never)]
#[tactic(auto, unfolding(crate::specs::Expressions::expression_at), using(crate::proofs::TermLemmas::terms_parted))]
pub fn expression(scan: &mut Scanner<'_>) -> Result<Expression, Fault>
    ensures { Gives (λ x. (x, scan.new)) result (expression_at scan.old) }
{
    let from = scan.position();
    let sign = match sign(scan) {
        None => Sign::Plus,
        Some(sign) => {
            scan.skip();
            sign
        }
    };
    let mut expression = first_term(sign, scan)?;
    let most = scan.len();
    if scan.is_at_sign() {
        more_terms(scan, most, &mut expression)?;
    }
    expression.stands(from, scan.position());
    Ok(expression)
}

/// Reads an expression into `out`; None if none comes next.
#[inline(always)]
#[tactic(auto, unfolding(crate::specs::Expressions::optional_at))]
pub fn optional_expression(
    scan: &mut Scanner<'_>,
    out: &mut Option<Expression>,
) -> Result<(), Fault>
    ensures { Gives (λ _. (out.new, scan.new)) result (optional_at scan.old) }
{
    if scan.is_at_expression() {
        fill(out, expression(scan)?);
    } else {
        clear(out);
    }
    Ok(())
}
