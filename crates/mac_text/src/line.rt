//! Lines.

ghost use Rattle.std.specs.Prelude.{◌≡◌, ◌<◌, ◌≤◌, Some, true, IsTrue, IfOk, length, map};
ghost use Rattle.std.specs.Option.{IfNone, OnSome};
ghost use Rattle.std.specs.List.{list_all};
ghost use Rattle.mac_text.specs.Scan.{Gives, after_blanks, word_of, items_at};
ghost use Rattle.mac_text.specs.Lines.{is_ascii, next_label_at, optional_statement_at, whole_statement_at, gives_words, with_words};
ghost use Rattle.mac_text.specs.Lines.{literal_data, literal_of, literals_of, line_of, radix_after, is_end};

use crate::characters::{is_ascii, plain_len};
use crate::expressions::is_name;
use crate::fault::{Fault, Stopped, Wanted};
use crate::labels::Labels;
use crate::optional::{clear, discard};
use crate::scanner::{Cut, Scanner};
use crate::sequence::Sequence;
use crate::statements::statement;
use crate::symbol::Symbol;
use crate::syntax::{Data, Instruction, Line, Statement, TextForm};
use std::alloc::Global;

/// Reads a label: a name with a colon right behind it; None if no label comes next. The second of the pair is the word that
/// stands there, label or not.
#[tactic(auto, unfolding(crate::specs::Lines::next_label_at), using(crate::proofs::WordLemmas::label_lengths))]
fn next_label<'a>(scan: &mut Scanner<'a>) -> (Option<Symbol>, &'a [u8])
    ensures label { next_label_at scan.old ≡ Some (result.0, scan.new) }
    ensures word { IfNone result.0 (result.1.now ≡ word_of (after_blanks scan.new.rest)) }
    ensures shorter { OnSome result.0 (length scan.new.rest < length scan.old.rest) }
{
    scan.skip();
    let word = scan.word();
    if is_name(word) && scan.has_colon_behind(word.len()) {
        scan.advance(word.len() + 1);
        (Some(Symbol::of(word)), word)
    } else {
        (None, word)
    }
}

/// Reads the labels at the head of a line into `out`, and returns the word behind them.
fn labels<'a>(scan: &mut Scanner<'a>, out: &mut Labels) -> Result<&'a [u8], Fault>
    ensures labels { Gives (λ _. (out.new, scan.new)) result (items_at next_label_at (length scan.old.rest) scan.old) }
    ensures word { IfOk result (λ word. word.now ≡ word_of (after_blanks scan.new.rest)) }
{
    out.clear();
    let most = scan.len();
    for _ in 0..most {
        match next_label(scan) {
            (None, word) => return Ok(word),
            (Some(label), _) => out.push(scan.alloc(), label)?,
        }
    }
    Ok(&[])
}

/// Reads the statement of a line into `out`, None if there is none; `word` is the word that comes next.
#[inline(always)]
#[tactic(auto, unfolding(crate::specs::Lines::optional_statement_at), using(crate::proofs::WordLemmas::skip_twice))]
fn optional_statement(
    scan: &mut Scanner<'_>,
    word: &[u8],
    out: &mut Option<Statement>,
) -> Result<(), Fault>
    requires { word.now ≡ word_of (after_blanks scan.old.rest) }
    ensures { Gives (λ _. (out.new, scan.new)) result (optional_statement_at scan.old) }
{
    if scan.is_at_end() {
        clear(out);
    } else {
        statement(scan, word, out)?;
    }
    Ok(())
}

/// Whether nothing stands behind the name of an instruction.
fn is_bare(instruction: &Instruction) -> bool {
    let operand = &instruction.operand;
    instruction.accumulator.is_none()
        && !operand.indirect
        && operand.address.is_none()
        && operand.index.is_none()
}

/// What is wanted behind a statement that begins with this word, where something else stands.
#[inline(never)]
fn wanted_behind(statement: &Option<Statement>, word: &[u8], next: Option<u8>) -> Wanted {
    match statement {
        Some(Statement::Data(Data::Value(_))) if is_name(word) && next != Some(b';') => {
            Wanted::Operation
        }
        Some(Statement::Data(Data::Instruction(given))) if is_bare(given) => Wanted::Operand,
        Some(Statement::Data(Data::Instruction(_) | Data::Value(_) | Data::Exp(_)))
            if next != Some(b',') => { Wanted::ValueEnd }
        _ => Wanted::LineEnd,
    }
}

/// The same, and refuses the line if anything but a comment stands behind the statement.
#[inline(always)]
#[tactic(auto, unfolding(crate::specs::Lines::whole_statement_at))]
fn whole_statement(
    scan: &mut Scanner<'_>,
    word: &[u8],
    out: &mut Option<Statement>,
) -> Result<(), Fault>
    requires { word.now ≡ word_of (after_blanks scan.old.rest) }
    ensures { Gives (λ _. (out.new, scan.new)) result (whole_statement_at scan.old) }
{
    optional_statement(scan, word, out)?;
    if scan.is_at_end() {
        Ok(())
    } else {
        Err(Fault::Syntax(wanted_behind(out, word, scan.head())))
    }
}

/// Whether a statement gives at least one word, as far as its form shows.
#[tactic(auto, unfolding(crate::specs::Lines::gives_words))]
fn gives_words(data: &Data) -> bool
    ensures { result ≡ gives_words data.now }
{
    match data {
        Data::Text(TextForm::Ascii | TextForm::Sixbit, text) => !text.as_slice().is_empty(),
        _ => true,
    }
}

/// The statement itself; refused if its form shows that it gives no word.
fn with_words(given: Data) -> Result<Data, Fault>
    ensures { Gives (λ x. x) result (with_words given) }
{
    if gives_words(&given) {
        Ok(given)
    } else {
        discard(given);
        Err(Fault::Syntax(Wanted::Characters))
    }
}

/// What the statement in a literal gives.
fn literal_data(statement: Option<Statement>) -> Result<Data, Fault>
    ensures { Gives (λ x. x) result (literal_data statement) }
{
    match statement {
        Some(Statement::Data(data)) => with_words(data),
        other => {
            discard(other);
            Err(Fault::Syntax(Wanted::Words))
        }
    }
}

/// The statement in a literal. Where it is at fault, it is noted where.
#[tactic(auto, unfolding(crate::specs::Lines::literal_of))]
fn literal(alloc: Global, radix: u8, cut: Cut<'_>, stopped: &mut Stopped) -> Result<Data, Fault>
    requires { radix ≤ 10 }
    ensures { Gives (λ x. x) result (literal_of radix cut.entry.text.now) }
{
    let mut scan = Scanner::new(alloc, radix, true, cut);
    let mut out = None;
    let word = scan.next_word();
    stopped.statement = scan.position_behind_blanks();
    stopped.position = stopped.statement;
    match whole_statement(&mut scan, word, &mut out) {
        Ok(()) => literal_data(out),
        Err(fault) => {
            stopped.position = scan.position_behind_blanks();
            discard(out);
            Err(fault)
        }
    }
}

/// The statements in the literals of a line.
#[inline(never)]
fn literals(
    alloc: Global,
    radix: u8,
    cuts: &[Cut<'_>],
    stopped: &mut Stopped,
) -> Result<Sequence<Data>, Fault>
    requires { radix ≤ 10 }
    ensures { Gives (λ x. x) result (literals_of radix (map (λ cut. cut.text.now) cuts.now)) }
{
    let mut literals = Sequence::new(alloc);
    for cut in cuts {
        literals.push(literal(alloc, radix, *cut, stopped)?)?;
    }
    Ok(literals)
}

/// Reads the statements in the literals of a line into `out`. Most lines have none.
#[inline(always)]
#[tactic(auto, unfolding(crate::specs::Lines::literals_of))]
fn fill_literals(
    alloc: Global,
    radix: u8,
    cuts: &[Cut<'_>],
    out: &mut Sequence<Data>,
    stopped: &mut Stopped,
) -> Result<(), Fault>
    requires { radix ≤ 10 }
    ensures { Gives (λ _. out.new) result (literals_of radix (map (λ cut. cut.text.now) cuts.now)) }
{
    if cuts.is_empty() && out.is_empty() {
        return Ok(());
    }
    *out = literals(alloc, radix, cuts, stopped)?;
    Ok(())
}

/// Reads a line into `out`; `is_known_ascii` saves the test that it is ASCII. Where it is not in the grammar, it is noted where.
#[tactic(auto, unfolding(crate::specs::Lines::line_of))]
pub fn read_line(
    alloc: Global,
    radix: u8,
    is_known_ascii: bool,
    text: &[u8],
    out: &mut Line,
    stopped: &mut Stopped,
) -> Result<(), Fault>
    requires radix { radix ≤ 10 }
    requires known { IsTrue is_known_ascii → list_all is_ascii text.now ≡ true }
    ensures { Gives (λ _. out.new) result (line_of radix text.now) }
{
    if !is_known_ascii && !is_ascii(text) {
        stopped.position = plain_len(text);
        return Err(Fault::Syntax(Wanted::Ascii));
    }
    let whole = Cut {
        text,
        until: text.len(),
    };
    let mut scan = Scanner::new(alloc, radix, false, whole);
    let word = labels(&mut scan, &mut out.labels)?;
    stopped.statement = scan.position_behind_blanks();
    match whole_statement(&mut scan, word, &mut out.statement) {
        Ok(()) => fill_literals(alloc, radix, scan.cuts(), &mut out.literals, stopped),
        Err(fault) => {
            stopped.position = scan.position_behind_blanks();
            Err(fault)
        }
    }
}

/// The radix of the numbers on the lines behind this one.
pub fn radix_after(line: &Line, radix: u8) -> u8
    requires { radix ≤ 10 }
    ensures value { result ≡ radix_after line.now radix }
    ensures most { result ≤ 10 }
{
    match &line.statement {
        Some(Statement::Radix(number)) => match number.to_u64() {
            Some(number) => {
                if number >= 2 && number <= 10 {
                    number as u8
                } else {
                    radix
                }
            }
            None => radix,
        },
        _ => radix,
    }
}

/// Whether the line ends the source.
pub fn is_end(line: &Line) -> bool
    ensures { result ≡ is_end line.now }
{
    matches!(&line.statement, Some(Statement::End(_)))
}
