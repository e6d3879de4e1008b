//! The image of a source.

ghost use Rattle.std.specs.Prelude.{◌≡◌, ◌^◌, IfOk, option_map, replicate, zip, length, if◌then◌else◌};
ghost use Rattle.std.specs.List.{list_all};
ghost use Rattle.mac_asm.specs.Words.{are_known, alone, word_of, words_of_all, text_words_from};
ghost use Rattle.mac_layout.specs.TextSizes.{words_in};
ghost use Rattle.mac_layout.specs.declared.error.AsmCode.TheVariants.{UnknownName, DoesNotFit};
ghost use Rattle.mac_layout.specs.Values.{names_of};
ghost use Rattle.mac_layout.specs.Addresses.{count_of};
ghost use Rattle.mac_asm.specs.Assembly.{at_addresses, words_from, literal_words, statement_words};
ghost use Rattle.mac_asm.specs.Outcome.{is_statement_known, is_line_known, lines_with, outcome_placed, has_end, outcome_of};
ghost use Rattle.mac_asm.specs.Filled.{Puts, PutsLine, PutsLines, Assembles, start_named};
ghost use Rattle.mac_asm.specs.Symbols.{image_in, symbols_of};

use crate::cells::Cells;
use crate::words::{
    are_known, halves, instruction, iowd, is_known_if, pointer, push_all, push_text, start, word,
};
use mac_layout::{AsmCode, AsmError, FIRST, Labels, Scope, lay_out, value};
use mac_text::{Data, Expression, Line, Statement, TextForm, is_end, parse};
use std::alloc::{AllocError, Global};
use whole_numbers::Natural;
use word36::{Image, Word};

/// The memory that a source fills.
#[derive(Drop)]
struct Core {
    cells: Cells,
    /// The words of the present statement.
    next: Vec<Word>,
}

/// How many words BLOCK gives, where its value is known and not below 0.
#[tactic(auto, unfolding(mac_layout::specs::Addresses::count_of))]
fn block_len<'a>(
    alloc: Global,
    count: &'a Expression,
    scope: &Scope<'a>,
) -> Result<Option<Natural>, AllocError>
    ensures { IfOk result (λ r. r ≡ count_of (names_of scope.now) count.now) }
{
    match value(alloc, count, scope)? {
        None => Ok(None),
        Some(sum) => sum.natural(alloc),
    }
}

impl Core {
    /// Puts a word at an address; false if there is no word.
    #[inline(always)]
    fn put_one(&mut self, address: &Natural, word: Option<Word>) -> Result<bool, AllocError>
        ensures { IfOk result (λ fits. Puts fits self.old.cells self.new.cells (option_map (at_addresses address.now) (alone word))) }
    {
        match word {
            None => Ok(false),
            Some(word) => {
                self.cells.put_one(address, word)?;
                Ok(true)
            }
        }
    }

    /// Puts `count` words of 0 from an address on; false if the count is not known or below 0.
    fn put_block<'a>(
        &mut self,
        alloc: Global,
        address: &Natural,
        count: &'a Expression,
        scope: &Scope<'a>,
    ) -> Result<bool, AllocError>
        ensures { IfOk result
            (λ fits. Puts fits self.old.cells self.new.cells
            (option_map (at_addresses address.now) (option_map (λ n. replicate n 0) (count_of (names_of scope.now) count.now)))) }
    {
        match block_len(alloc, count, scope)? {
            None => Ok(false),
            Some(count) => {
                self.cells.put_zeros(address, &count)?;
                Ok(true)
            }
        }
    }

    /// Puts the words of values from an address on; false if a value is not known or does not fit.
    fn put_values<'a>(
        &mut self,
        alloc: Global,
        address: &Natural,
        values: &'a [Expression],
        scope: &Scope<'a>,
    ) -> Result<bool, AllocError>
        ensures { IfOk result
            (λ fits. Puts fits self.old.cells self.new.cells
            (option_map (at_addresses address.now) (words_of_all (word_of (names_of scope.now)) values.now))) }
    {
        self.next.clear();
        if !push_all(alloc, &mut self.next, values, scope)? {
            return Ok(false);
        }
        self.cells.put(address, self.next.as_slice())?;
        Ok(true)
    }

    /// Puts the words of a text from an address on; false if a character has no code.
    fn put_text(
        &mut self,
        address: &Natural,
        form: TextForm,
        text: &[u8],
    ) -> Result<bool, AllocError>
        ensures { IfOk result
            (λ fits. Puts fits self.old.cells self.new.cells
            (option_map (at_addresses address.now) (text_words_from form text.now 0 (words_in form (length text.now))))) }
    {
        self.next.clear();
        if !push_text(&mut self.next, form, text)? {
            return Ok(false);
        }
        self.cells.put(address, self.next.as_slice())?;
        Ok(true)
    }

    /// Puts the words of a statement from an address on; false if a value is not known or does not fit.
    #[tactic(auto, unfolding(crate::specs::Assembly::words_from, crate::specs::Assembly::all_words_of, crate::specs::Words::words_of))]
    fn put<'a>(
        &mut self,
        alloc: Global,
        address: &Natural,
        given: &'a Data,
        scope: &Scope<'a>,
    ) -> Result<bool, AllocError>
        ensures { IfOk result (λ fits. Puts fits self.old.cells self.new.cells (words_from (names_of scope.now) address.now given.now)) }
    {
        match given {
            Data::Instruction(given) => { self.put_one(address, instruction(alloc, given, scope)?) }
            Data::Value(value) => self.put_one(address, word(alloc, value, scope)?),
            Data::Halves(left, right) => {
                self.put_one(address, halves(alloc, left, right, scope)?)
            }
            Data::Iowd(count, list) => { self.put_one(address, iowd(alloc, count, list, scope)?) }
            Data::Point(size, byte, position) => self.put_one(
                address,
                pointer(alloc, size, byte, position, scope)?,
            ),
            Data::Exp(values) => self.put_values(alloc, address, values.as_slice(), scope),
            Data::Text(form, text) => self.put_text(address, *form, text.as_slice()),
            Data::Block(count) => self.put_block(alloc, address, count, scope),
        }
    }

    /// Puts the words of a line's literals at their addresses; false in the same cases.
    fn put_literals<'a>(
        &mut self,
        alloc: Global,
        literals: &'a [Data],
        scope: &Scope<'a>,
    ) -> Result<bool, AllocError>
        ensures { IfOk result
            (λ fits. Puts fits self.old.cells self.new.cells
            (literal_words (names_of scope.now) (zip scope.now.literals.now literals.now))) }
    {
        for (i, given) in literals.iter().enumerate() {
            let Some(address) = scope.literals.get(i) else {
                return Ok(true);
            };
            if !self.put(alloc, address, given, scope)? {
                return Ok(false);
            }
        }
        Ok(true)
    }

    /// Puts the words of a line's statement at its address; false in the same cases.
    #[tactic(auto, unfolding(crate::specs::Assembly::statement_words))]
    fn put_statement<'a>(
        &mut self,
        alloc: Global,
        statement: &'a Option<Statement>,
        scope: &Scope<'a>,
    ) -> Result<bool, AllocError>
        ensures { IfOk result (λ fits. Puts fits self.old.cells self.new.cells (statement_words (names_of scope.now) statement.now)) }
    {
        match statement {
            Some(Statement::Data(given)) => self.put(alloc, scope.here, given, scope),
            None
            | Some(
                Statement::Loc(_) | Statement::End(_) | Statement::Radix(_) | Statement::Title,
            ) => Ok(true),
        }
    }

    /// Puts the words of a line, those of its literals first, and returns the start that its END names; None if a value is not
    /// known or does not fit.
    fn put_line<'a>(
        &mut self,
        alloc: Global,
        line: &'a Line,
        scope: &Scope<'a>,
    ) -> Result<Option<u32>, AllocError>
        ensures { IfOk result
            (λ start. PutsLine start self.old.cells self.new.cells (record { names = names_of scope.now; line = line.now })) }
    {
        if !self.put_literals(alloc, line.literals.as_slice(), scope)? {
            return Ok(None);
        }
        if !self.put_statement(alloc, &line.statement, scope)? {
            return Ok(None);
        }
        start_named(alloc, &line.statement, scope)
    }

    /// Puts the words of all lines, and returns the start.
    #[inline(never)]
    fn put_lines<'a>(
        &mut self,
        alloc: Global,
        lines: &'a [Line],
        labels: &'a Labels,
        addresses: &'a [Natural],
        literals: &'a [Natural],
    ) -> Result<u32, AsmError>
        ensures { PutsLines result self.old.cells self.new.cells (lines_with labels.now.entries addresses.now literals.now lines.now) }
    {
        let mut start = FIRST;
        let mut left = literals;
        for (i, line) in lines.iter().enumerate() {
            let Some(here) = addresses.get(i) else {
                return Ok(start);
            };
            let (own, rest) = left.split_at(left.len().min(line.literals.len()));
            left = rest;
            let scope = Scope {
                labels,
                here,
                literals: own,
            };
            match self.put_line(alloc, line, &scope)? {
                Some(address) => start = address,
                None => {
                    return Err(AsmError::Line {
                        line: i + 1,
                        code: value_code(line, &scope),
                    });
                }
            }
        }
        Ok(start)
    }
}

/// The start that END names, or the first address where the statement is another; nothing where it is not known or does
/// not fit.
#[tactic(auto, unfolding(crate::specs::Outcome::has_start))]
fn start_named<'a>(
    alloc: Global,
    statement: &'a Option<Statement>,
    scope: &Scope<'a>,
) -> Result<Option<u32>, AllocError>
    ensures { IfOk result (λ start. start ≡ start_named (names_of scope.now) statement.now) }
{
    match statement {
        Some(Statement::End(Some(expression))) => start(alloc, expression, scope),
        None
        | Some(
            Statement::Data(_)
            | Statement::Loc(_)
            | Statement::End(None)
            | Statement::Radix(_)
            | Statement::Title,
        ) => Ok(Some(FIRST)),
    }
}

/// Whether all names of a statement are known.
fn is_statement_known<'a>(statement: &'a Option<Statement>, scope: &Scope<'a>) -> bool
    ensures { result ≡ is_statement_known (names_of scope.now) statement.now }
{
    match statement {
        Some(Statement::Data(given)) => are_known(given, scope),
        Some(Statement::End(start)) => is_known_if(start, scope),
        None | Some(Statement::Loc(_) | Statement::Radix(_) | Statement::Title) => true,
    }
}

/// Whether all names of these literals are known.
fn are_literals_known<'a>(literals: &'a [Data], scope: &Scope<'a>) -> bool
    ensures { result ≡ list_all (are_known (names_of scope.now)) literals.now }
{
    literals.iter().all(|given| are_known(given, scope))
}

/// What is wrong with a line whose values are not all known or do not all fit: an unknown name comes first.
fn value_code<'a>(line: &'a Line, scope: &Scope<'a>) -> AsmCode
    ensures { result ≡ (if is_line_known (record { names = names_of scope.now; line = line.now }) then DoesNotFit else UnknownName) }
{
    if are_literals_known(line.literals.as_slice(), scope)
        && is_statement_known(&line.statement, scope)
    {
        AsmCode::DoesNotFit
    } else {
        AsmCode::UnknownName
    }
}

/// The image of lines that stand at these addresses, or the first line of which a value is not known or does not fit.
fn fill<'a>(
    alloc: Global,
    lines: &'a [Line],
    labels: &'a Labels,
    addresses: &'a [Natural],
    literals: &'a [Natural],
) -> Result<Image, AsmError>
    ensures { Assembles result (outcome_placed (lines_with labels.now.entries addresses.now literals.now lines.now)) }
{
    let mut core = Core {
        cells: Cells::with_room(alloc, lines.len())?,
        next: Vec::new(alloc),
    };
    let start = core.put_lines(alloc, lines, labels, addresses, literals)?;
    Ok(Image {
        words: core.cells.words(alloc)?,
        start,
    })
}

/// Whether the last line is END.
fn has_end(lines: &[Line]) -> bool
    ensures { result ≡ has_end lines.now }
{
    match lines.last() {
        None => false,
        Some(line) => is_end(line),
    }
}

/// The image of a source with its symbols.
#[derive(Drop)]
pub struct Listing {
    pub image: Image,
    /// The labels in order of definition, each by its six characters in SIXBIT (`Symbol::sixbit`), with their numbers,
    /// which are below 1000000 octal.
    pub symbols: Labels,
}

/// The image and the symbols of a source, or the line at fault and what is wrong with it (MACRO-10 Assembler Manual, this
/// project's profile).
///
/// The error is the first of these that applies: the first line that is not in the grammar (1); a missing END, at the number
/// of lines (7); the first line whose labels, addresses, LOC, BLOCK or RADIX are wrong, with its least code; the first line
/// with an unknown name (2), or else a value that does not fit (4).
pub fn assemble_with_symbols(alloc: Global, source: &[u8]) -> Result<Listing, AsmError>
    ensures image { Assembles (image_in result) (outcome_of source.now) }
    ensures symbols { IfOk result (λ listing. listing.symbols.entries ≡ symbols_of source.now) }
{
    let program = parse(alloc, source)?;
    let lines = program.as_slice();
    if !has_end(lines) {
        return Err(AsmError::Line {
            line: lines.len(),
            code: AsmCode::NoEnd,
        });
    }
    let layout = lay_out(alloc, lines)?;
    let image = fill(
        alloc,
        lines,
        &layout.labels,
        layout.addresses.as_slice(),
        layout.literals.as_slice(),
    )?;
    Ok(Listing {
        image,
        symbols: layout.labels,
    })
}

/// The image alone, with the same errors.
pub fn assemble(alloc: Global, source: &[u8]) -> Result<Image, AsmError>
    ensures { Assembles result (outcome_of source.now) }
{
    let listing = assemble_with_symbols(alloc, source)?;
    Ok(listing.image)
}
