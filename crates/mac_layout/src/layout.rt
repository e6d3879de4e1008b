//! Where the labels, the statements and the literals of a source stand.

ghost use Rattle.std.specs.Prelude.{◌≡◌, ◌+◌, ◌≤◌, ◌^◌, ◌&&◌, ◌==◌, not, nat_le, nat_lt};
ghost use Rattle.std.specs.Prelude.{◌++◌, ℕ, List, length, map, true, IfOk, MatchResult, OnOk};
ghost use Rattle.std.specs.List.{range_with_len, list_any};
ghost use Rattle.std.specs.Map.{keys_of};
ghost use Rattle.mac_layout.specs.Addresses.{are_apart, addresses_from};
ghost use Rattle.mac_layout.specs.Faults.{code_if};
ghost use Rattle.mac_layout.specs.LaidOut.{Layout as Above, checked_count, checked_size, literal_size};
ghost use Rattle.mac_layout.specs.LaidOut.{taking, addresses_in, taking_all, taking_size};
ghost use Rattle.mac_layout.specs.LaidOut.{count_or, statement_code, with_statement, line_code, with_line, empty_layout};
ghost use Rattle.mac_layout.specs.declared.error.AsmCode.TheVariants.{DoesNotFit, AddressTooHigh};
ghost use Rattle.mac_layout.specs.Layouts.{AreMarks, StandsFor, Defines, Lays, with_size, IsLayoutOf, Refuses};

use crate::addresses::{FIRST, MEMORY_SIZE, clamped};
use crate::error::{AsmCode, AsmError, least};
use crate::sums::{Labels, Scope, value};
use crate::text_sizes::text_words;
use indexmap::IndexMap;
use mac_text::{Data, Expression, Line, Statement, Symbol};
use std::alloc::{AllocError, Global};
use whole_numbers::Natural;

/// Where everything stands.
#[derive(Drop)]
pub struct Layout {
    pub labels: Labels,
    /// The address of each line's statement.
    pub addresses: Vec<Natural>,
    /// The address of each literal, in order of their brackets.
    pub literals: Vec<Natural>,
}

/// What is known while the lines are laid out one by one.
#[derive(Drop)]
struct Progress {
    labels: Labels,
    /// The address behind the last word so far.
    address: Natural,
    /// The address of each line's statement.
    addresses: Vec<Natural>,
    /// Whether an address has a word.
    taken: Vec<bool>,
    /// How many words each literal has, or what is wrong with it.
    sizes: Vec<Result<Natural, AsmCode>>,
}

/// The value of the expression of LOC or BLOCK, or the code of what is wrong: it is below 0, or it has a label that stands
/// later or a literal.
#[tactic(auto, unfolding(crate::specs::LaidOut::checked_count))]
fn count<'a>(
    alloc: Global,
    labels: &'a Labels,
    here: &'a Natural,
    expression: &'a Expression,
) -> Result<Result<Natural, AsmCode>, AllocError>
    ensures { IfOk result (λ r. r ≡ checked_count labels.now.entries here.now expression.now) }
{
    let scope = Scope {
        labels,
        here,
        literals: &[],
    };
    match value(alloc, expression, &scope)? {
        None => Ok(Err(AsmCode::NotYetDefined)),
        Some(sum) => match sum.natural(alloc)? {
            None => Ok(Err(AsmCode::DoesNotFit)),
            Some(number) => Ok(Ok(number)),
        },
    }
}

/// How many words a statement gives, or what is wrong with its count.
#[tactic(auto, unfolding(crate::specs::LaidOut::checked_size))]
fn size<'a>(
    alloc: Global,
    labels: &'a Labels,
    here: &'a Natural,
    given: &'a Data,
) -> Result<Result<Natural, AsmCode>, AllocError>
    ensures { IfOk result (λ r. r ≡ checked_size labels.now.entries here.now given.now) }
{
    let words = match given {
        Data::Block(expression) => return count(alloc, labels, here, expression),
        Data::Exp(values) => values.len(),
        Data::Text(form, text) => text_words(*form, text.as_slice().len()),
        _ => 1,
    };
    Ok(Ok(Natural::from_u64(words as u64)))
}

/// How many words a literal gives, which are at least one, or what is wrong with their count.
fn literal_size<'a>(
    alloc: Global,
    labels: &'a Labels,
    here: &'a Natural,
    given: &'a Data,
) -> Result<Result<Natural, AsmCode>, AllocError>
    ensures { IfOk result (λ r. r ≡ literal_size labels.now.entries here.now given.now) }
{
    let size = size(alloc, labels, here, given)?;
    if let Ok(words) = &size {
        if words.to_u64() == Some(0) {
            return Ok(Err(AsmCode::DoesNotFit));
        }
    }
    Ok(size)
}

/// Of `size` addresses from `address` on, those below `all`: the first and how many they are.
#[tactic(auto, using(crate::proofs::LayoutLemmas::part_is))]
fn part(all: usize, address: &Natural, size: &Natural) -> (usize, usize)
    ensures within { result.0 + result.1 ≤ all }
    ensures addresses { all ≡ 2 ^ 18 → range_with_len result.0 result.1 ≡ addresses_in address.now size.now }
{
    let first = clamped(address, all);
    (first, clamped(size, all - first))
}

/// Whether `size` addresses from `address` on are all below `all`.
#[tactic(auto, using(crate::proofs::LayoutLemmas::room_is, crate::proofs::LayoutLemmas::no_room))]
fn is_room(all: usize, address: &Natural, size: &Natural) -> bool
    ensures { all ≡ 2 ^ 18 → not result ≡ (not (size.now == 0) && not (nat_le (address.now + size.now) (2 ^ 18))) }
{
    let room = all - clamped(address, all);
    match size.to_u64() {
        Some(size) => size <= room as u64,
        None => false,
    }
}

fn any_marked(marks: &[bool]) -> bool
    ensures { result ≡ list_any (λ mark. mark) marks.now }
{
    marks.iter().any(|mark| *mark)
}

/// What is wrong with `size` words from an address on: another word stands there, or there is no such address.
fn taking(taken: &[bool], address: &Natural, size: &Natural) -> Option<AsmCode>
    ensures { (past : List ℕ) → AreMarks taken.now past → result ≡ taking past address.now size.now }
{
    let (first, len) = part(taken.len(), address, size);
    if any_marked(&taken[first..first + len]) {
        Some(AsmCode::DefinedTwice)
    } else if is_room(taken.len(), address, size) {
        None
    } else {
        Some(AsmCode::AddressTooHigh)
    }
}

/// Marks `size` addresses from an address on as taken.
fn mark(taken: &mut [bool], address: &Natural, size: &Natural)
    ensures { (past : List ℕ) → AreMarks taken.old past → AreMarks taken.new (past ++ addresses_in address.now size.now) }
{
    let (first, len) = part(taken.len(), address, size);
    taken[first..first + len].fill(true);
}

/// Takes the address of one word. Returns the code if another word stands there or there is no such address.
#[inline(always)]
fn take_one(taken: &mut [bool], address: &Natural) -> Option<AsmCode>
    ensures code { (past : List ℕ) → AreMarks taken.old past → result ≡ taking past address.now 1 }
    ensures marks { (past : List ℕ) → AreMarks taken.old past → AreMarks taken.new (past ++ addresses_in address.now 1) }
{
    let at = clamped(address, taken.len());
    if at == taken.len() {
        return Some(AsmCode::AddressTooHigh);
    }
    let twice = taken[at];
    taken[at] = true;
    if twice {
        Some(AsmCode::DefinedTwice)
    } else {
        None
    }
}

/// Takes the addresses of `size` words from an address on, and returns the code of what is wrong in the same cases.
#[inline(always)]
fn take(taken: &mut [bool], address: &Natural, size: &Natural) -> Option<AsmCode>
    ensures code { (past : List ℕ) → AreMarks taken.old past → result ≡ taking past address.now size.now }
    ensures marks { (past : List ℕ) → AreMarks taken.old past → AreMarks taken.new (past ++ addresses_in address.now size.now) }
{
    if size.to_u64() == Some(1) {
        return take_one(taken, address);
    }
    let code = taking(taken, address, size);
    mark(taken, address, size);
    code
}

/// Gives each of these labels an address; false at the first that has one already, which then loses it.
fn define(
    alloc: Global,
    labels: &mut Labels,
    names: &[Symbol],
    address: &Natural,
) -> Result<bool, AllocError>
    ensures new { IfOk result (λ new. are_apart (keys_of labels.old.entries) ≡ true
        → new ≡ are_apart (keys_of labels.old.entries ++ names.now)) }
    ensures defined { IfOk result (λ new. new ≡ true
        → labels.new.entries ≡ labels.old.entries ++ map (λ name. (name, address.now)) names.now) }
{
    for name in names {
        let earlier = labels.insert(name.sixbit(), address.try_clone(alloc)?)?;
        if earlier.is_some() {
            return Ok(false);
        }
    }
    Ok(true)
}

/// Appends the sizes of literals.
fn measure<'a>(
    alloc: Global,
    labels: &'a Labels,
    here: &'a Natural,
    literals: &'a [Data],
    sizes: &mut Vec<Result<Natural, AsmCode>>,
) -> Result<(), AllocError>
    ensures { OnOk result (sizes.new.items ≡ sizes.old.items ++ map (literal_size labels.now.entries here.now) literals.now) }
{
    for given in literals {
        sizes.push(literal_size(alloc, labels, here, given)?)?;
    }
    Ok(())
}

/// What is wrong if a literal of this size stands at an address.
fn size_code(taken: &[bool], address: &Natural, size: &Result<Natural, AsmCode>) -> Option<AsmCode>
    ensures { (past : List ℕ) → AreMarks taken.now past → result ≡ taking_size past address.now size.now }
{
    match size {
        Err(code) => Some(*code),
        Ok(words) => taking(taken, address, words),
    }
}

/// Moves an address behind the words of a literal.
fn advance(
    alloc: Global,
    address: &mut Natural,
    size: &Result<Natural, AsmCode>,
) -> Result<(), AllocError>
    ensures { OnOk result (address.new ≡ address.old + count_or 0 size.now) }
{
    match size {
        Err(_) => Ok(()),
        Ok(words) => address.add(alloc, words),
    }
}

/// The least code of what is wrong if literals of these sizes stand one behind the other from an address on.
fn literals_code(
    alloc: Global,
    taken: &[bool],
    address: &Natural,
    sizes: &[Result<Natural, AsmCode>],
) -> Result<Option<AsmCode>, AllocError>
    ensures { IfOk result (λ code. (past : List ℕ) → AreMarks taken.now past → code ≡ taking_all past address.now sizes.now) }
{
    let mut code = None;
    let mut at = address.try_clone(alloc)?;
    for size in sizes {
        code = least(code, size_code(taken, &at, size));
        advance(alloc, &mut at, size)?;
    }
    Ok(code)
}

/// The addresses of literals of these sizes, which stand one behind the other from an address on.
fn addresses_of_literals(
    alloc: Global,
    address: &Natural,
    sizes: &[Result<Natural, AsmCode>],
) -> Result<Vec<Natural>, AllocError>
    ensures { IfOk result (λ addresses. addresses.items ≡ addresses_from address.now (map (count_or 0) sizes.now)) }
{
    let mut addresses = Vec::new(alloc);
    let mut at = address.try_clone(alloc)?;
    for size in sizes {
        addresses.push(at.try_clone(alloc)?)?;
        advance(alloc, &mut at, size)?;
    }
    Ok(addresses)
}

/// What is wrong with the address of a line that has labels.
fn labels_code(address: &Natural, line: &Line) -> Option<AsmCode>
    ensures { result ≡ code_if (not (length line.now.labels == 0) && not (nat_lt address.now (2 ^ 18))) AddressTooHigh }
{
    if line.labels.len() == 0 || clamped(address, MEMORY_SIZE) < MEMORY_SIZE {
        None
    } else {
        Some(AsmCode::AddressTooHigh)
    }
}

/// What is wrong with a radix.
fn radix_code(radix: &Natural) -> Option<AsmCode>
    ensures { result ≡ code_if (not (nat_le 2 radix.now && nat_le radix.now 10)) DoesNotFit }
{
    match radix.to_u64() {
        Some(2..=10) => None,
        _ => Some(AsmCode::DoesNotFit),
    }
}

impl Progress {
    /// No line is laid out yet; room for `lines` lines and `labels` labels is reserved.
    fn new(alloc: Global, lines: usize, labels: usize) -> Result<Progress, AllocError>
        ensures { IfOk result (λ progress. StandsFor progress empty_layout) }
    {
        Ok(Progress {
            labels: IndexMap::with_capacity(alloc, labels)?,
            address: Natural::from_u64(FIRST as u64),
            addresses: Vec::with_capacity(alloc, lines)?,
            taken: vec![in alloc; false; MEMORY_SIZE]?,
            sizes: Vec::new(alloc),
        })
    }

    /// Gives the labels of a line its address, and appends the sizes of its literals; false if a label is defined twice.
    fn lay_out_labels(&mut self, alloc: Global, line: &Line) -> Result<bool, AllocError>
        ensures { IfOk result (λ new. (s : Above) → StandsFor self.old s → Defines new s line.now self.new) }
    {
        if !define(
            alloc,
            &mut self.labels,
            line.labels.as_slice(),
            &self.address,
        )? {
            return Ok(false);
        }
        measure(
            alloc,
            &self.labels,
            &self.address,
            line.literals.as_slice(),
            &mut self.sizes,
        )?;
        self.addresses.push(self.address.try_clone(alloc)?)?;
        Ok(true)
    }

    /// Takes the addresses of a statement of this size. Returns the code of what is wrong.
    fn put(
        &mut self,
        alloc: Global,
        size: Result<Natural, AsmCode>,
    ) -> Result<Option<AsmCode>, AllocError>
        ensures { IfOk result (Lays self.old self.new (λ s. taking_size s.taken s.address size) (λ s. with_size s size)) }
    {
        match size {
            Err(code) => Ok(Some(code)),
            Ok(words) => {
                let code = take(&mut self.taken, &self.address, &words);
                self.address.add(alloc, &words)?;
                Ok(code)
            }
        }
    }

    /// Lays out the statement of a line. Returns the code of what is wrong.
    fn lay_out_statement<'a>(
        &mut self,
        alloc: Global,
        statement: &'a Option<Statement>,
    ) -> Result<Option<AsmCode>, AllocError>
        ensures { IfOk result (Lays self.old self.new (λ s. statement_code s statement.now) (λ s. with_statement s statement.now)) }
    {
        let Some(statement) = statement else {
            return Ok(None);
        };
        match statement {
            Statement::Data(given) => {
                let size = size(alloc, &self.labels, &self.address, given)?;
                self.put(alloc, size)
            }
            Statement::Loc(expression) => {
                match count(alloc, &self.labels, &self.address, expression)? {
                    Err(code) => Ok(Some(code)),
                    Ok(address) => {
                        self.address = address;
                        Ok(None)
                    }
                }
            }
            Statement::Radix(radix) => Ok(radix_code(radix)),
            Statement::End(_) => literals_code(alloc, &self.taken, &self.address, &self.sizes),
            Statement::Title => Ok(None),
        }
    }

    /// Lays out a line. Returns the least code of what is wrong.
    fn lay_out_line(&mut self, alloc: Global, line: &Line) -> Result<Option<AsmCode>, AllocError>
        ensures { IfOk result (Lays self.old self.new (λ s. line_code s line.now) (λ s. with_line s line.now)) }
    {
        let code = labels_code(&self.address, line);
        if !self.lay_out_labels(alloc, line)? {
            return Ok(Some(AsmCode::DefinedTwice));
        }
        Ok(least(code, self.lay_out_statement(alloc, &line.statement)?))
    }
}

/// Lays out all lines, or reports the first that cannot be laid out, with the least code of what is wrong with it.
///
/// A label is wrong if it has an address already (3) or stands at 1000000 octal or above (6); a word if its address has one
/// already (3) or is 1000000 octal or above (6); a literal if it has no words (4); LOC, BLOCK and RADIX if their value does not
/// fit (4), LOC and BLOCK if it has a later label or a literal (5). Literals stand behind END, and are checked there.
#[inline(never)]
pub fn lay_out(alloc: Global, lines: &[Line]) -> Result<Layout, AsmError>
    ensures { MatchResult result (λ layout. IsLayoutOf layout lines.now) (λ e. Refuses e lines.now) }
{
    let labels = lines.iter().fold(0usize, |count, line| {
        count.saturating_add(line.labels.len())
    });
    let mut progress = Progress::new(alloc, lines.len(), labels)?;
    for (i, line) in lines.iter().enumerate() {
        if let Some(code) = progress.lay_out_line(alloc, line)? {
            return Err(AsmError::Line { line: i + 1, code });
        }
    }
    let literals = addresses_of_literals(alloc, &progress.address, &progress.sizes)?;
    Ok(Layout {
        labels: progress.labels,
        addresses: progress.addresses,
        literals,
    })
}
