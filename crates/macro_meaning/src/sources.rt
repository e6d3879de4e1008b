//! What whole sources mean, beside the images that were made of them.

ghost use Rattle.std.specs.Prelude.{◌≡◌, [], IfOk, OnOk, IsTrue, Some, IsPermutation, is_some, slice_get};
ghost use Rattle.std.specs.List.{list_all};
ghost use Rattle.std.specs.Option.{option_map};
ghost use Rattle.macro_expressions.specs.Reading.{Gives};
ghost use Rattle.macro_expressions.specs.Values.{defined_as};
ghost use Rattle.macro_meaning.specs.Meaning.{can_enter, entering, leaving, entered, next_step, walked, read_through, meaning, has_value, has_definition, is_settled, IsLeft, IsMeant, Stands};

use crate::scopes::Table;
use crate::steps::step;
use crate::walk::Walk;
use indexmap::IndexMap;
use macro_expansion::joins;
use macro_expressions::{BEYOND, Defined, Fault, Reading, Stop, WRONG, begins_with};
use macro_statements::{mentions, survey};
use std::alloc::{AllocError, Global};
use word36::{Image, Word};

/// How many texts, one put in front while another is read, are judged.
const MOST_DEPTH: u32 = 40;

/// Whether a text can be read before what is left.
fn can_enter(text: &[u8], front: &Reading<'_>) -> bool
    ensures { result ≡ can_enter text.now front.now }
{
    joins(text, front.rest()) && !mentions(text)
}

/// Begins a text that is read before what is left; the pool goes with it.
fn begin<'b>(front: &mut Reading<'_>, text: &'b [u8]) -> Result<Reading<'b>, AllocError>
    ensures inner { IfOk result (λ inner. inner ≡ record front.old { rest = text.now }) }
    ensures rest { OnOk result (front.new ≡ record front.old { pool = [] }) }
{
    let mut inner = Reading::new(front.alloc(), front.radix(), text);
    let pool = front.take_pool();
    inner.push_literal(pool.as_slice())?;
    Ok(inner)
}

/// Goes on after a text that was put first.
fn finish(front: &mut Reading<'_>, inner: &mut Reading<'_>) -> Result<(), AllocError>
    requires { front.old.pool ≡ [] }
    ensures { OnOk result (front.new ≡ record inner.old { rest = front.old.rest }) }
{
    front.swap_radix(inner.radix());
    let pool = inner.take_pool();
    front.push_literal(pool.as_slice())
}

/// Begins the rounds of IRP, if a text is those.
fn begin_rounds(text: &[u8], walk: &mut Walk<'_>)
    ensures { walk.new ≡ entering text.now walk.old }
{
    if begins_with(253, text) {
        walk.set_last(Some(false));
    }
}

/// Ends the rounds of IRP, if a text is those; `before` is what held before them.
fn end_rounds(text: &[u8], before: Option<bool>, walk: &mut Walk<'_>)
    ensures { walk.new ≡ leaving text.now before walk.old }
{
    if begins_with(253, text) {
        walk.set_last(before);
    }
}

/// Reads a text that is put in front, if one is.
#[cycle(reading)]
fn enter(
    table: &Table,
    depth: u32,
    text: Option<Vec<u8>>,
    walk: &mut Walk<'_>,
    front: &mut Reading<'_>,
) -> Result<(), Fault>
    ensures { Gives (λ _. (walk.new, front.new)) result (entered (read_through table.now.entries depth) (option_map (λ t. t.items) text) walk.old front.old) }
{
    let Some(text) = text else {
        return Ok(());
    };
    if !can_enter(text.as_slice(), front) {
        return Err(BEYOND);
    }
    let before = walk.is_last();
    walk.spend(text.len())?;
    begin_rounds(text.as_slice(), walk);
    let mut inner = begin(front, text.as_slice())?;
    read_through(table, depth, walk, &mut inner)?;
    end_rounds(text.as_slice(), before, walk);
    Ok(finish(front, &mut inner)?)
}

/// Reads the next label or statement, with what it puts in front; gives whether that is the end.
#[cycle(reading)]
#[tactic(auto, unfolding(crate::specs::Meaning::next_step))]
fn next(
    table: &Table,
    depth: u32,
    walk: &mut Walk<'_>,
    front: &mut Reading<'_>,
) -> Result<bool, Fault>
    ensures { Gives (λ is_end. (is_end, (walk.new, front.new))) result (next_step table.now.entries (read_through table.now.entries depth) walk.old front.old) }
{
    front.cross_lines();
    if front.rest().is_empty() {
        return Ok(true);
    }
    let text = step(table, walk, front)?;
    enter(table, depth, text, walk, front)?;
    Ok(walk.start().is_some())
}

/// Reads labels and statements, at most `most`, up to the end of a text or END.
#[cycle(reading)]
fn walk_through(
    table: &Table,
    depth: u32,
    most: usize,
    walk: &mut Walk<'_>,
    front: &mut Reading<'_>,
) -> Result<(), Fault>
    ensures { Gives (λ _. (walk.new, front.new)) result (walked (next_step table.now.entries (read_through table.now.entries depth)) most walk.old front.old) }
{
    for _ in 0..most {
        let is_end = next(table, depth, walk, front)?;
        if is_end {
            return Ok(());
        }
    }
    Err(BEYOND)
}

/// Reads labels and statements of a text, or those up to END. Texts, one put in front while another is read, are at most `depth`.
#[cycle(reading)]
#[tactic(auto, unfolding(crate::specs::Meaning::read_through))]
fn read_through(
    table: &Table,
    depth: u32,
    walk: &mut Walk<'_>,
    front: &mut Reading<'_>,
) -> Result<(), Fault>
    ensures { Gives (λ _. (walk.new, front.new)) result (read_through table.now.entries depth walk.old front.old) }
{
    if depth == 0 {
        return Err(BEYOND);
    }
    let most = front.rest().len() + 1;
    walk_through(table, depth - 1, most, walk, front)
}

/// What a source leaves.
#[tactic(auto, unfolding(crate::specs::Meaning::meaning))]
fn meaning<'a>(
    alloc: Global,
    table: &Table,
    pools: &'a [i64],
    source: &[u8],
) -> Result<Walk<'a>, Fault>
    ensures { Gives (λ walk. walk) result (meaning table.now.entries pools.now source.now) }
{
    let Some(names) = survey(alloc, source)? else {
        return Err(BEYOND);
    };
    let mut walk = Walk::new(alloc, pools, names);
    let mut front = Reading::new(alloc, 8, source);
    read_through(table, MOST_DEPTH, &mut walk, &mut front)?;
    if walk.start().is_some() {
        Ok(walk)
    } else {
        Err(WRONG)
    }
}

/// The entry of a map at a position, in the order of insertion.
fn entry_at<V: Copy>(entries: &IndexMap<u64, V>, at: usize) -> Option<(u64, V)>
    ensures { result ≡ slice_get entries.now.entries at }
{
    match entries.get_index(at) {
        Some((name, value)) => Some((*name, *value)),
        None => None,
    }
}

/// Whether a table has the last value of a symbol.
fn has_value(table: &Table, name: u64, symbol: Defined) -> bool
    ensures { result ≡ has_value table.now.entries (name, symbol) }
{
    match table.get(&name) {
        Some(value) => *value == symbol.value,
        None => false,
    }
}

/// Whether a table has the last values of all symbols that are defined.
#[tactic(auto, using(crate::proofs::Entries::all_from, crate::proofs::Entries::past_end))]
fn has_values(table: &Table, defined: &IndexMap<u64, Defined>) -> bool
    ensures { result ≡ list_all (has_value table.now.entries) defined.now.entries }
{
    for at in 0..defined.len() {
        let Some((name, symbol)) = entry_at(defined, at) else {
            return true;
        };
        if !has_value(table, name, symbol) {
            return false;
        }
    }
    true
}

/// Whether a symbol is defined.
fn has_definition(defined: &IndexMap<u64, Defined>, name: u64) -> bool
    ensures { result ≡ is_some (defined_as defined.now.entries name) }
{
    defined.get(&name).is_some()
}

/// Whether all symbols of a table are defined.
#[tactic(auto, using(crate::proofs::Entries::all_from, crate::proofs::Entries::past_end))]
fn has_definitions(table: &Table, defined: &IndexMap<u64, Defined>) -> bool
    ensures { result ≡ list_all (has_definition defined.now.entries) table.now.entries }
{
    for at in 0..table.len() {
        let Some((name, _)) = entry_at(table, at) else {
            return true;
        };
        if !has_definition(defined, name) {
            return false;
        }
    }
    true
}

/// Whether words and their places are the same as others, in the same order.
fn are_equal(words: &[(u32, Word)], others: &[(u32, Word)]) -> bool
    ensures { IsTrue result → words.now ≡ others.now }
{
    words == others
}

/// Words in the order of their places.
fn by_place(alloc: Global, words: &[(u32, Word)]) -> Result<Vec<(u32, Word)>, AllocError>
    ensures { IfOk result (λ sorted. IsPermutation words.now sorted.items) }
{
    let mut sorted = Vec::from_slice(alloc, words)?;
    sorted.sort_by_key(|entry| entry.0)?;
    Ok(sorted)
}

/// Whether words are the same as others, which are sorted by their places.
fn are_same(
    alloc: Global,
    words: &[(u32, Word)],
    others: &[(u32, Word)],
) -> Result<bool, AllocError>
    ensures { IfOk result (λ holds. IsTrue holds → IsPermutation words.now others.now) }
{
    let sorted = by_place(alloc, words)?;
    Ok(are_equal(sorted.as_slice(), others))
}

/// Whether a table has the last values of the symbols that are defined, and no others.
fn is_settled(table: &Table, defined: &IndexMap<u64, Defined>) -> bool
    ensures { result ≡ is_settled table.now.entries defined.now.entries }
{
    has_values(table, defined) && has_definitions(table, defined)
}

/// Whether END gave this start.
fn starts_at(walk: &Walk<'_>, start: u32) -> bool
    ensures { IsTrue result → walk.now.start ≡ Some start }
{
    match walk.start() {
        Some(place) => place == start,
        None => false,
    }
}

/// Whether a walk left what an image has, and a table the last values of its symbols.
#[tactic(auto, using(crate::proofs::Stands::left_by))]
fn is_left(alloc: Global, table: &Table, walk: &Walk<'_>, image: &Image) -> Result<bool, AllocError>
    ensures { IfOk result (λ holds. IsTrue holds → IsLeft table.now.entries walk.now image.now.words.items image.now.start) }
{
    if !starts_at(walk, image.start) || !is_settled(table, &walk.defined) {
        return Ok(false);
    }
    are_same(alloc, walk.words.as_slice(), image.words.as_slice())
}

/// Whether an image is what a source leaves by a table and the places of pools, as far as that is judged.
#[tactic(auto, using(crate::proofs::Stands::left_stands, crate::proofs::Stands::beyond_stands))]
fn stands(
    alloc: Global,
    table: &Table,
    pools: &[i64],
    source: &[u8],
    image: &Image,
) -> Result<bool, AllocError>
    ensures { IfOk result (λ holds. IsTrue holds
        → Stands table.now.entries (meaning table.now.entries pools.now source.now) image.now.words.items image.now.start) }
{
    match meaning(alloc, table, pools, source) {
        Ok(walk) => Ok(is_left(alloc, table, &walk, image)?),
        Err(Fault::Stopped(Stop::Beyond)) => Ok(true),
        Err(Fault::Stopped(Stop::Wrong)) => Ok(false),
        Err(Fault::Memory) => Err(AllocError),
    }
}

/// Whether an image is what its source means, as far as that is judged. The table has the last values of all symbols, and
/// `pools` the places of the words of literals, one for each LIT and END. False if a value of the source is wrong, a name has
/// no meaning or is defined twice, or the words, their places, the start or the symbols are others. A source with something that is
/// not judged passes.
#[tactic(auto, using(crate::proofs::Stands::is_meant_by))]
pub fn is_meant(
    alloc: Global,
    table: &Table,
    pools: &[i64],
    source: &[u8],
    image: &Image,
) -> Result<bool, AllocError>
    ensures { IfOk result (λ holds. IsTrue holds → IsMeant source.now image.now.words.items image.now.start) }
{
    Ok(stands(alloc, table, pools, source, image)?)
}
