//! What the statements of a source leave.

ghost use Rattle.std.specs.Prelude.{◌≡◌, ◌<◌, ◌≤◌, ◌+◌, ◌^◌, [], drop, length, nat_eq, OnOk, Some};
ghost use Rattle.std.specs.List.{list_any};
ghost use Rattle.std.specs.Str.{IsAscii};
ghost use Rattle.std.specs.Map.{lookup};
ghost use Rattle.mac_text.specs.Names.{symbol_of};
ghost use Rattle.macro_expressions.specs.Reading.{Gives};
ghost use Rattle.macro_expressions.specs.Values.{defined_as};
ghost use Rattle.macro_meaning.specs.Meaning.{begun, names_of, next_pool, takes_label, defining, put, put_all, putting, placing, is_of_label};
ghost use Rattle.macro_meaning.specs.Meaning.{is_barred, trusting, is_known, asking, keeping, spending};

use indexmap::IndexMap;
use mac_text::Symbol;
use macro_expressions::{BEYOND, Defined, Fault, Known, WRONG, has_symbol, is_one_of};
use macro_statements::built_in;
use std::alloc::{AllocError, Global};
use std::marker::Model;
use word36::Word;

/// How many places there are.
const PLACES: usize = 0o1_000_000;

/// How many characters that are put in front are judged.
const MOST_SPENT: usize = 1_000_000;

/// The first place.
const FIRST: u32 = 0o140;

/// What the statements so far have left.
#[derive(Drop)]
pub struct Walk<'a> {
    place: u32,
    /// The symbols, as they were defined last.
    pub defined: IndexMap<u64, Defined>,
    pools: &'a [i64],
    /// The words with their places.
    pub words: Vec<(u32, Word)>,
    start: Option<u32>,
    /// The names that may be macros.
    callable: Vec<u64>,
    /// The position of each macro's definition in those that are kept.
    macros: IndexMap<u64, usize>,
    kept: Vec<u8>,
    /// The names that a condition found not defined.
    asked: Vec<u64>,
    /// Whether the values so far are the same whatever the table has.
    is_sure: bool,
    /// How many characters were put in front.
    spent: usize,
    /// How many names were made.
    made: u32,
    /// Whether the round of IRP that is read is the last, if one is.
    is_last: Option<bool>,
}

impl<'a> Model for Walk<'a> {
    ghost use Rattle.macro_meaning.specs.Meaning.{Walk as Left};

    ghost Value = { Left };

    ghost view = { λ w. record {
      place = w.place;
      defined = w.defined.entries;
      pools = w.pools.now;
      words = w.words.items;
      start = w.start;
      callable = w.callable.items;
      macros = w.macros.entries;
      kept = w.kept.items;
      asked = w.asked.items;
      is_sure = w.is_sure;
      spent = w.spent;
      made = w.made;
      is_last = w.is_last;
    } };
}

impl<'a> Walk<'a> {
    /// Before the first statement; pools will be at these places, and these names may be macros.
    pub fn new(alloc: Global, pools: &'a [i64], callable: Vec<u64>) -> Walk<'a>
        ensures { result ≡ begun pools.now callable.items }
    {
        Walk {
            place: FIRST,
            defined: IndexMap::new(alloc),
            pools,
            words: Vec::new(alloc),
            start: None,
            callable,
            macros: IndexMap::new(alloc),
            kept: Vec::new(alloc),
            asked: Vec::new(alloc),
            is_sure: true,
            spent: 0,
            made: 0,
            is_last: None,
        }
    }

    /// The start, after END.
    pub fn start(&self) -> Option<u32>
        ensures { result ≡ self.now.start }
    {
        self.start
    }

    /// The meanings of names, by a table that has the symbols of the whole source.
    pub fn known<'b>(&'b self, table: &'b IndexMap<u64, i64>) -> Known<'b>
        ensures { result ≡ names_of table.now.entries self.now }
    {
        Known {
            table,
            defined: &self.defined,
            macros: self.callable.as_slice(),
            here: self.place,
            pool_at: self.next_pool(),
        }
    }

    /// The place of the next pool, 0 if there is none.
    fn next_pool(&self) -> i64
        ensures { result ≡ next_pool self.now.pools }
    {
        match self.pools {
            [] => 0,
            [first, ..] => *first,
        }
    }

    /// A symbol as it was defined last.
    fn symbol(&self, name: u64) -> Option<Defined>
        ensures { result ≡ defined_as self.now.defined name }
    {
        self.defined.get(&name).copied()
    }

    /// Whether a label can be defined here: the place is one of memory, and the name is not defined.
    pub fn takes_label(&self, name: u64) -> bool
        ensures { result ≡ takes_label self.now name }
    {
        self.place < PLACES as u32 && self.symbol(name).is_none()
    }

    /// Whether a name is a label.
    pub fn is_label(&self, name: u64) -> bool
        ensures { result ≡ is_of_label (defined_as self.now.defined name) }
    {
        match self.symbol(name) {
            Some(symbol) => symbol.is_label,
            None => false,
        }
    }

    /// Whether a name may be a macro.
    pub fn is_callable(&self, name: &[u8]) -> bool
        ensures { result ≡ list_any (nat_eq (symbol_of name.now)) self.now.callable }
    {
        is_one_of(self.callable.as_slice(), name)
    }

    /// Whether a name is not judged as a symbol: it may be a macro, or a condition found it not defined.
    pub fn is_barred(&self, name: u64) -> bool
        ensures { result ≡ is_barred self.now name }
    {
        has_symbol(self.callable.as_slice(), name) || has_symbol(self.asked.as_slice(), name)
    }

    /// Whether the values so far are the same whatever the table has.
    pub fn is_sure(&self) -> bool
        ensures { result ≡ self.now.is_sure }
    {
        self.is_sure
    }

    /// Takes note of whether a value is known by what was defined so far.
    pub fn trust(&mut self, is_early: bool)
        ensures { self.new ≡ trusting is_early self.old }
    {
        self.is_sure = self.is_sure && is_early;
    }

    /// Whether a name is a symbol that is defined so far, or an operation or pseudo-operation.
    pub fn is_known(&self, word: &[u8]) -> bool
        requires { IsAscii word.now }
        ensures { result ≡ is_known self.now word.now }
    {
        self.symbol(Symbol::of(word).sixbit()).is_some() || built_in(word).is_some()
    }

    /// Takes note of a name that is asked for.
    pub fn ask(&mut self, word: &[u8]) -> Result<(), AllocError>
        requires { IsAscii word.now }
        ensures { OnOk result (self.new ≡ asking word.now self.old) }
    {
        if self.is_known(word) {
            return Ok(());
        }
        self.asked.push(Symbol::of(word).sixbit())?;
        Ok(())
    }

    /// Keeps the definition of a macro, in place of one of the same name.
    pub fn keep(&mut self, name: u64, definition: &[u8]) -> Result<(), AllocError>
        ensures { OnOk result (self.new ≡ keeping name definition.now self.old) }
    {
        let at = self.kept.len();
        self.macros.insert(name, at)?;
        self.kept.extend_from_slice(definition)
    }

    /// The position of a macro's definition in those that are kept.
    pub fn macro_at(&self, name: u64) -> Option<usize>
        ensures { result ≡ lookup (nat_eq name) self.now.macros }
    {
        self.macros.get(&name).copied()
    }

    /// The definitions that are kept, from one on.
    pub fn kept_from(&self, at: usize) -> &[u8]
        ensures { result.now ≡ drop at self.now.kept }
    {
        from_position(self.kept.as_slice(), at)
    }

    /// How many names were made.
    pub fn made(&self) -> u32
        ensures { result ≡ self.now.made }
    {
        self.made
    }

    /// Sets how many names were made.
    pub fn set_made(&mut self, made: u32)
        ensures { self.new ≡ record self.old { made = made } }
    {
        self.made = made;
    }

    /// Whether the round of IRP that is read is the last, if one is.
    pub fn is_last(&self) -> Option<bool>
        ensures { result ≡ self.now.is_last }
    {
        self.is_last
    }

    /// Sets whether the round of IRP that is read is the last.
    pub fn set_last(&mut self, is_last: Option<bool>)
        ensures { self.new ≡ record self.old { is_last = is_last } }
    {
        self.is_last = is_last;
    }

    /// Counts characters that are put in front.
    pub fn spend(&mut self, size: usize) -> Result<(), Fault>
        ensures { Gives (λ _. self.new) result (spending size self.old) }
    {
        match self.spent.checked_add(size) {
            Some(all) if all <= MOST_SPENT => {
                self.spent = all;
                Ok(())
            }
            _ => Err(BEYOND),
        }
    }

    /// The place of the next word.
    pub fn place(&self) -> u32
        ensures { result ≡ self.now.place }
    {
        self.place
    }

    /// Sets the place of the next word.
    pub fn set_place(&mut self, place: u32)
        ensures { self.new ≡ record self.old { place = place } }
    {
        self.place = place;
    }

    /// Sets the start.
    pub fn set_start(&mut self, start: u32)
        ensures { self.new ≡ record self.old { start = Some start } }
    {
        self.start = Some(start);
    }

    /// Defines a symbol, in place of what it was.
    pub fn define(&mut self, name: u64, value: i64, is_label: bool) -> Result<(), AllocError>
        ensures { OnOk result (self.new ≡ defining name value is_label self.old) }
    {
        self.defined.insert(name, Defined { value, is_label })?;
        Ok(())
    }

    /// Puts a word at the place that is next.
    fn put_one(&mut self, word: Word) -> Result<(), AllocError>
        requires { self.old.place < 2 ^ 18 }
        ensures { OnOk result (self.new ≡ put word self.old) }
    {
        self.words.push((self.place, word))?;
        self.place += 1;
        Ok(())
    }

    /// Puts words at the places that are next, which have to be places of memory.
    pub fn put(&mut self, words: &[Word]) -> Result<(), Fault>
        ensures { Gives (λ _. self.new) result (putting words.now self.old) }
    {
        if words.is_empty() {
            return Ok(());
        }
        if words.len() > PLACES || self.place as usize + words.len() > PLACES {
            return Err(WRONG);
        }
        put_all(self, words)?;
        Ok(())
    }

    /// Puts the words of the literals so far at the places that are next, which have to be those that were said.
    pub fn put_pool(&mut self, pool: &[Word]) -> Result<(), Fault>
        ensures { Gives (λ _. self.new) result (placing pool.now self.old) }
    {
        if !pool.is_empty() && self.next_pool() != i64::from(self.place) {
            return Err(WRONG);
        }
        self.pools = behind_first(self.pools);
        self.put(pool)
    }
}

/// A text from a position on.
fn from_position(text: &[u8], at: usize) -> &[u8]
    ensures { result.now ≡ drop at text.now }
{
    &text[at.min(text.len())..]
}

/// Places without the first.
fn behind_first(places: &[i64]) -> &[i64]
    ensures { result.now ≡ drop 1 places.now }
{
    match places {
        [] => places,
        [_, behind @ ..] => behind,
    }
}

/// Puts words at the places that are next.
fn put_all(walk: &mut Walk<'_>, words: &[Word]) -> Result<(), AllocError>
    requires { walk.old.place + length words.now ≤ 2 ^ 18 }
    ensures { OnOk result (walk.new ≡ put_all words.now walk.old) }
{
    for word in words {
        walk.put_one(*word)?;
    }
    Ok(())
}
