//! What names stand for.

ghost use Rattle.std.specs.Prelude.{◌≡◌, nat_eq};
ghost use Rattle.std.specs.List.{list_any};
ghost use Rattle.mac_text.specs.Names.{symbol_of};
ghost use Rattle.macro_expressions.specs.Values.{symbol_in, is_macro};

use crate::symbols::Defined;
use indexmap::IndexMap;
use mac_text::Symbol;
use std::marker::Model;

/// What names stand for in a statement: symbols as they were defined last, else by a table; the place of the statement; the place
/// of the next pool of literals.
#[derive(Drop)]
pub struct Known<'a> {
    /// The symbols of the whole source, with their last values.
    pub table: &'a IndexMap<u64, i64>,
    /// The symbols so far.
    pub defined: &'a IndexMap<u64, Defined>,
    /// The names that may be macros, of which no value is judged.
    pub macros: &'a [u64],
    /// The place of the statement.
    pub here: u32,
    /// The place of the next pool of literals.
    pub pool_at: i64,
}

impl<'a> Model for Known<'a> {
    ghost use Rattle.std.specs.Prelude.{pos};
    ghost use Rattle.macro_expressions.specs.Values.{Names};

    ghost Value = { Names };

    ghost view = { λ k. record {
      table = k.table.now.entries;
      defined = k.defined.now.entries;
      macros = k.macros.now;
      here = pos k.here;
      pool_at = k.pool_at;
    } };
}

/// Whether a symbol is one of some.
pub fn has_symbol(symbols: &[u64], symbol: u64) -> bool
    ensures { result ≡ list_any (nat_eq symbol) symbols.now }
{
    symbols.iter().any(|one| symbol == *one)
}

/// Whether the symbol of a name is one of some.
pub fn is_one_of(symbols: &[u64], name: &[u8]) -> bool
    ensures { result ≡ list_any (nat_eq (symbol_of name.now)) symbols.now }
{
    match symbols {
        [] => false,
        _ => has_symbol(symbols, Symbol::of(name).sixbit()),
    }
}

impl Known<'_> {
    /// The value of a symbol.
    pub fn symbol(&self, name: u64) -> Option<i64>
        ensures { result ≡ symbol_in self.now name }
    {
        match self.defined.get(&name) {
            Some(symbol) => Some(symbol.value),
            None => self.table.get(&name).copied(),
        }
    }

    /// Whether a name may be a macro.
    pub fn is_macro(&self, name: &[u8]) -> bool
        ensures { result ≡ is_macro self.now (symbol_of name.now) }
    {
        is_one_of(self.macros, name)
    }

    /// The point: the place of the statement.
    pub fn here(&self) -> i64
        ensures { result ≡ self.now.here }
    {
        i64::from(self.here)
    }

    /// The place of the next pool of literals.
    pub fn pool_at(&self) -> i64
        ensures { result ≡ self.now.pool_at }
    {
        self.pool_at
    }
}
