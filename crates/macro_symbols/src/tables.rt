//! Names with their definitions, in the order in which they were defined.

ghost use Rattle.std.specs.Prelude.{◌≡◌, ◌↔◌, [], Some, None, OnOk, OnErr, IsSome, IsTrue, length, slice_get};
ghost use Rattle.macro_symbols.specs.Symbols.{said_of, SaysLast};

use crate::definitions::{Definition, Meaning};
use indexmap::IndexMap;
use macro_names::Name;
use std::alloc::{AllocError, Global};
use std::marker::Model;

/// Symbols by their names.
#[derive(Drop)]
pub struct Definitions {
    by_name: IndexMap<u64, Definition>,
}

impl Model for Definitions {
    ghost use Rattle.std.specs.Prelude.{ℕ, List};
    ghost use Rattle.macro_symbols.specs.declared.definitions.Definition.{Definition as Symbol};

    ghost Value = { List (ℕ × Symbol) };

    ghost view = { λ t. t.by_name.entries };
}

impl Definitions {
    /// No symbols.
    pub fn new(alloc: Global) -> Definitions
        ensures { result ≡ [] }
    {
        Definitions {
            by_name: IndexMap::new(alloc),
        }
    }

    /// What a name is defined as.
    pub fn get(&self, name: Name) -> Option<Definition>
        ensures { result ≡ said_of self.now name.sixbit }
    {
        self.by_name.get(&name.sixbit()).copied()
    }

    /// Defines a name, in place of what it was.
    pub fn put(&mut self, name: Name, definition: Definition) -> Result<(), AllocError>
        ensures said { OnOk result (SaysLast self.old self.new name.sixbit (Some definition)) }
        ensures unchanged { OnErr result (self.new ≡ self.old) }
    {
        self.by_name.insert(name.sixbit(), definition)?;
        Ok(())
    }

    /// Forgets a name.
    pub fn remove(&mut self, name: Name)
        ensures { SaysLast self.old self.new name.sixbit None }
    {
        let _before = self.by_name.shift_remove(&name.sixbit());
    }

    /// How many there are.
    pub fn len(&self) -> usize
        ensures { result ≡ length self.now }
    {
        self.by_name.len()
    }

    /// The name in SIXBIT, and the definition, at an index of the order.
    pub fn at(&self, index: usize) -> Option<(u64, Definition)>
        ensures { result ≡ slice_get self.now index }
    {
        match self.by_name.get_index(index) {
            Some((name, definition)) => Some((*name, *definition)),
            None => None,
        }
    }
}

/// Meanings of names of operations by the names.
#[derive(Drop)]
pub struct Meanings {
    by_name: IndexMap<u64, Meaning>,
}

impl Model for Meanings {
    ghost use Rattle.std.specs.Prelude.{ℕ, List};
    ghost use Rattle.macro_symbols.specs.declared.definitions.Meaning.{Meaning as Meant};

    ghost Value = { List (ℕ × Meant) };

    ghost view = { λ t. t.by_name.entries };
}

impl Meanings {
    /// No meanings.
    pub fn new(alloc: Global) -> Meanings
        ensures { result ≡ [] }
    {
        Meanings {
            by_name: IndexMap::new(alloc),
        }
    }

    /// What a name means.
    pub fn get(&self, name: Name) -> Option<Meaning>
        ensures { result ≡ said_of self.now name.sixbit }
    {
        self.by_name.get(&name.sixbit()).copied()
    }

    /// Gives a name a meaning, in place of what it meant.
    pub fn put(&mut self, name: Name, meaning: Meaning) -> Result<(), AllocError>
        ensures said { OnOk result (SaysLast self.old self.new name.sixbit (Some meaning)) }
        ensures unchanged { OnErr result (self.new ≡ self.old) }
    {
        self.by_name.insert(name.sixbit(), meaning)?;
        Ok(())
    }

    /// Forgets what a name means. False where it meant nothing.
    pub fn remove(&mut self, name: Name) -> bool
        ensures said { SaysLast self.old self.new name.sixbit None }
        ensures was { IsTrue result ↔ IsSome (said_of self.old name.sixbit) }
    {
        self.by_name.shift_remove(&name.sixbit()).is_some()
    }
}

/// Words by their places, as numbers, in the order in which they were put there.
#[derive(Drop)]
pub struct PlacedWords {
    by_place: IndexMap<u32, u64>,
}

impl Model for PlacedWords {
    ghost use Rattle.std.specs.Prelude.{ℕ, List};

    ghost Value = { List (ℕ × ℕ) };

    ghost view = { λ t. t.by_place.entries };
}

impl PlacedWords {
    /// No words.
    pub fn new(alloc: Global) -> PlacedWords
        ensures { result ≡ [] }
    {
        PlacedWords {
            by_place: IndexMap::new(alloc),
        }
    }

    /// The number of the word at a place.
    pub fn get(&self, place: u32) -> Option<u64>
        ensures { result ≡ said_of self.now place }
    {
        self.by_place.get(&place).copied()
    }

    /// Puts a word at a place.
    pub fn put(&mut self, place: u32, number: u64) -> Result<(), AllocError>
        ensures said { OnOk result (SaysLast self.old self.new place (Some number)) }
        ensures unchanged { OnErr result (self.new ≡ self.old) }
    {
        self.by_place.insert(place, number)?;
        Ok(())
    }

    /// How many words there are.
    pub fn len(&self) -> usize
        ensures { result ≡ length self.now }
    {
        self.by_place.len()
    }

    /// The place at an index of the order.
    pub fn place_at(&self, index: usize) -> Option<u32> {
        match self.by_place.get_index(index) {
            Some((place, _)) => Some(*place),
            None => None,
        }
    }
}
