//! The labels at the head of a line.

ghost use Rattle.std.specs.Prelude.{◌≡◌, ◌==◌, [], ◌∷◌, ◌++◌, length, OnOk};

use crate::symbol::Symbol;
use std::alloc::{AllocError, Global};
use std::marker::Model;
use std::{mem, slice};

/// The labels at the head of a line in order, which contracts see as a list. A single one takes no memory.
#[derive(Debug, Drop)]
pub struct Labels {
    held: Held,
}

#[derive(Debug, Drop)]
enum Held {
    Nothing,
    One(Symbol),
    Many(Vec<Symbol>),
}

impl Model for Labels {
    ghost use Rattle.std.specs.Prelude.{ℕ, List};
    ghost use Rattle.mac_text.specs.Terms.{labels_of};

    ghost Value = { List ℕ };

    ghost view = { λ l. labels_of l.held };
}

impl Labels {
    /// No labels.
    pub fn new() -> Self
        ensures { result ≡ [] }
    {
        Labels {
            held: Held::Nothing,
        }
    }

    /// How many there are.
    pub fn len(&self) -> usize
        ensures { result ≡ length self.now }
    {
        self.as_slice().len()
    }

    /// Whether there are none.
    pub fn is_empty(&self) -> bool
        ensures { result ≡ (length self.now == 0) }
    {
        self.as_slice().is_empty()
    }

    /// The labels in order.
    pub fn as_slice(&self) -> &[Symbol]
        ensures { result.now ≡ self.now }
    {
        match &self.held {
            Held::Nothing => &[],
            Held::One(label) => slice::from_ref(label),
            Held::Many(labels) => labels.as_slice(),
        }
    }

    /// Leaves no labels.
    pub(crate) fn clear(&mut self)
        ensures { self.new ≡ [] }
    {
        if !matches!(&self.held, Held::Nothing) {
            self.held = Held::Nothing;
        }
    }

    /// Puts a label at the end.
    pub(crate) fn push(&mut self, alloc: Global, label: Symbol) -> Result<(), AllocError>
        ensures { OnOk result (self.new ≡ self.old ++ label ∷ []) }
    {
        match mem::replace(&mut self.held, Held::Nothing) {
            Held::Nothing => {
                self.held = Held::One(label);
                Ok(())
            }
            Held::One(first) => {
                let mut labels = Vec::new(alloc);
                labels.push(first)?;
                labels.push(label)?;
                self.held = Held::Many(labels);
                Ok(())
            }
            Held::Many(labels) => {
                let mut labels = labels;
                labels.push(label)?;
                self.held = Held::Many(labels);
                Ok(())
            }
        }
    }
}
