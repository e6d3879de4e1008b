//! Words and characters, as a table keeps them.
ghost use Rattle.std.specs.Prelude.{◌≡◌};
ghost use Rattle.kept_parts.specs.Slots.{digest};

use kept_parts::KeptSlot;
use std::hash::{Hash, Hasher};
use std::marker::Model;
use tty_lines::Char7;
use word36::Word;

/// Some words of a core, or of the shared words.
#[derive(Drop)]
pub struct Page {
    /// The words.
    pub words: Vec<Word>,
}

/// A number for some words, by which they are found.
fn digest_of_words(words: &[Word]) -> u64
    ensures { result ≡ digest 0 words.now }
{
    let mut sum: u64 = 0;
    for word in words {
        sum = sum.wrapping_mul(31).wrapping_add(word.number());
    }
    sum
}

impl Model for Page {
    ghost use Rattle.std.specs.Prelude.{ℕ, List};

    ghost Value = { List ℕ };

    ghost view = { λ p. p.words.items };
}

impl PartialEq for Page {
    ghost use Rattle.std.specs.Cmp.{partial_equiv_from_equiv};
    ghost use Rattle.job_orders.specs.Pages.{numbers-equiv, same_numbers};

    ghost eq = { same_numbers };

    ghost laws = { partial_equiv_from_equiv numbers-equiv };

    fn eq(&self, other: &Page) -> bool {
        self.words == other.words
    }
}

impl Eq for Page {
    ghost use Rattle.job_orders.specs.Pages.{numbers-equiv};

    ghost laws = { numbers-equiv };
}

impl Hash for Page {
    ghost use Rattle.job_orders.specs.Pages.{digest_writes, numbers-fed};

    ghost hash_input = { digest_writes };

    ghost respects_eq = { numbers-fed };

    fn hash<H: Hasher>(&self, state: &mut H) {
        digest_of_words(self.words.as_slice()).hash(state);
    }
}

/// What a job has put out.
#[derive(Drop)]
pub struct Text {
    /// The characters.
    pub characters: Vec<Char7>,
}

/// A number for some characters, by which they are found.
fn digest_of_characters(characters: &[Char7]) -> u64
    ensures { result ≡ digest 0 characters.now }
{
    let mut sum: u64 = 0;
    for c in characters {
        sum = sum.wrapping_mul(31).wrapping_add(u64::from(c.number()));
    }
    sum
}

impl Model for Text {
    ghost use Rattle.std.specs.Prelude.{ℕ, List};

    ghost Value = { List ℕ };

    ghost view = { λ p. p.characters.items };
}

impl PartialEq for Text {
    ghost use Rattle.std.specs.Cmp.{partial_equiv_from_equiv};
    ghost use Rattle.job_orders.specs.Pages.{numbers-equiv, same_numbers};

    ghost eq = { same_numbers };

    ghost laws = { partial_equiv_from_equiv numbers-equiv };

    fn eq(&self, other: &Text) -> bool {
        self.characters == other.characters
    }
}

impl Eq for Text {
    ghost use Rattle.job_orders.specs.Pages.{numbers-equiv};

    ghost laws = { numbers-equiv };
}

impl Hash for Text {
    ghost use Rattle.job_orders.specs.Pages.{digest_writes, numbers-fed};

    ghost hash_input = { digest_writes };

    ghost respects_eq = { numbers-fed };

    fn hash<H: Hasher>(&self, state: &mut H) {
        digest_of_characters(self.characters.as_slice()).hash(state);
    }
}

/// The slot of a job, and the address of its last turn, as a table keeps them.
#[derive(Drop)]
pub struct Slot {
    /// The slot.
    pub kept: KeptSlot,
}

impl Model for Slot {
    ghost use Rattle.kept_parts.specs.declared.slots.KeptSlot.{KeptSlot as SlotView};

    ghost Value = { SlotView };

    ghost view = { λ s. s.kept };
}

impl PartialEq for Slot {
    ghost use Rattle.std.specs.Cmp.{partial_equiv_from_equiv};
    ghost use Rattle.kept_parts.specs.SameSlots.{same_kept, same_kept-equiv};

    ghost eq = { same_kept };

    ghost laws = { partial_equiv_from_equiv same_kept-equiv };

    fn eq(&self, other: &Slot) -> bool {
        self.kept == other.kept
    }
}

impl Eq for Slot {
    ghost use Rattle.kept_parts.specs.SameSlots.{same_kept-equiv};

    ghost laws = { same_kept-equiv };
}

impl Hash for Slot {
    ghost use Rattle.kept_parts.specs.SameSlots.{kept_writes, same_kept-fed};

    ghost hash_input = { kept_writes };

    ghost respects_eq = { same_kept-fed };

    fn hash<H: Hasher>(&self, state: &mut H) {
        self.kept.hash(state);
    }
}
