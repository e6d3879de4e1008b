//! Marks of the requests whose flags a call flipped.
ghost use Rattle.std.specs.Prelude.{ℕ, ◌≡◌, ◌<◌, false, true, IfOk, IfSome, length, slice_set};
ghost use Rattle.lock_table.specs.Raised.{MarksAre};
ghost use Rattle.lock_table.specs.Flips.{mark_at, flipped_if};

use std::alloc::{AllocError, Global};
use std::marker::Model;

/// A mark for each slot: whether `granted` of the request there flipped since the marks were cleared.
#[derive(Drop)]
pub struct Flips<const REQS: usize> {
    marks: Vec<bool>,
    /// How many flips there were since then: 0, 1, or 2 for more.
    flipped: u8,
    /// The slot of the last of them.
    last: u16,
}

impl<const REQS: usize> Model for Flips<REQS> {
    ghost use Rattle.std.specs.Prelude.{Bool, List, ◌≡◌, length};
    ghost use Rattle.lock_table.specs.Raised.{MarksAre};

    ghost Value = { List Bool };

    ghost view = { λ t. t.marks.items };

    ghost invariant = { λ t. (length t.marks.items ≡ REQS) × MarksAre t.marks.items t.flipped t.last };
}

/// Clears all marks.
fn clear_all(marks: &mut [bool])
    ensures { (x : ℕ) → mark_at marks.new x ≡ false }
{
    for i in 0..marks.len() {
        marks[i] = false;
    }
}

/// Clears all marks, after so many flips.
fn clear_flipped(marks: &mut [bool], flipped: u8, last: u16)
    requires { MarksAre marks.old flipped last }
    ensures { (x : ℕ) → mark_at marks.new x ≡ false }
{
    if flipped == 1 && (last as usize) < marks.len() {
        marks[last as usize] = false;
    } else if flipped != 0 {
        clear_all(marks);
    }
}

impl<const REQS: usize> Flips<REQS> {
    /// No slot is marked.
    pub fn new(alloc: Global) -> Result<Self, AllocError>
        ensures { IfOk result (λ t. (x : ℕ) → mark_at t x ≡ false) }
    {
        Ok(Flips {
            marks: vec![in alloc; false; REQS]?,
            flipped: 0,
            last: 0,
        })
    }

    /// Flips the mark of a slot, if its flag flips.
    pub fn flip_if(&mut self, p: u16, flips: bool)
        requires { p < REQS }
        ensures value { self.new ≡ slice_set self.old p (flipped_if flips (mark_at self.old p)) }
        ensures within { p < length self.old }
    {
        if flips {
            self.marks[p as usize] = !self.marks[p as usize];
            self.last = p;
            if self.flipped < 2 {
                self.flipped += 1;
            }
        }
    }

    /// Whether a slot is marked.
    pub fn is_marked(&self, p: u16) -> bool
        requires { p < REQS }
        ensures { result ≡ mark_at self.now p }
    {
        self.marks[p as usize]
    }

    /// Whether there was no flip.
    pub fn none(&self) -> bool
        ensures { result ≡ true → (x : ℕ) → mark_at self.now x ≡ false }
    {
        self.flipped == 0
    }

    /// The slot of the only flip; `None` where there was none, or more than one.
    pub fn only(&self) -> Option<u16>
        ensures { IfSome result (λ p. (x : ℕ) → (x ≡ p → ⊥) → mark_at self.now x ≡ false) }
    {
        if self.flipped == 1 {
            Some(self.last)
        } else {
            None
        }
    }

    /// Clears all marks.
    pub fn clear(&mut self)
        ensures { (x : ℕ) → mark_at self.new x ≡ false }
    {
        clear_flipped(self.marks.as_mut_slice(), self.flipped, self.last);
        self.flipped = 0;
    }
}
