//! The front of a text, as it is read.

ghost use Rattle.std.specs.Prelude.{◌≡◌, ◌≤◌, ◌++◌, [], length, pos, OnOk};
ghost use Rattle.std.specs.Str.{IsAscii};
ghost use Rattle.mac_text.specs.Scan.{after_blanks, word_of};
ghost use Rattle.macro_expressions.specs.Reading.{Front, Gives, skipped, without, meets, eaten, meets_commas, across_lines, without_line};
ghost use Rattle.macro_expressions.specs.Values.{digits_at};

use crate::characters::{begins_with, blanks_len, digits_len, word_len};
use crate::fault::Fault;
use crate::lines::{gap_len, line_len};
use crate::numbers::number;
use macro_values::Whole;
use std::alloc::{AllocError, Global};
use std::marker::Model;
use whole_numbers::Natural;
use word36::Word;

/// What is left to read of a text, the radix of its numbers, and the words of the literals so far.
#[derive(Drop)]
pub struct Reading<'a> {
    alloc: Global,
    rest: &'a [u8],
    radix: u8,
    pool: Vec<Word>,
}

impl<'a> Model for Reading<'a> {
    ghost use Rattle.std.specs.Prelude.{◌≤◌};
    ghost use Rattle.macro_expressions.specs.Reading.{Front};

    ghost Value = { Front };

    ghost view = { λ s. record {
      rest = s.rest.now;
      radix = s.radix;
      pool = s.pool.items;
    } };

    ghost invariant = { λ s. s.radix ≤ 10 };
}

impl<'a> Reading<'a> {
    /// A text before anything of it is read, with no literals.
    pub fn new(alloc: Global, radix: u8, text: &'a [u8]) -> Self
        requires { radix ≤ 10 }
        ensures { result ≡ record { rest = text.now; radix = radix; pool = [] } }
    {
        Reading {
            alloc,
            rest: text,
            radix,
            pool: Vec::new(alloc),
        }
    }

    /// What is left.
    pub fn rest(&self) -> &'a [u8]
        ensures { result.now ≡ self.now.rest }
    {
        self.rest
    }

    /// What is left behind blanks.
    pub fn behind_blanks(&self) -> &'a [u8]
        ensures { result.now ≡ after_blanks self.now.rest }
    {
        let rest = self.rest;
        &rest[blanks_len(rest)..]
    }

    /// The memory that is taken.
    pub fn alloc(&self) -> Global {
        self.alloc
    }

    /// The radix of numbers.
    pub fn radix(&self) -> u8
        ensures value { result ≡ self.now.radix }
        ensures most { result ≤ 10 }
    {
        self.radix
    }

    /// Sets the radix of numbers; gives the one before.
    pub fn swap_radix(&mut self, radix: u8) -> u8
        requires { radix ≤ 10 }
        ensures before { result ≡ self.old.radix }
        ensures after { self.new ≡ record self.old { radix = radix } }
        ensures most { result ≤ 10 }
    {
        let before = self.radix;
        self.radix = radix;
        before
    }

    /// Goes on with another text.
    pub fn set_rest(&mut self, rest: &'a [u8])
        ensures { self.new ≡ record self.old { rest = rest.now } }
    {
        self.rest = rest;
    }

    /// Skips blanks.
    pub fn skip(&mut self)
        ensures { self.new ≡ skipped self.old }
    {
        let rest = self.rest;
        self.rest = &rest[blanks_len(rest)..];
    }

    /// Whether a character comes next, behind blanks.
    pub fn meets(&self, c: u8) -> bool
        ensures { result ≡ meets c self.now }
    {
        let rest = self.rest;
        begins_with(c, &rest[blanks_len(rest)..])
    }

    /// Whether two commas come next, behind blanks.
    pub fn meets_commas(&self) -> bool
        ensures { result ≡ meets_commas self.now }
    {
        let rest = self.behind_blanks();
        match rest {
            [first, second, ..] => *first == b',' && *second == b',',
            _ => false,
        }
    }

    /// Skips blanks, and then the character if it comes next; true if it did.
    pub fn eat(&mut self, c: u8) -> bool
        ensures met { result ≡ meets c self.old }
        ensures rest { self.new ≡ eaten c self.old }
    {
        self.skip();
        let rest = self.rest;
        let met = begins_with(c, rest);
        if met && !rest.is_empty() {
            self.rest = &rest[1..];
        }
        met
    }

    /// Skips `n` characters.
    pub fn advance(&mut self, n: usize)
        requires { n ≤ length self.old.rest }
        ensures { self.new ≡ without n self.old }
    {
        let rest = self.rest;
        self.rest = &rest[n..];
    }

    /// Skips a character, if there is one.
    pub fn step(&mut self)
        ensures { self.new ≡ without 1 self.old }
    {
        let rest = self.rest;
        if !rest.is_empty() {
            self.rest = &rest[1..];
        }
    }

    /// The letters, digits and the like that come next.
    #[tactic(auto, using(mac_text::proofs::AsciiLemmas::word_is_ascii))]
    pub fn word(&self) -> &'a [u8]
        ensures value { result.now ≡ word_of self.now.rest }
        ensures ascii { IsAscii result.now }
        ensures within { length result.now ≤ length self.now.rest }
    {
        let rest = self.rest;
        &rest[..word_len(rest)]
    }

    /// A number of digits of a radix, which have to come next.
    #[tactic(auto, unfolding(crate::specs::Values::digits_at))]
    pub fn digits(&mut self, radix: u8) -> Result<Whole, Fault>
        requires { radix ≤ 10 }
        ensures { Gives (λ z. (z, self.new)) result (digits_at radix self.old) }
    {
        let rest = self.rest;
        let len = digits_len(rest);
        let value = number(self.alloc, radix, &rest[..len])?;
        self.rest = &rest[len..];
        Ok(value)
    }

    /// Goes on to the next statement: behind blanks, ends of lines and comments.
    pub fn cross_lines(&mut self)
        ensures { self.new ≡ across_lines self.old }
    {
        let rest = self.rest;
        self.rest = &rest[gap_len(rest)..];
    }

    /// Goes on to the end of the line.
    pub fn skip_line(&mut self)
        ensures { self.new ≡ without_line self.old }
    {
        let rest = self.rest;
        self.rest = &rest[line_len(rest)..];
    }

    /// How many words the literals have that have no place so far.
    pub fn pool_size(&self) -> Whole
        ensures { result ≡ pos (length self.now.pool) }
    {
        Whole::from_natural(Natural::from_u64(self.pool.len() as u64))
    }

    /// Adds the words of a literal to the pool.
    pub fn push_literal(&mut self, words: &[Word]) -> Result<(), AllocError>
        ensures { OnOk result (self.new ≡ record self.old { pool = self.old.pool ++ words.now }) }
    {
        self.pool.extend_from_slice(words)
    }

    /// The words of the literals that have no place so far, which are taken out.
    pub fn take_pool(&mut self) -> Vec<Word>
        ensures words { result.items ≡ self.old.pool }
        ensures rest { self.new ≡ record self.old { pool = [] } }
    {
        let empty = Vec::new(self.alloc);
        std::mem::replace(&mut self.pool, empty)
    }
}
