//! The dummies of macros, and their arguments.

ghost use Rattle.std.specs.Prelude.{◌≡◌, ◌==◌, ◌≤◌, position, length, OnOk};
ghost use Rattle.std.specs.Option.{option_map};
ghost use Rattle.mac_text.specs.Scan.{word_of};
ghost use Rattle.macro_expressions.specs.Reading.{Gives};
ghost use Rattle.macro_expansion.specs.Macros.{no_dummies, default_next, with_dummy, dummy_next, end_or_dummy, dummies_at, less_rest};
ghost use Rattle.macro_expansion.specs.Macros.{argument_in, argument_of, dummy_at};

use crate::brackets::{behind_blanks, behind_first, bracketed, past_comma};
use crate::texts::up_to_next;
use mac_text::Symbol;
use macro_expressions::{BEYOND, Fault, begins_name, begins_with, word_len};
use std::alloc::{AllocError, Global};
use std::marker::Model;

/// The dummies of a macro.
#[derive(Drop)]
pub struct Dummies {
    /// Their symbols.
    pub names: Vec<u64>,
    /// Their defaults, each with a 255 after it: 254 for a new name.
    pub defaults: Vec<u8>,
}

impl Model for Dummies {
    ghost use Rattle.macro_expansion.specs.Macros.{Dummies as Written};

    ghost Value = { Written };

    ghost view = { λ d. record { names = d.names.items; defaults = d.defaults.items } };
}

impl Dummies {
    /// Before the first.
    pub fn new(alloc: Global) -> Dummies
        ensures { result ≡ no_dummies }
    {
        Dummies {
            names: Vec::new(alloc),
            defaults: Vec::new(alloc),
        }
    }

    /// Adds a dummy with its default.
    fn push(&mut self, name: &[u8], default: &[u8]) -> Result<(), AllocError>
        ensures { OnOk result (self.new ≡ with_dummy name.now default.now self.old) }
    {
        self.names.push(Symbol::of(name).sixbit())?;
        if begins_with(b'%', name) {
            self.defaults.push(254)?;
        } else {
            self.defaults.extend_from_slice(default)?;
        }
        self.defaults.push(255)?;
        Ok(())
    }
}

/// The letters, digits and the like that a text begins with.
pub fn word_of(text: &[u8]) -> &[u8]
    ensures value { result.now ≡ word_of text.now }
    ensures within { length result.now ≤ length text.now }
{
    &text[..word_len(text)]
}

/// A text less the rest that comes at its end.
pub fn less_rest<'a>(text: &'a [u8], rest: &[u8]) -> &'a [u8]
    ensures { result.now ≡ less_rest text.now rest.now }
{
    &text[..text.len().saturating_sub(rest.len())]
}

/// Reads the default of a dummy in brackets, if it is next; gives what comes after.
fn next_default(text: &[u8]) -> Result<(&[u8], &[u8]), Fault>
    ensures { Gives (λ x. (x.0.now, x.1.now)) result (default_next text.now) }
{
    if !begins_with(b'<', text) {
        return Ok((&text[..0], text));
    }
    match bracketed(text) {
        Some(found) => Ok(found),
        None => Err(BEYOND),
    }
}

/// Reads a dummy, which is next, and its default, if it has one; gives what comes after.
fn next_dummy<'a>(dummies: &mut Dummies, text: &'a [u8]) -> Result<&'a [u8], Fault>
    ensures { Gives (λ rest. (dummies.new, rest.now)) result (dummy_next dummies.old text.now) }
{
    if !begins_name(text) {
        return Err(BEYOND);
    }
    let word = word_of(text);
    let (default, rest) = next_default(behind_blanks(&text[word.len()..]))?;
    dummies.push(word, default)?;
    Ok(rest)
}

/// Reads `)`, or one more dummy; gives whether that is the end, and what comes after.
fn end_or_dummy<'a>(dummies: &mut Dummies, text: &'a [u8]) -> Result<(bool, &'a [u8]), Fault>
    ensures { Gives (λ x. (x.0, (dummies.new, x.1.now))) result (end_or_dummy dummies.old text.now) }
{
    if begins_with(b')', text) {
        return Ok((true, behind_first(text)));
    }
    let rest = next_dummy(dummies, text)?;
    Ok((false, rest))
}

/// Reads dummies up to `)`, at most `most`, after those that are read; gives what comes after.
#[tactic(auto, unfolding(crate::specs::Macros::dummies_at))]
pub fn read_dummies<'a>(most: u32, found: &mut Dummies, text: &'a [u8]) -> Result<&'a [u8], Fault>
    ensures { Gives (λ rest. (found.new, rest.now)) result (dummies_at most found.old text.now) }
{
    if most == 0 {
        return Err(BEYOND);
    }
    let (is_end, rest) = end_or_dummy(found, past_comma(text))?;
    if is_end {
        return Ok(rest);
    }
    read_dummies(most - 1, found, rest)
}

/// Dummies with their arguments.
#[derive(Drop)]
pub struct Bound<'a> {
    /// The dummies as they are written, with `)`.
    pub head: &'a [u8],
    /// Their symbols.
    pub names: &'a [u64],
    /// Their arguments, each with a 255 after it.
    pub given: &'a [u8],
}

impl<'a> Model for Bound<'a> {
    ghost use Rattle.macro_expansion.specs.Macros.{Bound as Written};

    ghost Value = { Written };

    ghost view = { λ b. record { head = b.head.now; names = b.names.now; given = b.given.now } };
}

/// An argument by its number; one that is not there is nothing.
#[tactic(auto, unfolding(crate::specs::Macros::argument_in))]
fn argument(number: usize, given: &[u8]) -> &[u8]
    ensures { result.now ≡ argument_in number given.now }
{
    match up_to_next(255, given) {
        None => &given[..0],
        Some((first, more)) => {
            if number == 0 {
                first
            } else {
                argument(number - 1, more)
            }
        }
    }
}

impl<'a> Bound<'a> {
    /// The number of a dummy.
    fn number_of(&self, name: u64) -> Option<usize>
        ensures { result ≡ position (λ dummy. dummy == name) self.now.names }
    {
        self.names.iter().position(|dummy| *dummy == name)
    }

    /// The argument of a dummy.
    fn argument_of(&self, name: u64) -> Option<&'a [u8]>
        ensures { option_map (λ x. x.now) result ≡ argument_of self.now name }
    {
        match self.number_of(name) {
            Some(number) => Some(argument(number, self.given)),
            None => None,
        }
    }

    /// The argument of the dummy that a text begins with.
    pub fn dummy_at(&self, text: &[u8]) -> Option<&'a [u8]>
        ensures { option_map (λ x. x.now) result ≡ dummy_at self.now text.now }
    {
        if begins_name(text) {
            self.argument_of(Symbol::of(word_of(text)).sixbit())
        } else {
            None
        }
    }
}
