//! The arguments of calls.

ghost use Rattle.std.specs.Prelude.{◌≡◌, ◌<◌, ◌≤◌, ◌^◌, OnOk};
ghost use Rattle.std.specs.Option.{option_map};
ghost use Rattle.macro_expressions.specs.Reading.{Gives};
ghost use Rattle.macro_expansion.specs.Macros.{no_argument, ends_argument, with_character, with_open, with_close, with_outer, with_next};
ghost use Rattle.macro_expansion.specs.Macros.{argument_done, argument_from, argument_at, arguments_at, list_at, given_at};
ghost use Rattle.macro_expansion.specs.Macros.{digit_of, with_text, with_made, with_default, with_one, with_argument, completed};

use crate::brackets::{behind_blanks, behind_first};
use crate::texts::up_to_next;
use macro_expressions::{BEYOND, Fault, begins_with, ends_line};
use std::alloc::{AllocError, Global};
use std::marker::Model;

/// How many names are made; one less is judged.
const MOST_MADE: u32 = 10_000;

/// An argument as it is read.
#[derive(Drop)]
struct Argument {
    /// How many `<` are open.
    angles: usize,
    /// How many `(` and `[` are open.
    others: usize,
    /// Its characters.
    text: Vec<u8>,
    /// How many of them are before the blanks at its end.
    kept: usize,
    /// Whether anything but blanks is there, such as `<>`.
    is_there: bool,
}

impl Model for Argument {
    ghost use Rattle.std.specs.Prelude.{length, ◌≤◌};
    ghost use Rattle.macro_expansion.specs.Macros.{Argument as Read};

    ghost Value = { Read };

    ghost view = { λ a. record { angles = a.angles; others = a.others; text = a.text.items; kept = a.kept; is_there = a.is_there } };

    ghost invariant = { λ a. a.kept ≤ length a.text.items };
}

impl Argument {
    /// Before its first character.
    fn new(alloc: Global) -> Argument
        ensures { result ≡ no_argument }
    {
        Argument {
            angles: 0,
            others: 0,
            text: Vec::new(alloc),
            kept: 0,
            is_there: false,
        }
    }

    /// Whether a character does not belong to it.
    fn ends(&self, in_parentheses: bool, c: u8) -> bool
        ensures { result ≡ ends_argument in_parentheses self.now c }
    {
        if c >= 128 {
            return true;
        }
        if self.angles != 0 {
            return false;
        }
        match c {
            b'\n' | b'\r' | b'>' => true,
            b';' => !in_parentheses,
            b',' | b']' | b')' => self.others == 0,
            _ => false,
        }
    }

    /// Adds a character that is no blank at its end.
    fn push(&mut self, c: u8) -> Result<(), AllocError>
        ensures { OnOk result (self.new ≡ with_character c self.old) }
    {
        self.text.push(c)?;
        self.kept = self.text.len();
        self.is_there = true;
        Ok(())
    }

    /// Adds `<`, unless it is an outermost one.
    fn add_open(&mut self) -> Result<(), AllocError>
        requires { self.old.angles < 2 ^ 63 }
        ensures { OnOk result (self.new ≡ with_open self.old) }
    {
        if self.angles == 0 && self.others == 0 {
            self.angles = 1;
            return Ok(());
        }
        self.push(b'<')?;
        self.angles += 1;
        Ok(())
    }

    /// Adds `>`, unless it is an outermost one.
    fn add_close(&mut self) -> Result<(), AllocError>
        ensures { OnOk result (self.new ≡ with_close self.old) }
    {
        if self.angles == 1 && self.others == 0 {
            self.angles = 0;
            self.kept = self.text.len();
            self.is_there = true;
            return Ok(());
        }
        self.push(b'>')?;
        self.angles = self.angles.saturating_sub(1);
        Ok(())
    }

    /// Adds a character outside of `< >`.
    fn push_outer(&mut self, c: u8) -> Result<(), AllocError>
        requires { self.old.others < 2 ^ 63 }
        ensures { OnOk result (self.new ≡ with_outer c self.old) }
    {
        if c == b' ' || c == b'\t' || c == 0o14 {
            self.text.push(c)?;
            return Ok(());
        }
        self.push(c)?;
        if c == b'(' || c == b'[' {
            self.others += 1;
        } else if c == b')' || c == b']' {
            self.others = self.others.saturating_sub(1);
        }
        Ok(())
    }

    /// Adds the next character.
    fn take(&mut self, c: u8) -> Result<(), AllocError>
        requires angles { self.old.angles < 2 ^ 63 }
        requires others { self.old.others < 2 ^ 63 }
        ensures { OnOk result (self.new ≡ with_next c self.old) }
    {
        if c == b'<' {
            self.add_open()
        } else if c == b'>' {
            self.add_close()
        } else if self.angles == 0 {
            self.push_outer(c)
        } else {
            self.push(c)
        }
    }

    /// Its text, if it is there, and the rest, when it is read.
    fn done(self, rest: &[u8]) -> Result<(Option<Vec<u8>>, &[u8]), Fault>
        ensures { Gives (λ x. (option_map (λ t. t.items) x.0, x.1.now)) result (argument_done self rest.now) }
    {
        if self.angles != 0 {
            return Err(BEYOND);
        }
        if !self.is_there {
            return Ok((None, rest));
        }
        let mut text = self.text;
        text.truncate(self.kept);
        Ok((Some(text), rest))
    }
}

/// Reads an argument from its first character on; gives what comes after.
#[tactic(auto, unfolding(crate::specs::Macros::argument_from))]
fn argument_from(
    alloc: Global,
    in_parentheses: bool,
    text: &[u8],
) -> Result<(Option<Vec<u8>>, &[u8]), Fault>
    ensures { Gives (λ x. (option_map (λ t. t.items) x.0, x.1.now)) result (argument_from in_parentheses no_argument text.now) }
{
    let mut argument = Argument::new(alloc);
    for (i, c) in text.iter().enumerate() {
        if argument.ends(in_parentheses, *c) {
            return argument.done(&text[i..]);
        }
        argument.take(*c)?;
    }
    argument.done(&text[text.len()..])
}

/// Reads an argument, which is next; gives what comes after.
fn next_argument(
    alloc: Global,
    in_parentheses: bool,
    text: &[u8],
) -> Result<(Option<Vec<u8>>, &[u8]), Fault>
    ensures { Gives (λ x. (option_map (λ t. t.items) x.0, x.1.now)) result (argument_at in_parentheses text.now) }
{
    if begins_with(b'\\', text) {
        return Err(BEYOND);
    }
    argument_from(alloc, in_parentheses, text)
}

/// The digit of a number's ones, tens, hundreds or thousands.
fn digit_of(unit: u32, number: u32) -> u8
    requires { 0 < unit }
    ensures { result ≡ digit_of unit number }
{
    (number / unit % 10) as u8 + b'0'
}

/// The arguments of a call.
#[derive(Drop)]
pub struct Given<'a> {
    /// Those so far, each with a 255 after it.
    pub text: Vec<u8>,
    /// The defaults of the dummies that have none so far.
    pub defaults: &'a [u8],
    /// How many names were made.
    pub made: u32,
}

impl<'a> Model for Given<'a> {
    ghost use Rattle.macro_expansion.specs.Macros.{Given as Read};

    ghost Value = { Read };

    ghost view = { λ g. record { text = g.text.items; defaults = g.defaults.now; made = g.made } };
}

impl<'a> Given<'a> {
    /// Adds an argument.
    fn push(&mut self, text: &[u8]) -> Result<(), AllocError>
        ensures { OnOk result (self.new ≡ with_text text.now self.old) }
    {
        self.text.extend_from_slice(text)?;
        self.text.push(255)?;
        Ok(())
    }

    /// Adds a name that is made.
    fn make(&mut self) -> Result<(), AllocError>
        ensures { OnOk result (self.new ≡ with_made self.old) }
    {
        if self.made < MOST_MADE {
            self.made += 1;
        }
        let number = self.made;
        let name = [
            b'.',
            b'.',
            digit_of(1000, number),
            digit_of(100, number),
            digit_of(10, number),
            digit_of(1, number),
        ];
        self.push(name.as_slice())
    }

    /// Adds the next argument or, if a dummy has none, what it is then.
    fn push_one(&mut self, one: Option<&[u8]>, default: &[u8]) -> Result<(), AllocError>
        ensures { OnOk result (self.new ≡ with_one (option_map (λ t. t.now) one.entry) default.now self.old) }
    {
        match one {
            Some(text) => self.push(text),
            None => {
                if begins_with(254, default) {
                    self.make()
                } else {
                    self.push(default)
                }
            }
        }
    }

    /// Gives the next dummy this argument, or none. Arguments without a dummy are dropped.
    fn take(&mut self, one: Option<&[u8]>) -> Result<(), AllocError>
        ensures { OnOk result (self.new ≡ with_argument (option_map (λ t. t.now) one.entry) self.old) }
    {
        let Some((default, behind)) = up_to_next(255, self.defaults) else {
            return Ok(());
        };
        self.defaults = behind;
        self.push_one(one, default)
    }
}

/// All other dummies have no argument, of which there are at most `most`.
#[tactic(auto, unfolding(crate::specs::Macros::completed))]
fn complete(most: u32, given: &mut Given<'_>) -> Result<(), AllocError>
    ensures { OnOk result (given.new ≡ completed most given.old) }
{
    if most == 0 || given.defaults.is_empty() {
        return Ok(());
    }
    given.take(None)?;
    complete(most - 1, given)
}

/// Reads arguments with commas between them, at most `most`, after those that are read; gives what comes after.
#[tactic(auto, unfolding(crate::specs::Macros::arguments_at))]
fn arguments<'a>(
    alloc: Global,
    in_parentheses: bool,
    most: u32,
    given: &mut Given<'_>,
    text: &'a [u8],
) -> Result<&'a [u8], Fault>
    ensures { Gives (λ rest. (given.new, rest.now)) result (arguments_at in_parentheses most given.old text.now) }
{
    if most == 0 {
        return Err(BEYOND);
    }
    let (one, rest) = next_argument(alloc, in_parentheses, behind_blanks(text))?;
    given.take(one.as_deref())?;
    if !begins_with(b',', rest) {
        return Ok(rest);
    }
    arguments(alloc, in_parentheses, most - 1, given, behind_first(rest))
}

/// Reads arguments in parentheses, or up to the end of the line; gives what comes after.
fn list<'a>(alloc: Global, given: &mut Given<'_>, text: &'a [u8]) -> Result<&'a [u8], Fault>
    ensures { Gives (λ rest. (given.new, rest.now)) result (list_at given.old text.now) }
{
    if let [b'(', inner @ ..] = text {
        let rest = arguments(alloc, true, 100, given, inner)?;
        return match rest {
            [b')', behind @ ..] => Ok(behind),
            _ => Err(BEYOND),
        };
    }
    let rest = arguments(alloc, false, 100, given, text)?;
    if ends_line(rest) {
        Ok(rest)
    } else {
        Err(BEYOND)
    }
}

/// Reads the arguments of a call, if the macro has dummies; gives what comes after.
pub fn read_given<'a>(
    alloc: Global,
    given: &mut Given<'_>,
    text: &'a [u8],
) -> Result<&'a [u8], Fault>
    ensures { Gives (λ rest. (given.new, rest.now)) result (given_at given.old text.now) }
{
    if given.defaults.is_empty() {
        return Ok(text);
    }
    let rest = list(alloc, given, behind_blanks(text))?;
    complete(100, given)?;
    Ok(rest)
}
