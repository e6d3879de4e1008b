//! The rounds of IRP and IRPC.

ghost use Rattle.std.specs.Prelude.{◌≡◌, ◌<◌, ◌^◌, ◌∷◌, OnOk, IfOk};
ghost use Rattle.std.specs.Option.{option_map};
ghost use Rattle.macro_expressions.specs.Reading.{Gives};
ghost use Rattle.macro_expansion.specs.Rounds.{round_text, with_round, unparted, unwrapped, ending, counting, adding, spacing, parting, spelling};
ghost use Rattle.macro_expansion.specs.Rounds.{parted_next, parted, parted_all, rounds_in, block_next, rounds_at};

use crate::bodies::filled;
use crate::brackets::{bracketed, lined};
use crate::comparisons::is_space;
use crate::dummies::{Bound, Dummies, less_rest, read_dummies};
use crate::texts::up_to_next;
use macro_expressions::{BEYOND, Fault};
use std::alloc::{AllocError, Global};
use std::marker::Model;

/// How many characters of rounds are judged.
const MOST_CHARACTERS: usize = 1_000_000;

/// A text whose first dummy is another thing in each round.
#[derive(Drop)]
struct Round<'a> {
    alloc: Global,
    bound: Bound<'a>,
    body: &'a [u8],
}

impl<'a> Model for Round<'a> {
    ghost use Rattle.macro_expansion.specs.Rounds.{Round as Written};

    ghost Value = { Written };

    ghost view = { λ r. record { bound = r.bound; body = r.body.now } };
}

impl<'a> Round<'a> {
    /// The text of a round.
    fn text(&self, element: &[u8]) -> Result<Vec<u8>, AllocError>
        ensures { IfOk result (λ text. 253 ∷ 10 ∷ text.items ≡ round_text self.now element.now) }
    {
        let mut given = Vec::from_slice(self.alloc, element)?;
        given.push(255)?;
        given.extend_from_slice(self.bound.given)?;
        let bound = Bound {
            head: self.bound.head,
            names: self.bound.names,
            given: given.as_slice(),
        };
        let text = filled(self.alloc, &bound, self.body)?;
        lined(self.alloc, text.as_slice())
    }

    /// Adds a round, unless there are too many characters of them.
    fn put(&self, element: &[u8], all: &mut Vec<u8>) -> Result<(), AllocError>
        ensures { OnOk result (all.new.items ≡ with_round self.now element.now all.old.items) }
    {
        if all.len() > MOST_CHARACTERS {
            return Ok(());
        }
        let text = self.text(element)?;
        all.push(253)?;
        all.push(b'\n')?;
        all.extend_from_slice(text.as_slice())
    }
}

/// A text without a pair of brackets around all of it.
fn unwrapped(text: &[u8]) -> &[u8]
    ensures { result.now ≡ unwrapped text.now }
{
    match bracketed(text) {
        Some((inner, rest)) => { if rest.is_empty() { inner } else { text } }
        None => text,
    }
}

/// A list as it is parted.
#[derive(Drop)]
struct Parting {
    /// How many `<` are open.
    angles: usize,
    /// How many `(` and `[` are open.
    others: usize,
    /// The characters of its element so far.
    text: Vec<u8>,
    /// How many of them are before the blanks and ends of lines at its end.
    kept: usize,
    /// Whether something is not judged.
    is_odd: bool,
    /// The rounds so far.
    all: Vec<u8>,
}

impl Model for Parting {
    ghost use Rattle.std.specs.Prelude.{length, ◌≤◌};
    ghost use Rattle.macro_expansion.specs.Rounds.{Parting as Read};

    ghost Value = { Read };

    ghost view = { λ p. record { angles = p.angles; others = p.others; text = p.text.items; kept = p.kept; is_odd = p.is_odd; all = p.all.items } };

    ghost invariant = { λ p. p.kept ≤ length p.text.items };
}

impl Parting {
    /// Before the first character.
    fn new(alloc: Global) -> Parting
        ensures { result ≡ unparted }
    {
        Parting {
            angles: 0,
            others: 0,
            text: Vec::new(alloc),
            kept: 0,
            is_odd: false,
            all: Vec::new(alloc),
        }
    }

    /// Ends an element, which has a round.
    fn end(&mut self, round: &Round<'_>) -> Result<(), AllocError>
        ensures { OnOk result (self.new ≡ ending round.now self.old) }
    {
        round.put(unwrapped(&self.text[..self.kept]), &mut self.all)?;
        self.kept = 0;
        self.text.clear();
        Ok(())
    }

    /// Takes note of a character that is a bracket or CR.
    fn count(&mut self, c: u8)
        requires angles { self.old.angles < 2 ^ 63 }
        requires others { self.old.others < 2 ^ 63 }
        ensures { self.new ≡ counting c self.old }
    {
        match c {
            b'<' => self.angles += 1,
            b'>' => {
                self.is_odd = self.is_odd || self.angles == 0;
                self.angles = self.angles.saturating_sub(1);
            }
            b'(' | b'[' => self.others += 1,
            b')' | b']' => {
                self.is_odd = self.is_odd || self.others == 0;
                self.others = self.others.saturating_sub(1);
            }
            _ => self.is_odd = self.is_odd || c == b'\r',
        }
    }

    /// Takes the next character of a list that commas part.
    fn part(&mut self, round: &Round<'_>, c: u8) -> Result<(), AllocError>
        requires angles { self.old.angles < 2 ^ 63 }
        requires others { self.old.others < 2 ^ 63 }
        ensures { OnOk result (self.new ≡ parting round.now c self.old) }
    {
        if c == b',' && self.angles == 0 && self.others == 0 {
            return self.end(round);
        }
        if is_space(c) {
            if !self.text.is_empty() {
                self.text.push(c)?;
            }
            return Ok(());
        }
        self.text.push(c)?;
        self.kept = self.text.len();
        self.count(c);
        Ok(())
    }

    /// Takes the next character, which is an element.
    fn spell(&mut self, round: &Round<'_>, c: u8) -> Result<(), AllocError>
        ensures { OnOk result (self.new ≡ spelling round.now c self.old) }
    {
        self.is_odd = self.is_odd || c == b'\r' || c == b'<' || c == b'>';
        round.put([c].as_slice(), &mut self.all)
    }

    /// Takes the next character.
    fn take(&mut self, by_character: bool, round: &Round<'_>, c: u8) -> Result<(), AllocError>
        requires angles { self.old.angles < 2 ^ 63 }
        requires others { self.old.others < 2 ^ 63 }
        ensures { OnOk result (self.new ≡ parted_next by_character round.now c self.old) }
    {
        if by_character {
            self.spell(round, c)
        } else {
            self.part(round, c)
        }
    }
}

/// A list, parted but for the end of its last element.
#[tactic(auto, unfolding(crate::specs::Rounds::parted))]
fn parted(by_character: bool, round: &Round<'_>, list: &[u8]) -> Result<Parting, AllocError>
    ensures { IfOk result (λ p. p ≡ parted by_character round.now unparted list.now) }
{
    let mut parting = Parting::new(round.alloc);
    for c in list {
        parting.take(by_character, round, *c)?;
    }
    Ok(parting)
}

/// The rounds of a list, as far as they are judged.
fn rounds_of(by_character: bool, round: &Round<'_>, list: &[u8]) -> Result<Vec<u8>, Fault>
    ensures { Gives (λ all. all.items) result (rounds_in (parted_all by_character round.now list.now)) }
{
    let mut parting = parted(by_character, round, list)?;
    if !by_character && !list.is_empty() {
        parting.end(round)?;
    }
    if parting.is_odd {
        return Err(BEYOND);
    }
    Ok(parting.all)
}

/// The text in brackets after IRP or IRPC in a body with arguments, and what comes after.
fn block_next(text: &[u8]) -> Option<(&[u8], &[u8])>
    ensures { option_map (λ x. (x.0.now, x.1.now)) result ≡ block_next text.now }
{
    match text {
        [254, behind @ ..] => bracketed(behind),
        _ => None,
    }
}

/// A round for each element, or each character, of the list of IRP or IRPC, whose name is read in a body with arguments; and what
/// comes after.
#[tactic(auto, unfolding(crate::specs::Rounds::rounds_at))]
pub fn elements(alloc: Global, by_character: bool, text: &[u8]) -> Result<(Vec<u8>, &[u8]), Fault>
    ensures { Gives (λ x. (x.0.items, x.1.now)) result (rounds_at by_character text.now) }
{
    let Some((block, rest)) = block_next(text) else {
        return Err(BEYOND);
    };
    let Some((list, behind)) = up_to_next(254, block) else {
        return Err(BEYOND);
    };
    let Some((given, definition)) = up_to_next(254, behind) else {
        return Err(BEYOND);
    };
    let mut found = Dummies::new(alloc);
    let body = read_dummies(100, &mut found, definition)?;
    let bound = Bound {
        head: less_rest(definition, body),
        names: found.names.as_slice(),
        given,
    };
    let round = Round { alloc, bound, body };
    Ok((rounds_of(by_character, &round, list)?, rest))
}
