//! The bodies of macros with arguments in place of dummies.

ghost use Rattle.std.specs.Prelude.{◌≡◌, ◌-◌, ◌∷◌, ◌++◌, OnOk, IfOk};
ghost use Rattle.std.specs.Option.{option_map};
ghost use Rattle.macro_expansion.specs.Macros.{is_irp, closed_name, irp_name, block, block_with, block_of, block_at};
ghost use Rattle.macro_expansion.specs.Macros.{unfilled, quote_length, filled_block, filled_word, filled_open, filled_next, filled};

use crate::brackets::{behind_blanks, behind_first, bracketed, past_comma};
use crate::dummies::{Bound, word_of};
use mac_text::upper_case;
use macro_expressions::{begins_with, is_name_character};
use std::alloc::{AllocError, Global};
use std::marker::Model;

/// A body as its dummies are found.
#[derive(Drop)]
struct Filling {
    /// Its text so far.
    text: Vec<u8>,
    /// How many characters are passed over.
    skips: usize,
}

impl Model for Filling {
    ghost use Rattle.macro_expansion.specs.Macros.{Filling as Filled};

    ghost Value = { Filled };

    ghost view = { λ f. record { text = f.text.items; skips = f.skips } };
}

/// 1 if a text begins with `'`, else 0.
fn quote_length(text: &[u8]) -> usize
    ensures { result ≡ quote_length text.now }
{
    if begins_with(b'\'', text) { 1 } else { 0 }
}

/// Whether a name is IRP or IRPC.
fn is_irp(name: &[u8]) -> bool
    ensures { result ≡ is_irp name.now }
{
    match name {
        [c, d, e] => upper_case(*c) == b'I' && upper_case(*d) == b'R' && upper_case(*e) == b'P',
        [c, d, e, f] => {
            upper_case(*c) == b'I'
                && upper_case(*d) == b'R'
                && upper_case(*e) == b'P'
                && upper_case(*f) == b'C'
        }
        _ => false,
    }
}

/// A name with `)` after it, and what comes after that.
fn closed_name(text: &[u8]) -> Option<(&[u8], &[u8])>
    ensures { option_map (λ x. (x.0.now, x.1.now)) result ≡ closed_name text.now }
{
    let name = word_of(text);
    match behind_blanks(&text[name.len()..]) {
        [b')', behind @ ..] => Some((name, behind)),
        _ => None,
    }
}

/// After IRP: a name, in parentheses or not, and what comes after.
fn irp_name(text: &[u8]) -> Option<(&[u8], &[u8])>
    ensures { option_map (λ x. (x.0.now, x.1.now)) result ≡ irp_name text.now }
{
    if begins_with(b'(', text) {
        return closed_name(behind_blanks(behind_first(text)));
    }
    let name = word_of(text);
    Some((name, &text[name.len()..]))
}

/// What a body has in place of IRP, a dummy with this argument and a text.
#[derive(Drop)]
struct Block<'a> {
    irp: &'a [u8],
    argument: &'a [u8],
    name: &'a [u8],
    text: &'a [u8],
}

impl<'a> Block<'a> {
    /// All of it.
    fn text(&self, alloc: Global, bound: &Bound<'_>) -> Result<Vec<u8>, AllocError>
        ensures { IfOk result (λ all. all.items ≡ block bound.now self.now.irp.now self.now.argument.now self.now.name.now self.now.text.now) }
    {
        let mut all = Vec::from_slice(alloc, self.irp)?;
        all.push(254)?;
        all.push(b'<')?;
        all.extend_from_slice(self.argument)?;
        all.push(254)?;
        all.extend_from_slice(bound.given)?;
        all.push(254)?;
        all.extend_from_slice(self.name)?;
        all.push(b',')?;
        all.extend_from_slice(bound.head)?;
        all.extend_from_slice(self.text)?;
        all.push(b'>')?;
        Ok(all)
    }
}

/// What IRP, a dummy and a text are, which a text begins with, if it does; and what comes after.
fn block_at<'a>(bound: &Bound<'a>, text: &'a [u8]) -> Option<(Block<'a>, &'a [u8])>
    ensures { option_map (λ x. (block bound.now x.0.irp.now x.0.argument.now x.0.name.now x.0.text.now, x.1.now)) result ≡ block_at bound.now text.now }
{
    let irp = word_of(text);
    if !is_irp(irp) {
        return None;
    }
    let (name, behind) = match irp_name(behind_blanks(&text[irp.len()..])) {
        Some(found) => found,
        None => return None,
    };
    match (bound.dummy_at(name), bracketed(past_comma(behind))) {
        (Some(argument), Some((text, rest))) => Some((
            Block {
                irp,
                argument,
                name,
                text,
            },
            rest,
        )),
        _ => None,
    }
}

impl Filling {
    /// Puts a text in place of characters that are next.
    fn put(&mut self, text: &[u8], passed: usize) -> Result<(), AllocError>
        ensures { OnOk result (self.new ≡ record self.old { text = self.old.text ++ text.now; skips = passed - 1 }) }
    {
        self.text.extend_from_slice(text)?;
        self.skips = passed.saturating_sub(1);
        Ok(())
    }

    /// Puts a name or number, which a text begins with, or IRP with its text.
    fn put_plain(&mut self, alloc: Global, bound: &Bound<'_>, text: &[u8]) -> Result<(), AllocError>
        ensures { OnOk result (self.new ≡ filled_block (block_at bound.now text.now) text.now self.old) }
    {
        let Some((block, rest)) = block_at(bound, text) else {
            let word = word_of(text);
            return self.put(word, word.len());
        };
        let all = block.text(alloc, bound)?;
        self.put(all.as_slice(), text.len().saturating_sub(rest.len()))
    }

    /// Puts a name or number, which a text begins with, or the argument in its place.
    fn put_word(
        &mut self,
        alloc: Global,
        bound: &Bound<'_>,
        argument: Option<&[u8]>,
        text: &[u8],
    ) -> Result<(), AllocError>
        ensures { OnOk result (self.new ≡ filled_word bound.now (option_map (λ x. x.now) argument.entry) text.now self.old) }
    {
        match argument {
            Some(argument) => {
                let word = word_of(text);
                self.text.extend_from_slice(argument)?;
                self.skips = word.len().saturating_sub(1) + quote_length(&text[word.len()..]);
                Ok(())
            }
            None => self.put_plain(alloc, bound, text),
        }
    }

    /// Puts what is next: `here` begins with it.
    fn put_open(
        &mut self,
        alloc: Global,
        bound: &Bound<'_>,
        c: u8,
        here: &[u8],
        behind: &[u8],
    ) -> Result<(), AllocError>
        requires { here.now ≡ c ∷ behind.now }
        ensures { OnOk result (self.new ≡ filled_open bound.now c behind.now self.old) }
    {
        if is_name_character(c) {
            return self.put_word(alloc, bound, bound.dummy_at(here), here);
        }
        if c == b'\'' && bound.dummy_at(behind).is_some() {
            return Ok(());
        }
        self.text.push(c)?;
        Ok(())
    }

    /// Puts what is next, or passes over it: `here` begins with it.
    fn take(
        &mut self,
        alloc: Global,
        bound: &Bound<'_>,
        c: u8,
        here: &[u8],
        behind: &[u8],
    ) -> Result<(), AllocError>
        requires { here.now ≡ c ∷ behind.now }
        ensures { OnOk result (self.new ≡ filled_next bound.now c behind.now self.old) }
    {
        if self.skips != 0 {
            self.skips -= 1;
            return Ok(());
        }
        self.put_open(alloc, bound, c, here, behind)
    }
}

/// A body with arguments for its dummies.
#[tactic(auto, unfolding(crate::specs::Macros::filled))]
pub fn filled(alloc: Global, bound: &Bound<'_>, body: &[u8]) -> Result<Vec<u8>, AllocError>
    ensures { IfOk result (λ text. text.items ≡ filled bound.now unfilled body.now) }
{
    let mut filling = Filling {
        text: Vec::new(alloc),
        skips: 0,
    };
    for (i, c) in body.iter().enumerate() {
        filling.take(alloc, bound, *c, &body[i..], &body[i + 1..])?;
    }
    Ok(filling.text)
}
