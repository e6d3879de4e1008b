//! A line as it is read from left to right.

ghost use Rattle.std.specs.Prelude.{◌≡◌, ◌<◌, ◌≤◌, List, [], ◌∷◌, ◌++◌, ◌||◌};
ghost use Rattle.std.specs.Prelude.{map, Some, None, Bool, true, false, IsTrue, length, drop};
ghost use Rattle.mac_text.specs.Scan.{Gives, Scan, after_blanks, skipped, head_of, begins_with, meets, eaten, word_of, take_cut};
ghost use Rattle.mac_text.specs.Scan.{begins_expression, is_at_end, without, meets_commas, commas_eaten, comment_of};
ghost use Rattle.std.specs.List.{list_all};
ghost use Rattle.std.specs.Str.{IsAscii};
ghost use Rattle.mac_text.specs.Characters.{is_name_character};
ghost use Rattle.mac_text.specs.Texts.{take_text};

use crate::characters::{begins_with_blank, blanks_len, is_name_character, title_len, word_len};
use crate::fault::{Fault, Wanted};
use crate::texts::text_of;
use std::alloc::Global;
use std::marker::Model;

/// A text of a line.
#[derive(Clone, Copy)]
pub struct Cut<'a> {
    pub text: &'a [u8],
    /// How many bytes of the line stand before its end.
    pub until: usize,
}

/// What is left to read of a line, and the literals that were cut out of it so far.
#[derive(Drop)]
pub struct Scanner<'a> {
    alloc: Global,
    radix: u8,
    in_literal: bool,
    rest: &'a [u8],
    /// How many bytes of the line stand before the end of the rest.
    until: usize,
    cuts: Vec<Cut<'a>>,
}

impl<'a> Model for Scanner<'a> {
    ghost use Rattle.std.specs.Prelude.{map, ◌≤◌};
    ghost use Rattle.mac_text.specs.Scan.{Scan};

    ghost Value = { Scan };

    ghost view = { λ s. record {
      radix = s.radix;
      in_literal = s.in_literal;
      cuts = map (λ cut. cut.text.now) s.cuts.items;
      rest = s.rest.now;
    } };

    ghost invariant = { λ s. s.radix ≤ 10 };
}

impl<'a> Scanner<'a> {
    /// Nothing of this text is read.
    pub fn new(alloc: Global, radix: u8, in_literal: bool, whole: Cut<'a>) -> Self
        requires { radix ≤ 10 }
        ensures { result ≡ record { radix = radix; in_literal = in_literal; cuts = []; rest = whole.entry.text.now } }
    {
        Scanner {
            alloc,
            radix,
            in_literal,
            rest: whole.text,
            until: whole.until,
            cuts: Vec::new(alloc),
        }
    }

    pub fn alloc(&self) -> Global {
        self.alloc
    }

    /// The radix of numbers.
    pub fn radix(&self) -> u8
        ensures value { result ≡ self.now.radix }
        ensures most { result ≤ 10 }
    {
        self.radix
    }

    /// Whether the text is that of a literal.
    pub fn is_in_literal(&self) -> bool
        ensures { result ≡ self.now.in_literal }
    {
        self.in_literal
    }

    /// How many bytes are left.
    pub fn len(&self) -> usize
        ensures { result ≡ length self.now.rest }
    {
        self.rest.len()
    }

    /// How many bytes of the line stand before the rest.
    pub fn position(&self) -> usize {
        self.until.saturating_sub(self.rest.len())
    }

    /// How many bytes of the line stand before the rest, and its blanks.
    pub fn position_behind_blanks(&self) -> usize {
        self.position().saturating_add(blanks_len(self.rest))
    }

    /// Goes back to what was left before.
    pub fn go_back(&mut self, rest: &'a [u8])
        ensures { self.new ≡ record self.old { rest = rest.now } }
    {
        self.rest = rest;
    }

    /// Skips blanks.
    pub fn skip(&mut self)
        ensures { self.new ≡ skipped self.old }
    {
        let rest = self.rest;
        if begins_with_blank(rest) {
            self.rest = &rest[blanks_len(rest)..];
        }
    }

    /// The next byte.
    pub fn head(&self) -> Option<u8>
        ensures { result ≡ head_of self.now.rest }
    {
        self.rest.first().copied()
    }

    /// Skips blanks, and then the byte if it comes next; true if it did.
    pub fn eat(&mut self, byte: u8) -> bool
        ensures met { result ≡ meets byte self.old }
        ensures rest { self.new ≡ eaten byte self.old }
    {
        self.skip();
        let rest = self.rest;
        let met = !rest.is_empty() && rest[0] == byte;
        if met {
            self.rest = &rest[1..];
        }
        met
    }

    /// The letters, digits and the like that come next.
    #[tactic(auto, using(crate::proofs::AsciiLemmas::word_is_ascii, crate::proofs::WordLemmas::word_passes))]
    pub fn word(&self) -> &'a [u8]
        ensures value { result.now ≡ word_of self.now.rest }
        ensures characters { list_all is_name_character result.now ≡ true }
        ensures ascii { IsAscii result.now }
    {
        let rest = self.rest;
        &rest[..word_len(rest)]
    }

    /// The letters, digits and the like that come next behind blanks.
    pub fn next_word(&self) -> &'a [u8]
        ensures { result.now ≡ word_of (after_blanks self.now.rest) }
    {
        let rest = self.rest;
        let text = &rest[blanks_len(rest)..];
        &text[..word_len(text)]
    }

    /// Whether a colon stands behind the next `n` bytes.
    pub fn has_colon_behind(&self, n: usize) -> bool
        ensures colon { result ≡ begins_with 58 (drop n self.now.rest) }
        ensures more { IsTrue result → n < length self.now.rest }
    {
        let rest = self.rest;
        n < rest.len() && rest[n] == b':'
    }

    /// Skips `n` bytes.
    pub fn advance(&mut self, n: usize)
        requires { n ≤ length self.old.rest }
        ensures { self.new ≡ without n self.old }
    {
        let rest = self.rest;
        self.rest = &rest[n..];
    }

    /// What is left.
    pub fn rest(&self) -> &'a [u8]
        ensures { result.now ≡ self.now.rest }
    {
        self.rest
    }

    /// Cuts out the text of a literal, of `n` bytes, and skips it and the bracket behind it. Returns the literal's number.
    pub fn cut(&mut self, n: usize) -> Result<usize, Fault>
        requires { n < length self.old.rest }
        ensures { Gives (λ at. (at, self.new)) result (Some (take_cut n self.old)) }
    {
        let rest = self.rest;
        let at = self.cuts.len();
        let until = self.position().saturating_add(n);
        self.cuts.push(Cut {
            text: &rest[..n],
            until,
        })?;
        self.rest = &rest[n + 1..];
        Ok(at)
    }

    /// Skips blanks, and then two commas if they come next with nothing between them; true if they did.
    pub fn eat_commas(&mut self) -> bool
        ensures met { result ≡ meets_commas self.old }
        ensures rest { self.new ≡ commas_eaten self.old }
    {
        self.skip();
        let rest = self.rest;
        let met = rest.len() >= 2 && rest[0] == b',' && rest[1] == b',';
        if met {
            self.rest = &rest[2..];
        }
        met
    }

    /// Skips a text between two equal characters, and returns it.
    pub fn text(&mut self) -> Result<&'a [u8], Fault>
        ensures { Gives (λ x. (x.now, self.new)) result (take_text self.old) }
    {
        match text_of(self.rest) {
            None => Err(Fault::Syntax(self.wanted_text())),
            Some((text, behind)) => {
                self.rest = behind;
                Ok(text)
            }
        }
    }

    /// What is wanted where no text comes next.
    fn wanted_text(&self) -> Wanted {
        let rest = self.rest;
        if blanks_len(rest) == rest.len() {
            Wanted::Text
        } else {
            Wanted::TextEnd
        }
    }

    /// Skips all up to the comment, or to the end.
    pub fn skip_to_comment(&mut self)
        ensures { self.new ≡ comment_of self.old }
    {
        let rest = self.rest;
        self.rest = &rest[title_len(rest)..];
    }

    /// The literals so far.
    pub fn cuts(&self) -> &[Cut<'a>]
        ensures { map (λ cut. cut.text.now) result.now ≡ self.now.cuts }
    {
        self.cuts.as_slice()
    }

    /// Skips blanks; true if a sign comes next.
    pub fn is_at_sign(&mut self) -> bool
        ensures is { result ≡ (meets 43 self.old || meets 45 self.old) }
        ensures rest { self.new ≡ skipped self.old }
    {
        self.skip();
        match self.head() {
            None => false,
            Some(c) => c == b'+' || c == b'-',
        }
    }

    /// Skips blanks; true if an expression comes next.
    pub fn is_at_expression(&mut self) -> bool
        ensures is { result ≡ begins_expression (skipped self.old).rest }
        ensures rest { self.new ≡ skipped self.old }
    {
        self.skip();
        match self.head() {
            None => false,
            Some(c) => c == b'+' || c == b'-' || c == b'^' || c == b'[' || is_name_character(c),
        }
    }

    /// Skips blanks; true if nothing is left but a comment.
    pub fn is_at_end(&mut self) -> bool
        ensures is { result ≡ is_at_end self.old.in_literal (skipped self.old).rest }
        ensures rest { self.new ≡ skipped self.old }
    {
        self.skip();
        match self.head() {
            None => true,
            Some(c) => c == b';' && !self.in_literal,
        }
    }
}
