//! Characters, names and digits of the stream. Where the statement is not carried out, nothing more is next.

ghost use Rattle.std.specs.Prelude.{◌≡◌, None, IsSome};

use crate::state::Assembly;
use macro_faults::Fault;
use macro_names::{Name, NameReader, is_blank, is_digit, is_name_character, sixbit_of};
use macro_stream::{Arguments, Place, Range, Stop};

impl Assembly {
    /// The next character. None at the end of the source.
    pub fn peek(&mut self) -> Option<u8>
        ensures silent { IsSome self.old.failure → (result ≡ None) × (self.new ≡ self.old) }
    {
        if self.is_failed() {
            return None;
        }
        match self.stream.ready() {
            Some(character) => Some(character),
            None => self.passed(),
        }
    }

    /// The next character, which does not stand in the highest text.
    #[inline(never)]
    fn passed(&mut self) -> Option<u8> {
        match self.stream.peek() {
            Ok(character) => character,
            Err(stop) => {
                self.stop(stop);
                None
            }
        }
    }

    /// Lists a character, where it is one of a text that was put in front.
    fn list_character(&mut self, character: u8) {
        let depth = self.stream.named();
        if self.pass == 2 && depth > 0 {
            let line = self.stream.source_line();
            let done = self.listing.character(line, depth, character).is_ok();
            self.kept(done);
        }
    }

    /// Goes on behind the character that was looked at.
    pub fn advance(&mut self, character: u8)
        ensures silent { IsSome self.old.failure → self.new ≡ self.old }
    {
        if self.is_failed() {
            return;
        }
        if self.stream.named() > 0 {
            self.list_character(character);
        }
        match self.stream.advance(character) {
            Ok(()) => (),
            Err(stop) => self.stop(stop),
        }
    }

    /// Goes on behind blanks; gives the character that is next then.
    pub fn blanks(&mut self) -> Option<u8> {
        for _ in 0..u64::MAX {
            match self.peek() {
                Some(character) if is_blank(character) => self.advance(character),
                next => return next,
            }
        }
        None
    }

    /// The place of what is next.
    pub fn place(&self) -> Place {
        self.stream.place()
    }

    /// The character behind the next one, as far as no further round has to be begun for it.
    pub fn second(&self) -> Option<u8> {
        self.stream.second()
    }

    /// Whether this character is next behind blanks; if so, goes on behind it.
    pub fn eat(&mut self, wanted: u8) -> bool {
        let is_next = self.blanks() == Some(wanted);
        if is_next {
            self.advance(wanted);
        }
        is_next
    }

    /// Goes on behind this character, if it is next right here.
    pub fn skip(&mut self, wanted: u8) {
        if self.peek() == Some(wanted) {
            self.advance(wanted);
        }
    }

    /// Whether a name is next.
    pub fn is_name_next(&mut self) -> bool {
        match self.peek() {
            Some(b'.') => match self.stream.second() {
                Some(next) => is_name_character(next),
                None => false,
            },
            Some(next) => is_name_character(next) && !is_digit(next),
            None => false,
        }
    }

    /// The name that is next.
    pub fn name(&mut self) -> Name {
        let mut name = NameReader::new();
        for _ in 0..u64::MAX {
            match self.peek() {
                Some(character) if is_name_character(character) => {
                    name.push(character);
                    self.advance(character);
                }
                Some(_) | None => break,
            }
        }
        name.name()
    }

    /// The name that a pseudo-operation needs.
    pub fn needed_name(&mut self, what: Name) -> Name {
        self.blanks();
        if !self.is_name_next() {
            self.fail_statement(Fault::Needs(what));
        }
        self.name()
    }

    /// Reads the digits that are next, as characters.
    pub fn read_digits(&mut self) {
        self.digits.clear();
        for _ in 0..u64::MAX {
            match self.peek() {
                Some(digit) if is_digit(digit) => {
                    let done = self.digits.push(digit).is_ok();
                    self.kept(done);
                    self.advance(digit);
                }
                Some(_) | None => break,
            }
        }
    }

    /// Goes on to the end of the line, or to a comment before it.
    pub fn skip_to(&mut self, comment: bool) {
        for _ in 0..u64::MAX {
            match self.peek() {
                Some(character) if character != b'\n' && !(comment && character == b';') =>
                    self.advance(character),
                Some(_) | None => break,
            }
        }
    }

    /// Goes on to the end of the line behind a fault. A text in brackets that is still to come is passed over whole.
    pub fn skip_line(&mut self) {
        for _ in 0..u64::MAX {
            if self.is_failed() {
                break;
            }
            match self.stream.peek() {
                Err(Stop::NotAscii) => self.stream.skip_byte(),
                Err(stop) => self.stop(stop),
                Ok(None | Some(b'\n')) => break,
                Ok(Some(character)) => {
                    if character == b'<' && self.text_due {
                        let _text = self.stream.bracketed();
                    } else {
                        self.advance(character);
                    }
                }
            }
        }
    }

    /// The fault of what is next where a value is expected.
    pub fn unexpected(&mut self) {
        match self.peek() {
            None | Some(b'\n') => self.fail_here(Fault::ExpectedAtEnd),
            Some(found) => self.fail_here(Fault::Expected(found)),
        }
    }

    /// Goes on behind this character, which has to be next behind blanks.
    pub fn expect(&mut self, wanted: u8) {
        if !self.eat(wanted) {
            match self.peek() {
                None | Some(b'\n') => self.fail_here(Fault::ExpectedAtEnd),
                Some(found) => self.fail_here(Fault::ExpectedEnd(found)),
            }
        }
    }

    /// A text in brackets, and the arguments of the text that it stands in.
    pub fn bracket(&mut self, what: Name, of: Name) -> Option<(Range, Arguments)> {
        if self.blanks() != Some(b'<') {
            self.fail_statement(Fault::Needs(what));
            return None;
        }
        let place = self.stream.place();
        self.list_character(b'<');
        let arguments = self.stream.top().arguments;
        match self.stream.bracketed() {
            Some(range) => Some((range, arguments)),
            None => {
                self.fail(place, Fault::OpenText(what, of));
                None
            }
        }
    }

    /// A text in brackets, with its arguments put in.
    pub fn expanded(&mut self, what: Name, of: Name) -> Option<Range> {
        let (range, arguments) = match self.bracket(what, of) {
            Some(text) => text,
            None => return None,
        };
        let stored = self.stream.store_expanded(range, arguments);
        self.taken(stored)
    }

    /// Adds a character to a text.
    pub fn add_to(&mut self, text: &mut Vec<u8>, character: u8) {
        let done = text.push(character).is_ok();
        self.kept(done);
    }

    /// The characters up to the second of the mark that is next behind blanks, with CR and LF where a line ends. Where they are for
    /// SIXBIT, those that it does not have are told.
    pub fn marked_text(&mut self, name: Name, is_sixbit: bool) -> Vec<u8> {
        let mut text = Vec::new(self.alloc);
        let mark = match self.blanks() {
            None | Some(b'\n') => {
                self.fail_statement(Fault::Needs(name));
                return text;
            }
            Some(mark) => mark,
        };
        let place = self.place();
        self.advance(mark);
        for _ in 0..u64::MAX {
            match self.peek() {
                None => break,
                Some(character) => {
                    if is_sixbit && character != mark && sixbit_of(character).is_none() {
                        self.tell(self.place(), Fault::NoSixbit(character));
                    }
                    self.advance(character);
                    if character == mark {
                        return text;
                    }
                    if character == b'\n' {
                        self.add_to(&mut text, b'\r');
                    }
                    self.add_to(&mut text, character);
                }
            }
        }
        self.fail(place, Fault::NoText(mark, name));
        text
    }

    /// What IFIDN and IFB compare: a text in brackets, with its arguments put in, or one between two equal characters.
    pub fn compared(&mut self, name: Name) -> Vec<u8> {
        match self.blanks() {
            Some(b'<') => {
                let range = self.expanded(name, Name::of(b"")).unwrap_or(Range::empty());
                self.text(range)
            }
            Some(mark) if mark != b'\n' => self.delimited(name, mark),
            Some(_) | None => {
                self.fail_statement(Fault::Needs(name));
                Vec::new(self.alloc)
            }
        }
    }

    fn delimited(&mut self, name: Name, mark: u8) -> Vec<u8> {
        self.advance(mark);
        let mut text = Vec::new(self.alloc);
        for _ in 0..u64::MAX {
            match self.peek() {
                None | Some(b'\n') => break,
                Some(character) => {
                    self.advance(character);
                    if character == mark {
                        return text;
                    }
                    self.add_to(&mut text, character);
                }
            }
        }
        self.fail_statement(Fault::Needs(name));
        text
    }
}
