//! A text that is read from left to right.
ghost use Rattle.std.specs.Prelude.{◌≡◌, ◌≤◌, IfSome, drop, is_some, length, true};
ghost use Rattle.std.specs.List.{after_first, after_last, before_first, before_last, list_all};
ghost use Rattle.std.specs.Str.{str_eq_ignore_ascii_case};
ghost use Rattle.ddt_commands.specs.Texts.{behind_blanks, first_word, has, has_escape, is_blank, is_byte, is_escape, skipped, trimmed};
ghost use Rattle.ddt_commands.specs.Values.{begins, begins_escape, behind_word_in, is_inside, is_second, without, word_in};

/// The part of a text that is still to be read.
#[derive(Clone, Copy)]
pub struct Reader<'a> {
    /// The bytes.
    pub rest: &'a [u8],
}

/// The text before the first such byte, and the text behind it.
pub fn cut_at(text: &[u8], byte: u8) -> Option<(&[u8], &[u8])>
    ensures found { is_some result ≡ has (is_byte byte) text.now }
    ensures before { IfSome result (λ parts. parts.0.now ≡ before_first (is_byte byte) text.now) }
    ensures behind { IfSome result (λ parts. parts.1.now ≡ after_first (is_byte byte) text.now) }
{
    for (i, one) in text.iter().enumerate() {
        if *one == byte {
            return Some((&text[..i], &text[i + 1..]));
        }
    }
    None
}

/// Whether a byte stands for ESC: `$`, or ESC itself.
pub fn is_escape(byte: u8) -> bool
    ensures { result ≡ is_escape byte }
{
    byte == b'$' || byte == 0o33
}

/// The text before the last ESC or `$`, and the text behind it.
pub fn cut_at_last_escape(text: &[u8]) -> Option<(&[u8], &[u8])>
    ensures found { is_some result ≡ has_escape text.now }
    ensures before { IfSome result (λ parts. parts.0.now ≡ before_last is_escape text.now) }
    ensures behind { IfSome result (λ parts. parts.1.now ≡ after_last is_escape text.now) }
{
    let mut end = text.len();
    'back: while end > 0 {
        if is_escape(text[end - 1]) {
            return Some((&text[..end - 1], &text[end..]));
        }
        end -= 1;
    }
    None
}

/// Whether a byte is a blank.
pub fn is_blank(byte: u8) -> bool
    ensures { result ≡ is_blank byte }
{
    byte == b' ' || byte == b'\t'
}

/// Whether a word is a name, in upper or lower case.
#[tactic(auto, using(crate::proofs::TextLemmas::names))]
pub fn is_name(word: &[u8], name: &[u8]) -> bool
    ensures { result ≡ str_eq_ignore_ascii_case word.now name.now }
{
    word.eq_ignore_ascii_case(name)
}

/// A text without the blanks round it.
pub fn trimmed(text: &[u8]) -> &[u8]
    ensures { result.now ≡ trimmed text.now }
{
    text.trim_ascii()
}

/// The rest of a text after its first bytes, as many as this.
pub fn behind(text: &[u8], bytes: usize) -> &[u8]
    requires { bytes ≤ length text.now }
    ensures { result.now ≡ drop bytes text.now }
{
    &text[bytes..]
}

/// Cuts a text at its first blank: its first word, and the rest without the blanks round it.
pub fn cut_word(text: &[u8]) -> (&[u8], &[u8])
    ensures word { result.0.now ≡ first_word text.now }
    ensures rest { result.1.now ≡ behind_blanks text.now }
{
    for (i, byte) in text.iter().enumerate() {
        if is_blank(*byte) {
            return (&text[..i], trimmed(behind(text, i + 1)));
        }
    }
    (text, &[])
}

/// Whether a byte is a character of a number or a name: a letter, a digit, `.` or `%`.
fn is_inside(byte: u8) -> bool
    ensures { result ≡ is_inside byte }
{
    byte.is_ascii_alphanumeric() || byte == b'.' || byte == b'%'
}

/// Whether a text begins with a byte.
pub fn begins(byte: u8, text: &[u8]) -> bool
    ensures { result ≡ begins byte text.now }
{
    !text.is_empty() && text[0] == byte
}

/// Whether a byte is the second of a text.
pub fn is_second(byte: u8, text: &[u8]) -> bool
    ensures { result ≡ is_second byte text.now }
{
    text.len() > 1 && text[1] == byte
}

/// Whether a text begins with `$` or ESC.
pub fn begins_escape(text: &[u8]) -> bool
    ensures { result ≡ begins_escape text.now }
{
    !text.is_empty() && is_escape(text[0])
}

impl<'a> Reader<'a> {
    /// Passes over blanks.
    pub fn skip(&mut self)
        ensures { self.new.rest.now ≡ skipped self.old.rest.now }
    {
        self.rest = self.rest.trim_ascii_start();
    }

    /// Passes over a byte, if it comes next; true if it did.
    pub fn eat(&mut self, byte: u8) -> bool
        ensures next { result ≡ begins byte self.old.rest.now }
        ensures rest { self.new.rest.now ≡ without byte self.old.rest.now }
    {
        match self.rest {
            [first, others @ ..] if *first == byte => {
                self.rest = others;
                true
            }
            _ => false,
        }
    }

    /// Reads the characters of a number or a name, as many as come: letters, digits, `.` and `%`.
    pub fn word(&mut self) -> &'a [u8]
        ensures word { result.now ≡ word_in self.old.rest.now }
        ensures rest { self.new.rest.now ≡ behind_word_in self.old.rest.now }
        ensures inside { list_all is_inside result.now ≡ true }
    {
        let text = self.rest;
        for (i, byte) in text.iter().enumerate() {
            if !is_inside(*byte) {
                self.rest = &text[i..];
                return &text[..i];
            }
        }
        self.rest = &[];
        text
    }
}
