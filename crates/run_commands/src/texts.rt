//! Texts that are typed at a line, and those that are taken from it.
ghost use Rattle.std.specs.Prelude.{◌≡◌, ◌≤◌, ◌<◌, ◌+◌, ◌++◌, ◌∷◌, [], length, IfSome, IsTrue, OnOk};
ghost use Rattle.std.specs.List.{flat_map};
ghost use Rattle.run_commands.specs.Texts.{is_octal, escape, octal_escape, first_spelled, characters_of};
ghost use Rattle.script_io.specs.Printing.{printed_character};

use arrayvec::ArrayVec;
use script_io::{LINE_LENGTH, push_escaped};
use std::alloc::AllocError;
use std::marker::Model;
use tty_lines::Char7;

/// So many characters are looked at, and written, at once.
const AT_ONCE: usize = 16;

/// The characters that are typed by one command.
#[derive(Drop)]
pub struct TypedText {
    characters: ArrayVec<Char7, LINE_LENGTH>,
}

impl Model for TypedText {
    ghost use Rattle.std.specs.Prelude.{ℕ, List};

    ghost Value = { List ℕ };

    ghost view = { λ t. t.characters.items };
}

/// The first character that a text spells.
#[derive(Clone, Copy)]
pub struct Spelled {
    /// The character.
    pub character: Char7,
    /// How many characters of the text spell it.
    pub length: usize,
}

impl TypedText {
    /// A text without characters.
    fn new() -> Self
        ensures { result ≡ [] }
    {
        TypedText {
            characters: ArrayVec::new(),
        }
    }

    /// Adds a character.
    fn push(&mut self, character: Char7)
        requires { length self.old < LINE_LENGTH }
        ensures { self.new ≡ self.old ++ character ∷ [] }
    {
        self.characters.push(character);
    }

    /// The text that some characters of a line spell, if they do.
    pub fn read(text: &[u8]) -> Option<Self>
        requires { length text.now ≤ LINE_LENGTH }
        ensures { result ≡ characters_of text.now }
    {
        let mut typed = TypedText::new();
        let mut rest = text;
        while let Some((first, more)) = rest.split_first() {
            let spelled = first_spelled(*first, more)?;
            typed.push(spelled.character);
            rest = &rest[spelled.length..];
        }
        Some(typed)
    }

    /// Its characters.
    pub fn as_slice(&self) -> &[Char7]
        ensures { result.now ≡ self.now }
    {
        self.characters.as_slice()
    }
}

/// Whether three characters are octal digits of a number up to 177.
fn is_octal(a: u8, b: u8, c: u8) -> bool
    ensures { result ≡ is_octal a b c }
{
    matches!(a, b'0'..=b'1') && matches!(b, b'0'..=b'7') && matches!(c, b'0'..=b'7')
}

/// The character that three octal digits behind a backslash spell.
fn octal_escape(rest: &[u8]) -> Option<Spelled>
    ensures value { result ≡ octal_escape rest.now }
    ensures within { IfSome result (λ s. (0 < s.length) × (s.length ≤ length rest.now + 1)) }
{
    match rest {
        [a, b, c, ..] if is_octal(*a, *b, *c) => Some(Spelled {
            character: Char7::new(64 * (*a - b'0') + 8 * (*b - b'0') + (*c - b'0')),
            length: 4,
        }),
        _ => None,
    }
}

/// What is spelled behind a backslash.
fn escape(rest: &[u8]) -> Option<Spelled>
    ensures value { result ≡ escape rest.now }
    ensures within { IfSome result (λ s. (0 < s.length) × (s.length ≤ length rest.now + 1)) }
{
    let number = match rest.first()? {
        b'n' => b'\n',
        b'r' => b'\r',
        b'e' => 0o33,
        b'\\' => b'\\',
        _ => return octal_escape(rest),
    };
    Some(Spelled {
        character: Char7::new(number),
        length: 2,
    })
}

/// The first character that a text spells, which begins so.
fn first_spelled(first: u8, more: &[u8]) -> Option<Spelled>
    ensures value { result ≡ first_spelled first more.now }
    ensures within { IfSome result (λ s. (0 < s.length) × (s.length ≤ length more.now + 1)) }
{
    if first == b'\\' {
        return escape(more);
    }
    let character = Char7::try_new(first)?;
    Some(Spelled {
        character,
        length: 1,
    })
}

/// Adds a character as a script spells it. Most stand for themselves, which few comparisons show.
fn push_character(out: &mut Vec<u8>, character: u8) -> Result<(), AllocError>
    requires { character < 128 }
    ensures { OnOk result (out.new.items ≡ out.old.items ++ printed_character character) }
{
    if character > 0o37 && character != b'\\' && character != 0o177 {
        out.push(character)?;
        return Ok(());
    }
    match character {
        b'\n' => out.extend_from_slice(b"\\n")?,
        b'\r' => out.extend_from_slice(b"\\r")?,
        0o33 => out.extend_from_slice(b"\\e")?,
        b'\\' => out.extend_from_slice(b"\\\\")?,
        0..=0o37 | 0o177 => return push_escaped(out, character),
        _ => out.push(character)?,
    }
    Ok(())
}

/// Whether a character stands for itself in a script.
fn is_plain(character: Char7) -> bool
    ensures { IsTrue result → (printed_character character ≡ character ∷ []) }
{
    let number = character.number();
    (number > 0o37) & (number != b'\\') & (number != 0o177)
}

/// The numbers of some characters, if each of them stands for itself. None ends the loop early, so it takes few steps.
fn plain_numbers(characters: &[Char7; AT_ONCE]) -> Option<[u8; AT_ONCE]>
    ensures { IfSome result (λ numbers. flat_map printed_character characters.now ≡ numbers) }
{
    let mut numbers = [0; AT_ONCE];
    let mut are_plain = true;
    for i in 0..AT_ONCE {
        are_plain &= is_plain(characters[i]);
        numbers[i] = characters[i].number();
    }
    are_plain.then_some(numbers)
}

/// Adds characters as a script spells them, one after another.
fn push_each(out: &mut Vec<u8>, text: &[Char7]) -> Result<(), AllocError>
    ensures { OnOk result (out.new.items ≡ out.old.items ++ flat_map printed_character text.now) }
{
    for character in text {
        push_character(out, character.number())?;
    }
    Ok(())
}

/// Adds characters as a script spells them. Those that stand for themselves are copied several at once.
pub fn push_text(out: &mut Vec<u8>, text: &[Char7]) -> Result<(), AllocError>
    ensures { OnOk result (out.new.items ≡ out.old.items ++ flat_map printed_character text.now) }
{
    let mut rest = text;
    while let Some((first, more)) = rest.split_first_chunk() {
        match plain_numbers(first) {
            Some(numbers) => out.extend_from_slice(&numbers)?,
            None => push_each(out, first)?,
        }
        rest = more;
    }
    push_each(out, rest)
}
