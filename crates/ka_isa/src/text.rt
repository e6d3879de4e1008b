//! A word as a line of a program.

ghost use Rattle.std.specs.Prelude.{◌≡◌, ◌+◌, ◌++◌, ◌<◌, ◌≤◌, ◌^◌, length, codes};
ghost use Rattle.word36.specs.Octal.{octal_text};
ghost use Rattle.ka_isa.specs.Text.{accumulator_text, index_text, instruction_text, halves_text, text_of_word};

use crate::{Fields, decode, mnemonic};
use arrayvec::ArrayString;
use word36::{Word, octal_text};

/// The longest text has a name of six characters, an AC and an index register of two digits each and
/// six digits of an address: `TTCALL 17,@777777(17)`.
type Line = ArrayString<21>;

/// Room for the digits of any number.
type Digits = ArrayString<22>;

/// The digits of the number of an accumulator or an index register.
fn register_digits(register: u8) -> Digits
    requires { register < 2 ^ 4 }
    ensures text { result.bytes ≡ octal_text register }
    ensures short { length result.bytes ≤ 2 }
{
    octal_text(register as u64)
}

/// The digits of an address or of half a word.
fn half_digits(half: u32) -> Digits
    requires { half < 2 ^ 18 }
    ensures text { result.bytes ≡ octal_text half }
    ensures short { length result.bytes ≤ 6 }
{
    octal_text(half as u64)
}

/// Appends an accumulator and its comma, where it is not 0.
fn push_accumulator(text: &mut Line, ac: u8)
    requires ac { ac < 2 ^ 4 }
    requires room { length text.old.bytes ≤ 7 }
    ensures bytes { text.new.bytes ≡ text.old.bytes ++ accumulator_text ac }
    ensures length { length text.new.bytes ≤ length text.old.bytes + 3 }
{
    if ac != 0 {
        text.push_str(register_digits(ac).as_str());
        text.push_str(",");
    }
}

/// Appends an index register in parentheses, where there is one.
fn push_index(text: &mut Line, x: u8)
    requires x { x < 2 ^ 4 }
    requires room { length text.old.bytes ≤ 17 }
    ensures { text.new.bytes ≡ text.old.bytes ++ index_text x }
{
    if x != 0 {
        text.push_str("(");
        text.push_str(register_digits(x).as_str());
        text.push_str(")");
    }
}

fn instruction_text(name: &str, fields: Fields) -> Line
    requires name { length name.now ≤ 6 }
    requires ac { fields.ac < 2 ^ 4 }
    requires x { fields.x < 2 ^ 4 }
    requires y { fields.y < 2 ^ 18 }
    ensures { result.bytes ≡ instruction_text name.now fields }
{
    let mut text = Line::new();
    text.push_str(name);
    text.push_str(" ");
    push_accumulator(&mut text, fields.ac);
    if fields.i {
        text.push_str("@");
    }
    text.push_str(half_digits(fields.y).as_str());
    push_index(&mut text, fields.x);
    text
}

fn halves_text(word: Word) -> Line
    ensures { result.bytes ≡ halves_text word }
{
    let mut text = Line::new();
    text.push_str("XWD ");
    text.push_str(half_digits(word.left()).as_str());
    text.push_str(",");
    text.push_str(half_digits(word.right()).as_str());
    text
}

/// A word as a line of a program: the name of its operation, a space, the AC and a comma where it is
/// not 0, `@` where it is indirect, the address and the index register in parentheses where it is
/// not 0, as in `MOVEI 1,5`; a word whose operation has no name as `XWD left,right`. Numbers are
/// octal without leading zeros (this project's profile, in the form of MACRO-10).
pub fn text_of(word: Word) -> ArrayString<21>
    ensures { result.bytes ≡ text_of_word word }
{
    let fields = decode(word);
    match mnemonic(fields.op) {
        Some(name) => instruction_text(name, fields),
        None => halves_text(word),
    }
}
