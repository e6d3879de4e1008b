//! The operations that names stand for.

ghost use Rattle.std.specs.Prelude.{◌≡◌};
ghost use Rattle.std.specs.Str.{IsAscii};
ghost use Rattle.ka_isa.specs.Operations.{named_of};
ghost use Rattle.mac_text.specs.Names.{folded};
ghost use Rattle.macro_expressions.specs.Operations.{rows_of, found_in, other_words, other_operation, operation_of};

use ka_isa::{Named, named};
use mac_text::folded;
use word36::Word;

/// The operations that have other names than those of the processor's manual, with their words.
static OTHER_WORDS: [(&str, u64); 13] = [
    ("Z", 0),
    ("OR", 0o434_000_000_000),
    ("ORI", 0o435_000_000_000),
    ("ORM", 0o436_000_000_000),
    ("ORB", 0o437_000_000_000),
    ("CLEAR", 0o400_000_000_000),
    ("CLEARI", 0o401_000_000_000),
    ("CLEARM", 0o402_000_000_000),
    ("CLEARB", 0o403_000_000_000),
    ("JOV", 0o255_400_000_000),
    ("JCRY", 0o255_300_000_000),
    ("JCRY0", 0o255_200_000_000),
    ("JCRY1", 0o255_100_000_000),
];

/// What a table says of a name.
pub fn found_in<X: Copy>(rows: &[(&'static str, X)], name: &[u8]) -> Option<X>
    ensures { result ≡ found_in (rows_of rows.now) name.now }
{
    for (known, meaning) in rows {
        if known.as_bytes() == name {
            return Some(*meaning);
        }
    }
    None
}

/// An operation that has another name than in the processor's manual. The name is one of six characters at most.
#[tactic(auto, unfolding(crate::specs::Operations::other_words))]
pub fn other_operation(name: &[u8]) -> Option<Named>
    ensures { result ≡ other_operation name.now }
{
    let word = found_in(&OTHER_WORDS, name)?;
    Some(Named {
        word: Word::low_bits(word),
        ac: word >> 27 != 0o255,
        addr: true,
    })
}

/// The operation of a name of the processor's manual.
#[tactic(auto, using(mac_text::proofs::AsciiLemmas::is_text))]
fn manual_operation(name: &[u8]) -> Option<Named>
    requires { IsAscii name.now }
    ensures { result ≡ named_of name.now }
{
    match std::str::from_utf8(name) {
        Ok(name) => named(name),
        Err(_) => None,
    }
}

/// The operation of a name, of which six characters count.
#[tactic(auto, unfolding(crate::specs::Operations::operation_of))]
pub fn operation(name: &[u8]) -> Option<Named>
    requires { IsAscii name.now }
    ensures { result ≡ operation_of name.now }
{
    let counted = folded(name);
    match manual_operation(counted.as_slice()) {
        Some(named) => Some(named),
        None => other_operation(counted.as_slice()),
    }
}
