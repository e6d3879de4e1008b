//! The names of images.
ghost use Rattle.std.specs.Prelude.{◌≡◌};
ghost use Rattle.std.specs.List.{list_all};
ghost use Rattle.run_commands.specs.Names.{is_name_character, is_name, name_of};

use arrayvec::ArrayString;
use std::hash::{Hash, Hasher};
use std::marker::Model;
use std::str;

/// The most characters of a name.
pub const NAME_LENGTH: usize = 6;

/// The name of an image: 1 to 6 letters of either case and digits. Names that differ in case are
/// different names.
#[derive(Drop)]
pub struct ImageName {
    text: ArrayString<NAME_LENGTH>,
}

impl Model for ImageName {
    ghost use Rattle.std.specs.Prelude.{ℕ, List};

    ghost Value = { List ℕ };

    ghost view = { λ n. n.text.bytes };
}

/// Whether a name may have this character.
fn is_name_character(character: u8) -> bool
    ensures { result ≡ is_name_character character }
{
    character.is_ascii_alphanumeric()
}

/// Whether a name may have these characters.
fn has_name_characters(text: &[u8]) -> bool
    ensures { result ≡ list_all is_name_character text.now }
{
    text.iter().all(|character| is_name_character(*character))
}

/// Whether a text is a name.
fn is_name(text: &[u8]) -> bool
    ensures { result ≡ is_name text.now }
{
    text.len() >= 1 && text.len() <= NAME_LENGTH && has_name_characters(text)
}

impl ImageName {
    /// The name that a text spells.
    pub fn read(text: &[u8]) -> Option<Self>
        ensures { result ≡ name_of text.now }
    {
        if !is_name(text) {
            return None;
        }
        let Ok(text) = str::from_utf8(text) else {
            return None;
        };
        match ArrayString::from(text) {
            Ok(text) => Some(ImageName { text }),
            Err(_) => None,
        }
    }

    /// Its characters.
    pub fn as_bytes(&self) -> &[u8]
        ensures { result.now ≡ self.now }
    {
        self.text.as_str().as_bytes()
    }
}

impl PartialEq for ImageName {
    ghost use Rattle.std.specs.Prelude.{bytes_eq};
    ghost use Rattle.std.specs.Cmp.{partial_equiv_from_equiv};
    ghost use Rattle.std.specs.Cmp.Lexicographic.{nat_list_eq_equiv};

    ghost eq = { bytes_eq };

    ghost laws = { partial_equiv_from_equiv nat_list_eq_equiv };

    fn eq(&self, other: &Self) -> bool {
        self.text.as_str() == other.text.as_str()
    }
}

impl Eq for ImageName {
    ghost use Rattle.std.specs.Cmp.Lexicographic.{nat_list_eq_equiv};

    ghost laws = { nat_list_eq_equiv };
}

impl Hash for ImageName {
    ghost use Rattle.std.specs.Hash as fed;
    ghost use Rattle.std.specs.Cmp.Rules.{hashing};
    ghost use Rattle.std.proofs.Common.{rules};

    ghost hash_input = { λ s. fed.str s };

    ghost respects_eq = { Prim.search (hashing, rules) };

    fn hash<H: Hasher>(&self, state: &mut H) {
        self.text.as_str().hash(state);
    }
}
