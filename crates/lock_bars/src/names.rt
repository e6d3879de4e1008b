//! The names of locks as pictures show them.
ghost use Rattle.std.specs.Prelude.{◌≡◌, Some};
ghost use Rattle.std.specs.List.{flat_map};
ghost use Rattle.queue_script.specs.Locks.{is_name_character};
ghost use Rattle.queue_script.specs.Printing.{name_character, scope_text};
ghost use Rattle.lock_bars.specs.Names.{label_text};

use lock_queue::{Key, Name, Scope};
use std::fmt;
use word36::octal_text;

/// Whether a script can spell a character of a name.
fn is_name_character(byte: u8) -> bool
    ensures { result ≡ is_name_character byte }
{
    byte.is_ascii_alphanumeric() || byte == b'.' || byte == b'-' || byte == b'_'
}

/// A character of a name: as it is, or as a backslash and three octal digits where a script cannot spell it.
#[derive(Clone, Copy)]
struct NameCharacter(u8);

impl fmt::Display for NameCharacter {
    ghost output = { λ c. Some (name_character c.0) };

    fn fmt<W: fmt::Write>(&self, f: &mut fmt::Formatter<W>) -> fmt::Result {
        let byte = self.0;
        if is_name_character(byte) {
            return f.write_char(char::from(byte));
        }
        let high = char::from(b'0' + byte / 64);
        let middle = char::from(b'0' + byte / 8 % 8);
        let low = char::from(b'0' + byte % 8);
        write!(f, "\\{high}{middle}{low}")
    }
}

/// The text of a name.
#[derive(Clone, Copy)]
struct NameCharacters<'a>(&'a [u8]);

impl fmt::Display for NameCharacters<'_> {
    ghost output = { λ n. Some (flat_map name_character n.0.now) };

    fn fmt<W: fmt::Write>(&self, f: &mut fmt::Formatter<W>) -> fmt::Result {
        for byte in self.0 {
            let character = NameCharacter(*byte);
            write!(f, "{character}")?;
        }
        Ok(())
    }
}

/// What stands behind the name of a job's own lock.
fn scope_text(scope: Scope) -> &'static str
    ensures { result.now ≡ scope_text scope }
{
    match scope {
        Scope::All => "",
        Scope::Job(_) => "/J",
    }
}

/// A lock's name as the transcript of `lockmon queue` spells it, with `/J` where it is a job's own.
#[derive(Clone, Copy)]
pub struct LockLabel<'a>(pub &'a Key);

impl fmt::Display for LockLabel<'_> {
    ghost output = { λ l. Some (label_text l.0.now) };

    fn fmt<W: fmt::Write>(&self, f: &mut fmt::Formatter<W>) -> fmt::Result {
        let scope = scope_text(self.0.scope);
        match &self.0.name {
            Name::Text(text) => {
                let name = NameCharacters(text.as_str().as_bytes());
                write!(f, "{name}{scope}")
            }
            Name::Code(code) => {
                let digits = octal_text(code.number());
                let digits = digits.as_str();
                write!(f, "#{digits}{scope}")
            }
        }
    }
}
