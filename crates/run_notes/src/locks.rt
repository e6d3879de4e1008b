//! Locks in words.
ghost use Rattle.std.specs.Prelude.{◌≡◌, ◌++◌, [], OnOk, if◌then◌else◌, string_bytes};
ghost use Rattle.std.specs.List.{flat_map};
ghost use Rattle.queue_script.specs.Locks.{is_name_character};
ghost use Rattle.queue_script.specs.Printing.{name_character, name_text, group_text, level_text, pool_text, scope_text};
ghost use Rattle.script_io.specs.Printing.{escaped};
ghost use Rattle.run_notes.specs.Words.{lock_words, options_words};

use lock_queue::{Group, Level, Name, Pool, Scope, Want};
use std::alloc::AllocError;
use word36::octal_text;

/// Adds a byte as a backslash and three octal digits.
#[tactic(auto, using(std::proofs::Common::append_assoc))]
fn push_escaped(text: &mut String, byte: u8) -> Result<(), AllocError>
    ensures { OnOk result (string_bytes text.new ≡ string_bytes text.old ++ escaped byte) }
{
    text.push('\\')?;
    text.push(char::from(b'0' + byte / 64))?;
    text.push(char::from(b'0' + byte / 8 % 8))?;
    text.push(char::from(b'0' + byte % 8))
}

/// Whether a script can spell a character of a name.
fn is_name_character(byte: u8) -> bool
    ensures { result ≡ is_name_character byte }
{
    byte.is_ascii_alphanumeric() || byte == b'.' || byte == b'-' || byte == b'_'
}

/// Adds a character of a name; one that a script cannot spell as a backslash and three octal digits.
fn push_character(text: &mut String, byte: u8) -> Result<(), AllocError>
    ensures { OnOk result (string_bytes text.new ≡ string_bytes text.old ++ name_character byte) }
{
    if is_name_character(byte) {
        text.push(char::from(byte))
    } else {
        push_escaped(text, byte)
    }
}

/// Adds the characters of a name.
fn push_characters(text: &mut String, name: &[u8]) -> Result<(), AllocError>
    ensures { OnOk result (string_bytes text.new ≡ string_bytes text.old ++ flat_map name_character name.now) }
{
    for byte in name {
        push_character(text, *byte)?;
    }
    Ok(())
}

/// Adds a lock's name: its characters, or `#` and its user code in octal.
#[tactic(auto, using(std::proofs::Common::append_assoc))]
pub fn push_name(text: &mut String, name: &Name) -> Result<(), AllocError>
    ensures { OnOk result (string_bytes text.new ≡ string_bytes text.old ++ name_text name.now) }
{
    match name {
        Name::Text(name) => push_characters(text, name.as_str().as_bytes()),
        Name::Code(code) => {
            let digits = octal_text(code.number());
            text.push('#')?;
            text.push_str(digits.as_str())
        }
    }
}

/// Adds a sharer group that is not 0.
fn push_group(text: &mut String, group: Group) -> Result<(), AllocError>
    ensures { OnOk result (string_bytes text.new ≡ string_bytes text.old ++ group_text group) }
{
    let number = group.number();
    if number == 0 {
        return Ok(());
    }
    write!(text, "/G{number}")
}

/// Adds a level that is not 0.
fn push_level(text: &mut String, level: Level) -> Result<(), AllocError>
    ensures { OnOk result (string_bytes text.new ≡ string_bytes text.old ++ level_text level) }
{
    let number = level.number();
    if number == 0 {
        return Ok(());
    }
    write!(text, "/L{number}")
}

/// Adds the size of a pool, and how much of it is wanted.
fn push_pool(text: &mut String, pool: Option<Pool>) -> Result<(), AllocError>
    ensures { OnOk result (string_bytes text.new ≡ string_bytes text.old ++ pool_text pool) }
{
    match pool {
        None => Ok(()),
        Some(pool) => {
            let (size, amount) = (pool.size(), pool.amount());
            write!(text, "/P{size}:{amount}")
        }
    }
}

/// The sign of an option where it is taken.
pub fn sign(is_taken: bool, sign: &'static str) -> &'static str
    ensures { result.now ≡ (if is_taken then sign.now else []) }
{
    if is_taken { sign } else { "" }
}

/// The sign of a name of the job's own.
fn scope_sign(scope: Scope) -> &'static str
    ensures { result.now ≡ scope_text scope }
{
    match scope {
        Scope::All => "",
        Scope::Job(_) => "/J",
    }
}

/// Adds the options of a want.
#[tactic(auto, using(std::proofs::Common::append_assoc))]
fn push_options(text: &mut String, want: &Want) -> Result<(), AllocError>
    ensures { OnOk result (string_bytes text.new ≡ string_bytes text.old ++ options_words want.now) }
{
    text.push_str(sign(want.shared, "/S"))?;
    push_group(text, want.group)?;
    text.push_str(sign(want.bypass, "/B"))?;
    push_level(text, want.level)?;
    push_pool(text, want.pool)?;
    text.push_str(scope_sign(want.key.scope))
}

/// Adds a lock as scripts of `lockmon queue` spell it: its name, or `#` and its user code in octal, and the options of the
/// want: `/S` shared, `/Gn` in sharer group n, `/B` out of level order, `/Ln` level n, `/Pn:m` m units of a pool of
/// n, `/J` a name of the job's own.
#[tactic(auto, using(std::proofs::Common::append_assoc))]
pub fn push_lock(text: &mut String, want: &Want) -> Result<(), AllocError>
    ensures { OnOk result (string_bytes text.new ≡ string_bytes text.old ++ lock_words want.now) }
{
    push_name(text, &want.key.name)?;
    push_options(text, want)
}
