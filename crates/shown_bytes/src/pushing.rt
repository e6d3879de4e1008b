//! Bytes that are added to a text as they are shown.
ghost use Rattle.std.specs.Prelude.{◌≡◌, ◌++◌, length, take, IfOk, OnOk, string_bytes};
ghost use Rattle.std.specs.List.{flat_map};
ghost use Rattle.script_io.specs.Printing.{escaped};
ghost use Rattle.shown_bytes.specs.declared.pushing.TheConstants.{MOST_SHOWN};
ghost use Rattle.shown_bytes.specs.Shown.{is_plain, shown_byte, end_of, shown, shown_in_lines, shown_lines};

use std::alloc::{AllocError, Global};

/// The most bytes that are shown; behind more of them stands `..`.
pub const MOST_SHOWN: usize = 256;

/// Whether a byte is shown as it is: a printing character of ASCII, a blank or a tab.
fn is_plain(byte: u8) -> bool
    ensures { result ≡ is_plain byte }
{
    byte == b'\t' || (byte > 31 && byte < 127)
}

/// Adds a byte as a backslash and three octal digits.
#[tactic(auto, using(std::proofs::Common::append_assoc))]
fn push_escaped(out: &mut String, byte: u8) -> Result<(), AllocError>
    ensures { OnOk result (string_bytes out.new ≡ string_bytes out.old ++ escaped byte) }
{
    out.push('\\')?;
    out.push(char::from(b'0' + byte / 64))?;
    out.push(char::from(b'0' + byte / 8 % 8))?;
    out.push(char::from(b'0' + byte % 8))
}

/// Adds a byte as it is shown.
fn push_byte(out: &mut String, byte: u8) -> Result<(), AllocError>
    ensures { OnOk result (string_bytes out.new ≡ string_bytes out.old ++ shown_byte byte) }
{
    if is_plain(byte) {
        out.push(char::from(byte))
    } else {
        push_escaped(out, byte)
    }
}

/// Adds bytes as they are shown, however many there are.
fn push_all(out: &mut String, bytes: &[u8]) -> Result<(), AllocError>
    ensures { OnOk result (string_bytes out.new ≡ string_bytes out.old ++ flat_map shown_byte bytes.now) }
{
    for byte in bytes {
        push_byte(out, *byte)?;
    }
    Ok(())
}

/// The bytes that are shown.
fn front_of(bytes: &[u8]) -> &[u8]
    ensures { result.now ≡ take MOST_SHOWN bytes.now }
{
    if bytes.len() > MOST_SHOWN {
        &bytes[..MOST_SHOWN]
    } else {
        bytes
    }
}

/// What stands behind the bytes that are shown.
fn end_of(bytes: &[u8]) -> &'static str
    ensures { result.now ≡ end_of bytes.now }
{
    if bytes.len() > MOST_SHOWN { ".." } else { "" }
}

/// Adds bytes as they are shown: a printing character of ASCII, a blank or a tab as it is, each other byte as a backslash and
/// three octal digits. Of more than 256 bytes the first 256 are shown, and `..` behind them. It fails only where there is no
/// memory.
#[tactic(auto, using(std::proofs::Common::append_assoc))]
pub fn push_shown(out: &mut String, bytes: &[u8]) -> Result<(), AllocError>
    ensures { OnOk result (string_bytes out.new ≡ string_bytes out.old ++ shown bytes.now) }
{
    push_all(out, front_of(bytes))?;
    out.push_str(end_of(bytes))
}

/// Bytes as they are shown, as `push_shown` adds them.
pub fn shown_text(alloc: Global, bytes: &[u8]) -> Result<String, AllocError>
    ensures { IfOk result (λ text. string_bytes text ≡ shown bytes.now) }
{
    let mut text = String::new(alloc);
    push_shown(&mut text, bytes)?;
    Ok(text)
}

/// Adds a byte of a text of several lines as it is shown.
fn push_in_lines(out: &mut String, byte: u8) -> Result<(), AllocError>
    ensures { OnOk result (string_bytes out.new ≡ string_bytes out.old ++ shown_in_lines byte) }
{
    if byte == b'\n' {
        out.push('\n')
    } else {
        push_byte(out, byte)
    }
}

/// Adds a text of several lines as it is shown.
fn push_lines(out: &mut String, text: &[u8]) -> Result<(), AllocError>
    ensures { OnOk result (string_bytes out.new ≡ string_bytes out.old ++ shown_lines text.now) }
{
    for byte in text {
        push_in_lines(out, *byte)?;
    }
    Ok(())
}

/// A text of several lines as it is shown, however long it is: its line feeds stand as they are, and its other bytes as
/// `push_shown` adds them.
pub fn shown_lines(alloc: Global, text: &[u8]) -> Result<String, AllocError>
    ensures { IfOk result (λ shown. string_bytes shown ≡ shown_lines text.now) }
{
    let mut shown = String::new(alloc);
    push_lines(&mut shown, text)?;
    Ok(shown)
}

/// How many columns a byte takes as it is shown; a tab counts as one.
pub fn shown_width(byte: u8) -> usize
    ensures { result ≡ length (shown_byte byte) }
{
    if is_plain(byte) { 1 } else { 4 }
}
