//! The cross-reference.

use joined_files::Part;
use macro_names::{Name, text_of};
use macro_operations::of_uuosym;
use macro_state::Assembly;
use macro_symbols::{Definition, DefinitionKind, Meaning};
use macro_values::word_of;
use script_io::{push_decimal, push_word};
use std::alloc::AllocError;
use word36::{Word, octal_digits};

/// A use of a name; a definition comes first on its line.
#[derive(Clone, Copy, PartialEq, Eq, PartialOrd, Ord)]
struct Entry {
    name: u64,
    line: u32,
    is_use: bool,
}

/// Adds a text, and blanks up to a width.
fn push_padded(out: &mut Vec<u8>, text: &[u8], width: usize) -> Result<(), AllocError> {
    out.extend_from_slice(text)?;
    for _ in text.len()..width {
        out.push(b' ')?;
    }
    Ok(())
}

/// What stands for a symbol.
fn push_definition(out: &mut Vec<u8>, definition: Definition) -> Result<bool, AllocError> {
    let Some(word) = word_of(definition.value.unwrap_or(0)) else {
        return Ok(false);
    };
    if definition.kind == DefinitionKind::Assigned {
        push_word(out, word)?;
    } else {
        out.extend_from_slice(&octal_digits::<6>(word.number()))?;
        out.extend_from_slice(b"        ")?;
    }
    Ok(true)
}

/// What stands for a name that is no symbol.
fn push_meaning(out: &mut Vec<u8>, state: &Assembly, name: Name) -> Result<bool, AllocError> {
    match state.meanings.get(name) {
        Some(Meaning::Macro(_)) => push_padded(out, b"macro", 14)?,
        Some(Meaning::Opdef(number)) => push_word(out, Word::low_bits(number.unwrap_or(0)))?,
        Some(Meaning::Synonym(_)) => push_padded(out, b"synonym", 14)?,
        None => {
            if state.listing.purged.as_slice().contains(&name.sixbit()) {
                push_padded(out, b"purged", 14)?;
            } else if state.uuosym && of_uuosym(name).is_some() {
                push_padded(out, b"built in", 14)?;
            } else {
                return Ok(false);
            }
        }
    }
    Ok(true)
}

/// The uses in order, each line of a name once.
fn sorted_uses(state: &Assembly) -> Result<Vec<Entry>, AllocError> {
    let mut entries = Vec::new(state.alloc);
    for used in &state.listing.uses {
        entries.push(Entry {
            name: used.name,
            line: used.line,
            is_use: !used.defined,
        })?;
    }
    entries.sort()?;
    Ok(entries)
}

/// Adds the head of a name's line: the name, and what it stands for. False where it is not listed.
fn push_head(out: &mut Vec<u8>, state: &Assembly, name: u64) -> Result<bool, AllocError> {
    let start = out.len();
    let name = Name::of_sixbit(name);
    push_padded(out, text_of(name).as_slice(), 6)?;
    out.push(b' ')?;
    let is_listed = match state.symbols.get(name) {
        Some(definition) => push_definition(out, definition)?,
        None => push_meaning(out, state, name)?,
    };
    if !is_listed {
        out.truncate(start);
    }
    Ok(is_listed)
}

/// Adds a line for each file, with the number of its first line in the whole.
fn push_files(out: &mut Vec<u8>, parts: &[Part]) -> Result<(), AllocError> {
    for part in parts {
        out.extend_from_slice(b";file ")?;
        out.extend_from_slice(part.file.as_str().as_bytes())?;
        out.push(b' ')?;
        push_decimal(out, part.before.saturating_add(1))?;
        out.push(b'\n')?;
    }
    Ok(())
}

/// Adds the cross-reference: a line a name, with what it stands for and the lines of its uses; `#` where it is defined. `parts` are
/// the files of the source, where there are several: before all names each has a line.
pub fn push_cross(out: &mut Vec<u8>, state: &Assembly, parts: &[Part]) -> Result<(), AllocError> {
    push_files(out, parts)?;
    let entries = sorted_uses(state)?;
    let mut before: Option<Entry> = None;
    let mut is_listed = false;
    for entry in &entries {
        let is_new = match before {
            Some(other) => other.name != entry.name,
            None => true,
        };
        if is_new {
            if is_listed {
                out.push(b'\n')?;
            }
            is_listed = push_head(out, state, entry.name)?;
        }
        let is_same = match before {
            Some(other) => !is_new && other.line == entry.line,
            None => false,
        };
        if is_listed && !is_same {
            out.push(b' ')?;
            push_decimal(out, entry.line)?;
            if !entry.is_use {
                out.push(b'#')?;
            }
        }
        before = Some(*entry);
    }
    if is_listed {
        out.push(b'\n')?;
    }
    Ok(())
}
