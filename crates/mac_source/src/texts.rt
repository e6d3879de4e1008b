//! The statement of a word, a part at a time.
ghost use Rattle.std.specs.Prelude.{◌≡◌, ◌<◌, ◌^◌, ◌++◌, codes, OnOk, length, if◌then◌else◌, []};
ghost use Rattle.word36.specs.Octal.{octal_text};
ghost use Rattle.ka_isa.specs.Text.{accumulator_text, index_text};
ghost use Rattle.mac_source.specs.Sources.{label_text, address_text, instruction_text, halves_text, statement_text, is_reaching};
ghost use Rattle.mac_source.specs.Marks.{shown_by};

use crate::reaching::reaches_memory;
use ka_isa::{Fields, decode, mnemonic};
use std::alloc::AllocError;
use word36::{Word, octal_digits, octal_text};

/// Adds a number in octal.
pub fn push_octal(out: &mut Vec<u8>, number: u32) -> Result<(), AllocError>
    ensures { OnOk result (out.new.items ≡ out.old.items ++ octal_text number) }
{
    out.extend_from_slice(octal_text(u64::from(number)).as_bytes())
}

/// Adds the label of an address.
#[tactic(auto, using(std::proofs::Common::append_assoc))]
pub fn push_label(out: &mut Vec<u8>, address: u32) -> Result<(), AllocError>
    ensures { OnOk result (out.new.items ≡ out.old.items ++ label_text address) }
{
    out.push(b'L' + (address / (1 << 15) % 8) as u8)?;
    out.extend_from_slice(&octal_digits::<5>(u64::from(address % (1 << 15))))?;
    Ok(())
}

/// Adds an address, by its label where it has one and that is wanted.
pub fn push_address(
    out: &mut Vec<u8>,
    marks: &[bool],
    by_label: bool,
    address: u32,
) -> Result<(), AllocError>
    requires { address < length marks.now }
    ensures { OnOk result (out.new.items ≡ out.old.items ++ address_text (shown_by by_label marks.now) address) }
{
    if by_label && marks[address as usize] {
        push_label(out, address)
    } else {
        push_octal(out, address)
    }
}

/// Adds an accumulator and its comma, where it is not 0.
#[tactic(auto, using(std::proofs::Common::append_assoc))]
fn push_accumulator(out: &mut Vec<u8>, ac: u8) -> Result<(), AllocError>
    ensures { OnOk result (out.new.items ≡ out.old.items ++ accumulator_text ac) }
{
    if ac != 0 {
        push_octal(out, u32::from(ac))?;
        out.push(b',')?;
    }
    Ok(())
}

/// Adds `@`, where it is asked for.
fn push_at(out: &mut Vec<u8>, indirect: bool) -> Result<(), AllocError>
    ensures { OnOk result (out.new.items ≡ out.old.items ++ (if indirect then codes "@" else [])) }
{
    if indirect {
        out.push(b'@')?;
    }
    Ok(())
}

/// Adds an index register in parentheses, where there is one.
#[tactic(auto, using(std::proofs::Common::append_assoc))]
fn push_index(out: &mut Vec<u8>, x: u8) -> Result<(), AllocError>
    ensures { OnOk result (out.new.items ≡ out.old.items ++ index_text x) }
{
    if x != 0 {
        out.push(b'(')?;
        push_octal(out, u32::from(x))?;
        out.push(b')')?;
    }
    Ok(())
}

/// Adds the statement of a word whose operation has this name.
#[tactic(auto, using(std::proofs::Common::append_assoc))]
fn push_instruction(
    out: &mut Vec<u8>,
    marks: &[bool],
    by_label: bool,
    name: &str,
    fields: Fields,
) -> Result<(), AllocError>
    requires { fields.y < length marks.now }
    ensures { OnOk result (out.new.items ≡ out.old.items ++ instruction_text (shown_by by_label marks.now) name.now fields) }
{
    out.extend_from_slice(name.as_bytes())?;
    out.push(b' ')?;
    push_accumulator(out, fields.ac)?;
    push_at(out, fields.i)?;
    push_address(out, marks, by_label, fields.y)?;
    push_index(out, fields.x)
}

/// Adds the two halves of a word whose operation has no name.
#[tactic(auto, using(std::proofs::Common::append_assoc))]
fn push_halves(
    out: &mut Vec<u8>,
    marks: &[bool],
    by_label: bool,
    word: Word,
) -> Result<(), AllocError>
    requires { length marks.now ≡ 2 ^ 18 }
    ensures { OnOk result (out.new.items ≡ out.old.items ++ halves_text (shown_by by_label marks.now) word) }
{
    out.extend_from_slice(b"XWD ")?;
    push_octal(out, word.left())?;
    out.push(b',')?;
    push_address(out, marks, by_label, word.right())
}

/// Adds the statement of a word, its address by label where its operation reaches memory.
pub fn push_statement(out: &mut Vec<u8>, marks: &[bool], word: Word) -> Result<(), AllocError>
    requires { length marks.now ≡ 2 ^ 18 }
    ensures { OnOk result (out.new.items ≡ out.old.items ++ statement_text (shown_by (is_reaching word) marks.now) word) }
{
    let fields = decode(word);
    let by_label = reaches_memory(fields.op);
    match mnemonic(fields.op) {
        Some(name) => push_instruction(out, marks, by_label, name, fields),
        None => push_halves(out, marks, by_label, word),
    }
}
