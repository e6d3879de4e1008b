//! The listing of a source: its words by rising address and its start, or what is wrong with it.
ghost use Rattle.std.specs.Prelude.{◌≡◌, ◌++◌, ◌<◌, ◌^◌, OnOk, ◌∷◌, []};
ghost use Rattle.std.specs.List.{flat_map, list_all};
ghost use Rattle.asm_script.specs.Listings.{word_line, image_text, fault_text, fault_behind};
ghost use Rattle.script_io.specs.declared.endings.Ending.TheVariants.{Source};

use mac_asm::AsmCode;
use script_io::{Ending, SourceFault, push_decimal, push_word};
use std::alloc::AllocError;
use word36::{Image, Word, octal_digits};

/// Adds a line of an address and its word.
#[tactic(auto, using(std::proofs::Common::append_assoc))]
fn push_word_line(out: &mut Vec<u8>, address: u32, word: Word) -> Result<(), AllocError>
    ensures { OnOk result (out.new.items ≡ out.old.items ++ word_line (address, word)) }
{
    out.extend_from_slice(&octal_digits::<6>(u64::from(address)))?;
    out.push(b' ')?;
    push_word(out, word)?;
    out.push(b'\n')?;
    Ok(())
}

/// Adds the lines of words with their addresses.
fn push_words(out: &mut Vec<u8>, words: &[(u32, Word)]) -> Result<(), AllocError>
    ensures { OnOk result (out.new.items ≡ out.old.items ++ flat_map word_line words.now) }
{
    for word in words {
        push_word_line(out, word.0, word.1)?;
    }
    Ok(())
}

/// Adds the lines of an image: its words, and where it starts.
#[tactic(auto, using(std::proofs::Common::append_assoc))]
pub fn push_image(out: &mut Vec<u8>, image: &Image) -> Result<(), AllocError>
    ensures { OnOk result (out.new.items
        ≡ out.old.items ++ image_text (record { words = image.now.words.items; start = image.now.start })) }
{
    push_words(out, image.words.as_slice())?;
    out.extend_from_slice(b"START ")?;
    out.extend_from_slice(&octal_digits::<6>(u64::from(image.start)))?;
    out.push(b'\n')?;
    Ok(())
}

/// Adds `?ASM line code`.
#[tactic(auto, using(std::proofs::Common::append_assoc))]
pub fn push_asm_fault(out: &mut Vec<u8>, line: usize, code: AsmCode) -> Result<(), AllocError>
    ensures { OnOk result (out.new.items ≡ out.old.items ++ fault_text (record { line = line; code = code })) }
{
    out.extend_from_slice(b"?ASM ")?;
    push_decimal(out, line)?;
    out.push(b' ')?;
    push_decimal(out, code.number())?;
    out.push(b'\n')?;
    Ok(())
}

/// The ending at a source that is not assembled, before which so many lines of the input stand.
pub fn source_ending(before: u128, line: usize, code: AsmCode) -> Ending
    ensures { result ≡ Source (fault_behind before (record { line = line; code = code })) }
{
    Ending::Source(SourceFault {
        before,
        line,
        code: code.number(),
    })
}
