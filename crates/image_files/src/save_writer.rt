//! Core images written as the words of their files.
ghost use Rattle.std.specs.Prelude.{◌≡◌, ◌<◌, ◌≤◌, ◌^◌, ◌++◌, ℕ, List, IfOk, OnOk, reverse};
ghost use Rattle.image_files.specs.Images.{IsImage, Rises};
ghost use Rattle.image_files.specs.Saves.{Block, block_before, iowd, jrst, save_of};
ghost use Rattle.image_files.specs.Loads.{loaded};
ghost use Rattle.image_files.specs.Writes.{IsWritten, closing, is_apart};

use std::alloc::{AllocError, Global};
use word36::{Image, Word};

/// The most words of a block: an IOWD counts no more.
const MOST: u32 = 1 << 17;

/// The IOWD of a block of so many words, from an address on.
fn iowd(count: u32, address: u32) -> Word
    requires some { 0 < count }
    requires few { count ≤ 2 ^ 17 }
    requires address { address < 2 ^ 18 }
    ensures { result ≡ iowd count address }
{
    Word::join((1 << 18) - count, (address + 0o777_777) & 0o777_777)
}

/// The JRST to a start.
fn jrst(start: u32) -> Word
    requires { start < 2 ^ 18 }
    ensures { result ≡ jrst start }
{
    Word::join(0o254_000, start)
}

/// Adds the IOWD of a block, where the block has words.
fn push_iowd(file: &mut Vec<Word>, count: u32, first: u32) -> Result<(), AllocError>
    requires few { count ≤ 2 ^ 17 }
    requires first { first < 2 ^ 18 }
    ensures { OnOk result (file.new.items ≡ file.old.items ++ closing count first) }
{
    if count != 0 {
        file.push(iowd(count, first))?;
    }
    Ok(())
}

/// Whether a word does not belong to the block in hand, which begins at `first`: the block is full,
/// or does not stand right behind the word.
fn is_apart(count: u32, first: u32, address: u32) -> bool
    requires { address < 2 ^ 18 }
    ensures { result ≡ is_apart count first address }
{
    count == MOST || first != address + 1
}

/// Adds a word that stands before the block in hand, or begins a new block with it, and gives the
/// number of words of its block.
fn push_before(
    file: &mut Vec<Word>,
    count: u32,
    first: u32,
    address: u32,
    word: Word,
) -> Result<u32, AllocError>
    requires few { count ≤ 2 ^ 17 }
    requires first { first < 2 ^ 18 }
    requires address { address < 2 ^ 18 }
    ensures few { IfOk result (λ more. more ≤ 2 ^ 17) }
    ensures written { IfOk result (λ more. (start : ℕ) (blocks : List Block) → IsWritten start blocks file.old.items count first →
        IsWritten start (block_before (address, word) blocks) file.new.items more address) }
{
    if is_apart(count, first, address) {
        push_iowd(file, count, first)?;
        file.push(word)?;
        return Ok(1);
    }
    file.push(word)?;
    Ok(count + 1)
}

/// The words of a file from the last to the first, since an IOWD counts the words behind it.
fn backwards(alloc: Global, words: &[(u32, Word)], start: u32) -> Result<Vec<Word>, AllocError>
    requires rises { Rises 0 words.now }
    requires start { start < 2 ^ 18 }
    ensures { IfOk result (λ file. reverse file.items ≡ save_of (record { words = words.now; start = start })) }
{
    let mut file = Vec::new(alloc);
    file.push(jrst(start))?;
    let mut count = 0;
    let mut first = 0;
    for i in (0..words.len()).rev() {
        let word = words[i];
        let more = push_before(&mut file, count, first, word.0, word.1)?;
        count = more;
        first = word.0;
    }
    push_iowd(&mut file, count, first)?;
    Ok(file)
}

/// The words of the file of an image: the fewest blocks, each an IOWD and its words, and a JRST to
/// the start. `read_save` gives the image back.
pub fn write_save(alloc: Global, image: &Image) -> Result<Vec<Word>, AllocError>
    requires { IsImage image.now.words.items image.now.start }
    ensures { IfOk result (λ words. words.items ≡ save_of (loaded image.now)) }
{
    let mut words = backwards(alloc, image.words.as_slice(), image.start)?;
    words.reverse();
    Ok(words)
}
