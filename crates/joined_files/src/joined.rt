//! One text of several files, and which line of it is which line of which file.

ghost use Rattle.std.specs.Prelude.{◌≡◌, ◌++◌, ◌∷◌, [], IfOk, OnOk, length, map};
ghost use Rattle.std.specs.Option.{option_map};
ghost use Rattle.joined_files.specs.Joined.{ended, ends_in, part_at, told};

use std::alloc::{AllocError, Global};

/// A file of a source, and where it begins in the whole.
#[derive(Drop)]
pub struct Part {
    /// The name of the file.
    pub file: String,
    /// How many lines of the whole are before it.
    pub before: usize,
    /// How many bytes of the whole are before it.
    pub start: usize,
}

/// Files as one source.
#[derive(Drop)]
pub struct Joined {
    /// The text: that of each file after that of the one before. If one does not end with the end of a line, that is put between.
    pub text: Vec<u8>,
    /// The files, in their order.
    pub parts: Vec<Part>,
}

/// How many lines end in a text.
fn ends_in(text: &[u8]) -> usize
    ensures { result ≡ ends_in text.now }
{
    let mut ends = 0;
    for character in text {
        if *character == b'\n' {
            ends += 1;
        }
    }
    ends
}

/// Ends the last line of a text, if it has one without an end.
fn end_last(text: &mut Vec<u8>) -> Result<(), AllocError>
    ensures { OnOk result (text.new.items ≡ ended text.old.items) }
{
    match text.as_slice() {
        [] | [.., b'\n'] => Ok(()),
        _ => {
            text.push(b'\n')?;
            Ok(())
        }
    }
}

/// The file of this name that begins behind a text.
fn part_behind(alloc: Global, file: &str, text: &[u8]) -> Result<Part, AllocError>
    ensures { IfOk result (λ part. told part ≡ (file.now, ends_in text.now, length text.now)) }
{
    Ok(Part {
        file: String::from_str(alloc, file)?,
        before: ends_in(text),
        start: text.len(),
    })
}

impl Joined {
    /// No file.
    pub fn new(alloc: Global) -> Joined {
        Joined {
            text: Vec::new(alloc),
            parts: Vec::new(alloc),
        }
    }

    /// Adds a file of this name, with this text, behind the others.
    pub fn add(&mut self, alloc: Global, file: &str, text: &[u8]) -> Result<(), AllocError>
        ensures text { OnOk result (self.new.text.items ≡ ended self.old.text.items ++ text.now) }
        ensures parts { OnOk result (map told self.new.parts.items ≡ map told self.old.parts.items
            ++ (file.now, ends_in (ended self.old.text.items), length (ended self.old.text.items)) ∷ []) }
    {
        end_last(&mut self.text)?;
        let part = part_behind(alloc, file, self.text.as_slice())?;
        self.parts.push(part)?;
        self.text.extend_from_slice(text)
    }

    /// The files, if there are several.
    pub fn several(&self) -> &[Part] {
        if self.parts.len() > 1 {
            self.parts.as_slice()
        } else {
            &[]
        }
    }
}

/// The file that has a line of the whole, if there is one: the last that begins before it.
pub fn part_of(parts: &[Part], line: usize) -> Option<&Part>
    ensures { option_map (λ part. part.now) result ≡ part_at line parts.now }
{
    let mut found = None;
    for part in parts {
        if part.before < line {
            found = Some(part);
        }
    }
    found
}
