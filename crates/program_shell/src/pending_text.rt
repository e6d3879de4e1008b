//! Text that is not written yet.
ghost use Rattle.std.specs.Prelude.{◌≡◌, ◌++◌, ◌∷◌, [], true, false, IsTrue, IfErr, IfOk, decimal, string_bytes};
ghost use Rattle.program_shell.specs.Texts.{Adds};

use crate::failure::Failure;
use std::alloc::{AllocError, Global};

/// Text that is put together piece by piece before it is written.
///
/// What adds a piece need not look whether there was memory for it: where there was none, that is kept, and nothing
/// more is added.
#[derive(Drop)]
pub struct PendingText {
    /// Where memory comes from.
    pub alloc: Global,
    bytes: Vec<u8>,
    /// Whether there was memory for all that belongs to it.
    is_whole: bool,
    /// Whether the last line that was added is whole, or none was.
    is_line_whole: bool,
}

impl PendingText {
    /// No text yet.
    pub fn new(alloc: Global) -> Self
        ensures whole { result.is_whole ≡ true }
        ensures empty { result.bytes.items ≡ [] }
    {
        PendingText {
            alloc,
            bytes: Vec::new(alloc),
            is_whole: true,
            is_line_whole: true,
        }
    }

    /// Adds bytes.
    pub fn add(&mut self, bytes: &[u8])
        ensures { Adds self.old self.new bytes.now }
    {
        if let Some(last) = bytes.last() {
            self.is_line_whole = *last == b'\n';
            if self.is_whole {
                self.is_whole = self.bytes.extend_from_slice(bytes).is_ok();
            }
        }
    }

    /// Adds a text.
    pub fn say(&mut self, text: &str)
        ensures { Adds self.old self.new text.now }
    {
        self.add(text.as_bytes());
    }

    /// Ends a line.
    pub fn end_line(&mut self)
        ensures { Adds self.old self.new (10 ∷ []) }
    {
        self.say("\n");
    }

    /// Adds a text that was just made, if there was memory for it.
    pub fn say_made(&mut self, made: Result<String, AllocError>)
        ensures made { IfOk made (λ text. Adds self.old self.new (string_bytes text)) }
        ensures lost { IfErr made (λ _. self.new.is_whole ≡ false) }
    {
        match made {
            Ok(text) => self.say(text.as_str()),
            Err(_) => self.fail(),
        }
    }

    /// Adds a number between two texts.
    pub fn say_number(&mut self, before: &str, number: u64, behind: &str)
        ensures { Adds self.old self.new (before.now ++ (decimal number ++ behind.now)) }
    {
        let alloc = self.alloc;
        self.say_made(format!(in alloc; "{before}{number}{behind}"));
    }

    /// There was no memory for something that belongs to the text.
    pub fn fail(&mut self)
        ensures { self.new.is_whole ≡ false }
    {
        self.is_whole = false;
    }

    /// Whether the last line that was added is whole, or none was.
    pub fn is_line_whole(&self) -> bool {
        self.is_line_whole
    }

    /// Whether there was memory for all that belongs to it.
    pub fn is_whole(&self) -> bool
        ensures { result ≡ self.now.is_whole }
    {
        self.is_whole
    }

    /// What was added since it began.
    pub fn as_bytes(&self) -> &[u8]
        ensures { result.now ≡ self.now.bytes.items }
    {
        self.bytes.as_slice()
    }

    /// Begins anew, once it is written; fails where there was no memory for all that belonged to it.
    pub fn restart(&mut self) -> Result<(), Failure>
        ensures empty { self.new.bytes.items ≡ [] }
        ensures sound { self.new.is_whole ≡ true }
        ensures whole { IfOk result (λ _. IsTrue self.old.is_whole) }
    {
        self.bytes.clear();
        if !self.is_whole {
            self.is_whole = true;
            return Err(Failure::Memory);
        }
        Ok(())
    }
}
