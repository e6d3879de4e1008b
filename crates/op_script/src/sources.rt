//! Sources in a script.
ghost use Rattle.std.specs.Prelude.{◌≡◌, ◌++◌, OnOk};
ghost use Rattle.op_script.specs.Sources.{empty_source, with_line};

use run_commands::ImageName;
use std::alloc::{AllocError, Global};
use std::marker::Model;

/// The source behind an ASSEMBLE, with its lines so far.
#[derive(Drop)]
pub struct Source {
    name: ImageName,
    before: u128,
    text: Vec<u8>,
}

impl Model for Source {
    ghost use Rattle.op_script.specs.Sources.{SourceText};

    ghost Value = { SourceText };

    ghost view = { λ s. record { name = s.name; before = s.before; text = s.text.items } };
}

impl Source {
    /// A source without lines; `before` lines of the script stand before it.
    pub fn new(alloc: Global, name: ImageName, before: u128) -> Self
        ensures { result ≡ empty_source name before }
    {
        Source {
            name,
            before,
            text: Vec::new(alloc),
        }
    }

    /// Adds a line.
    #[tactic(auto, using(std::proofs::Common::append_assoc))]
    pub fn push_line(&mut self, line: &[u8]) -> Result<(), AllocError>
        ensures { OnOk result (self.new ≡ with_line self.old line.now) }
    {
        self.text.extend_from_slice(line)?;
        self.text.extend_from_slice(b"\r\n")?;
        Ok(())
    }

    /// Its lines.
    pub fn text(&self) -> &[u8]
        ensures { result.now ≡ self.now.text }
    {
        self.text.as_slice()
    }

    /// How many lines of the script stand before it.
    pub fn before(&self) -> u128
        ensures { result ≡ self.now.before }
    {
        self.before
    }

    /// The name that its image will have.
    pub fn into_name(self) -> ImageName
        ensures { result ≡ self.name }
    {
        let Source {
            name,
            before: _,
            text: _,
        } = self;
        name
    }
}
