//! The size of a machine, and the length of a quantum.
ghost use Rattle.std.specs.Prelude.{◌≡◌, ◌≤◌, ◌↔◌, IsSome, IfSome};
ghost use Rattle.machine.specs.Setups.{IsSetup};
ghost use Rattle.machine.specs.declared.sizes.TheConstants.{MOST_QUANTUM};
ghost use Rattle.word36.specs.declared.sizes.TheConstants.{MOST_BLOCKS};

use crate::sizes::MOST_QUANTUM;
use std::marker::Model;
use word36::MOST_BLOCKS;

/// The blocks of core that all jobs share, 1 to 256, and the ticks of a quantum, 1 to 60 (this
/// project's profile).
#[derive(Clone, Copy, Debug, PartialEq, Eq)]
pub struct Config {
    blocks: u32,
    quantum: u8,
}

impl Model for Config {
    ghost use Rattle.machine.specs.Setups.{Setup, IsSetup};

    ghost Value = { Setup };

    ghost view = { λ c. record { blocks = c.blocks; quantum = c.quantum } };

    ghost inverse = { λ s. record { blocks = s.blocks; quantum = s.quantum } };

    ghost invariant = { λ c. IsSetup c.blocks c.quantum };
}

impl Config {
    /// A configuration of `blocks` blocks and `quantum` ticks; `None` where either is out of its range.
    pub fn new(blocks: u32, quantum: u8) -> Option<Config>
        ensures cases { IsSome result ↔ IsSetup blocks quantum }
        ensures value { IfSome result (λ c. (c.blocks ≡ blocks) × (c.quantum ≡ quantum)) }
    {
        if blocks == 0 || blocks > MOST_BLOCKS || quantum == 0 || quantum > MOST_QUANTUM {
            return None;
        }
        Some(Config { blocks, quantum })
    }

    /// The blocks of core.
    pub fn blocks(self) -> u32
        ensures value { result ≡ self.blocks }
        ensures least { 1 ≤ result }
        ensures most { result ≤ MOST_BLOCKS }
    {
        self.blocks
    }

    /// The ticks of a quantum.
    pub fn quantum(self) -> u8
        ensures value { result ≡ self.quantum }
        ensures least { 1 ≤ result }
        ensures most { result ≤ MOST_QUANTUM }
    {
        self.quantum
    }
}
