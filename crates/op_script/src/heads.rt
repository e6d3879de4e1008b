//! The head of a script: the line with which a recorded one says on which machine it is to be obeyed.
ghost use Rattle.std.specs.Prelude.{◌≡◌, if◌then◌else◌, Some, None};
ghost use Rattle.op_script.specs.Heads.{head_of, is_other, other_text};

use machine::{Config, MOST_QUANTUM};
use script_io::{Parts, number};
use std::fmt;
use word36::MOST_BLOCKS;

/// The machine on which a line says that its script is to be obeyed: `; lockmon run`, followed by `--blocks N` and
/// `--quantum N`, 64 and 1 if they are not given. A script takes this line for a comment.
pub fn head_of(line: &[u8]) -> Option<Config>
    ensures { result ≡ head_of line.now }
{
    let mut items = Parts::of(line, b' ');
    if items.next()? != b";".as_slice()
        || items.next()? != b"lockmon".as_slice()
        || items.next()? != b"run".as_slice()
    {
        return None;
    }
    let mut blocks = 64;
    let mut quantum = 1;
    while let Some(name) = items.next() {
        let value = items.next()?;
        if name == b"--blocks".as_slice() {
            blocks = number(10, u64::from(MOST_BLOCKS), value)? as u32;
        } else if name == b"--quantum".as_slice() {
            quantum = number(10, u64::from(MOST_QUANTUM), value)? as u8;
        } else {
            return None;
        }
    }
    Config::new(blocks, quantum)
}

/// A script is obeyed on another machine than its head says.
#[derive(Clone, Copy)]
pub struct OtherMachine {
    /// The machine of the head.
    pub said: Config,
    /// The machine on which the script is obeyed.
    pub taken: Config,
}

impl OtherMachine {
    /// The two machines, if they are not the same.
    pub fn of(said: Config, taken: Config) -> Option<Self>
        ensures { result ≡ (if is_other said taken then Some (record { said = said; taken = taken }) else None) }
    {
        if said.blocks() == taken.blocks() && said.quantum() == taken.quantum() {
            return None;
        }
        Some(OtherMachine { said, taken })
    }
}

impl fmt::Display for OtherMachine {
    ghost output = { λ o. Some (other_text o.said o.taken) };

    fn fmt<W: fmt::Write>(&self, f: &mut fmt::Formatter<W>) -> fmt::Result {
        let (said_blocks, said_quantum) = (self.said.blocks(), self.said.quantum());
        let (blocks, quantum) = (self.taken.blocks(), self.taken.quantum());
        write!(
            f,
            "the script was made for --blocks {said_blocks} --quantum {said_quantum}, \
            and is obeyed with --blocks {blocks} --quantum {quantum}"
        )
    }
}
