//! The names of files that an argument has.

use std::fmt;

/// Why an argument names no files.
#[derive(Clone, Copy, Debug, PartialEq, Eq)]
pub enum NamesFault {
    /// There is no name on one side of a `+`.
    NoName,
    /// There was no memory.
    Memory,
}

impl NamesFault {
    /// What is wrong, in words.
    pub fn words(self) -> &'static str {
        match self {
            NamesFault::NoName => "the name of a file is wanted on each side of a +",
            NamesFault::Memory => "there is no memory",
        }
    }
}

impl fmt::Display for NamesFault {
    fn fmt<W: fmt::Write>(&self, f: &mut fmt::Formatter<W>) -> fmt::Result {
        f.write_str(self.words())
    }
}

/// Adds a name that an argument has.
fn push_name<'a>(names: &mut Vec<&'a str>, name: &'a str) -> Result<(), NamesFault> {
    if name.is_empty() {
        return Err(NamesFault::NoName);
    }
    match names.push(name) {
        Ok(()) => Ok(()),
        Err(_) => Err(NamesFault::Memory),
    }
}

/// Adds the names of files that an argument has, with a `+` between them.
pub fn push_names<'a>(names: &mut Vec<&'a str>, argument: &'a str) -> Result<(), NamesFault> {
    let mut rest = argument;
    for _ in 0..argument.len() {
        let Some((name, others)) = rest.split_once('+') else {
            break;
        };
        push_name(names, name)?;
        rest = others;
    }
    push_name(names, rest)
}
