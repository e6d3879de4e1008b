//! What stands behind the name of a command, by a table of commands.

use crate::fault::{Fault, Range, Reason};
use crate::items::{Item, Items, is_number};
use crate::locks::check_lock;
use script_io::LINE_LENGTH;

/// What a command takes in one position.
#[derive(Clone, Copy)]
pub enum Param {
    /// A number.
    Number(Range),
    /// Any number of locks, up to the end of the line.
    Locks,
    /// A name of 1 to this many letters and digits, and how a sentence calls it.
    Name(usize, &'static str),
    /// One of these texts, and how a sentence lists them.
    OneOf(&'static [&'static str], &'static str),
}

/// A command: its name and what it takes, position by position.
pub type Shape = (&'static str, &'static [Param]);

fn find(commands: &[Shape], name: &[u8]) -> Option<&'static [Param]> {
    for (known, params) in commands {
        if known.as_bytes() == name {
            return Some(*params);
        }
    }
    None
}

/// The fault of a name that no command has.
fn unknown<'a>(commands: &[Shape], names: &'static str, name: Item<'a>) -> Fault<'a> {
    for (known, _) in commands {
        if known.as_bytes().eq_ignore_ascii_case(name.text) {
            let more = "commands are upper case";
            return Fault::at(0, Reason::NoCommand(name.text, more));
        }
    }
    Fault::at(0, Reason::NoCommand(name.text, names))
}

/// What the command of this name takes, or the fault that there is no such command; `names` lists those that there are.
pub fn params_of<'a>(
    commands: &[Shape],
    names: &'static str,
    name: Item<'a>,
) -> Result<&'static [Param], Fault<'a>> {
    match find(commands, name.text) {
        Some(params) => Ok(params),
        None => Err(unknown(commands, names, name)),
    }
}

/// Checks that a number of this range comes next.
fn check_number<'a>(range: Range, items: &mut Items<'a>) -> Result<(), Fault<'a>> {
    let item = items.next_or_end();
    if is_number(item.text, range.radix, range.least, range.most) {
        Ok(())
    } else {
        Err(item.fault(Reason::Number(range, item.text)))
    }
}

/// Checks that a name of at most `most` characters comes next.
fn check_name<'a>(
    most: usize,
    expected: &'static str,
    items: &mut Items<'a>,
) -> Result<(), Fault<'a>> {
    let item = items.wanted(expected)?;
    let name = item.text;
    if !name.is_empty() && name.len() <= most && name.iter().all(|c| c.is_ascii_alphanumeric()) {
        Ok(())
    } else {
        Err(item.expects(expected))
    }
}

/// Checks that one of these texts comes next.
fn check_choice<'a>(
    choices: &[&str],
    expected: &'static str,
    items: &mut Items<'a>,
) -> Result<(), Fault<'a>> {
    let item = items.wanted(expected)?;
    for choice in choices {
        if choice.as_bytes() == item.text {
            return Ok(());
        }
    }
    Err(item.expects(expected))
}

/// Checks the locks up to the end of the line.
fn check_locks<'a>(items: &mut Items<'a>) -> Result<(), Fault<'a>> {
    for _ in 0..=LINE_LENGTH {
        match items.next() {
            None => return Ok(()),
            Some(item) => check_lock(item)?,
        }
    }
    Ok(())
}

/// Checks what stands in one position.
pub fn check_param<'a>(param: Param, items: &mut Items<'a>) -> Result<(), Fault<'a>> {
    match param {
        Param::Number(range) => check_number(range, items),
        Param::Locks => check_locks(items),
        Param::Name(most, expected) => check_name(most, expected, items),
        Param::OneOf(choices, expected) => check_choice(choices, expected, items),
    }
}

/// Checks what a command takes, and that nothing stands behind it.
pub fn check_params<'a>(params: &[Param], items: &mut Items<'a>) -> Result<(), Fault<'a>> {
    for param in params {
        check_param(*param, items)?;
    }
    items.end()
}
