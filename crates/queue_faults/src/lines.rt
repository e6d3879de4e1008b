//! Lines of a script of `lockmon queue`.

use crate::commands::{Param, Shape, check_param, check_params, params_of};
use crate::fault::{Fault, Range, Reason};
use crate::items::{Item, Items, check_blanks, check_form, is_number};
use queue_script::MOST_HALF;
use script_io::is_silent;
use word36::JOBS;

const JOB: Param = Param::Number(Range {
    name: "a job",
    radix: 10,
    least: 1,
    most: JOBS as u64,
});

const FUNCTION: Param = Param::Number(Range {
    name: "a function",
    radix: 10,
    least: 0,
    most: MOST_HALF,
});

/// A request's id.
const ID: Param = Param::Number(Range {
    name: "an id",
    radix: 10,
    least: 0,
    most: MOST_HALF,
});

/// The commands. What DEQ takes goes by its function.
static COMMANDS: [Shape; 7] = [
    ("ENQ", &[JOB, FUNCTION, ID, Param::Locks]),
    ("DEQ", &[]),
    ("STAT", &[JOB, Param::Locks]),
    ("FREE", &[JOB]),
    ("SHOW", &[]),
    ("WAITS", &[]),
    ("QUIT", &[]),
];

/// Their names.
const NAMES: &str = "ENQ, DEQ, STAT, FREE, SHOW, WAITS and QUIT are";

/// What is wrong with a line.
pub fn fault_of(line: &[u8]) -> Fault<'_> {
    match check(line) {
        Err(fault) => fault,
        Ok(()) => Fault::whole(Reason::Said("not a line of `lockmon queue`")),
    }
}

fn check(line: &[u8]) -> Result<(), Fault<'_>> {
    check_form(line)?;
    if is_silent(line) {
        return Ok(());
    }
    check_blanks(line)?;
    check_command(Item {
        text: line,
        column: 1,
    })
}

/// Checks a command and what it takes.
fn check_command(line: Item<'_>) -> Result<(), Fault<'_>> {
    let mut items = Items::of(line, b' ');
    let name = items.wanted("a command")?;
    let params = params_of(&COMMANDS, NAMES, name)?;
    match name.text {
        b"DEQ" => check_dequeue(&mut items),
        _ => check_params(params, &mut items),
    }
}

/// Checks what follows DEQ: its function says what that is.
fn check_dequeue<'a>(items: &mut Items<'a>) -> Result<(), Fault<'a>> {
    check_param(JOB, items)?;
    let mut ahead = *items;
    check_param(FUNCTION, items)?;
    let function = ahead.next_or_end().text;
    if is_number(function, 10, 1, 1) {
        return items.end();
    }
    if is_number(function, 10, 2, 2) {
        check_param(ID, items)?;
        return items.end();
    }
    check_param(Param::Locks, items)
}
