//! Lines of a script of `lockmon run`.

use crate::commands::{COMMANDS, LINE, NAMES};
use queue_faults::{
    Fault, Item, Items, Reason, check_blanks, check_form, check_param, check_params, params_of,
};
use script_io::is_silent;

/// What is wrong with a line. A refused line that is in the grammar is a LOGIN of an image that is not there.
pub fn fault_of(line: &[u8]) -> Fault<'_> {
    match check(line) {
        Err(fault) => fault,
        Ok(()) => match line.strip_prefix(b"LOGIN ".as_slice()) {
            Some(rest) => no_image(rest),
            None => Fault::whole(Reason::Said("not a line of `lockmon run`")),
        },
    }
}

/// The fault of a LOGIN whose image is not there; `rest` is what follows `LOGIN `.
fn no_image(rest: &[u8]) -> Fault<'_> {
    let name = Item {
        text: rest,
        column: 7,
    };
    match name.cut(b' ') {
        (_, Some(name)) => name.is("is the name of no image: ASSEMBLE makes one"),
        (line, None) => line.expects("a terminal line and an image"),
    }
}

const ENDASM: &str = "ENDASM stands behind the lines of a source, which ASSEMBLE begins";

fn check(line: &[u8]) -> Result<(), Fault<'_>> {
    check_form(line)?;
    if is_silent(line) {
        return Ok(());
    }
    if let Some(rest) = line.strip_prefix(b"TYPE ".as_slice()) {
        return check_typed(Item {
            text: rest,
            column: 6,
        });
    }
    if line == b"ENDASM".as_slice() {
        return Err(Fault::whole(Reason::Said(ENDASM)));
    }
    check_blanks(line)?;
    check_command(Item {
        text: line,
        column: 1,
    })
}

/// Checks a command and what it takes.
fn check_command(line: Item<'_>) -> Result<(), Fault<'_>> {
    let mut items = Items::of(line, b' ');
    let name = items.wanted("a command")?;
    let params = params_of(&COMMANDS, NAMES, name)?;
    check_params(params, &mut items)
}

/// Checks what follows `TYPE `: a terminal line and a text, whose spaces count.
fn check_typed(item: Item<'_>) -> Result<(), Fault<'_>> {
    let (line, text) = item.cut(b' ');
    check_param(LINE, &mut Items::of(line, b' '))?;
    let end = Item {
        text: &[],
        column: line.column.saturating_add(line.text.len()),
    };
    let text = text.unwrap_or(end);
    if text.text.is_empty() {
        return Err(text.expects(TEXT));
    }
    check_text(text)
}

const TEXT: &str = "a text behind one space";

const BACKSLASH: &str =
    "behind a backslash stands n, r, e, a backslash or three octal digits to 177";

/// Checks the backslashes of a text.
fn check_text(item: Item<'_>) -> Result<(), Fault<'_>> {
    let mut rest = item;
    for _ in 0..item.text.len() {
        let (_, behind) = rest.cut(b'\\');
        let Some(behind) = behind else {
            return Ok(());
        };
        let Some(length) = escape_len(behind.text) else {
            let column = behind.column.saturating_sub(1);
            return Err(Fault::at(column, Reason::Said(BACKSLASH)));
        };
        rest = behind.after(length);
    }
    Ok(())
}

/// How many bytes stand for one character with the backslash before them.
fn escape_len(text: &[u8]) -> Option<usize> {
    match text {
        [b'n' | b'r' | b'e' | b'\\', ..] => Some(1),
        [b'0' | b'1', b'0'..=b'7', b'0'..=b'7', ..] => Some(3),
        _ => None,
    }
}
