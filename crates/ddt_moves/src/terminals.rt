//! What is typed at the terminals, and what jobs type out.

ghost use Rattle.std.specs.Prelude.{◌≡◌, ◌++◌, IfOk, OnOk, not};
ghost use Rattle.machine.specs.declared.sizes.TheConstants.{MOST_TAKES};
ghost use Rattle.ddt_timeline.specs.Views.{history};
ghost use Rattle.ddt_moves.specs.Terminals.{finds_no_room, line_has_room, taken_text, takes, typed_byte, typed_line};

use ddt_timeline::{Entry, Timeline};
use machine::MOST_TAKES;
use monitor::{Answer, RefusedEvent};
use std::alloc::AllocError;
use tty_lines::Char7;
use word36::TAKEN_AT_ONCE;

/// Types a byte at a line; one above 177 octal is passed over. False where the line has no room.
#[tactic(auto, unfolding(crate::specs::Terminals::finds_no_room, crate::specs::Terminals::typed_byte))]
fn type_byte(timeline: &mut Timeline, line: u8, byte: u8) -> Result<bool, AllocError>
    ensures happened { OnOk result (history timeline.new ≡ typed_byte line byte (history timeline.old)) }
    ensures room { IfOk result (λ has_room. has_room ≡ not (finds_no_room line byte (history timeline.old))) }
{
    let Some(character) = Char7::try_new(byte) else {
        return Ok(true);
    };
    match timeline.make(Entry::Typed(line, character))? {
        Answer::Refused(RefusedEvent::Full) => Ok(false),
        _ => Ok(true),
    }
}

/// Types a text and RETURN, which is CR and LF, at a line; false where the line has no room for all of it.
pub fn type_line(timeline: &mut Timeline, line: u8, typed: &[u8]) -> Result<bool, AllocError>
    ensures happened { OnOk result (history timeline.new ≡ typed_line line typed.now (history timeline.old)) }
    ensures room { IfOk result (λ has_room. has_room ≡ line_has_room line typed.now (history timeline.old)) }
{
    for byte in typed {
        if !type_byte(timeline, line, *byte)? {
            return Ok(false);
        }
    }
    if !type_byte(timeline, line, b'\r')? {
        return Ok(false);
    }
    type_byte(timeline, line, b'\n')
}

/// Takes the output of a line, and adds it to these bytes.
pub fn take_line(timeline: &mut Timeline, line: u8, bytes: &mut Vec<u8>) -> Result<(), AllocError>
    ensures happened { OnOk result (history timeline.new ≡ takes MOST_TAKES line (history timeline.old)) }
    ensures text { OnOk result (bytes.new.items ≡ bytes.old.items ++ taken_text MOST_TAKES line (history timeline.old)) }
{
    for _ in 0..MOST_TAKES {
        let Answer::Text(taken) = timeline.make(Entry::Take(line))? else {
            break;
        };
        if taken.as_slice().is_empty() {
            break;
        }
        for character in taken.as_slice() {
            bytes.push(character.number())?;
        }
    }
    Ok(())
}
