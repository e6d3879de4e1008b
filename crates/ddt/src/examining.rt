//! Addresses that are opened, and quantities that are shown.

ghost use Rattle.std.specs.Prelude.{◌≡◌, ◌++◌, ◌∷◌, [], IfSome, false, true};
ghost use Rattle.ddt_commands.specs.Lines.{retyped_in};
ghost use Rattle.ddt_timeline.specs.Views.{history};
ghost use Rattle.program_shell.specs.Texts.{Adds};
ghost use Rattle.ddt.specs.Obeying.{OpensAt, open_word};
ghost use Rattle.ddt.specs.Showing.{line_in, mask_words, quantity_in};

use crate::session::Session;
use ddt_commands::{CommandError, Opening, OutputMode, Retype};
use ddt_show::{refuse, word_line};
use ddt_timeline::Timeline;
use word36::Word;

/// `a/` and the like: opens an address of the open job, and shows the word there.
pub fn open(session: &mut Session, timeline: &Timeline, address: u32)
    ensures opens { OpensAt session.old session.new address (open_word session.old (history timeline.now) address) }
    ensures says { IfSome (open_word session.old (history timeline.now) address)
        (λ w. IfSome (line_in session.old address w) (λ line. Adds session.old.answer session.new.answer (line ++ (10 ∷ [])))) }
    ensures same { session.new ≡ record session.old {
      here = session.new.here;
      last = session.new.last;
      answer = session.new.answer;
      is_open = session.new.is_open;
      is_mask = session.new.is_mask;
    } }
{
    if !session.show_address(timeline, address) {
        return refuse(&mut session.answer, CommandError::NoWord);
    }
    session.here = address;
    session.is_open = true;
    session.is_mask = false;
}

/// `=`, `_` and `;`: shows the last quantity in a mode.
pub fn show_last(session: &mut Session, mode: OutputMode)
    ensures says { IfSome (quantity_in session.old mode session.old.last)
        (λ text. Adds session.old.answer session.new.answer (text ++ (10 ∷ []))) }
    ensures same { session.new ≡ record session.old { answer = session.new.answer } }
{
    if let Some(job) = session.shown(session.open) {
        let line = word_line(session.alloc, job, session.last, mode);
        session.answer.say_made(line);
    }
}

/// `a[`, `a]` and `a!`: opens an address of the open job, and shows the word there in octal, as an instruction, or not.
pub fn open_as(session: &mut Session, timeline: &Timeline, address: u32, opening: Opening)
    ensures opens { OpensAt session.old session.new address (open_word session.old (history timeline.now) address) }
    ensures mode { session.new.mode ≡ session.old.mode }
{
    let mode = session.mode;
    match opening {
        Opening::Octal => session.mode = OutputMode::Octal,
        Opening::Symbolic => session.mode = OutputMode::Symbolic,
        Opening::Unseen => return open_unseen(session, timeline, address),
    }
    open(session, timeline, address);
    session.mode = mode;
}

/// Opens an address of the open job, and does not show the word there.
fn open_unseen(session: &mut Session, timeline: &Timeline, address: u32)
    ensures opens { OpensAt session.old session.new address (open_word session.old (history timeline.now) address) }
    ensures mode { session.new.mode ≡ session.old.mode }
{
    let Some(word) = timeline.machine().peek(session.open, address) else {
        return refuse(&mut session.answer, CommandError::NoWord);
    };
    session.last = word;
    session.here = address;
    session.is_open = true;
    session.is_mask = false;
}

/// `$M/`: opens the mask of searches, and shows it in octal.
pub fn open_mask(session: &mut Session)
    ensures says { Adds session.old.answer session.new.answer (mask_words session.old.mask) }
    ensures same { session.new
        ≡ record session.old { answer = session.new.answer; last = session.old.mask; is_open = true; is_mask = true } }
{
    let (alloc, mask) = (session.alloc, session.mask);
    session.answer.say_made(format!(in alloc; "$M/ {mask}\n"));
    session.last = mask;
    session.is_open = true;
    session.is_mask = true;
}

/// `$M/ value`: shows the mask of searches, and puts the value there.
pub fn change_mask(session: &mut Session, mask: Word)
    ensures says { Adds session.old.answer session.new.answer (mask_words session.old.mask) }
    ensures same { session.new
        ≡ record session.old { answer = session.new.answer; mask = mask; last = mask; is_open = false; is_mask = true } }
{
    open_mask(session);
    put_mask(session, mask);
}

/// Puts a value in the mask of searches, which is open, and closes it.
pub fn put_mask(session: &mut Session, mask: Word)
    ensures { session.new ≡ record session.old { mask = mask; last = mask; is_open = false } }
{
    session.mask = mask;
    session.last = mask;
    session.is_open = false;
}

/// `value=`, `value_` and `value;`: shows a value in octal, as an instruction, or as text.
pub fn evaluate(session: &mut Session, value: Word, retype: Retype)
    ensures says { IfSome (quantity_in session.old (retyped_in retype) value)
        (λ text. Adds session.old.answer session.new.answer (text ++ (10 ∷ []))) }
    ensures same { session.new ≡ record session.old { answer = session.new.answer; last = value } }
{
    session.last = value;
    show_last(session, retype.mode());
}

/// `.EX a-b`: shows the words from the first address to the last.
pub fn examine(session: &mut Session, timeline: &Timeline, first: u32, last: u32) {
    if last < first {
        return refuse(&mut session.answer, CommandError::WrongOrder);
    }
    for address in first..last.saturating_add(1) {
        if !session.show_address(timeline, address) {
            return refuse(&mut session.answer, CommandError::NoWord);
        }
        session.here = address;
    }
}
