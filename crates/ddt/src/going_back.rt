//! Commands that go back, and forward again.

ghost use Rattle.std.specs.Prelude.{◌≡◌, ◌≤◌, ◌-◌, IsTrue};
ghost use Rattle.ddt_timeline.specs.Histories.{at_end, everything};
ghost use Rattle.ddt_timeline.specs.Timelines.{steps_in};
ghost use Rattle.ddt_timeline.specs.Views.{history};

use crate::run_ends::say_turn;
use crate::session::Session;
use ddt_commands::CommandError;
use ddt_moves::{last_at, last_write, turn_at};
use ddt_show::refuse;
use ddt_timeline::Timeline;
use word36::Address;

/// Puts the machine where so many steps have been made, and shows what the open job executes next.
fn put_back(session: &mut Session, timeline: &mut Timeline, steps: u64)
    ensures keeps { everything (history timeline.new) ≡ everything (history timeline.old) }
    ensures there { IsTrue session.new.answer.is_whole → steps ≤ steps_in (everything (history timeline.old))
        → steps_in (history timeline.new).past ≡ steps }
{
    session.is_open = false;
    match timeline.put_back(steps) {
        Ok(true) => session.show_next(timeline),
        Ok(false) => {
            let made = timeline.steps();
            refuse(&mut session.answer, CommandError::FewSteps(made));
        }
        Err(_) => session.answer.fail(),
    }
}

/// `.BACK n`: goes n steps back.
pub fn back(session: &mut Session, timeline: &mut Timeline, steps: u64)
    ensures keeps { everything (history timeline.new) ≡ everything (history timeline.old) }
    ensures there { IsTrue session.new.answer.is_whole → steps_in (history timeline.old).past ≤ u64.MAX
        → steps ≤ steps_in (history timeline.old).past
        → steps_in (history timeline.new).past ≡ steps_in (history timeline.old).past - steps }
{
    let made = timeline.steps();
    if steps > made {
        return refuse(&mut session.answer, CommandError::FewSteps(made));
    }
    put_back(session, timeline, made - steps);
}

/// `.BACK TO a`: goes back to where the open job last stood at an address.
pub fn back_to(session: &mut Session, timeline: &mut Timeline, address: u32)
    ensures keeps { everything (history timeline.new) ≡ everything (history timeline.old) }
{
    let Some(address) = Address::try_new(address) else {
        return refuse(&mut session.answer, CommandError::NeverThere);
    };
    match last_at(timeline, session.open, address) {
        Ok(Some(steps)) => put_back(session, timeline, steps),
        Ok(None) => refuse(&mut session.answer, CommandError::NeverThere),
        Err(_) => session.answer.fail(),
    }
}

/// `.BACK WRITE a`: goes back to before the step that last changed a word of the open job, and reports which job that was, and
/// where.
pub fn back_to_write(session: &mut Session, timeline: &mut Timeline, address: u32)
    ensures keeps { everything (history timeline.new) ≡ everything (history timeline.old) }
{
    let steps = match last_write(timeline, session.open, address) {
        Ok(Some(steps)) => steps,
        Ok(None) => return refuse(&mut session.answer, CommandError::NeverWritten),
        Err(_) => return session.answer.fail(),
    };
    match turn_at(timeline, steps) {
        Ok(Some((job, from))) => {
            session.say_address(session.open, address);
            session.answer.say(" was last changed by ");
            say_turn(session, job, from);
            session.answer.end_line();
        }
        Ok(None) => {}
        Err(_) => session.answer.fail(),
    }
    put_back(session, timeline, steps);
}

/// `.FORWARD`: goes to where `.BACK` was typed.
pub fn forward(session: &mut Session, timeline: &mut Timeline)
    ensures { IsTrue session.new.answer.is_whole → history timeline.new ≡ at_end (history timeline.old) }
{
    session.is_open = false;
    match timeline.forward() {
        Ok(()) => session.show_next(timeline),
        Err(_) => session.answer.fail(),
    }
}
