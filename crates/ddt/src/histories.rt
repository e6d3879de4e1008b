//! The last turns of a job.

use crate::session::Session;
use ddt_commands::{CommandError, OutputMode};
use ddt_moves::{Replay, last_turns, next_instruction};
use ddt_show::{ShownJob, address_line, refuse};
use ddt_timeline::Timeline;
use program_shell::PendingText;
use std::alloc::Global;

/// Adds a line on each turn of a job in the steps of a replay that are still to be made: the PC before it, and the instruction.
fn say_turns(alloc: Global, replay: &mut Replay<'_>, job: &ShownJob, answer: &mut PendingText) {
    for _ in 0..u64::MAX {
        if !replay.go_before_step() {
            return;
        }
        let next = next_instruction(replay.machine(), job.number);
        let ran = replay.step();
        if ran == Some(job.number) {
            if let Some((address, word)) = next {
                answer.say_made(address_line(alloc, job, address, word, OutputMode::Symbolic));
                answer.end_line();
            }
        }
    }
}

/// Adds a line on each turn of the open job behind so many steps.
fn say_turns_from(session: &mut Session, timeline: &Timeline, steps: u64) {
    let position = usize::from(session.open).saturating_sub(1);
    let Some(job) = session.jobs.as_slice().get(position) else {
        return;
    };
    match Replay::of(timeline) {
        Ok(mut replay) => {
            replay.skip_to(steps);
            say_turns(session.alloc, &mut replay, &job.shown, &mut session.answer);
            replay.end();
        }
        Err(_) => session.answer.fail(),
    }
}

/// `.HISTORY n`: shows the last turns of the open job, `most` at most.
pub fn show_history(session: &mut Session, timeline: &Timeline, most: u32) {
    match last_turns(timeline, session.open, most as usize) {
        Ok(turns) => match turns.first() {
            Some(first) => say_turns_from(session, timeline, first),
            None => refuse(&mut session.answer, CommandError::NoTurns),
        },
        Err(_) => session.answer.fail(),
    }
}
