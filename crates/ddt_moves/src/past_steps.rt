//! Searches in the steps that were made.

ghost use Rattle.std.specs.Prelude.{◌≡◌, ◌≤◌, ◌∷◌, ◌++◌, [], IfOk, OnOk, length, not, slice_get};
ghost use Rattle.ddt_timeline.specs.Stops.{is_word};
ghost use Rattle.ddt_timeline.specs.Views.{history};
ghost use Rattle.ddt_moves.specs.Replays.{IsLastIn, changes, machine_in, newer, steps_made, stood, to_come};
ghost use Rattle.ddt_moves.specs.Turns.{kept, last_of, states_before, turns_from, turns_in};

use crate::replays::Replay;
use crate::turns::is_job;
use ddt_timeline::{Timeline, stands_at};
use std::alloc::{AllocError, Global};
use std::collections::VecDeque;
use word36::{Address, Word};

/// A number in place of an earlier one, where something held.
fn newer(holds: bool, steps: u64, last: Option<u64>) -> Option<u64>
    ensures { result ≡ newer holds steps last }
{
    if holds { Some(steps) } else { last }
}

/// Whether a word is no longer what it was, or is gone, or there now.
fn is_changed(was: Option<Word>, word: Option<Word>) -> bool
    ensures { result ≡ not (is_word word was) }
{
    match (word, was) {
        (Some(word), Some(was)) => word != was,
        (None, None) => false,
        _ => true,
    }
}

/// How many steps were made before the last one before which a job stood at an address, and was not stopped; `None` where there
/// is none.
pub fn last_at(timeline: &Timeline, job: u8, address: Address) -> Result<Option<u64>, AllocError>
    ensures { IfOk result (λ last. IsLastIn (stood job address) (history timeline.now) last) }
{
    let mut replay = Replay::of(timeline)?;
    let mut last = None;
    while replay.go_before_step() {
        last = newer(
            stands_at(replay.machine(), job, address),
            replay.steps(),
            last,
        );
        replay.step();
    }
    replay.end();
    Ok(last)
}

/// How many steps were made before the last one that changed the word of a job at an address; `None` where none did.
pub fn last_write(timeline: &Timeline, job: u8, address: u32) -> Result<Option<u64>, AllocError>
    ensures { IfOk result (λ last. IsLastIn (changes job address) (history timeline.now) last) }
{
    let mut replay = Replay::of(timeline)?;
    let mut last = None;
    while replay.go_before_step() {
        let (steps, word) = (replay.steps(), replay.machine().peek(job, address));
        replay.step();
        last = newer(
            is_changed(word, replay.machine().peek(job, address)),
            steps,
            last,
        );
    }
    replay.end();
    Ok(last)
}

/// The last turns of a job: how many steps were made before each, the oldest first.
#[derive(Drop)]
pub struct Turns {
    steps: VecDeque<u64>,
}

impl Turns {
    /// How many steps were made before the first of them, if there are any.
    pub fn first(&self) -> Option<u64>
        ensures { result ≡ slice_get (kept self.now) 0 }
    {
        self.steps.front().copied()
    }

    /// Adds a turn, and lets the oldest go where there are more than `most`.
    fn keep(&mut self, most: usize, steps: u64) -> Result<(), AllocError>
        requires { length (kept self.old) ≤ most }
        ensures { OnOk result (kept self.new ≡ last_of most (kept self.old ++ steps ∷ [])) }
    {
        self.steps.push_back(steps)?;
        if self.steps.len() > most {
            self.steps.pop_front();
        }
        Ok(())
    }
}

/// The last turns of a job, `most` at most; none where that is 0.
pub fn last_turns(timeline: &Timeline, job: u8, most: usize) -> Result<Turns, AllocError>
    ensures { IfOk result (λ turns. kept turns ≡ last_of most (turns_in (history timeline.now) job)) }
{
    let mut replay = Replay::of(timeline)?;
    let turns = turns_of(timeline.alloc(), &mut replay, job, most);
    replay.end();
    turns
}

/// The last turns of a job in the steps of a replay that are still to be made, `most` at most.
fn turns_of(
    alloc: Global,
    replay: &mut Replay<'_>,
    job: u8,
    most: usize,
) -> Result<Turns, AllocError>
    ensures { IfOk result (λ turns. kept turns
        ≡ last_of most (turns_from job (steps_made replay.old) (states_before (to_come replay.old) (machine_in replay.old)))) }
{
    let mut turns = Turns {
        steps: VecDeque::new(alloc),
    };
    while replay.go_before_step() {
        let steps = replay.steps();
        if is_job(replay.step(), job) {
            turns.keep(most, steps)?;
        }
    }
    Ok(turns)
}
