//! Pieces of a run: what one command of a script says, or two.
ghost use Rattle.std.specs.Prelude.{◌≡◌, ◌≤◌, ◌≢◌, ◌++◌, ◌∷◌, [], true, false, IfOk};
ghost use Rattle.run_record.specs.declared.happened.RunEvent.TheVariants.{Typed};
ghost use Rattle.run_record.specs.Pieces.{events_of, rounds};

use crate::happened::RunEvent;
use std::alloc::{AllocError, Global};
use tty_lines::Char7;

/// The most steps or ticks that one command of a script makes.
pub const MOST_ROUNDS: u32 = 1_000_000;

/// The most characters that one command types, so that its line, where each of them is written as four, is not too long.
pub const MOST_TYPED: usize = 60;

/// A piece of a run: what one command of a script says, or two.
#[derive(Drop)]
pub enum Piece {
    /// LOGIN: a job begins at a line, with the program of this number.
    Login(u8, u8),
    /// START: a job starts.
    Start(u8),
    /// CONTINUE: a stopped job goes on.
    Continue(u8),
    /// KILL: a job is removed.
    Kill(u8),
    /// RESTART: all jobs are removed.
    Restart,
    /// RUN: so many steps, each followed by a tick; and where it is said so, one step behind them.
    Rounds(u32, bool),
    /// TICK: so many ticks.
    Ticks(u32),
    /// TYPE: characters are typed at a line.
    Typed(u8, Vec<Char7>),
    /// TAKE: all that was put out at a line is taken.
    Take(u8),
}

/// The piece of characters typed at a line that begins with this one.
fn typed_piece(alloc: Global, line: u8, character: Char7) -> Result<Piece, AllocError>
    ensures { IfOk result (λ piece. events_of piece ≡ Typed line character ∷ []) }
{
    let mut text = Vec::new(alloc);
    text.push(character)?;
    Ok(Piece::Typed(line, text))
}

impl Piece {
    /// The piece that begins with an event.
    pub fn of(alloc: Global, event: RunEvent) -> Result<Self, AllocError>
        ensures { IfOk result (λ piece. events_of piece ≡ event ∷ []) }
    {
        Ok(match event {
            RunEvent::Login(line, program) => Piece::Login(line, program),
            RunEvent::Start(job) => Piece::Start(job),
            RunEvent::Continue(job) => Piece::Continue(job),
            RunEvent::Kill(job) => Piece::Kill(job),
            RunEvent::Restart => Piece::Restart,
            RunEvent::Step => Piece::Rounds(0, true),
            RunEvent::Tick => Piece::Ticks(1),
            RunEvent::Typed(line, character) => return typed_piece(alloc, line, character),
            RunEvent::Take(line) => Piece::Take(line),
        })
    }

    /// Takes in the event that happened behind the piece, where one command says both; else the piece stays as it is.
    pub fn join(&mut self, event: RunEvent) -> Result<bool, AllocError>
        ensures joined { IfOk result (λ joined. joined ≡ true → events_of self.new ≡ events_of self.old ++ event ∷ []) }
        ensures apart { IfOk result (λ joined. joined ≡ false → self.new ≡ self.old) }
    {
        match (self, event) {
            (Piece::Rounds(_, stepped), RunEvent::Step) if !*stepped => *stepped = true,
            (Piece::Rounds(rounds, stepped), RunEvent::Tick) if *stepped && *rounds < MOST_ROUNDS =>
                {
                    *rounds += 1;
                    *stepped = false;
                }
            (Piece::Ticks(ticks), RunEvent::Tick) if *ticks < MOST_ROUNDS => *ticks += 1,
            (Piece::Typed(line, text), RunEvent::Typed(at, character))
                if *line == at && text.len() < MOST_TYPED => {
                text.push(character)?;
            }
            _ => return Ok(false),
        }
        Ok(true)
    }

    /// Takes in rounds that were made behind the piece, where one command says both; else the piece stays as it is.
    pub fn join_rounds(&mut self, count: u32) -> bool
        requires { count ≤ MOST_ROUNDS }
        ensures joined { result ≡ true → events_of self.new ≡ events_of self.old ++ rounds count }
        ensures apart { result ≡ false → self.new ≡ self.old }
    {
        match self {
            Piece::Rounds(made, stepped) if !*stepped && *made <= MOST_ROUNDS - count => {
                *made += count;
                true
            }
            _ => false,
        }
    }
}
