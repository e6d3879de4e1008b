//! All events of a run.
ghost use Rattle.std.specs.Prelude.{◌≡◌, ◌≤◌, ◌++◌, ◌∷◌, [], OnOk};
ghost use Rattle.run_record.specs.Pieces.{events_in, events_of, rounds};
ghost use Rattle.run_record.specs.declared.pieces.TheConstants.{MOST_ROUNDS};

use crate::happened::RunEvent;
use crate::pieces::{MOST_ROUNDS, Piece};
use std::alloc::{AllocError, Global};
use std::marker::Model;

/// All events of a run, in order, by the pieces that a script says.
#[derive(Drop)]
pub struct EventSequence {
    alloc: Global,
    pieces: Vec<Piece>,
}

impl Model for EventSequence {
    ghost use Rattle.std.specs.Prelude.{List};
    ghost use Rattle.run_record.specs.declared.pieces.Piece.{Piece};

    ghost Value = { List Piece };

    ghost view = { λ s. s.pieces.items };
}

impl EventSequence {
    /// A run in which nothing happened yet.
    pub fn new(alloc: Global) -> Self
        ensures { result ≡ [] }
    {
        EventSequence {
            alloc,
            pieces: Vec::new(alloc),
        }
    }

    /// Adds a piece, with the event that happened behind it.
    #[tactic(auto, using(crate::proofs::Events::events_more, std::proofs::Common::append_assoc))]
    fn add_behind(&mut self, mut last: Piece, event: RunEvent) -> Result<(), AllocError>
        ensures { OnOk result (events_in self.new ≡ events_in self.old ++ (events_of last ++ event ∷ [])) }
    {
        let is_joined = last.join(event)?;
        self.pieces.push(last)?;
        if !is_joined {
            self.pieces.push(Piece::of(self.alloc, event)?)?;
        }
        Ok(())
    }

    /// Adds the event that happened next. It fails only where there is no memory, and then a piece may be lost.
    #[tactic(auto, using(crate::proofs::Events::events_more, std::proofs::Common::append_assoc))]
    pub fn add(&mut self, event: RunEvent) -> Result<(), AllocError>
        ensures { OnOk result (events_in self.new ≡ events_in self.old ++ event ∷ []) }
    {
        match self.pieces.pop() {
            Some(last) => self.add_behind(last, event),
            None => {
                self.pieces.push(Piece::of(self.alloc, event)?)?;
                Ok(())
            }
        }
    }

    /// Adds rounds that one command of a script makes. It fails as `add` does.
    #[tactic(auto, using(crate::proofs::Events::events_more, crate::proofs::Events::rounds_alone, std::proofs::Common::append_assoc))]
    fn add_piece(&mut self, count: u32) -> Result<(), AllocError>
        requires { count ≤ MOST_ROUNDS }
        ensures { OnOk result (events_in self.new ≡ events_in self.old ++ rounds count) }
    {
        let mut is_joined = false;
        if let Some(mut last) = self.pieces.pop() {
            is_joined = last.join_rounds(count);
            self.pieces.push(last)?;
        }
        if !is_joined {
            self.pieces.push(Piece::Rounds(count, false))?;
        }
        Ok(())
    }

    /// Adds rounds that were made next, each a step with a tick behind it. It fails as `add` does.
    pub fn add_rounds(&mut self, count: u32) -> Result<(), AllocError>
        ensures { OnOk result (events_in self.new ≡ events_in self.old ++ rounds count) }
    {
        let mut left = count;
        while left > MOST_ROUNDS {
            self.add_piece(MOST_ROUNDS)?;
            left -= MOST_ROUNDS;
        }
        self.add_piece(left)
    }

    /// The pieces of the run.
    pub fn pieces(&self) -> &[Piece]
        ensures { result.now ≡ self.now }
    {
        self.pieces.as_slice()
    }
}
