//! A run that is recorded, to be obeyed again by `lockmon run`.
ghost use Rattle.std.specs.Prelude.{◌≡◌, ◌≤◌, [], ◌∷◌, Some, None, IfOk, if◌then◌else◌, true};
ghost use Rattle.run_record.specs.Pieces.{rounds as rounds_of};
ghost use Rattle.ten.specs.Events.{AddsEvents, IsScript};
ghost use Rattle.run_record.specs.declared.pieces.TheConstants.{MOST_ROUNDS};

use machine::Config;
use program_files::{ProgramFile, push_programs};
use run_record::{EventSequence, RunEvent, push_end, push_head, push_pieces};
use source_labels::Program;
use std::alloc::{AllocError, Global};

/// The events of a run, where they are recorded.
#[derive(Drop)]
pub struct Recording {
    /// What happened, if it is recorded.
    events: Option<EventSequence>,
    /// The programs, as the script begins with them.
    programs: Vec<u8>,
    /// Whether there was memory for all of it.
    is_whole: bool,
}

impl Recording {
    /// A run in which nothing happened yet, and which is recorded or not.
    pub fn new(alloc: Global, is_recorded: bool) -> Self
        ensures events { result.events ≡ if is_recorded then Some [] else None }
        ensures programs { result.programs.items ≡ [] }
        ensures whole { result.is_whole ≡ true }
    {
        let events = if is_recorded {
            Some(EventSequence::new(alloc))
        } else {
            None
        };
        Recording {
            events,
            programs: Vec::new(alloc),
            is_whole: true,
        }
    }

    /// Takes down the programs of these sources, where the run is recorded.
    pub fn add_programs(&mut self, sources: &[ProgramFile<'_>], programs: &[Program<'_>]) {
        if self.events.is_some() {
            self.is_whole &= push_programs(&mut self.programs, sources, programs).is_ok();
        }
    }

    /// Takes down what happened next, where that is recorded.
    pub fn add(&mut self, event: RunEvent)
        ensures { AddsEvents self.old self.new (event ∷ []) }
    {
        if let Some(events) = &mut self.events {
            self.is_whole &= events.add(event).is_ok();
        }
    }

    /// Takes down so many steps, each with its tick, where that is recorded.
    pub fn add_rounds(&mut self, rounds: u32)
        requires { rounds ≤ MOST_ROUNDS }
        ensures { AddsEvents self.old self.new (rounds_of rounds) }
    {
        if let Some(events) = &mut self.events {
            if rounds > 0 {
                self.is_whole &= events.add_rounds(rounds).is_ok();
            }
        }
    }

    /// The run on a machine of this size as a script, where it is recorded.
    pub fn script(&self, alloc: Global, config: Config) -> Result<Option<Vec<u8>>, AllocError>
        ensures { IfOk result (λ script. IsScript self.now config.blocks config.quantum script) }
    {
        match &self.events {
            None => Ok(None),
            Some(_) if !self.is_whole => Err(AllocError),
            Some(events) => {
                let mut script = Vec::new(alloc);
                push_head(&mut script, config.blocks(), config.quantum())?;
                script.extend_from_slice(self.programs.as_slice())?;
                push_pieces(&mut script, events.pieces())?;
                push_end(&mut script)?;
                Ok(Some(script))
            }
        }
    }
}
