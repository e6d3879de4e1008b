//! The last steps of a job.
ghost use Rattle.std.specs.Prelude.{IsTrue};

use program_shell::PendingText;
use std::alloc::{AllocError, Global};

/// The lines on the last steps of a job, `most` of them at most.
#[derive(Drop)]
pub struct History {
    most: usize,
    lines: Vec<String>,
    /// The position of the oldest line, once there are as many as are kept: the next line takes its place.
    next: usize,
}

impl History {
    /// No steps yet; `most` is how many are kept.
    pub fn new(alloc: Global, most: usize) -> Self {
        History {
            most,
            lines: Vec::new(alloc),
            next: 0,
        }
    }

    /// Keeps a line, in place of the oldest where there are as many as are kept.
    pub fn keep(&mut self, line: String) -> Result<(), AllocError> {
        if self.lines.len() < self.most {
            self.lines.push(line)?;
            return Ok(());
        }
        if let Some(oldest) = self.lines.get_mut(self.next) {
            *oldest = line;
        }
        self.next = self.next.saturating_add(1);
        if self.next >= self.most {
            self.next = 0;
        }
        Ok(())
    }

    /// Reports the lines, the oldest first.
    pub fn report(&self, errors: &mut PendingText)
        ensures { IsTrue errors.new.is_whole → IsTrue errors.old.is_whole }
    {
        for i in 0..self.lines.len() {
            let position = self.next.saturating_add(i).checked_rem(self.lines.len());
            if let Some(line) = self.lines.get(position.unwrap_or(0)) {
                errors.say(line.as_str());
            }
        }
    }
}
