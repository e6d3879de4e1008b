//! What was seen along a run.
ghost use Rattle.std.specs.Prelude.{IfOk, string_bytes};
ghost use Rattle.lock_svg.specs.Pictures.{IsRunPicture};

use crate::along::Along;
use crate::svg::svg_of;
use lock_bars::{Column, Course, drawing_of};
use lock_queue::LockTable;
use std::alloc::{AllocError, Global};

/// A run of at most so many ticks has a column for each of them.
const MOST_TICKS: usize = 2_000;

/// A longer run has at most so many columns, for ticks in which the locks may have changed.
const MOST_CHANGES: usize = 5_000;

/// What was seen along a run.
#[derive(Drop)]
pub struct RunCourse {
    /// A column for each of the first ticks.
    ticks: Course,
    /// A column for each tick in which the locks may have changed.
    changes: Course,
}

impl RunCourse {
    /// Nothing seen yet.
    pub fn new(alloc: Global) -> Self {
        RunCourse {
            ticks: Course::new(alloc),
            changes: Course::new(alloc),
        }
    }

    /// Looks at the table that a tick has left. `may_differ` is false where it is as the tick before left
    /// it.
    pub fn look<L: LockTable>(
        &mut self,
        alloc: Global,
        tick: u64,
        may_differ: bool,
        table: &L,
    ) -> Result<(), AllocError> {
        let column = column_of(tick);
        if self.ticks.columns.len() < MOST_TICKS {
            self.ticks.look(alloc, column, table)?;
        }
        if may_differ && self.changes.columns.len() < MOST_CHANGES {
            self.changes.look(alloc, column, table)?;
        }
        Ok(())
    }

    /// The picture of a run of so many ticks, which has left this table.
    pub fn into_svg<L: LockTable>(
        self,
        alloc: Global,
        ticks: u64,
        table: &L,
    ) -> Result<String, AllocError>
        ensures { IfOk result (λ page. IsRunPicture (string_bytes page)) }
    {
        let last = column_of(ticks.saturating_sub(1));
        let mut seen = self.ticks;
        if ticks > MOST_TICKS as u64 {
            seen = self.changes;
            if seen.columns.len() < MOST_CHANGES && seen.columns.last() != Some(&last) {
                seen.look(alloc, last, table)?;
            }
        }
        seen.end_line(alloc, last.line, None, table)?;
        match drawing_of(alloc, seen, None, table) {
            Ok(drawing) => svg_of(alloc, &drawing, Along::Run, b""),
            Err(_) => Err(AllocError),
        }
    }
}

/// The column of a tick.
fn column_of(tick: u64) -> Column {
    Column::of_line(usize::try_from(tick).unwrap_or(usize::MAX))
}
