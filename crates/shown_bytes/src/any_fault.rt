//! What is wrong with a line, and where.
ghost use Rattle.std.specs.Prelude.{◌≤◌, ◌+◌};

use std::fmt;

/// What is wrong with a line of some language, which has its own reasons.
#[derive(Clone, Copy)]
pub struct FaultOf<R> {
    /// Its column, counted from 1, or 0 if it has none.
    pub column: usize,
    /// What it is.
    pub reason: R,
}

impl<R> FaultOf<R> {
    /// A fault at a column.
    pub fn at(column: usize, reason: R) -> Self {
        FaultOf { column, reason }
    }

    /// A fault of the whole line.
    pub fn whole(reason: R) -> Self {
        FaultOf { column: 0, reason }
    }

    /// The fault with its column limited to a line of `length` bytes or just behind it.
    pub fn within(self, length: usize) -> Self
        ensures { result.column ≤ length + 1 }
    {
        let column = self.column.min(length.saturating_add(1));
        FaultOf { column, ..self }
    }
}

impl<R: fmt::Display> fmt::Display for FaultOf<R> {
    fn fmt<W: fmt::Write>(&self, f: &mut fmt::Formatter<W>) -> fmt::Result {
        let (column, reason) = (self.column, &self.reason);
        if column > 0 {
            write!(f, "column {column}: {reason}")
        } else {
            write!(f, "{reason}")
        }
    }
}
