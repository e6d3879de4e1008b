//! The columns of a picture.
ghost use Rattle.std.specs.Prelude.{◌≡◌, Some};
ghost use Rattle.lock_bars.specs.Columns.{column_text};

use std::fmt;

/// A column: a line of the script, or one tick of a line that runs several.
#[derive(Clone, Copy, PartialEq, Eq, Debug, Drop)]
pub struct Column {
    /// The line, counted from 1.
    pub line: usize,
    /// Which tick of the line it is, counted from 1, or 0 where the line is one column.
    pub tick: usize,
}

impl Column {
    /// The column of a whole line.
    pub fn of_line(line: usize) -> Self
        ensures { result ≡ record { line = line; tick = 0 } }
    {
        Column { line, tick: 0 }
    }
}

impl fmt::Display for Column {
    ghost output = { λ c. Some (column_text c) };

    fn fmt<W: fmt::Write>(&self, f: &mut fmt::Formatter<W>) -> fmt::Result {
        let (line, tick) = (self.line, self.tick);
        if tick > 0 {
            write!(f, "{line} (tick {tick})")
        } else {
            write!(f, "{line}")
        }
    }
}
