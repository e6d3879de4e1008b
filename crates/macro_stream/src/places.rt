//! Places of a source, and the texts around them.

use macro_names::Name;

/// A text around a place: the name of what put it there, the line of it, and the text around that.
#[derive(Clone, Copy)]
pub struct Around {
    /// The macro, condition or repetition.
    pub name: Name,
    /// The line, from 1.
    pub line: u32,
    /// The index of the text around it, in the list that the stream keeps (`Stream::around`).
    pub outer: usize,
}

/// A place: line and column of the source, from 1, and the texts around it.
#[derive(Clone, Copy)]
pub struct Place {
    /// The line.
    pub line: u32,
    /// The column, in bytes.
    pub column: u32,
    /// How many texts are around it.
    pub texts: u32,
    /// The innermost of them, where there is one.
    pub around: Around,
}

impl Place {
    /// A place in the source itself.
    pub fn new(line: u32, column: u32) -> Place {
        Place {
            line,
            column,
            texts: 0,
            around: Around {
                name: Name::of_sixbit(0),
                line: 0,
                outer: 0,
            },
        }
    }
}
