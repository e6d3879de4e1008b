//! The texts that are being read.

ghost use Rattle.std.specs.Prelude.{◌≡◌};
ghost use Rattle.macro_stream.specs.Standing.{closes};

use crate::texts::Range;
use macro_names::Name;

/// What put a text in front.
#[derive(Clone, Copy, PartialEq, Eq)]
pub enum Kind {
    /// The source, or a true condition that stands in it.
    Source,
    /// The body of a macro.
    Macro,
    /// An argument.
    Argument,
    /// A true condition.
    Condition,
    /// A round of REPEAT.
    Repeat,
    /// A round of IRP or IRPC.
    Elements,
}

impl Kind {
    /// Whether a line end comes behind a text that has none: behind all but the body of a macro.
    pub fn closes(self) -> bool
        ensures { result ≡ closes self }
    {
        match self {
            Kind::Macro => false,
            Kind::Source | Kind::Argument | Kind::Condition | Kind::Repeat | Kind::Elements => true,
        }
    }
}

/// The rounds that a text still has.
#[derive(Clone, Copy)]
pub enum Rounds {
    /// None.
    None,
    /// This number of repetitions.
    Count(u64),
    /// One for each of these texts, which stands for a dummy.
    List {
        /// The next of the texts.
        next: usize,
        /// The text behind the last.
        end: usize,
        /// The dummy.
        dummy: u32,
        /// The arguments outside, as `keep_outside` keeps them.
        outer: usize,
    },
}

/// The arguments that marks stand for.
#[derive(Clone, Copy)]
pub enum Arguments {
    /// Those of a call: so many texts from one on.
    Call {
        /// The first.
        start: usize,
        /// How many.
        count: u32,
    },
    /// Those of a round: one dummy stands for an element, all others for what they do outside.
    Round {
        /// The arguments outside, as `keep_outside` keeps them.
        outer: usize,
        /// The dummy.
        dummy: u32,
        /// Its element.
        element: Range,
    },
}

/// A text that is being read.
#[derive(Clone, Copy)]
pub struct Frame {
    /// What put it there.
    pub kind: Kind,
    /// The name of that.
    pub name: Name,
    /// The text.
    pub range: Range,
    /// The next item.
    pub position: usize,
    /// The line of the text, or of the source where it stands in the source. In an argument it is that of its mark.
    pub line: u32,
    /// The column of the source where it stands in the source.
    pub column: u32,
    /// The arguments that its marks stand for.
    pub arguments: Arguments,
    /// Whether a line end is still to come behind the last item.
    pub end_due: bool,
    /// The rounds that it still has.
    pub rounds: Rounds,
    /// The line and the column of the source at which the outermost text around it was put in front.
    pub origin: (u32, u32),
    /// How many of the texts up to this one are named around a place: 0 in the source.
    pub named: u32,
    /// The index of the text around it, in the list that the stream keeps.
    pub outer: usize,
}
