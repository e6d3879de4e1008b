//! What a name may be defined as.

use macro_names::Name;
use macro_stream::Range;

/// How a symbol is defined.
#[derive(Clone, Copy, PartialEq, Eq)]
pub enum DefinitionKind {
    /// By a colon.
    Label,
    /// By `#`.
    Variable,
    /// By `=`.
    Assigned,
}

/// A symbol.
#[derive(Clone, Copy)]
pub struct Definition {
    /// How it is defined.
    pub kind: DefinitionKind,
    /// Its value, where it is known.
    pub value: Option<i64>,
    /// Whether a label or the place is in its value.
    pub placed: bool,
    /// Whether it is defined more than once.
    pub multiple: bool,
    /// Whether its place is one of PHASE.
    pub phased: bool,
    /// Whether the debugger writes its value by it: it was assigned last by one `=`. `==` keeps it from that.
    pub shown: bool,
    /// The pass that defined it last.
    pub pass: u8,
}

/// What a name of an operation means by the source.
#[derive(Clone, Copy)]
pub enum Meaning {
    /// The macro of this number.
    Macro(usize),
    /// An operation, by OPDEF: the number of its word, where it is known.
    Opdef(Option<u64>),
    /// What this name is built in as, by SYN.
    Synonym(Name),
}

/// A dummy of a macro.
#[derive(Clone, Copy)]
pub struct Dummy {
    /// Its name.
    pub name: Name,
    /// What it stands for where the call has no argument.
    pub default: Option<Range>,
    /// Whether a name is created for it where the call has no argument.
    pub created: bool,
}

/// A macro: its dummies, so many of a list from one on, and its body.
#[derive(Clone, Copy)]
pub struct MacroDefinition {
    /// The first dummy.
    pub first: usize,
    /// How many there are.
    pub count: usize,
    /// The body.
    pub body: Range,
}
