//! Why a call on a terminal line is refused.

ghost use Rattle.std.specs.Prelude.{◌≡◌};
ghost use Rattle.tty_lines.specs.Codes.{code_of};

/// Why a call on a terminal line is refused; nothing has changed then.
#[derive(Clone, Copy, Debug, PartialEq, Eq)]
pub enum LineError {
    /// There is no line of that number.
    NoLine,
    /// The line has no room for what should come to it.
    Full,
}

impl LineError {
    /// The number of the refusal: 1 for no line, 2 for no room (this project's profile).
    pub fn code(self) -> u32
        ensures { result ≡ code_of self }
    {
        match self {
            LineError::NoLine => 1,
            LineError::Full => 2,
        }
    }
}
