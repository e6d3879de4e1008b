//! Numbers of terminal lines.

ghost use Rattle.std.specs.Prelude.{◌≡◌, ◌<◌, ◌↔◌, IsSome, IfSome};
ghost use Rattle.word36.specs.declared.sizes.TheConstants.{LINES};

use std::marker::Model;
use word36::LINES;

/// The number of a terminal line, 0 to 63, which contracts see as that number.
#[derive(Clone, Copy, Debug, PartialEq, Eq)]
pub struct LineNumber {
    number: u8,
}

impl Model for LineNumber {
    ghost use Rattle.std.specs.Prelude.{ℕ, ◌<◌};
    ghost use Rattle.word36.specs.declared.sizes.TheConstants.{LINES};

    ghost Value = { ℕ };

    ghost view = { λ line. line.number };

    ghost inverse = { λ n. record { number = n } };

    ghost invariant = { λ line. line.number < LINES };
}

impl LineNumber {
    /// The line of this number.
    pub fn new(number: u8) -> LineNumber
        requires { number < LINES }
        ensures { result ≡ number }
    {
        LineNumber { number }
    }

    /// The line of this number, where there is one: below 64.
    pub fn try_new(number: u8) -> Option<LineNumber>
        ensures variant { IsSome result ↔ (number < LINES) }
        ensures value { IfSome result (λ line. line ≡ number) }
    {
        if number < LINES {
            Some(LineNumber { number })
        } else {
            None
        }
    }

    /// The number of the line.
    pub fn number(self) -> u8
        ensures value { result ≡ self }
        ensures below { result < LINES }
    {
        self.number
    }
}
