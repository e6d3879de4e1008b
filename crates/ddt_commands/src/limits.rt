//! The limits of values, which are those of the assemblers.

ghost use Rattle.std.specs.Prelude.{◌≡◌, ◌<◌, IfOk};
ghost use Rattle.ddt_commands.specs.Values.{bits_in, size_of};

use crate::line_errors::LineError;

/// What a number has to be.
#[derive(Clone, Copy)]
pub enum Limit {
    /// A word.
    Word,
    /// Half a word.
    Half,
    /// The address of an instruction.
    Address,
    /// An accumulator.
    Accumulator,
    /// An index register.
    Index,
}

impl Limit {
    /// The bits of a number that is within the limit, of which a negative one has as many as a word or half of one has.
    pub fn bits(self, number: i64) -> Result<u64, LineError>
        ensures value { result ≡ bits_in self number }
        ensures below { IfOk result (λ bits. bits < size_of self) }
    {
        let (least, most, size) = match self {
            Limit::Word => (-(1 << 35), (1 << 36) - 1, 1 << 36),
            Limit::Half | Limit::Address => (-0o777_777, 0o777_777, 0o1_000_000),
            Limit::Accumulator | Limit::Index => (0, 0o17, 0o20),
        };
        if number < least || number > most {
            return Err(LineError::Beyond(self));
        }
        Ok(number.rem_euclid(size) as u64)
    }

    /// What it is, in words.
    pub fn text(self) -> &'static str {
        match self {
            Limit::Word => "? a word is -2^35 to 2^36-1",
            Limit::Half => "? half a word is -777777 to 777777, in octal",
            Limit::Address => "? the address of an instruction is -777777 to 777777, in octal",
            Limit::Accumulator => "? an accumulator is 0 to 17, in octal",
            Limit::Index => "? an index register is 0 to 17, in octal",
        }
    }
}
