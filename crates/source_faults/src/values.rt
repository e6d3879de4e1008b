//! The limits of values.

/// What a value has to be.
#[derive(Clone, Copy, Debug, PartialEq, Eq)]
pub enum Limit {
    /// An accumulator.
    Accumulator,
    /// An index register.
    Index,
    /// An address.
    Address,
    /// Half a word.
    Half,
    /// A word.
    Word,
    /// The size of a byte.
    Size,
    /// The bit that a byte pointer names.
    Bit,
    /// What LOC and BLOCK take.
    Place,
    /// A radix.
    Radix,
    /// A start.
    Start,
    /// A character of SIXBIT, in upper case.
    Sixbit,
}

impl Limit {
    /// The least number and the greatest.
    fn range(self) -> (i64, i64) {
        match self {
            Limit::Accumulator | Limit::Index => (0, 0o17),
            Limit::Address | Limit::Half => (-0o777777, 0o777777),
            Limit::Word => (-(1 << 35), (1 << 36) - 1),
            Limit::Size => (0, 36),
            Limit::Bit => (0, 35),
            Limit::Place => (0, i64::MAX - 1),
            Limit::Radix => (2, 10),
            Limit::Start => (0, 0o777777),
            Limit::Sixbit => (0o40, 0o137),
        }
    }

    /// Whether a number is within it.
    pub fn holds(self, number: i64) -> bool {
        let (least, most) = self.range();
        least <= number && number <= most
    }

    /// What it is, in words.
    pub fn words(self) -> &'static str {
        match self {
            Limit::Accumulator => "an accumulator is 0 to 17 (octal)",
            Limit::Index => "an index register is 0 to 17 (octal)",
            Limit::Address => "an address is -777777 to 777777 (octal)",
            Limit::Half => "half a word is -777777 to 777777 (octal)",
            Limit::Word => "a word is -2^35 to 2^36-1",
            Limit::Size => "the size of a byte is 0 to 36 (decimal)",
            Limit::Bit => "the bit of a byte is 0 to 35 (decimal)",
            Limit::Place => "LOC and BLOCK take 0 or more",
            Limit::Radix => "RADIX takes 2 to 10 (decimal)",
            Limit::Start => "the start is 0 to 777777 (octal)",
            Limit::Sixbit => "SIXBIT has space to \"_\"",
        }
    }
}
