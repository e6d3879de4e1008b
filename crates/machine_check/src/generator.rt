//! Numbers that look random and repeat.

ghost use Rattle.std.specs.Prelude.{◌<◌, ◌≤◌};

use word36::Word;

/// A generator of 48 bits, whose next number is the last one times 25214903917, plus 11.
#[derive(Clone, Copy)]
pub struct Generator {
    last: u64,
}

impl Generator {
    /// A generator that begins with this number.
    pub fn new(seed: u64) -> Self {
        Generator { last: seed }
    }

    /// The next number, of 36 bits: the low 12 of the 48, which repeat soonest, are left out.
    fn next(&mut self) -> u64 {
        self.last = self.last.wrapping_mul(25_214_903_917).wrapping_add(11) % (1 << 48);
        self.last >> 12
    }

    /// The next word.
    pub fn word(&mut self) -> Word {
        Word::low_bits(self.next())
    }

    /// One of so many numbers, from 0 on.
    pub fn below(&mut self, many: u32) -> u32
        requires { 1 ≤ many }
        ensures { result < many }
    {
        (self.next() % u64::from(many)) as u32
    }
}
