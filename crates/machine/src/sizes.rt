//! Sizes and numbers of the machine as a whole.

use word36::{OUTPUT_RING, TAKEN_AT_ONCE};

/// The most ticks of a quantum (this project's profile).
pub const MOST_QUANTUM: u8 = 60;

/// How many requests for locks a new job may have, where the lock table holds so many (this project's
/// profile).
pub const LOGIN_QUOTA: u16 = 64;

/// How many Take events of 64 characters empty the output of a line that is full; the last finds nothing.
pub const MOST_TAKES: usize = OUTPUT_RING / TAKEN_AT_ONCE + 1;

/// CTRL-C, which stops the job of the line at which it is typed.
pub const INTERRUPT_CHARACTER: u8 = 3;

/// The words of an interrupt vector.
pub const VECTOR_WORDS: u32 = 4;
