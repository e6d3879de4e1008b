//! The sizes of the machine's parts, each named here once (this project's profile).

/// Jobs are numbered from 1 to this number.
pub const JOBS: u8 = 63;

/// Terminal lines are numbered from 0 to one less than this.
pub const LINES: u8 = 64;

/// The number of addresses: they run from 0 to one less than this, 777777 octal.
pub const ADDRESSES: u32 = 0o1_000_000;

/// The words of a block of core.
pub const BLOCK_WORDS: usize = 1024;

/// The most blocks of core that a machine has.
pub const MOST_BLOCKS: u32 = 256;

/// The most requests that a lock table can be made for.
pub const MOST_REQUESTS: usize = 1024;

/// The most locks that one call names.
pub const LOCKS_A_CALL: usize = 16;

/// The most characters of a lock's name.
pub const NAME_LENGTH: usize = 30;

/// The most characters that wait in a line's input ring.
pub const INPUT_RING: usize = 128;

/// The most characters that wait in a line's output ring.
pub const OUTPUT_RING: usize = 512;

/// The most characters that leave an output ring at once.
pub const TAKEN_AT_ONCE: usize = 64;

/// The words that all jobs share.
pub const DATA_WORDS: usize = 1024;
