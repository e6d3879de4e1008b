//! The exit statuses that every program has.

/// All was done, or the help or the version was asked for and written.
pub const DONE: u8 = 0;

/// The input was refused.
pub const REFUSED: u8 = 1;

/// The arguments were refused.
pub const USAGE: u8 = 2;

/// Reading, writing or memory failed.
pub const FAILED: u8 = 3;
