//! The exit statuses that say how the jobs of a run ended; that of wrong arguments and that of a failure are those of
//! every program.

/// All jobs ended by EXIT, LOGOUT or HALT, or the help or the version was asked for and written.
pub const DONE: u8 = 0;

/// A source was refused, or a job was left waiting, outside a circle, or stopped by CTRL-C.
pub const REFUSED: u8 = 1;

/// Jobs wait for each other's locks in a circle.
pub const CIRCLE: u8 = 4;

/// The run ended after as many steps as it was allowed.
pub const CUT: u8 = 5;

/// The run ended after as many steps as are made where none were asked for.
pub const UNASKED_CUT: u8 = 7;

/// The processor stopped a job: an illegal instruction or address, a pushdown list that ran over, or a
/// chain of addresses without end.
pub const FAULT: u8 = 6;
