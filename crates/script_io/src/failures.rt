//! Why a script could not be served to its end.

/// What cut a serving call short.
#[derive(Clone, Copy, PartialEq, Eq, Debug, Drop)]
pub enum ServeFailure {
    /// The reader failed.
    Read,
    /// The writer failed.
    Write,
    /// There was no memory.
    Memory,
}
