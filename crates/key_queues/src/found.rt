//! The result of looking a key up.

/// The result of looking a key up: its hash, and the number of its lock in use, if there is one.
#[derive(Clone, Copy, Default)]
pub struct Found {
    /// The hash of the key.
    pub hash: u16,
    /// The number of its lock in use, if there is one.
    pub number: Option<u16>,
}
