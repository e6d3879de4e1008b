//! What is locked.
ghost use Rattle.std.specs.Prelude.{◌≡◌};
ghost use Rattle.lock_queue.specs.Keys.{same_key};

use crate::Name;

/// Who shares a name: all jobs, or one job has it for itself.
#[derive(Clone, Copy, Debug, PartialEq, Eq)]
pub enum Scope {
    /// All jobs share the name.
    All,
    /// This job has the name for itself.
    Job(u8),
}

/// What is locked: a name within a scope.
#[derive(Clone, Copy, PartialEq, Eq)]
pub struct Key {
    /// Who shares the name.
    pub scope: Scope,
    /// The name.
    pub name: Name,
}

impl Key {
    /// Whether the two are one key.
    pub fn is_same(&self, other: &Key) -> bool
        ensures { result ≡ same_key self.now other.now }
    {
        self == other
    }
}
