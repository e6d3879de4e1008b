//! A lock table with the grants of its last call, driven by values that C can pass.
#![tactic(auto)]

mod codes;
mod filling;
mod laws;
mod locks;
mod readings;
mod runs;
mod spelling;

pub use codes::{BAD_JOB, BUSY, NO_MEMORY, NO_TABLE, OK, WAITS};
pub use locks::Locks;
pub use readings::{LockGrant, LockRequest, LockStatus};
pub use runs::{Answer, ServiceCall, tables_agree};
pub use spelling::LockTerms;
