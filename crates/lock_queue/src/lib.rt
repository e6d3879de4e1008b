//! The lock queue: keys, wants, requests in order of arrival, the calls on them, and what a lock table does.
#![tactic(auto)]

mod among_wants;
mod call;
mod grant;
mod granting;
mod key;
mod name;
mod pool;
mod refusal;
mod request;
mod rewriting;
mod status;
mod status_steps;
pub mod steps;
mod table;
mod terms;
mod want;

pub use call::{Asking, LockCall, LockReply};
pub use grant::{Grant, Woken};
pub use key::{Key, Scope};
pub use name::{NAME_NUMBERS, Name, NameCharacters, NameText, UserCode};
pub use pool::Pool;
pub use refusal::Refusal;
pub use request::{EnqueueKind, Request, RequestId};
pub use status::Status;
pub use table::{LockTable, run_calls};
pub use terms::{BlockUse, Terms};
pub use want::{Group, Level, Want, Wants};
