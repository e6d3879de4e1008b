//! The definitions of the machine: the events that can happen to it, its answers, and what can be seen of it.
#![tactic(auto)]

mod config;
mod event;
mod sizes;
mod told;
mod view;

pub use config::Config;
pub use event::{Answer, Event, RefusedEvent};
pub use sizes::{INTERRUPT_CHARACTER, LOGIN_QUOTA, MOST_QUANTUM, MOST_TAKES, VECTOR_WORDS};
pub use told::Told;
pub use uuo_calls::JBREL;
pub use view::JobView;
