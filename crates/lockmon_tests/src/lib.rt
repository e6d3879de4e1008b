//! Tests of the ports of the host, which need its calls: they are interrupted, pass few bytes at once, take none, or fail. Ports
//! that fail behind each byte are tested over the built programs.
#![tactic(auto)]

#[cfg(test)]
mod host;
mod lent_hosts;

pub use lent_hosts::{LentReader, LentWriter, Plan};
