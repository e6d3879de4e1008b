//! Tests of the lock queue: its laws on the plain table, and the same calls on both tables, whose answers were worked
//! out by hand.
#![tactic(auto)]

#[cfg(test)]
mod build;
#[cfg(test)]
mod changes;
#[cfg(test)]
mod grants;
#[cfg(test)]
mod laws;
#[cfg(test)]
mod limits;
#[cfg(test)]
mod refusals;
#[cfg(test)]
mod rows;
#[cfg(test)]
mod shows;
#[cfg(test)]
mod told_apart;
#[cfg(test)]
mod two_tables;
#[cfg(test)]
mod walk;
