//! Tests of turns in any order: small programs, moved by every list of moves.
#![tactic(auto)]

#[cfg(test)]
mod begun;
#[cfg(test)]
mod moves;
#[cfg(test)]
mod sources;
