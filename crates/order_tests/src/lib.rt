//! Tests of every order of small programs.
#![tactic(auto)]

#[cfg(test)]
mod begun;
#[cfg(test)]
mod compared;
#[cfg(test)]
mod counts;
#[cfg(test)]
mod drawn;
#[cfg(test)]
mod ends;
#[cfg(test)]
mod reasons;
#[cfg(test)]
mod single_turns;
