//! Tests of a search by its trait alone, on a counter; of `lockcheck` beside a walk that keeps every order of arrival; and of core
//! images without the words that are 0. All else of `ten`, `lockcheck` and `image` is shown by runs of the programs.
#![tactic(auto)]

#[cfg(test)]
mod packings;
#[cfg(test)]
mod plain_walk;
#[cfg(test)]
mod searches;
