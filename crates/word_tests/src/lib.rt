//! Tests of the word format: each refusal on the shortest words and at its boundary, the order of the tests, what is shown.
#![tactic(auto)]

#[cfg(test)]
mod build;
#[cfg(test)]
mod refusals;
#[cfg(test)]
mod shows;
