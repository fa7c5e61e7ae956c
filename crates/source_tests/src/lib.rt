//! Tests of the sources: what each answers, and where it becomes overfull.
#![tactic(auto)]

#[cfg(test)]
mod build;
#[cfg(test)]
mod piles;
#[cfg(test)]
mod sources;
