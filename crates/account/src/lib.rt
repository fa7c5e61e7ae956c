//! The account of a program: how many atoms and rules, and each rule in text.
#![tactic(auto)]

pub mod inspect;
pub mod report;
pub mod text;
