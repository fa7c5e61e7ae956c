//! Programs in the word format.
#![tactic(auto)]

pub mod bytes;
pub mod check;
pub mod shown;
pub mod word;
pub mod words;
pub mod write;
