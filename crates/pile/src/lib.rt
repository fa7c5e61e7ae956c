//! A pile of sources, made step by step.
#![tactic(auto)]

pub mod arguments;
pub mod assemble;
pub mod step;
