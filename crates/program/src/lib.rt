//! Rules, and the sources that they come from.
#![tactic(auto)]

pub mod lent;
pub mod limits;
pub mod load;
pub mod memory;
pub mod offset;
pub mod refusal;
pub mod rule;
pub mod rules;
pub mod selector;
pub mod source;
pub mod table;
pub mod union;
