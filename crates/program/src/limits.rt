// What every program keeps to.

/// The most atoms that a program may have.
pub const MAX_ATOMS: usize = 256;

/// The most rules that a program may have.
pub const MAX_RULES: usize = 1_024;

/// What an overfull source answers as its number of rules.
pub const OVERFULL: usize = 1_025;
