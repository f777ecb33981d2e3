//! The number of states of a program of threads that an exploration follows.

/// The most states that a command line may ask for.
pub const STATES_MAX: u32 = 1_000_000;

/// The number of states if the command line has none.
pub const STATES_DEFAULT: u32 = 200_000;
