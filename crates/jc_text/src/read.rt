//! Lines, read: their words, what they ask for, and where in its line a fault is.

pub(crate) mod commands;
pub(crate) mod distinct_pairs;
pub mod grammar;
pub mod keys;
pub mod line;
pub(crate) mod pairs;
pub(crate) mod place;
pub(crate) mod process_words;
pub mod words;
