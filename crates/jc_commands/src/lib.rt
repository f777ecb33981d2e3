//! The command line of the program `jcache`: the words that are right, and their tasks.
#![tactic(auto)]

pub mod budget;
pub mod checking;
pub mod commands;
pub mod plan;
