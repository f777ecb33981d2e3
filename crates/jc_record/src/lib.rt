//! A record of calls that a cache answered, as text: the calls at each key, the verdict on each, and the answer as text.
#![tactic(auto)]

mod answer;
mod at_key;
mod details;
mod index;
mod input;
mod judge;
mod names;
mod note;
mod open_calls;
mod part;
mod part_begin;
mod part_lines;
mod reading;
pub mod run;
mod run_words;
mod told;

pub use details::REASONS_MAX;
pub use input::RECORD_MAX;
pub use judge::{Asked, LISTED_MAX, PART_NODES, PART_WORK, PARTS_MAX};
pub use run::{CheckFault, RecordEnd};
