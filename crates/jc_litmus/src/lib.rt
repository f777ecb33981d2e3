//! Programs of threads, from text: every outcome that they can have, each with a script that plays it, and the verdicts on the
//! author's expectations.
#![tactic(auto)]

mod answer;
mod atoms;
mod calls;
mod explanation;
mod fault_word;
mod grammar;
mod judge;
pub mod laws;
mod line_error;
mod outcome;
mod program;
mod reading;
mod reply_words;
pub mod run;
mod spelling;
mod unknown_values;
mod witness;
mod word_parts;

pub use program::{
    Atom, Expectation, ITEMS_MAX, LineFault, Litmus, ProgramFault, Quantifier, THREADS_MAX,
};
pub use run::{LitmusEnd, LitmusFault};
