//! The progress of a search, on a terminal.
ghost use Rattle.std.specs.Prelude.{None};

use jc_explore::Watch;
use std::io::Write;

/// The number of states after which the line is written again: a few times a second.
const STATES: u64 = 4096;

/// The text that is finally written over the line: 60 spaces. The line has at most 49 letters, since at most 1,000,000 states are
/// followed, with at most 88 moves each.
const BLANK: &str = "\r                                                            \r";

/// A line on a terminal with the progress of a search, which is written again and again over itself. It is erased when the search
/// is over.
#[derive(Drop)]
pub struct ProgressLine<E> {
    err: E,
    is_terminal: bool,
    is_shown: bool,
}

impl<E: Write> ProgressLine<E> {
    /// A line that is shown only if this is a terminal, and after some thousand states.
    pub fn new(err: E, is_terminal: bool) -> ProgressLine<E> {
        ProgressLine {
            err,
            is_terminal,
            is_shown: false,
        }
    }

    /// Whether the line is to be written after this number of states.
    fn is_due(&self, followed: u64) -> bool {
        self.is_terminal && followed > 0 && followed % STATES == 0
    }
}

impl<E: Write> Watch for ProgressLine<E> {
    ghost told = { λ _. None };

    fn on_states(&mut self, followed: u64, known: u64, found: u64) {
        if !self.is_due(followed) {
            return;
        }
        self.is_shown = true;
        // No number gets smaller, so the line gets no shorter. If it can't be written, nobody misses it.
        let err = &mut self.err;
        let _ = write!(
            err,
            "\r{followed} of {known} states followed, {found} outcomes"
        );
    }

    fn on_end(&mut self) {
        if self.is_shown {
            let _ = self.err.write_all(BLANK.as_bytes());
        }
    }
}
