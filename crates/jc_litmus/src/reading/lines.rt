//! The lines of a program, by their words.
ghost use Rattle.std.specs.Prelude.{◌≡◌, map};
ghost use Rattle.jc_text.specs.Lines.{ok_with};
ghost use Rattle.jc_litmus.specs.LineResults.{KeepsAtFault, ReadsAs};
ghost use Rattle.jc_litmus.specs.Program.{after_call, after_expect, after_failing, after_invoke, after_line, after_other_line, after_own_line};
ghost use Rattle.jc_litmus.specs.Program.{after_script_line, after_thread, invocation};
ghost use Rattle.jc_litmus.specs.Grammar.{quantifier_named};
ghost use Rattle.jc_litmus.specs.declared.line_error.LineError.TheVariants as errors;
ghost use Rattle.jc_litmus.specs.declared.program.LineFault.TheVariants as faults;
ghost use Rattle.jc_text.specs.declared.fault.Fault.TheVariants as script_faults;

use crate::atoms::{add_atoms, are_atoms};
use crate::grammar::{
    begin_line, entry_calls, is_outside, may_fail, operation_in, quantifier_named, with_fault,
};
use crate::line_error::LineError;
use crate::program::{Expectation, LineFault, Quantifier, THREADS_MAX};
use crate::reading::{ProgramParts, ReadBuffers, push_expectation, push_thread};
use jc_explore::Item;
use jc_text::read::grammar::{none_empty, read};
use jc_text::read::line::{Line, Operation};
use jc_text::read::words::{is, key, split};
use jc_text::{Fault, ReadError};
use std::alloc::Global;

fn bad_line() -> LineError
    ensures { result ≡ errors.Fault (faults.Script script_faults.BadLine) }
{
    LineError::Fault(LineFault::Script(Fault::BadLine))
}

/// An entry processor on a key, with the calls that it makes there. `line` is a buffer for a line.
#[tactic(auto, unfolding(crate::specs::Program::invocation))]
fn invocation(alloc: Global, words: &[&[u8]], line: &mut Line) -> Result<Item, LineError>
    ensures { ReadsAs result (invocation (map (λ w. w.now) words.now)) }
{
    match words {
        [k, colon, rest @ ..] => {
            if !is(colon, ":") {
                return Err(bad_line());
            }
            let key = key(k)?;
            let calls = entry_calls(alloc, rest, line)?;
            Ok(Item::Invoke { key, calls })
        }
        _ => Err(bad_line()),
    }
}

impl ProgramParts {
    /// Takes a line that a script may have, too.
    #[tactic(auto, unfolding(crate::specs::Program::after_script_line))]
    fn script_line(&mut self, line: &Line) -> Result<(), LineError>
        ensures read { ReadsAs (ok_with self.new result) (after_script_line self.old line.now) }
        ensures kept { KeepsAtFault self.old self.new result }
    {
        match line {
            Line::Open(config) => Ok(self.open(config)?),
            Line::Set(key, value) => self.set(key, value),
            Line::Foreign(key, value) => self.foreign(key, value),
            Line::Invalidate(key) => self.invalidate(key),
            _ => {
                self.check_open()?;
                Err(LineError::Fault(LineFault::NotACall))
            }
        }
    }

    /// Adds a thread.
    #[tactic(auto, unfolding(crate::specs::Program::after_thread))]
    fn thread(&mut self, alloc: Global, words: &[&[u8]]) -> Result<(), LineError>
        ensures read { ReadsAs (ok_with self.new result) (after_thread self.old (map (λ w. w.now) words.now)) }
        ensures kept { KeepsAtFault self.old self.new result }
    {
        if !words.is_empty() {
            return Err(bad_line());
        }
        self.check_open()?;
        if self.threads.len() >= THREADS_MAX {
            return Err(LineError::Fault(LineFault::TooManyThreads));
        }
        push_thread(alloc, &mut self.threads)?;
        Ok(())
    }

    /// Adds a call of one key.
    #[tactic(auto, unfolding(crate::specs::Program::after_call))]
    fn call(
        &mut self,
        alloc: Global,
        first: &[u8],
        rest: &[&[u8]],
        line: &mut Line,
    ) -> Result<(), LineError>
        ensures read { ReadsAs (ok_with self.new result) (after_call self.old first.now (map (λ w. w.now) rest.now)) }
        ensures kept { KeepsAtFault self.old self.new result }
    {
        begin_line(alloc, first, rest, line)?;
        self.check_open()?;
        let Operation { op, key } = operation_in(line)?;
        self.add(Item::Call { op, key })
    }

    /// Adds an entry processor on a key, with the calls that it makes there.
    #[tactic(auto, unfolding(crate::specs::Program::after_invoke))]
    fn invoke(&mut self, alloc: Global, words: &[&[u8]], line: &mut Line) -> Result<(), LineError>
        ensures read { ReadsAs (ok_with self.new result) (after_invoke self.old (map (λ w. w.now) words.now)) }
        ensures kept { KeepsAtFault self.old self.new result }
    {
        let item = invocation(alloc, words, line)?;
        self.add(item)
    }

    /// Adds a fault that may happen.
    #[tactic(auto, unfolding(crate::specs::Program::after_failing))]
    fn failing(&mut self, words: &[&[u8]]) -> Result<(), LineError>
        ensures read { ReadsAs (ok_with self.new result) (after_failing self.old (map (λ w. w.now) words.now)) }
        ensures kept { KeepsAtFault self.old self.new result }
    {
        let (failing, code) = may_fail(words)?;
        self.check_open()?;
        self.faults = with_fault(self.faults, failing, code);
        Ok(())
    }

    /// Adds an expectation of the outcomes.
    #[tactic(auto, unfolding(crate::specs::Program::after_expect))]
    fn expect(
        &mut self,
        alloc: Global,
        quantifier: Quantifier,
        text: &[u8],
        words: &[&[u8]],
    ) -> Result<(), LineError>
        ensures read { ReadsAs (ok_with self.new result) (after_expect self.old quantifier text.now (map (λ w. w.now) words.now)) }
        ensures kept { KeepsAtFault self.old self.new result }
    {
        if !are_atoms(words) {
            return Err(bad_line());
        }
        self.check_open()?;
        let mut atoms = Vec::new(alloc);
        add_atoms(&mut atoms, &self.threads, words)?;
        let text = Vec::from_slice(alloc, text)?;
        push_expectation(
            &mut self.expectations,
            Expectation {
                quantifier,
                atoms,
                text,
            },
        )?;
        Ok(())
    }

    /// Takes a line that no script has, by its first word and those after it.
    #[tactic(auto, unfolding(crate::specs::Program::after_own_line))]
    fn own_line(
        &mut self,
        alloc: Global,
        text: &[u8],
        first: &[u8],
        words: &[&[u8]],
        line: &mut Line,
    ) -> Result<(), LineError>
        ensures read { ReadsAs (ok_with self.new result) (after_own_line self.old text.now first.now (map (λ w. w.now) words.now) (quantifier_named first.now)) }
        ensures kept { KeepsAtFault self.old self.new result }
    {
        match quantifier_named(first) {
            Some(quantifier) => self.expect(alloc, quantifier, text, words),
            None => match first {
                _ if is(first, "thread") => self.thread(alloc, words),
                _ if is(first, "invoke") => self.invoke(alloc, words, line),
                _ => self.call(alloc, first, words, line),
            },
        }
    }

    /// Takes a line that no script has, by its words.
    #[tactic(auto, unfolding(crate::specs::Program::after_other_line))]
    fn other_line(
        &mut self,
        alloc: Global,
        text: &[u8],
        words: &[&[u8]],
        line: &mut Line,
    ) -> Result<(), LineError>
        ensures read { ReadsAs (ok_with self.new result) (after_other_line self.old text.now (map (λ w. w.now) words.now)) }
        ensures kept { KeepsAtFault self.old self.new result }
    {
        if !none_empty(words) {
            return Err(bad_line());
        }
        match words {
            [] => Err(bad_line()),
            [first, ..] if is_outside(first) => self.failing(words),
            [first, rest @ ..] => self.own_line(alloc, text, first, rest, line),
        }
    }

    /// Reads one line.
    #[tactic(auto, unfolding(crate::specs::Program::after_line))]
    pub(super) fn read_line<'a>(
        &mut self,
        alloc: Global,
        text: &'a [u8],
        buffers: &mut ReadBuffers<'a>,
    ) -> Result<(), LineError>
        ensures read { ReadsAs (ok_with self.new result) (after_line self.old text.now) }
        ensures kept { KeepsAtFault self.old self.new result }
    {
        match read(alloc, text, &mut buffers.words, &mut buffers.line) {
            Ok(false) => Ok(()),
            Ok(true) => self.script_line(&buffers.line),
            Err(ReadError::Fault(Fault::BadLine)) => {
                split(text, &mut buffers.words)?;
                self.other_line(alloc, text, &buffers.words, &mut buffers.line)
            }
            Err(error) => Err(LineError::from(error)),
        }
    }
}
