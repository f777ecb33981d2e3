//! A program, read line by line.
ghost use Rattle.std.specs.Prelude.{◌≡◌, ◌≤◌, ◌<◌, ◌+◌, ◌++◌, ◌∷◌, [], true, Ok, None, Some, MatchOption, length, map, is_ok, IfOk, IfSome, OnErr, OnOk};
ghost use Rattle.jc_types.specs.Limits.{check};
ghost use Rattle.jc_text.specs.Lines.{ok_with};
ghost use Rattle.jc_litmus.specs.Opened.{shape_fault};
ghost use Rattle.jc_litmus.specs.LineResults.{KeepsAtFault, ReadsAs};
ghost use Rattle.jc_litmus.specs.Program.{after_item, after_open, after_set, expected, if_open, is_blank, may_add, nothing_read, onto_last};
ghost use Rattle.jc_litmus.specs.Program.{program_from, program_of, program_read, value_of_program, ReadsLines, ReadsProgram};
ghost use Rattle.jc_litmus.specs.Explanations.{IsExplained, ExplainsLines, ExplainsProgram, explanation_from, explanation_of};
ghost use Rattle.jc_text.specs.Pieces.{pieces_of};
ghost use Rattle.jc_litmus.specs.declared.program.TheConstants.{THREADS_MAX, ITEMS_MAX};
ghost use Rattle.jc_explore.specs.declared.program.Item.TheVariants as items;
ghost use Rattle.jc_litmus.specs.declared.line_error.LineError.TheVariants as errors;
ghost use Rattle.jc_litmus.specs.declared.program.LineFault.TheVariants as faults;

mod lines;

use crate::explanation::note_error;
use crate::line_error::LineError;
use crate::program::{Expectation, ITEMS_MAX, LineFault, Litmus, ProgramFault, THREADS_MAX};
use jc_explore::{Faults, Item, Program};
use jc_model::Op;
use jc_text::Fault;
use jc_text::lines::first_line;
use jc_text::read::line::Line;
use jc_types::{Config, Key, Refusal, Value};
use jc_world::EntryCalls;
use std::alloc::{AllocError, Global};
use std::marker::Model;

/// The parts of a program whose lines were read.
#[derive(Drop)]
struct ProgramParts {
    config: Option<Config>,
    stored: Vec<(Key, Value)>,
    threads: Vec<Vec<Item>>,
    items: usize,
    faults: Faults,
    expectations: Vec<Expectation>,
}

impl Model for ProgramParts {
    ghost use Rattle.std.specs.Prelude.{◌≡◌, ◌≤◌, true, length, map};
    ghost use Rattle.jc_litmus.specs.Opened.{has_shape};
    ghost use Rattle.jc_litmus.specs.Program.{ReadSoFar, expected};
    ghost use Rattle.jc_litmus.specs.declared.program.TheConstants.{THREADS_MAX, ITEMS_MAX};

    ghost Value = { ReadSoFar };

    ghost view = { λ r. record {
      config = r.config;
      stored = r.stored.items;
      threads = map (λ thread. thread.items) r.threads.items;
      items = r.items;
      faults = r.faults;
      expectations = map expected r.expectations.items;
    } };

    ghost invariant = { λ r. (has_shape r.config ≡ true) × (length r.threads.items ≤ THREADS_MAX) × (r.items ≤ ITEMS_MAX) };
}

/// Buffers for the words of a line, and for the line of a script that it may be. Each line uses them again.
#[derive(Drop)]
struct ReadBuffers<'a> {
    words: Vec<&'a [u8]>,
    line: Line,
}

/// The fault of a line whose shape of a cache is refused.
fn shape_fault(refusal: Refusal) -> Fault
    ensures { result ≡ shape_fault refusal }
{
    match refusal {
        Refusal::BadConfig(field) => Fault::BadConfig(field),
        _ => Fault::BadLine,
    }
}

fn push_stored(stored: &mut Vec<(Key, Value)>, key: &Key, value: &Value) -> Result<(), AllocError>
    ensures { OnOk result (stored.new.items ≡ stored.old.items ++ (key.now, value.now) ∷ []) }
{
    stored.push((*key, *value))?;
    Ok(())
}

fn push_thread(alloc: Global, threads: &mut Vec<Vec<Item>>) -> Result<(), AllocError>
    ensures more { OnOk result (map (λ t. t.items) threads.new.items ≡ map (λ t. t.items) threads.old.items ++ [] ∷ []) }
    ensures few { length threads.new.items ≤ length threads.old.items + 1 }
{
    threads.push(Vec::new(alloc))?;
    Ok(())
}

/// Adds an item to the last thread.
fn push_item(threads: &mut Vec<Vec<Item>>, item: Item) -> Result<(), AllocError>
    ensures more { OnOk result (map (λ t. t.items) threads.new.items ≡ onto_last item (map (λ t. t.items) threads.old.items)) }
    ensures few { length threads.new.items ≤ length threads.old.items }
{
    let _types: Option<&(Op, Key, Value, EntryCalls)> = None;
    if let Some(mut items) = threads.pop() {
        items.push(item)?;
        threads.push(items)?;
    }
    Ok(())
}

fn push_expectation(
    expectations: &mut Vec<Expectation>,
    expectation: Expectation,
) -> Result<(), AllocError>
    ensures { OnOk result (map expected expectations.new.items ≡ map expected expectations.old.items ++ expected expectation ∷ []) }
{
    expectations.push(expectation)?;
    Ok(())
}

impl ProgramParts {
    /// The parts of a program before its first line is read.
    fn new(alloc: Global) -> ProgramParts
        ensures { result ≡ nothing_read }
    {
        ProgramParts {
            config: None,
            stored: Vec::new(alloc),
            threads: Vec::new(alloc),
            items: 0,
            faults: Faults {
                load: None,
                write: None,
                lie: None,
                process: None,
            },
            expectations: Vec::new(alloc),
        }
    }

    /// Tests that the cache's shape was read.
    fn check_open(&self) -> Result<(), LineFault>
        ensures { result ≡ if_open self.now.config (Ok tt) }
    {
        if self.config.is_none() {
            return Err(LineFault::Script(Fault::NotOpen));
        }
        Ok(())
    }

    /// Tests that one more item may be read.
    fn check_item(&self) -> Result<(), LineFault>
        ensures may { result ≡ may_add self.now }
        ensures few { OnOk result (self.now.items < ITEMS_MAX) }
    {
        self.check_open()?;
        if self.threads.is_empty() {
            return Err(LineFault::NoThread);
        }
        if self.items >= ITEMS_MAX {
            return Err(LineFault::TooManyItems);
        }
        Ok(())
    }

    /// Takes the shape of the cache.
    #[tactic(auto, unfolding(crate::specs::Program::after_open))]
    fn open(&mut self, config: &Config) -> Result<(), LineFault>
        ensures opened { ok_with self.new result ≡ after_open self.old config.now }
        ensures kept { OnErr result (self.new ≡ self.old) }
    {
        if self.config.is_some() {
            return Err(LineFault::Script(Fault::OpenTwice));
        }
        match config.check() {
            Ok(()) => {
                self.config = Some(*config);
                Ok(())
            }
            Err(refusal) => Err(LineFault::Script(shape_fault(refusal))),
        }
    }

    /// Adds an entry of the store.
    #[tactic(auto, unfolding(crate::specs::Program::after_set))]
    fn set(&mut self, key: &Key, value: &Value) -> Result<(), LineError>
        ensures read { ReadsAs (ok_with self.new result) (after_set self.old key.now value.now) }
        ensures kept { KeepsAtFault self.old self.new result }
    {
        self.check_open()?;
        if !self.threads.is_empty() {
            return Err(LineError::Fault(LineFault::Script(Fault::SetTooLate)));
        }
        push_stored(&mut self.stored, key, value)?;
        Ok(())
    }

    /// Adds an item to the last thread.
    #[tactic(auto, unfolding(crate::specs::Program::after_item))]
    fn add(&mut self, item: Item) -> Result<(), LineError>
        ensures read { ReadsAs (ok_with self.new result) (after_item self.old item) }
        ensures kept { KeepsAtFault self.old self.new result }
    {
        self.check_item()?;
        push_item(&mut self.threads, item)?;
        self.items += 1;
        Ok(())
    }

    /// Adds a write of another program.
    fn foreign(&mut self, key: &Key, value: &Option<Value>) -> Result<(), LineError>
        ensures read { ReadsAs (ok_with self.new result) (after_item self.old (items.Foreign key.now value.now)) }
        ensures kept { KeepsAtFault self.old self.new result }
    {
        let (key, value) = (*key, *value);
        self.add(Item::Foreign { key, value })
    }

    /// Adds an invalidation.
    fn invalidate(&mut self, key: &Key) -> Result<(), LineError>
        ensures read { ReadsAs (ok_with self.new result) (after_item self.old (items.Invalidate key.now)) }
        ensures kept { KeepsAtFault self.old self.new result }
    {
        let key = *key;
        self.add(Item::Invalidate { key })
    }

    /// Notes where an error of the line after these is, if it is a fault, and returns it.
    fn note_error(
        &self,
        alloc: Global,
        notes: &mut Vec<u8>,
        number: u64,
        text: &[u8],
        error: LineError,
    ) -> ProgramFault
        ensures { IsExplained self.now.threads number text.now error notes.old.items notes.new.items result }
    {
        note_error(alloc, notes, &self.threads, number, text, error)
    }

    /// The program, or none if the cache's shape wasn't read.
    fn finish(self) -> Option<Litmus>
        ensures program { MatchOption result (program_read self ≡ None) (λ x. program_read self ≡ Some (value_of_program x)) }
        ensures fits { IfSome result (λ litmus.
            (is_ok (check litmus.program.config) ≡ true) × (length litmus.program.threads.items ≤ THREADS_MAX)) }
    {
        let ProgramParts {
            config,
            stored,
            threads,
            items: _,
            faults,
            expectations,
        } = self;
        match config {
            None => None,
            Some(config) => Some(Litmus {
                program: Program {
                    config,
                    stored,
                    threads,
                    faults,
                },
                expectations,
            }),
        }
    }
}

/// Whether there are no bytes.
fn is_blank(bytes: &[u8]) -> bool
    ensures { result ≡ is_blank bytes.now }
{
    match bytes {
        [] => true,
        [_, ..] => false,
    }
}

/// Reads each line that ends in a line feed. It returns the number of the next line, and whether no bytes are left, which would be
/// those of a line without a line feed. At a fault `notes` gets where it is.
fn read_lines<'a>(
    alloc: Global,
    input: &'a [u8],
    reading: &mut ProgramParts,
    buffers: &mut ReadBuffers<'a>,
    notes: &mut Vec<u8>,
) -> Result<(u64, bool), ProgramFault>
    ensures program { ReadsLines result reading.new (program_from reading.old 1 (pieces_of input.now)) }
    ensures notes { ExplainsLines result reading.new notes.old.items notes.new.items (explanation_from reading.old 1 (pieces_of input.now)) }
{
    let mut rest = input;
    let mut number: u64 = 1;
    while let Some((text, after)) = first_line(rest) {
        match reading.read_line(alloc, text, buffers) {
            Ok(()) => {}
            Err(error) => return Err(reading.note_error(alloc, notes, number, text, error)),
        }
        rest = after;
        number += 1;
    }
    Ok((number, is_blank(rest)))
}

/// Reads lines as [`read_lines`] does, with buffers of its own.
fn read_all_lines(
    alloc: Global,
    input: &[u8],
    reading: &mut ProgramParts,
    notes: &mut Vec<u8>,
) -> Result<(u64, bool), ProgramFault>
    ensures program { ReadsLines result reading.new (program_from reading.old 1 (pieces_of input.now)) }
    ensures notes { ExplainsLines result reading.new notes.old.items notes.new.items (explanation_from reading.old 1 (pieces_of input.now)) }
{
    let mut buffers = ReadBuffers {
        words: Vec::new(alloc),
        line: Line::Audit,
    };
    read_lines(alloc, input, reading, &mut buffers, notes)
}

/// Notes a fault that no line has, at the end of a text, and returns it.
fn note_fault_at_end(alloc: Global, notes: &mut Vec<u8>, number: u64, fault: Fault) -> ProgramFault
    ensures { IsExplained [] number [] (errors.Fault (faults.Script fault)) notes.old.items notes.new.items result }
{
    let error = LineError::Fault(LineFault::Script(fault));
    note_error(alloc, notes, &[], number, &[], error)
}

/// Reads a program, up to the first line with a fault. A program without an `open` has its fault at the line after its last. At a
/// fault one line more is put at the end of `notes`: where it is.
pub(crate) fn read_program(
    alloc: Global,
    input: &[u8],
    notes: &mut Vec<u8>,
) -> Result<Litmus, ProgramFault>
    ensures program { ReadsProgram result (program_of input.now) }
    ensures notes { ExplainsProgram result notes.old.items notes.new.items (explanation_of input.now) }
    ensures fits { IfOk result (λ litmus.
        (is_ok (check litmus.program.config) ≡ true) × (length litmus.program.threads.items ≤ THREADS_MAX)) }
{
    let mut reading = ProgramParts::new(alloc);
    let (number, ended) = read_all_lines(alloc, input, &mut reading, notes)?;
    if !ended {
        return Err(note_fault_at_end(alloc, notes, number, Fault::CutLine));
    }
    match reading.finish() {
        Some(litmus) => Ok(litmus),
        None => Err(note_fault_at_end(alloc, notes, number, Fault::NotOpen)),
    }
}
