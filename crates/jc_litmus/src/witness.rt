//! A schedule as a script, which `jcache run` plays.
ghost use Rattle.std.specs.Prelude.{◌≡◌, ◌++◌, ◌+◌, ◌<◌, ◌^◌, codes, replicate, OnOk, IfOk, IfSome, option_copied, Some};
ghost use Rattle.std.specs.List.{flat_map};
ghost use Rattle.jc_types.specs.declared.limits.TheConstants.{NUMBER_MAX};
ghost use Rattle.jc_text.specs.declared.read.line.Line.TheVariants as line;
ghost use Rattle.jc_explore.specs.Moves.{is_begin};
ghost use Rattle.jc_litmus.specs.Spaced.{coded_line_text, lone_text};
ghost use Rattle.jc_litmus.specs.Witness.{act_line, begin_line, begun_by, begun_item, call_line, last_after, last_at, last_by, line_at, line_of_move};
ghost use Rattle.jc_litmus.specs.Witness.{has_numbers, no_progress, piped, piped_if, progress_at, run_line, set_text, steps_text, thread_progress_after, witness_text};

use crate::spelling::{
    Beginning, put_begin, put_coded, put_foreign, put_invalidate, put_lone, put_open, put_process,
    put_set,
};
use jc_explore::{Act, Faults, Item, Move, Program};
use jc_model::{EntryCall, Op};
use jc_text::print::put;
use jc_types::{Key, NUMBER_MAX, Value};
use jc_world::LoadSource;
use std::alloc::{AllocError, Global};

/// The state of a thread.
#[derive(Clone, Copy)]
pub struct Progress {
    /// The number of its items that have begun.
    pub begun: usize,
    /// The number of the last call that it began: 0 before the first one.
    pub call: u64,
}

/// Whether there are numbers for one more item.
fn has_numbers(last: u64, progress: &Progress) -> bool
    ensures { result ≡ has_numbers last progress.now }
{
    last < NUMBER_MAX - 1 && (progress.begun as u64) < NUMBER_MAX
}

/// Appends the line by which an item begins, with the next call's number.
fn put_begin_line(out: &mut Vec<u8>, beginning: Beginning, item: &Item) -> Result<(), AllocError>
    ensures { OnOk result (out.new.items
        ≡ out.old.items ++ piped_if (begin_line beginning.call beginning.session (Some item.now))) }
{
    put(out, "| ")?;
    match item {
        Item::Call { op, key } => put_begin(out, beginning, op, key)?,
        Item::Invoke { key, calls: _ } => put_begin(out, beginning, &Op::Invoke, key)?,
        Item::Foreign { key, value } => put_foreign(out, key, value)?,
        Item::Invalidate { key } => put_invalidate(out, key)?,
    }
    put(out, "\n")
}

/// Appends a line of a word and a call's number.
fn put_lone_line(out: &mut Vec<u8>, name: &str, call: u64) -> Result<(), AllocError>
    ensures { OnOk result (out.new.items
        ≡ out.old.items ++ codes "| " ++ lone_text name.now call ++ codes "\n") }
{
    put(out, "| ")?;
    put_lone(out, name, call)?;
    put(out, "\n")
}

/// Appends a line of a word, a call's number and a code, if there is one.
fn put_coded_line(
    out: &mut Vec<u8>,
    name: &str,
    call: u64,
    code: Option<u32>,
) -> Result<(), AllocError>
    ensures { OnOk result (out.new.items ≡ out.old.items ++ coded_line_text name.now call code) }
{
    match code {
        None => Ok(()),
        Some(code) => {
            put(out, "| ")?;
            put_coded(out, name, call, code)?;
            put(out, "\n")
        }
    }
}

/// Appends the line of a processor's run.
fn put_run_line(
    out: &mut Vec<u8>,
    call: u64,
    load: &LoadSource,
    calls: &[EntryCall],
    fail: Option<u32>,
) -> Result<(), AllocError>
    ensures { OnOk result (out.new.items
        ≡ out.old.items ++ piped (run_line call load.now calls.now fail)) }
{
    put(out, "| ")?;
    put_process(out, call, load, calls, fail)?;
    put(out, "\n")
}

/// Appends the line of an act of a call, with the calls of its processor.
fn put_act_line(
    out: &mut Vec<u8>,
    faults: &Faults,
    call: u64,
    calls: &[EntryCall],
    act: Act,
) -> Result<(), AllocError>
    ensures { OnOk result (out.new.items
        ≡ out.old.items ++ piped_if (act_line faults.now call calls.now act)) }
{
    match act {
        Act::Begin => Ok(()),
        Act::Read => put_lone_line(out, "read", call),
        Act::LoadFails => put_coded_line(out, "readfail", call, faults.load),
        Act::Process => put_run_line(out, call, &LoadSource::Store, calls, None),
        Act::ProcessLoadFails => match faults.load {
            None => Ok(()),
            Some(code) => put_run_line(out, call, &LoadSource::Failing(code), calls, None),
        },
        Act::ProcessFails => match faults.process {
            None => Ok(()),
            Some(code) => put_run_line(out, call, &LoadSource::Store, calls, Some(code)),
        },
        Act::Write => put_lone_line(out, "apply", call),
        Act::WriteFails => put_coded_line(out, "applyfail", call, faults.write),
        Act::WriteLies => put_coded_line(out, "applylie", call, faults.lie),
        Act::Commit => put_lone_line(out, "end", call),
        Act::PickUp => put_lone_line(out, "take", call),
    }
}

/// Appends the line of an act of an item.
fn put_call_line(
    out: &mut Vec<u8>,
    faults: &Faults,
    call: u64,
    item: &Item,
    act: Act,
) -> Result<(), AllocError>
    ensures { OnOk result (out.new.items
        ≡ out.old.items ++ piped_if (call_line faults.now call (Some item.now) act)) }
{
    match item {
        Item::Call { op: _, key: _ } => put_act_line(out, faults, call, &[], act),
        Item::Invoke { key: _, calls } => put_act_line(out, faults, call, calls.as_slice(), act),
        Item::Foreign { key: _, value: _ } | Item::Invalidate { key: _ } => Ok(()),
    }
}

/// Whether an item begins.
fn is_begin(act: Act) -> bool
    ensures { result ≡ is_begin act }
{
    matches!(act, Act::Begin)
}

/// Appends the line of a move of a thread in this state.
fn put_line_at(
    out: &mut Vec<u8>,
    program: &Program,
    last: u64,
    step: Move,
    progress: &Progress,
) -> Result<(), AllocError>
    requires { step.thread + 1 < 2 ^ 64 }
    ensures { OnOk result (out.new.items
        ≡ out.old.items ++ piped_if (line_at program.now last step (Some progress.now))) }
{
    if !is_begin(step.act) {
        return match program.item(step.thread, progress.begun.saturating_sub(1)) {
            Some(item) => put_call_line(out, &program.faults, progress.call, item, step.act),
            None => Ok(()),
        };
    }
    if !has_numbers(last, progress) {
        return Ok(());
    }
    match program.item(step.thread, progress.begun) {
        Some(item) => {
            let beginning = Beginning {
                call: last + 1,
                session: step.thread as u64 + 1,
            };
            put_begin_line(out, beginning, item)
        }
        None => Ok(()),
    }
}

/// The state of a thread after an item began.
fn begun_by(last: u64, progress: &Progress, item: &Item) -> Progress
    requires last { last + 1 < 2 ^ 64 }
    requires begun { progress.now.begun + 1 < 2 ^ 64 }
    ensures { result ≡ begun_by last progress.now (Some item.now) }
{
    let call = match item {
        Item::Call { op: _, key: _ } | Item::Invoke { key: _, calls: _ } => last + 1,
        Item::Foreign { key: _, value: _ } | Item::Invalidate { key: _ } => progress.call,
    };
    Progress {
        begun: progress.begun + 1,
        call,
    }
}

/// The number of the last call after an item began.
fn last_by(last: u64, item: &Item) -> u64
    requires { last + 1 < 2 ^ 64 }
    ensures { result ≡ last_by last (Some item.now) }
{
    match item {
        Item::Call { op: _, key: _ } | Item::Invoke { key: _, calls: _ } => last + 1,
        Item::Foreign { key: _, value: _ } | Item::Invalidate { key: _ } => last,
    }
}

/// The item that a move of a thread begins, if it begins one.
fn begun_item<'a>(
    program: &'a Program,
    last: u64,
    step: Move,
    progress: &Progress,
) -> Option<&'a Item>
    ensures begun { option_copied result ≡ begun_item program.now last step progress.now }
    ensures last { IfSome result (λ item. last + 1 < 2 ^ 64) }
    ensures more { IfSome result (λ item. progress.now.begun + 1 < 2 ^ 64) }
{
    if is_begin(step.act) && has_numbers(last, progress) {
        program.item(step.thread, progress.begun)
    } else {
        None
    }
}

/// The state of a thread after a move of it.
fn progress_at(program: &Program, last: u64, step: Move, progress: &Progress) -> Progress
    ensures { result ≡ progress_at program.now last step progress.now }
{
    match begun_item(program, last, step, progress) {
        Some(item) => begun_by(last, progress, item),
        None => *progress,
    }
}

/// The number of the last call after a move of a thread.
fn last_at(program: &Program, last: u64, step: Move, progress: &Progress) -> u64
    ensures { result ≡ last_at program.now last step (Some progress.now) }
{
    match begun_item(program, last, step, progress) {
        Some(item) => last_by(last, item),
        None => last,
    }
}

/// Appends the line of a move, and makes it.
fn put_step(
    out: &mut Vec<u8>,
    program: &Program,
    last: u64,
    threads: &mut Vec<Progress>,
    step: Move,
) -> Result<u64, AllocError>
    ensures text { OnOk result (out.new.items
        ≡ out.old.items ++ piped_if (line_of_move program.now last threads.old.items step)) }
    ensures threads { OnOk result (threads.new.items ≡ thread_progress_after program.now last threads.old.items step) }
    ensures last { IfOk result (λ next. next ≡ last_after program.now last threads.old.items step) }
{
    if step.thread >= threads.len() {
        return Ok(last);
    }
    let progress = threads[step.thread];
    put_line_at(out, program, last, step, &progress)?;
    threads[step.thread] = progress_at(program, last, step, &progress);
    Ok(last_at(program, last, step, &progress))
}

/// Appends the lines of the moves of a schedule.
fn put_steps(
    out: &mut Vec<u8>,
    program: &Program,
    threads: &mut Vec<Progress>,
    schedule: &[Move],
) -> Result<(), AllocError>
    ensures { OnOk result (out.new.items
        ≡ out.old.items ++ steps_text program.now 0 threads.old.items schedule.now) }
{
    let mut last = 0;
    for step in schedule {
        let next = put_step(out, program, last, threads, *step)?;
        last = next;
    }
    Ok(())
}

/// Appends the line of an entry of the store.
fn put_set_line(out: &mut Vec<u8>, entry: &(Key, Value)) -> Result<(), AllocError>
    ensures { OnOk result (out.new.items ≡ out.old.items ++ set_text entry.now) }
{
    put(out, "| ")?;
    put_set(out, &entry.0, &entry.1)?;
    put(out, "\n")
}

/// Appends the lines of the entries of the store.
fn put_stored(out: &mut Vec<u8>, stored: &[(Key, Value)]) -> Result<(), AllocError>
    ensures { OnOk result (out.new.items ≡ out.old.items ++ flat_map set_text stored.now) }
{
    for entry in stored {
        put_set_line(out, entry)?;
    }
    Ok(())
}

/// The states of `threads` threads that have begun nothing.
fn unbegun(alloc: Global, threads: usize) -> Result<Vec<Progress>, AllocError>
    ensures { IfOk result (λ v. v.items ≡ replicate threads no_progress) }
{
    Vec::from_elem(alloc, Progress { begun: 0, call: 0 }, threads)
}

/// Appends the line that opens the program's cache.
fn put_open_line(out: &mut Vec<u8>, program: &Program) -> Result<(), AllocError>
    ensures { OnOk result (out.new.items ≡ out.old.items ++ piped (line.Open program.now.config)) }
{
    put(out, "| ")?;
    put_open(out, &program.config)?;
    put(out, "\n")
}

/// Appends the script of a schedule as it is shown: the cache's shape, the store, the moves, and an audit.
pub fn put_witness(
    alloc: Global,
    out: &mut Vec<u8>,
    program: &Program,
    schedule: &[Move],
) -> Result<(), AllocError>
    ensures { OnOk result (out.new.items ≡ out.old.items ++ witness_text program.now schedule.now) }
{
    let mut threads = unbegun(alloc, program.threads.len())?;
    put_open_line(out, program)?;
    put_stored(out, &program.stored)?;
    put_steps(out, program, &mut threads, schedule)?;
    put(out, "| audit\n")
}
