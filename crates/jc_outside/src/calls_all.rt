//! Calls of a loader and a writer for many keys at once, while no stripe is held.
ghost use Rattle.std.specs.Prelude.{◌≡◌, ◌≤◌, ◌+◌, ◌++◌, [], map, true, IsSome, Some, vec_len, vec_capacity};
ghost use Rattle.jc_model.specs.Cache.{Bytes};
ghost use Rattle.jc_model.specs.Batches.{answer_in_batch};
ghost use Rattle.jc_model.specs.Table.{is_load_given};
ghost use Rattle.jc_model.specs.declared.event.LoadAnswer.{LoadAnswer as LoadAnswerState};
ghost use Rattle.jc_model.specs.declared.event.WriteAnswer.{WriteAnswer as WriteAnswerState};
ghost use Rattle.jc_batch.specs.Changes.{changes_of};
ghost use Rattle.jc_batch.specs.Answers.{no_answers};
ghost use Rattle.jc_outside.specs.Calling.{KeepsType};
ghost use Rattle.jc_outside.specs.CallingAll.{load_all_answer, returned_fault, LoadsKeys, WritesEntries};
ghost use Rattle.jc_outside.specs.CallingAll.{DeletesKeys, KeepsLoadRoom, LoadsAllOnce, WritesAllOnce, loads_done, writes_done, asked_changes};

use crate::ask::{Ask, AskWrite};
use crate::done::{LoadDone, Origin, WriteDone};
use crate::hands::{Hands, Outside};
use crate::loader::CacheLoader;
use crate::writer::CacheWriter;
use indexmap::{IndexMap, IndexSet};
use jc_batch::{Answers, Batch, BatchKeys, Leftover, LoadBatch};
use jc_model::LoadAnswer;
use jc_types::{Key, Value};
use std::sync::Wait;

/// Calls the loader once, with the keys of these asks (`loadAll`), and appends a done value for each ask, in their order. If the
/// call fails, it fails for each of the keys. A key without an answer isn't found. Without a loader nothing is found.
///
/// The asks are taken out, and the batch is returned without keys. Both keep memory for as many as before, so they can be used
/// for another call.
///
/// It may wait, as long as the loader does. It takes no memory of its own.
///
/// Conditions: the session holds no stripe; the batch is of the asks' keys, in their order; there is room for the done values.
pub fn call_loader_all<A: Ask, R: Wait>(
    _rt: &R,
    hands: &mut Hands<Outside>,
    asks: &mut Vec<A>,
    batch: LoadBatch,
    done: &mut Vec<LoadDone<A>>,
) -> LoadBatch
    requires held { hands.old.held ≡ 0 }
    requires batch { batch.items ≡ map A.key asks.old.items }
    requires room { vec_len done.old + vec_len asks.old ≤ vec_capacity done.old }
    ensures loader { (said : Bytes → LoadAnswerState)
        × LoadsAllOnce loads_all load_state hands.old.outside.loader batch.items said hands.new.outside.loader
        × (done.new.items ≡ done.old.items ++ loads_done A.key said asks.old.items) }
    ensures room { KeepsLoadRoom asks.old asks.new batch result done.old done.new }
    ensures loader_type { KeepsType hands.old.outside.loader hands.new.outside.loader }
    ensures writer { hands.new.outside.writer ≡ hands.old.outside.writer }
    ensures held { hands.new.held ≡ 0 }
{
    let (keys, answers) = batch.into_parts();
    let mut answers = answers;
    let returned = load_keys(&mut hands.outside.loader, &keys, &mut answers);
    end_loads(asks, &returned, &answers, done);
    LoadBatch::of_parts(keys, answers)
}

/// Calls the writer once, for a whole batch (`writeAll` or `deleteAll`), and appends a done value for each ask, in their order. A
/// key that the writer leaves in the collection failed, with the writer's code, or with 0 if the writer returned normally. Every
/// other key was written. Keys that the writer adds have no effect. It returns what the writer returned, since a writer may fail
/// and leave nothing.
///
/// It may wait, as long as the writer does. It takes no memory of its own.
///
/// Conditions: the session holds no stripe, and has brought a writer; the batch has exactly what the asks ask for, in their
/// order; there is room for the done values.
pub fn call_writer_all<A: AskWrite, R: Wait>(
    _rt: &R,
    hands: &mut Hands<Outside>,
    asks: Vec<A>,
    batch: Batch,
    done: &mut Vec<WriteDone<A>>,
) -> Result<(), u32>
    requires held { hands.old.held ≡ 0 }
    requires writer { IsSome hands.old.outside.writer }
    requires batch { changes_of batch ≡ asked_changes A.key A.change asks.items }
    requires room { vec_len done.old + vec_len asks ≤ vec_capacity done.old }
    ensures writer { (said : Bytes → WriteAnswerState)
        × WritesAllOnce writes_all deletes_all write_state hands.old.outside.writer batch result said hands.new.outside.writer
        × (done.new.items ≡ done.old.items ++ writes_done A.key said asks.items) }
    ensures room { vec_capacity done.new ≡ vec_capacity done.old }
    ensures writer_type { KeepsType hands.old.outside.writer hands.new.outside.writer }
    ensures loader { hands.new.outside.loader ≡ hands.old.outside.loader }
    ensures held { hands.new.held ≡ 0 }
{
    match batch {
        Batch::Writes(batch) => {
            let (mut entries, written) = batch.into_parts();
            let returned = write_entries(&mut hands.outside.writer, &mut entries);
            end_writes(asks, written, &entries, returned_fault(&returned), done);
            returned
        }
        Batch::Deletes(batch) => {
            let (mut keys, deleted) = batch.into_parts();
            let returned = delete_keys(&mut hands.outside.writer, &mut keys);
            end_writes(asks, deleted, &keys, returned_fault(&returned), done);
            returned
        }
    }
}

fn load_keys(
    loader: &mut Option<Box<dyn CacheLoader + Send + Drop>>,
    keys: &[Key],
    answers: &mut Answers,
) -> Result<(), u32>
    requires { answers.old.by_key ≡ no_answers keys.now }
    ensures loader_type { KeepsType loader.old loader.new }
    ensures load { LoadsKeys loads_all load_state loader.old keys.now result answers.new.by_key loader.new }
    ensures room { answers.new.room ≡ answers.old.room }
{
    match loader {
        Some(loader) => loader.load_all(keys, answers),
        None => Ok(()),
    }
}

fn write_entries(
    writer: &mut Option<Box<dyn CacheWriter + Send + Drop>>,
    entries: &mut IndexMap<Key, Value>,
) -> Result<(), u32>
    requires { IsSome writer.old }
    ensures writer_type { KeepsType writer.old writer.new }
    ensures write { WritesEntries writes_all write_state writer.old entries.old.entries result entries.new.entries writer.new }
{
    match writer {
        Some(writer) => writer.write_all(entries),
        None => unreachable!(),
    }
}

fn delete_keys(
    writer: &mut Option<Box<dyn CacheWriter + Send + Drop>>,
    keys: &mut IndexSet<Key>,
) -> Result<(), u32>
    requires { IsSome writer.old }
    ensures writer_type { KeepsType writer.old writer.new }
    ensures delete { DeletesKeys deletes_all write_state writer.old keys.old.keys result keys.new.keys writer.new }
{
    match writer {
        Some(writer) => writer.delete_all(keys),
        None => unreachable!(),
    }
}

fn returned_fault(returned: &Result<(), u32>) -> Option<u32>
    ensures { result ≡ returned_fault returned.now }
{
    match returned {
        Ok(()) => None,
        Err(code) => Some(*code),
    }
}

/// The answer of a loader's call for one key.
fn load_all_answer(returned: &Result<(), u32>, answers: &Answers, key: &Key) -> LoadAnswer
    ensures answer { result ≡ load_all_answer returned.now answers.now.by_key key.now }
    ensures given { is_load_given result ≡ true }
{
    match returned {
        Ok(()) => match answers.get(key) {
            Some(value) => LoadAnswer::Found(value),
            None => LoadAnswer::Nothing,
        },
        Err(code) => LoadAnswer::Failed(*code),
    }
}

/// Ends the asks by the loader's answer for each key, and takes them out.
fn end_loads<A: Ask>(
    asks: &mut Vec<A>,
    returned: &Result<(), u32>,
    answers: &Answers,
    done: &mut Vec<LoadDone<A>>,
)
    requires { vec_len done.old + vec_len asks.old ≤ vec_capacity done.old }
    ensures items { done.new.items ≡ done.old.items ++ loads_done A.key (load_all_answer returned.now answers.now.by_key) asks.old.items }
    ensures asks { (asks.new.items ≡ []) × (vec_capacity asks.new ≡ vec_capacity asks.old) }
    ensures room { vec_capacity done.new ≡ vec_capacity done.old }
{
    asks.reverse();
    'ending: while let Some(ask) = asks.pop() {
        let answer = load_all_answer(returned, answers, ask.key());
        done.push_reserved(LoadDone::new(ask, Origin::Live, answer));
    }
}

/// Ends the asks by the outcomes of the batch's keys.
fn end_writes<A: AskWrite, C: Leftover>(
    asks: Vec<A>,
    keys: BatchKeys,
    left: &C,
    fault: Option<u32>,
    done: &mut Vec<WriteDone<A>>,
)
    requires keys { keys.items ≡ map A.key asks.items }
    requires room { vec_len done.old + vec_len asks ≤ vec_capacity done.old }
    ensures items { done.new.items ≡ done.old.items
        ++ writes_done A.key (answer_in_batch (C.leftover_keys left.now) fault) asks.items }
    ensures room { vec_capacity done.new ≡ vec_capacity done.old }
{
    let split = keys.split(left, fault);
    let mut outcomes = split.outcomes();
    let mut asks = asks;
    asks.reverse();
    'ending: while let Some(ask) = asks.pop() {
        let answer = outcomes.next(ask.key());
        done.push_reserved(WriteDone::new(ask, Origin::Live, answer));
    }
    asks.destroy_empty();
}
