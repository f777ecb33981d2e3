//! The operations of a call at its keys, and which of them are open.
ghost use Rattle.std.specs.Prelude.{◌≡◌, ◌==◌, ◌&&◌, ◌||◌, ◌+◌, ◌≤◌, ◌<◌, ◌++◌, ◌∷◌, [], true, Some, None, is_some, is_none, length, option_copied};
ghost use Rattle.std.specs.Prelude.{OnErr, OnOk, IfOk};
ghost use Rattle.std.specs.List.{list_all, list_any, IsDistinct};
ghost use Rattle.std.specs.Map.{keys_of, lookup, set_value};
ghost use Rattle.std.specs.Cmp.Lexicographic.{pointwise};
ghost use Rattle.jc_world.specs.Calls.{at_each, put_each_of, tasks, op_in, is_open, open_in, sweep_of};
ghost use Rattle.jc_world.specs.declared.tasks.Tasks.TheVariants.{One};
ghost use Rattle.jc_world.specs.OpenCalls.{tasks_of, are_new, IsCountKept, IsMany, IsSwept};
ghost use Rattle.indexmap.specs.IndexMap.{spare};
ghost use Rattle.jc_world.specs.World.{is_free_of, waits_for_process};
ghost use Rattle.jc_world.specs.Fits.{passes_in, is_in_batch};
ghost use Rattle.jc_world.specs.Events.{reported_keys};
ghost use Rattle.jc_world.specs.Held.{parts_of, joins_of};

use crate::command::Command;
use crate::held_keys::{HeldKeys, held_by, is_being_written, reported_key, waits_for_process};
use crate::joined::{Joins, has_join};
use crate::reports::{ReportedKey, WriterBatch};
use indexmap::{IndexMap, IndexSet};
use jc_model::{Change, Op};
use jc_types::{Key, Value};
use std::alloc::{AllocError, Global};

/// The operations of a call at its keys, in the order of its command. A settled key has none any more.
#[derive(Drop)]
pub(crate) enum Tasks {
    /// At one key. This takes no memory.
    One {
        key: Key,
        op: Option<Op>,
    },
    /// At each of many keys, with how many of them are open.
    Many {
        ops: IndexMap<Key, Option<Op>>,
        count: usize,
    },
}

/// Leaves this operation in `room`: in its place if there was one, so that its values aren't copied on the way.
#[inline(always)]
fn put_op(room: &mut Option<Op>, op: &Op)
    ensures { room.new ≡ Some op.now }
{
    match &mut *room {
        Some(own) => own.copy_from(op),
        _ => *room = Some(*op),
    }
}

/// Makes these the task of one operation at one key, in its place if they were that already.
#[inline(always)]
pub(crate) fn put_one(tasks: &mut Tasks, key: &Key, op: &Op)
    ensures { tasks.new ≡ One key.now (Some op.now) }
{
    match &mut *tasks {
        Tasks::One { key: own, op: room } => {
            *own = *key;
            put_op(room, op);
        }
        _ => {
            *tasks = Tasks::One {
                key: *key,
                op: Some(*op),
            };
        }
    }
}

/// The operations of a command, at keys that are all open.
pub(crate) fn tasks_for(alloc: Global, command: &Command) -> Result<Tasks, AllocError>
    ensures tasks { IfOk result (λ t. tasks_of t ≡ tasks command.now) }
    ensures counted { IfOk result (λ t. IsCountKept t) }
    ensures swept { IfOk result (λ t. IsSwept (sweep_of command.now) t) }
{
    match command {
        Command::Single { op, key } => Ok(Tasks::One {
            key: *key,
            op: Some(*op),
        }),
        Command::GetAll { keys } => at_each(alloc, keys, &Op::Get),
        Command::PutAll { entries } => puts(alloc, entries),
        Command::RemoveAll { keys } => at_each(alloc, keys, &Op::Remove),
        Command::RemoveEvery | Command::Clear => Ok(Tasks::Many {
            ops: IndexMap::new(alloc),
            count: 0,
        }),
        Command::LoadAll { replace, keys } => {
            at_each(alloc, keys, &Op::LoadAll { replace: *replace })
        }
        Command::InvokeAll { keys } => at_each(alloc, keys, &Op::Invoke),
    }
}

/// One operation at each of some keys.
fn at_each(alloc: Global, keys: &IndexSet<Key>, op: &Op) -> Result<Tasks, AllocError>
    ensures tasks { IfOk result (λ t. tasks_of t ≡ at_each op.now keys.now.keys) }
    ensures counted { IfOk result (λ t. IsCountKept t) }
{
    let mut ops = IndexMap::with_capacity(alloc, keys.len())?;
    put_each(&mut ops, keys.as_slice(), op)?;
    let count = ops.len();
    Ok(Tasks::Many { ops, count })
}

fn put_each(ops: &mut IndexMap<Key, Option<Op>>, keys: &[Key], op: &Op) -> Result<(), AllocError>
    requires empty { ops.old.entries ≡ [] }
    requires distinct { IsDistinct (pointwise ◌==◌) keys.now }
    ensures ops { OnOk result (ops.new.entries ≡ at_each op.now keys.now) }
{
    for key in keys {
        ops.insert(*key, Some(*op))?;
    }
    Ok(())
}

/// A `Put` of each of some entries.
fn puts(alloc: Global, entries: &IndexMap<Key, Value>) -> Result<Tasks, AllocError>
    ensures tasks { IfOk result (λ t. tasks_of t ≡ put_each_of entries.now.entries) }
    ensures counted { IfOk result (λ t. IsCountKept t) }
{
    let mut ops = IndexMap::with_capacity(alloc, entries.len())?;
    put_values(&mut ops, entries)?;
    let count = ops.len();
    Ok(Tasks::Many { ops, count })
}

fn put_values(
    ops: &mut IndexMap<Key, Option<Op>>,
    entries: &IndexMap<Key, Value>,
) -> Result<(), AllocError>
    requires { ops.old.entries ≡ [] }
    ensures { OnOk result (ops.new.entries ≡ put_each_of entries.now.entries) }
{
    for place in 0..entries.len() {
        match entries.get_index(place) {
            Some((key, value)) => {
                ops.insert(*key, Some(Op::Put(*value)))?;
            }
            None => unreachable!(),
        }
    }
    Ok(())
}

/// No key is named twice. This does nothing: its contract is the statement.
pub(crate) fn names_each_once(tasks: &Tasks)
    ensures { IsDistinct (pointwise ◌==◌) (keys_of (tasks_of tasks.now)) }
{
    match tasks {
        Tasks::One { key: _, op: _ } => {}
        Tasks::Many { ops, count: _ } => {
            let _ = ops.len();
        }
    }
}

/// The one key, if it is open.
#[tactic(auto, using(crate::proofs::TaskLists::one_distinct))]
pub(crate) fn put_if_open(key: &Key, op: &Option<Op>, keys: &mut Vec<Key>) -> Result<(), AllocError>
    ensures keys { OnOk result (
        keys.new.items ≡ keys.old.items ++ open_in ((key.now, op.now) ∷ [])) }
    ensures distinct { IsDistinct (pointwise ◌==◌) (open_in ((key.now, op.now) ∷ [])) }
{
    if op.is_some() {
        keys.push(*key)?;
    }
    Ok(())
}

/// The keys that are open.
#[tactic(auto, using(crate::proofs::TaskLists::open_distinct))]
pub(crate) fn put_open_among(
    ops: &IndexMap<Key, Option<Op>>,
    keys: &mut Vec<Key>,
) -> Result<(), AllocError>
    ensures keys { OnOk result (keys.new.items ≡ keys.old.items ++ open_in ops.now.entries) }
    ensures distinct { IsDistinct (pointwise ◌==◌) (open_in ops.now.entries) }
{
    for (key, op) in ops.iter() {
        if op.is_some() {
            keys.push(*key)?;
        }
    }
    Ok(())
}

/// One task.
pub(crate) fn push_task(
    key: &Key,
    op: &Option<Op>,
    out: &mut Vec<(Key, Option<Op>)>,
) -> Result<(), AllocError>
    ensures { OnOk result (out.new.items ≡ out.old.items ++ (key.now, op.now) ∷ []) }
{
    out.push((*key, *op))?;
    Ok(())
}

/// Each task, in their order.
pub(crate) fn push_tasks(
    ops: &IndexMap<Key, Option<Op>>,
    out: &mut Vec<(Key, Option<Op>)>,
) -> Result<(), AllocError>
    ensures { OnOk result (out.new.items ≡ out.old.items ++ ops.now.entries) }
{
    for (key, op) in ops.iter() {
        push_task(key, op, out)?;
    }
    Ok(())
}

/// The operation at a key, if it is open.
pub(crate) fn op_among<'a>(ops: &'a IndexMap<Key, Option<Op>>, key: &Key) -> Option<&'a Op>
    ensures { option_copied result ≡ op_in ops.now.entries key.now }
{
    match ops.get(key) {
        Some(op) => op.as_ref(),
        None => None,
    }
}

/// Whether a key is open.
fn is_open_among(ops: &IndexMap<Key, Option<Op>>, key: &Key) -> bool
    ensures { result ≡ is_some (op_in ops.now.entries key.now) }
{
    op_among(ops, key).is_some()
}

/// Whether a call has neither a reservation nor a join of a key.
pub(crate) fn is_free_at(call: u64, key: &Key, held: &HeldKeys, joins: &Joins) -> bool
    ensures { result ≡ is_free_of (parts_of held.now) (joins_of joins.now) call key.now }
{
    held_by(held, call, key).is_none() && !has_join(joins, call, key)
}

/// Whether the call has neither reserved nor joined any of these keys that are open.
pub(crate) fn are_free(
    call: u64,
    ops: &IndexMap<Key, Option<Op>>,
    held: &HeldKeys,
    joins: &Joins,
) -> bool
    ensures { result ≡ list_all
        (λ task. is_none task.1 || is_free_of (parts_of held.now) (joins_of joins.now) call task.0) ops.now.entries }
{
    ops.iter().all(|(key, op)| op.is_none() || is_free_at(call, key, held, joins))
}

/// Whether one of these keys is open and waits for its processor.
pub(crate) fn one_waits(call: u64, ops: &IndexMap<Key, Option<Op>>, held: &HeldKeys) -> bool
    ensures { result ≡ list_any
        (λ task. is_some task.1 && passes_in waits_for_process (parts_of held.now) call task.0) ops.now.entries }
{
    ops.iter().any(|(key, op)| op.is_some() && waits_for_process(held, call, key))
}

/// Whether one of these keys is open and among those for which the writer is asked at once.
pub(crate) fn one_asked(
    call: u64,
    ops: &IndexMap<Key, Option<Op>>,
    held: &HeldKeys,
    batch: WriterBatch,
) -> bool
    ensures { result ≡ list_any
        (λ task. is_some task.1 && passes_in (is_in_batch batch) (parts_of held.now) call task.0) ops.now.entries }
{
    ops.iter().any(|(key, op)| op.is_some() && is_being_written(held, call, key, batch))
}

/// Appends what a return of the writer shows of a key, if the key is open and the writer returns for it.
pub(crate) fn push_reported(
    reported: &mut Vec<ReportedKey>,
    call: u64,
    key: &Key,
    op: &Option<Op>,
    held: &HeldKeys,
    batch: WriterBatch,
) -> Result<(), AllocError>
    ensures { OnOk result (reported.new.items ≡ reported.old.items
        ++ reported_keys batch (parts_of held.now) call (open_in ((key.now, op.now) ∷ []))) }
{
    let _types: Option<&(Change, Value)> = None;
    if op.is_some() {
        if let Some(one) = reported_key(held, call, key, batch) {
            reported.push(one)?;
        }
    }
    Ok(())
}

/// Appends for each of these keys what [`push_reported`] appends.
pub(crate) fn push_each(
    reported: &mut Vec<ReportedKey>,
    call: u64,
    ops: &IndexMap<Key, Option<Op>>,
    held: &HeldKeys,
    batch: WriterBatch,
) -> Result<(), AllocError>
    ensures { OnOk result (reported.new.items ≡ reported.old.items
        ++ reported_keys batch (parts_of held.now) call (open_in ops.now.entries)) }
{
    for (key, op) in ops.iter() {
        push_reported(reported, call, key, op, held, batch)?;
    }
    Ok(())
}

/// Adds an operation at each of some new keys.
pub(crate) fn take_keys(tasks: &mut Tasks, keys: &[Key], op: &Op) -> Result<(), AllocError>
    requires counted { IsCountKept tasks.old }
    requires many { IsMany tasks.old }
    requires new { are_new (tasks_of tasks.old) keys.now ≡ true }
    requires distinct { IsDistinct (pointwise ◌==◌) keys.now }
    ensures ok { OnOk result (tasks_of tasks.new ≡ tasks_of tasks.old ++ at_each op.now keys.now) }
    ensures err { OnErr result (tasks_of tasks.new ≡ tasks_of tasks.old) }
    ensures counted { IsCountKept tasks.new }
    ensures many { IsMany tasks.new }
{
    match tasks {
        Tasks::One { key: _, op: _ } => unreachable!(),
        Tasks::Many { ops, count } => {
            ops.reserve(keys.len())?;
            let before = ops.len();
            add_each(ops, keys, op);
            *count += ops.len() - before;
            Ok(())
        }
    }
}

/// Adds an operation at each of some new keys, for which there is room.
fn add_each(ops: &mut IndexMap<Key, Option<Op>>, keys: &[Key], op: &Op)
    requires room { length keys.now ≤ spare ops.old }
    requires new { are_new ops.old.entries keys.now ≡ true }
    requires distinct { IsDistinct (pointwise ◌==◌) keys.now }
    ensures { ops.new.entries ≡ ops.old.entries ++ at_each op.now keys.now }
{
    for key in keys {
        add_one(ops, key, op);
    }
}

/// Adds an operation at a new key, for which there is room.
fn add_one(ops: &mut IndexMap<Key, Option<Op>>, key: &Key, op: &Op)
    requires room { 0 < spare ops.old }
    requires new { lookup (pointwise ◌==◌ key.now) ops.old.entries ≡ None }
    ensures ops { ops.new.entries ≡ ops.old.entries ++ (key.now, Some op.now) ∷ [] }
    ensures room { spare ops.old ≤ spare ops.new + 1 }
{
    match ops.insert(*key, Some(*op)) {
        Ok(_former) => {}
        Err(_failed) => unreachable!(),
    }
}

/// A key is settled.
pub(crate) fn settle_at(tasks: &mut Tasks, key: &Key)
    requires counted { IsCountKept tasks.old }
    ensures tasks { tasks_of tasks.new ≡ set_value (pointwise ◌==◌ key.now) (tasks_of tasks.old) None }
    ensures counted { IsCountKept tasks.new }
    ensures many { IsMany tasks.old → IsMany tasks.new }
{
    match tasks {
        Tasks::One { key: own, op } => {
            if *key == *own {
                *op = None;
            }
        }
        Tasks::Many { ops, count } => settle_among(ops, count, key),
    }
}

fn settle_among(ops: &mut IndexMap<Key, Option<Op>>, count: &mut usize, key: &Key)
    requires counted { count.old ≡ length (open_in ops.old.entries) }
    ensures ops { ops.new.entries ≡ set_value (pointwise ◌==◌ key.now) ops.old.entries None }
    ensures counted { count.new ≡ length (open_in ops.new.entries) }
{
    if !is_open_among(ops, key) {
        return;
    }
    match ops.insert(*key, None) {
        Ok(_op) => *count -= 1,
        Err(_failed) => unreachable!(),
    }
}

/// Whether a key is open.
pub(crate) fn are_open(tasks: &Tasks) -> bool
    requires { IsCountKept tasks.now }
    ensures { result ≡ list_any is_open (tasks_of tasks.now) }
{
    match tasks {
        Tasks::One { key: _, op } => op.is_some(),
        Tasks::Many { ops: _, count } => *count != 0,
    }
}
