//! A call under way as a row of numbers.
ghost use Rattle.std.specs.Prelude.{◌≡◌, List, ℕ, IfOk};
ghost use Rattle.jc_world.specs.Calls.{looked_in};
ghost use Rattle.jc_snapshot.specs.Numbers.{AreNumbers, Continues};
ghost use Rattle.jc_snapshot.specs.Rows.{flat, AreRows};
ghost use Rattle.jc_snapshot.specs.Snapshot.{IsOpenCallRow, GrowsTo};

use crate::heads::head_of;
use crate::rows::{push_row, three_rows};
use crate::seen::Seen;
use crate::table::{Table, numbers_of};
use jc_model::Op;
use jc_types::Key;
use jc_world::OpenCall;
use std::alloc::{AllocError, Global};

/// The rows of calls, written one after another. An `Err` says that an allocation failed.
pub(crate) fn call_rows(
    alloc: Global,
    calls: &[OpenCall],
    seen: &mut Seen,
) -> Result<Vec<u64>, AllocError>
    ensures rows { IfOk result (λ words. (rows : List (List ℕ)) × (words.items ≡ flat rows)
        × AreRows (IsOpenCallRow seen.new) calls.now rows) }
    ensures grows { GrowsTo seen.old seen.new }
{
    let mut words = Vec::new(alloc);
    for call in calls {
        let row = call_row(alloc, call, seen)?;
        push_row(&mut words, &row)?;
    }
    Ok(words)
}

/// The row of a call. An `Err` says that an allocation failed.
fn call_row(alloc: Global, call: &OpenCall, seen: &mut Seen) -> Result<Vec<u64>, AllocError>
    ensures row { IfOk result (λ row. IsOpenCallRow seen.new call.now row.items) }
    ensures grows { GrowsTo seen.old seen.new }
{
    let head = seen.heads.number_of(&head_of(call))?;
    let tasks = task_numbers(alloc, call, &mut seen.tasks)?;
    let looked = looked_words(alloc, call)?;
    let row = three_rows(alloc, &[head], &tasks, &looked)?;
    Ok(row)
}

/// The numbers of the operations of a call at its keys.
fn task_numbers(
    alloc: Global,
    call: &OpenCall,
    table: &mut Table<(Key, Option<Op>)>,
) -> Result<Vec<u64>, AllocError>
    ensures numbers { IfOk result (λ numbers. AreNumbers table.new call.now.tasks numbers.items) }
    ensures grows { Continues table.old table.new }
{
    let mut tasks = Vec::new(alloc);
    call.put_tasks(&mut tasks)?;
    let numbers = numbers_of(alloc, table, &tasks)?;
    Ok(numbers)
}

/// The stripes at which a call has looked, if it is to look at more.
fn looked_words(alloc: Global, call: &OpenCall) -> Result<Vec<u64>, AllocError>
    ensures { IfOk result (λ words. words.items ≡ looked_in call.now.sweep) }
{
    let looked = call.looked();
    let mut words = Vec::with_capacity(alloc, looked.len())?;
    for stripe in looked {
        words.push(*stripe as u64)?;
    }
    Ok(words)
}
