//! Calls of a loader and a writer, while no stripe is held.
ghost use Rattle.std.specs.Prelude.{◌≡◌, true, IsSome, Some, is_some};
ghost use Rattle.jc_model.specs.Table.{is_load_given, is_write_given};
ghost use Rattle.jc_outside.specs.declared.done.Origin.TheVariants.{Live};
ghost use Rattle.jc_outside.specs.Calling.{load_answer, write_answer, LoadsOnce, WritesOnce, KeepsType};

use crate::ask::{Ask, AskWrite};
use crate::done::{LoadDone, Origin, WriteDone};
use crate::hands::{Hands, Outside};
use crate::loader::CacheLoader;
use crate::writer::CacheWriter;
use jc_model::{Change, LoadAnswer, WriteAnswer};
use jc_types::{Key, Value};
use std::sync::Wait;

/// Calls the loader once, with the key of the ask. Without a loader nothing is found.
///
/// It may wait, as long as the loader does.
///
/// Condition: the session holds no stripe.
pub fn call_loader<A: Ask, R: Wait>(_rt: &R, hands: &mut Hands<Outside>, ask: A) -> LoadDone<A>
    requires { hands.old.held ≡ 0 }
    ensures ask { result.ask ≡ ask }
    ensures origin { result.origin ≡ Live }
    ensures given { is_load_given result.answer ≡ true }
    ensures loader { LoadsOnce loads load_state hands.old.outside.loader (A.key ask) result.answer hands.new.outside.loader }
    ensures loader_type { KeepsType hands.old.outside.loader hands.new.outside.loader }
    ensures writer { hands.new.outside.writer ≡ hands.old.outside.writer }
    ensures held { hands.new.held ≡ 0 }
{
    let answer = ask_loader(&mut hands.outside.loader, ask.key());
    LoadDone::new(ask, Origin::Live, answer)
}

/// Calls the writer once, for the change that is asked for: `write` with the key and the value, or `delete` with the key.
///
/// It may wait, as long as the writer does.
///
/// Conditions: the session holds no stripe, and has brought a writer, and the writer is asked.
pub fn call_writer<A: AskWrite, R: Wait>(
    _rt: &R,
    hands: &mut Hands<Outside>,
    ask: A,
) -> WriteDone<A>
    requires held { hands.old.held ≡ 0 }
    requires writer { IsSome hands.old.outside.writer }
    requires change { is_some (A.change ask) ≡ true }
    ensures ask { result.ask ≡ ask }
    ensures origin { result.origin ≡ Live }
    ensures given { is_write_given result.answer ≡ true }
    ensures writer { WritesOnce writes write_state hands.old.outside.writer
        (A.key ask) (A.change ask) result.answer hands.new.outside.writer }
    ensures writer_type { KeepsType hands.old.outside.writer hands.new.outside.writer }
    ensures loader { hands.new.outside.loader ≡ hands.old.outside.loader }
    ensures held { hands.new.held ≡ 0 }
{
    let answer = ask_writer(&mut hands.outside.writer, ask.key(), &ask.change());
    WriteDone::new(ask, Origin::Live, answer)
}

fn ask_loader(loader: &mut Option<Box<dyn CacheLoader + Send + Drop>>, key: &Key) -> LoadAnswer
    ensures loader { LoadsOnce loads load_state loader.old key.now result loader.new }
    ensures loader_type { KeepsType loader.old loader.new }
    ensures given { is_load_given result ≡ true }
{
    match loader {
        Some(loader) => load_answer(loader.load(key)),
        None => LoadAnswer::Nothing,
    }
}

fn ask_writer(
    writer: &mut Option<Box<dyn CacheWriter + Send + Drop>>,
    key: &Key,
    change: &Change,
) -> WriteAnswer
    requires { IsSome writer.old }
    ensures writer { WritesOnce writes write_state writer.old key.now (Some change.now) result writer.new }
    ensures writer_type { KeepsType writer.old writer.new }
    ensures given { is_write_given result ≡ true }
{
    match writer {
        Some(writer) => match change {
            Change::Write(value) => write_answer(writer.write(key, value)),
            Change::Delete => write_answer(writer.delete(key)),
        },
        None => unreachable!(),
    }
}

/// The answer of a loader, by the return of its `load`.
pub fn load_answer(returned: Result<Option<Value>, u32>) -> LoadAnswer
    ensures answer { result ≡ load_answer returned }
    ensures given { is_load_given result ≡ true }
{
    match returned {
        Ok(Some(value)) => LoadAnswer::Found(value),
        Ok(None) => LoadAnswer::Nothing,
        Err(code) => LoadAnswer::Failed(code),
    }
}

fn write_answer(returned: Result<(), u32>) -> WriteAnswer
    ensures answer { result ≡ write_answer returned }
    ensures given { is_write_given result ≡ true }
{
    match returned {
        Ok(()) => WriteAnswer::Done,
        Err(code) => WriteAnswer::Failed(code),
    }
}
