//! An entry processor that counts.
use itoa::Buffer;
use jc_mutentry::{EntryProcessor, MutableEntry};
use jc_outside::CacheLoader;
use jc_types::Value;
use std::str::from_utf8;

/// The code of a value that spells no number below `u32::MAX`.
const NO_NUMBER: u32 = 1;

/// Adds one to the number that the entry's value spells in decimal digits, and returns the sum. A missing entry counts as 0. A
/// value that spells no number below `u32::MAX` is a failure with code 1.
#[derive(Drop)]
pub struct Increment;

impl EntryProcessor for Increment {
    ghost use Rattle.std.specs.Prelude.{[]};

    ghost process_state = { λ p. [] };

    ghost processes = { λ p key args calls answers answer after. Unit {0} };

    fn process(
        &mut self,
        entry: &mut MutableEntry,
        loader: &mut dyn CacheLoader,
        _args: &[Value],
    ) -> Result<Option<Value>, u32> {
        let old = entry.get_value(loader)?;
        match next(&old) {
            Some(sum) => {
                entry.set_value(&sum);
                Ok(Some(sum))
            }
            None => Err(NO_NUMBER),
        }
    }
}

/// The number after the one that a value spells, if it spells a number and there is a next one.
fn next(value: &Option<Value>) -> Option<Value> {
    let number: u32 = match value {
        Some(value) => from_utf8(value.bytes()).ok()?.parse().ok()?,
        None => 0,
    };
    let mut buffer = Buffer::new();
    Value::new(buffer.format(number.checked_add(1)?).as_bytes()).ok()
}
