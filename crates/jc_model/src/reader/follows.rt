//! How the reader goes over an event: its stage afterwards, and the cache.
ghost use Rattle.std.specs.Prelude.{◌≡◌, IfOk, OnOk};
ghost use Rattle.jc_model.specs.Group.{cache_after_step};
ghost use Rattle.jc_model.specs.Reader.{read_group, opened_group, started_stage, started_cache, then_stage, then_cache};

use crate::contents::Contents;
use crate::event::{Cause, Event};
use crate::reader::fits::{ReadStep, does_insert, entry_before};
use crate::reader::{Opened, Stage};
use jc_types::{Config, Key};
use std::alloc::AllocError;

/// The data that the reader keeps of a group at its step.
fn opened_group(
    config: &Config,
    contents: &Contents,
    place: usize,
    victim: &Option<Key>,
    step: &ReadStep,
) -> Opened
    ensures { (reply : _) → result ≡ opened_group config.now contents.now place
        (read_group victim.now (record { session = 0; call = 0 }) step.now.op.now step.now.key.now step.now.out.now reply) }
{
    let entry = entry_before(contents, victim, step.key);
    Opened {
        place,
        key: *step.key,
        load: step.out.load,
        is_joinable: config.read_through
            && step.op.loads_whole()
            && entry.is_none()
            && step.out.load.is_given(),
        is_inserted: does_insert(&entry, step.op, step.out),
        was_full: contents.len() == config.capacity && victim.is_none(),
    }
}

/// Removes a victim, and gives the step's key the entry that the step leaves.
fn make_step(
    contents: &mut Contents,
    victim: &Option<Key>,
    step: &ReadStep,
) -> Result<(), AllocError>
    ensures { (reply : _) → OnOk result (contents.new ≡ cache_after_step contents.old
        (read_group victim.now (record { session = 0; call = 0 }) step.now.op.now step.now.key.now step.now.out.now reply)) }
{
    if let Some(victim) = victim {
        contents.remove(victim);
    }
    let entry = contents.get(step.key);
    let left = step.op.entry_after(entry, step.out).copied();
    contents.set(step.key, left)?;
    Ok(())
}

/// Goes over an event that fits.
pub(super) fn go_over(
    config: &Config,
    contents: &mut Contents,
    stage: &Stage,
    place: usize,
    event: &Event,
) -> Result<Stage, AllocError>
    ensures stage { IfOk result (λ next. next ≡ then_stage config.now contents.old place stage.now event.now) }
    ensures cache { OnOk result (contents.new ≡ then_cache contents.old stage.now event.now) }
{
    match event {
        Event::Step {
            op,
            key,
            out,
            shared_with,
            ..
        } => match shared_with {
            Some(_) => Ok(*stage),
            None => {
                let victim = stage.victim();
                let step = ReadStep { op, key, out };
                let kept = opened_group(config, contents, place, &victim, &step);
                make_step(contents, &victim, &step)?;
                Ok(Stage::Inside(kept))
            }
        },
        Event::Evict { key, cause } => {
            if let Stage::Inside(kept) = stage
                && kept.does_own_go(key, *cause)
            {
                contents.remove(key);
                return Ok(Stage::Outside);
            }
            if let Stage::Picked(_) = stage {
                return Ok(Stage::Picked(*key));
            }
            Ok(start_part(contents, key, *cause))
        }
    }
}

/// Goes over an eviction that begins a part: a victim goes with its step, and an invalidated key goes now.
fn start_part(contents: &mut Contents, key: &Key, cause: Cause) -> Stage
    ensures stage { result ≡ started_stage key.now cause }
    ensures cache { contents.new ≡ started_cache contents.old key.now cause }
{
    match cause {
        Cause::Full | Cause::Memory => Stage::Picked(*key),
        Cause::Invalidated => {
            contents.remove(key);
            Stage::Outside
        }
    }
}
