//! How the checker reads a history, event by event: where it is, and what it keeps of a group.
ghost use Rattle.std.specs.Prelude.{◌≡◌, ◌↔◌, IsTrue, IfOk};
ghost use Rattle.std.specs.FinMap.{from_entries};
ghost use Rattle.jc_model.specs.Listed.{has_distinct_keys};
ghost use Rattle.jc_model.specs.Reader.{own_goes, starts_part, picked_victim, is_within, fits_evict, may_stop, Accepts};

mod fits;
mod follows;

use crate::contents::Contents;
use crate::event::{Cause, Event, LoadAnswer};
use crate::reader::fits::does_fit;
use crate::reader::follows::go_over;
use jc_types::{Config, Key, Value};
use std::alloc::{AllocError, Global};

/// The data that the reader keeps of a group whose step was read.
#[derive(Clone, Copy)]
pub(crate) struct Opened {
    // The place of the step.
    place: usize,
    // The step's key, and its loader's answer.
    key: Key,
    load: LoadAnswer,
    // Whether other callers may share the load.
    is_joinable: bool,
    // Whether the key was missing before the step and is there after it.
    is_inserted: bool,
    // Whether the stripe was full before the step, and no entry was evicted for it.
    was_full: bool,
}

/// Where the reader is.
#[derive(Clone, Copy)]
pub(crate) enum Stage {
    /// Between two groups, after an event that ended its group for certain.
    Outside,
    /// After the eviction of this key, which begins a group.
    Picked(Key),
    /// After the step of a group.
    Inside(Opened),
}

impl Opened {
    /// Whether the step's own key may be evicted.
    fn does_own_go(&self, key: &Key, cause: Cause) -> bool
        ensures { result ≡ own_goes self.now key.now cause }
    {
        let does_cause_fit = match cause {
            Cause::Full => self.was_full,
            Cause::Memory => true,
            Cause::Invalidated => false,
        };
        *key == self.key && self.is_inserted && does_cause_fit
    }
}

/// Whether an eviction of this key may begin a part of a history.
fn does_start_part(contents: &Contents, key: &Key, cause: Cause) -> bool
    ensures { result ≡ starts_part contents.now key.now cause }
{
    match cause {
        Cause::Full => true,
        Cause::Memory => false,
        Cause::Invalidated => contents.get(key).is_some(),
    }
}

impl Stage {
    /// The victim of the group that comes next.
    fn victim(&self) -> Option<Key>
        ensures { result ≡ picked_victim self.now }
    {
        match self {
            Stage::Picked(key) => Some(*key),
            Stage::Outside | Stage::Inside(_) => None,
        }
    }

    /// Whether at most `capacity` entries are there, if a group ends here.
    fn is_within(&self, config: &Config, contents: &Contents) -> bool
        ensures { result ≡ is_within config.now contents.now self.now }
    {
        match self {
            Stage::Inside(_) => contents.len() <= config.capacity,
            Stage::Outside | Stage::Picked(_) => true,
        }
    }

    /// Whether an eviction may come next.
    fn does_evict_fit(&self, config: &Config, contents: &Contents, key: &Key, cause: Cause) -> bool
        ensures { result ≡ fits_evict config.now contents.now self.now key.now cause }
    {
        let starts = does_start_part(contents, key, cause);
        match self {
            Stage::Outside => starts,
            Stage::Picked(_) => false,
            Stage::Inside(kept) => {
                kept.does_own_go(key, cause) || (starts && contents.len() <= config.capacity)
            }
        }
    }

    /// Whether the history may end.
    fn may_stop(&self, config: &Config, contents: &Contents) -> bool
        ensures { result ≡ may_stop config.now contents.now self.now }
    {
        match self {
            Stage::Outside => true,
            Stage::Picked(_) => false,
            Stage::Inside(_) => contents.len() <= config.capacity,
        }
    }
}

/// Whether the events can be read, each after those before it.
pub(crate) fn are_accepted(
    alloc: Global,
    config: &Config,
    opening: &[(Key, Value)],
    events: &[Event],
) -> Result<bool, AllocError>
    requires { IsTrue (has_distinct_keys opening.now) }
    ensures { IfOk result (λ b. IsTrue b ↔ Accepts config.now 0 (from_entries opening.now) Stage.Outside events.now) }
{
    // Names the type inside a `Stage`: otherwise the proof of this function doesn't find it.
    let _names: Option<Opened> = None;
    let mut contents = Contents::of(alloc, opening)?;
    let mut stage = Stage::Outside;
    for (place, event) in events.iter().enumerate() {
        if !does_fit(config, &contents, &stage, event) {
            return Ok(false);
        }
        stage = go_over(config, &mut contents, &stage, place, event)?;
    }
    Ok(stage.may_stop(config, &contents))
}
