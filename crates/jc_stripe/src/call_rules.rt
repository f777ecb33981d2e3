//! The rules by which a first phase decides: whether a call answers at once or may join a load, whom it asks first, and whether
//! it reserves its key. Functions that return a value are inlined, to save a copy of it.
ghost use Rattle.std.specs.Prelude.{◌≡◌, option_map};
ghost use Rattle.jc_model.specs.Table.{to_change};
ghost use Rattle.jc_model.specs.declared.event.ProcessAnswer.TheVariants.{NotAsked};
ghost use Rattle.jc_stripe.specs.Refusals.{answers_at_once, may_join, places_needed, first_asked, is_wanted, load_of, reserves, change_for};
ghost use Rattle.jc_stripe.specs.Tickets.{writer_for};
ghost use Rattle.jc_stripe.specs.Finding.{is_to_reserve};

use crate::ticket::First;
use jc_model::{Change, LentChange, LoaderAsk, Op, OpKind, ProcessAnswer};
use jc_types::{Config, HIT_PLACES, STEP_PLACES, Value};

/// The findings of a call at its key, before anything is done.
///
/// It copies neither the entry nor the one whom the call asks first, since both may hold a value.
#[derive(Clone, Copy)]
pub(crate) struct Found {
    /// The load that the call joins, if there is one.
    pub(crate) load: Option<u64>,
    /// Whether the call asks anybody, unless it joins a load.
    pub(crate) asks: bool,
    /// Whether the call neither answers from the entry nor joins a load.
    pub(crate) needs_free_key: bool,
    /// Whether the key is reserved, though the call needs it free.
    pub(crate) is_busy: bool,
}

/// Whether a call answers from the cached entry, even while its key is reserved.
pub(crate) fn answers_at_once(config: &Config, op: &Op, entry: &Option<Value>) -> bool
    ensures { result ≡ answers_at_once config.now op.now entry.now }
{
    match op.kind() {
        OpKind::Get => entry.is_some() || !config.read_through,
        OpKind::ContainsKey => true,
        OpKind::Write | OpKind::Clear | OpKind::LoadAll { .. } | OpKind::Invoke => false,
    }
}

/// Whether an operation may join a load.
pub(crate) fn may_join(op: &Op) -> bool
    ensures { result ≡ may_join op.now }
{
    match op.kind() {
        OpKind::Get => true,
        OpKind::ContainsKey | OpKind::Write | OpKind::Clear => false,
        OpKind::LoadAll { .. } | OpKind::Invoke => false,
    }
}

/// The free places that a call needs in the history.
pub(crate) fn places_needed(needs_free_key: bool) -> usize
    ensures { result ≡ places_needed needs_free_key }
{
    if needs_free_key {
        STEP_PLACES
    } else {
        HIT_PLACES
    }
}

/// The load of a reservation, if it asked the loader.
pub(crate) fn load_of(first: &First, number: u64) -> Option<u64>
    ensures { result ≡ load_of first.now number }
{
    match first {
        First::Loader => Some(number),
        First::Nobody | First::Writer(_) | First::Processor { .. } => None,
    }
}

/// Writes `First::Writer` to `first`, if a change is asked for.
#[inline(always)]
fn write_writer_for(change: Option<LentChange<'_>>, first: &mut First)
    ensures { first.new ≡ writer_for (option_map to_change change.entry) }
{
    match change {
        Some(LentChange::Write(value)) => *first = First::Writer(Change::Write(*value)),
        Some(LentChange::Delete) => *first = First::Writer(Change::Delete),
        None => *first = First::Nobody,
    }
}

/// The change that the writer is asked for if write-through is on: before any outside answer if `answer` is `NotAsked`, otherwise
/// after this answer of a processor.
#[inline(always)]
fn change_for<'a>(
    config: &Config,
    op: &'a Op,
    entry: &Option<Value>,
    answer: &'a ProcessAnswer,
) -> Option<LentChange<'a>>
    ensures { answer.now ≡ NotAsked → option_map to_change result ≡ change_for config.now op.now entry.now }
{
    if config.write_through {
        op.write_ask(entry, answer)
    } else {
        None
    }
}

/// Whether the loader is asked only if the processor asks for the value.
fn is_wanted(ask: &LoaderAsk) -> bool
    ensures { result ≡ is_wanted ask.now }
{
    match ask {
        LoaderAsk::Never | LoaderAsk::Always => false,
        LoaderAsk::IfWanted => true,
    }
}

/// Writes to `first` whom a call asks first.
#[inline(always)]
pub(crate) fn write_first_asked(config: &Config, op: &Op, entry: &Option<Value>, first: &mut First)
    ensures { first.new ≡ first_asked config.now op.now entry.now }
{
    let ask = op.loader_ask(config.read_through, entry);
    if op.is_invoke() {
        *first = First::Processor {
            entry: *entry,
            may_load: is_wanted(&ask),
        };
        return;
    }
    match ask {
        LoaderAsk::Never => {
            let change = change_for(config, op, entry, &ProcessAnswer::NotAsked);
            write_writer_for(change, first);
        }
        LoaderAsk::Always => {
            if !matches!(first, First::Loader) {
                *first = First::Loader;
            }
        }
        LoaderAsk::IfWanted => {
            *first = First::Processor {
                entry: None,
                may_load: true,
            };
        }
    }
}

/// Whether a call asks anybody, for which it has to reserve its key. It copies no value.
#[inline(always)]
pub(crate) fn asks_anybody(config: &Config, op: &Op, entry: &Option<Value>) -> bool
    ensures { result ≡ reserves (first_asked config.now op.now entry.now) }
{
    if op.is_invoke() {
        return true;
    }
    match op.loader_ask(config.read_through, entry) {
        LoaderAsk::Never => change_for(config, op, entry, &ProcessAnswer::NotAsked).is_some(),
        LoaderAsk::Always | LoaderAsk::IfWanted => true,
    }
}

/// Whether a call reserves its key.
pub(crate) fn is_to_reserve(found: &Found) -> bool
    ensures { result ≡ is_to_reserve found.now }
{
    found.load.is_none() && found.asks
}
