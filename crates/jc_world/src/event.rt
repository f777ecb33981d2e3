//! The events of a world, their outcomes, and a world's record of its calls.
ghost use Rattle.std.specs.Prelude.{◌≡◌};
ghost use Rattle.jc_world.specs.declared.event.Outcome.TheVariants as outcome;
ghost use Rattle.jc_world.specs.Events.{not_over};

use crate::command::Command;
use crate::process::{EntryCalls, LoadSource, ShownRun};
use crate::read_only::ReadOnlyList;
use crate::reports::{LeftKeys, Reported};
use jc_model::{Change, LoadAnswer, Out, Reply};
use jc_stripe::{Eviction, Reservation};
use jc_types::{Config, Key, Refusal, Value};

/// What may happen next. An event that names a call is about a call under way, but for `Call`. What doesn't fit is shown as
/// `Outcome::Unfit`, and changes nothing.
#[derive(Drop)]
pub enum WorldEvent {
    /// A session begins a call. It has no phase yet.
    ///
    /// It fits if the number is above all before it, the session is one and has no call under way, and the command is one operation
    /// on one key that is a call by itself, or one on many keys. `Op::LoadAll` is no call by itself.
    ///
    /// A call of more than [`BULK_KEYS_MAX`](jc_types::BULK_KEYS_MAX) keys is refused whole: it is over at once, and its number is
    /// used. So is a call of no keys over at once.
    Call {
        /// The call's number, which is to be above that of every call before it, of any session.
        call: u64,
        /// The session, from 1 to [`SESSIONS_MAX`](jc_types::SESSIONS_MAX).
        session: u32,
        /// The call's command.
        command: Command,
    },
    /// A call that takes the keys that are cached, as `clear` does, takes those of one stripe, in byte order: they are then keys of
    /// the call, behind those that it has, also those that are gone before their first phase. It looks at each stripe once, in any
    /// order: it fits at a stripe of the world at which the call hasn't looked yet.
    ///
    /// Such a call is over once it has looked at each stripe, and each key has its reply or last refusal: with its last look, if
    /// there is no key then. It may have any number of keys.
    Look {
        /// The call's number.
        call: u64,
        /// The number of the stripe, from 0.
        stripe: usize,
    },
    /// The first phase of a key of the call. It fits if the key has neither a reply nor a last refusal in this call, and the
    /// call has neither reserved it nor joined its load: before its first phase, and once the key was put off, or the call was told
    /// to retry or has given its reservation back. A call of many keys takes them in any order, whatever becomes of the others.
    Start {
        /// The call's number.
        call: u64,
        /// The call's key.
        key: Key,
    },
    /// The loader reads the store, and its answer is kept for the commit. It fits if the loader is asked and hasn't answered.
    Read {
        /// The number of the call that has the loader asked.
        call: u64,
        /// The key that the call has reserved.
        key: Key,
    },
    /// The loader answers this, whatever the store holds. It fits if the loader is asked and hasn't answered.
    Say {
        /// The number of the call that has the loader asked.
        call: u64,
        /// The key that the call has reserved.
        key: Key,
        /// The loader's answer: anything but `NotAsked`.
        answer: LoadAnswer,
    },
    /// The writer changes the store, as it was asked. It fits if the writer is asked and hasn't returned, also once more.
    ///
    /// In an `invokeAll` the writer isn't asked for any key while a key of the call waits for its processor. Then it is asked for the
    /// writes together, and once it has returned for these for the deletes.
    Change {
        /// The number of the call that has the writer asked.
        call: u64,
        /// The key that the call has reserved.
        key: Key,
    },
    /// The writer returns, for all keys of the call that it was asked for and hasn't returned for, whether it has changed the store
    /// for them or not. It fits if there is one. In an `invokeAll` these are first the keys with a write, and then those with a
    /// delete, as with `Change`: it returns twice if there are both, also after a fault.
    ///
    /// In a call of one key the write is committed if the writer reports no fault. In a call of many keys exactly the keys outside
    /// `left` are committed, also after a fault. A key that is left fails, with the fault's code or, after a normal return, with 0.
    Report {
        /// The number of the call that has the writer asked.
        call: u64,
        /// The keys that the writer's collection still holds. Keys that it isn't asked for now count for nothing, and in a call of
        /// one key no key counts.
        left: LeftKeys,
        /// The code with which the writer failed, or none if it returned normally.
        fault: Option<u32>,
    },
    /// The entry processor runs on the entry that the call found when it reserved the key (JSR 107, "Entry Processors"). It fits if
    /// the processor is asked and hasn't run. The store isn't changed: with write-through on the writer is then asked for the
    /// processor's net effect, unless there is none or the loader or the processor failed.
    Process {
        /// The number of the call that has the processor asked.
        call: u64,
        /// The key that the call has reserved.
        key: Key,
        /// How the loader answers if the processor's calls ask it.
        load: LoadSource,
        /// The calls that the processor makes on its entry, in their order. After a failed load it makes no further one.
        calls: EntryCalls,
        /// The code with which the processor then fails, or none if it returns the last value that it was given.
        fail: Option<u32>,
    },
    /// The last phase of the call's key. It fits if all that was asked, of loader, processor and writer, is answered.
    Commit {
        /// The call's number.
        call: u64,
        /// The key that the call has reserved.
        key: Key,
    },
    /// The reservation of the call's key is given back. It fits if nothing was answered outside for it, and nothing done.
    Withdraw {
        /// The call's number.
        call: u64,
        /// The key that the call has reserved.
        key: Key,
    },
    /// The call is over, without a reply. It fits if the call has neither reserved a key nor joined a load.
    Leave {
        /// The call's number.
        call: u64,
    },
    /// A call that has joined a load asks for its answer. It fits until the call was given that answer or told to retry, so
    /// also while the load isn't over.
    PickUp {
        /// The number of the call that has joined.
        call: u64,
        /// The key whose load it has joined.
        key: Key,
    },
    /// Somebody else writes or deletes in the store. It always fits.
    Foreign {
        /// The key, of any stripe.
        key: Key,
        /// What the store then holds for it: a value, or none if it is deleted.
        value: Option<Value>,
    },
    /// Somebody else has written the key in the store, and the cache forgets it: no call that begins later is answered from what was
    /// cached or reserved of it before.
    ///
    /// - If the key is reserved, it is marked: its entry stays until the reservation is over, and is evicted then. Each call that
    ///   begins at it meanwhile is `Busy`. Calls that have joined its load are answered.
    /// - Otherwise its entry is evicted, if it has one.
    ///
    /// It is nobody's call. It fits if the key is reserved, or has no entry, or a place of its stripe's history is free.
    Invalidate {
        /// The key, of any stripe.
        key: Key,
    },
    /// The cache is closed, and opened again in this shape. Of what was cached, stripe by stripe and in each the most recently used
    /// first, a stripe of the new shape keeps the first entries of its keys, as many as it has room for, in this order of use; the
    /// others are dropped. The histories are empty then. The store stays, and call numbers go on rising.
    ///
    /// It fits if no call is under way, and `Config::check` accepts the shape.
    Reopen {
        /// The new shape.
        config: Config,
    },
}

/// A step that was appended to the history of its stripe.
#[derive(Clone, Copy, Debug, PartialEq, Eq)]
pub struct Stepped {
    /// What the call is answered.
    pub reply: Reply,
    /// The number of the key's stripe, from 0.
    pub stripe: usize,
    /// The place of the step in the stripe's history, from 0.
    pub place: u32,
    /// The key that was evicted directly before the step, if the stripe was full.
    pub victim: Option<Key>,
    /// The eviction of the step's own key after it, if it was evicted.
    pub evicted: Option<Eviction>,
}

/// The eviction of an invalidated key, which no step told.
#[derive(Clone, Copy, Debug, PartialEq, Eq)]
pub struct EvictionPlace {
    /// The number of the key's stripe, from 0.
    pub stripe: usize,
    /// The place of the eviction in the stripe's history, from 0.
    pub place: usize,
}

/// The answer of a load that a call had joined.
#[derive(Clone, Copy, Debug, PartialEq, Eq)]
pub struct JoinAnswer {
    /// What the call is answered.
    pub reply: Reply,
    /// The number of the key's stripe, from 0.
    pub stripe: usize,
    /// The place of the call's own step in the stripe's history, from 0.
    pub place: u32,
    /// The place of the step that loaded, in the same history.
    pub shared: u32,
}

/// An event as it is shown: its outcome, and whether a call of many keys is over with it.
#[derive(Drop)]
pub struct Shown {
    /// The outcome.
    pub outcome: Outcome,
    /// The call of many keys that is over with the event, if one is. A call that leaves, or is refused whole, isn't over but given
    /// up, and a call of one key is over with the reply or refusal that the outcome says.
    pub over: Option<Over>,
}

/// A call of many keys that is over: each of its keys has its reply or last refusal, and it has looked at each stripe if it takes the
/// keys that are cached.
#[derive(Clone, Copy, Debug, PartialEq, Eq)]
pub struct Over {
    /// The call's number.
    pub call: u64,
    /// The first fault, or refusal that isn't put off, that the call has met: none if it has met none. An `invokeAll` never has one,
    /// since each of its keys has a result of its own (JSR 107, "Entry Processors").
    pub cause: Option<Refusal>,
}

/// The outcome of an event.
#[derive(Drop)]
pub enum Outcome {
    /// The call has begun.
    Begun,
    /// The call has looked at a stripe, and has taken its keys.
    Looked,
    /// A step was appended to the history of its stripe, in a first or a last phase.
    Stepped(Stepped),
    /// The key is reserved, and the loader is asked.
    Loads,
    /// The key is reserved, and the writer is asked for this.
    Asks(Change),
    /// The key is reserved, and the entry processor is to run on this entry: its value, or none if it is missing.
    Processes(Option<Value>),
    /// The key is being loaded by another call, and this one has joined that load.
    Joins,
    /// The first phase was refused, and the key has no reply in this call; or the call was refused whole.
    Refused(Refusal),
    /// The first phase of a key of a call of many keys was refused, and the key is to be tried again.
    PutOff(Refusal),
    /// The loader read this.
    Reads(LoadAnswer),
    /// The loader said this.
    Says(LoadAnswer),
    /// The entry processor has run.
    Processed(ShownRun),
    /// The writer has changed the store.
    Changed,
    /// The writer has returned.
    Reported(Reported),
    /// The reservation is given back. If its key was invalidated meanwhile, that is the eviction of its entry.
    Withdrawn(Option<EvictionPlace>),
    /// The call is over, without a reply.
    Left,
    /// The load that the call had joined is committed, and this is its answer, with which the key has its reply.
    PickedUp(JoinAnswer),
    /// The load that the call has joined isn't over.
    Waits,
    /// The load that the call had joined was withdrawn: the call is to retry at the key.
    Again,
    /// Somebody else has written the store.
    Written,
    /// The key was invalidated, and isn't reserved: the eviction of its entry, or none if it had no entry.
    Invalidated(Option<EvictionPlace>),
    /// The key was invalidated, and is reserved: its entry is evicted once the reservation is over.
    Marked,
    /// The cache was opened again, and these keys were dropped: old stripe by old stripe, the most recently used first.
    Reopened(ReadOnlyList<Key>),
    /// The event doesn't fit, and nothing was changed.
    Unfit,
}

/// Shows this outcome, with which no call of many keys is over. What was shown before is let go.
#[inline(always)]
pub(crate) fn show(seen: &mut Shown, outcome: Outcome)
    ensures { seen.new ≡ not_over outcome }
{
    *seen = Shown {
        outcome,
        over: None,
    };
}

/// Shows this outcome, and the call that is over with it, if one is. What was shown before is let go.
#[inline(always)]
pub(crate) fn show_end(seen: &mut Shown, outcome: Outcome, over: Option<Over>)
    ensures { seen.new ≡ record { outcome = outcome; over = over } }
{
    *seen = Shown { outcome, over };
}

/// That nothing has happened.
pub(crate) fn nothing_shown() -> Shown
    ensures { result ≡ not_over outcome.Unfit }
{
    Shown {
        outcome: Outcome::Unfit,
        over: None,
    }
}

/// A key that a call has reserved: for what, and how far that is.
#[derive(Clone, Copy, Debug, PartialEq, Eq)]
pub struct Part {
    /// The reservation: who reserved the key, for what, and whom the call asked first. It is the loader, the writer for a
    /// change, or the entry processor.
    pub reservation: Reservation,
    /// The answers for it so far, and what was done.
    pub progress: PartProgress,
}

/// The answers so far for a reserved key, and what was done.
#[derive(Clone, Copy, Debug, PartialEq, Eq)]
pub struct PartProgress {
    /// The change that the writer is asked for, if it is: first, or after the entry processor.
    pub change: Option<Change>,
    /// The outside answers. One that hasn't come yet is `NotAsked`, and so is one that nobody waits for.
    pub out: Out,
    /// Whether the writer has changed the store.
    pub is_changed: bool,
    /// Whether the loader's answer, or the writer's report, isn't so: what the commit leaves in the cache may not be the store's.
    pub is_misled: bool,
}

/// What has held since the world was opened last. Coherence but for untold keys needs a coherent opening alone; that no key is untold
/// needs the others, too.
#[derive(Clone, Copy, Debug, PartialEq, Eq)]
pub struct Premises {
    /// Honest writers: for each key each report said that it was written exactly if the writer had changed the store.
    pub writers: bool,
    /// Honest loaders: each answer was a failure, or what the store held for the key when it came.
    pub loaders: bool,
    /// A coherent opening: each entry with which the cache opened was the store's, but for foreign keys.
    pub opening: bool,
}
