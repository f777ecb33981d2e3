//! The lines of a script, by their meaning.
ghost use Rattle.std.specs.Prelude.{◌≡◌};

use crate::read::distinct_pairs::DistinctPairs;
use crate::read::keys::Keys;
use crate::read::pairs::Pairs;
use jc_model::Op;
use jc_types::{Config, Key, Value};
use jc_world::process::{EntryCalls, LoadSource};

/// One operation on one key.
#[derive(Clone, Copy, Debug, PartialEq, Eq)]
pub struct Operation {
    /// The operation.
    pub op: Op,
    /// The key.
    pub key: Key,
}

/// The next step of a call.
#[derive(Drop)]
pub enum ScriptAct {
    /// The loader reads the store.
    Read,
    /// The loader fails with this code.
    ReadFail(u32),
    /// The loader says what the pairs say.
    Say(Pairs),
    /// The writer does as it was asked, but at these keys, if keys are named: those it leaves.
    Apply(Option<Keys>),
    /// The writer fails with this code. It did nothing or, if keys are named, as it was asked but at these.
    ApplyFail(u32, Option<Keys>),
    /// The writer fails with this code, and did as it was asked.
    ApplyLie(u32),
    /// The call ends.
    End,
    /// The call gives up, and its reservation is given back.
    Drop,
    /// The call retries.
    More,
    /// The call asks for the answer of the load that it has joined.
    Take,
    /// The entry processor runs.
    Process {
        /// How its loader answers if it is asked.
        load: LoadSource,
        /// The calls that it makes on its entry.
        calls: EntryCalls,
        /// The code with which it fails, if it does.
        fail: Option<u32>,
    },
}

/// A call of many keys.
#[derive(Drop)]
pub enum BulkLine {
    /// `getAll` of these keys.
    GetAll(Keys),
    /// `putAll` of these entries.
    PutAll(DistinctPairs),
    /// `removeAll` of these keys.
    RemoveAll(Keys),
    /// `removeAll` of every key that is cached.
    RemoveEvery,
    /// `clear`.
    Clear,
    /// `loadAll` of these keys.
    LoadAll {
        /// Whether keys whose entry is present are loaded anew, too.
        replace: bool,
        /// The keys.
        keys: Keys,
    },
    /// `invokeAll` on these keys.
    InvokeAll(Keys),
}

/// A line, by its meaning.
#[derive(Drop)]
pub enum Line {
    /// A world of this shape.
    Open(Config),
    /// An entry of the store, before anything happens.
    Set(Key, Value),
    /// A call with this number, by this session.
    Begin(u32, u32, Operation),
    /// A call of many keys with this number, by this session.
    BeginBulk(u32, u32, BulkLine),
    /// The next step of the call with this number.
    OfCall(u32, ScriptAct),
    /// Somebody else writes the store, or deletes in it.
    Foreign(Key, Option<Value>),
    /// The cache forgets this key.
    Invalidate(Key),
    /// The cache is closed and opened again in this shape, with what it had.
    Reopen(Config),
    /// An audit of the world.
    Audit,
    /// The keys that are untold.
    Untold,
}

/// Leaves `new` in `line`, and lets go of what was there. A line owns memory, and the prover would go through all its variants at each place
/// that overwrites one. It is in line, so that the new one is made in its place.
#[inline(always)]
pub(crate) fn put_line(line: &mut Line, new: Line)
    ensures { line.new ≡ new }
{
    *line = new;
}
