//! What was recorded of the calls at one key, and the rules by which it is judged.
use jc_model::{Change, EntryAnswer, EntryCall, LoadAnswer, Op, Out, Reply};
use jc_types::{Config, Value};

/// What a line of a record stands for.
#[derive(Clone, Copy, PartialEq, Eq)]
pub enum Role {
    /// A call of the cache, with all that was seen of it.
    Call,
    /// Another program changed the store.
    Foreign,
    /// A call of the cache of which only what it may have done to others is left: its answers don't count.
    Forgotten,
}

/// A call of an entry processor on its entry, and how it was answered.
#[derive(Clone, Copy, PartialEq, Eq)]
pub struct EntrySight {
    /// The call.
    pub call: EntryCall,
    /// The answer.
    pub answer: EntryAnswer,
}

/// A call at one key, as it was recorded.
#[derive(Drop)]
pub struct Recorded {
    /// What it stands for.
    pub role: Role,
    /// Who made it, from 0. A search takes memory for each thread up to the highest.
    pub thread: u32,
    /// When it began, or the loader or writer that it asked was asked, if that is later.
    pub began: u64,
    /// When it ended; none if it hasn't.
    pub ended: Option<u64>,
    /// The operation.
    pub op: Op,
    /// The answers of its loader, its writer and its entry processor.
    pub out: Out,
    /// What its writer was asked for, or what another program did to the store.
    pub change: Option<Change>,
    /// Of an `invoke`: the calls of its processor on the entry.
    pub sights: Vec<EntrySight>,
    /// Its own answer; none if it hasn't ended.
    pub reply: Option<Reply>,
}

/// The rules by which a record is judged.
#[derive(Clone, Copy, PartialEq, Eq)]
pub struct Rules {
    /// Whether read-through and write-through are on.
    pub config: Config,
    /// Whether a loader's answer has to be what the store has, by the order.
    pub is_store_known: bool,
    /// Whether an entry may vanish at any time.
    pub may_vanish: bool,
    /// Whether the order in real time counts, and not only that of each thread.
    pub is_real: bool,
}

/// What the store has at a key, as far as a record tells.
#[derive(Clone, Copy, PartialEq, Eq)]
pub enum Stored {
    /// Anything: the next answer of the loader tells.
    Unknown,
    /// This value, or none.
    Known(Option<Value>),
}

/// What there is at the key: the entry, the value of the store, and the answer of the load that was made last, if others may share it.
#[derive(Clone, Copy, PartialEq, Eq)]
pub struct Spot {
    /// The entry.
    pub entry: Option<Value>,
    /// What the store has.
    pub store: Stored,
    /// The answer that may be shared; `NotAsked` if none may.
    pub shared: LoadAnswer,
}

/// What a call does in a turn.
#[derive(Clone, Copy, PartialEq, Eq)]
pub enum Act {
    /// It makes its step.
    Step,
    /// It has the answer of the load of the step before it.
    Share,
    /// Its write changes the store, though it failed, or the call hasn't ended and makes no step.
    Land,
    /// Another program changes the store.
    Foreign,
    /// A forgotten call leaves the entry that it would leave.
    LeaveEntry,
    /// A forgotten call leaves in the store what its writer was asked for.
    LeaveStore,
    /// A forgotten call leaves both.
    LeaveBoth,
    /// A forgotten call leaves what its loader answered.
    LeaveLoad,
}

/// One turn of an order.
#[derive(Clone, Copy, PartialEq, Eq)]
pub enum Turn {
    /// The entry vanishes.
    Vanish,
    /// A call acts.
    Call {
        /// Which call, from 0.
        call: usize,
        /// What it does.
        act: Act,
    },
}
