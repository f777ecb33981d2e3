//! Why a call is refused.
ghost use Rattle.std.specs.Prelude.{◌≡◌};

use crate::config::Field;
use thiserror::Error;

/// Why a call was refused.
///
/// The entry of a refused key stays as it was. `LoaderFailed`, `WriterFailed` and `ProcessorFailed` are answers of outside calls,
/// and are in the history as the reply of a step. The others leave nothing in the history.
#[derive(Clone, Copy, Debug, PartialEq, Eq, Error)]
pub enum Refusal {
    /// The history of the key's stripe has fewer free places than the call needs, or a number that only rises would overflow: the
    /// call's own, or that of the next reservation.
    #[error("the history has no room for this call")]
    HistoryFull,
    /// Another call has reserved the key, and this one needs the key free.
    #[error("another call is at work on this key")]
    Busy,
    /// The call needs a reservation, and all [`RESERVATIONS_MAX`](crate::limits::RESERVATIONS_MAX) of the key's
    /// stripe are out.
    #[error("too many calls of this stripe are at work outside")]
    TooManyInFlight,
    /// The call would join a load, and the key's stripe has [`JOINERS_MAX`](crate::limits::JOINERS_MAX) joiners already. A joiner
    /// that was answered, or told to retry, counts until it picks up its answer.
    #[error("too many calls of this stripe have joined a load")]
    TooManyJoiners,
    /// The loader failed with this code: the `CacheLoaderException` of JSR 107, "Integration".
    #[error("the cache loader failed with code {0}")]
    LoaderFailed(u32),
    /// The writer failed with this code: the `CacheWriterException` of JSR 107, "Integration".
    #[error("the cache writer failed with code {0}")]
    WriterFailed(u32),
    /// The entry processor failed with this code: the `EntryProcessorException` of JSR 107, "Entry
    /// Processors".
    #[error("the entry processor failed with code {0}")]
    ProcessorFailed(u32),
    /// An allocation that the call needs failed.
    #[error("there is no memory for this call")]
    OutOfMemory,
    /// A bulk call, as `getAll`, names more than [`BULK_KEYS_MAX`](crate::limits::BULK_KEYS_MAX) keys.
    #[error("the bulk call names too many keys")]
    TooManyKeys,
    /// A number of the configuration is out of its limits.
    #[error("the field `{0}` of the configuration is out of its limits")]
    BadConfig(Field),
    /// The cache is read-through, and the session brings no loader.
    #[error("a session of a read-through cache needs a loader")]
    NoLoader,
    /// The cache is write-through, and the session brings no writer.
    #[error("a session of a write-through cache needs a writer")]
    NoWriter,
    /// The cache has handed out [`SESSIONS_MAX`](crate::limits::SESSIONS_MAX) sessions already.
    #[error("the cache has handed out all of its sessions")]
    TooManySessions,
    /// The cache can't be closed: a reservation is out, an answer was not picked up, or a session was not
    /// handed in.
    #[error("the cache is in use and can't be closed")]
    StillReserved,
    /// A closed cache can't be opened again: a key is there twice, in stripes of more than one cache.
    #[error("a key is there twice in the closed cache")]
    RepeatedKey,
}

impl Refusal {
    ghost use Rattle.jc_types.specs.Refusals.{refusal_name, is_fault, is_put_off};

    /// The variant's name, as a transcript shows it, with no code and no field.
    pub fn name(&self) -> &'static str
        ensures { result.now ≡ refusal_name self.now }
    {
        match self {
            Refusal::HistoryFull => "HistoryFull",
            Refusal::Busy => "Busy",
            Refusal::TooManyInFlight => "TooManyInFlight",
            Refusal::TooManyJoiners => "TooManyJoiners",
            Refusal::LoaderFailed(_) => "LoaderFailed",
            Refusal::WriterFailed(_) => "WriterFailed",
            Refusal::ProcessorFailed(_) => "ProcessorFailed",
            Refusal::OutOfMemory => "OutOfMemory",
            Refusal::TooManyKeys => "TooManyKeys",
            Refusal::BadConfig(_) => "BadConfig",
            Refusal::NoLoader => "NoLoader",
            Refusal::NoWriter => "NoWriter",
            Refusal::TooManySessions => "TooManySessions",
            Refusal::StillReserved => "StillReserved",
            Refusal::RepeatedKey => "RepeatedKey",
        }
    }

    /// Whether the loader, the writer or the entry processor failed. Such a refusal is the reply of a step and
    /// is in the history; the others leave nothing there.
    pub fn is_fault(&self) -> bool
        ensures { result ≡ is_fault self.now }
    {
        match self {
            Refusal::LoaderFailed(_) | Refusal::WriterFailed(_) | Refusal::ProcessorFailed(_) =>
                true,
            Refusal::HistoryFull
            | Refusal::Busy
            | Refusal::TooManyInFlight
            | Refusal::TooManyJoiners
            | Refusal::OutOfMemory
            | Refusal::TooManyKeys
            | Refusal::BadConfig(_)
            | Refusal::NoLoader
            | Refusal::NoWriter
            | Refusal::TooManySessions
            | Refusal::StillReserved
            | Refusal::RepeatedKey => false,
        }
    }

    /// Whether a bulk call tries the key again in its next round: `Busy`, `TooManyInFlight` and `TooManyJoiners`
    /// pass once another call is over.
    pub fn is_put_off(&self) -> bool
        ensures { result ≡ is_put_off self.now }
    {
        match self {
            Refusal::Busy | Refusal::TooManyInFlight | Refusal::TooManyJoiners => true,
            Refusal::HistoryFull
            | Refusal::LoaderFailed(_)
            | Refusal::WriterFailed(_)
            | Refusal::ProcessorFailed(_)
            | Refusal::OutOfMemory
            | Refusal::TooManyKeys
            | Refusal::BadConfig(_)
            | Refusal::NoLoader
            | Refusal::NoWriter
            | Refusal::TooManySessions
            | Refusal::StillReserved
            | Refusal::RepeatedKey => false,
        }
    }
}
