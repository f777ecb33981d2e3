//! The limits of a cache, in one place.

/// The most bytes that a key has. The fewest are 1.
pub const KEY_MAX: usize = 32;

/// The most bytes that a value has. A value may have none.
pub const VALUE_MAX: usize = 256;

/// The most stripes that a cache has. The fewest are 1.
pub const STRIPES_MAX: usize = 64;

/// The most entries that one stripe keeps. The fewest are 1.
pub const CAPACITY_MAX: usize = 4096;

/// The fewest events that the history of one stripe has room for.
pub const HISTORY_MIN: usize = 16;

/// The most events that the history of one stripe has room for.
pub const HISTORY_MAX: usize = 65536;

/// The most keys of one stripe that are reserved at once.
pub const RESERVATIONS_MAX: usize = 64;

/// The most calls of one stripe that have joined a load and haven't picked up their answer.
pub const JOINERS_MAX: usize = 64;

/// The most sessions of a cache. A script numbers them from 1 to this one; a cache that threads share numbers its own from 0.
pub const SESSIONS_MAX: u32 = 32;

/// The most keys that a bulk call names.
pub const BULK_KEYS_MAX: usize = 1024;

/// The free places in the history that a call needs for its first phase and reserves for its commit: an eviction
/// before its step, the step, and the eviction of its own key after it.
pub const STEP_PLACES: usize = 3;

/// The free places that a call needs if it certainly evicts nothing: it answers from the cached entry, or joins a load.
pub const HIT_PLACES: usize = 1;

/// The last of the numbers that only rise: those of a session's calls, and of a stripe's reservations. A call is refused if its
/// own number, or the next reservation's, is this one.
pub const LAST_NUMBER: u64 = u64::MAX;

/// The most bytes of a line of a script, without the end of the line.
pub const LINE_MAX: usize = 65536;

/// The most bytes of a script.
pub const SCRIPT_MAX: usize = 4_194_304;

/// The largest number that a script names: a call's number, a join's, or a code.
pub const NUMBER_MAX: u64 = 999_999_999;
