//! The limits of a `loadAll`.

/// The most keys of one piece of a `loadAll`, which one session loads by one call.
pub const PIECE_KEYS: usize = 16;
