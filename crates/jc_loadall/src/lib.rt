//! `loadAll` on a cache that threads share, by many sessions or clients side by side (JSR 107, `javax.cache.Cache.loadAll`).
//!
//! The keys are cut into pieces, and the pool of `jc_pool` does them. Each worker is lent a session or a client for the time of
//! the call, and loads one piece after another with it, by `load_keys` of `jc_bulk`. The results of the pieces are joined in the
//! order of the keys.
#![tactic(auto)]

mod clients;
mod fault;
mod joining;
mod limits;
mod loading;
mod notes;
mod pieces;
mod team;
mod worker;

pub use clients::load_all_by_clients;
pub use fault::LoadAllFault;
pub use limits::PIECE_KEYS;
pub use loading::load_all;
