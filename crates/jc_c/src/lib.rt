//! A stripe for C, and for languages that can call C. It does no I/O, takes no lock and starts no thread: the host asks its store
//! between the phases, and uses each desk for one call at a time.
//!
//! Each export returns a code (`codes.rt`). It tests in this order: the handle is open; the arguments fit; the desk accepts the
//! call. On any code but `JC_OK` nothing was done, except that a full generation may have ended. The host's duties are in
//! `bindings/core/include/cadwrelch.h`.
//!
//! Why it is so:
//! - A handle owns the box of its desk as a ghost while it is open, so that a call can take the box out and put it back without a
//!   copy.
//! - The fields of a struct are lent one by one, and contracts state each field alone, because then a field that isn't written
//!   stays.
#![tactic(auto)]

pub mod codes;
mod events;
mod forgetting;
mod handle;
mod layouts;
mod looking;
mod opening;
mod phases;
mod replies;
mod requests;
mod rooms;

pub use events::{jc_event, jc_legal};
pub use forgetting::{jc_invalidate, jc_invalidate_all, jc_sweep};
pub use handle::Handle;
pub use layouts::{
    CacheShape, CountsOut, FlatEvent, InlineEntry, InlineKey, InlineValue, PhaseOut,
    ProcessorAnswers,
};
pub use looking::{jc_end_generation, jc_entries, jc_events_len, jc_peek, jc_statistics_of};
pub use opening::{jc_close, jc_open, jc_version};
pub use phases::{
    jc_begin, jc_commit_load, jc_commit_process, jc_commit_write, jc_hit, jc_pick_up, jc_withdraw,
};
