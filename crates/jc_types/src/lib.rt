//! The plain data of a JCache provider (JSR 107, JCache 1.1): keys, values, the shape of a cache,
//! and why a call is refused.
//!
//! A key and a value are small texts kept inline, so that a copy takes no memory and nobody who
//! holds one can change the cache's own (JSR 107, "Store-By-Value").
#![tactic(auto)]

pub mod caller;
pub mod config;
mod inline;
pub mod key;
pub mod limits;
pub mod refusal;
pub mod value;
mod words;

pub use caller::{Caller, is_session};
pub use config::{Config, Field};
pub use key::{Key, KeyFault, stripe_of};
pub use limits::{
    BULK_KEYS_MAX, CAPACITY_MAX, HISTORY_MAX, HISTORY_MIN, HIT_PLACES, JOINERS_MAX, KEY_MAX,
    LAST_NUMBER, LINE_MAX, NUMBER_MAX, RESERVATIONS_MAX, SCRIPT_MAX, SESSIONS_MAX, STEP_PLACES,
    STRIPES_MAX, VALUE_MAX,
};
pub use refusal::Refusal;
pub use value::{Value, ValueFault};
