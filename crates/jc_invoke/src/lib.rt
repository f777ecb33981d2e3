//! Entry processors on a cache that threads share (JSR 107, `javax.cache.Cache`): `invoke` and `invokeAll`.
#![tactic(auto)]

mod invoking;
mod room;
mod rounds;
mod run;

pub use invoking::{invoke, invoke_all};
