//! Which keys of a stripe are reserved, by which numbers, and for which calls.
//!
//! A call that asks a loader, a writer or an entry processor reserves its key while it asks, so that no other call changes the
//! entry meanwhile (JSR 107, "Default Consistency").
//!
//! Why it is so:
//! - The table is an array of `RESERVATIONS_MAX` places in the value itself, because making it then takes no memory, and a look-up
//!   goes over at most that many keys.
//! - When a reservation ends, those behind it move up, because the table lends its records and keys as slices in the order of
//!   reserving, and a stripe's state is that list.
#![tactic(auto)]

mod reservations;
mod reserved;

pub use reservations::Reservations;
pub use reserved::Reserved;
