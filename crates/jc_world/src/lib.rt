//! Every interleaving of calls, loaders, writers and others, as a list of events.
//!
//! Why it is so:
//! - `Machine` plays one event, and `World` holds that every world that is reached is sound, because what is true of calls, joins
//!   and held keys is true of all of them at once, and not of each type.
//! - The order over all stripes is a list of turns, a byte an event, because each stripe has its own history: `order` merges them.
//! - A call of many keys shows its end with the event that settles its last key, because no later event speaks of that call.
//! - To give a reservation back and to leave are two events, because a call of many keys gives back several before it leaves.
//! - Laws about places and counted answers begin at the last opening, because a reopened cache has new histories. The numbers of
//!   calls rise over reopenings.
#![tactic(auto)]

pub mod audit;
mod calls;
pub mod command;
pub mod determinism;
mod ending;
pub mod essence;
pub mod event;
mod foreign;
pub mod headline;
mod held;
mod held_keys;
mod joined;
mod machine;
pub mod open_call;
pub mod openings;
mod outside;
pub mod pick_ups;
pub mod process;
mod read_only;
pub mod replies;
pub mod reports;
pub mod reserved;
mod run;
mod stripes;
mod sweep;
mod tasks;
pub mod told;
pub mod world;

pub use audit::Audit;
pub use command::{CallKind, Command};
pub use event::{
    EvictionPlace, JoinAnswer, Outcome, Over, Part, PartProgress, Premises, Shown, Stepped,
    WorldEvent,
};
pub use joined::JoinedLoad;
pub use open_call::OpenCall;
pub use process::{EntryCalls, LoadSource, ShownRun};
pub use read_only::ReadOnlyList;
pub use reports::{LeftKeys, Reported, ReportedKey};
pub use world::World;
