//! Phases and whole calls of one agent on one key, over any gate.
//!
//! A phase takes the stripe, is made, and gives the stripe back. A whole call is made of phases; between them the loader, the
//! writer or the processor is called, while no stripe is held. The contracts here hold over every gate, since each gate states
//! what a take may find.
//!
//! Why it is so:
//! - The engine knows a gate and no lock, so that the same code serves both: over a lock its contract gives what a seat has seen,
//!   over a plain owner that two phases are one step.
//! - There is one door (`lend`). It tests a phase (`is_due`) before it hands it over (`make`), so that what a last phase holds is
//!   never handed back. Lending a phase by `&mut` cost 70 to 100 instructions more, and one enum for the three answers cost 850.
//! - The try of a hit doesn't use the door, because it is made once and writes into its caller's memory.
//! - A shut stripe is swept by whoever is about to wait there, an entry in each lending, because a lending has at most one phase.
//! - A lending has at most one phase, or a renewal. So a `try_` call tries once more after a renewal, in another lending, and
//!   `call_owned` needs a stripe that doesn't live on.
#![tactic(auto)]

mod access;
mod calling;
mod door;
mod ending;
mod entering;
mod first;
mod forgetting;
mod getting;
mod invoking;
mod joining;
pub mod laws;
mod owned;
mod trying;

pub use access::Access;
pub use door::Phase;
pub use ending::{Answer, Commit, Processed, Withdraw};
pub use first::{BeginCall, How};
pub use forgetting::{Invalidate, InvalidateAll, Sweep};
pub use invoking::Invocation;
pub use joining::PickUp;
pub use owned::{call_owned, invoke_owned};
