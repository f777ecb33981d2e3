//! Gates: each lends a stripe, for one phase at a time.
//!
//! A gate has one stripe, and lends it to the holders of its tokens. The gate of a live cache is `HistLock`, with its seats as
//! tokens. The plain [`Owner`] and [`MutexGate`] serve tests and comparisons.
//!
//! Why it is so:
//! - The plain owner lends to whoever the owner itself is lent to, so it always has its stripe. A gate that threads share may
//!   have to answer that the stripe is out.
//! - A gate over a `Mutex` knows nothing of sessions (`is_anonymous`), so no engine runs over it.
#![tactic(auto)]

mod gate;
mod locked;
mod mutexed;
mod owner;

pub use gate::Gate;
pub use mutexed::{MutexGate, MutexSeat};
pub use owner::Owner;
