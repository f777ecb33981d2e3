//! The events of one stripe, stored as bytes, and the room that is reserved for later events.
//!
//! - [`history`] has the history.
//! - `codec` appends the bytes of an event, and reads the event again.
//! - `room` states how many bytes an event takes at most.
//!
//! Why it is so:
//! - An event is stored as bytes, because it then takes its key, its values and some thirty bytes, not the room of the largest
//!   event.
//! - Room for the largest events is allocated when the history is made, because room that grows would let a phase fail in the
//!   middle.
//! - That room is three values of 256 bytes an event, because by the operation table no step has more that differ
//!   (`Values.antt`). A reply that repeats a value from outside is one byte.
#![tactic(auto)]

mod codec;
pub mod history;
mod lent;
mod room;

pub use history::History;
pub use lent::LentStep;
pub use room::EVENT_VALUES;
