//! Whether a cache may have behaved as a record says: an order of the calls at one key that explains what each of them answered, what
//! its loader answered and what its writer was asked, by the operation table; or a proof that no order does.
#![tactic(auto)]

mod choices;
mod coverage;
mod explaining;
mod exploring;
mod fitting;
mod guessing;
mod lanes;
pub mod laws;
mod node;
mod order;
mod places;
mod playing;
mod reasons;
mod record;
mod sights;
mod smallest;
mod states;
mod verdict;

pub use explaining::does_explain;
pub use node::{Marks, Node};
pub use places::Places;
pub use reasons::{Reason, could_be, reason_of};
pub use record::{Act, EntrySight, Recorded, Role, Rules, Spot, Stored, Turn};
pub use smallest::{Need, PartLimits, RefutedPart, smallest_part};
pub use states::{States, Step};
pub use verdict::{Verdict, check};
