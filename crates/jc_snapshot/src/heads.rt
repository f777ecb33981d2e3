//! The parts of a call that are no lists.
ghost use Rattle.std.specs.Prelude.{◌≡◌};
ghost use Rattle.jc_snapshot.specs.Snapshot.{head_of};

use jc_model::Op;
use jc_types::{Caller, Refusal};
use jc_world::{CallKind, OpenCall};

/// A call under way without its lists.
#[derive(Clone, Copy, Debug, PartialEq, Eq)]
pub struct CallHead {
    /// The caller.
    pub caller: Caller,
    /// How the call takes its keys.
    pub kind: CallKind,
    /// The operation of the call at each key that it still finds, if it is to look at a stripe.
    pub op_found: Option<Op>,
    /// The first fault, or refusal that isn't put off, that it has met.
    pub cause: Option<Refusal>,
}

/// The parts of a call that are no lists.
pub(crate) fn head_of(call: &OpenCall) -> CallHead
    ensures { result ≡ head_of call.now }
{
    CallHead {
        caller: call.caller(),
        kind: call.kind(),
        op_found: call.op_found(),
        cause: call.cause(),
    }
}
