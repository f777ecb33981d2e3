//! An agent's access to a stripe.
use jc_gate::Gate;
use jc_session::Agent;

/// The access of a session to one stripe: the gate that lends the stripe, the token that takes it there, and the session's agent.
/// Phases and whole calls are its methods.
///
/// An access only borrows these three, for one call.
#[derive(Drop)]
pub struct Access<'a, G: Gate> {
    /// The gate, which lends the stripe.
    pub gate: &'a mut G,
    /// The token, by which the gate knows who takes the stripe.
    pub token: &'a mut G::Token,
    /// The agent, which makes the phases and counts them.
    pub agent: &'a mut Agent,
}
