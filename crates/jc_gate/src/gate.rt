//! Gates.
ghost use Rattle.std.specs.Prelude.{◌⊎◌, ℕ, IfSome, IfNone};
ghost use Rattle.jc_gate.specs.Lending.{ComesAfter};
ghost use Rattle.jc_stripe.specs.State.{State};
ghost use Rattle.jc_stripe.specs.Reached.{IsReached};
ghost use Rattle.jc_stripe.specs.OnePhase.{IsPhaseOf};
ghost use Rattle.jc_stripe.specs.Renewal.{Renews};

use jc_stripe::Stripe;
use std::sync::Wait;

/// Lends a stripe to the holders of tokens, one at a time.
pub trait Gate {
    /// The token of a user of the stripe: a seat, or nothing.
    type Token;

    /// The token speaks for the session with this number: no one else makes phases of that session meanwhile.
    ghost speaks_for: { Self.Token → ℕ → Type 0 };

    /// The token may give back after a phase of any session, though it speaks for none: the gate knows nothing of sessions.
    ghost is_anonymous: { Self.Token → Type 0 };

    /// The token is of this gate, and has not taken its stripe.
    ghost is_free: { Self → Self.Token → Type 0 };

    /// The token has taken the gate's stripe in this state.
    ghost has: { Self → Self.Token → State → Type 0 };

    /// The states in which a take may find the stripe.
    ghost finds: { Self → Self.Token → State → Type 0 };

    /// A take that finds the stripe in this state: gate and token before and after.
    ghost takes: { Self → Self.Token → State → Self → Self.Token → Type 0 };

    /// A give of the stripe in this state: gate and token before and after.
    ghost gives: { Self → Self.Token → State → Self → Self.Token → Type 0 };

    /// A take that fails, since somebody else has the stripe: gate and token before and after.
    ghost misses: { Self → Self.Token → Self → Self.Token → Type 0 };

    /// Takes the stripe, if it is there. Its history is legal from its opening, and leaves its entries.
    ///
    /// `None` says that somebody else has it; a later take may find what this one might have found. It takes no memory.
    ///
    /// Condition: the token has not taken the stripe.
    fn try_take(&mut self, token: &mut Self::Token) -> Option<Box<Stripe>>
        requires { is_free self.old token.old }
        ensures speaks { (n : ℕ) → speaks_for token.old n → speaks_for token.new n }
        ensures taken { IfSome result (λ s. has self.new token.new s.value) }
        ensures takes { IfSome result (λ s. takes self.old token.old s.value self.new token.new) }
        ensures found { IfSome result (λ s. finds self.old token.old s.value × IsReached s.value) }
        ensures missed { IfNone result (misses self.old token.old self.new token.new × is_free self.new token.new) }
        ensures still { IfNone result ((a : State) → finds self.new token.new a → finds self.old token.old a) };

    /// Takes the stripe as [`Gate::try_take`] does, and waits as long as somebody else has it. Neither progress nor fairness is
    /// guaranteed.
    ///
    /// Condition: the token has not taken the stripe.
    fn take<R: Wait>(&mut self, rt: &R, token: &mut Self::Token) -> Box<Stripe>
        requires { is_free self.old token.old }
        ensures speaks { (n : ℕ) → speaks_for token.old n → speaks_for token.new n }
        ensures taken { has self.new token.new result.value }
        ensures takes { takes self.old token.old result.value self.new token.new }
        ensures found { finds self.old token.old result.value × IsReached result.value };

    /// Gives the stripe back. It takes no memory.
    ///
    /// A later take finds a state that comes after this one, for each session that the token speaks for.
    ///
    /// Condition: it is the stripe that the token has taken, after at most one phase of a session that the token speaks for, or
    /// of any session if the token is anonymous; or after a renewal, and no phase.
    fn give(&mut self, token: &mut Self::Token, stripe: Box<Stripe>)
        requires { (n : ℕ) × (a : State)
            × (speaks_for token.old n ⊎ is_anonymous token.old)
            × has self.old token.old a × (IsPhaseOf n a stripe.value ⊎ Renews a stripe.value) }
        ensures speaks { (n : ℕ) → speaks_for token.old n → speaks_for token.new n }
        ensures free { is_free self.new token.new }
        ensures gives { gives self.old token.old stripe.value self.new token.new }
        ensures next { (n : ℕ) (a : State) → speaks_for token.old n → finds self.new token.new a
            → ComesAfter n stripe.value a };
}
