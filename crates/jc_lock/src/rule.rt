//! The rule of the table of a lock round a stripe, and its steps. The types are for the proofs alone.
use crate::view::View;
use atomic_table::{Join, Play, Split, TableRule};
use jc_stripe::Stripe;

/// The content of the slot: the stripe, or nothing while a holder has it.
pub(crate) type Slot = Option<Box<Stripe>>;

/// The rule.
pub(crate) struct Rule;

impl TableRule<Slot, View, Stripe> for Rule {
    ghost use Rattle.jc_lock.specs.Rule.{LockRule};
    ghost use Rattle.jc_lock.specs.Views.{unopened_view};

    ghost holds = { λ _. LockRule (λ b. b.value) };

    ghost first = { unopened_view };
}

/// The first seat takes the slot, to put the stripe into it.
pub(crate) struct Open;

impl Play<Slot, View> for Open {
    ghost use Rattle.jc_lock.specs.Plays.{Opens};

    ghost then = { Opens };
}

/// A take. If somebody holds the stripe, the seat stays as it was.
pub(crate) struct Take;

impl Play<Slot, View> for Take {
    ghost use Rattle.jc_lock.specs.Plays.{Takes};

    ghost then = { Takes (λ b. b.value) (λ v. v) };
}

/// A try. If somebody holds the stripe, the seat counts the miss.
pub(crate) struct Try;

impl Play<Slot, View> for Try {
    ghost use Rattle.jc_lock.specs.Plays.{Takes};
    ghost use Rattle.jc_lock.specs.Views.{after_miss};

    ghost then = { Takes (λ b. b.value) after_miss };
}

/// A give.
pub(crate) struct Give;

impl Play<Slot, View> for Give {
    ghost use Rattle.jc_lock.specs.Plays.{Gives};

    ghost then = { Gives (λ b. b.value) };
}

/// The front becomes the longer one of its own and the one that was joined.
pub(crate) struct MergeFronts;

impl Play<Slot, View> for MergeFronts {
    ghost use Rattle.jc_lock.specs.Plays.{MergesFronts};

    ghost then = { MergesFronts };
}

/// A seat for a new session.
pub(crate) struct NewSession;

impl Split<View> for NewSession {
    ghost use Rattle.jc_lock.specs.Views.{after_split, session_view};

    ghost left = { after_split };

    ghost right = { session_view };
}

/// A note of a seat's front, which is joined into another seat.
pub(crate) struct FrontNote;

impl Split<View> for FrontNote {
    ghost use Rattle.jc_lock.specs.Views.{front_note};

    ghost left = { λ v. v };

    ghost right = { front_note };
}

impl Join<View> for FrontNote {
    ghost use Rattle.jc_lock.specs.Views.{with_note, spent_view};

    ghost both = { with_note };

    ghost spent = { spent_view };
}
