//! Asks of a loader or a writer, whichever crate makes them.
use jc_model::Change;
use jc_types::Key;

/// A permission to ask a loader or a writer once, about one key.
///
/// An ask can be neither copied nor dropped. A stripe makes one for each of its reservations. A call outside takes it and returns
/// a done value in its place.
pub trait Ask {
    ghost use Rattle.std.specs.Prelude.{◌≡◌};
    ghost use Rattle.jc_model.specs.Cache.{Bytes};

    /// The key that is asked about.
    ghost key: { Self → Bytes };

    /// The key that is asked about.
    fn key(&self) -> &Key
        ensures { result.now ≡ key self.now };

    /// Ends an ask that was answered.
    fn spend(self);
}

/// An ask of a writer.
pub trait AskWrite: Ask {
    ghost use Rattle.std.specs.Prelude.{◌≡◌, Option, Some, is_some, true};
    ghost use Rattle.jc_model.specs.declared.event.Change.{Change};

    /// The change of the store that is asked for, if the writer is asked.
    ghost change: { Self → Option Change };

    /// The write or the delete that is asked for. Condition: the writer is asked.
    fn change(&self) -> Change
        requires { is_some (change self.now) ≡ true }
        ensures { change self.now ≡ Some result };
}
