//! Completion listeners, each of which is told of the end of a `loadAll` (JSR 107, `CompletionListener`).
use jc_types::Refusal;

/// A listener, which is told how a `loadAll` ended (`javax.cache.integration.CompletionListener`; JSR 107, "Integration").
///
/// That it is told is a relation of the listener before, the end of the `loadAll`, and the listener's state afterwards as plain
/// data. So a contract can state that a listener was told once.
pub trait CompletionListener {
    ghost use Rattle.std.specs.Prelude.{ℕ, List, Result, Ok, Err};
    ghost use Rattle.jc_types.specs.declared.refusal.Refusal.{Refusal};

    /// The listener's state, as plain data.
    ghost listener_state: { Self → List ℕ };

    /// It is told once, of success or of the refusal.
    ghost hears: { Self → Result (Unit {0}) Refusal → List ℕ → Type 0 };

    /// The `loadAll` has loaded all that it was to load (`onCompletion`).
    fn on_completion(&mut self)
        ensures { hears self.old (Ok tt) (listener_state self.new) };

    /// The `loadAll` has failed (`onException`): the first fault, or the refusal of a key, or that of the whole call
    /// (`TooManyKeys`, `OutOfMemory`).
    fn on_exception(&mut self, refusal: Refusal)
        ensures { hears self.old (Err refusal) (listener_state self.new) };
}
