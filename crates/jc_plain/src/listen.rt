//! Completion listeners.
use jc_outside::CompletionListener;
use jc_types::Refusal;

/// A listener, which is told how a `loadAll` ended (`javax.cache.integration.CompletionListener`; JSR 107, "Integration").
///
/// A `loadAll` tells its listener once, by one of the two methods, before it returns. The listener must not call the cache. A
/// listener that waits, for example for a lock, holds a runtime of its own.
///
/// Its relation is that of [`jc_outside::CompletionListener`]. It holds of every call unless an author gives another, so without
/// a contract of your own you write none of the `ghost` lines.
pub trait Listen {
    ghost use Rattle.std.specs.Prelude.{ℕ, List, [], Result, Ok, Err};
    ghost use Rattle.jc_types.specs.declared.refusal.Refusal.{Refusal};

    /// The listener's state, as plain data.
    ghost listener_state: { Self → List ℕ } = { λ l. [] };

    /// It is told once, of success or of the refusal.
    ghost hears: { Self → Result (Unit {0}) Refusal → List ℕ → Type 0 } = { λ l ended after. Unit {0} };

    /// The `loadAll` has loaded all that it was to load (`onCompletion`).
    fn on_completion(&mut self)
        ensures { hears self.old (Ok tt) (listener_state self.new) };

    /// The `loadAll` has failed (`onException`): with this fault or refusal, which is also the cause in the error that the call
    /// returns.
    fn on_exception(&mut self, refusal: Refusal)
        ensures { hears self.old (Err refusal) (listener_state self.new) };
}

/// Adapts an `L` to `CompletionListener`.
///
/// It forwards each call once: its relation is that of `L`. To state more, implement [`jc_outside::CompletionListener`].
#[derive(Drop)]
pub struct Listening<L: Listen + Drop> {
    /// The wrapped listener.
    pub listener: L,
}

impl<L: Listen + Drop> CompletionListener for Listening<L> {
    ghost listener_state = { λ l. L.listener_state l.listener };

    ghost hears = { λ l ended after. L.hears l.listener ended after };

    fn on_completion(&mut self) {
        self.listener.on_completion();
    }

    fn on_exception(&mut self, refusal: Refusal) {
        self.listener.on_exception(refusal);
    }
}
