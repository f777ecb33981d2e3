//! A list of pairs that only contracts read. It takes no memory, and its methods do nothing when they run. A stripe's opening is
//! kept in one. It isn't the library's `Snapshot`, because the search for `Send` gives up at that.
ghost use Rattle.std.specs.Prelude.{◌≡◌, List, [], ◌∷◌, ◌++◌};
ghost use Rattle.std.specs.Borrow.{ftrue};

use std::marker::{Model, PhantomData};

/// Pairs, in the order in which they were added. A clause reads them as `items`.
#[derive(Drop)]
pub(crate) struct Log<A, B> {
    of: PhantomData<(A, B)>,
    pub ghost items: { List (A × B) },
}

impl<A, B> Model for Log<A, B> {
    ghost also_owns = { λ _. ftrue };
}

// It owns nothing.
unsafe impl<A, B> Send for Log<A, B> {}

impl<A, B> Log<A, B> {
    /// No pair.
    pub(crate) fn new() -> Log<A, B>
        ensures { result.items ≡ [] }
    {
        Log { of: PhantomData }
    }

    /// These pairs, followed by one more.
    pub(crate) fn and(&self, first: &A, second: &B) -> Log<A, B>
        ensures { result.items ≡ self.now.items ++ (first.now, second.now) ∷ [] }
    {
        Log { of: PhantomData }
    }
}
