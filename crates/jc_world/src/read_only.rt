//! Lists that are only read, in what the events of a world show.
ghost use Rattle.std.specs.Prelude.{◌≡◌};

use std::marker::Model;

/// A list that is only read, of what an event shows.
#[derive(Drop)]
pub struct ReadOnlyList<T> {
    list: Vec<T>,
}

impl<T> Model for ReadOnlyList<T> {
    ghost use Rattle.std.specs.Prelude.{List};

    ghost Value = { List T };

    ghost view = { λ l. l.list.items };
}

impl<T> ReadOnlyList<T> {
    /// These items.
    pub(crate) fn new(list: Vec<T>) -> Self
        ensures { result ≡ list.items }
    {
        ReadOnlyList { list }
    }

    /// The items.
    pub fn as_slice(&self) -> &[T]
        ensures { result.now ≡ self.now }
    {
        &self.list
    }
}
