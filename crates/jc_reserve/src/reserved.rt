//! One reservation, as the table of a stripe's reservations keeps it.
use jc_types::Key;

/// A reservation as the table keeps it: of a key, with a number. Its owner may add further fields.
///
/// Its default is no reservation; the table fills its free places with it.
pub trait Reserved: Copy + Default {
    ghost use Rattle.std.specs.Prelude.{◌≡◌, ℕ};
    ghost use Rattle.jc_model.specs.Cache.{Bytes};

    /// The reserved key.
    ghost key: { Self → Bytes };

    /// The number of the reservation.
    ghost number: { Self → ℕ };

    /// The reserved key.
    fn key(&self) -> &Key
        ensures { result.now ≡ key self.now };
}
