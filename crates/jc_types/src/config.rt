//! The shape of a cache.
ghost use Rattle.std.specs.Prelude.{◌≡◌};

use crate::limits::{CAPACITY_MAX, HISTORY_MAX, HISTORY_MIN, STRIPES_MAX};
use crate::refusal::Refusal;
use std::fmt::{self, Display, Formatter, Write};

/// A field of a [`Config`] that is a number and has limits.
#[derive(Clone, Copy, Debug, PartialEq, Eq)]
pub enum Field {
    /// `Config::stripes`, from 1 to [`STRIPES_MAX`].
    Stripes,
    /// `Config::capacity`, from 1 to [`CAPACITY_MAX`].
    Capacity,
    /// `Config::history`, from [`HISTORY_MIN`] to [`HISTORY_MAX`].
    History,
}

/// Writes the field's name in a [`Config`].
impl Display for Field {
    fn fmt<W: Write>(&self, f: &mut Formatter<W>) -> fmt::Result {
        f.write_str(match self {
            Field::Stripes => "stripes",
            Field::Capacity => "capacity",
            Field::History => "history",
        })
    }
}

/// The shape of a cache, chosen when it is made: the `MutableConfiguration` of JSR 107, beside the
/// limits that the standard leaves to the provider.
#[derive(Clone, Copy, Debug, PartialEq, Eq)]
pub struct Config {
    /// How many stripes the cache has, from 1 to [`STRIPES_MAX`]. Each key belongs to one of them, by
    /// [`stripe_of`](crate::key::stripe_of), and calls on different stripes don't contend.
    pub stripes: usize,
    /// How many entries one stripe keeps, from 1 to [`CAPACITY_MAX`]. If the stripe is full, a new entry first evicts the least
    /// recently used one that no call has reserved. If calls have reserved all of them, the new entry isn't kept.
    pub capacity: usize,
    /// How many events the history of one stripe has room for, from [`HISTORY_MIN`] to [`HISTORY_MAX`]. The memory is allocated
    /// when the cache is made: 884 bytes for each event and each stripe, which is what the largest event needs. That is 58 MB for
    /// a stripe of [`HISTORY_MAX`], and 3.7 GB for [`STRIPES_MAX`] of them.
    pub history: usize,
    /// Whether a missing entry is loaded (JSR 107, "Integration": read-through).
    pub read_through: bool,
    /// Whether a mutation is first written to the store (JSR 107, "Integration": write-through).
    pub write_through: bool,
}

/// A shape for a service, until it has measured its own: 16 stripes with 4,096 entries each, and histories of 256 events, in a
/// cache that reads and writes through.
///
/// It is meant for a cache that lives on: one that starts a new history when the history is full. To choose one field alone,
/// write `Config { stripes: 64, ..Config::default() }`.
impl Default for Config {
    ghost use Rattle.std.specs.Prelude.{◌≡◌, Ok, true};
    ghost use Rattle.jc_types.specs.Limits.{check};

    ghost is_default = { λ config. (check config ≡ Ok tt)
        × (config ≡ record { stripes = 16; capacity = 4096; history = 256; read_through = true; write_through = true }) };

    fn default() -> Config {
        Config {
            stripes: 16,
            capacity: 4_096,
            history: 256,
            read_through: true,
            write_through: true,
        }
    }
}

impl Config {
    ghost use Rattle.jc_types.specs.Limits.{check};

    /// Whether a cache may have this shape. An `Err` is [`Refusal::BadConfig`] with the first field
    /// out of its limits, in the order stripes, capacity, history.
    pub fn check(&self) -> Result<(), Refusal>
        ensures { result ≡ check self.now }
    {
        if self.stripes < 1 || STRIPES_MAX < self.stripes {
            return Err(Refusal::BadConfig(Field::Stripes));
        }
        if self.capacity < 1 || CAPACITY_MAX < self.capacity {
            return Err(Refusal::BadConfig(Field::Capacity));
        }
        if self.history < HISTORY_MIN || HISTORY_MAX < self.history {
            return Err(Refusal::BadConfig(Field::History));
        }
        Ok(())
    }
}
