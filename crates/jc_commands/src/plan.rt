//! The plan of a count on threads.
ghost use Rattle.std.specs.Prelude.{◌≡◌, ◌*◌, ◌≤◌, ◌^◌, ◌<◌};
ghost use Rattle.jc_commands.specs.CommandLine.{is_too_much};

/// The most threads that count. The cache has one more session, which reads the counter in the end.
pub const WORKERS_MAX: u32 = 31;

/// The most increments of one thread.
pub const ROUNDS_MAX: u32 = 10_000;

/// The most increments of all threads together on a cache that doesn't live on: each is an event of one history.
pub const INCREMENTS_MAX: u64 = 60_000;

/// The least number of events that a history may have room for.
pub const EVENTS_MIN: u32 = 16;

/// The most events that a history may have room for.
pub const EVENTS_MAX: u32 = 65_536;

/// A plan: the number of threads, the increments of each, and the length of the histories.
#[derive(Clone, Copy, Debug, PartialEq, Eq)]
pub struct Plan {
    /// The number of threads that count.
    pub workers: u32,
    /// The number of increments of each.
    pub rounds: u32,
    /// The number of events that a history has room for, in a cache that lives on. Without it the cache doesn't live on, and its
    /// history has room for all increments.
    pub history: Option<u32>,
}

impl Plan {
    /// The number of increments of all threads together.
    pub fn increments(&self) -> u64
        ensures { result ≡ self.now.workers * self.now.rounds }
    {
        u64::from(self.workers) * u64::from(self.rounds)
    }

    /// Whether there are more increments than one history has room for, and the cache doesn't live on.
    pub fn is_too_much(&self) -> bool
        ensures { result ≡ is_too_much self.now }
    {
        self.history.is_none() && self.increments() > INCREMENTS_MAX
    }
}
