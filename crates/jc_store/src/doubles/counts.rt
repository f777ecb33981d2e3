//! Counts of calls.
ghost use Rattle.std.specs.Prelude.{◌≡◌};
ghost use Rattle.jc_store.specs.Counts.{after_call, one_more_call};

/// A call of a loader or a writer, by its method.
#[derive(Clone, Copy, Debug, PartialEq, Eq)]
pub enum Call {
    /// `load`.
    Load,
    /// `load_all`: a batch of loads.
    LoadAll,
    /// `write`.
    Write,
    /// `write_all`: a batch of writes.
    WriteAll,
    /// `delete`.
    Delete,
    /// `delete_all`: a batch of deletes.
    DeleteAll,
}

/// How often a loader and a writer were called, by method. A call for many keys counts as one call. A count that has reached
/// `u64::MAX` stays there.
#[derive(Clone, Copy, Debug, PartialEq, Eq)]
pub struct CallCounts {
    /// Calls of `load`.
    pub loads: u64,
    /// Calls of `load_all`.
    pub load_batches: u64,
    /// Calls of `write`.
    pub writes: u64,
    /// Calls of `write_all`.
    pub write_batches: u64,
    /// Calls of `delete`.
    pub deletes: u64,
    /// Calls of `delete_all`.
    pub delete_batches: u64,
}

impl CallCounts {
    /// All counts are 0.
    pub const ZERO: Self = CallCounts {
        loads: 0,
        load_batches: 0,
        writes: 0,
        write_batches: 0,
        deletes: 0,
        delete_batches: 0,
    };

    /// Counts one more call.
    pub fn count(&mut self, call: Call)
        ensures { self.new ≡ after_call self.old call }
    {
        match call {
            Call::Load => add_one(&mut self.loads),
            Call::LoadAll => add_one(&mut self.load_batches),
            Call::Write => add_one(&mut self.writes),
            Call::WriteAll => add_one(&mut self.write_batches),
            Call::Delete => add_one(&mut self.deletes),
            Call::DeleteAll => add_one(&mut self.delete_batches),
        }
    }
}

fn add_one(count: &mut u64)
    ensures { count.new ≡ one_more_call count.old }
{
    *count = count.saturating_add(1);
}
