//! The outcomes of a batch's keys once its writer has returned: which were written, and which failed.
ghost use Rattle.std.specs.Prelude.{◌≡◌, ◌∷◌, List, Option, ℕ, true};
ghost use Rattle.jc_model.specs.Cache.{Bytes};
ghost use Rattle.jc_model.specs.Batches.{answer_in_batch};
ghost use Rattle.jc_model.specs.Table.{is_write_given};
ghost use Rattle.jc_batch.specs.Splitting.{AreOutcomes};

use jc_model::WriteAnswer;
use jc_types::Key;

/// The keys of a batch by their outcomes, both lists in the batch's order.
#[derive(Drop)]
pub struct Split {
    /// The keys that were written or deleted.
    pub written: Vec<Key>,
    /// The keys that were not, each with the code with which it failed.
    pub failed: Vec<(Key, u32)>,
}

/// The rest of a split, which is read key by key in the batch's order.
#[derive(Drop)]
pub struct Outcomes<'a> {
    /// The keys that were written or deleted.
    pub written: &'a [Key],
    /// The keys that were not, each with the code with which it failed.
    pub failed: &'a [(Key, u32)],
}

impl Split {
    /// The outcomes of all keys, from the batch's first on.
    pub fn outcomes(&self) -> Outcomes<'_>
        ensures written { result.written.now ≡ self.now.written.items }
        ensures failed { result.failed.now ≡ self.now.failed.items }
    {
        Outcomes {
            written: &self.written,
            failed: &self.failed,
        }
    }
}

impl Outcomes<'_> {
    /// The outcome of the next key, by the list that it is in. It makes no look-up.
    ///
    /// Condition: it is the key that comes next in the batch.
    pub fn next(&mut self, key: &Key) -> WriteAnswer
        requires { (left : List Bytes) × (fault : Option ℕ) × (keys : List Bytes)
            × AreOutcomes left fault (key.now ∷ keys) self.old.written.now self.old.failed.now }
        ensures given { is_write_given result ≡ true }
        ensures next { (left : List Bytes) (fault : Option ℕ) (keys : List Bytes)
            → AreOutcomes left fault (key.now ∷ keys) self.old.written.now self.old.failed.now
            → (result ≡ answer_in_batch left fault key.now)
            × AreOutcomes left fault keys self.new.written.now self.new.failed.now }
    {
        if let Some((first, others)) = self.written.split_first() {
            if *first == *key {
                self.written = others;
                return WriteAnswer::Done;
            }
        }
        let Some((first, others)) = self.failed.split_first() else {
            unreachable!()
        };
        self.failed = others;
        WriteAnswer::Failed(first.1)
    }
}
