//! Snapshots of worlds.
ghost use Rattle.std.specs.Prelude.{◌≡◌, ◌==◌, ◌↔◌, IsTrue, IfOk};
ghost use Rattle.std.specs.FinMap as map;
ghost use Rattle.std.specs.Cmp.Lexicographic.{pointwise};
ghost use Rattle.std.specs.Cmp.Rules.{comparing};
ghost use Rattle.std.proofs.Common.{rules};
ghost use Rattle.jc_world.specs.Essence.{essence_of_world};
ghost use Rattle.jc_snapshot.specs.Fingerprint.{fingerprint_of};
ghost use Rattle.jc_snapshot.specs.Numbers.{AreNumbers, Continues};
ghost use Rattle.jc_snapshot.specs.Rows.{flat};
ghost use Rattle.jc_snapshot.specs.Snapshot.{IsSnapshot, GrowsTo, OwnRows, own_rows, HasOwnRows, last_row};

use crate::calls::call_rows;
use crate::rows::{five_rows, push_row};
use crate::seen::Seen;
use crate::sorted::sorted;
use crate::stripes::{bit, stripe_rows};
use crate::table::{Table, numbers_of};
use jc_types::{Key, Value};
use jc_world::{JoinedLoad, Part, World};
use std::alloc::{AllocError, Global};
use std::marker::Model;

// The start and the factor of the FNV-1a hash, of 64 bits.
const FINGERPRINT_START: u64 = 14695981039346656037;

const FINGERPRINT_FACTOR: u64 = 1099511628211;

/// The state of a world as numbers: all that decides how it continues, without the events themselves. Each thing is named by its
/// number in the tables of a [`Seen`], so two snapshots over the same tables are equal exactly if their worlds have the same
/// essence.
#[derive(Drop)]
pub struct Snapshot {
    words: Vec<u64>,
}

impl Model for Snapshot {
    ghost use Rattle.std.specs.Prelude.{List, ℕ};

    ghost Value = { List ℕ };

    ghost view = { λ s. s.words.items };
}

impl PartialEq for Snapshot {
    ghost eq = { pointwise ◌==◌ };

    ghost laws = { Prim.search (comparing, rules) };

    fn eq(&self, other: &Snapshot) -> bool {
        self.words.as_slice() == other.words.as_slice()
    }
}

impl Eq for Snapshot {
    ghost laws = { Prim.search (comparing, rules) };
}

impl Snapshot {
    /// The snapshot of a world. A thing that a table hasn't met gets its next number. An `Err` says that an allocation failed;
    /// the tables keep the things that they have got by then.
    #[tactic(auto, using(crate::proofs::StripeRows::grows_twice))]
    pub fn of(alloc: Global, world: &World, seen: &mut Seen) -> Result<Snapshot, AllocError>
        ensures snapshot { IfOk result (λ s. IsSnapshot (essence_of_world world.now.world) seen.new s) }
        ensures grows { GrowsTo seen.old seen.new }
    {
        let stripes = stripe_rows(alloc, world.stripe_list(), seen)?;
        let calls = call_rows(alloc, world.calls(), seen)?;
        let mut words = own_words(alloc, world, seen)?;
        push_row(&mut words, &stripes)?;
        push_row(&mut words, &calls)?;
        Ok(Snapshot { words })
    }

    /// Its numbers.
    pub fn words(&self) -> &[u64]
        ensures { result.now ≡ self.now }
    {
        &self.words
    }

    /// Whether the two are equal.
    pub fn is_same(&self, other: &Snapshot) -> bool
        ensures { IsTrue result ↔ (self.now ≡ other.now) }
    {
        *self == *other
    }

    /// A hash of the numbers, by which snapshots may be looked up: equal snapshots have equal hashes.
    pub fn fingerprint(&self) -> u64
        ensures { result ≡ fingerprint_of self.now }
    {
        fingerprint_of(&self.words)
    }
}

/// The rows of the parts of a world beside its stripes and calls.
fn own_words(alloc: Global, world: &World, seen: &mut Seen) -> Result<Vec<u64>, AllocError>
    ensures rows { IfOk result (λ words. (n : OwnRows)
        × (words.items ≡ flat (own_rows n world.now.world)) × HasOwnRows seen.new world.now.world n) }
    ensures grows { GrowsTo seen.old seen.new }
{
    let config = seen.configs.number_of(world.config())?;
    let premises = seen.premises.number_of(&world.premises())?;
    let foreign = foreign_numbers(alloc, world, &mut seen.entries)?;
    let store = store_numbers(alloc, world, &mut seen.entries)?;
    let parts = part_numbers(alloc, world, &mut seen.parts)?;
    let joins = join_numbers(alloc, world, &mut seen.joins)?;
    let last = last_row(alloc, world.last())?;
    let scalars = [config, premises, bit(world.is_fresh())];
    let mut words = five_rows(alloc, &scalars, &last, &store, &parts, &joins)?;
    push_row(&mut words, &foreign)?;
    Ok(words)
}

/// The numbers of the store's entries.
fn store_numbers(
    alloc: Global,
    world: &World,
    table: &mut Table<(Key, Value)>,
) -> Result<Vec<u64>, AllocError>
    ensures numbers { IfOk result (λ numbers.
        AreNumbers table.new (map.entries world.now.world.store) numbers.items) }
    ensures grows { Continues table.old table.new }
{
    let entries = world.stored_entries(alloc)?;
    let numbers = numbers_of(alloc, table, &entries)?;
    Ok(numbers)
}

/// The numbers of the keys that somebody else has written.
fn foreign_numbers(
    alloc: Global,
    world: &World,
    table: &mut Table<(Key, Value)>,
) -> Result<Vec<u64>, AllocError>
    ensures numbers { IfOk result (λ numbers.
        AreNumbers table.new (map.entries world.now.world.foreign) numbers.items) }
    ensures grows { Continues table.old table.new }
{
    let entries = world.foreign_keys(alloc)?;
    let numbers = numbers_of(alloc, table, &entries)?;
    Ok(numbers)
}

/// The numbers of the asks of calls and their answers, in the order of the reserved keys.
fn part_numbers(
    alloc: Global,
    world: &World,
    table: &mut Table<(Key, Part)>,
) -> Result<Vec<u64>, AllocError>
    ensures numbers { IfOk result (λ numbers.
        AreNumbers table.new (map.entries world.now.world.parts) numbers.items) }
    ensures grows { Continues table.old table.new }
{
    let parts = world.parts(alloc)?;
    let parts = sorted(alloc, &parts)?;
    let numbers = numbers_of(alloc, table, &parts)?;
    Ok(numbers)
}

/// The numbers of the joins, in the order of calls and keys.
fn join_numbers(
    alloc: Global,
    world: &World,
    table: &mut Table<((u64, Key), JoinedLoad)>,
) -> Result<Vec<u64>, AllocError>
    ensures numbers { IfOk result (λ numbers.
        AreNumbers table.new (map.entries world.now.world.joins) numbers.items) }
    ensures grows { Continues table.old table.new }
{
    let joins = world.joins(alloc)?;
    let joins = sorted(alloc, &joins)?;
    let numbers = numbers_of(alloc, table, &joins)?;
    Ok(numbers)
}

/// The highest number of a call so far, as a row.
fn last_row(alloc: Global, last: Option<u64>) -> Result<Vec<u64>, AllocError>
    ensures { IfOk result (λ row. row.items ≡ last_row last) }
{
    let mut row = Vec::new(alloc);
    if let Some(last) = last {
        row.push(last)?;
    }
    Ok(row)
}

/// The FNV-1a hash of numbers.
fn fingerprint_of(words: &[u64]) -> u64
    ensures { result ≡ fingerprint_of words.now }
{
    let mut print = FINGERPRINT_START;
    for word in words {
        print = (print ^ *word).wrapping_mul(FINGERPRINT_FACTOR);
    }
    print
}
