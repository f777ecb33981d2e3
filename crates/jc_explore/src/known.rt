//! The states that an exploration has come to, each once.
ghost use Rattle.std.specs.Prelude.{◌≡◌, ◌<◌, ◌++◌, ◌∷◌, [], length, true, false, OnOk};
ghost use Rattle.std.specs.List.{All, Any};
ghost use Rattle.jc_explore.specs.Schedule.{PlaysSchedule, have_sessions, opening, scene_state};
ghost use Rattle.jc_explore.specs.Keys.{HaveOneKey, fingerprint_of_key};
ghost use Rattle.jc_explore.specs.Search.{AreKnown, HavePlaces, HavePrints, IsKeyAt, Notes};

use crate::key::StateKey;
use crate::moves::Move;
use crate::places::Places;
use crate::program::Program;
use crate::scene::Scene;
use jc_snapshot::Seen;
use jc_snapshot::laws::{snapshots_stay, snapshots_tell};
use std::alloc::{AllocError, Global};

/// A state: a schedule that leads to it, and its key.
#[derive(Drop)]
pub struct KnownState {
    /// The schedule.
    pub schedule: Vec<Move>,
    /// The key.
    pub key: StateKey,
}

/// The states, in the order in which they were met.
#[derive(Drop)]
pub struct States {
    /// The tables of their snapshots.
    pub seen: Seen,
    /// The states.
    pub list: Vec<KnownState>,
    /// The fingerprint of each.
    pub fingerprints: Vec<u64>,
    /// The places of the fingerprints.
    pub places: Places,
}

impl States {
    /// No states.
    pub(crate) fn new(alloc: Global) -> States
        ensures list { result.list.items ≡ [] }
        ensures fingerprints { result.fingerprints.items ≡ [] }
    {
        States {
            seen: Seen::new(alloc),
            list: Vec::new(alloc),
            fingerprints: Vec::new(alloc),
            places: Places::new(alloc),
        }
    }

    /// Whether the state at a place has this key.
    fn is_at(&self, place: usize, key: &StateKey, fingerprint: u64) -> bool
        requires inside { place < length self.now.list.items }
        requires prints { HavePrints self.now }
        requires print { fingerprint ≡ fingerprint_of_key key.now }
        ensures same { result ≡ true → IsKeyAt self.now.list.items place key.now }
        ensures apart { result ≡ false → IsKeyAt self.now.list.items place key.now → ⊥ }
    {
        if self.fingerprints[place] != fingerprint {
            return false;
        }
        self.list[place].key.is_same(key)
    }

    /// Whether some state has this key: each is looked at.
    fn is_anywhere(&self, key: &StateKey, fingerprint: u64) -> bool
        requires prints { HavePrints self.now }
        requires print { fingerprint ≡ fingerprint_of_key key.now }
        ensures there { result ≡ true → Any (λ k. HaveOneKey k.key key.now) self.now.list.items }
        ensures none { result ≡ false → All (λ k. HaveOneKey k.key key.now → ⊥) self.now.list.items }
    {
        for place in 0..self.list.len() {
            if self.is_at(place, key, fingerprint) {
                return true;
            }
        }
        false
    }

    /// Whether the state at a place, if there is one, has this key.
    fn is_there(&self, place: usize, key: &StateKey, fingerprint: u64) -> bool
        requires prints { HavePrints self.now }
        requires print { fingerprint ≡ fingerprint_of_key key.now }
        ensures { result ≡ true → Any (λ k. HaveOneKey k.key key.now) self.now.list.items }
    {
        if place >= self.list.len() {
            return false;
        }
        self.is_at(place, key, fingerprint)
    }

    /// Whether the state at a place, if there is one, or otherwise some other state has this key. It looks at each state only if
    /// two keys have the same fingerprint.
    fn is_near(&self, place: usize, key: &StateKey, fingerprint: u64) -> bool
        requires prints { HavePrints self.now }
        requires print { fingerprint ≡ fingerprint_of_key key.now }
        ensures there { result ≡ true → Any (λ k. HaveOneKey k.key key.now) self.now.list.items }
        ensures none { result ≡ false → All (λ k. HaveOneKey k.key key.now → ⊥) self.now.list.items }
    {
        if self.is_there(place, key, fingerprint) {
            return true;
        }
        self.is_anywhere(key, fingerprint)
    }

    /// Whether a state with this key is known. A key whose fingerprint has no place is new.
    fn has(&self, key: &StateKey, fingerprint: u64) -> bool
        requires prints { HavePrints self.now }
        requires places { HavePlaces self.now }
        requires print { fingerprint ≡ fingerprint_of_key key.now }
        ensures there { result ≡ true → Any (λ k. HaveOneKey k.key key.now) self.now.list.items }
        ensures none { result ≡ false → All (λ k. HaveOneKey k.key key.now → ⊥) self.now.list.items }
    {
        match self.places.find(fingerprint) {
            Some(place) => self.is_near(place, key, fingerprint),
            None => false,
        }
    }
}

/// Notes the state of a scene to which a schedule has led, unless it is known. An `Err` says that an allocation failed; the
/// states can't be used any more then.
pub(crate) fn note_state(
    alloc: Global,
    program: &Program,
    scene: &Scene,
    schedule: Vec<Move>,
    known: &mut States,
) -> Result<(), AllocError>
    requires plays { PlaysSchedule program.now (opening program.now) schedule.items (scene_state scene.now) }
    requires sessions { have_sessions schedule.items ≡ true }
    requires known { AreKnown program.now known.old }
    ensures { OnOk result (
        Notes program.now schedule.items known.old known.new (scene_state scene.now)) }
{
    snapshots_tell();
    snapshots_stay();
    let _threads = program.threads.len();
    let key = StateKey::of(alloc, scene, &mut known.seen)?;
    let print = key.fingerprint();
    if known.has(&key, print) {
        return Ok(());
    }
    let place = known.list.len();
    known.places.note(print, place)?;
    known.fingerprints.push(print)?;
    known.list.push(KnownState { schedule, key })?;
    Ok(())
}

/// Notes the state after a schedule and one more move, as [`note_state`](States::note_state) does.
pub(crate) fn note_next(
    alloc: Global,
    program: &Program,
    scene: &Scene,
    schedule: &[Move],
    step: Move,
    known: &mut States,
) -> Result<(), AllocError>
    requires plays { PlaysSchedule program.now (opening program.now) (schedule.now ++ step ∷ []) (scene_state scene.now) }
    requires sessions { have_sessions (schedule.now ++ step ∷ []) ≡ true }
    requires known { AreKnown program.now known.old }
    ensures { OnOk result (
        Notes program.now (schedule.now ++ step ∷ []) known.old known.new (scene_state scene.now)) }
{
    let mut longer = Vec::from_slice(alloc, schedule)?;
    longer.push(step)?;
    note_state(alloc, program, scene, longer, known)
}
