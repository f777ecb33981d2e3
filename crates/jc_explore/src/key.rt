//! The part of a scene that decides what may come.
ghost use Rattle.std.specs.Prelude.{◌≡◌, true, false, IfOk};
ghost use Rattle.std.specs.List.{fold};
ghost use Rattle.jc_snapshot.specs.Snapshot.{GrowsTo};
ghost use Rattle.jc_explore.specs.Schedule.{scene_state};
ghost use Rattle.jc_explore.specs.Keys.{HaveOneKey, IsKeyOf, fingerprint_of_key};
ghost use Rattle.jc_explore.specs.Keys.{key_print_with, print_with_fault, print_with_position, print_with_reply};

use crate::replies::{ThreadReply, same_replies};
use crate::scene::{Position, Scene};
use jc_model::Reply;
use jc_snapshot::{Seen, Snapshot};
use jc_types::Refusal;
use std::alloc::{AllocError, Global};

/// The factor of a fingerprint for each further number: that of FNV-1a for 64 bits.
const PRINT_FACTOR: u64 = 1099511628211;

/// The part of a scene that decides what may come.
#[derive(Drop)]
pub struct StateKey {
    /// The snapshot of its world.
    pub snapshot: Snapshot,
    /// The state of each thread.
    pub positions: Vec<Position>,
    /// The replies to the threads.
    pub replies: Vec<ThreadReply>,
}

impl StateKey {
    /// The key of a scene. A thing that a table hasn't met gets its next number. An `Err` says that an allocation failed.
    pub fn of(alloc: Global, scene: &Scene, seen: &mut Seen) -> Result<StateKey, AllocError>
        ensures key { IfOk result (λ key. IsKeyOf seen.new key (scene_state scene.now)) }
        ensures grows { IfOk result (λ key. GrowsTo seen.old seen.new) }
    {
        let snapshot = Snapshot::of(alloc, &scene.world, seen)?;
        let positions = Vec::from_slice(alloc, &scene.positions)?;
        let replies = Vec::from_slice(alloc, &scene.replies)?;
        Ok(StateKey {
            snapshot,
            positions,
            replies,
        })
    }

    /// Whether two keys are the same. Over the same tables, two scenes are alike exactly if their keys are the same.
    pub fn is_same(&self, other: &StateKey) -> bool
        ensures same { result ≡ true → HaveOneKey self.now other.now }
        ensures apart { result ≡ false → HaveOneKey self.now other.now → ⊥ }
    {
        self.snapshot.is_same(&other.snapshot)
            && same_positions(&self.positions, &other.positions)
            && same_replies(&self.replies, &other.replies)
    }

    /// A number by which keys are looked up: equal keys have the same number.
    pub fn fingerprint(&self) -> u64
        ensures { result ≡ fingerprint_of_key self.now }
    {
        let print = self.snapshot.fingerprint();
        let placed = with_positions(print, &self.positions);
        with_replies(placed, &self.replies)
    }
}

/// A fingerprint with one more number.
fn with_word(print: u64, word: u64) -> u64
    ensures { result ≡ key_print_with print word }
{
    (print ^ word).wrapping_mul(PRINT_FACTOR)
}

/// A fingerprint with bytes.
fn with_bytes(print: u64, bytes: &[u8]) -> u64
    ensures { result ≡ fold key_print_with print bytes.now }
{
    let mut longer = print;
    for byte in bytes {
        longer = with_word(longer, *byte as u64);
    }
    longer
}

/// A fingerprint with how far threads are.
fn with_positions(print: u64, positions: &[Position]) -> u64
    ensures { result ≡ fold print_with_position print positions.now }
{
    let mut longer = print;
    for position in positions {
        longer = with_word(longer, position.begun as u64);
    }
    longer
}

/// A fingerprint with a refusal.
fn with_fault(print: u64, refusal: &Refusal) -> u64
    ensures { result ≡ print_with_fault print refusal.now }
{
    match refusal {
        Refusal::LoaderFailed(code) => with_word(with_word(print, 5), *code as u64),
        Refusal::WriterFailed(code) => with_word(with_word(print, 6), *code as u64),
        Refusal::ProcessorFailed(code) => with_word(with_word(print, 7), *code as u64),
        _ => with_word(print, 8),
    }
}

/// A fingerprint with a reply to a thread.
fn with_reply(print: u64, reply: &ThreadReply) -> u64
    ensures { result ≡ print_with_reply print reply.now }
{
    let begun = with_word(print, reply.thread as u64);
    match &reply.reply {
        Reply::Unit => with_word(begun, 0),
        Reply::Flag(true) => with_word(begun, 1),
        Reply::Flag(false) => with_word(begun, 2),
        Reply::Value(None) => with_word(begun, 3),
        Reply::Value(Some(value)) => with_bytes(with_word(begun, 4), value.bytes()),
        Reply::Fault(refusal) => with_fault(begun, refusal),
    }
}

/// A fingerprint with replies to threads.
fn with_replies(print: u64, replies: &[ThreadReply]) -> u64
    ensures { result ≡ fold print_with_reply print replies.now }
{
    let mut longer = print;
    for reply in replies {
        longer = with_reply(longer, reply);
    }
    longer
}

/// Whether two lists of positions are one.
fn same_positions(one: &[Position], other: &[Position]) -> bool
    ensures same { result ≡ true → one.now ≡ other.now }
    ensures apart { result ≡ false → one.now ≡ other.now → ⊥ }
{
    if one.len() != other.len() {
        return false;
    }
    for at in 0..one.len() {
        if one[at].begun != other[at].begun {
            return false;
        }
    }
    true
}
