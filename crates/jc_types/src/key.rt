//! The key of an entry, and the stripe that it belongs to.
ghost use Rattle.std.specs.Prelude.{◌≡◌, ◌<◌, ◌≤◌, ◌↔◌, ◌==◌, [], ◌∷◌, length, sum, IfOk, IsOk};
ghost use Rattle.std.proofs.Common.{rules};
ghost use Rattle.std.specs.Ordering.{nat_cmp, as_partial_cmp};
ghost use Rattle.std.specs.Cmp.{partial_order_from_own_ties};
ghost use Rattle.std.specs.Cmp.Rules.{comparing, hashing};
ghost use Rattle.std.specs.Cmp.Lexicographic.{slice_cmp, pointwise};
ghost use Rattle.jc_types.specs.Stripes.{stripe_of};

use crate::inline::{filled, fmt_bytes};
use crate::limits::KEY_MAX;
use crate::words::cmp_words;
use std::cmp::Ordering;
use std::fmt::{self, Debug, Formatter, Write};
use std::hash::{Hash, Hasher};
use std::marker::Model;
use thiserror::Error;

/// Why [`Key::new`] made no key.
#[derive(Clone, Copy, Debug, PartialEq, Eq, Error)]
pub enum KeyFault {
    /// The text has no byte.
    #[error("a key has at least one byte")]
    Empty,
    /// The text has more than [`KEY_MAX`] bytes.
    #[error("a key has at most {max} bytes", max = KEY_MAX)]
    TooLong,
}

/// The key of an entry: 1 to [`KEY_MAX`] bytes of any kind, kept inline.
///
/// A key is a copy of the bytes that it was made of, so nobody can change one that a cache holds
/// (JSR 107, "Store-By-Value"). Two keys are equal if they have the same bytes, and keys are
/// ordered byte by byte, as slices are. `Debug` prints a key as text.
#[derive(Clone, Copy)]
pub struct Key {
    // The bytes, followed by zeros.
    buf: [u8; KEY_MAX],
    // The number of bytes that count.
    len: Len,
}

// The smallest type that holds `KEY_MAX`.
type Len = u8;

impl Model for Key {
    ghost use Rattle.std.specs.Prelude.{List, ℕ, length, take};
    ghost use Rattle.jc_types.specs.Inline.{IsInline, padded};
    ghost use Rattle.jc_types.specs.KeyInside.{key_again};
    ghost use Rattle.jc_types.specs.declared.limits.TheConstants.{KEY_MAX};

    ghost Value = { List ℕ };

    ghost view = { λ k. take k.len k.buf };

    ghost invariant = { λ k. IsInline 1 KEY_MAX k.buf k.len };

    ghost inverse = { λ bytes. record { buf = padded KEY_MAX bytes; len = length bytes } };

    ghost inverse_ok = { key_again };
}

impl Key {
    /// A key of these bytes, which are copied. Every byte is allowed: a key needn't be text, and nothing is trimmed or folded.
    ///
    /// An `Err` says why there is no such key: [`KeyFault::Empty`] if there is no byte, [`KeyFault::TooLong`] if there are more
    /// than [`KEY_MAX`]. It takes no memory.
    pub fn new(bytes: &[u8]) -> Result<Key, KeyFault>
        ensures made { IfOk result (λ key. key ≡ bytes.now) }
        ensures ok { IsOk result ↔ ((0 < length bytes.now) × (length bytes.now ≤ KEY_MAX)) }
        ensures empty { (result ≡ Err KeyFault.Empty) ↔ (bytes.now ≡ []) }
        ensures long { (result ≡ Err KeyFault.TooLong) ↔ (KEY_MAX < length bytes.now) }
    {
        if bytes.is_empty() {
            return Err(KeyFault::Empty);
        }
        if bytes.len() > KEY_MAX {
            return Err(KeyFault::TooLong);
        }
        Ok(Key {
            buf: filled(bytes),
            len: bytes.len() as Len,
        })
    }

    /// The bytes that the key was made of, from 1 to [`KEY_MAX`] of them.
    pub fn bytes(&self) -> &[u8]
        ensures bytes { result.now ≡ self.now }
        ensures some { 0 < length self.now }
        ensures few { length self.now ≤ KEY_MAX }
    {
        &self.buf[..self.len as usize]
    }
}

/// The key of one zero byte, with which a table of a fixed size fills its free places.
impl Default for Key {
    ghost is_default = { λ key. key ≡ 0 ∷ [] };

    fn default() -> Key {
        Key {
            buf: [0; KEY_MAX],
            len: 1,
        }
    }
}

/// Prints the bytes as a quoted text if they are UTF-8, otherwise as a list of numbers.
impl Debug for Key {
    fn fmt<W: Write>(&self, f: &mut Formatter<W>) -> fmt::Result {
        fmt_bytes(self.bytes(), f)
    }
}

impl PartialEq for Key {
    ghost eq = { pointwise ◌==◌ };

    ghost laws = { Prim.search (comparing, rules) };

    #[inline]
    fn eq(&self, other: &Key) -> bool {
        self.cmp(other).is_eq()
    }
}

impl Eq for Key {
    ghost laws = { Prim.search (comparing, rules) };
}

impl Ord for Key {
    ghost cmp = { slice_cmp nat_cmp };

    ghost total = { Prim.search (comparing, rules) };

    ghost matches_partial_cmp = { Prim.search (comparing, rules) };

    ghost matches_eq = { Prim.search (comparing, rules) };

    #[inline]
    fn cmp(&self, other: &Key) -> Ordering {
        cmp_words(&self.buf, &other.buf).then(self.len.cmp(&other.len))
    }
}

impl PartialOrd for Key {
    ghost partial_cmp = { as_partial_cmp (slice_cmp nat_cmp) };

    ghost laws = { partial_order_from_own_ties (Prim.search (comparing, rules)) (Prim.search (comparing, rules)) };

    fn partial_cmp(&self, other: &Key) -> Option<Ordering> {
        Some(self.cmp(other))
    }
}

impl Hash for Key {
    // All bytes are hashed by one write, without their length: one write for each byte would cost several times as much.
    ghost hash_input = { λ bytes. bytes ∷ [] };

    ghost respects_eq = { Prim.search (hashing, rules) };

    fn hash<H: Hasher>(&self, state: &mut H) {
        state.write(self.bytes());
    }
}

/// The number of the stripe that a key belongs to, in a cache with `stripes` of them: the sum of the
/// key's bytes, modulo `stripes`. The first stripe is 0.
pub fn stripe_of(key: &Key, stripes: usize) -> usize
    requires { 0 < stripes }
    ensures { result ≡ stripe_of key.now stripes }
{
    byte_sum(key) as usize % stripes
}

/// The sum of a key's bytes. It isn't inlined, so that the loop becomes a few vector instructions.
#[inline(never)]
fn byte_sum(key: &Key) -> u32
    ensures { result ≡ sum key.now }
{
    // The whole buffer is added up, since the bytes that don't count are 0: so the number of steps is fixed.
    let mut total: u32 = 0;
    for byte in &key.buf {
        total += *byte as u32;
    }
    total
}
