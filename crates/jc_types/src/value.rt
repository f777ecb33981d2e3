//! The value of an entry.
ghost use Rattle.std.specs.Prelude.{◌≡◌, ◌<◌, ◌≤◌, ◌↔◌, ◌==◌, [], length, IfOk, IsOk};
ghost use Rattle.std.proofs.Common.{rules};
ghost use Rattle.std.specs.Ordering.{nat_cmp, as_partial_cmp};
ghost use Rattle.std.specs.Cmp.{partial_order_from_own_ties};
ghost use Rattle.std.specs.Cmp.Rules.{comparing};
ghost use Rattle.std.specs.Cmp.Lexicographic.{slice_cmp, pointwise};

use crate::inline::{filled, fmt_bytes, refill};
use crate::limits::VALUE_MAX;
use std::cmp::Ordering;
use std::fmt::{self, Debug, Formatter, Write};
use std::marker::Model;
use thiserror::Error;

/// Why [`Value::new`] made no value.
#[derive(Clone, Copy, Debug, PartialEq, Eq, Error)]
pub enum ValueFault {
    /// The text has more than [`VALUE_MAX`] bytes.
    #[error("a value has at most {max} bytes", max = VALUE_MAX)]
    TooLong,
}

/// The value of an entry: 0 to [`VALUE_MAX`] bytes of any kind, kept inline.
///
/// A value is a copy of the bytes that it was made of, so nobody can change one that a cache holds
/// (JSR 107, "Store-By-Value"). Two values are equal if they have the same bytes, which is what
/// `remove(key, oldValue)` and `replace(key, oldValue, newValue)` test, and values are ordered byte
/// by byte, as slices are. `Debug` prints a value as text.
#[derive(Clone, Copy)]
pub struct Value {
    // The bytes, followed by zeros.
    buf: [u8; VALUE_MAX],
    // The number of bytes that count.
    len: Len,
}

// The smallest type that holds `VALUE_MAX`.
type Len = u16;

impl Model for Value {
    ghost use Rattle.std.specs.Prelude.{List, ℕ, length, take};
    ghost use Rattle.jc_types.specs.Inline.{IsInline, padded};
    ghost use Rattle.jc_types.specs.ValueInside.{value_again};
    ghost use Rattle.jc_types.specs.declared.limits.TheConstants.{VALUE_MAX};

    ghost Value = { List ℕ };

    ghost view = { λ v. take v.len v.buf };

    ghost invariant = { λ v. IsInline 0 VALUE_MAX v.buf v.len };

    ghost inverse = { λ bytes. record { buf = padded VALUE_MAX bytes; len = length bytes } };

    ghost inverse_ok = { value_again };
}

impl Value {
    /// A value of these bytes, which are copied. Every byte is allowed, and a value may have none.
    ///
    /// An `Err` is [`ValueFault::TooLong`]: there are more than [`VALUE_MAX`] bytes. It takes no memory.
    pub fn new(bytes: &[u8]) -> Result<Value, ValueFault>
        ensures made { IfOk result (λ value. value ≡ bytes.now) }
        ensures ok { IsOk result ↔ (length bytes.now ≤ VALUE_MAX) }
        ensures long { (result ≡ Err ValueFault.TooLong) ↔ (VALUE_MAX < length bytes.now) }
    {
        if bytes.len() > VALUE_MAX {
            return Err(ValueFault::TooLong);
        }
        Ok(Value {
            buf: filled(bytes),
            len: bytes.len() as Len,
        })
    }

    /// The bytes that the value was made of, at most [`VALUE_MAX`] of them.
    pub fn bytes(&self) -> &[u8]
        ensures bytes { result.now ≡ self.now }
        ensures few { length self.now ≤ VALUE_MAX }
    {
        &self.buf[..self.len as usize]
    }

    /// Takes the bytes of another value, in place: only the bytes that count are copied, and the rest of a longer old value is
    /// cleared.
    pub fn copy_from(&mut self, other: &Value)
        ensures { self.new ≡ other.now }
    {
        refill(&mut self.buf, self.len as usize, other.bytes());
        self.len = other.len;
    }
}

/// The value of no bytes, with which a buffer for values begins.
impl Default for Value {
    ghost is_default = { λ value. value ≡ [] };

    fn default() -> Value {
        Value {
            buf: [0; VALUE_MAX],
            len: 0,
        }
    }
}

/// Prints the bytes as a quoted text if they are UTF-8, otherwise as a list of numbers.
impl Debug for Value {
    fn fmt<W: Write>(&self, f: &mut Formatter<W>) -> fmt::Result {
        fmt_bytes(self.bytes(), f)
    }
}

impl PartialEq for Value {
    ghost eq = { pointwise ◌==◌ };

    ghost laws = { Prim.search (comparing, rules) };

    fn eq(&self, other: &Value) -> bool {
        self.bytes() == other.bytes()
    }
}

impl Eq for Value {
    ghost laws = { Prim.search (comparing, rules) };
}

impl Ord for Value {
    ghost cmp = { slice_cmp nat_cmp };

    ghost total = { Prim.search (comparing, rules) };

    ghost matches_partial_cmp = { Prim.search (comparing, rules) };

    ghost matches_eq = { Prim.search (comparing, rules) };

    fn cmp(&self, other: &Value) -> Ordering {
        self.bytes().cmp(other.bytes())
    }
}

impl PartialOrd for Value {
    ghost partial_cmp = { as_partial_cmp (slice_cmp nat_cmp) };

    ghost laws = { partial_order_from_own_ties (Prim.search (comparing, rules)) (Prim.search (comparing, rules)) };

    fn partial_cmp(&self, other: &Value) -> Option<Ordering> {
        Some(self.cmp(other))
    }
}
