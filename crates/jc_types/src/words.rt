//! Buffers of a key's size, compared by words of 8 bytes.
ghost use Rattle.std.specs.Prelude.{◌≡◌, ◌+◌, ◌≤◌, take, drop};
ghost use Rattle.std.specs.Int.{w64, from_be_bytes};
ghost use Rattle.std.specs.Ordering.{nat_cmp};
ghost use Rattle.std.specs.Cmp.Lexicographic.{slice_cmp};

use crate::limits::KEY_MAX;
use std::cmp::Ordering;

// The bytes of a word. `KEY_MAX` is a multiple of it.
const WORD: usize = 8;

/// The order of two buffers, byte by byte, which is the order of slices. It compares 8 bytes at once.
#[inline]
pub(crate) fn cmp_words(mine: &[u8; KEY_MAX], theirs: &[u8; KEY_MAX]) -> Ordering
    ensures { result ≡ slice_cmp nat_cmp mine.now theirs.now }
{
    for i in 0..KEY_MAX / WORD {
        let (a, b) = (word_at(mine, i * WORD), word_at(theirs, i * WORD));
        if a != b {
            return a.cmp(&b);
        }
    }
    Ordering::Equal
}

/// The 8 bytes at a place of a buffer as a number, the first byte the most significant one.
#[inline]
fn word_at(buf: &[u8; KEY_MAX], at: usize) -> u64
    requires { at + WORD ≤ KEY_MAX }
    ensures { result ≡ from_be_bytes w64 (take WORD (drop at buf.now)) }
{
    u64::from_be_bytes([
        buf[at],
        buf[at + 1],
        buf[at + 2],
        buf[at + 3],
        buf[at + 4],
        buf[at + 5],
        buf[at + 6],
        buf[at + 7],
    ])
}
